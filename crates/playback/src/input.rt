// The bytes of an input.
ghost use Rattle.std.specs.Prelude.{◌≡◌, ◌<◌, ◌≤◌, length, take, IfOk, IfSome};
ghost use Rattle.std.specs.Io.{ReadsAtMost};
ghost use Rattle.std.specs.Io.KnownBytes.{Consumes, IsAtEnd};

use std::alloc::Global;
use std::io;
use std::io::Read;

// Reads to the end of the input, or up to so many bytes.
pub fn read_input<R: Read + Drop>(alloc: Global, from: R, most: u64) -> io::Result<Vec<u8>>
    ensures bound { IfOk result (λ input. length input.items ≤ most) }
    ensures bytes { IfOk result (λ input. IfSome (R.remaining from) (λ bytes. input.items ≡ take most bytes)) }
{
    let mut input = Vec::new(alloc);
    from.take(most).read_to_end(&mut input)?;
    input.truncate(most as usize);
    Ok(input)
}

// Reads into lent bytes until they are full or the input ends, and answers how many were read. The reader is lent too: what it
// still has is told, for whoever reads on.
pub fn read_full<R: Read>(from: &mut R, input: &mut [u8]) -> io::Result<usize>
    ensures bound { ReadsAtMost result input.new }
    ensures bytes { IfOk result (λ n. Consumes (R.remaining from.old) (R.remaining from.new) (take n input.new)) }
    ensures end { IfOk result (λ n. n < length input.new → IsAtEnd (R.remaining from.new)) }
{
    let mut n = 0usize;
    while n < input.len() {
        let more = from.read(&mut input[n..])?;
        if more == 0 {
            break;
        }
        n += more;
    }
    Ok(n)
}
