// What the programs are made of: all of an input is read, and what is made of it is written.
ghost use Rattle.std.specs.Prelude.{take, IfOk, IfSome};
ghost use Rattle.playback.specs.View.{Answered};

use crate::input::read_input;
use std::alloc::Global;
use std::io;
use std::io::{BufWriter, Read, Write};

// Reads to the end of the input, or up to so many bytes, and writes what `answer` makes of them.
pub fn serve<
    R: Read + Drop,
    W: Write + Drop,
    F: FnOnce(&mut BufWriter<W>, &[u8]) -> io::Result<()>,
>(alloc: Global, from: R, to: W, most: u64, answer: F) -> io::Result<()>
    requires { F.IsAlwaysCallable answer }
    ensures { IfOk result (λ _. IfSome (R.remaining from) (λ bytes. Answered F.FnOnce answer (take most bytes))) }
{
    let input = read_input(alloc, from, most)?;
    let mut out = BufWriter::new(alloc, to)?;
    answer(&mut out, &input)?;
    out.flush()
}
