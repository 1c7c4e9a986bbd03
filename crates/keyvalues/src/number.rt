// The number in the lowest bits of a word.
ghost use Rattle.std.specs.Prelude.{◌≡◌, ◌%◌};

pub fn low(x: u64) -> u16
    ensures { result ≡ x % 65536 }
{
    (x % 65536) as u16
}
