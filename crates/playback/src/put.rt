// A number in decimal.
ghost use Rattle.std.specs.Prelude.{◌<◌};
ghost use Rattle.rules.specs.Run.{decimal};
ghost use Rattle.mapparts.specs.View.{Writes, placed};

use keyvalues::refusal::Refusal;
use mapparts::writer::Writer;

// At most `most` digits, the last ones.
#[tactic(auto, using(mapparts::proofs::Writing::place_more, mapparts::proofs::Writing::place_stop, crate::proofs::Putting::one_digit, crate::proofs::Putting::last_digit, crate::proofs::Putting::more_digits))]
pub(crate) fn put_decimal(writer: &mut Writer, value: u16, most: u8) -> Result<(), Refusal>
    requires { 0 < most }
    ensures { Writes (placed (decimal most value)) writer.old result writer.new }
{
    let digit = 48 + (value % 10) as u8;
    if value < 10 || most == 1 {
        return writer.put_bytes(&[digit]);
    }
    put_decimal(writer, value / 10, most - 1)?;
    writer.put_bytes(&[digit])
}
