// The keys of a run: all are read before the first is tried.
ghost use Rattle.rules.specs.Run.{read_keys};
ghost use Rattle.mapparts.specs.View.{Checked};

use crate::reader::Reader;
use keyvalues::refusal::Refusal;

// Do the bytes hold numbers to their end?
pub fn check_keys(bytes: &[u8]) -> Result<(), Refusal>
    ensures { Checked result (read_keys bytes.now) }
{
    let mut keys = Reader { rest: bytes };
    while !keys.rest.is_empty() {
        keys.number()?;
    }
    Ok(())
}
