// Steps.
ghost use Rattle.rules.specs.MapFile.{read_step};
ghost use Rattle.keyvalues.specs.View.{whole_step};
ghost use Rattle.mapparts.specs.View.{Reads};

use crate::list;
use crate::reader::Reader;
use keyvalues::refusal::Refusal;
use keyvalues::step::Step;

// Flag, list, next mode, fallthrough, mark.
#[tactic(auto, using(crate::proofs::Parts::fit_numbers))]
pub fn read_step(reader: &mut Reader) -> Result<Step, Refusal>
    ensures { Reads whole_step read_step reader.old.rest.now result reader.new.rest.now }
{
    let flag = reader.up_to(1)?;
    let actions = list::read_actions(reader)?;
    let next = list::read_optional_mode(reader)?;
    let fallthrough = list::read_optional_mode(reader)?;
    let mark = list::read_mark(reader)?;
    Ok(Step {
        unmapped: flag == 1,
        actions,
        next,
        fallthrough,
        mark,
    })
}
