// Steps.
ghost use Rattle.std.specs.Prelude.{◌∷◌, []};
ghost use Rattle.rules.specs.Writing.{flag_number, step_numbers};
ghost use Rattle.keyvalues.specs.View.{step_of};
ghost use Rattle.mapparts.specs.View.{put_all, Writes};

use crate::list;
use keyvalues::refusal::Refusal;
use keyvalues::step::Step;
use mapparts::writer::Writer;

#[inline(always)]
#[tactic(auto, unfolding(rules::specs::Writing::flag_number))]
fn put_flag(flag: bool, writer: &mut Writer) -> Result<(), Refusal>
    ensures { Writes (put_all (flag_number flag ∷ [])) writer.old result writer.new }
{
    writer.put(u16::from(flag))
}

// Flag, list, next mode, fallthrough, mark.
#[inline(always)]
#[tactic(auto, using(mapparts::proofs::Writing::writing), unfolding(rules::specs::Writing::step_numbers, keyvalues::specs::View::step_of))]
pub(crate) fn put_step(step: &Step, writer: &mut Writer) -> Result<(), Refusal>
    ensures { Writes (put_all (step_numbers (step_of step.now))) writer.old result writer.new }
{
    put_flag(step.unmapped, writer)?;
    list::put_actions(&step.actions, writer)?;
    list::put_mode(step.next, writer)?;
    list::put_mode(step.fallthrough, writer)?;
    list::put_mark(step.mark, writer)
}
