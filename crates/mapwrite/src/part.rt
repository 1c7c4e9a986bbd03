// Paths: parts, each a repeat and an event.
ghost use Rattle.std.specs.Prelude.{◌≡◌, ◌/◌, ◌%◌, length, take};
ghost use Rattle.rules.specs.Values.{Part};
ghost use Rattle.rules.specs.Writing.{listed, repeat_numbers, event_numbers, part_numbers};
ghost use Rattle.keyvalues.specs.View.{repeat_of, event_of, part_of};
ghost use Rattle.keptcalls.specs.View.{part_at, parts_in};
ghost use Rattle.mapparts.specs.View.{put_all, Writes};

use crate::list;
use crate::list::Written;
use keptcalls::unpack;
use keptcalls::words::CallWords;
use keyvalues::event::{EdgeEvent, EdgeRepeat};
use keyvalues::path::EdgePathPart;
use keyvalues::refusal::Refusal;
use mapparts::writer::Writer;

#[inline(always)]
#[tactic(auto, using(mapparts::proofs::Writing::writing), unfolding(rules::specs::Writing::repeat_numbers))]
fn put_repeat(repeat: EdgeRepeat, writer: &mut Writer) -> Result<(), Refusal>
    ensures { Writes (put_all (repeat_numbers (repeat_of repeat))) writer.old result writer.new }
{
    match repeat {
        EdgeRepeat::Once => writer.put(0),
        EdgeRepeat::Min(n) => {
            writer.put(1)?;
            writer.put(n)
        }
        EdgeRepeat::Max(n) => {
            writer.put(2)?;
            writer.put(n)
        }
    }
}

#[inline(always)]
#[tactic(auto, using(mapparts::proofs::Writing::writing), unfolding(rules::specs::Writing::event_numbers))]
fn put_event(event: EdgeEvent, writer: &mut Writer) -> Result<(), Refusal>
    ensures { Writes (put_all (event_numbers (event_of event))) writer.old result writer.new }
{
    match event {
        EdgeEvent::Key(key) => {
            writer.put(0)?;
            writer.put(key)
        }
        EdgeEvent::Class(class) => {
            writer.put(1)?;
            writer.put(class)
        }
        EdgeEvent::Any => writer.put(2),
        EdgeEvent::Fallthrough => writer.put(3),
    }
}

#[inline(always)]
#[tactic(auto, using(mapparts::proofs::Writing::writing), unfolding(rules::specs::Writing::part_numbers, keyvalues::specs::View::part_of))]
fn put_part(part: EdgePathPart, writer: &mut Writer) -> Result<(), Refusal>
    ensures { Writes (put_all (part_numbers (part_of part))) writer.old result writer.new }
{
    put_repeat(part.repeat, writer)?;
    put_event(part.event, writer)
}

// A part is kept as its code.
impl Written for EdgePathPart {
    type Kept = u32;

    ghost Value = { Part };

    ghost numbers = { part_numbers };

    ghost value = { part_at };

    ghost most = { 4 };

    #[inline(always)]
    #[tactic(auto, using(crate::proofs::Few::part_few))]
    fn write_to(kept: &u32, writer: &mut Writer) -> Result<(), Refusal> {
        put_part(unpack::part(*kept), writer)
    }
}

// The parts that are there. Only these are read back, since most paths have few.
#[inline(always)]
#[tactic(auto, using(crate::proofs::Lists::parts_taken))]
pub(crate) fn put_path(call: &CallWords, writer: &mut Writer) -> Result<(), Refusal>
    ensures room { length call.now.parts ≡ 32 }
    ensures writes { Writes (put_all (listed part_numbers (take (call.now.head / 4 / 16 % 64) (parts_in call.now.parts)))) writer.old result writer.new }
{
    list::put_list::<EdgePathPart>(&call.parts, call.count(), writer)
}
