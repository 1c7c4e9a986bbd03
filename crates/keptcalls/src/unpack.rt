// The numbers of a call's words, read back.
ghost use Rattle.std.specs.Prelude.{◌≡◌, take};
ghost use Rattle.rules.specs.MapFile.{optional_mark};
ghost use Rattle.keyvalues.specs.View.{event_of, repeat_of, part_of, maybe_of, path_of, step_of, whole_path, whole_step};
ghost use Rattle.keptcalls.specs.View.{event_by, repeat_by, part_at, parts_in, step_at};

use keyvalues::actions::Actions;
use keyvalues::event::{EdgeEvent, EdgeRepeat};
use keyvalues::node;
use keyvalues::path::{EdgePath, EdgePathPart};
use keyvalues::step::Step;

#[tactic(auto, unfolding(crate::specs::View::event_by))]
fn event(kind: u32, value: u16) -> EdgeEvent
    ensures { event_of result ≡ event_by kind value }
{
    match kind {
        0 => EdgeEvent::Key(value),
        1 => EdgeEvent::Class(value),
        2 => EdgeEvent::Any,
        _ => EdgeEvent::Fallthrough,
    }
}

#[tactic(auto, unfolding(crate::specs::View::repeat_by))]
fn repeat(kind: u32, number: u16) -> EdgeRepeat
    ensures { repeat_of result ≡ repeat_by kind number }
{
    match kind {
        0 => EdgeRepeat::Once,
        1 => EdgeRepeat::Min(number),
        _ => EdgeRepeat::Max(number),
    }
}

// The part of a code. Any code is some part.
#[tactic(auto, unfolding(crate::specs::View::part_at, keyvalues::specs::View::part_of))]
pub fn part(code: u32) -> EdgePathPart
    ensures { part_of result ≡ part_at code }
{
    EdgePathPart {
        repeat: repeat(code / 65536 / 4 % 4, (code / 65536 / 4 / 4 % 256) as u16),
        event: event(code / 65536 % 4, (code % 65536) as u16),
    }
}

// The path of the first `count` parts.
pub(crate) fn path(codes: &[u32; EdgePath::PARTS as usize], count: u16) -> EdgePath
    ensures whole { whole_path result ≡ take count (parts_in codes.now) }
    ensures there { path_of result ≡ take count (parts_in codes.now) }
{
    EdgePath {
        parts: codes.map(|code| part(code)),
        count: count.min(EdgePath::PARTS),
    }
}

// A mark that may be missing, which 0 says.
#[tactic(auto, unfolding(rules::specs::MapFile::optional_mark))]
fn mark(code: u16) -> Option<u16>
    ensures { maybe_of result ≡ optional_mark code }
{
    if code == 0 { None } else { Some(code) }
}

#[tactic(auto, using(keyvalues::proofs::Ranges::fit_take, std::proofs::lemmas::List::take_min), unfolding(crate::specs::View::step_at, keyvalues::specs::View::step_of))]
pub(crate) fn step(head: u64, actions: u64) -> Step
    ensures whole { whole_step result ≡ step_at head actions }
    ensures there { step_of result ≡ step_at head actions }
{
    Step {
        unmapped: head % 2 == 1,
        actions: Actions::of_word(actions, ((head / 2 % 8) as u16).min(Actions::MOST)),
        next: node::unopt(head / 2 / 8 % 32),
        fallthrough: node::unopt(head / 2 / 8 / 32 % 32),
        mark: mark((head / 2 / 8 / 32 / 32 % 65536) as u16),
    }
}
