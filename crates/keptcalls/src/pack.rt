// The numbers of a call's words. What is in range is wholly in them; anything else is cut to what there is room for.
ghost use Rattle.std.specs.Prelude.{◌≡◌, true, ℕ, ◌/◌, ◌%◌, ◌<◌};
ghost use Rattle.rules.specs.Values as v;
ghost use Rattle.keyvalues.specs.View.{event_of, repeat_of, part_of, whole_step, four_of};
ghost use Rattle.keptcalls.specs.View.{event_by, repeat_by, cut_repeat, cut_part, part_at, step_at};

use keyvalues::event::{EdgeEvent, EdgeRepeat};
use keyvalues::node;
use keyvalues::path::EdgePathPart;
use keyvalues::step::Step;

// The value in the lower 16 bits, the kind above them.
#[tactic(auto, unfolding(crate::specs::View::event_by))]
fn event_code(event: EdgeEvent) -> u32
    ensures { (event_by (result / 65536) (result % 65536) ≡ event_of event) × (result < 262144) }
{
    match event {
        EdgeEvent::Key(key) => key as u32,
        EdgeEvent::Class(class) => (class as u32) + 65536,
        EdgeEvent::Any => 131072,
        EdgeEvent::Fallthrough => 196608,
    }
}

// The kind in the lower two bits, the number above them.
#[tactic(auto, unfolding(crate::specs::View::repeat_by, crate::specs::View::cut_repeat))]
fn repeat_code(repeat: EdgeRepeat) -> u32
    ensures { (repeat_by (result % 4) (result / 4) ≡ cut_repeat (repeat_of repeat)) × (result < 1024) }
{
    match repeat {
        EdgeRepeat::Once => 0,
        EdgeRepeat::Min(n) => 1 + 4 * ((n % 256) as u32),
        EdgeRepeat::Max(n) => 2 + 4 * ((n % 256) as u32),
    }
}

// The event in the lower 18 bits, the repeat above them.
#[tactic(auto, using(crate::proofs::Packing::part_word), unfolding(keyvalues::specs::View::part_of))]
pub(crate) fn part_code(part: EdgePathPart) -> u32
    ensures { part_at result ≡ cut_part (part_of part) }
{
    event_code(part.event) + 262144 * repeat_code(part.repeat)
}

// A step without its actions, lowest first the flag, how many actions, the modes and the mark.
#[tactic(auto, using(crate::proofs::Packing::step_back))]
pub(crate) fn step_code(step: &Step) -> u64
    ensures upper_bound { result < 1073741824 }
    ensures by_index { (w : ℕ) → four_of w ≡ step.now.actions.items → v.step_valid (whole_step step.now) ≡ true → step_at result w ≡ whole_step step.now }
{
    let flag = u64::from(step.unmapped);
    let next = node::opt(step.next) % 32;
    let fall = node::opt(step.fallthrough) % 32;
    let mark = step.mark.unwrap_or(0) as u64;
    let count = step.actions.count % 8;
    flag + 2 * ((count as u64) + 8 * (next + 32 * (fall + 32 * mark)))
}
