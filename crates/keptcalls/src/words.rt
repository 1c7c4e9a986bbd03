// A binding call in the words that a machine keeps of it, so that 1,024 calls fit a scanner: a number for each of 32 parts, then
// a word of small numbers and one of actions. A call that is in range is wholly in them; any other is cut to what there is room
// for, and the graph refuses it before it could be kept. Any words are some call.
ghost use Rattle.std.specs.Prelude.{◌≡◌, ◌<◌, ◌≤◌, ◌/◌, ◌%◌, true, ℕ, List, map, length, take, OnErr};
ghost use Rattle.rules.specs.Values as v;
ghost use Rattle.rules.specs.Graph.{Graph};
ghost use Rattle.rules.specs.KeyLoop.{State};
ghost use Rattle.rules.specs.Calls.{graph_kind, keep};
ghost use Rattle.keyvalues.specs.View.{part_of, step_of, whole_path, whole_step, call_of, told};
ghost use Rattle.keptcalls.specs.View.{cut_part, parts_in, step_at, kind_number, call_as, binding_in, binding_there, call_in, kept_in, machine_with};

use crate::binding::Binding;
use crate::{pack, unpack};
use keyvalues::list;
use keyvalues::path::{EdgePath, EdgePathPart};
use keyvalues::refusal::Refusal;
use keyvalues::step::Step;

#[repr(C)]
#[derive(Clone, Copy, Debug, PartialEq, Eq)]
pub struct CallWords {
    pub parts: [u32; EdgePath::PARTS as usize],
    pub head: u64,
    pub actions: u64,
}

// A code for each part that is there, and zeros behind them.
fn part_codes(
    parts: &[EdgePathPart; EdgePath::PARTS as usize],
    count: u16,
) -> [u32; EdgePath::PARTS as usize]
    ensures { (take (length (take count parts.now)) (parts_in result) ≡ map cut_part (map part_of (take count parts.now))) × (length parts.now ≡ 32) }
{
    let there = list::front(parts, count);
    let mut codes = [0u32; EdgePath::PARTS as usize];
    for place in 0..there.len() {
        codes[place] = pack::part_code(there[place]);
    }
    codes
}

// What a call says beside its mode and its path: a mapping's step, a prefix with no step, or a prefix with its step.
#[derive(Clone, Copy)]
enum Kind<'a> {
    Mapping(&'a Step),
    Prefix,
    PrefixWithStep(&'a Step),
}

impl<'a> Kind<'a> {
    fn number(self) -> u64
        ensures { (result ≡ kind_number self.entry) × (result < 4) }
    {
        match self {
            Kind::Mapping(_) => 0,
            Kind::Prefix => 1,
            Kind::PrefixWithStep(_) => 2,
        }
    }

    // The step's numbers and, in a word of their own, its actions: both are 0 where there is no step.
    #[tactic(auto, unfolding(keyvalues::specs::View::call_of, rules::specs::Values::binding_valid, rules::specs::Values::map_valid, rules::specs::Values::prefix_valid))]
    fn step_words(self) -> (u64, u64)
        ensures upper_bound { result.0 < 1073741824 }
        ensures by_kind { (mode : ℕ) (path : List v.Part) → v.binding_valid (call_as self.entry mode path) ≡ true → call_of (kind_number self.entry) mode path (step_at result.0 result.1) ≡ call_as self.entry mode path }
    {
        match self {
            Kind::Prefix => (0, 0),
            Kind::Mapping(step) | Kind::PrefixWithStep(step) => {
                (pack::step_code(step), step.actions.word())
            }
        }
    }
}

impl CallWords {
    // So many calls are kept at most.
    pub const KEPT: u16 = 1024;

    // The words of a place where no call stands.
    pub const EMPTY: CallWords = CallWords {
        parts: [0u32; EdgePath::PARTS as usize],
        head: 0,
        actions: 0,
    };

    #[tactic(auto, using(crate::proofs::Packing::call_back))]
    fn of_kind(kind: Kind, mode: u16, path: &EdgePath) -> CallWords
        ensures { v.binding_valid (call_as kind.entry mode (whole_path path.now)) ≡ true → call_in result ≡ call_as kind.entry mode (whole_path path.now) }
    {
        let parts = part_codes(&path.parts, path.count);
        let (numbers, actions) = kind.step_words();
        let mode_bits = mode % 16;
        let count = path.count % 64;
        CallWords {
            parts: parts,
            head: kind.number() + 4 * ((mode_bits as u64) + 16 * ((count as u64) + 64 * numbers)),
            actions: actions,
        }
    }

    // The words of a call.
    pub fn of(call: &Binding) -> CallWords
        ensures { v.binding_valid (binding_in call.now) ≡ true → call_in result ≡ binding_in call.now }
    {
        match call {
            Binding::Mapping { mode, path, step } => CallWords::of_kind(
                Kind::Mapping(step),
                *mode,
                path,
            ),
            Binding::Prefix {
                mode,
                path,
                step: None,
            } => CallWords::of_kind(Kind::Prefix, *mode, path),
            Binding::Prefix {
                mode,
                path,
                step: Some(step),
            } => CallWords::of_kind(Kind::PrefixWithStep(step), *mode, path),
        }
    }

    // What the words say of a call, each by itself: 0 for a mapping, 1 for a prefix, more for a prefix with its step.
    pub fn kind(&self) -> u16
        ensures { result ≡ self.now.head % 4 }
    {
        (self.head % 4) as u16
    }

    pub fn mode(&self) -> u16
        ensures { result ≡ self.now.head / 4 % 16 }
    {
        (self.head / 4 % 16) as u16
    }

    // How many of the parts count. More than there are is all of them.
    pub fn count(&self) -> u16
        ensures { result ≡ self.now.head / 4 / 16 % 64 }
    {
        (self.head / 4 / 16 % 64) as u16
    }

    // The step, which is any where the kind has none.
    pub fn step(&self) -> Step
        ensures whole { whole_step result ≡ step_at (self.now.head / 4 / 16 / 64) self.now.actions }
        ensures there { step_of result ≡ step_at (self.now.head / 4 / 16 / 64) self.now.actions }
    {
        unpack::step(self.head / 4 / 16 / 64, self.actions)
    }
}

impl From<&CallWords> for Binding {
    ghost from_gives = { λ words call. (binding_in call ≡ call_in words.now) × (binding_there call ≡ call_in words.now) };

    // The call of the words. Its counts are in their ranges, whatever the words: all of it is there.
    #[tactic(auto, unfolding(keyvalues::specs::View::call_of, crate::specs::View::call_by))]
    fn from(words: &CallWords) -> Binding
        ensures { (binding_in result ≡ call_in words.now) × (binding_there result ≡ call_in words.now) }
    {
        let mode = words.mode();
        let path = unpack::path(&words.parts, words.count());
        let step = words.step();
        match words.kind() {
            0 => Binding::Mapping { mode, path, step },
            1 => Binding::Prefix {
                mode,
                path,
                step: None,
            },
            _ => Binding::Prefix {
                mode,
                path,
                step: Some(step),
            },
        }
    }
}

// A call that was accepted is kept behind the first `count`, and the new count is told. Where 1,024 are kept it is refused, and
// nothing changes. The graph before the call (g₀) and after it (g) and the state x are whatever they are.
#[tactic(auto, unfolding(crate::specs::View::kept_in, rules::specs::Calls::keep))]
pub fn keep(
    kept: &mut [CallWords; CallWords::KEPT as usize],
    count: u16,
    call: &Binding,
) -> Result<u16, Refusal>
    ensures keeps { (g₀ g : Graph) (x : State ℕ) → v.binding_valid (binding_in call.now) ≡ true → told (λ n. machine_with g (kept_in n kept.new) x) result ≡ keep graph_kind (binding_in call.now) (machine_with g₀ (kept_in count kept.old) x) g }
    ensures refused { OnErr result (kept.new ≡ kept.old) }
{
    list::append(kept, count, CallWords::of(call)).ok_or(Refusal::CallsFull)
}

// The first `count` calls of src, in dst.
#[tactic(auto, unfolding(crate::specs::View::kept_in))]
pub fn copy_calls(
    dst: &mut [CallWords; CallWords::KEPT as usize],
    src: &[CallWords; CallWords::KEPT as usize],
    count: u16,
)
    ensures { kept_in count dst.new ≡ kept_in count src.now }
{
    let calls = list::front(src, count);
    dst[..calls.len()].copy_from_slice(calls);
}
