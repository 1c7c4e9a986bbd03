// Events and repeats of a path's parts, and the codes that stand for events in the words of edges and of kept calls.
ghost use Rattle.std.specs.Prelude.{◌≡◌, ◌<◌};
ghost use Rattle.rules.specs.Values as v;
ghost use Rattle.keyvalues.specs.View.{event_of, event_at, repeat_of};

#[derive(Clone, Copy, Debug, PartialEq, Eq)]
pub enum EdgeEvent {
    Key(u16),
    Class(u16),
    Any,
    Fallthrough,
}

#[derive(Clone, Copy, Debug, PartialEq, Eq)]
pub enum EdgeRepeat {
    Once,
    Min(u16),
    Max(u16),
}

impl EdgeEvent {
    pub const CLASSES: u16 = 256;

    // A number for each event: a key is its own code, a class has 65,536 added, and Any and Fallthrough come behind all classes.
    #[tactic(auto, unfolding(crate::specs::View::event_at))]
    pub fn code(self) -> u32
        ensures { (event_at result ≡ event_of self) × (result < 131074) }
    {
        match self {
            EdgeEvent::Key(k) => k as u32,
            EdgeEvent::Class(k) => (k as u32) + 65536,
            EdgeEvent::Any => 131072,
            EdgeEvent::Fallthrough => 131073,
        }
    }

    #[tactic(auto, unfolding(rules::specs::Values::event_valid))]
    pub fn valid(self) -> bool
        ensures { result ≡ v.event_valid (event_of self) }
    {
        match self {
            EdgeEvent::Class(k) => k < EdgeEvent::CLASSES,
            EdgeEvent::Key(_) | EdgeEvent::Any | EdgeEvent::Fallthrough => true,
        }
    }
}

impl EdgeRepeat {
    pub const MOST: u16 = 255;

    #[tactic(auto, unfolding(rules::specs::Values::repeat_valid))]
    pub fn valid(self) -> bool
        ensures { result ≡ v.repeat_valid (repeat_of self) }
    {
        match self {
            EdgeRepeat::Once => true,
            EdgeRepeat::Min(n) | EdgeRepeat::Max(n) => n <= EdgeRepeat::MOST,
        }
    }
}
