// A path: up to 32 parts, each an event with its repeat.
ghost use Rattle.std.specs.Prelude.{◌≡◌, ◌≤◌, true, length, take};
ghost use Rattle.std.specs.List.{list_all};
ghost use Rattle.rules.specs.Values as v;
ghost use Rattle.keyvalues.specs.View.{part_of, path_of, whole_path};

use crate::event::{EdgeEvent, EdgeRepeat};
use crate::list;

#[derive(Clone, Copy, Debug, PartialEq, Eq)]
pub struct EdgePathPart {
    pub repeat: EdgeRepeat,
    pub event: EdgeEvent,
}

// The first `count` parts are the path. A count over 32 is a path that every call refuses.
#[derive(Clone, Copy, Debug, PartialEq, Eq)]
pub struct EdgePath {
    pub parts: [EdgePathPart; EdgePath::PARTS as usize],
    pub count: u16,
}

impl EdgePathPart {
    #[tactic(auto, unfolding(rules::specs::Values::part_valid, crate::specs::View::part_of))]
    pub fn valid(self) -> bool
        ensures { result ≡ v.part_valid (part_of self) }
    {
        self.repeat.valid() && self.event.valid()
    }
}

impl EdgePath {
    pub const PARTS: u16 = 32;

    // The parts that are there.
    pub fn parts(&self) -> &[EdgePathPart]
        ensures { (result.now ≡ take self.now.count self.now.parts) × (length result.now ≤ 32) }
    {
        list::front(&self.parts, self.count)
    }

    fn parts_valid(&self) -> bool
        ensures { result ≡ list_all (λ part. v.part_valid (part_of part)) (take self.now.count self.now.parts) }
    {
        self.parts().iter().all(|part| part.valid())
    }

    #[tactic(auto, using(crate::proofs::Ranges::fits, crate::proofs::Ranges::path_short), unfolding(rules::specs::Values::path_valid))]
    pub fn valid(&self) -> bool
        ensures test { result ≡ v.path_valid (whole_path self.now) }
        ensures plain { result ≡ true → whole_path self.now ≡ path_of self.now }
    {
        self.count <= EdgePath::PARTS && self.parts_valid()
    }
}
