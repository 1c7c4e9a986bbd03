// A pair: an action with the context that it carries. Waiting and remembered pairs are kept as a word each.
ghost use Rattle.std.specs.Prelude.{◌≡◌, ◌+◌, ◌*◌, if◌then◌else◌};
ghost use Rattle.rules.specs.Values as v;
ghost use Rattle.rules.specs.KeyLoop.{override};
ghost use Rattle.keypairs.specs.View.{pair_by, pair_of, over_of};

use crate::context::Context;
use keyvalues::number;

#[derive(Clone, Copy, Debug, PartialEq, Eq)]
pub struct Pair {
    pub action: u16,
    pub context: Context,
}

impl Default for Pair {
    ghost is_default = { λ p. pair_by p ≡ v.default_pair };

    // Action 0 with nothing gathered.
    #[tactic(auto, unfolding(rules::specs::Values::default_pair))]
    fn default() -> Pair
        ensures { pair_by result ≡ v.default_pair }
    {
        Pair {
            action: 0,
            context: Context::default(),
        }
    }
}

impl Pair {
    // So many pairs wait at most.
    pub const QUEUE: u16 = 256;

    // The word of a pair: its action, below what its context is packed to.
    #[tactic(auto, unfolding(crate::specs::View::pair_of))]
    pub fn pack(self) -> u64
        ensures means { pair_of result ≡ pair_by self }
        ensures number { result ≡ self.action + 65536 * self.context.count + 4294967296 * self.context.mark + (if self.context.typed then 562949953421312 else 0) }
    {
        (self.action as u64) + self.context.pack()
    }

    // The pair of a word of the queue or of a sequence.
    #[tactic(auto, unfolding(crate::specs::View::pair_of))]
    pub fn unpack(w: u64) -> Pair
        ensures { pair_by result ≡ pair_of w }
    {
        Pair {
            action: number::low(w),
            context: Context::unpack(w),
        }
    }

    // The pair with its context overridden, if a context is given.
    pub fn overridden(self, over: Option<Context>) -> Pair
        ensures { pair_by result ≡ override (over_of over) (pair_by self) }
    {
        match over {
            None => self,
            Some(over) => Pair {
                action: self.action,
                context: self.context.merge(over),
            },
        }
    }
}
