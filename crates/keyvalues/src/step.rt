// A step: what a node does when a path has led to it.
ghost use Rattle.std.specs.Prelude.{◌≡◌, eqb, true};
ghost use Rattle.rules.specs.Basics.{present, some_of};
ghost use Rattle.rules.specs.Values as v;
ghost use Rattle.keyvalues.specs.View.{maybe_of, step_of, whole_step};

use crate::actions::Actions;
use crate::tables::TableWords;

#[derive(Clone, Copy, Debug, PartialEq, Eq)]
pub struct Step {
    pub unmapped: bool,
    pub actions: Actions,
    pub next: Option<u16>,
    pub fallthrough: Option<u16>,
    pub mark: Option<u16>,
}

// A mode that may be missing is in range.
#[tactic(auto, unfolding(rules::specs::Basics::present))]
pub fn mode_valid(m: Option<u16>) -> bool
    ensures { result ≡ present v.is_mode (maybe_of m) }
{
    m.is_none_or(|n| n < TableWords::MODES)
}

#[tactic(auto, unfolding(rules::specs::Basics::present))]
fn mark_valid(m: Option<u16>) -> bool
    ensures { result ≡ present v.is_mark (maybe_of m) }
{
    m.is_none_or(|n| 1 <= n)
}

impl Default for Step {
    ghost is_default = { λ s. step_of s ≡ v.default_step };

    // The default step: no action, no mode, no mark.
    #[tactic(auto, unfolding(rules::specs::Values::default_step, crate::specs::View::step_of))]
    fn default() -> Step
        ensures { step_of result ≡ v.default_step }
    {
        Step {
            unmapped: false,
            actions: Actions::default(),
            next: None,
            fallthrough: None,
            mark: None,
        }
    }
}

impl Step {
    #[tactic(auto, unfolding(rules::specs::Values::step_valid, crate::specs::View::step_of))]
    pub fn valid(&self) -> bool
        ensures test { result ≡ v.step_valid (whole_step self.now) }
        ensures plain { result ≡ true → whole_step self.now ≡ step_of self.now }
    {
        self.actions.valid()
            && (mode_valid(self.next) && (mode_valid(self.fallthrough) && mark_valid(self.mark)))
    }

    // Is the action among the step's?
    pub fn has(&self, action: u16) -> bool
        ensures { result ≡ some_of (eqb action) (step_of self.now).actions }
    {
        self.actions.list().contains(&action)
    }
}
