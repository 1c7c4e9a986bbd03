// Nodes, and their two words: mode, kind and the step's small parts in the first, the step's actions in the second.
ghost use Rattle.std.specs.Prelude.{◌≡◌, ◌≤◌, ◌<◌, ◌/◌, ◌%◌};
ghost use Rattle.rules.specs.Graph as g;
ghost use Rattle.rules.specs.Calls.{holds_action};
ghost use Rattle.keyvalues.specs.View.{maybe_of, opt_of, step_of, step_at, holds_step, action_of, action_at, node_of, node_in};

use crate::actions::Actions;
use crate::number;
use crate::step::Step;

// What a node does.
#[derive(Clone, Copy, Debug, PartialEq, Eq)]
pub enum NodeAction {
    Empty,
    Root,
    Step(Step),
}

#[derive(Clone, Copy, Debug, PartialEq, Eq)]
pub struct Node {
    pub mode: u16,
    pub action: NodeAction,
}

// A node's two words. Any two words are some node's.
#[repr(C)]
#[derive(Clone, Copy, Debug, PartialEq, Eq)]
pub struct NodeWords {
    pub head: u64,
    pub acts: u64,
}

impl Node {
    // Is the node of the mode, with a step that has the action?
    #[tactic(auto, unfolding(rules::specs::Calls::holds_action, rules::specs::Calls::does, crate::specs::View::node_of, crate::specs::View::action_of))]
    pub fn holds_action(&self, mode: u16, action: u16) -> bool
        ensures { result ≡ holds_action mode action (node_of self.now) }
    {
        match &self.action {
            NodeAction::Empty | NodeAction::Root => false,
            NodeAction::Step(step) => self.mode == mode && step.has(action),
        }
    }
}

// What may be missing, in a word: 0 for nothing, and else one more than the number.
#[tactic(auto, unfolding(crate::specs::View::opt_of))]
pub fn opt(m: Option<u16>) -> u64
    ensures { (opt_of result ≡ maybe_of m) × (result ≤ 65536) }
{
    match m {
        None => 0,
        Some(n) => (n as u64) + 1,
    }
}

#[tactic(auto, unfolding(crate::specs::View::opt_of))]
pub fn unopt(x: u64) -> Option<u16>
    ensures { maybe_of result ≡ opt_of x }
{
    if x == 0 {
        None
    } else {
        Some(number::low(x - 1))
    }
}

impl NodeWords {
    // The words of an empty node of mode 0.
    pub const EMPTY: NodeWords = NodeWords { head: 0, acts: 0 };

    // The words of the root of a mode. A mode has seven bits there.
    #[tactic(auto, unfolding(crate::specs::View::node_at, crate::specs::View::action_at))]
    pub fn root(mode: u16) -> NodeWords
        ensures { node_in result ≡ record { mode = mode % 128; action = g.Root } }
    {
        NodeWords {
            head: (mode % 128) as u64 + 128,
            acts: 0,
        }
    }

    // The words of an empty node. A mode has seven bits there.
    #[tactic(auto, unfolding(crate::specs::View::node_at, crate::specs::View::action_at))]
    pub fn empty(mode: u16) -> NodeWords
        ensures { node_in result ≡ record { mode = mode % 128; action = g.Empty } }
    {
        let at = mode % 128;
        NodeWords {
            head: at as u64,
            acts: 0,
        }
    }

    // The words of a node that holds the step. A mode has seven bits there.
    #[tactic(auto, using(std::proofs::lemmas::List::take_min), unfolding(crate::specs::View::step_of, crate::specs::View::node_at, crate::specs::View::action_at, crate::specs::View::step_at))]
    pub fn holding(step: &Step, mode: u16) -> NodeWords
        ensures { node_in result ≡ record { mode = mode % 128; action = g.Holds (step_of step.now) } }
    {
        let flag = u64::from(step.unmapped);
        let count = step.actions.count.min(Actions::MOST) as u64;
        let next = opt(step.next);
        let fall = opt(step.fallthrough);
        let mark = opt(step.mark);
        let at = mode % 128;
        let parts = flag + 2 * (count + 8 * (next + 131072 * (fall + 131072 * mark)));
        let acts = step.actions.word();
        NodeWords {
            head: (at as u64) + 128 * (2 + 4 * parts),
            acts: acts,
        }
    }

    // The mode of the node.
    #[tactic(auto, unfolding(crate::specs::View::node_at))]
    pub fn mode(self) -> u16
        ensures { (result ≡ (node_in self).mode) × (result < 128) }
    {
        (self.head % 128) as u16
    }

    // Does the node hold a step?
    #[tactic(auto, unfolding(crate::specs::View::node_at, crate::specs::View::action_at, crate::specs::View::holds_step))]
    pub fn holds_step(self) -> bool
        ensures { result ≡ holds_step (node_in self).action }
    {
        2 <= self.head / 128 % 4
    }

    #[tactic(auto, unfolding(crate::specs::View::step_of, crate::specs::View::step_at))]
    fn step(self) -> Step
        ensures { step_of result ≡ step_at (self.head / 128 / 4) self.acts }
    {
        let h = self.head / 128 / 4;
        Step {
            unmapped: h % 2 == 1,
            actions: Actions::of_word(self.acts, (h / 2 % 8) as u16),
            next: unopt(h / 2 / 8 % 131072),
            fallthrough: unopt(h / 2 / 8 / 131072 % 131072),
            mark: unopt(h / 2 / 8 / 131072 / 131072 % 131072),
        }
    }

    #[tactic(auto, unfolding(crate::specs::View::action_of, crate::specs::View::action_at))]
    fn action(self) -> NodeAction
        ensures { action_of result ≡ action_at (self.head / 128 % 4) (step_at (self.head / 128 / 4) self.acts) }
    {
        match self.head / 128 % 4 {
            0 => NodeAction::Empty,
            1 => NodeAction::Root,
            _ => NodeAction::Step(self.step()),
        }
    }
}

impl From<NodeWords> for Node {
    ghost from_gives = { λ words node. node_of node ≡ node_in words };

    // The node that the words stand for.
    #[tactic(auto, unfolding(crate::specs::View::node_of, crate::specs::View::node_at))]
    fn from(words: NodeWords) -> Node
        ensures { node_of result ≡ node_in words }
    {
        Node {
            mode: words.mode(),
            action: words.action(),
        }
    }
}

// The root of a mode.
pub fn root(mode: u16) -> u16
    ensures { result ≡ mode }
{
    mode
}
