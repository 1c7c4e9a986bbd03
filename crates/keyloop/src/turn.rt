// One round: a following of the graph, the event hook, and what is to be done at the place come to.
ghost use Rattle.std.specs.Prelude.{◌≡◌};
ghost use Rattle.rules.specs.Values as v;
ghost use Rattle.rules.specs.KeyLoop as key;
ghost use Rattle.rules.specs.Calls as c;
ghost use Rattle.keyvalues.specs.View.{told, node_of};
ghost use Rattle.keyparts.specs.View.{graph_of};
ghost use Rattle.keytables.specs.View.{tables_of};
ghost use Rattle.keypairs.specs.View.{live_of, shared_of};
ghost use Rattle.keyloop.specs.View.{result_by, turn_of, turned};

use crate::key::IndexedMap;
use keypairs::live::Live;
use keyparts::follow::FollowResult;
use keyparts::graph::Graph;
use keyvalues::node::{Node, NodeAction};
use keyvalues::refusal::Refusal;
use keyvalues::step::Step;

#[derive(Clone, Copy, Debug, PartialEq, Eq)]
pub enum InputResult {
    Again,
    ClearTrail,
    Consumed,
    NeedMore,
    Unmapped,
    RunStep(Step),
    RetryAfter(Step),
}

impl InputResult {
    // Is more needed?
    #[tactic(auto, unfolding(rules::specs::KeyLoop::needs_more))]
    pub(crate) fn needs_more(self) -> bool
        ensures { result ≡ key.needs_more (result_by self) }
    {
        matches!(self, InputResult::NeedMore)
    }
}

// A successor: a step, flagged or not, an empty node, a root.
#[tactic(auto, unfolding(rules::specs::Calls::arrive, keyvalues::specs::View::node_of, keyvalues::specs::View::action_of, keyvalues::specs::View::step_of))]
pub(crate) fn arrive(graph: &Graph, node: Node, to: u16) -> InputResult
    ensures { (ev : v.Event) → result_by result ≡ (c.arrive (graph_of graph.now) to ev (node_of node).action).result }
{
    match node.action {
        NodeAction::Empty => InputResult::NeedMore,
        NodeAction::Root => InputResult::Consumed,
        NodeAction::Step(step) => {
            if !step.unmapped {
                InputResult::RunStep(step)
            } else if graph.has_edges(to) {
                InputResult::NeedMore
            } else {
                InputResult::Unmapped
            }
        }
    }
}

// A fallthrough: to an empty node, a root, or a step, whose flag is not looked at.
#[tactic(auto, unfolding(rules::specs::Calls::land, keyvalues::specs::View::node_of, keyvalues::specs::View::action_of))]
fn land(node: Node, to: u16) -> InputResult
    ensures { result_by result ≡ (c.land to (node_of node).action).result }
{
    match node.action {
        NodeAction::Empty => InputResult::Again,
        NodeAction::Root => InputResult::ClearTrail,
        NodeAction::Step(step) => InputResult::RetryAfter(step),
    }
}

// The key is followed and the node come to; by an event its hook runs next, and may refuse the key.
#[tactic(auto, using(crate::proofs::Turns::nowhere))]
pub(crate) fn turn(map: &IndexedMap, live: &mut Live, key: u16) -> Result<InputResult, Refusal>
    ensures { told (λ x. (result_by x, live_of (tables_of map.now.tables.now) live.new)) result ≡ turned (turn_of map.now key live.old) key (shared_of (tables_of map.now.tables.now) live.old) }
{
    let place = live.state.place;
    let graph = map.indexed.graph;
    match map.indexed.follow(map.tables.classes(), place, key) {
        FollowResult::Successor(event, to) => {
            live.come_to(to);
            live.hook(event, key)?;
            Ok(arrive(graph, graph.node(to), to))
        }
        FollowResult::Fallthrough(to) => {
            live.come_to(to);
            Ok(land(graph.node(to), to))
        }
        FollowResult::NoSuccessor => Ok(InputResult::Unmapped),
    }
}
