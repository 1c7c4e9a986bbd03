// Finding a node by its mode and an action of its step, and the hint.
ghost use Rattle.std.specs.Prelude.{◌≡◌};
ghost use Rattle.rules.specs.Calls.{find, hint, holds_action};
ghost use Rattle.keyvalues.specs.View.{maybe_of, node_in, told};
ghost use Rattle.keyparts.specs.View.{graph_of};

use crate::graph::Graph;
use keyvalues::list;
use keyvalues::node::{Node, NodeWords};
use keyvalues::refusal::Refusal;
use keyvalues::tables::TableWords;

// Is the node of these words of the mode, with a step that has the action? The mode is tested first: most nodes are of another,
// and need not be read whole.
#[tactic(auto, unfolding(rules::specs::Calls::holds_action, keyvalues::specs::View::node_at))]
fn has_action(words: &NodeWords, mode: u16, action: u16) -> bool
    ensures { result ≡ holds_action mode action (node_in words.now) }
{
    words.mode() == mode && Node::from(*words).holds_action(mode, action)
}

impl Graph {
    // The lowest-numbered node of the mode whose step has the action.
    pub fn find(&self, mode: u16, action: u16) -> Result<Option<u16>, Refusal>
        ensures { told maybe_of result ≡ find (graph_of self.now) mode action }
    {
        if TableWords::MODES <= mode {
            return Err(Refusal::OutOfRange);
        }
        let nodes = list::front(&self.nodes, self.counts.nodes);
        for place in 0..nodes.len() {
            if has_action(&nodes[place], mode, action) {
                return Ok(Some(place as u16));
            }
        }
        Ok(None)
    }

    // How many nodes are left: all that may be made, less those beside the roots.
    #[tactic(auto, using(crate::proofs::Stores::nodes_left))]
    pub fn free_nodes(&self) -> u16
        ensures { result ≡ hint (graph_of self.now) }
    {
        Graph::MADE.saturating_sub(self.counts.nodes.saturating_sub(Graph::ROOTS))
    }
}
