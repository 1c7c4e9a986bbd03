// Entering a mode with what it gives, and what a machine does at a place: `unmapped` for a key with no binding, and `step` for a
// step that was come to.
ghost use Rattle.std.specs.Prelude.{◌≡◌, List};
ghost use Rattle.rules.specs.KeyLoop as key;
ghost use Rattle.rules.specs.Graph as g;
ghost use Rattle.rules.specs.Calls.{graph_navigator};
ghost use Rattle.keyvalues.specs.View.{told, maybe_of, step_of, graph_by};
ghost use Rattle.keyparts.specs.View.{graph_of};
ghost use Rattle.keytables.specs.View.{tables_of};
ghost use Rattle.keypairs.specs.View.{live_of, shared_of, give_goto};

use crate::context::Context;
use crate::live::Live;
use keyparts::graph::Graph;
use keytables::tables::ModeEntry;
use keyvalues::node;
use keyvalues::refusal::Refusal;
use keyvalues::step::Step;
use keyvalues::tables::TableWords;

// The actions, or action 0 if there is none.
#[tactic(auto, unfolding(rules::specs::KeyLoop::or_default))]
fn or_default(actions: &[u16]) -> &[u16]
    ensures { result.now ≡ key.or_default actions.now }
{
    match actions {
        [] => &[0],
        _ => actions,
    }
}

// Refused, the live state is scratch: the refusal alone counts.
impl Live {
    // Enters the mode, even the same one: its enter list takes the context, and the place is its root. The rules of the mode
    // that is entered apply to its enter list.
    #[tactic(auto, unfolding(rules::specs::KeyLoop::goto_mode, rules::specs::KeyLoop::give_all, rules::specs::Calls::graph_navigator, keytables::specs::View::entry_by))]
    pub fn goto_mode_or_scratch(&mut self, tables: &TableWords, mode: u16) -> Result<(), Refusal>
        ensures { (bs : g.Graph) → told (λ _. live_of (tables_of tables.now) self.new) result ≡ key.goto_mode (graph_navigator bs) mode (shared_of (tables_of tables.now) self.old) }
    {
        let entry = ModeEntry::of(tables, mode);
        self.state.mode = mode;
        let taken = Context::take(&mut self.state.context);
        self.push_all(tables, entry.enter.list(), taken)?;
        self.state.place = node::root(mode);
        Ok(())
    }

    // The actions are given, or action 0, and then the next mode is entered, or the entered one anew.
    #[tactic(auto, using(crate::proofs::Modes::next_is), unfolding(rules::specs::KeyLoop::give_all))]
    fn give_goto(
        &mut self,
        tables: &TableWords,
        actions: &[u16],
        next: Option<u16>,
    ) -> Result<(), Refusal>
        ensures { (bs : g.Graph) → told (λ _. live_of (tables_of tables.now) self.new) result ≡ give_goto bs actions.now (maybe_of next) (shared_of (tables_of tables.now) self.old) }
    {
        let context = Context::take(&mut self.state.context);
        self.push_all(tables, or_default(actions), context)?;
        self.goto_mode_or_scratch(tables, next.unwrap_or(self.state.mode))
    }

    // The list of the node's mode is given, and its next mode entered; without one, the entered mode anew.
    pub fn unmapped_or_scratch(&mut self, graph: &Graph, tables: &TableWords) -> Result<(), Refusal>
        ensures { (es : List g.Edge) → told (λ _. live_of (tables_of tables.now) self.new) result ≡ key.unmapped (graph_navigator (graph_by (graph_of graph.now).nodes es)) (live_of (tables_of tables.now) self.old) }
    {
        let node = graph.node(self.state.place);
        let entry = ModeEntry::of(tables, node.mode);
        self.give_goto(tables, entry.unmapped.list(), entry.next)
    }

    // Sets the mark first; with neither action nor next mode nothing is taken and the place stays.
    #[tactic(auto, using(crate::proofs::Modes::step_stays), unfolding(rules::specs::KeyLoop::step, keyvalues::specs::View::step_of))]
    pub fn step_or_scratch(&mut self, tables: &TableWords, step: &Step) -> Result<(), Refusal>
        ensures { (bs : g.Graph) → told (λ _. live_of (tables_of tables.now) self.new) result ≡ key.step (graph_navigator bs) (step_of step.now) (live_of (tables_of tables.now) self.old) }
    {
        self.set_mark(step.mark);
        let actions = step.actions.list();
        if actions.is_empty() && step.next.is_none() {
            return Ok(());
        }
        self.give_goto(tables, actions, step.next)
    }
}
