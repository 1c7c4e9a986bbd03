// The map of a machine: its graph, its tables and how many binding calls are kept. The kept calls stand beside the machine and
// are lent to each call, so that nothing else copies them.
ghost use Rattle.std.specs.Prelude.{◌≡◌, List, ℕ, OnErr};
ghost use Rattle.rules.specs.Tables.{Tables};
ghost use Rattle.rules.specs.KeyLoop.{State};
ghost use Rattle.rules.specs.Calls.{graph_kind, bind, settled, fresh};
ghost use Rattle.keyvalues.specs.View.{said_of, told};
ghost use Rattle.keyparts.specs.View.{graph_of};
ghost use Rattle.keptcalls.specs.View.{binding_in, graph_part};
ghost use Rattle.keptcalls.specs.declared.words.CallWords.{CallWords};
ghost use Rattle.keybind.specs.View.{map_kept};

use keptcalls::binding::Binding;
use keptcalls::words;
use keptcalls::words::CallWords;
use keygraph::mapping::add_mapping_or_scratch;
use keygraph::prefix::add_prefix_or_scratch;
use keyparts::graph::Graph;
use keyvalues::refusal::Refusal;
use keyvalues::tables::TableWords;

#[repr(C)]
#[derive(Clone, Copy)]
pub struct Map {
    pub graph: Graph,
    pub tables: TableWords,
    pub kept: u16,
}

#[tactic(auto, unfolding(keptcalls::specs::View::graph_part))]
fn add_or_scratch(graph: &mut Graph, call: &Binding) -> Result<(), Refusal>
    ensures { told (λ _. graph_of graph.new) result ≡ graph_part (binding_in call.now) (graph_of graph.old) }
{
    match call {
        Binding::Mapping { mode, path, step } => add_mapping_or_scratch(graph, *mode, path, step),
        Binding::Prefix { mode, path, step } => add_prefix_or_scratch(graph, *mode, path, *step),
    }
}

impl Map {
    // No binding, and no call kept.
    #[tactic(auto, unfolding(rules::specs::Calls::fresh, keptcalls::specs::View::kept_in))]
    pub fn fresh(tables: TableWords) -> Map
        ensures tables { result.tables ≡ tables }
        ensures fresh { (ws : List CallWords) (t : Tables) → map_kept ws result (fresh graph_kind t).state ≡ fresh graph_kind t }
    {
        Map {
            graph: Graph::fresh(),
            tables,
            kept: 0,
        }
    }

    // One binding call more, in place: the call's work on the graph, and then the call itself is kept behind those before it.
    // So CallsFull comes after all that the graph refuses. Refused, the map is scratch: only the refusal counts, and the caller
    // must not go on with it. The kept calls are as they were then.
    #[tactic(auto, using(crate::proofs::Kept::bind_refused))]
    pub fn bind_or_scratch(
        &mut self,
        kept: &mut [CallWords; CallWords::KEPT as usize],
        call: &Binding,
    ) -> Result<(), Refusal>
        ensures tables { self.new.tables ≡ self.old.tables }
        ensures bound { (x : State ℕ) → told (λ _. map_kept kept.new self.new x) result ≡ bind graph_kind (binding_in call.now) (map_kept kept.old self.old x) }
        ensures refused { OnErr result ((self.new.kept ≡ self.old.kept) × (kept.new ≡ kept.old)) }
    {
        add_or_scratch(&mut self.graph, call)?;
        self.kept = words::keep(kept, self.kept, call)?;
        Ok(())
    }

    // One binding call more, on a copy of the map. Refused, the map is the one before, bit for bit: it is put back over the
    // copy, since of two maps to choose from the compiler would keep a copy of both, accepted or not.
    #[tactic(auto, unfolding(rules::specs::Calls::settled))]
    pub fn bind(
        self,
        kept: &mut [CallWords; CallWords::KEPT as usize],
        call: &Binding,
    ) -> (Map, Result<(), Refusal>)
        ensures tables { result.0.tables ≡ self.tables }
        ensures bound { (x : State ℕ) → (map_kept kept.new result.0 x, said_of result.1) ≡ settled graph_kind (map_kept kept.old self x) (bind graph_kind (binding_in call.now) (map_kept kept.old self x)) }
    {
        let mut after = self;
        let answer = after.bind_or_scratch(kept, call);
        if answer.is_err() {
            after = self;
        }
        (after, answer)
    }
}
