// The calls that change the live state alone. A key and a reset may be refused in the midst of their work: they are made on a copy,
// which takes the place of the live state when the call is accepted. The walk along the trail in another map is never refused.
ghost use Rattle.std.specs.Prelude.{◌≡◌, List};
ghost use Rattle.rules.specs.Values.{Binding};
ghost use Rattle.rules.specs.Graph.{Graph as Bindings};
ghost use Rattle.rules.specs.KeyLoop as rules;
ghost use Rattle.rules.specs.Calls.{graph_kind, graph_navigator, call, Press, Reset};
ghost use Rattle.keyvalues.specs.View.{said_of};
ghost use Rattle.keyparts.specs.View.{graph_of};
ghost use Rattle.keytables.specs.View.{tables_of};
ghost use Rattle.keypairs.specs.View.{live_of, shared_of, machine_by};
ghost use Rattle.keymachine.specs.View.{press_of};

use keyloop::key::IndexedMap;
use keyloop::{key, resume};
use keypairs::live::Live;
use keyparts::graph::Graph;
use keyparts::index::{Index, IndexedGraph};
use keyvalues::refusal::Refusal;
use keyvalues::tables::TableWords;

// One key, and the rounds that were made. A machine is any value of its struct, so no index is kept in it.
pub fn input_key<'a>(
    graph: &'a Graph,
    tables: &'a TableWords,
    live: &mut Live,
    key: u16,
    budget: u16,
) -> (u16, Result<(), Refusal>)
    ensures { (ks : List Binding) → (machine_by (graph_of graph.now) ks (tables_of tables.now) live.new, press_of result) ≡ call graph_kind (machine_by (graph_of graph.now) ks (tables_of tables.now) live.old) (Press (record { key = key; budget = budget })) }
{
    let index = Index::new(graph);
    let indexed = IndexedGraph {
        graph,
        index: &index,
    };
    let map = IndexedMap { indexed, tables };
    let mut next = *live;
    let pressed = key::input_key_or_scratch(&map, &mut next, key, budget);
    if pressed.1.is_ok() {
        *live = next;
    }
    pressed
}

// Mode 0 is entered and every sequence broken. The trail is kept.
pub fn reset_mode(tables: &TableWords, live: &mut Live) -> Result<(), Refusal>
    ensures { (g : Bindings) (ks : List Binding) → (machine_by g ks (tables_of tables.now) live.new, said_of result) ≡ call graph_kind (machine_by g ks (tables_of tables.now) live.old) Reset }
{
    let mut entered = *live;
    entered.break_all();
    entered.goto_mode_or_scratch(tables, 0)?;
    *live = entered;
    Ok(())
}

// The trail is walked in the map that takes the place of the one before it.
pub fn resume<'a>(graph: &'a Graph, tables: &'a TableWords, live: &mut Live)
    ensures { live_of (tables_of tables.now) live.new ≡ rules.resume (graph_navigator (graph_of graph.now)) (shared_of (tables_of tables.now) live.old) }
{
    let indexed = IndexedGraph {
        graph,
        index: &Index::new(graph),
    };
    resume::resume(&IndexedMap { indexed, tables }, live);
}
