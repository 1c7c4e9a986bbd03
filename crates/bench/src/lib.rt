// What the benchmark measures, in a form that C and Rust can call. Nothing of the product uses this crate.
#![tactic(auto)]

pub mod calls;

use keptcalls::binding::Binding;
use keptcalls::words::CallWords;
use keybind::map::Map;
use keygraph::mapping;
use keyparts::follow::FollowResult;
use keyparts::graph::Graph;
use keyparts::index::{Index, IndexedGraph};
use keyvalues::event::{EdgeEvent, EdgeRepeat};
use keyvalues::path::{EdgePath, EdgePathPart};
use keyvalues::step::Step;
use keyvalues::tables::TableWords;

// The index of a graph's edges.
pub fn bench_index(graph: &Graph, index: &mut Index) {
    *index = Index::new(graph);
}

// What following answers where it leads nowhere.
const NOWHERE: u16 = 65535;

// The node that following a key leads to, or `NOWHERE`.
pub fn bench_follow(graph: &Graph, index: &Index, tables: &TableWords, node: u16, key: u16) -> u16 {
    let indexed = IndexedGraph { graph, index };
    match indexed.follow(tables.classes(), node, key) {
        FollowResult::Successor(_, to) | FollowResult::Fallthrough(to) => to,
        FollowResult::NoSuccessor => NOWHERE,
    }
}

// A key, once.
fn once(key: u16) -> EdgePathPart {
    EdgePathPart {
        repeat: EdgeRepeat::Once,
        event: EdgeEvent::Key(key),
    }
}

// A path of two keys.
pub(crate) fn two_keys(first: u16, second: u16) -> EdgePath {
    let mut parts = [once(second); EdgePath::PARTS as usize];
    parts[0] = once(first);
    EdgePath { parts, count: 2 }
}

// A step of one action.
pub(crate) fn one_action(action: u16) -> Step {
    let mut step = Step::default();
    step.actions.items[0] = action;
    step.actions.count = 1;
    step
}

// The nodes of a graph after n bindings of two keys each, added in place. A binding that is refused ends it, with the nodes
// before it.
pub fn bench_add_in_place(n: u16) -> u16 {
    let mut graph = Graph::fresh();
    for i in 0..n {
        let nodes = graph.counts.nodes;
        let path = two_keys(i, 7);
        let step = one_action(i);
        if mapping::add_mapping_or_scratch(&mut graph, 0, &path, &step).is_err() {
            return nodes;
        }
    }
    graph.counts.nodes
}

// The same, by value, with the calls kept.
pub fn bench_add_by_value(n: u16) -> u16 {
    let mut kept = [CallWords::EMPTY; CallWords::KEPT as usize];
    let mut m = Map::fresh(TableWords::EMPTY);
    for i in 0..n {
        let call = Binding::Mapping {
            mode: 0,
            path: two_keys(i, 7),
            step: one_action(i),
        };
        m = m.bind(&mut kept, &call).0;
    }
    m.graph.counts.nodes
}
