// The trail in a new map. Its keys are only followed: no hook runs, nothing is given and no mode is entered.
ghost use Rattle.std.specs.Prelude.{◌≡◌, ◌∷◌, []};
ghost use Rattle.rules.specs.KeyLoop as rules;
ghost use Rattle.keyvalues.specs.View.{maybe_of};
ghost use Rattle.keytables.specs.View.{tables_of};
ghost use Rattle.keypairs.specs.View.{live_of, shared_of};
ghost use Rattle.keyloop.specs.View.{navigator_of};

use crate::key::IndexedMap;
use crate::turn;
use keypairs::live::Live;
use keyparts::follow::FollowResult;
use keyvalues::node;

// The node that the key leads to by an event, if more is needed there.
#[tactic(auto, using(crate::proofs::Walks::falls, crate::proofs::Walks::nowhere))]
fn walk_key(map: &IndexedMap, place: u16, key: u16) -> Option<u16>
    ensures { maybe_of result ≡ rules.walk (navigator_of map.now) (tables_of map.now.tables.now).classes (key ∷ []) place }
{
    let graph = map.indexed.graph;
    match map.indexed.follow(map.tables.classes(), place, key) {
        FollowResult::Successor(_, to) => turn::arrive(graph, graph.node(to), to)
            .needs_more()
            .then_some(to),
        FollowResult::Fallthrough(_) => None,
        FollowResult::NoSuccessor => None,
    }
}

// The place that the keys lead to, if more is needed after each of them.
#[tactic(auto, using(crate::proofs::Walks::walked_on, crate::proofs::Walks::walked_all, crate::proofs::Walks::lost))]
fn walk(map: &IndexedMap, trail: &[u16], root: u16) -> Option<u16>
    ensures { maybe_of result ≡ rules.walk (navigator_of map.now) (tables_of map.now.tables.now).classes trail.now root }
{
    let mut place = root;
    for key in trail {
        place = walk_key(map, place, *key)?;
    }
    Some(place)
}

// The place that the trail leads to in the map, from the entered mode's root. If it leads to none, the root, and the trail is
// empty.
pub fn resume(map: &IndexedMap, live: &mut Live)
    ensures { live_of (tables_of map.now.tables.now) live.new ≡ rules.resume (navigator_of map.now) (shared_of (tables_of map.now.tables.now) live.old) }
{
    let root = node::root(live.state.mode);
    match walk(map, live.on_trail(), root) {
        Some(place) => live.come_to(place),
        None => {
            live.clear_trail();
            live.come_to(root);
        }
    }
}
