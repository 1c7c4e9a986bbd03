// Keys in place over the map of a map file, with all their pairs, for the benchmark. It is an archive of its own: where the
// key loop has one caller, the compiler builds it into that one, and a key takes less time than in the library for C.
//
// An answer has how many pairs there were above 32 bits that depend on every number of every pair and on their order, so that
// nobody times other work than the Rust's.
#![tactic(auto)]

use keptcalls::words::CallWords;
use keybind::map::Map;
use keyloop::key;
use keyloop::key::IndexedMap;
use keypairs::live::Live;
use keypairs::pair::Pair;
use keyparts::index::{Index, IndexedGraph};
use keyvalues::tables::TableWords;
use mapfile::map;

// A pair more. The count stands in it as a run writes it.
pub fn mix(sum: u64, pair: Pair) -> u64 {
    let x = pair.context;
    let count = (sum / 4294967296 + 1) % 4294967296;
    let old = sum % 4294967296;
    let counted = if x.typed { (x.count as u64) + 1 } else { 0 };
    let mixed = ((old * 31 + (pair.action as u64)) * 31 + counted) * 31 + (x.mark as u64);
    count * 4294967296 + mixed % 4294967296
}

// In place: the key loop on a live state, as the run has it. A key that is refused ends it, with the pairs before it.
fn keys_over(keys: &[u16], map: &IndexedMap, budget: u16) -> u64 {
    let mut live = Live::fresh();
    let mut sum = 0u64;
    for key in keys {
        let (_, answer) = key::input_key_or_scratch(map, &mut live, *key, budget);
        if answer.is_err() {
            return sum;
        }
        for word in live.waiting() {
            sum = mix(sum, Pair::unpack(*word));
        }
        live.clear_queue();
    }
    sum
}

// A map that is refused is the fresh one.
pub fn bench_keys_in_place<'a>(bytes: &'a [u8], keys: &'a [u16], budget: u16) -> u64 {
    let mut kept = [CallWords::EMPTY; CallWords::KEPT as usize];
    let read = map::read_map(bytes, &mut kept).unwrap_or_else(|_| Map::fresh(TableWords::EMPTY));
    let index = Index::new(&read.graph);
    let map = IndexedMap {
        indexed: IndexedGraph {
            graph: &read.graph,
            index: &index,
        },
        tables: &read.tables,
    };
    keys_over(keys, &map, budget)
}
