// Keys played on a map that was read. The live state is a local that is changed in place, and the map is only lent, so that a
// key copies no map.
ghost use Rattle.std.specs.Prelude.{◌≡◌, List, [], ℕ, min, length};
ghost use Rattle.rules.specs.Basics.{accept};
ghost use Rattle.rules.specs.Values.{Binding};
ghost use Rattle.rules.specs.Calls.{graph_kind, graph_navigator, fresh};
ghost use Rattle.rules.specs.Run.{read_keys, play_keys, run};
ghost use Rattle.keyparts.specs.View.{graph_of};
ghost use Rattle.keytables.specs.View.{tables_of};
ghost use Rattle.keptcalls.specs.View.{machine_with};
ghost use Rattle.keyloop.specs.View.{navigator_of};
ghost use Rattle.mapfile.specs.View.{Ended};

use crate::{map, pairs};
use keptcalls::words::CallWords;
use keybind::map::Map;
use keyloop::key;
use keyloop::key::IndexedMap;
use keypairs::live::Live;
use keyparts::index::{Index, IndexedGraph};
use keyvalues::refusal::Refusal;
use keyvalues::tables::TableWords;
use mapparts::keys;
use mapparts::reader::Reader;
use mapparts::writer::Writer;

// After each key its pairs are written, and the queue is empty. Answers how many bytes were written.
fn play_keys(map: &IndexedMap, keys: &[u8], out: &mut [u8], budget: u16) -> Result<usize, Refusal>
    requires { navigator_of map.now ≡ graph_navigator (graph_of map.now.indexed.graph.now) }
    ensures { (cs : List Binding) (ks : List ℕ) → read_keys keys.now ≡ accept ks → Ended (play_keys budget (length out.old) ks (machine_with (graph_of map.now.indexed.graph.now) cs (fresh graph_kind (tables_of map.now.tables.now)).state) []) result out.old out.new }
{
    let mut live = Live::fresh();
    let mut writer = Writer { bytes: out, at: 0 };
    let mut reader = Reader { rest: keys };
    while !reader.rest.is_empty() {
        let key = reader.number()?;
        let (_rounds, answer) = key::input_key_or_scratch(map, &mut live, key, budget);
        answer?;
        pairs::put_pairs(live.waiting(), &mut writer)?;
        live.clear_queue();
    }
    Ok(writer.at)
}

// First the whole map is read, then all keys, and only then one is tried; one index serves them all. The calls that the
// reader keeps are of no use here.
pub(crate) fn play(map: &[u8], keys: &[u8], out: &mut [u8], budget: u16) -> Result<usize, Refusal>
    ensures { (lent : ℕ) → length out.old ≡ min lent 65536 → Ended (run map.now keys.now budget lent) result out.old out.new }
{
    let mut kept = [CallWords::EMPTY; CallWords::KEPT as usize];
    let mut read = Map::fresh(TableWords::EMPTY);
    map::read_map_or_scratch(map, &mut kept, &mut read)?;
    keys::check_keys(keys)?;
    let indexed = IndexedGraph {
        graph: &read.graph,
        index: &Index::new(&read.graph),
    };
    let tables = &read.tables;
    play_keys(&IndexedMap { indexed, tables }, keys, out, budget)
}
