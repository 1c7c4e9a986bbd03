// The map file.
ghost use Rattle.std.specs.Prelude.{◌≡◌};
ghost use Rattle.rules.specs.Tables.{Tables};
ghost use Rattle.rules.specs.Calls.{graph_kind, fresh};
ghost use Rattle.rules.specs.MapFile.{read_map};
ghost use Rattle.keyvalues.specs.View.{told};
ghost use Rattle.keybind.specs.View.{map_kept};
ghost use Rattle.mapfile.specs.View.{map_of};

use crate::bind;
use keptcalls::words::CallWords;
use keybind::map::Map;
use keyvalues::refusal::Refusal;
use keyvalues::tables::TableWords;
use mapparts::reader::Reader;
use mapparts::tables;

// Into a fresh map that is lent, since each copy of a map takes a caller's stack. The bindings' calls are kept in the lent words,
// which may be any before. Bytes that remain after the last binding are refused. Refused, map and words are scratch.
pub fn read_map_or_scratch(
    bytes: &[u8],
    kept: &mut [CallWords; CallWords::KEPT as usize],
    map: &mut Map,
) -> Result<(), Refusal>
    ensures { ((t : Tables) → map_kept kept.old map.old (fresh graph_kind t).state ≡ fresh graph_kind t) → told (λ _. map_of kept.new map.new) result ≡ read_map bytes.now }
{
    let mut reader = Reader { rest: bytes };
    map.tables = tables::read_tables(&mut reader)?;
    let n = reader.number()?;
    bind::read_bindings_or_scratch(&mut reader, map, kept, n)?;
    reader.end()
}

// The same, the map by value.
pub fn read_map(
    bytes: &[u8],
    kept: &mut [CallWords; CallWords::KEPT as usize],
) -> Result<Map, Refusal>
    ensures { told (map_of kept.new) result ≡ read_map bytes.now }
{
    let mut map = Map::fresh(TableWords::EMPTY);
    read_map_or_scratch(bytes, kept, &mut map)?;
    Ok(map)
}
