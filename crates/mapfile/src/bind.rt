// Bindings, each called in place after its last number. Refused, the map is scratch: only the refusal counts, and the caller
// must not go on with it.
ghost use Rattle.std.specs.Prelude.{◌≡◌, ℕ};
ghost use Rattle.rules.specs.KeyLoop.{State};
ghost use Rattle.rules.specs.MapFile.{read_bindings};
ghost use Rattle.keyvalues.specs.View.{told};
ghost use Rattle.keybind.specs.View.{map_kept};
ghost use Rattle.mapfile.specs.View.{bind_next};

use keptcalls::words::CallWords;
use keybind::map::Map;
use keyvalues::refusal::Refusal;
use mapparts::binding;
use mapparts::reader::Reader;

fn read_binding_or_scratch(
    reader: &mut Reader,
    map: &mut Map,
    kept: &mut [CallWords; CallWords::KEPT as usize],
) -> Result<(), Refusal>
    ensures tables { map.new.tables ≡ map.old.tables }
    ensures bound { (x : State ℕ) → told (λ _. (map_kept kept.new map.new x, reader.new.rest.now)) result ≡ bind_next (map_kept kept.old map.old x) reader.old.rest.now }
{
    let call = binding::read_binding(reader)?;
    map.bind_or_scratch(kept, &call)
}

// `n` bindings, up to the first refusal.
pub(crate) fn read_bindings_or_scratch(
    reader: &mut Reader,
    map: &mut Map,
    kept: &mut [CallWords; CallWords::KEPT as usize],
    n: u16,
) -> Result<(), Refusal>
    ensures tables { map.new.tables ≡ map.old.tables }
    ensures bound { (x : State ℕ) → told (λ _. (map_kept kept.new map.new x, reader.new.rest.now)) result ≡ read_bindings n (map_kept kept.old map.old x) reader.old.rest.now }
{
    for _ in 0..n {
        read_binding_or_scratch(reader, map, kept)?;
    }
    Ok(())
}
