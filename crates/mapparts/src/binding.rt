// Bindings, each as the call that it makes.
ghost use Rattle.std.specs.Prelude.{◌≡◌};
ghost use Rattle.rules.specs.MapFile.{read_binding, at_end};
ghost use Rattle.keyvalues.specs.View.{told};
ghost use Rattle.keptcalls.specs.View.{binding_in};
ghost use Rattle.mapparts.specs.View.{Reads};

use crate::reader::Reader;
use crate::{part, step};
use keptcalls::binding::Binding;
use keyvalues::refusal::Refusal;
use keyvalues::tables::TableWords;

// Kind, mode, path, and the step for kinds 0 and 2.
#[tactic(auto, unfolding(rules::specs::MapFile::binding_by))]
pub fn read_binding(reader: &mut Reader) -> Result<Binding, Refusal>
    ensures { Reads binding_in read_binding reader.old.rest.now result reader.new.rest.now }
{
    let kind = reader.up_to(2)?;
    let mode = reader.below(TableWords::MODES)?;
    let path = part::read_path(reader)?;
    match kind {
        0 => {
            let step = step::read_step(reader)?;
            Ok(Binding::Mapping { mode, path, step })
        }
        1 => Ok(Binding::Prefix {
            mode,
            path,
            step: None,
        }),
        _ => {
            let step = Some(step::read_step(reader)?);
            Ok(Binding::Prefix { mode, path, step })
        }
    }
}

// A binding that stands alone: nothing may be left behind it.
#[tactic(auto, unfolding(rules::specs::MapFile::at_end))]
pub fn read_alone(bytes: &[u8]) -> Result<Binding, Refusal>
    ensures { told binding_in result ≡ at_end (read_binding bytes.now) }
{
    let mut reader = Reader { rest: bytes };
    let call = read_binding(&mut reader)?;
    reader.end()?;
    Ok(call)
}
