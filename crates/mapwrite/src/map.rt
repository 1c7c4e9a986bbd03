// The map file of a machine, into bytes that the caller lends.
ghost use Rattle.std.specs.Prelude.{◌≡◌, ◌≤◌, min, length, IfOk};
ghost use Rattle.rules.specs.Writing.{write_map, sent};
ghost use Rattle.keyvalues.specs.View.{told};
ghost use Rattle.keytables.specs.View.{tables_of};
ghost use Rattle.keptcalls.specs.View.{kept_in};
ghost use Rattle.mapparts.specs.View.{placed, length_code};

use crate::{list, tables};
use keptcalls::binding::Binding;
use keptcalls::words::CallWords;
use keyvalues::refusal::Refusal;
use keyvalues::tables::TableWords;
use mapparts::writer;
use mapparts::writer::Writer;

// The tables and the first `count` kept calls as a map file, from the front of the output. Answers its length; refused, the
// output has a part of it.
#[tactic(auto, using(mapparts::proofs::Writing::writing, crate::proofs::Sent::map_placed, crate::proofs::Sent::few_put), unfolding(keptcalls::specs::View::kept_in))]
fn write_or_scratch(
    kept: &[CallWords; CallWords::KEPT as usize],
    count: u16,
    tables: &TableWords,
    output: &mut [u8],
) -> Result<usize, Refusal>
    ensures few { IfOk result (λ n. n ≤ min (length output.old) 431724) }
    ensures wrote { told (λ n. (n, output.new)) result ≡ placed (write_map (tables_of tables.now) (kept_in count kept.now)) (0, output.old) }
{
    let mut writer = Writer {
        bytes: output,
        at: 0,
    };
    tables::put_tables(tables, &mut writer)?;
    list::put_list::<Binding>(kept, count, &mut writer)?;
    Ok(writer.at)
}

// The same. What lies past the file stays, and refused, the output is zeros.
pub fn write_map(
    kept: &[CallWords; CallWords::KEPT as usize],
    count: u16,
    tables: &TableWords,
    output: &mut [u8],
) -> Result<usize, Refusal>
    ensures few { IfOk result (λ n. n ≤ min (length output.old) 431724) }
    ensures sent { (length_code result, output.new) ≡ sent (tables_of tables.now) (kept_in count kept.now) output.old }
{
    let written = write_or_scratch(kept, count, tables, output);
    if written.is_err() {
        writer::clear_all(output);
    }
    written
}
