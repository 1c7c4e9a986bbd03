// The lines of the pairs that a run wrote.
ghost use Rattle.std.specs.List.{All};
ghost use Rattle.std.specs.Prelude.{◌≡◌, List, ◌∷◌, ◌≤◌, ◌<◌, length, IfOk};
ghost use Rattle.rules.specs.Values.{Pair as AnyPair};
ghost use Rattle.rules.specs.Run.{pair_bytes, decimal, count_text, line_of, lines_of};
ghost use Rattle.keypairs.specs.View.{context_of, pair_by};
ghost use Rattle.mapparts.specs.View.{Reads, Writes, placed};
ghost use Rattle.mapfile.specs.View.{Small};
ghost use Rattle.playback.specs.View.{read_pair};

use crate::put;
use keypairs::context::Context;
use keypairs::pair::Pair;
use keyvalues::refusal::Refusal;
use mapparts::reader::Reader;
use mapparts::writer::Writer;

#[tactic(auto, using(mapparts::proofs::KeyBytes::shorter, mapparts::proofs::KeyBytes::shorter_to))]
fn read_pair(reader: &mut Reader) -> Result<Pair, Refusal>
    ensures onward { IfOk result (λ _. length reader.new.rest.now < length reader.old.rest.now) }
    ensures reads { Reads pair_by read_pair reader.old.rest.now result reader.new.rest.now }
{
    let action = reader.number()?;
    let count = reader.count_number()?;
    let mark = reader.number()?;
    let context = Context::numbered(count, mark).ok_or(Refusal::Malformed)?;
    Ok(Pair { action, context })
}

// A space, and a number behind it.
#[tactic(auto, using(crate::proofs::Lined::parts_placed))]
fn put_column(writer: &mut Writer, value: u16) -> Result<(), Refusal>
    ensures { Writes (placed (0x20 ∷ decimal 5 value)) writer.old result writer.new }
{
    writer.put_bytes(b" ")?;
    put::put_decimal(writer, value, 5)
}

// A space, and the count behind it, or a dash for none.
#[tactic(auto, unfolding(rules::specs::Run::count_text))]
fn put_count(writer: &mut Writer, context: Context) -> Result<(), Refusal>
    ensures { Writes (placed (0x20 ∷ count_text (context_of context))) writer.old result writer.new }
{
    if context.typed {
        return put_column(writer, context.count);
    }
    writer.put_bytes(b" -")
}

#[tactic(auto, using(crate::proofs::Lined::parts_placed))]
fn put_line(writer: &mut Writer, pair: Pair) -> Result<(), Refusal>
    ensures { Writes (placed (line_of (pair_by pair))) writer.old result writer.new }
{
    put::put_decimal(writer, pair.action, 5)?;
    put_count(writer, pair.context)?;
    put_column(writer, pair.context.mark)?;
    writer.put_bytes(b"\n")?;
    Ok(())
}

// A line for each pair. That a pair's numbers fit 16 bits is promised by the run.
#[tactic(auto, using(crate::proofs::Finding::left_all, crate::proofs::Finding::left_next, crate::proofs::Finding::left_bad, crate::proofs::Finding::left_stop, crate::proofs::Finding::left_none, crate::proofs::Putting::put_within))]
pub(crate) fn put_lines(writer: &mut Writer, bytes: &[u8]) -> Result<(), Refusal>
    requires { writer.old.at ≤ length writer.old.bytes.now }
    ensures { (ps : List AnyPair) → bytes.now ≡ pair_bytes ps → All Small ps → Writes (placed (lines_of ps)) writer.old result writer.new }
{
    let mut reader = Reader { rest: bytes };
    while !reader.rest.is_empty() {
        let pair = read_pair(&mut reader)?;
        put_line(writer, pair)?;
    }
    Ok(())
}
