// The text that an input comes to: the heading `action count mark` and a line for each pair, or only `refused N`.
ghost use Rattle.std.specs.List.{All};
ghost use Rattle.std.specs.Prelude.{◌≡◌, List};
ghost use Rattle.rules.specs.Basics.{accept};
ghost use Rattle.rules.specs.Values.{Pair};
ghost use Rattle.rules.specs.Run.{pair_bytes, refusal, text_of, keyplay};
ghost use Rattle.keyvalues.specs.View.{number_of, told};
ghost use Rattle.mapparts.specs.View.{Writes, placed};
ghost use Rattle.mapfile.specs.View.{Small};
ghost use Rattle.playback.specs.View.{played, Played, printed};

use crate::{lines, put};
use keyvalues::refusal::Refusal;
use mapfile::run;
use mapparts::reader::Reader;
use mapparts::writer::Writer;

// The budget that each key gets.
const BUDGET: u16 = 1000;

// The bytes of an input at most.
const MOST_INPUT: usize = 65536;

// The bytes of a text at most: `longest` of proofs/Longest.antt.
pub const MOST_TEXT: usize = 262162;

// The line `refused N`.
#[tactic(auto, using(crate::proofs::Lined::parts_placed))]
fn put_refusal(writer: &mut Writer, why: Refusal) -> Result<(), Refusal>
    ensures { Writes (placed (refusal (number_of why))) writer.old result writer.new }
{
    writer.put_bytes(b"refused ")?;
    put::put_decimal(writer, why.number(), 5)?;
    writer.put_bytes(b"\n")?;
    Ok(())
}

// The heading, and the lines of the pairs.
#[tactic(auto, using(crate::proofs::Lined::parts_placed, crate::proofs::Putting::put_within))]
fn put_pairs(writer: &mut Writer, bytes: &[u8]) -> Result<(), Refusal>
    ensures { (ps : List Pair) → bytes.now ≡ pair_bytes ps → All Small ps → Writes (placed (text_of (accept ps))) writer.old result writer.new }
{
    writer.put_bytes(b"action count mark\n")?;
    lines::put_lines(writer, bytes)
}

// An input is the map's length, the map, then keys. They are run with the program's budget and output; how many bytes of pairs
// stand in front of the output is told. Longer input is refused.
#[tactic(auto, using(crate::proofs::Texts::too_long, crate::proofs::Texts::play_bad, crate::proofs::Texts::play_short))]
fn play(input: &[u8], output: &mut [u8; run::MOST_OUTPUT]) -> Result<usize, Refusal>
    ensures { Played (played input.now) result output.new }
{
    if MOST_INPUT < input.len() {
        return Err(Refusal::Malformed);
    }
    let mut reader = Reader { rest: input };
    let size = reader.number()?;
    let (map, keys) = reader
        .rest
        .split_at_checked(size as usize)
        .ok_or(Refusal::Malformed)?;
    run::run(map, keys, output, BUDGET)
}

fn put_text(writer: &mut Writer, input: &[u8]) -> Result<(), Refusal>
    ensures { Writes (placed (keyplay input.now)) writer.old result writer.new }
{
    let mut output = [0u8; run::MOST_OUTPUT];
    match play(input, &mut output) {
        Ok(size) => put_pairs(writer, &output[..size]),
        Err(refusal) => put_refusal(writer, refusal),
    }
}

// The text of an input, in front of the lent bytes; answers its length. Refused, they have a part of it.
fn put_or_scratch(text: &mut [u8], input: &[u8]) -> Result<usize, Refusal>
    ensures { told (λ n. (n, text.new)) result ≡ placed (keyplay input.now) (0, text.old) }
{
    let mut writer = Writer { bytes: text, at: 0 };
    put_text(&mut writer, input)?;
    Ok(writer.at)
}

// The text of an input, in front of lent bytes; answers its length. Where it does not fit, it is refused, and they are zeros.
#[tactic(auto, using(crate::proofs::Putting::printed_fits, crate::proofs::Putting::printed_over))]
pub fn keyplay(input: &[u8], text: &mut [u8]) -> Result<usize, Refusal>
    ensures { (told (λ n. n) result, text.new) ≡ printed text.old (keyplay input.now) }
{
    let size = put_or_scratch(text, input);
    if size.is_err() {
        text.fill(0);
    }
    size
}
