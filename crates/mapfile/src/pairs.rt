// Writing pairs, each as three numbers.
ghost use Rattle.std.specs.Prelude.{map, [], ◌∷◌};
ghost use Rattle.rules.specs.Run.{count_number};
ghost use Rattle.keypairs.specs.View.{context_of, pair_of};
ghost use Rattle.mapparts.specs.View.{put_all, Writes};
ghost use Rattle.mapfile.specs.View.{numbers_of, pair_numbers};

use keypairs::context::Context;
use keypairs::pair::Pair;
use keyvalues::refusal::Refusal;
use mapparts::writer::Writer;

// 0 for no count, and one more than a count that was typed.
#[tactic(auto, using(mapparts::proofs::Writing::writing), unfolding(rules::specs::Run::count_number))]
fn put_count(context: Context, writer: &mut Writer) -> Result<(), Refusal>
    ensures { Writes (put_all (count_number (context_of context) ∷ [])) writer.old result writer.new }
{
    if context.typed {
        return writer.put_after(context.count);
    }
    writer.put(0)
}

// The pair of a word of the queue.
#[tactic(auto, using(mapparts::proofs::Writing::writing))]
fn put_pair(word: u64, writer: &mut Writer) -> Result<(), Refusal>
    ensures { Writes (put_all (numbers_of (pair_of word))) writer.old result writer.new }
{
    let pair = Pair::unpack(word);
    writer.put(pair.action)?;
    put_count(pair.context, writer)?;
    writer.put(pair.context.mark)
}

pub(crate) fn put_pairs(words: &[u64], writer: &mut Writer) -> Result<(), Refusal>
    ensures { Writes (put_all (pair_numbers (map pair_of words.now))) writer.old result writer.new }
{
    for word in words {
        put_pair(*word, writer)?;
    }
    Ok(())
}
