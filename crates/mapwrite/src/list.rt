// Lists, of actions among others: a count, then each.
ghost use Rattle.std.specs.Prelude.{◌∷◌, [], ℕ, ◌+◌, ◌*◌, ◌≤◌, List, map, length, take, OnOk};
ghost use Rattle.rules.specs.Writing.{alone, listed, mode_number, mark_number};
ghost use Rattle.keyvalues.specs.View.{maybe_of, actions_by};
ghost use Rattle.mapparts.specs.View.{put_all, Writes};

use keyvalues::actions::Actions;
use keyvalues::list;
use keyvalues::refusal::Refusal;
use mapparts::writer::Writer;

// What a file has lists of. Of an element a value is kept, which may be a word.
pub trait Written {
    type Kept;

    // What the rules write, and its numbers; and what of it is kept.
    ghost Value: { Type 0 };

    ghost numbers: { Value → List ℕ };

    ghost value: { Self.Kept → Value };

    // So many numbers at most.
    ghost most: { ℕ };

    fn write_to(kept: &Self::Kept, writer: &mut Writer) -> Result<(), Refusal>
        ensures few { OnOk result (length (numbers (value kept.now)) ≤ most) }
        ensures writes { Writes (put_all (numbers (value kept.now))) writer.old result writer.new };
}

// An action.
impl Written for u16 {
    type Kept = u16;

    ghost Value = { ℕ };

    ghost numbers = { alone };

    ghost value = { λ n. n };

    ghost most = { 1 };

    #[inline(always)]
    fn write_to(kept: &u16, writer: &mut Writer) -> Result<(), Refusal> {
        writer.put(*kept)
    }
}

// The first `count` items, behind how many they are. A count past the end is all of them.
#[inline(always)]
pub(crate) fn put_list<E: Written>(
    items: &[E::Kept],
    count: u16,
    writer: &mut Writer,
) -> Result<(), Refusal>
    ensures few { OnOk result (length (listed E.numbers (map E.value (take count items.now))) ≤ 1 + E.most * length (take count items.now)) }
    ensures writes { Writes (put_all (listed E.numbers (map E.value (take count items.now)))) writer.old result writer.new }
{
    let there = list::front(items, count);
    writer.put(there.len() as u16)?;
    for item in there {
        E::write_to(item, writer)?;
    }
    Ok(())
}

// A list of actions.
#[inline(always)]
#[tactic(auto, using(crate::proofs::Lists::action_list))]
pub(crate) fn put_actions(actions: &Actions, writer: &mut Writer) -> Result<(), Refusal>
    ensures { Writes (put_all (listed alone (actions_by actions.now))) writer.old result writer.new }
{
    put_list::<u16>(&actions.items, actions.count, writer)
}

// 0, or mode + 1.
#[inline(always)]
#[tactic(auto, unfolding(rules::specs::Writing::mode_number))]
pub(crate) fn put_mode(mode: Option<u16>, writer: &mut Writer) -> Result<(), Refusal>
    ensures { Writes (put_all (mode_number (maybe_of mode) ∷ [])) writer.old result writer.new }
{
    match mode {
        None => writer.put(0),
        Some(mode) => writer.put_after(mode),
    }
}

// 0, or the mark itself.
#[inline(always)]
#[tactic(auto, unfolding(rules::specs::Writing::mark_number))]
pub(crate) fn put_mark(mark: Option<u16>, writer: &mut Writer) -> Result<(), Refusal>
    ensures { Writes (put_all (mark_number (maybe_of mark) ∷ [])) writer.old result writer.new }
{
    writer.put(mark.unwrap_or(0))
}
