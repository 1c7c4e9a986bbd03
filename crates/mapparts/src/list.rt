// Lists, of actions among others, and what may be missing.
ghost use Rattle.std.specs.Prelude.{◌≡◌, true, ◌≤◌, ℕ, List, length, map, take, IfOk};
ghost use Rattle.rules.specs.Basics.{Result, present};
ghost use Rattle.rules.specs.Values.{is_mode};
ghost use Rattle.rules.specs.Numbers.{number};
ghost use Rattle.rules.specs.MapFile.{list_of, read_actions, read_optional_mode};
ghost use Rattle.keyvalues.specs.View.{maybe_of};
ghost use Rattle.keyvalues.specs.View.{whole_actions};
ghost use Rattle.mapparts.specs.View.{Reads, read_mark};

use crate::reader::Reader;
use keyvalues::actions::Actions;
use keyvalues::refusal::Refusal;
use keyvalues::tables::TableWords;

// What a file has lists of. Of an element that is read a value is kept, which may be a word.
pub trait Listed {
    type Kept: Copy;

    // What the rules read, and by which reader; and what of it is kept.
    ghost Value: { Type 0 };

    ghost read: { List ℕ → Result (Value × List ℕ) };

    ghost value: { Self.Kept → Value };

    fn read_from(reader: &mut Reader) -> Result<Self::Kept, Refusal>
        ensures { Reads value read reader.old.rest.now result reader.new.rest.now };
}

// An action.
impl Listed for u16 {
    type Kept = u16;

    ghost Value = { ℕ };

    ghost read = { number };

    ghost value = { λ n. n };

    fn read_from(reader: &mut Reader) -> Result<u16, Refusal> {
        reader.number()
    }
}

// A count of at most `most`, then so many. The first items are the list.
pub(crate) fn read_list<E: Listed>(
    reader: &mut Reader,
    most: u16,
    items: &mut [E::Kept],
) -> Result<u16, Refusal>
    requires { most ≤ length items.old }
    ensures bound { IfOk result (λ n. n ≤ most) }
    ensures reads { Reads (λ n. map E.value (take n items.new)) (list_of most E.read) reader.old.rest.now result reader.new.rest.now }
{
    let count = reader.up_to(most)?;
    for item in &mut items[..count as usize] {
        *item = E::read_from(reader)?;
    }
    Ok(count)
}

// A list of actions.
#[tactic(auto, using(crate::proofs::Parts::fit_numbers))]
pub(crate) fn read_actions(reader: &mut Reader) -> Result<Actions, Refusal>
    ensures bound { IfOk result (λ a. a.count ≤ 4) }
    ensures reads { Reads whole_actions read_actions reader.old.rest.now result reader.new.rest.now }
{
    let mut items = [0u16; Actions::MOST as usize];
    let count = read_list::<u16>(reader, Actions::MOST, &mut items)?;
    Ok(Actions { items, count })
}

// 0, or mode + 1.
#[tactic(auto, unfolding(rules::specs::MapFile::optional, rules::specs::Basics::present))]
pub(crate) fn read_optional_mode(reader: &mut Reader) -> Result<Option<u16>, Refusal>
    ensures bound { IfOk result (λ m. present is_mode (maybe_of m) ≡ true) }
    ensures reads { Reads maybe_of read_optional_mode reader.old.rest.now result reader.new.rest.now }
{
    match reader.up_to(TableWords::MODES)? {
        0 => Ok(None),
        n => Ok(Some(n - 1)),
    }
}

// 0, or the mark itself.
#[tactic(auto, unfolding(rules::specs::MapFile::optional_mark))]
pub(crate) fn read_mark(reader: &mut Reader) -> Result<Option<u16>, Refusal>
    ensures { Reads maybe_of read_mark reader.old.rest.now result reader.new.rest.now }
{
    match reader.number()? {
        0 => Ok(None),
        n => Ok(Some(n)),
    }
}
