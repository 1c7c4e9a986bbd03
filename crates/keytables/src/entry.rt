// The entries of the tables: what is in range, and the words that an entry is kept in.
ghost use Rattle.std.specs.Prelude.{◌≡◌, true, Bool, ◌&&◌, ℕ, ◌<◌, ◌≤◌, leb, length, take, get_or};
ghost use Rattle.std.specs.List.{list_all};

use keyvalues::list;

pub trait Entry: Copy {
    type Words: Copy;

    ghost in_range: { Self → Bool };

    // The words are the entry's.
    ghost means: { Self.Words → Self → Type 0 };

    fn valid(&self) -> bool
        ensures { result ≡ in_range self.now };

    // Where the entry is out of range, the words may be another entry's.
    fn pack(&self) -> Self::Words
        ensures { in_range self.now ≡ true → means result self.now };
}

fn all_valid<E: Entry>(entries: &[E]) -> bool
    ensures { result ≡ list_all E.in_range entries.now }
{
    entries.iter().all(|entry| entry.valid())
}

// Are there as many entries as the count says, and is each of them in range?
pub(crate) fn table_valid<E: Entry>(entries: &[E], count: u16) -> bool
    ensures { result ≡ (leb count (length entries.now) && list_all E.in_range (take count entries.now)) }
{
    count as usize <= entries.len() && all_valid(list::front(entries, count))
}

// The words of the entries, one by one, in front of those that are there: an array's `map` would pack those past the sizes too.
pub(crate) fn pack_front<E: Entry>(entries: &[E], words: &mut [E::Words])
    requires { length entries.now ≤ length words.old }
    ensures { (i : ℕ) (d : E) (w : E.Words) → i < length entries.now → E.in_range (get_or entries.now i d) ≡ true → E.means (get_or words.new i w) (get_or entries.now i d) }
{
    for place in 0..entries.len() {
        words[place] = entries[place].pack();
    }
}
