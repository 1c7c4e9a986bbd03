// A list of up to four actions, and the word that they are kept in.
ghost use Rattle.std.specs.Prelude.{◌≡◌, ◌≤◌, true, leb, length};
ghost use Rattle.keyvalues.specs.View.{four_of, actions_by, whole_actions};

use crate::{list, number};

// The first `count` actions are the list. A count over 4 is a list that every call refuses.
#[derive(Clone, Copy, Debug, PartialEq, Eq, Default)]
pub struct Actions {
    pub items: [u16; Actions::MOST as usize],
    pub count: u16,
}

impl Actions {
    // So many actions a list has at most.
    pub const MOST: u16 = 4;

    // Four actions in a word, the first in the lowest bits. The count is no part of it.
    pub fn word(&self) -> u64
        ensures { four_of result ≡ self.now.items }
    {
        let [a, b, c, d] = self.items;
        (a as u64) + 65536 * ((b as u64) + 65536 * ((c as u64) + 65536 * (d as u64)))
    }

    // The four actions of a word, of which so many count.
    pub fn of_word(word: u64, count: u16) -> Actions
        ensures { (result.items ≡ four_of word) × (result.count ≡ count) }
    {
        Actions {
            items: [
                number::low(word),
                number::low(word / 65536),
                number::low(word / 65536 / 65536),
                number::low(word / 65536 / 65536 / 65536),
            ],
            count: count,
        }
    }

    // The actions that are there.
    pub fn list(&self) -> &[u16]
        ensures { (result.now ≡ actions_by self.now) × (length result.now ≤ 4) }
    {
        list::front(&self.items, self.count)
    }

    #[tactic(auto, using(crate::proofs::Ranges::fits))]
    pub fn valid(&self) -> bool
        ensures test { result ≡ leb (length (whole_actions self.now)) 4 }
        ensures plain { result ≡ true → whole_actions self.now ≡ actions_by self.now }
    {
        self.count <= Actions::MOST
    }
}
