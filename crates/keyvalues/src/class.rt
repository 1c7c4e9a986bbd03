// The class table: a word for each entry, which says of a class from which key to which it reaches.
ghost use Rattle.std.specs.Prelude.{◌≡◌};
ghost use Rattle.rules.specs.Tables.{holds_key};
ghost use Rattle.keyvalues.specs.View.{class_at};

use crate::number;

#[repr(C)]
#[derive(Clone, Copy, Debug, PartialEq, Eq)]
pub struct ClassWord {
    pub word: u64,
}

impl ClassWord {
    // The word of an entry: the keys from `first` to `last`, both included.
    #[tactic(auto, unfolding(crate::specs::View::class_at))]
    pub fn of(class: u16, first: u16, last: u16) -> ClassWord
        ensures { class_at result ≡ record { class = class; low = first; high = last } }
    {
        ClassWord {
            word: (class as u64) + 65536 * ((first as u64) + 65536 * (last as u64)),
        }
    }

    #[tactic(auto, unfolding(crate::specs::View::class_at))]
    pub fn class(self) -> u16
        ensures { result ≡ (class_at self).class }
    {
        number::low(self.word)
    }

    #[tactic(auto, unfolding(crate::specs::View::class_at))]
    pub fn first(self) -> u16
        ensures { result ≡ (class_at self).low }
    {
        number::low(self.word / 65536)
    }

    #[tactic(auto, unfolding(crate::specs::View::class_at))]
    pub fn last(self) -> u16
        ensures { result ≡ (class_at self).high }
    {
        number::low(self.word / 65536 / 65536)
    }

    // Does the entry's range hold the key?
    #[tactic(auto, unfolding(rules::specs::Tables::holds_key))]
    pub fn holds_key(self, key: u16) -> bool
        ensures { result ≡ holds_key (class_at self) key }
    {
        self.first() <= key && key <= self.last()
    }
}
