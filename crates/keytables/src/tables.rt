// The tables that a machine is opened with. A caller fills them with any numbers, and `pack` tells whether they are in
// range and makes the words that a machine keeps.
ghost use Rattle.std.specs.Prelude.{◌≡◌};
ghost use Rattle.rules.specs.Basics.{accept, unless};
ghost use Rattle.rules.specs.Tables as t;
ghost use Rattle.keyvalues.specs.View.{class_at, told};
ghost use Rattle.keytables.specs.View.{entry_by, entry_in, whole_entry, class_by, whole_tables, tables_of};

use crate::entry;
use crate::entry::Entry;
use crate::rule::Rule;
use keyvalues::actions::Actions;
use keyvalues::class::ClassWord;
use keyvalues::event::EdgeEvent;
use keyvalues::refusal::Refusal;
use keyvalues::tables::{ModeWords, TableWords};
use keyvalues::{list, node, step};

#[derive(Clone, Copy, Debug, PartialEq, Eq, Default)]
pub struct ClassEntry {
    pub class: u16,
    pub low: u16,
    pub high: u16,
}

// What entering the mode gives, what a key with no binding gives, and which mode such a key leads to.
#[derive(Clone, Copy, Debug, PartialEq, Eq)]
pub struct ModeEntry {
    pub enter: Actions,
    pub unmapped: Actions,
    pub next: Option<u16>,
}

// How many classes, modes and rules count.
#[derive(Clone, Copy, Debug, PartialEq, Eq, Default)]
pub struct Sizes {
    pub classes: u16,
    pub modes: u16,
    pub rules: u16,
}

// The sizes tell how many entries of each count. More than the arrays hold are tables that open refuses.
#[derive(Clone, Copy)]
pub struct Tables {
    pub classes: [ClassEntry; TableWords::CLASSES as usize],
    pub modes: [ModeEntry; TableWords::MODES as usize],
    pub rules: [Rule; TableWords::RULES as usize],
    pub sizes: Sizes,
}

impl From<ClassWord> for ClassEntry {
    ghost from_gives = { λ word entry. class_by entry ≡ class_at word };

    // The entry of a class's word.
    fn from(word: ClassWord) -> ClassEntry
        ensures { class_by result ≡ class_at word }
    {
        ClassEntry {
            class: word.class(),
            low: word.first(),
            high: word.last(),
        }
    }
}

impl Entry for ClassEntry {
    type Words = ClassWord;

    ghost in_range = { λ e. t.class_valid (class_by e) };

    ghost means = { λ w e. class_at w ≡ class_by e };

    #[tactic(auto, unfolding(rules::specs::Tables::class_valid))]
    fn valid(&self) -> bool {
        self.class < EdgeEvent::CLASSES && self.low <= self.high
    }

    fn pack(&self) -> ClassWord {
        ClassWord::of(self.class, self.low, self.high)
    }
}

impl Default for ModeEntry {
    ghost is_default = { λ entry. entry_by entry ≡ t.no_entry };

    // Empty lists and no next mode.
    #[tactic(auto, unfolding(rules::specs::Tables::no_entry, crate::specs::View::entry_by))]
    fn default() -> ModeEntry
        ensures { entry_by result ≡ t.no_entry }
    {
        ModeEntry {
            enter: Actions::default(),
            unmapped: Actions::default(),
            next: None,
        }
    }
}

impl ModeEntry {
    // The entry of a mode; empty lists and no next mode where the table does not reach.
    #[tactic(auto, unfolding(rules::specs::Tables::mode_entry))]
    pub fn of(tables: &TableWords, mode: u16) -> ModeEntry
        ensures { entry_by result ≡ t.mode_entry (tables_of tables.now).modes mode }
    {
        match tables.mode(mode) {
            Some(words) => ModeEntry::from(words),
            None => ModeEntry::default(),
        }
    }
}

impl From<ModeWords> for ModeEntry {
    ghost from_gives = { λ words entry. entry_by entry ≡ entry_in words };

    // The entry of a mode's words.
    #[tactic(auto, unfolding(crate::specs::View::entry_by, crate::specs::View::entry_in))]
    fn from(words: ModeWords) -> ModeEntry
        ensures { entry_by result ≡ entry_in words }
    {
        ModeEntry {
            enter: Actions::of_word(words.enter, (words.head % 8) as u16),
            unmapped: Actions::of_word(words.unmapped, (words.head / 8 % 8) as u16),
            next: node::unopt(words.head / 64),
        }
    }
}

impl Entry for ModeEntry {
    type Words = ModeWords;

    ghost in_range = { λ e. t.mode_valid (whole_entry e) };

    ghost means = { λ w e. entry_in w ≡ whole_entry e };

    #[tactic(auto, unfolding(rules::specs::Tables::mode_valid, crate::specs::View::whole_entry))]
    fn valid(&self) -> bool {
        self.enter.valid() && self.unmapped.valid() && step::mode_valid(self.next)
    }

    #[tactic(auto, using(keyvalues::proofs::Ranges::fit_take, keyvalues::proofs::Ranges::fit_length), unfolding(rules::specs::Tables::mode_valid, crate::specs::View::entry_in, crate::specs::View::whole_entry))]
    fn pack(&self) -> ModeWords {
        ModeWords {
            enter: self.enter.word(),
            unmapped: self.unmapped.word(),
            head: (self.enter.count as u64)
                + 8 * (self.unmapped.count as u64)
                + 64 * node::opt(self.next),
        }
    }
}

impl Default for Tables {
    ghost is_default = { λ tables. whole_tables tables ≡ t.no_tables };

    // No entry at all.
    #[tactic(auto, unfolding(rules::specs::Tables::no_tables, crate::specs::View::whole_tables, keyvalues::specs::View::fit))]
    fn default() -> Tables
        ensures { whole_tables result ≡ t.no_tables }
    {
        Tables {
            classes: [ClassEntry::default(); TableWords::CLASSES as usize],
            modes: [ModeEntry::default(); TableWords::MODES as usize],
            rules: [Rule::default(); TableWords::RULES as usize],
            sizes: Sizes::default(),
        }
    }
}

impl Tables {
    // Does each table hold as many entries as its size says, each of them in range?
    #[tactic(auto, using(crate::proofs::Packs::tables_ok))]
    fn valid(&self) -> bool
        ensures { result ≡ t.tables_valid (whole_tables self.now) }
    {
        entry::table_valid(&self.classes, self.sizes.classes)
            && (entry::table_valid(&self.modes, self.sizes.modes)
                && entry::table_valid(&self.rules, self.sizes.rules))
    }

    // The words of tables that are in range. A call of its own: built in, its arrays hide from the compiler that a machine which is
    // opened by value need not be cleared first.
    #[inline(never)]
    pub fn pack(&self) -> Result<TableWords, Refusal>
        ensures { told tables_of result ≡ unless (t.tables_valid (whole_tables self.now)) 1 (accept (whole_tables self.now)) }
    {
        if !self.valid() {
            return Err(Refusal::OutOfRange);
        }
        let mut words = TableWords {
            class_count: self.sizes.classes,
            mode_count: self.sizes.modes,
            rule_count: self.sizes.rules,
            ..TableWords::EMPTY
        };
        entry::pack_front(
            list::front(&self.classes, words.class_count),
            &mut words.classes,
        );
        entry::pack_front(list::front(&self.modes, words.mode_count), &mut words.modes);
        entry::pack_front(list::front(&self.rules, words.rule_count), &mut words.rules);
        Ok(words)
    }
}
