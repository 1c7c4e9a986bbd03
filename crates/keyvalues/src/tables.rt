// The words of the three tables, so that whoever hands the tables on lends one thing.
ghost use Rattle.std.specs.Prelude.{◌≡◌, ◌≤◌, map, MatchOption, length, get_or, ◌<◌};
ghost use Rattle.keyvalues.specs.View.{class_at, class_table, mode_table, rule_table};

use crate::class::ClassWord;
use crate::list;

// The words of a mode: its enter list, its unmapped list, and a head with their counts and the next mode.
#[repr(C)]
#[derive(Clone, Copy, Debug, PartialEq, Eq)]
pub struct ModeWords {
    pub enter: u64,
    pub unmapped: u64,
    pub head: u64,
}

// The word of a sequence rule: its mode, its sequence, its status and the actions that it is for.
#[repr(C)]
#[derive(Clone, Copy, Debug, PartialEq, Eq)]
pub struct RuleWord {
    pub word: u64,
}

// In front of each table stands how many of its entries count.
#[repr(C)]
#[derive(Clone, Copy)]
pub struct TableWords {
    pub class_count: u16,
    pub classes: [ClassWord; TableWords::CLASSES as usize],
    pub mode_count: u16,
    pub modes: [ModeWords; TableWords::MODES as usize],
    pub rule_count: u16,
    pub rules: [RuleWord; TableWords::RULES as usize],
}

impl TableWords {
    // So many entries the tables have at most. There are as many modes, with an entry or not.
    pub const CLASSES: u16 = 16;

    pub const MODES: u16 = 16;

    pub const RULES: u16 = 64;

    // No entry at all.
    pub const EMPTY: TableWords = TableWords {
        class_count: 0,
        classes: [ClassWord { word: 0 }; TableWords::CLASSES as usize],
        mode_count: 0,
        modes: [ModeWords::EMPTY; TableWords::MODES as usize],
        rule_count: 0,
        rules: [RuleWord { word: 0 }; TableWords::RULES as usize],
    };

    // The words of the classes that count.
    pub fn classes(&self) -> &[ClassWord]
        ensures { map class_at result.now ≡ class_table self.now }
    {
        list::front(&self.classes, self.class_count)
    }

    pub fn modes(&self) -> &[ModeWords]
        ensures { result.now ≡ mode_table self.now }
    {
        list::front(&self.modes, self.mode_count)
    }

    pub fn rules(&self) -> &[RuleWord]
        ensures { result.now ≡ rule_table self.now }
    {
        list::front(&self.rules, self.rule_count)
    }

    // The words of a mode, if it is one of those that count.
    pub fn mode(&self, mode: u16) -> Option<ModeWords>
        ensures { MatchOption result (length (mode_table self.now) ≤ mode) (λ w. (mode < length (mode_table self.now)) × ((d : _) → get_or (mode_table self.now) mode d ≡ w)) }
    {
        self.modes().get(mode as usize).copied()
    }
}

impl ModeWords {
    // Empty lists and no next mode.
    pub const EMPTY: ModeWords = ModeWords {
        enter: 0,
        unmapped: 0,
        head: 0,
    };
}
