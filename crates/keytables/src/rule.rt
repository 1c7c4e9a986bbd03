// A sequence rule, and the word that it is kept in.
ghost use Rattle.std.specs.Prelude.{◌≡◌, ◌<◌};
ghost use Rattle.rules.specs.Tables.{matches, rule_valid};
ghost use Rattle.keytables.specs.View.{rule_by, rule_of};

use crate::entry::Entry;
use keyvalues::number;
use keyvalues::tables::{RuleWord, TableWords};

// The rule tells what the actions from `low` to `high` do to a sequence, in one mode.
#[derive(Clone, Copy, Debug, PartialEq, Eq, Default)]
pub struct Rule {
    pub mode: u16,
    pub low: u16,
    pub high: u16,
    pub sequence: u16,
    pub status: u16,
}

impl Rule {
    pub const STATUSES: u16 = 5;

    // So many sequences remember pairs.
    pub const SEQUENCES: u16 = 8;

    // Is the rule for the mode, and does its range hold the action?
    #[tactic(auto, unfolding(rules::specs::Tables::matches))]
    pub fn matches(self, mode: u16, action: u16) -> bool
        ensures { result ≡ matches (rule_by self) mode action }
    {
        self.mode == mode && self.low <= action && action <= self.high
    }
}

impl From<RuleWord> for Rule {
    ghost from_gives = { λ w rule. (rule_by rule ≡ rule_of w) × (rule.sequence < 8) };

    // The rule of a word of the table.
    #[tactic(auto, unfolding(crate::specs::View::rule_of))]
    fn from(w: RuleWord) -> Rule
        ensures { (rule_by result ≡ rule_of w) × (result.sequence < 8) }
    {
        Rule {
            mode: (w.word % 16) as u16,
            low: number::low(w.word / 1024),
            high: number::low(w.word / 67108864),
            sequence: (w.word / 16 % 8) as u16,
            status: (w.word / 128 % 8) as u16,
        }
    }
}

impl Entry for Rule {
    type Words = RuleWord;

    ghost in_range = { λ r. rule_valid (rule_by r) };

    ghost means = { λ w r. rule_of w ≡ rule_by r };

    #[tactic(auto, unfolding(rules::specs::Tables::rule_valid))]
    fn valid(&self) -> bool {
        self.mode < TableWords::MODES
            && self.low <= self.high
            && self.sequence < Rule::SEQUENCES
            && self.status < Rule::STATUSES
    }

    #[tactic(auto, unfolding(rules::specs::Tables::rule_valid, crate::specs::View::rule_of))]
    fn pack(&self) -> RuleWord {
        RuleWord {
            word: (self.mode as u64)
                + 16 * (self.sequence as u64)
                + 128 * (self.status as u64)
                + 1024 * (self.low as u64)
                + 67108864 * (self.high as u64),
        }
    }
}
