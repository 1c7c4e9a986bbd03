// Sequence rules, decoded when a pair is pushed.
ghost use Rattle.std.specs.Prelude.{◌≡◌};
ghost use Rattle.rules.specs.KeyLoop.{apply_rule, apply_rules};
ghost use Rattle.keyvalues.specs.View.{told};
ghost use Rattle.keytables.specs.View.{rule_of, tables_of};
ghost use Rattle.keypairs.specs.View.{pair_of, trackers_of};

use crate::pair::Pair;
use crate::tracker::{SequenceTracker, Status};
use keytables::rule::Rule;
use keyvalues::refusal::Refusal;
use keyvalues::tables::{RuleWord, TableWords};

#[tactic(auto, unfolding(rules::specs::KeyLoop::apply_rule))]
fn apply_rule(
    word: RuleWord,
    sequences: &mut [SequenceTracker; SequenceTracker::SEQUENCES as usize],
    mode: u16,
    w: u64,
) -> Result<(), Refusal>
    ensures { told (λ _. trackers_of sequences.new) result ≡ apply_rule mode (pair_of w) (rule_of word) (trackers_of sequences.old) }
{
    let rule = Rule::from(word);
    if rule.matches(mode, Pair::unpack(w).action) {
        return sequences[rule.sequence as usize].track(Status::from(rule.status), w);
    }
    Ok(())
}

// All that match, in order, up to the first refusal.
#[tactic(auto, using(crate::proofs::Pushes::rules_more, crate::proofs::Pushes::rules_refused, crate::proofs::Pushes::rules_none))]
pub(crate) fn apply_rules(
    tables: &TableWords,
    sequences: &mut [SequenceTracker; SequenceTracker::SEQUENCES as usize],
    mode: u16,
    w: u64,
) -> Result<(), Refusal>
    ensures { told (λ _. trackers_of sequences.new) result ≡ apply_rules (tables_of tables.now).rules mode (pair_of w) (trackers_of sequences.old) }
{
    for rule in tables.rules() {
        apply_rule(*rule, sequences, mode, w)?;
    }
    Ok(())
}
