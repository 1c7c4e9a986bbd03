// The three tables, each a count and then its entries.
ghost use Rattle.std.specs.Prelude.{◌≤◌, length, OnOk};
ghost use Rattle.rules.specs.Tables as t;
ghost use Rattle.rules.specs.Writing.{mode_numbers, class_numbers, rule_numbers, tables_numbers};
ghost use Rattle.keyvalues.specs.View.{class_at};
ghost use Rattle.keytables.specs.View.{entry_in, rule_of, tables_of};
ghost use Rattle.mapparts.specs.View.{put_all, Writes};

use crate::list;
use crate::list::Written;
use keytables::rule::Rule;
use keytables::tables::{ClassEntry, ModeEntry};
use keyvalues::class::ClassWord;
use keyvalues::refusal::Refusal;
use keyvalues::tables::{ModeWords, RuleWord, TableWords};
use mapparts::writer::Writer;

impl Written for ClassEntry {
    type Kept = ClassWord;

    ghost Value = { t.ClassEntry };

    ghost numbers = { class_numbers };

    ghost value = { class_at };

    ghost most = { 3 };

    #[inline(always)]
    #[tactic(auto, using(mapparts::proofs::Writing::writing, crate::proofs::Few::class_few), unfolding(rules::specs::Writing::class_numbers))]
    fn write_to(kept: &ClassWord, writer: &mut Writer) -> Result<(), Refusal> {
        let class = ClassEntry::from(*kept);
        writer.put(class.class)?;
        writer.put(class.low)?;
        writer.put(class.high)
    }
}

impl Written for ModeEntry {
    type Kept = ModeWords;

    ghost Value = { t.ModeEntry };

    ghost numbers = { mode_numbers };

    ghost value = { entry_in };

    ghost most = { 11 };

    #[inline(always)]
    #[tactic(auto, using(mapparts::proofs::Writing::writing, crate::proofs::Few::mode_few), unfolding(rules::specs::Writing::mode_numbers, keytables::specs::View::entry_by))]
    fn write_to(kept: &ModeWords, writer: &mut Writer) -> Result<(), Refusal> {
        let entry = ModeEntry::from(*kept);
        list::put_actions(&entry.enter, writer)?;
        list::put_actions(&entry.unmapped, writer)?;
        list::put_mode(entry.next, writer)
    }
}

impl Written for Rule {
    type Kept = RuleWord;

    ghost Value = { t.Rule };

    ghost numbers = { rule_numbers };

    ghost value = { rule_of };

    ghost most = { 5 };

    #[inline(always)]
    #[tactic(auto, using(mapparts::proofs::Writing::writing, crate::proofs::Few::rule_few), unfolding(rules::specs::Writing::rule_numbers))]
    fn write_to(kept: &RuleWord, writer: &mut Writer) -> Result<(), Refusal> {
        let rule = Rule::from(*kept);
        writer.put(rule.mode)?;
        writer.put(rule.low)?;
        writer.put(rule.high)?;
        writer.put(rule.sequence)?;
        writer.put(rule.status)
    }
}

#[inline(always)]
#[tactic(auto, using(mapparts::proofs::Writing::writing, crate::proofs::Few::tables_short), unfolding(rules::specs::Writing::tables_numbers))]
pub(crate) fn put_tables(tables: &TableWords, writer: &mut Writer) -> Result<(), Refusal>
    ensures few { OnOk result (length (tables_numbers (tables_of tables.now)) ≤ 547) }
    ensures writes { Writes (put_all (tables_numbers (tables_of tables.now))) writer.old result writer.new }
{
    list::put_list::<ClassEntry>(&tables.classes, tables.class_count, writer)?;
    list::put_list::<ModeEntry>(&tables.modes, tables.mode_count, writer)?;
    list::put_list::<Rule>(&tables.rules, tables.rule_count, writer)
}
