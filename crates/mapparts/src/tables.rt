// The three tables, read into the words that the machine keeps them in.
ghost use Rattle.rules.specs.Tables as t;
ghost use Rattle.rules.specs.MapFile.{read_class, read_mode, read_rule, read_tables};
ghost use Rattle.keyvalues.specs.View.{class_at};
ghost use Rattle.keytables.specs.View.{rule_of, entry_in, tables_of};
ghost use Rattle.mapparts.specs.View.{Reads};

use crate::list;
use crate::list::Listed;
use crate::reader::Reader;
use keytables::entry::Entry;
use keytables::rule::Rule;
use keytables::tables::{ClassEntry, ModeEntry};
use keyvalues::class::ClassWord;
use keyvalues::event::EdgeEvent;
use keyvalues::refusal::Refusal;
use keyvalues::tables::{ModeWords, RuleWord, TableWords};

impl Listed for ClassEntry {
    type Kept = ClassWord;

    ghost Value = { t.ClassEntry };

    ghost read = { read_class };

    ghost value = { class_at };

    #[tactic(auto, using(crate::proofs::Ranges::class_in_range))]
    fn read_from(reader: &mut Reader) -> Result<ClassWord, Refusal> {
        let class = reader.below(EdgeEvent::CLASSES)?;
        let low = reader.number()?;
        let high = reader.at_least(low)?;
        Ok(ClassEntry { class, low, high }.pack())
    }
}

// Enter list, unmapped list, and 0 or the next mode + 1.
impl Listed for ModeEntry {
    type Kept = ModeWords;

    ghost Value = { t.ModeEntry };

    ghost read = { read_mode };

    ghost value = { entry_in };

    #[tactic(auto, using(crate::proofs::Ranges::mode_in_range), unfolding(keytables::specs::View::whole_entry))]
    fn read_from(reader: &mut Reader) -> Result<ModeWords, Refusal> {
        let enter = list::read_actions(reader)?;
        let unmapped = list::read_actions(reader)?;
        let next = list::read_optional_mode(reader)?;
        let entry = ModeEntry {
            enter,
            unmapped,
            next,
        };
        Ok(entry.pack())
    }
}

impl Listed for Rule {
    type Kept = RuleWord;

    ghost Value = { t.Rule };

    ghost read = { read_rule };

    ghost value = { rule_of };

    #[tactic(auto, using(crate::proofs::Ranges::rule_in_range))]
    fn read_from(reader: &mut Reader) -> Result<RuleWord, Refusal> {
        let mode = reader.below(TableWords::MODES)?;
        let low = reader.number()?;
        let high = reader.at_least(low)?;
        let sequence = reader.below(Rule::SEQUENCES)?;
        let status = reader.below(Rule::STATUSES)?;
        let rule = Rule {
            mode,
            low,
            high,
            sequence,
            status,
        };
        Ok(rule.pack())
    }
}

pub fn read_tables(reader: &mut Reader) -> Result<TableWords, Refusal>
    ensures { Reads tables_of read_tables reader.old.rest.now result reader.new.rest.now }
{
    let mut tables = TableWords::EMPTY;
    tables.class_count = list::read_list::<ClassEntry>(
        reader,
        TableWords::CLASSES,
        &mut tables.classes,
    )?;
    tables.mode_count = list::read_list::<ModeEntry>(reader, TableWords::MODES, &mut tables.modes)?;
    tables.rule_count = list::read_list::<Rule>(reader, TableWords::RULES, &mut tables.rules)?;
    Ok(tables)
}
