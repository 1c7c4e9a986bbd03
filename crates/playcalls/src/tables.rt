// The three tables and lists of actions, with any numbers.
use crate::list::{read_list, read_maybe};
use keytables::rule::Rule;
use keytables::tables::{ClassEntry, ModeEntry, Tables};
use keyvalues::actions::Actions;
use keyvalues::refusal::Refusal;
use mapparts::reader::Reader;

pub(crate) fn read_actions(input: &mut Reader) -> Result<Actions, Refusal> {
    let mut actions = Actions::default();
    actions.count = read_list(input, &mut actions.items, |r| r.number())?;
    Ok(actions)
}

fn read_class(input: &mut Reader) -> Result<ClassEntry, Refusal> {
    Ok(ClassEntry {
        class: input.number()?,
        low: input.number()?,
        high: input.number()?,
    })
}

fn read_mode(input: &mut Reader) -> Result<ModeEntry, Refusal> {
    Ok(ModeEntry {
        enter: read_actions(input)?,
        unmapped: read_actions(input)?,
        next: read_maybe(input)?,
    })
}

fn read_rule(input: &mut Reader) -> Result<Rule, Refusal> {
    Ok(Rule {
        mode: input.number()?,
        low: input.number()?,
        high: input.number()?,
        sequence: input.number()?,
        status: input.number()?,
    })
}

pub(crate) fn read_tables(input: &mut Reader) -> Result<Tables, Refusal> {
    let mut tables = Tables::default();
    tables.sizes.classes = read_list(input, &mut tables.classes, read_class)?;
    tables.sizes.modes = read_list(input, &mut tables.modes, read_mode)?;
    tables.sizes.rules = read_list(input, &mut tables.rules, read_rule)?;
    Ok(tables)
}
