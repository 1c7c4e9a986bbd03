// The map of a change, made beside the machine: its tables, and then its bindings one after another as they are read, none of which
// is held. The first refusal met is the answer, and what is left of the call is read for its numbers alone.
use crate::{call, tables};
use keptcalls::binding::Binding;
use keptcalls::words::CallWords;
use keybind::map::Map;
use keyvalues::refusal::Refusal;
use keyvalues::tables::TableWords;
use mapparts::reader::Reader;

#[derive(Drop)]
pub(crate) struct NewMap {
    pub(crate) map: Map,
    pub(crate) kept: [CallWords; CallWords::KEPT as usize],
}

impl NewMap {
    pub(crate) fn fresh() -> NewMap {
        NewMap {
            map: Map::fresh(TableWords::EMPTY),
            kept: [CallWords::EMPTY; CallWords::KEPT as usize],
        }
    }

    // A binding with a number that has no value of its type is out of range.
    fn bind(&mut self, read: Option<Binding>) -> Result<(), Refusal> {
        match read {
            Some(call) => self.map.bind_or_scratch(&mut self.kept, &call),
            None => Err(Refusal::OutOfRange),
        }
    }

    // The answer, unless a number is malformed.
    pub(crate) fn read(&mut self, input: &mut Reader) -> Result<Result<(), Refusal>, Refusal> {
        let mut answer = Ok(());
        match tables::read_tables(input)?.pack() {
            Ok(words) => self.map = Map::fresh(words),
            Err(refusal) => answer = Err(refusal),
        }
        let count = input.number()?;
        for _ in 0..count {
            let binding = call::read_binding(input)?;
            if answer.is_ok() {
                answer = self.bind(binding);
            }
        }
        Ok(answer)
    }
}
