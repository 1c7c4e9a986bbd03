// Paths: parts, each a repeat and an event.
ghost use Rattle.rules.specs.Values.{Part, most_parts};
ghost use Rattle.rules.specs.MapFile.{read_part, list_of};
ghost use Rattle.keyvalues.specs.View.{repeat_of, event_of, part_of, whole_path};
ghost use Rattle.mapparts.specs.View.{Reads, read_repeat, read_event};

use crate::list;
use crate::list::Listed;
use crate::reader::Reader;
use keyvalues::event::{EdgeEvent, EdgeRepeat};
use keyvalues::path::{EdgePath, EdgePathPart};
use keyvalues::refusal::Refusal;

// 0 once; 1 min and 2 max, each with a number.
#[tactic(auto, unfolding(rules::specs::MapFile::repeat_by))]
fn read_repeat(reader: &mut Reader) -> Result<EdgeRepeat, Refusal>
    ensures { Reads repeat_of read_repeat reader.old.rest.now result reader.new.rest.now }
{
    match reader.up_to(2)? {
        0 => Ok(EdgeRepeat::Once),
        1 => Ok(EdgeRepeat::Min(reader.up_to(EdgeRepeat::MOST)?)),
        _ => Ok(EdgeRepeat::Max(reader.up_to(EdgeRepeat::MOST)?)),
    }
}

// 0 key and 1 class, each with a value; 2 any, 3 fallthrough.
#[tactic(auto, unfolding(rules::specs::MapFile::event_by))]
fn read_event(reader: &mut Reader) -> Result<EdgeEvent, Refusal>
    ensures { Reads event_of read_event reader.old.rest.now result reader.new.rest.now }
{
    match reader.up_to(3)? {
        0 => Ok(EdgeEvent::Key(reader.number()?)),
        1 => Ok(EdgeEvent::Class(reader.below(EdgeEvent::CLASSES)?)),
        2 => Ok(EdgeEvent::Any),
        _ => Ok(EdgeEvent::Fallthrough),
    }
}

impl Listed for EdgePathPart {
    type Kept = EdgePathPart;

    ghost Value = { Part };

    ghost read = { read_part };

    ghost value = { part_of };

    #[tactic(auto, unfolding(keyvalues::specs::View::part_of))]
    fn read_from(reader: &mut Reader) -> Result<EdgePathPart, Refusal> {
        let repeat = read_repeat(reader)?;
        let event = read_event(reader)?;
        Ok(EdgePathPart { repeat, event })
    }
}

// A count, then parts.
#[tactic(auto, using(crate::proofs::Parts::fit_map))]
pub fn read_path(reader: &mut Reader) -> Result<EdgePath, Refusal>
    ensures { Reads whole_path (list_of most_parts read_part) reader.old.rest.now result reader.new.rest.now }
{
    let none = EdgePathPart {
        repeat: EdgeRepeat::Once,
        event: EdgeEvent::Any,
    };
    let mut parts = [none; EdgePath::PARTS as usize];
    let count = list::read_list::<EdgePathPart>(reader, EdgePath::PARTS, &mut parts)?;
    Ok(EdgePath { parts, count })
}
