// Paths and steps, with any numbers. A part is none where a number has no value of its type: a kind of repeat or of event, or
// a flag. It is read in the form of the last kind then.
use crate::list::{read_list, read_maybe};
use crate::tables;
use keyvalues::event::{EdgeEvent, EdgeRepeat};
use keyvalues::path::{EdgePath, EdgePathPart};
use keyvalues::refusal::Refusal;
use keyvalues::step::Step;
use mapparts::reader::Reader;

fn read_repeat(input: &mut Reader) -> Result<Option<EdgeRepeat>, Refusal> {
    match input.number()? {
        0 => Ok(Some(EdgeRepeat::Once)),
        1 => Ok(Some(EdgeRepeat::Min(input.number()?))),
        2 => Ok(Some(EdgeRepeat::Max(input.number()?))),
        _ => {
            input.number()?;
            Ok(None)
        }
    }
}

fn read_event(input: &mut Reader) -> Result<Option<EdgeEvent>, Refusal> {
    Ok(match input.number()? {
        0 => Some(EdgeEvent::Key(input.number()?)),
        1 => Some(EdgeEvent::Class(input.number()?)),
        2 => Some(EdgeEvent::Any),
        3 => Some(EdgeEvent::Fallthrough),
        _ => None,
    })
}

fn read_part(input: &mut Reader) -> Result<Option<EdgePathPart>, Refusal> {
    let repeat = read_repeat(input)?;
    let event = read_event(input)?;
    Ok(
        repeat
            .zip(event)
            .map(|(repeat, event)| EdgePathPart { repeat, event }),
    )
}

// Of more parts than a path holds the count is kept: such a path is refused, whatever its parts.
pub(crate) fn read_path(input: &mut Reader) -> Result<Option<EdgePath>, Refusal> {
    let any = EdgePathPart {
        repeat: EdgeRepeat::Once,
        event: EdgeEvent::Any,
    };
    let mut read = [Some(any); EdgePath::PARTS as usize];
    let count = read_list(input, &mut read, read_part)?;
    let mut parts = [any; EdgePath::PARTS as usize];
    for (part, known) in parts.iter_mut().zip(&read) {
        let Some(known) = known else {
            return Ok(None);
        };
        *part = *known;
    }
    Ok(Some(EdgePath { parts, count }))
}

// 0, or the mark itself.
fn read_mark(input: &mut Reader) -> Result<Option<u16>, Refusal> {
    let mark = input.number()?;
    Ok((mark != 0).then_some(mark))
}

pub(crate) fn read_step(input: &mut Reader) -> Result<Option<Step>, Refusal> {
    let flag = input.number()?;
    let actions = tables::read_actions(input)?;
    let step = Step {
        unmapped: flag == 1,
        actions,
        next: read_maybe(input)?,
        fallthrough: read_maybe(input)?,
        mark: read_mark(input)?,
    };
    Ok((flag < 2).then_some(step))
}
