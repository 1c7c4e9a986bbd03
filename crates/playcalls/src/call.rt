// The calls, as they are read.
use crate::change::NewMap;
use crate::path;
use keptcalls::binding::Binding;
use keypairs::context::Context;
use keyvalues::refusal::Refusal;
use mapparts::reader::Reader;

#[derive(Clone, Copy)]
pub(crate) enum Call {
    Bind(Binding),
    Key {
        key: u16,
        budget: u16,
    },
    Pop,
    Repeat {
        sequence: u16,
        over: Option<Context>,
    },
    Reset,
    Find {
        mode: u16,
        action: u16,
    },
    Hint,
    // The room: how many bytes are lent to the writer.
    Write {
        room: u16,
    },
    // What the change comes to, whose map was made as the call was read.
    Change(Result<(), Refusal>),
    // A call with a number that has no value of its type.
    Unknown,
}

// Mode, path, and the step for kinds 0 and 2. None where a number has no value of its type.
fn read_kind(input: &mut Reader, kind: u16) -> Result<Option<Binding>, Refusal> {
    let mode = input.number()?;
    let path = path::read_path(input)?;
    match kind {
        0 => {
            let step = path::read_step(input)?;
            Ok(
                path.zip(step)
                    .map(|(path, step)| Binding::Mapping { mode, path, step }),
            )
        }
        1 => Ok(path.map(|path| Binding::Prefix {
            mode,
            path,
            step: None,
        })),
        _ => {
            let step = path::read_step(input)?;
            Ok(
                path.zip(step).map(|(path, step)| Binding::Prefix {
                    mode,
                    path,
                    step: Some(step),
                }),
            )
        }
    }
}

// A binding of a change. One of another kind is malformed.
pub(crate) fn read_binding(input: &mut Reader) -> Result<Option<Binding>, Refusal> {
    match input.number()? {
        kind @ (0 | 1 | 2) => read_kind(input, kind),
        _ => Err(Refusal::Malformed),
    }
}

// 0 or 1; any other number is a malformed call.
fn read_flag(input: &mut Reader) -> Result<bool, Refusal> {
    match input.number()? {
        0 => Ok(false),
        1 => Ok(true),
        _ => Err(Refusal::Malformed),
    }
}

// 0, or 1 with whether the count is typed, the count and the mark.
fn read_override(input: &mut Reader) -> Result<Option<Context>, Refusal> {
    if !read_flag(input)? {
        return Ok(None);
    }
    let typed = read_flag(input)?;
    Ok(Some(Context {
        count: input.number()?,
        typed,
        mark: input.number()?,
    }))
}

impl Call {
    // The map of a change is made in the one that is lent, whatever it was before.
    pub(crate) fn read(input: &mut Reader, next: &mut NewMap) -> Result<Call, Refusal> {
        match input.number()? {
            kind @ (0 | 1 | 2) => Ok(read_kind(input, kind)?.map_or(Call::Unknown, Call::Bind)),
            3 => Ok(Call::Key {
                key: input.number()?,
                budget: input.number()?,
            }),
            4 => Ok(Call::Pop),
            5 => Ok(Call::Repeat {
                sequence: input.number()?,
                over: read_override(input)?,
            }),
            6 => Ok(Call::Reset),
            7 => Ok(Call::Find {
                mode: input.number()?,
                action: input.number()?,
            }),
            8 => Ok(Call::Hint),
            9 => Ok(Call::Write {
                room: input.number()?,
            }),
            10 => Ok(Call::Change(next.read(input)?)),
            _ => Err(Refusal::Malformed),
        }
    }
}
