// Answers, without the mode that ends each line.
use keypairs::context::Context;
use keypairs::pair::Pair;
use keyvalues::refusal::Refusal;
use std::io;
use std::io::Write;

pub(crate) fn refused<W: Write>(out: &mut W, refusal: Refusal) -> io::Result<()> {
    write!(out, "refused {}", refusal.number())
}

// A refusal that ends the play.
pub(crate) fn refused_line<W: Write>(out: &mut W, refusal: Refusal) -> io::Result<()> {
    refused(out, refusal)?;
    writeln!(out)
}

pub(crate) fn settled<W: Write>(out: &mut W, answer: Result<(), Refusal>) -> io::Result<()> {
    match answer {
        Ok(()) => write!(out, "ok"),
        Err(refusal) => refused(out, refusal),
    }
}

pub(crate) fn pressed<W: Write>(
    out: &mut W,
    pressed: (u16, Result<(), Refusal>),
) -> io::Result<()> {
    let (rounds, answer) = pressed;
    settled(out, answer)?;
    write!(out, " rounds {rounds}")
}

// The count, or a dash for none.
fn counted<W: Write>(out: &mut W, context: Context) -> io::Result<()> {
    if context.typed {
        return write!(out, "{}", context.count);
    }
    write!(out, "-")
}

pub(crate) fn waiting<W: Write>(out: &mut W, answer: Option<Pair>) -> io::Result<()> {
    match answer {
        Some(pair) => {
            write!(out, "pair {} ", pair.action)?;
            counted(out, pair.context)?;
            write!(out, " {}", pair.context.mark)
        }
        None => write!(out, "nothing"),
    }
}

pub(crate) fn found<W: Write>(out: &mut W, answer: Result<Option<u16>, Refusal>) -> io::Result<()> {
    match answer {
        Ok(Some(node)) => write!(out, "node {node}"),
        Ok(None) => write!(out, "none"),
        Err(refusal) => refused(out, refusal),
    }
}
