// The calls, one after another, each on the machine that the one before left.
use crate::call::Call;
use crate::change::NewMap;
use crate::{file, print, tables};
use keptcalls::words::CallWords;
use keymachine::machine::ModalMachine;
use keymachine::scanner::Scanner;
use keymap::lent;
use keyvalues::refusal::Refusal;
use mapparts::reader::Reader;
use std::io;
use std::io::Write;

// Changes the map to the one that was made, unless that was refused.
fn change(m: &mut Scanner, next: &NewMap, made: Result<(), Refusal>) -> Result<(), Refusal> {
    made?;
    lent::change(m, &next.map, &next.kept);
    Ok(())
}

// Makes the call, and prints its answer.
fn perform<W: Write>(out: &mut W, m: &mut Scanner, next: &NewMap, call: Call) -> io::Result<()> {
    match call {
        Call::Bind(call) => print::settled(out, lent::bind(m, &call)),
        Call::Key { key, budget } => print::pressed(out, lent::input_key(m, key, budget)),
        Call::Pop => print::waiting(out, lent::pop(m)),
        Call::Repeat { sequence, over } => print::settled(out, lent::repeat(m, sequence, over)),
        Call::Reset => print::settled(out, lent::reset_mode(m)),
        Call::Find { mode, action } => print::found(out, lent::find(m, mode, action)),
        Call::Hint => write!(out, "free {}", lent::free_nodes(m)),
        Call::Write { room } => file::print_file(out, m, room),
        Call::Change(made) => print::settled(out, change(m, next, made)),
        Call::Unknown => print::refused(out, Refusal::OutOfRange),
    }
}

// To the end of the input, or to the first call that is malformed. A call takes a byte at least, so there are no more calls
// than bytes. It is called, and not built in, so that an input without a call takes no stack for a new map.
#[inline(never)]
fn play_calls<W: Write>(out: &mut W, input: &mut Reader, m: &mut Scanner) -> io::Result<()> {
    let mut next = NewMap::fresh();
    for _ in 0..input.rest.len() {
        if input.rest.is_empty() {
            break;
        }
        match Call::read(input, &mut next) {
            Err(refusal) => return print::refused_line(out, refusal),
            Ok(call) => {
                perform(out, m, &next, call)?;
                writeln!(out, " mode {}", lent::mode(m))?;
            }
        }
    }
    Ok(())
}

// The tables, which the machine is opened with.
fn open(input: &mut Reader, m: &mut Scanner) -> Result<(), Refusal> {
    let tables = tables::read_tables(input)?;
    lent::open(m, tables)
}

// The machine that the calls begin with.
pub(crate) fn fresh() -> Scanner {
    Scanner {
        machine: ModalMachine::fresh(),
        kept: [CallWords::EMPTY; CallWords::KEPT as usize],
    }
}

// The tables, and then the calls.
pub(crate) fn play<W: Write>(out: &mut W, bytes: &[u8]) -> io::Result<()> {
    let mut input = Reader { rest: bytes };
    let mut m = fresh();
    match open(&mut input, &mut m) {
        Err(refusal) => print::refused_line(out, refusal),
        Ok(()) if input.rest.is_empty() => Ok(()),
        Ok(()) => play_calls(out, &mut input, &mut m),
    }
}
