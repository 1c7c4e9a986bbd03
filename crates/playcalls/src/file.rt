// The map file that the machine writes, as hexadecimal digits.
use crate::print;
use keymachine::scanner::Scanner;
use keymap::lent;
use std::io;
use std::io::Write;

// The most bytes that a call can lend: its number has 16 bits.
const MOST_ROOM: usize = 65535;

// Two digits for each byte.
fn print_bytes<W: Write>(out: &mut W, bytes: &[u8]) -> io::Result<()> {
    for byte in bytes {
        write!(out, "{byte:02x}")?;
    }
    Ok(())
}

// The answer of a write to the lent bytes.
fn print_written<W: Write>(out: &mut W, m: &Scanner, output: &mut [u8]) -> io::Result<()> {
    match lent::write(m, output) {
        Ok(size) => {
            write!(out, "file ")?;
            print_bytes(out, &output[..size])
        }
        Err(refusal) => print::refused(out, refusal),
    }
}

// The same, to so many bytes.
pub(crate) fn print_file<W: Write>(out: &mut W, m: &Scanner, room: u16) -> io::Result<()> {
    let mut output = [0u8; MOST_ROOM];
    print_written(out, m, &mut output[..room as usize])
}
