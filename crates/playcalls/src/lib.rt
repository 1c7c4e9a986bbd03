// Plays a list of calls and prints the answers. An input is numbers as in a map file: the three tables, and then calls to
// the end. No range is tested here: the numbers go to the calls as they are.
#![tactic(auto)]

mod call;
mod change;
mod file;
mod list;
mod path;
mod play;
mod print;
mod tables;
#[cfg(test)]
mod tests;

use keyvalues::refusal::Refusal;
use std::io;
use std::io::Write;

// The bytes of an input at most.
const MOST_INPUT: usize = 65536;

// An input of at most `MOST_INPUT` bytes; a longer one is refused with 9.
pub fn answer<W: Write>(out: &mut W, input: &[u8]) -> io::Result<()> {
    if MOST_INPUT < input.len() {
        return print::refused_line(out, Refusal::Malformed);
    }
    play::play(out, input)
}
