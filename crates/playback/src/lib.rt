// The program `keyplay`: a proved function makes the text of an input in lent bytes, and it is written at once. And what every
// program of this repository is made of: its input is read whole, and what is made of it is written.
#![tactic(auto)]

ghost use Rattle.std.specs.Prelude.{OnOk};
ghost use Rattle.std.specs.Io.KnownBytes.{Appends};
ghost use Rattle.rules.specs.Run.{keyplay};

mod input;
mod lines;
mod program;
mod put;
#[cfg(test)]
mod tests;
mod text;

pub use input::{read_full, read_input};
pub use program::serve;
use std::io;
use std::io::Write;
pub use text::{MOST_TEXT, keyplay};

// Writes the text of an input. It always fits.
pub fn answer<W: Write>(out: &mut W, input: &[u8]) -> io::Result<()>
    ensures { OnOk result (Appends (W.contents out.old) (W.contents out.new) (keyplay input.now)) }
{
    let mut text = [0u8; MOST_TEXT];
    let size = keyplay(input, &mut text).unwrap();
    out.write_all(&text[..size])
}
