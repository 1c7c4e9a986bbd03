// Plays many inputs of a program framed in one. A frame is two numbers, whose sum is a length, and then so many bytes. (One
// number could not be 65,537, the least length that a program refuses.)
#![tactic(auto)]

ghost use Rattle.std.specs.Prelude.{◌<◌, length, IfSome};
ghost use Rattle.std.specs.Iterator.{at_most};

use mapparts::reader::Reader;
pub use playback::read_full;
use std::io;
use std::io::Write;

// The first frame's bytes, and the bytes behind it.
#[tactic(auto, using(mapparts::proofs::KeyBytes::shorter))]
fn split_frame(s: &[u8]) -> Option<(&[u8], &[u8])>
    ensures { IfSome result (λ p. length p.1.now < length s.now) }
{
    let mut reader = Reader { rest: s };
    let a = reader.number().ok()?;
    let b = reader.number().ok()?;
    let (input, rest) = reader.rest.split_at_checked(a as usize + b as usize)?;
    Some((input, rest))
}

// The inputs in these bytes, up to a frame that is not whole.
#[derive(Drop)]
struct Frames<'a>(&'a [u8]);

impl<'a> Iterator for Frames<'a> {
    type Item = &'a [u8];

    ghost remaining = { λ f. at_most (length f.0.now) };

    fn next(&mut self) -> Option<&'a [u8]> {
        let (input, rest) = split_frame(self.0)?;
        self.0 = rest;
        Some(input)
    }
}

// The program whose inputs they are.
#[derive(Clone, Copy, Debug, PartialEq, Eq)]
pub enum Player {
    Keyplay,
    Callplay,
}

fn answer<W: Write>(out: &mut W, input: &[u8], player: Player) -> io::Result<()> {
    match player {
        Player::Keyplay => playback::answer(out, input),
        Player::Callplay => playcalls::answer(out, input),
    }
}

// A line `--` stands before each answer; a frame that is not whole ends the play.
pub fn cases<W: Write>(out: &mut W, s: &[u8], player: Player) -> io::Result<()> {
    for input in Frames(s) {
        writeln!(out, "--")?;
        answer(out, input, player)?;
    }
    Ok(())
}
