// Plays many inputs of `keyplay`, framed in one standard input.
#![tactic(auto)]

use framed::Player;
use std::io;

fn main(rt: HostRuntime) -> io::Result<()> {
    playback::serve(rt.alloc(), rt.stdin(), rt.stdout(), 250000, |out, input| {
        framed::cases(out, input, Player::Keyplay)
    })
}
