// Plays recorded lists of calls, framed in one standard input. `compare/record` wrote `stdin`, and `stdout` from the
// answers of the Rust original; a refusal that it does not have is that of a model of it.
#![tactic(auto)]

use framed::Player;
use std::io;

fn main(rt: HostRuntime) -> io::Result<()> {
    playback::serve(rt.alloc(), rt.stdin(), rt.stdout(), 400000, |out, input| {
        framed::cases(out, input, Player::Callplay)
    })
}
