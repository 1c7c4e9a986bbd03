// Plays the input of standard input: the map's length, the map, then keys.
#![tactic(auto)]

use std::io;

fn main(rt: HostRuntime) -> io::Result<()> {
    // one byte more than an input may have, so that a longer one shows
    playback::serve(rt.alloc(), rt.stdin(), rt.stdout(), 65537, playback::answer)
}
