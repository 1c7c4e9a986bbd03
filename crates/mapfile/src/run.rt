// The run.
ghost use Rattle.std.specs.Prelude.{◌≡◌, ◌≤◌, min, length, IfOk};
ghost use Rattle.rules.specs.Run.{pair_bytes, run, answered};
ghost use Rattle.mapparts.specs.View.{length_code};
ghost use Rattle.mapfile.specs.View.{Ran};

use crate::play;
use keyvalues::refusal::Refusal;
use mapparts::writer;

// The bytes of the output that a run uses at most.
pub const MOST_OUTPUT: usize = 65536;

// Answers how many bytes were written. Accepted, the pairs' bytes stand in front of the output and the rest of it stays;
// refused, all of it is zeros.
pub fn run(map: &[u8], keys: &[u8], output: &mut [u8], budget: u16) -> Result<usize, Refusal>
    ensures few { IfOk result (λ n. n ≤ min (length output.old) 65536) }
    ensures ran { Ran (run map.now keys.now budget (length output.old)) result }
    ensures sent { (length_code result, output.new) ≡ answered pair_bytes output.old (run map.now keys.now budget (length output.old)) }
{
    let room = output.len().min(MOST_OUTPUT);
    let written = play::play(map, keys, &mut output[..room], budget);
    if written.is_err() {
        writer::clear_all(output);
    }
    written
}
