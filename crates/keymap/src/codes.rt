// The numbers that C gets for answers: an enum does not go to C.
ghost use Rattle.std.specs.Prelude.{◌≡◌, ◌≤◌, IfOk};
ghost use Rattle.keyvalues.specs.View.{maybe_of, told, said_of};
ghost use Rattle.keypairs.specs.View.{pop_of};
ghost use Rattle.keymachine.specs.View.{press_of};
ghost use Rattle.mapparts.specs.View.{length_code};
ghost use Rattle.keymap.specs.Codes.{or_refusal, answer_code, find_code};

use keypairs::pair::Pair;
use keyvalues::refusal::Refusal;

// The number of what was answered, or of the refusal.
fn number(answer: Result<u64, Refusal>) -> u64
    ensures { result ≡ or_refusal answer }
{
    answer.unwrap_or_else(|refusal| refusal.number() as u64)
}

// 0, or the refusal's number.
pub(crate) fn answer_code(answer: Result<(), Refusal>) -> u64
    ensures { result ≡ answer_code (said_of answer) }
{
    number(answer.map(|()| 0))
}

// Rounds × 32, and the refusal's number.
#[tactic(auto, using(crate::proofs::Numbers::pressed))]
pub(crate) fn pressed_code(pressed: (u16, Result<(), Refusal>)) -> u64
    ensures { result ≡ answer_code (press_of pressed) }
{
    let (rounds, answer) = pressed;
    (rounds as u64) * 32 + answer_code(answer)
}

// 0, or the pair's word with the bit that says that there is one.
pub(crate) fn waiting_code(waiting: Option<Pair>) -> u64
    ensures { result ≡ answer_code (pop_of waiting) }
{
    waiting.map_or(0, |pair| pair.pack() + 281474976710656)
}

// The refusal's number; (node + 1) × 32; 0 for none.
pub(crate) fn found_code(found: Result<Option<u16>, Refusal>) -> u64
    ensures { result ≡ find_code (told maybe_of found) }
{
    number(found.map(|node| node.map_or(0, |node| ((node as u64) + 1) * 32)))
}

// Length × 32, or the refusal's number.
pub(crate) fn length_code(length: Result<usize, Refusal>) -> u64
    requires { IfOk length (λ n. n ≤ 812655) }
    ensures { result ≡ length_code length }
{
    number(length.map(|size| (size as u64) * 32))
}
