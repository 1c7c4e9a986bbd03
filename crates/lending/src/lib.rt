// Five forms of a function over a state that is lent by reference, here over a small state. A part is loaded, and what a call
// makes of it is stored (`walk`); beside it another part is lent on (`lend`); a part is loaded (`peek`) or lent on (`glance`),
// and the state is only looked at; and a call also fills what another lends (`show`). Each is proved with no proof file. The
// calls on a scanner (`keymap::lent`) have these forms, or lend a part on to be changed in place.
#![tactic(auto)]

ghost use Rattle.std.specs.Prelude.{◌≡◌, slice_index, slice_set};

#[derive(Clone, Copy)]
pub struct Part {
    pub last: u64,
}

#[derive(Clone, Copy)]
pub struct State {
    pub part: Part,
    pub words: [u64; 4],
}

// The part after a call, and the call's answer.
fn step(part: Part, x: u64) -> (Part, u64)
    ensures part_after { result.0.last ≡ x }
    ensures answer { result.1 ≡ part.last }
{
    (Part { last: x }, part.last)
}

fn put(words: &mut [u64; 4], part: Part, x: u64) -> (Part, u64)
    ensures words_after { words.new ≡ slice_set words.old 0 part.last }
    ensures part_after { result.0.last ≡ x }
    ensures answer { result.1 ≡ part.last }
{
    words[0] = part.last;
    step(part, x)
}

fn first(words: &[u64; 4]) -> u64
    ensures { result ≡ slice_index words.now 0 }
{
    words[0]
}

fn copy_first(words: &[u64; 4], output: &mut [u64; 1])
    ensures { slice_index output.new 0 ≡ slice_index words.now 0 }
{
    output[0] = words[0];
}

// A part is loaded, and what a call makes of it is stored.
pub fn walk(m: &mut State, x: u64) -> u64
    ensures part_after { m.new.part.last ≡ x }
    ensures words_kept { m.new.words ≡ m.old.words }
    ensures answer { result ≡ m.old.part.last }
{
    let (part, answer) = step(m.part, x);
    m.part = part;
    answer
}

// The same, and another part is lent on to the call.
pub fn lend(m: &mut State, x: u64) -> u64
    ensures part_after { m.new.part.last ≡ x }
    ensures words_after { m.new.words ≡ slice_set m.old.words 0 m.old.part.last }
    ensures answer { result ≡ m.old.part.last }
{
    let (part, answer) = put(&mut m.words, m.part, x);
    m.part = part;
    answer
}

// A part is loaded, and the state is only looked at.
pub fn peek(m: &State, x: u64) -> u64
    ensures { result ≡ m.now.part.last }
{
    step(m.part, x).1
}

// A part is lent on to a call that looks at it.
pub fn glance(m: &State) -> u64
    ensures { result ≡ slice_index m.now.words 0 }
{
    first(&m.words)
}

// The same, and the call fills what another lends.
pub fn show(m: &State, output: &mut [u64; 1])
    ensures { slice_index output.new 0 ≡ slice_index m.now.words 0 }
{
    copy_first(&m.words, output);
}
