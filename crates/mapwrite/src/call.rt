// The kept calls, oldest first: each call's kind, mode, path and step, read from its words as they are put.
ghost use Rattle.std.specs.Prelude.{◌≡◌, ◌∷◌, ◌/◌, ◌%◌, ◌≤◌, length, take, OnOk};
ghost use Rattle.rules.specs.Values as v;
ghost use Rattle.rules.specs.Writing.{listed, part_numbers, binding_numbers};
ghost use Rattle.keptcalls.specs.View.{parts_in, call_in};
ghost use Rattle.mapparts.specs.View.{put_all, Writes};

use crate::list::Written;
use crate::{part, step};
use keptcalls::binding::Binding;
use keptcalls::words::CallWords;
use keyvalues::refusal::Refusal;
use mapparts::writer::Writer;

// Kind, mode and path.
#[inline(always)]
#[tactic(auto, using(mapparts::proofs::Writing::writing))]
fn put_head(kind: u16, call: &CallWords, writer: &mut Writer) -> Result<(), Refusal>
    ensures room { OnOk result (length call.now.parts ≡ 32) }
    ensures writes { Writes (put_all (kind ∷ call.now.head / 4 % 16 ∷ listed part_numbers (take (call.now.head / 4 / 16 % 64) (parts_in call.now.parts)))) writer.old result writer.new }
{
    writer.put(kind)?;
    writer.put(call.mode())?;
    part::put_path(call, writer)
}

// The head, and the step if there is one.
#[inline(always)]
#[tactic(auto, using(mapparts::proofs::Writing::writing, crate::proofs::Lists::behind_head, crate::proofs::Few::call_short), unfolding(rules::specs::Writing::binding_numbers, keyvalues::specs::View::call_of, keptcalls::specs::View::call_by))]
fn put_call(call: &CallWords, writer: &mut Writer) -> Result<(), Refusal>
    ensures few { OnOk result (length (binding_numbers (call_in call.now)) ≤ 140) }
    ensures writes { Writes (put_all (binding_numbers (call_in call.now))) writer.old result writer.new }
{
    match call.kind() {
        0 => {
            put_head(0, call, writer)?;
            step::put_step(&call.step(), writer)
        }
        1 => put_head(1, call, writer),
        _ => {
            put_head(2, call, writer)?;
            step::put_step(&call.step(), writer)
        }
    }
}

impl Written for Binding {
    type Kept = CallWords;

    ghost Value = { v.Binding };

    ghost numbers = { binding_numbers };

    ghost value = { call_in };

    ghost most = { 140 };

    #[inline(always)]
    fn write_to(kept: &CallWords, writer: &mut Writer) -> Result<(), Refusal> {
        put_call(kept, writer)
    }
}
