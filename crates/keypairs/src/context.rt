// The context that a key gathers on its way: a count from digits and a mark from Any.
ghost use Rattle.std.specs.Prelude.{◌≡◌, ◌+◌, ◌*◌, leb, if◌then◌else◌};
ghost use Rattle.std.proofs.Math.Option.{none, some};
ghost use Rattle.rules.specs.Values as v;
ghost use Rattle.rules.specs.Run.{most_count, numbered};
ghost use Rattle.keyvalues.specs.View.{told, event_of};
ghost use Rattle.keypairs.specs.View.{context_of, context_in, over_of};

use keyvalues::event::EdgeEvent;
use keyvalues::number;
use keyvalues::refusal::Refusal;
use std::mem;

// A count of 0 may have been typed.
#[derive(Clone, Copy, Debug, PartialEq, Eq, Default)]
pub struct Context {
    pub count: u16,
    pub typed: bool,
    pub mark: u16,
}

impl Context {
    // The count step: the count with a digit more, unless that would pass the largest value.
    #[tactic(auto, unfolding(rules::specs::Values::counted))]
    fn counted(self, digit: u16) -> Result<Context, Refusal>
        ensures { told context_of result ≡ v.counted digit (context_of self) }
    {
        let tenfold = self.count.checked_mul(10).ok_or(Refusal::CountOverflow)?;
        let count = tenfold.checked_add(digit).ok_or(Refusal::CountOverflow)?;
        Ok(Context {
            count,
            typed: true,
            ..self
        })
    }

    // The event hook: a digit counts for class 0, and Any sets the mark.
    #[tactic(auto, unfolding(rules::specs::Values::hook))]
    pub fn event(self, event: EdgeEvent, key: u16) -> Result<Context, Refusal>
        ensures { told context_of result ≡ v.hook (event_of event) key (context_of self) }
    {
        match event {
            EdgeEvent::Class(0) if 48 <= key && key <= 57 => self.counted(key - 48),
            EdgeEvent::Any => Ok(Context { mark: key, ..self }),
            _ => Ok(self),
        }
    }

    // The count of `over` if it was typed and its mark if it is not 0, and else the old ones; typed if either was.
    #[tactic(auto, unfolding(rules::specs::Values::merge))]
    pub fn merge(self, over: Context) -> Context
        ensures { context_of result ≡ v.merge (context_of self) (context_of over) }
    {
        Context {
            count: if over.typed { over.count } else { self.count },
            typed: self.typed || over.typed,
            mark: if over.mark == 0 { self.mark } else { over.mark },
        }
    }

    // The context of a count's number, which is 0 for none and else one more than the count, and of a mark. No count has a
    // number over 65,536.
    #[tactic(auto, unfolding(rules::specs::Run::numbered))]
    pub fn numbered(number: u32, mark: u16) -> Option<Context>
        ensures { over_of result ≡ (if leb number most_count then some (numbered number mark) else none) }
    {
        let count = u16::try_from(number.saturating_sub(1)).ok()?;
        Some(Context {
            count,
            typed: 0 < number,
            mark,
        })
    }

    // The word of a pair that carries the context and has action 0: count and mark above the action, and above a bit that is
    // left 0 whether the count was typed.
    pub fn pack(self) -> u64
        ensures means { context_in result ≡ context_of self }
        ensures number { result ≡ 65536 * self.count + 4294967296 * self.mark + (if self.typed then 562949953421312 else 0) }
    {
        let typed = if self.typed { 562949953421312 } else { 0 };
        (self.count as u64) * 65536 + (self.mark as u64) * 4294967296 + typed
    }

    // The context of such a word, whatever its action is.
    pub fn unpack(w: u64) -> Context
        ensures { context_of result ≡ context_in w }
    {
        Context {
            count: number::low(w / 65536),
            typed: w / 562949953421312 % 2 == 1,
            mark: number::low(w / 4294967296),
        }
    }

    // The context of a word is taken as a word, which leaves zeros.
    #[tactic(auto, unfolding(rules::specs::Values::no_context))]
    pub fn take(word: &mut u64) -> u64
        ensures taken { context_in result ≡ (v.take (context_in word.old)).0 }
        ensures left { context_in word.new ≡ (v.take (context_in word.old)).1 }
    {
        mem::take(word)
    }
}
