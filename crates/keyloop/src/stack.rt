// The keys that are still to try, the next one on top. The stack grows downwards.
ghost use Rattle.std.specs.Prelude.{◌≡◌, ◌≤◌, length};

use keypairs::state::State;

// A full trail, each of whose keys may decompose into two, and one key more: when the key in hand is put there, the trail has
// lost its first.
#[derive(Drop)]
pub(crate) struct Stack {
    keys: [u16; Stack::PLACES],
    top: usize,
    ghost long: { length keys ≡ 129 },
    ghost within: { top ≤ 129 },
}

impl Stack {
    ghost use Rattle.std.specs.Prelude.{◌+◌, ◌<◌, ◌∷◌, [], ◌++◌, drop, MatchOption};
    ghost use Rattle.keyloop.specs.Stack.{keys_of};

    const PLACES: usize = 2 * State::TRAIL as usize + 1;

    #[tactic(auto, unfolding(crate::specs::Stack::keys_of))]
    pub(crate) fn of(key: u16) -> Stack
        ensures { keys_of result ≡ key ∷ [] }
    {
        let mut keys = [0; Stack::PLACES];
        keys[Stack::PLACES - 1] = key;
        Stack {
            keys,
            top: Stack::PLACES - 1,
        }
    }

    // Takes the next key, if there is one.
    #[tactic(auto, unfolding(crate::specs::Stack::keys_of))]
    pub(crate) fn pop(&mut self) -> Option<u16>
        ensures { MatchOption result (keys_of self.old ≡ []) (λ key. keys_of self.old ≡ key ∷ keys_of self.new) }
    {
        let key = *self.keys.get(self.top)?;
        self.top += 1;
        Some(key)
    }

    #[tactic(auto, unfolding(crate::specs::Stack::keys_of))]
    pub(crate) fn push(&mut self, key: u16)
        requires { length (keys_of self.old) < 129 }
        ensures { keys_of self.new ≡ key ∷ keys_of self.old }
    {
        let at = self.top - 1;
        self.keys[at] = key;
        self.top = at;
    }

    // The keys of the trail but the first, and then the key: with no trail, nothing.
    pub(crate) fn put_back(&mut self, trail: &[u16], key: u16)
        requires { length trail.now + length (keys_of self.old) ≤ 129 }
        ensures { keys_of self.new ≡ drop 1 (trail.now ++ (key ∷ [])) ++ keys_of self.old }
    {
        if let [_, rest @ ..] = trail {
            self.push(key);
            let top = self.top;
            let at = top - rest.len();
            let keys = &mut self.keys[..];
            keys[at..top].copy_from_slice(rest);
            self.top = at;
        }
    }
}
