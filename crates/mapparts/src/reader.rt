// Reading bytes from the front: numbers, each of seven bits to a byte, the lowest first, 0x80 set on each byte but the last, in
// the shortest form. A number's range is tested when it is read.
ghost use Rattle.std.specs.Prelude.{ℕ, Bool, true, ◌≡◌, [], ◌∷◌, ◌≤◌, ◌<◌, leb, ltb, IfOk, IfErr, MatchResult};
ghost use Rattle.rules.specs.Basics.{accept};
ghost use Rattle.rules.specs.Numbers.{number, number_up_to};
ghost use Rattle.rules.specs.Run.{most_count};
ghost use Rattle.rules.specs.Values.{Binding};
ghost use Rattle.rules.specs.MapFile.{such, up_to, at_end};
ghost use Rattle.keyvalues.specs.View.{told};
ghost use Rattle.mapparts.specs.View.{Reads};

use keyvalues::refusal::Refusal;

// The bytes that are still to be read. After a refusal, nothing is said of them.
#[derive(Clone, Copy)]
pub struct Reader<'a> {
    pub rest: &'a [u8],
}

impl<'a> Reader<'a> {
    fn byte(&mut self) -> Result<u32, Refusal>
        ensures { MatchResult result (λ b. (b < 256) × (self.old.rest.now ≡ b ∷ self.new.rest.now)) (λ e. (e ≡ Refusal.Malformed) × (self.old.rest.now ≡ [])) }
    {
        match self.rest.split_first() {
            Some((b, rest)) => {
                self.rest = rest;
                Ok(*b as u32)
            }
            None => Err(Refusal::Malformed),
        }
    }

    // A number of three groups at most.
    fn groups(&mut self) -> Result<u32, Refusal>
        ensures malformed { IfErr result (λ e. e ≡ Refusal.Malformed) }
        ensures reads { Reads (λ n. n) (number_up_to 2097151) self.old.rest.now result self.new.rest.now }
    {
        let b = self.byte()?;
        if b < 128 {
            return Ok(b);
        }
        let c = self.byte()?;
        if c == 0 {
            return Err(Refusal::Malformed);
        }
        if c < 128 {
            return Ok((b - 128) + 128 * c);
        }
        let d = self.byte()?;
        if d == 0 {
            return Err(Refusal::Malformed);
        }
        if 128 <= d {
            return Err(Refusal::Malformed);
        }
        Ok((b - 128) + 128 * ((c - 128) + 128 * d))
    }

    // A larger number is malformed.
    #[tactic(auto, using(crate::proofs::NumberBy::bad, crate::proofs::NumberBy::over, crate::proofs::NumberBy::within))]
    fn number_to(&mut self, most: u32) -> Result<u32, Refusal>
        requires { most ≤ 2097151 }
        ensures malformed { IfErr result (λ e. e ≡ Refusal.Malformed) }
        ensures bound { IfOk result (λ n. n ≤ most) }
        ensures reads { Reads (λ n. n) (number_up_to most) self.old.rest.now result self.new.rest.now }
    {
        let n = self.groups()?;
        if most < n {
            return Err(Refusal::Malformed);
        }
        Ok(n)
    }

    #[tactic(auto, unfolding(rules::specs::Numbers::number))]
    pub fn number(&mut self) -> Result<u16, Refusal>
        ensures malformed { IfErr result (λ e. e ≡ Refusal.Malformed) }
        ensures reads { Reads (λ n. n) number self.old.rest.now result self.new.rest.now }
    {
        let n = self.number_to(65535)?;
        Ok(n as u16)
    }

    // A count's number, which goes one further.
    pub fn count_number(&mut self) -> Result<u32, Refusal>
        ensures bound { IfOk result (λ n. n ≤ most_count) }
        ensures reads { Reads (λ n. n) (number_up_to most_count) self.old.rest.now result self.new.rest.now }
    {
        self.number_to(65536)
    }

    // A number that passes the test.
    fn such<F: FnOnce(u16) -> bool>(&mut self, passes: F) -> Result<u16, Refusal>
        requires { F.IsAlwaysCallable passes }
        ensures passed { IfOk result (λ n. F.post passes n true) }
        ensures reads { (p : ℕ → Bool) → ((n : ℕ) (r : Bool) → F.post passes n r → r ≡ p n) → Reads (λ n. n) (such p) self.old.rest.now result self.new.rest.now }
    {
        let n = self.number()?;
        if passes(n) {
            return Ok(n);
        }
        Err(Refusal::OutOfRange)
    }

    // A number of at most `most`.
    pub fn up_to(&mut self, most: u16) -> Result<u16, Refusal>
        ensures bound { IfOk result (λ n. n ≤ most) }
        ensures reads { Reads (λ n. n) (up_to most) self.old.rest.now result self.new.rest.now }
    {
        self.such(|n| n <= most)
    }

    // A number below `bound`.
    pub fn below(&mut self, bound: u16) -> Result<u16, Refusal>
        ensures bound { IfOk result (λ n. n < bound) }
        ensures reads { Reads (λ n. n) (such (λ n. ltb n bound)) self.old.rest.now result self.new.rest.now }
    {
        self.such(|n| n < bound)
    }

    // A number of at least `least`.
    pub fn at_least(&mut self, least: u16) -> Result<u16, Refusal>
        ensures bound { IfOk result (λ n. least ≤ n) }
        ensures reads { Reads (λ n. n) (such (leb least)) self.old.rest.now result self.new.rest.now }
    {
        self.such(|n| least <= n)
    }

    // Nothing may be left: bytes that are, are refused.
    #[tactic(auto, using(crate::proofs::Reading::ended, crate::proofs::Reading::left_over))]
    pub fn end(&self) -> Result<(), Refusal>
        ensures { (b : Binding) → told (λ _. b) result ≡ at_end (accept (b, self.now.rest.now)) }
    {
        if self.rest.is_empty() {
            return Ok(());
        }
        Err(Refusal::Malformed)
    }
}
