// Numbers written into bytes that are lent, as the reader reads them.
ghost use Rattle.std.specs.Prelude.{◌≡◌, [], ◌∷◌, ◌≤◌, suc, length, replicate};
ghost use Rattle.rules.specs.Numbers.{bytes_of};
ghost use Rattle.mapparts.specs.View.{placed, put_all, Writes, Stays};

use keyvalues::refusal::Refusal;

// The lent bytes, and how many of them are written. What is put after a refusal stands behind what was put before it.
#[derive(Drop)]
pub struct Writer<'a> {
    pub bytes: &'a mut [u8],
    pub at: usize,
}

// Zeros throughout, as a refused call leaves what was lent.
pub fn clear_all(out: &mut [u8])
    ensures { out.new ≡ replicate (length out.old) 0 }
{
    out.fill(0);
}

impl<'a> Writer<'a> {
    // All of the bytes, or none where they do not fit. It is built in, so that a number's bytes are stored as they are, and not
    // copied by a call.
    #[inline(always)]
    #[tactic(auto, using(crate::proofs::Writing::too_long))]
    pub fn put_bytes(&mut self, bytes: &[u8]) -> Result<(), Refusal>
        ensures writes { Writes (placed bytes.now) self.old result self.new }
        ensures kept { Stays self.old result self.new }
    {
        let size = bytes.len();
        if self.bytes.len() < size {
            return Err(Refusal::OutputFull);
        }
        if self.bytes.len() - size < self.at {
            return Err(Refusal::OutputFull);
        }
        let end = self.at + size;
        self.bytes[self.at..end].copy_from_slice(bytes);
        self.at = end;
        Ok(())
    }

    // Numbers up to 65,536, which is one more than the largest that the others take.
    #[tactic(auto, using(crate::proofs::Writing::bytes_one, crate::proofs::Writing::bytes_two, crate::proofs::Writing::bytes_three))]
    fn put_wide(&mut self, value: u32) -> Result<(), Refusal>
        requires { value ≤ 65536 }
        ensures writes { Writes (placed (bytes_of value)) self.old result self.new }
        ensures kept { Stays self.old result self.new }
    {
        if value < 128 {
            self.put_bytes(&[value as u8])?;
            return Ok(());
        }
        let low = (value % 128 + 128) as u8;
        if value < 16384 {
            self.put_bytes(&[low, (value / 128) as u8])?;
            return Ok(());
        }
        let middle = (value / 128 % 128 + 128) as u8;
        self.put_bytes(&[low, middle, (value / 16384) as u8])?;
        Ok(())
    }

    // The number, all of it or nothing.
    #[tactic(auto, using(crate::proofs::Writing::writing))]
    pub fn put(&mut self, value: u16) -> Result<(), Refusal>
        ensures writes { Writes (put_all (value ∷ [])) self.old result self.new }
        ensures kept { Stays self.old result self.new }
    {
        self.put_wide(value as u32)?;
        Ok(())
    }

    // One more than the number.
    #[tactic(auto, using(crate::proofs::Writing::writing))]
    pub fn put_after(&mut self, value: u16) -> Result<(), Refusal>
        ensures writes { Writes (put_all (suc value ∷ [])) self.old result self.new }
        ensures kept { Stays self.old result self.new }
    {
        self.put_wide((value as u32) + 1)?;
        Ok(())
    }
}
