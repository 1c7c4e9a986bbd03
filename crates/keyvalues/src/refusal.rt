// Why a call is refused.
ghost use Rattle.std.specs.Prelude.{◌≡◌};
ghost use Rattle.keyvalues.specs.View.{number_of};

// Each with the number that a caller of C gets.
#[derive(Clone, Copy, Debug, PartialEq, Eq)]
pub enum Refusal {
    OutOfRange = 1,
    NodesFull = 2,
    EdgesFull = 3,
    OtherMode = 4,
    QueueFull = 5,
    SequenceFull = 6,
    TrailFull = 7,
    NoBudget = 8,
    Malformed = 9,
    OutputFull = 10,
    CallsFull = 11,
    CountOverflow = 12,
}

impl Refusal {
    pub fn number(self) -> u16
        ensures { result ≡ number_of self }
    {
        self as u16
    }
}
