// The refusals of a record.
ghost use Rattle.std.specs.Prelude.{◌≡◌};
ghost use Rattle.record.specs.Refusals.{number_of};

// Each with the number that documents it.
#[derive(Clone, Copy, Debug, PartialEq, Eq)]
pub enum Refusal {
    DoesNotFit = 22,
    NoPlace = 26,
}

impl Refusal {
    pub fn number(self) -> u8
        ensures value { result ≡ number_of self }
    {
        self as u8
    }
}
