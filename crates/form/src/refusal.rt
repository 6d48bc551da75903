// Why clocks are not removed.
ghost use Rattle.std.specs.Prelude.{◌≡◌};
ghost use Rattle.form.specs.Refusals.{refusal_number};

// The table of the form that would be too long, with the number of the question as documented.
#[derive(Clone, Copy, Debug, PartialEq, Eq)]
pub enum Refusal {
    TooManyConditions = 31,
    TooManySequences = 32,
    TooManyFormulas = 33,
}

impl Refusal {
    pub fn number(self) -> u8
        ensures { result ≡ refusal_number self }
    {
        self as u8
    }
}
