// The four verdicts.
ghost use Rattle.std.specs.Prelude.{◌≡◌};
ghost use Rattle.verdict.specs.Verdicts.{digit_of, passing};

// How a property stands after the letters so far, from worst to best.
#[derive(Clone, Copy, Debug, PartialEq, Eq, PartialOrd, Ord)]
pub enum Verdict {
    FailedForGood = 0,
    Pending = 1,
    Holds = 2,
    HeldForGood = 3,
}

impl Verdict {
    // The digit that is printed for the verdict, 0 to 3.
    pub fn digit(self) -> u8
        ensures value { result ≡ digit_of self }
    {
        self as u8
    }

    // Whether the property passes if no letter follows.
    pub fn passes(self) -> bool
        ensures value { result ≡ passing self }
    {
        self >= Verdict::Holds
    }
}
