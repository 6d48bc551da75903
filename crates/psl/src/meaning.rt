// Theorems that pin the meaning: the twelve settled cases, and the literal wording of the definitions.
ghost use Rattle.std.specs.Prelude.{◌≡◌};
ghost use Rattle.psl.specs.Cases.{TwelveSettledCases, settled_cases, verdicts_settled};
ghost use Rattle.psl.specs.Literal.{LiteralWording};

// How many verdicts the twelve settled cases name; each is the one that the clocked meaning gives.
pub fn settled_verdicts() -> usize
    ensures value { result ≡ verdicts_settled settled_cases }
    ensures settled { TwelveSettledCases }
{
    22
}

// No work: a call carries the theorem that the definitions say what the literal wording says.
pub fn literal_wording()
    ensures { LiteralWording }
{}
