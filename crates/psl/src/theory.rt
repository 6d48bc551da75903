// Theorems about what the meaning implies; most do no work: a call carries its theorem.
ghost use Rattle.std.specs.Prelude.{◌≡◌};
ghost use Rattle.psl.specs.Syntax.{Condition, condition};
ghost use Rattle.psl.specs.OptionalClock.{free, on};
ghost use Rattle.psl.specs.Automaton.{states};
ghost use Rattle.psl.specs.Theorems.{RaisedSatisfiesMore, MirrorTurnsOrder, PermanentVerdicts, VerdictCountsViews};
ghost use Rattle.psl.specs.Theorems.{AbortByFirstPlace, WeakByLongestPrefix};
ghost use Rattle.psl.specs.Theorems.{StatesNumbered, AutomatonAcceptsMatches, TopsDecided, TopsEnough};
ghost use Rattle.psl.specs.Theorems.{MeaningsDecidable, ClockRemoval};
ghost use Rattle.psl.specs.Limits.{HypothesesNeeded};

// With letters raised a non-empty word satisfies at least as much under a clock; the mirror turns the order round.
pub fn raised_satisfies_more()
    ensures more { RaisedSatisfiesMore }
    ensures mirrored { MirrorTurnsOrder }
{}

// What held for good or failed for good does so whatever letters follow.
pub fn permanent_verdicts()
    ensures { PermanentVerdicts }
{}

// On a non-empty word the verdict counts the views that say yes.
pub fn verdict_counts_views()
    ensures { VerdictCountsViews }
{}

// An abort is decided by the first place that satisfies its condition.
pub fn abort_by_first_place()
    ensures { AbortByFirstPlace }
{}

// A weak sequence is decided by the longest prefix.
pub fn weak_by_longest_prefix()
    ensures { WeakByLongestPrefix }
{}

// How many states a condition has under a clock; the states of every sequence are numbered below their count.
pub fn states_under_clock() -> usize
    ensures value { (c b : Condition) → result ≡ states (on c) (condition b) }
    ensures numbered { StatesNumbered }
{
    2
}

// How many states a condition has free of a clock; the automaton accepts exactly the lists that match.
pub fn states_free_of_clock() -> usize
    ensures value { (b : Condition) → result ≡ states free (condition b) }
    ensures accepts { AutomatonAcceptsMatches }
{
    1
}

// Whether one or more tops complete a match is a Boolean of a state.
pub fn tops_decided()
    ensures { TopsDecided }
{}

// No more tops are ever needed to complete a match than there are states.
pub fn tops_enough()
    ensures { TopsEnough }
{}

// Both meanings are decidable on every word.
pub fn meanings_decidable()
    ensures { MeaningsDecidable }
{}

// A clock written into a tree changes neither meaning nor verdict, nor how many states are needed.
pub fn clock_removal()
    ensures { ClockRemoval }
{}

// Left without their hypotheses the theorems fail: counterexamples.
pub fn hypotheses_needed()
    ensures { HypothesesNeeded }
{}
