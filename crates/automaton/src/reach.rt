// Sequences followed over a stretch of letters, for all starts at once.
ghost use Rattle.std.specs.Prelude.{◌≡◌, ℕ, ◌≤◌};
ghost use Rattle.bits.specs.Member.{member};
ghost use Rattle.automaton.specs.Parts.{clock_in, sequence_of};
ghost use Rattle.automaton.specs.Reached.{Reaches};
ghost use Rattle.automaton.specs.Views.{Hopeful};

use crate::part::Part;
use crate::placed::Placed;
use crate::starts::Starts;
use crate::view::View;
use crate::word::Truth;
use bits::places::Places;

impl<'a> Part<'a> {
    // The starts in the states from which some tops, one or more, complete a match.
    fn hopeful(self, starts: &Starts) -> Places
        ensures items { Hopeful (clock_in self.entry) (sequence_of self.entry) starts.now.sets result }
    {
        let mut found = Places::none();
        for p in 0..self.states() {
            found.gather(&starts.of(View::whole(), p), self.state(p).is_live());
        }
        found
    }

    // The places from `lo` to `hi` from which the sequence reaches a target, or, if `beyond`, what follows the letters.
    fn follow(self, truth: Truth, lo: usize, hi: usize, targets: &Places, beyond: bool) -> Places
        requires order { lo ≤ hi }
        requires small { hi ≤ 512 }
        ensures items { Reaches (clock_in self.entry) (sequence_of self.entry) truth.entry.own.now truth.entry.other.now lo hi (member targets.now) beyond result }
    {
        let whole = Placed::whole(self);
        let mut starts = Starts::none();
        let mut found = Places::none();
        for place in lo..hi {
            let mut here = Places::none();
            here.put(place, true);
            whole.advance(truth.letter(place), &here, &mut starts);
            found.gather(&whole.ended(&starts), targets.contains(place));
        }
        found.gather(&self.hopeful(&starts), beyond);
        found.put(hi, beyond & self.node().live);
        found
    }
}
