// The starts in the states of a sequence.
ghost use Rattle.std.specs.Prelude.{◌≡◌, ℕ, ◌<◌, false, length, slice_index_or, slice_set};
ghost use Rattle.bits.specs.Member.{member};
ghost use Rattle.automaton.specs.Views.{place as place_of, bare};

use crate::view::View;
use bits::places::Places;

// The most states of a sequence.
const MOST_STATES: usize = 240;

// A set of starts for each place where a state may stand.
#[derive(Clone, Copy)]
pub(crate) struct Starts {
    sets: [Places; MOST_STATES],
    ghost long: { length sets ≡ 240 },
}

impl Starts {
    // No starts in any state.
    pub(crate) fn none() -> Starts
        ensures items { (j x : ℕ) → member (slice_index_or result.sets j bare) x ≡ false }
    {
        let none = Places::none();
        Starts {
            sets: [none; MOST_STATES],
        }
    }

    // The starts in state `n`.
    pub(crate) fn of(&self, view: View, n: usize) -> Places
        requires { place_of view n < 240 }
        ensures value { result ≡ slice_index_or self.now.sets (place_of view n) bare }
    {
        self.sets[view.place(n)]
    }

    // Makes the starts in state `n` those of `starts`.
    pub(crate) fn put(&mut self, view: View, n: usize, starts: Places)
        requires { place_of view n < 240 }
        ensures value { self.new.sets ≡ slice_set self.old.sets (place_of view n) starts }
    {
        self.sets[view.place(n)] = starts;
    }
}
