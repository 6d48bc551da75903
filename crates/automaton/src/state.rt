// The states of a sequence, by number: which are ends, where a letter leads from the start, and from which tops go on to an end.
ghost use Rattle.std.specs.Prelude.{◌<◌};
ghost use Rattle.automaton.specs.Parts.{size};

use crate::part::{Part, Shape};
use crate::word::Letter;

// A state of a sequence, by its number.
#[derive(Clone, Copy)]
pub(crate) struct State<'a> {
    pub(crate) part: Part<'a>,
    pub(crate) number: usize,
    ghost there: { number < size part },
}

// A state of a sequence that has the states of two: one of the first, or one of the second.
// Stays an enum of its own: a Result would call one of the two a failure.
enum Half<'a> {
    First(State<'a>),
    Second(State<'a>),
}

impl<'a> Part<'a> {
    ghost use Rattle.std.specs.Prelude.{◌≡◌};
    ghost use Rattle.psl.specs.Automaton.{single as single_of};
    ghost use Rattle.automaton.specs.Clocks.{letter_in};
    ghost use Rattle.automaton.specs.Parts.{clock_in, sequence_of};
    ghost use Rattle.automaton.specs.States.{IsState};

    // The state with that number.
    pub(crate) fn state(self, number: usize) -> State<'a>
        requires { number < size self }
        ensures { IsState result self.entry number }
    {
        State { part: self, number }
    }

    // Whether the sequence matches the letter alone.
    #[tactic(auto, using(crate::proofs::Moves::single_none))]
    pub(crate) fn single(self, letter: Letter) -> bool
        ensures value { result ≡ single_of (clock_in self.entry) (sequence_of self.entry) (letter_in letter.entry) }
    {
        match self.shape() {
            Shape::Stateless => false,
            Shape::Free(b) => letter.satisfies(b),
            Shape::Clocked(c, b) => letter.satisfies(c) & letter.satisfies(b),
            Shape::Concat(r, s) => {
                (r.node().null & s.single(letter)) | (r.single(letter) & s.node().null)
            }
            Shape::Fusion(r, s) | Shape::Both(r, s) => r.single(letter) & s.single(letter),
            Shape::Either(r, s) => r.single(letter) | s.single(letter),
            Shape::Star(r) | Shape::At(r, _) => r.single(letter),
        }
    }
}

impl<'a> State<'a> {
    ghost use Rattle.std.specs.Prelude.{◌≡◌, ◌+◌, ◌/◌, ◌%◌};
    ghost use Rattle.psl.specs.Numbered.{numbered_final, numbered_init, numbered_live};
    ghost use Rattle.automaton.specs.Clocks.{letter_in};
    ghost use Rattle.automaton.specs.Parts.{clock_in, sequence_of, ShapeOf};
    ghost use Rattle.automaton.specs.declared.part.Shape.TheVariants.{Both};
    ghost use Rattle.automaton.specs.States.{IsState, HalfOf};

    // As a state of r or of s, where its sequence has the states of both.
    fn half(self, r: Part<'a>, s: Part<'a>) -> Half<'a>
        requires { size self.part ≡ size r + size s }
        ensures { HalfOf self.entry r.entry s.entry result }
    {
        let n = r.states();
        if self.number < n {
            Half::First(r.state(self.number))
        } else {
            Half::Second(s.state(self.number - n))
        }
    }

    // The states of r and of s that make it up, where its sequence is r && s.
    fn pair(self, r: Part<'a>, s: Part<'a>) -> (State<'a>, State<'a>)
        requires { ShapeOf self.part (Both r s) }
        ensures first { IsState result.0 r.entry (self.entry.number / size s.entry) }
        ensures second { IsState result.1 s.entry (self.entry.number % size s.entry) }
    {
        let m = s.states();
        (r.state(self.number / m), s.state(self.number % m))
    }

    // Whether a match may end in it.
    pub(crate) fn is_final(self) -> bool
        ensures value { result ≡ numbered_final (clock_in self.entry.part) (sequence_of self.entry.part) self.entry.number }
    {
        match self.part.shape() {
            Shape::Stateless => false,
            Shape::Free(_) => true,
            Shape::Clocked(_, _) => self.number == 1,
            Shape::Concat(r, s) => match self.half(r, s) {
                Half::First(p) => p.is_final() && s.node().null,
                Half::Second(q) => q.is_final(),
            },
            Shape::Fusion(r, s) => match self.half(r, s) {
                Half::First(_) => false,
                Half::Second(q) => q.is_final(),
            },
            Shape::Either(r, s) => match self.half(r, s) {
                Half::First(p) => p.is_final(),
                Half::Second(q) => q.is_final(),
            },
            Shape::Both(r, s) => {
                let (p, q) = self.pair(r, s);
                p.is_final() && q.is_final()
            }
            Shape::Star(r) | Shape::At(r, _) => r.state(self.number).is_final(),
        }
    }

    // Whether some tops, one or more, complete a match from it.
    pub(crate) fn is_live(self) -> bool
        ensures value { result ≡ numbered_live (clock_in self.entry.part) (sequence_of self.entry.part) self.entry.number }
    {
        match self.part.shape() {
            Shape::Stateless | Shape::Free(_) => false,
            Shape::Clocked(_, _) => self.number == 0,
            Shape::Concat(r, s) => match self.half(r, s) {
                Half::First(p) => {
                    let second = s.node();
                    (p.is_final() & second.live) | (p.is_live() & (second.null | second.live))
                }
                Half::Second(q) => q.is_live(),
            },
            Shape::Fusion(r, s) => match self.half(r, s) {
                Half::First(p) => p.is_live() & s.node().live,
                Half::Second(q) => q.is_live(),
            },
            Shape::Either(r, s) => match self.half(r, s) {
                Half::First(p) => p.is_live(),
                Half::Second(q) => q.is_live(),
            },
            Shape::Both(r, s) => {
                let (p, q) = self.pair(r, s);
                p.is_live() & q.is_live()
            }
            Shape::Star(r) => {
                let p = r.state(self.number);
                (p.is_final() & r.node().live) | p.is_live()
            }
            Shape::At(r, _) => r.state(self.number).is_live(),
        }
    }

    // Whether the letter may lead to it from the start.
    pub(crate) fn starts(self, letter: Letter) -> bool
        ensures value { result ≡ numbered_init (clock_in self.entry.part) (sequence_of self.entry.part) (letter_in letter.entry) self.entry.number }
    {
        match self.part.shape() {
            Shape::Stateless => false,
            Shape::Free(b) => letter.satisfies(b),
            Shape::Clocked(c, _) if self.number == 0 => !letter.mirror_satisfies(c),
            Shape::Clocked(c, b) => letter.satisfies(c) & letter.satisfies(b),
            Shape::Concat(r, s) => match self.half(r, s) {
                Half::First(p) => p.starts(letter),
                Half::Second(q) => r.node().null && q.starts(letter),
            },
            Shape::Fusion(r, s) => match self.half(r, s) {
                Half::First(p) => p.starts(letter),
                Half::Second(q) => r.single(letter) && q.starts(letter),
            },
            Shape::Either(r, s) => match self.half(r, s) {
                Half::First(p) => p.starts(letter),
                Half::Second(q) => q.starts(letter),
            },
            Shape::Both(r, s) => {
                let (p, q) = self.pair(r, s);
                p.starts(letter) && q.starts(letter)
            }
            Shape::Star(r) | Shape::At(r, _) => r.state(self.number).starts(letter),
        }
    }
}
