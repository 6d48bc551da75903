// Sequences of a table under the clock in force, as parts of one another.
ghost use Rattle.std.specs.Prelude.{◌<◌, ◌≤◌, length};
ghost use Rattle.psl.specs.Automaton.{states as states_of};
ghost use Rattle.automaton.specs.Automata.{entries_of};
ghost use Rattle.automaton.specs.Clocks.{clock_of};
ghost use Rattle.automaton.specs.Trees.{tree};

use crate::automata::Automata;
use crate::node::Node;
use psl::entry::Sequence;

// A sequence by its number, under the clock of that name, if there is one. It has few enough states to be followed.
#[derive(Clone, Copy)]
pub(crate) struct Part<'a> {
    automata: &'a Automata,
    number: u16,
    clock: Option<u16>,
    ghost there: { number < length (entries_of automata.now) },
    ghost few: { states_of (clock_of clock) (tree (entries_of automata.now) number) ≤ 240 },
}

// What a sequence is made of: a condition free of a clock; the clock's condition and a condition under it; or parts. Or it has no state.
#[derive(Clone, Copy)]
pub(crate) enum Shape<'a> {
    Stateless,
    Free(u16),
    Clocked(u16, u16),
    Concat(Part<'a>, Part<'a>),
    Fusion(Part<'a>, Part<'a>),
    Either(Part<'a>, Part<'a>),
    Both(Part<'a>, Part<'a>),
    Star(Part<'a>),
    At(Part<'a>, u16),
}

impl<'a> Part<'a> {
    ghost use Rattle.std.specs.Prelude.{◌≡◌};
    ghost use Rattle.automaton.specs.Nodes.{Facts};
    ghost use Rattle.automaton.specs.Parts.{clock_in, sequence_of, size, ShapeOf};

    // What is known of the sequence.
    pub(crate) fn node(self) -> Node
        ensures facts { Facts (sequence_of self.entry) result }
    {
        self.automata.node(self.number)
    }

    // How many states it has.
    #[tactic(auto, using(crate::proofs::Facts::states_on))]
    pub(crate) fn states(self) -> usize
        ensures value { result ≡ size self.entry }
    {
        let node = self.node();
        match self.clock {
            None => node.free,
            Some(_) => node.clocked,
        }
    }

    // What it is made of.
    pub(crate) fn shape(self) -> Shape<'a>
        ensures value { ShapeOf self.entry result }
    {
        if self.states() == 0 {
            return Shape::Stateless;
        }
        let (automata, clock) = (self.automata, self.clock);
        match automata.node(self.number).entry {
            Sequence::Condition(b) => match clock {
                None => Shape::Free(b),
                Some(c) => Shape::Clocked(c, b),
            },
            Sequence::Concat(a, b) => Shape::Concat(
                automata.part(a, clock),
                automata.part(b, clock),
            ),
            Sequence::Fusion(a, b) => Shape::Fusion(
                automata.part(a, clock),
                automata.part(b, clock),
            ),
            Sequence::Either(a, b) => Shape::Either(
                automata.part(a, clock),
                automata.part(b, clock),
            ),
            Sequence::Both(a, b) => Shape::Both(automata.part(a, clock), automata.part(b, clock)),
            Sequence::Empty => Shape::Stateless,
            Sequence::Star(a) => Shape::Star(automata.part(a, clock)),
            Sequence::At(a, d) => Shape::At(automata.part(a, Some(d)), d),
        }
    }
}

impl Automata {
    ghost use Rattle.std.specs.Prelude.{◌≡◌};

    // The sequence with that number, under a clock.
    pub(crate) fn part(&self, number: u16, clock: Option<u16>) -> Part
        requires there { number < length (entries_of self.now) }
        requires few { states_of (clock_of clock) (tree (entries_of self.now) number) ≤ 240 }
        ensures automata { result.automata.now ≡ self.now }
        ensures number { result.number ≡ number }
        ensures clock { result.clock ≡ clock }
    {
        Part {
            automata: self,
            number,
            clock,
        }
    }
}
