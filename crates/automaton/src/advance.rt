// The starts in the states of a sequence: which have ended, and how a letter moves them, part by part.
ghost use Rattle.std.specs.Prelude.{◌≡◌};
ghost use Rattle.bits.specs.Member.{member};
ghost use Rattle.psl.specs.OptionalClock.{free, on};
ghost use Rattle.psl.specs.Syntax.{atom, condition};
ghost use Rattle.automaton.specs.Clocks.{letter_in};
ghost use Rattle.automaton.specs.Parts.{clock_in, sequence_of, ShapeOf};
ghost use Rattle.automaton.specs.declared.part.Shape.TheVariants.{Both};
ghost use Rattle.automaton.specs.Views.{Fits, EndedIn, Advanced};

use crate::part::{Part, Shape};
use crate::placed::Placed;
use crate::starts::Starts;
use crate::view::View;
use crate::word::Letter;
use bits::places::Places;

// A condition free of a clock: what enters has read its letter.
fn advance_free(b: u16, letter: Letter, enter: &Places, view: View, starts: &mut Starts)
    requires { Fits view 1 }
    ensures { Advanced free (condition (atom b)) (letter_in letter.entry) (member enter.now) view starts.old.sets starts.new.sets }
{
    let mut read = *enter;
    read.keep(letter.satisfies(b));
    starts.put(view, 0, read);
}

// A condition under a clock: what waits for the end of its tick, or enters, goes on waiting, or its tick is over.
fn advance_clocked(c: u16, b: u16, letter: Letter, enter: &Places, view: View, starts: &mut Starts)
    requires { Fits view 2 }
    ensures { Advanced (on (atom c)) (condition (atom b)) (letter_in letter.entry) (member enter.now) view starts.old.sets starts.new.sets }
{
    let mut waiting = starts.of(view, 0);
    waiting.join(enter);
    let mut over = waiting;
    waiting.keep(!letter.mirror_satisfies(c));
    over.keep(letter.satisfies(c) & letter.satisfies(b));
    starts.put(view, 0, waiting);
    starts.put(view, 1, over);
}

impl<'a> Placed<'a> {
    // The starts for which a match has ended.
    pub(crate) fn ended(self, starts: &Starts) -> Places
        ensures items { EndedIn (clock_in self.entry.part) (sequence_of self.entry.part) self.entry.view starts.now.sets result }
    {
        match self.part.shape() {
            Shape::Stateless => Places::none(),
            Shape::Free(_) => starts.of(self.view, 0),
            Shape::Clocked(_, _) => starts.of(self.view, 1),
            Shape::Concat(r, s) => {
                let (first, second) = self.halves(r, s);
                let mut found = second.ended(starts);
                found.gather(&first.ended(starts), s.node().null);
                found
            }
            Shape::Fusion(r, s) => {
                let (_, second) = self.halves(r, s);
                second.ended(starts)
            }
            Shape::Either(r, s) => {
                let (first, second) = self.halves(r, s);
                let mut found = first.ended(starts);
                found.join(&second.ended(starts));
                found
            }
            Shape::Both(r, s) => {
                let mut found = Places::none();
                for p in 0..r.states() {
                    let first = r.state(p);
                    found.gather(&self.row(first, s).ended(starts), first.is_final());
                }
                found
            }
            Shape::Star(r) => self.with(r).ended(starts),
            Shape::At(r, _) => self.with(r).ended(starts),
        }
    }

    // Moves the starts in the states by the letter; those of `enter` start there.
    #[cycle(advance)]
    pub(crate) fn advance(self, letter: Letter, enter: &Places, starts: &mut Starts)
        ensures { Advanced (clock_in self.entry.part) (sequence_of self.entry.part) (letter_in letter.entry) (member enter.now) self.entry.view starts.old.sets starts.new.sets }
    {
        match self.part.shape() {
            Shape::Stateless => {}
            Shape::Free(b) => advance_free(b, letter, enter, self.view, starts),
            Shape::Clocked(c, b) => advance_clocked(c, b, letter, enter, self.view, starts),
            Shape::Concat(r, s) => {
                let (first, second) = self.halves(r, s);
                let mut onward = first.ended(starts);
                onward.gather(enter, r.node().null);
                first.advance(letter, enter, starts);
                second.advance(letter, &onward, starts);
            }
            Shape::Fusion(r, s) => {
                let (first, second) = self.halves(r, s);
                first.advance(letter, enter, starts);
                let onward = first.ended(starts);
                second.advance(letter, &onward, starts);
            }
            Shape::Either(r, s) => {
                let (first, second) = self.halves(r, s);
                first.advance(letter, enter, starts);
                second.advance(letter, enter, starts);
            }
            Shape::Both(r, s) => self.advance_pairs(r, s, letter, enter, starts),
            Shape::Star(r) => {
                let part = self.with(r);
                let mut again = part.ended(starts);
                again.join(enter);
                part.advance(letter, &again, starts);
            }
            Shape::At(r, _) => self.with(r).advance(letter, enter, starts),
        }
    }

    // Moves the starts in the states of r && s: the first parts of the pairs, which nothing enters, and then the second parts.
    #[cycle(advance)]
    fn advance_pairs(
        self,
        r: Part<'a>,
        s: Part<'a>,
        letter: Letter,
        enter: &Places,
        starts: &mut Starts,
    )
        requires { ShapeOf self.part (Both r s) }
        ensures { Advanced (clock_in self.entry.part) (sequence_of self.entry.part) (letter_in letter.entry) (member enter.now) self.entry.view starts.old.sets starts.new.sets }
    {
        let none = Places::none();
        for p in 0..s.states() {
            self.column(r, s.state(p)).advance(letter, &none, starts);
        }
        for q in 0..r.states() {
            let first = r.state(q);
            let mut entering = *enter;
            entering.keep(first.starts(letter));
            self.row(first, s).advance(letter, &entering, starts);
        }
    }
}
