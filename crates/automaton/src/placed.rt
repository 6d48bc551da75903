// Parts whose states stand among those of the sequence that is followed.
ghost use Rattle.automaton.specs.Parts.{size};
ghost use Rattle.automaton.specs.Views.{Fits};

use crate::part::Part;
use crate::state::State;
use crate::view::View;

// A part, and where its states stand: each among 240, at a place of its own.
#[derive(Clone, Copy)]
pub(crate) struct Placed<'a> {
    pub(crate) part: Part<'a>,
    pub(crate) view: View,
    ghost fits: { Fits view (size part) },
}

impl<'a> Placed<'a> {
    ghost use Rattle.std.specs.Prelude.{◌≡◌, ◌+◌, ◌<◌};
    ghost use Rattle.automaton.specs.Parts.{ShapeOf};
    ghost use Rattle.automaton.specs.declared.part.Shape.TheVariants.{Both};
    ghost use Rattle.automaton.specs.Standing.{Stands};
    ghost use Rattle.automaton.specs.Views.{behind as behind_of, column as column_of, row as row_of, whole};

    // A sequence by itself: state n stands at place n.
    pub(crate) fn whole(part: Part<'a>) -> Placed<'a>
        ensures { Stands result part.entry whole }
    {
        Placed {
            part,
            view: View::whole(),
        }
    }

    // A part with as many states, at the same places.
    pub(crate) fn with(self, part: Part<'a>) -> Placed<'a>
        requires { size part ≡ size self.part }
        ensures { Stands result part.entry self.entry.view }
    {
        Placed {
            part,
            view: self.view,
        }
    }

    // The two parts of a sum: the states of the second stand behind those of the first.
    #[tactic(auto, using(crate::proofs::Views::fits_behind))]
    pub(crate) fn halves(self, r: Part<'a>, s: Part<'a>) -> (Placed<'a>, Placed<'a>)
        requires { size self.part ≡ size r + size s }
        ensures first { Stands result.0 r.entry self.entry.view }
        ensures second { Stands result.1 s.entry (behind_of self.entry.view (size r.entry)) }
    {
        let first = Placed {
            part: r,
            view: self.view,
        };
        let second = Placed {
            part: s,
            view: self.view.behind(r.states()),
        };
        (first, second)
    }

    // The first part r of the pairs whose second part is that state.
    pub(crate) fn column(self, r: Part<'a>, second: State<'a>) -> Placed<'a>
        requires { ShapeOf self.part (Both r second.part) }
        ensures { Stands result r.entry (column_of self.entry.view second.entry.number (size second.entry.part)) }
    {
        let view = View {
            base: self.view.place(second.number),
            stride: self.view.stride * second.part.states(),
        };
        Placed { part: r, view }
    }

    // The second part s of the pairs whose first part is that state.
    pub(crate) fn row(self, first: State<'a>, s: Part<'a>) -> Placed<'a>
        requires { ShapeOf self.part (Both first.part s) }
        ensures { Stands result s.entry (row_of self.entry.view first.entry.number (size s.entry)) }
    {
        let view = self.view.behind(first.number * s.states());
        Placed { part: s, view }
    }
}
