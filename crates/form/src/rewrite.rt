// A property's tables, rewritten without clocks.
ghost use Rattle.std.proofs.Math.Option.{some};
ghost use Rattle.std.specs.Prelude.{◌≡◌, MatchResult};
ghost use Rattle.answer.specs.Questions.{first_no};
ghost use Rattle.form.specs.SequenceImages.{Fresh};
ghost use Rattle.form.specs.Grid.{marks_of};
ghost use Rattle.form.specs.Limits.{questions};
ghost use Rattle.form.specs.Met.{met as met_of};
ghost use Rattle.form.specs.Rewritten.{RoomFor, Rewritten, Rewrites};

use crate::count::{count, within_limits};
use crate::draft::{Draft, Rooted};
use crate::grid::{Grid, Marks};
use crate::mark_formula::{mark_met, root_pair};
use crate::refusal::Refusal;
use crate::write::write_sequences;
use crate::write_formula::write_formulas;
use property::place::Property;
use psl::entry::{Condition, Formula, Sequence};
use table::table::Table;

// A draft with the property's conditions.
fn fresh(p: &Property) -> Draft
    ensures { Fresh p.now result }
{
    Draft {
        conditions: Table::of(p.conditions(), Condition::True),
        sequences: Table::new(Sequence::Empty),
        formulas: Table::new(Formula::Weak(0)),
    }
}

// The form of a property whose met pairs are marked.
fn rewrite(p: &Property, met: &Marks) -> Rooted
    requires met { marks_of met.now ≡ met_of p.now }
    requires room { RoomFor p.now }
    ensures { Rewritten p.now result.draft result.root }
{
    let mut draft = fresh(p);
    let mut of_sequences = Grid::new(0);
    let mut of_formulas = Grid::new(0);
    write_sequences(p, &met.sequences, &mut draft, &mut of_sequences);
    write_formulas(p, met, &mut draft, &of_sequences, &mut of_formulas);
    let root = of_formulas.get(root_pair(p));
    Rooted { draft, root }
}

// The form of a property, if there is room.
pub(crate) fn form_of(p: &Property) -> Result<Rooted, Refusal>
    ensures { MatchResult result (λ made. Rewrites p.now made.draft made.root) (λ e. first_no (questions p.now) ≡ some e) }
{
    let mut met = Marks {
        formulas: Grid::new(false),
        sequences: Grid::new(false),
    };
    mark_met(p, &mut met);
    within_limits(count(p, &met))?;
    Ok(rewrite(p, &met))
}
