// The images of the met pairs of formulas.
ghost use Rattle.std.specs.Prelude.{◌≡◌, ℕ, ◌+◌, ◌*◌, ◌<◌, ◌≤◌, length, slice_index_or};
ghost use Rattle.psl.specs.declared.entry.Formula.TheVariants.{Strong};
ghost use Rattle.property.specs.Place.{conditions_of, sequences_of, formulas_of};
ghost use Rattle.form.specs.Draft.{Room};
ghost use Rattle.form.specs.Grid.{cells_of};
ghost use Rattle.form.specs.SequenceImages.{Carries, SequencePlaced, SequencesWritten};
ghost use Rattle.form.specs.FormulaImages.{ForParts, FormulaPlaced, WroteFormula, FormulasClosed, FormulasStand};
ghost use Rattle.form.specs.Pairs.{formula_adds_conditions, formula_adds_formulas, total};

use crate::draft::Draft;
use crate::entries::formula_at;
use crate::grid::{Grid, Marks};
use crate::pair::Pair;
use property::place::Property;
use psl::entry::Formula;

// Adds the image of a pair.
#[tactic(auto, using(property::proofs::Held::few))]
pub(crate) fn write_formula(
    p: &Property,
    d: &mut Draft,
    rs: &Grid<u16>,
    fs: &Grid<u16>,
    pair: Pair,
) -> u16
    requires carries { Carries p.now d.old }
    requires there { pair.entry < length (formulas_of p.now) }
    requires clock { pair.clock < length (conditions_of p.now) }
    requires ready { ForParts (FormulaPlaced p.now d.old (cells_of fs.now)) (SequencePlaced p.now d.old (cells_of rs.now)) (slice_index_or (formulas_of p.now) pair.entry (Strong 0)) pair.clock }
    requires room { Room d.old (formula_adds_conditions (slice_index_or (formulas_of p.now) pair.entry (Strong 0))) (formula_adds_formulas (slice_index_or (formulas_of p.now) pair.entry (Strong 0))) }
    ensures { WroteFormula p.now pair.entry pair.clock d.old d.new result }
{
    match formula_at(p, pair.entry) {
        Formula::Strong(b) => d.add_strong(pair.clock, b),
        Formula::Weak(b) => d.add_weak(pair.clock, b),
        Formula::StrongSequence(r) => d.add_formula(Formula::StrongSequence(rs.get(pair.with(r)))),
        Formula::WeakSequence(r) => d.add_formula(Formula::WeakSequence(rs.get(pair.with(r)))),
        Formula::Not(f) => d.add_formula(Formula::Not(fs.get(pair.with(f)))),
        Formula::And(f, g) => d.add_formula(Formula::And(
            fs.get(pair.with(f)),
            fs.get(pair.with(g)),
        )),
        Formula::Next(f) => d.add_next(pair.clock, fs.get(pair.with(f))),
        Formula::Until(f, g) => d.add_until(pair.clock, fs.get(pair.with(f)), fs.get(pair.with(g))),
        Formula::Abort(f, b) => d.add_formula(Formula::Abort(fs.get(pair.with(f)), b)),
        Formula::Implies(r, g) => d.add_formula(Formula::Implies(
            rs.get(pair.with(r)),
            fs.get(pair.with(g)),
        )),
        Formula::At(f, e) => fs.get(Pair { entry: f, clock: e }),
    }
}

// Adds the image of each marked pair of a formula and a clock.
// Stays: a loop beside that over sequences, since it reads their places while it makes its own; a closure for the difference would capture both, and its contract would say the loop's invariant again.
pub(crate) fn write_formulas(
    p: &Property,
    met: &Marks,
    d: &mut Draft,
    sequences: &Grid<u16>,
    places: &mut Grid<u16>,
)
    requires carries { Carries p.now d.old }
    requires closed { FormulasClosed p.now (cells_of met.now.formulas) (cells_of met.now.sequences) }
    requires written { SequencesWritten p.now (cells_of met.now.sequences) d.old (cells_of sequences.now) (64 * length (sequences_of p.now)) }
    requires room { Room d.old (total (Strong 0) formula_adds_conditions (formulas_of p.now) (cells_of met.now.formulas) (64 * length (formulas_of p.now))) (total (Strong 0) formula_adds_formulas (formulas_of p.now) (cells_of met.now.formulas) (64 * length (formulas_of p.now))) }
    ensures { FormulasStand p.now (cells_of met.now.formulas) (cells_of met.now.sequences) d.old d.new (cells_of sequences.now) (cells_of places.new) (64 * length (formulas_of p.now)) }
{
    // Stays a loop over keys, whose order is that of the definitions: two loops, over entries and clocks, would state twice what is written so far.
    for k in 0..64 * p.formula_count() {
        if met.formulas.at(k) {
            let pair = Pair::of(k);
            let r = write_formula(p, d, sequences, &*places, pair);
            places.put(pair, r);
        }
    }
}
