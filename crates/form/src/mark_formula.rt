// Marks of the pairs of formulas that are met, and of all pairs.
ghost use Rattle.std.specs.Prelude.{◌≡◌, ℕ, ◌+◌, ◌-◌, ◌*◌, ◌<◌, ◌≤◌, length, slice_index_or};
ghost use Rattle.psl.specs.declared.entry.Formula.TheVariants.{Strong};
ghost use Rattle.property.specs.Place.{conditions_of, sequences_of, formulas_of};
ghost use Rattle.form.specs.Grid.{cells_of, marks_of};
ghost use Rattle.form.specs.Met.{with_parts, meet_formulas, unmarked, met as met_of};

use crate::entries::formula_at;
use crate::grid::Marks;
use crate::mark::mark_sequences;
use crate::pair::Pair;
use property::place::Property;
use psl::entry::Formula;

// Marks the pairs of the parts of a pair.
#[tactic(auto, using(property::proofs::Held::few))]
fn mark_formula(p: &Property, met: &mut Marks, pair: Pair)
    requires there { pair.entry < length (formulas_of p.now) }
    ensures { marks_of met.new ≡ with_parts (slice_index_or (formulas_of p.now) pair.entry (Strong 0)) pair.clock (marks_of met.old) }
{
    match formula_at(p, pair.entry) {
        Formula::Strong(_) | Formula::Weak(_) => {}
        Formula::StrongSequence(r) | Formula::WeakSequence(r) => met
            .sequences
            .put(pair.with(r), true),
        Formula::Not(f) | Formula::Next(f) | Formula::Abort(f, _) => met
            .formulas
            .put(pair.with(f), true),
        Formula::And(f, g) | Formula::Until(f, g) => {
            met.formulas.put(pair.with(f), true);
            met.formulas.put(pair.with(g), true);
        }
        Formula::Implies(r, g) => {
            met.sequences.put(pair.with(r), true);
            met.formulas.put(pair.with(g), true);
        }
        Formula::At(f, d) => met.formulas.put(Pair { entry: f, clock: d }, true),
    }
}

// Marks, with each marked pair of a formula, those of its parts.
// Stays: a loop beside that over sequences, since it writes both grids and that one writes one; a closure for the difference would capture both, and its contract would say the loop's invariant again.
pub(crate) fn mark_formulas(p: &Property, met: &mut Marks)
    ensures { marks_of met.new ≡ meet_formulas (formulas_of p.now) (64 * length (formulas_of p.now)) (marks_of met.old) }
{
    // Stays a loop over keys, whose order is that of the definitions: two loops, over entries and clocks, would state twice what is marked so far.
    for k in (0..64 * p.formula_count()).rev() {
        if met.formulas.at(k) {
            let pair = Pair::of(k);
            mark_formula(p, met, pair);
        }
    }
}

// The property with condition 0.
pub(crate) fn root_pair(p: &Property) -> Pair
    ensures entry { result.entry ≡ length (formulas_of p.now) - 1 }
    ensures clock { result.clock ≡ 0 }
{
    Pair {
        entry: p.formula_count() as u16 - 1,
        clock: 0,
    }
}

// Marks the pairs of formulas and of sequences that are met, where none is marked.
pub(crate) fn mark_met(p: &Property, met: &mut Marks)
    requires blank_formulas { cells_of met.old.formulas ≡ unmarked }
    requires blank_sequences { cells_of met.old.sequences ≡ unmarked }
    ensures { marks_of met.new ≡ met_of p.now }
{
    met.formulas.put(root_pair(p), true);
    mark_formulas(p, met);
    mark_sequences(p, &mut met.sequences);
}
