// How many entries the met pairs add, and whether there is room for them.
ghost use Rattle.std.proofs.Math.Option.{none, some};
ghost use Rattle.std.specs.Prelude.{◌≡◌, ℕ, ◌*◌, ◌<◌, ◌≤◌, length, MatchResult};
ghost use Rattle.answer.specs.Questions.{first_no};
ghost use Rattle.psl.specs.declared.entry.Sequence.TheVariants.{Condition as Is};
ghost use Rattle.psl.specs.declared.entry.Formula.TheVariants.{Strong};
ghost use Rattle.form.specs.Grid.{cells_of, marks_of};
ghost use Rattle.form.specs.Pairs.{sequence_adds_conditions, sequence_adds_sequences, formula_adds_conditions, formula_adds_formulas, total};
ghost use Rattle.form.specs.Limits.{limits, conditions_needed, sequences_needed, formulas_needed};
ghost use Rattle.form.specs.Met.{met as met_of};

use crate::grid::{Grid, Marks};
use crate::refusal::Refusal;
use file::tables::Counts;
use property::place::Property;
use psl::entry::{Formula, Sequence};

// How many conditions are added, and how many entries of a section of sequences or formulas.
#[derive(Clone, Copy)]
pub(crate) struct Added {
    pub(crate) conditions: usize,
    pub(crate) entries: usize,
}

// An entry whose image adds entries to those of its operands' images.
pub(crate) trait Adds: Copy {
    // The entry that is read where there is none.
    ghost first: { Self };

    ghost adds_conditions: { Self → ℕ };

    ghost adds_entries: { Self → ℕ };

    fn adds(self) -> Added
        ensures conditions { result.conditions ≡ adds_conditions self }
        ensures entries { result.entries ≡ adds_entries self }
        ensures high_bound { (result.conditions ≤ 3) × (result.entries ≤ 7) };
}

impl Adds for Sequence {
    ghost first = { Is 0 };

    ghost adds_conditions = { sequence_adds_conditions };

    ghost adds_entries = { sequence_adds_sequences };

    fn adds(self) -> Added {
        let (conditions, entries) = match self {
            Sequence::Condition(_) => (2, 4),
            Sequence::At(_, _) => (0, 0),
            Sequence::Concat(_, _)
            | Sequence::Fusion(_, _)
            | Sequence::Either(_, _)
            | Sequence::Both(_, _)
            | Sequence::Empty
            | Sequence::Star(_) => (0, 1),
        };
        Added {
            conditions,
            entries,
        }
    }
}

impl Adds for Formula {
    ghost first = { Strong 0 };

    ghost adds_conditions = { formula_adds_conditions };

    ghost adds_entries = { formula_adds_formulas };

    fn adds(self) -> Added {
        let (conditions, entries) = match self {
            Formula::Strong(_) => (2, 3),
            Formula::Weak(_) => (3, 4),
            Formula::Next(_) => (1, 7),
            Formula::Until(_, _) => (0, 6),
            Formula::At(_, _) => (0, 0),
            Formula::StrongSequence(_)
            | Formula::WeakSequence(_)
            | Formula::Not(_)
            | Formula::And(_, _)
            | Formula::Abort(_, _)
            | Formula::Implies(_, _) => (0, 1),
        };
        Added {
            conditions,
            entries,
        }
    }
}

// What the met pairs of these entries add in all.
pub(crate) fn count_added<E: Adds>(entries: &[E], met: &Grid<bool>) -> Added
    requires few { length entries.now ≤ 64 }
    ensures conditions { result.conditions ≡ total E.Adds.first E.Adds.adds_conditions entries.now (cells_of met.now) (64 * length entries.now) }
    ensures entries { result.entries ≡ total E.Adds.first E.Adds.adds_entries entries.now (cells_of met.now) (64 * length entries.now) }
    ensures high_bound { result.conditions ≤ 12288 }
{
    let mut all = Added {
        conditions: 0,
        entries: 0,
    };
    for (i, entry) in entries.iter().enumerate() {
        let more = entry.adds();
        for clock in 0..64 {
            if met.at(64 * i + clock) {
                all.conditions += more.conditions;
                all.entries += more.entries;
            }
        }
    }
    all
}

// How many entries the form of a property has whose met pairs are marked.
pub(crate) fn count(p: &Property, met: &Marks) -> Counts
    requires met { marks_of met.now ≡ met_of p.now }
    ensures conditions { result.conditions ≡ conditions_needed p.now }
    ensures sequences { result.sequences ≡ sequences_needed p.now }
    ensures formulas { result.formulas ≡ formulas_needed p.now }
{
    let of_sequences = count_added(p.sequences(), &met.sequences);
    let of_formulas = count_added(p.formulas(), &met.formulas);
    Counts {
        conditions: p.condition_count() + (of_sequences.conditions + of_formulas.conditions),
        sequences: of_sequences.entries,
        formulas: of_formulas.entries,
    }
}

// Whether a table of the form has room for so many entries.
fn fits(count: usize, refusal: Refusal) -> Result<(), Refusal>
    ensures { MatchResult result (λ _. count ≤ 256) (λ e. (256 < count) × (e ≡ refusal)) }
{
    if count <= 256 { Ok(()) } else { Err(refusal) }
}

// Whether a form's tables have room for so many entries.
pub(crate) fn within_limits(counts: Counts) -> Result<(), Refusal>
    ensures { MatchResult result (λ _. first_no (limits counts.conditions counts.sequences counts.formulas) ≡ none)
        (λ e. first_no (limits counts.conditions counts.sequences counts.formulas) ≡ some e) }
{
    fits(counts.conditions, Refusal::TooManyConditions)?;
    fits(counts.sequences, Refusal::TooManySequences)?;
    fits(counts.formulas, Refusal::TooManyFormulas)
}
