// The entries of a property, by their numbers.
ghost use Rattle.std.specs.Prelude.{◌<◌, length};
ghost use Rattle.property.specs.Place.{sequences_of, formulas_of};
ghost use Rattle.form.specs.Entries.{SequenceAt, FormulaAt};

use property::place::Property;
use psl::entry::{Formula, Sequence};

// Stays: one line for each section; a generic one would take a trait with a law for what each section's entries may name, and is no plainer.
#[tactic(auto, using(crate::proofs::Held::held_sequence))]
pub(crate) fn sequence_at(property: &Property, i: u16) -> Sequence
    requires { i < length (sequences_of property.now) }
    ensures { SequenceAt property.now i result }
{
    property.sequences()[i as usize]
}

#[tactic(auto, using(crate::proofs::Held::held_formula))]
pub(crate) fn formula_at(property: &Property, i: u16) -> Formula
    requires { i < length (formulas_of property.now) }
    ensures { FormulaAt property.now i result }
{
    property.formulas()[i as usize]
}
