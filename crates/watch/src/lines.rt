// The lines that are printed of a property file.
ghost use Rattle.std.specs.Prelude.{◌≡◌, IfOk, string_bytes};
ghost use Rattle.watch.specs.Lines.{operator as operator_of, AcceptedLine, LineOf};

use property::place::Property;
use psl::entry::Formula;
use std::alloc::{AllocError, Global};

// The operator of a formula as PSL writes it.
// Stays: no Display of Formula, which would be the formula and not its operator alone.
fn operator_text(formula: Formula) -> &'static str
    ensures { result.now ≡ operator_of formula }
{
    match formula {
        Formula::Strong(_) => "b!",
        Formula::Weak(_) => "b",
        Formula::StrongSequence(_) => "r!",
        Formula::WeakSequence(_) => "r",
        Formula::Not(_) => "not f",
        Formula::And(_, _) => "f and g",
        Formula::Next(_) => "X! f",
        Formula::Until(_, _) => "f U g",
        Formula::Abort(_, _) => "f abort b",
        Formula::Implies(_, _) => "r |-> f",
        Formula::At(_, _) => "f @ c",
    }
}

// The line for an accepted file.
fn property_line(heap: Global, property: &Property) -> Result<String, AllocError>
    ensures { IfOk result (λ s. AcceptedLine property.now (string_bytes s)) }
{
    let conditions = property.condition_count();
    let sequences = property.sequence_count();
    let formulas = property.formula_count();
    let operator = operator_text(property.root());
    format!(in heap;
        "conditions {conditions}, sequences {sequences}, formulas {formulas}, property {operator}"
    )
}

// The line for a file of these bytes; only want of memory leaves it out.
pub fn file_line(heap: Global, bytes: &[u8]) -> Result<String, AllocError>
    ensures { IfOk result (λ s. LineOf bytes.now (string_bytes s)) }
{
    let mut property = Property::new();
    match property.read(bytes) {
        Ok(_) => property_line(heap, &property),
        Err(refusal) => format!(in heap; "file {refusal}"),
    }
}
