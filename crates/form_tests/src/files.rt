// What comes of removing the clocks of properties made of rows.
use form::place::Form;
use property::place::Property;
use std::alloc::{AllocError, Global};
use test_files::rows::{Row, file};

// The number of the refusal of a file, or of a property whose clocks are not removed.
#[derive(Clone, Copy, PartialEq, Eq, Debug)]
pub enum Refused {
    File(u8),
    Form(u8),
}

// What comes of removing clocks, and then how many conditions, sequences and formulas the place holds.
#[derive(Clone, Copy, PartialEq, Eq, Debug)]
pub struct Outcome(pub Result<(), Refused>, pub usize, pub usize, pub usize);

// Removes the clocks of the property that the bytes spell.
fn remove_clocks(bytes: &[u8], form: &mut Form) -> Result<(), Refused> {
    let mut property = Property::new();
    property
        .read(bytes)
        .map_err(|refusal| Refused::File(refusal.reason.number()))?;
    form.remove_clocks(&property)
        .map_err(|refusal| Refused::Form(refusal.number()))
}

// What comes of removing the clocks of the property with these sections.
pub(crate) fn forming(
    heap: Global,
    conditions: &[Row],
    sequences: &[Row],
    formulas: &[Row],
) -> Result<Outcome, AllocError> {
    let bytes = file(heap, conditions, sequences, formulas)?;
    let mut form = Form::new();
    let answer = remove_clocks(&bytes, &mut form);
    Ok(Outcome(
        answer,
        form.conditions().len(),
        form.sequences().len(),
        form.formulas().len(),
    ))
}
