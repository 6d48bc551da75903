// What comes of reading files made of rows.
use property::place::Property;
use std::alloc::{AllocError, Global};
use test_files::rows::{Row, file};

// What comes of reading: the numbers of the refusal and its section, and its offset, if it is refused.
pub type Outcome = Result<(), (u8, u8, usize)>;

pub(crate) fn reading(bytes: &[u8]) -> Outcome {
    let mut property = Property::new();
    property.read(bytes).map_err(|refusal| (
        refusal.reason.number(),
        refusal.section.number(),
        refusal.offset,
    ))
}

// What comes of reading the file with these sections.
pub(crate) fn sections(
    heap: Global,
    conditions: &[Row],
    sequences: &[Row],
    formulas: &[Row],
) -> Result<Outcome, AllocError> {
    let bytes = file(heap, conditions, sequences, formulas)?;
    Ok(reading(&bytes))
}
