// Rows, and the files that they make.
ghost use Rattle.std.specs.Prelude.{◌≡◌, ◌++◌, IfOk};
ghost use Rattle.test_files.specs.Rows.{section_of};

use std::alloc::{AllocError, Global};

// An entry: kind, operand A, operand B.
pub type Row = [u8; 5];

// The condition true, the sequence on condition 0, and the weak formula on it.
pub const TRUE: Row = [0, 0, 0, 0, 0];

pub const ON_TRUE: Row = [0, 0, 0, 0, 0];

pub const WEAK: Row = [1, 0, 0, 0, 0];

// Stays, the count by a remainder: tables of tests are short, and the error of a `try_from` would have no place in the result.
fn section(file: &mut Vec<u8>, rows: &[Row]) -> Result<(), AllocError>
    ensures { IfOk result (λ _. file.new.items ≡ file.old.items ++ section_of rows.now) }
{
    let count = (rows.len() % 65536) as u16;
    file.extend_from_slice(&count.to_be_bytes())?;
    file.extend_from_slice(rows.as_flattened())?;
    Ok(())
}

// The file with these sections, each after its count.
pub fn file(
    heap: Global,
    conditions: &[Row],
    sequences: &[Row],
    formulas: &[Row],
) -> Result<Vec<u8>, AllocError>
    ensures { IfOk result (λ bytes. bytes.items ≡ section_of conditions.now ++ (section_of sequences.now ++ section_of formulas.now)) }
{
    let mut bytes = Vec::new(heap);
    section(&mut bytes, conditions)?;
    section(&mut bytes, sequences)?;
    section(&mut bytes, formulas)?;
    Ok(bytes)
}
