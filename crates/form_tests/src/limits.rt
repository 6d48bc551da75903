// Each limit reached exactly, and passed by one; a refusal keeps what was there.
use crate::files::{Outcome, Refused, forming};
use std::alloc::{AllocError, Global};
use std::test::Fail;
use test_files::rows::{ON_TRUE, Row, TRUE, WEAK};

// Stays: tables of tests are short, so the remainder is the number, and the error of a `try_from` would have no place in the callers' results.
fn number(n: usize) -> u8 {
    (n % 256) as u8
}

// Formula `body` of these rows under each of the first clocks, joined by "and".
fn under_clocks(heap: Global, base: &[Row], body: u8, clocks: u8) -> Result<Vec<Row>, AllocError> {
    let mut rows = Vec::new(heap);
    rows.extend_from_slice(base)?;
    let mut whole = body;
    for clock in 1..clocks {
        let at = number(rows.len());
        rows.push([10, 0, body, 0, clock])?;
        let both = number(rows.len());
        rows.push([5, 0, whole, 0, at])?;
        whole = both;
    }
    Ok(rows)
}

// With each of 28 clocks 7 conditions come to those of the file.
#[test]
fn conditions(rt: HostRuntime) -> Result<(), Fail> {
    let sequences = [ON_TRUE, ON_TRUE, [1, 0, 0, 0, 1]];
    let formulas = under_clocks(rt.alloc(), &[WEAK, [9, 0, 2, 0, 0]], 1, 28)?;
    assert_eq!(rt;
        forming(rt.alloc(), &[TRUE; 60], &sequences, &formulas)?,
        Outcome(Ok(()), 256, 252, 167)
    );
    assert_eq!(rt;
        forming(rt.alloc(), &[TRUE; 61], &sequences, &formulas)?,
        Outcome(Err(Refused::Form(31)), 1, 0, 1)
    );
    Ok(())
}

// With each of 16 clocks come 16 sequences; one [*0] is too much.
#[test]
fn sequences(rt: HostRuntime) -> Result<(), Fail> {
    let sequences = [
        ON_TRUE,
        ON_TRUE,
        ON_TRUE,
        [1, 0, 0, 0, 1],
        [1, 0, 3, 0, 2],
        [6, 0, 4, 0, 0],
        [6, 0, 5, 0, 0],
        [5, 0, 0, 0, 0],
    ];
    let mut formulas = under_clocks(rt.alloc(), &[[2, 0, 6, 0, 0]], 0, 16)?;
    assert_eq!(rt;
        forming(rt.alloc(), &[TRUE; 16], &sequences, &formulas)?,
        Outcome(Ok(()), 112, 256, 31)
    );
    formulas.push([2, 0, 7, 0, 0])?;
    formulas.push([5, 0, 30, 0, 31])?;
    assert_eq!(rt;
        forming(rt.alloc(), &[TRUE; 16], &sequences, &formulas)?,
        Outcome(Err(Refused::Form(32)), 1, 0, 1)
    );
    Ok(())
}

// A weak formula and 42 times U; one "not" is too much.
#[test]
fn formulas(rt: HostRuntime) -> Result<(), Fail> {
    let mut formulas = Vec::new(rt.alloc());
    formulas.push(WEAK)?;
    for i in 0..42 {
        formulas.push([7, 0, i, 0, i])?;
    }
    assert_eq!(rt;
        forming(rt.alloc(), &[TRUE], &[], &formulas)?,
        Outcome(Ok(()), 4, 0, 256)
    );
    formulas.push([4, 0, 42, 0, 0])?;
    assert_eq!(rt;
        forming(rt.alloc(), &[TRUE], &[], &formulas)?,
        Outcome(Err(Refused::Form(33)), 1, 0, 1)
    );
    Ok(())
}
