// Each question to an entry, in each section where it can get a no.
use crate::files::{Outcome, sections};
use std::test::Fail;
use test_files::rows::{ON_TRUE, Row, TRUE, WEAK};

// A second condition, at offset 7.
#[test]
fn conditions(rt: HostRuntime) -> Result<(), Fail> {
    let table: [(Row, Outcome); 15] = [
        ([1, 0, 0, 0, 0], Ok(())),
        ([2, 0, 31, 0, 0], Ok(())),
        ([3, 0, 0, 0, 0], Ok(())),
        ([4, 0, 0, 0, 0], Ok(())),
        ([5, 0, 0, 0, 0], Err((5, 1, 7))),
        ([255, 0, 0, 0, 0], Err((5, 1, 7))),
        ([0, 0, 1, 0, 0], Err((5, 1, 7))),
        ([1, 0, 0, 1, 0], Err((5, 1, 7))),
        ([2, 0, 32, 0, 1], Err((5, 1, 7))),
        ([3, 0, 0, 0, 1], Err((5, 1, 7))),
        ([2, 0, 32, 0, 0], Err((6, 1, 7))),
        ([2, 1, 0, 0, 0], Err((6, 1, 7))),
        ([3, 0, 1, 0, 0], Err((6, 1, 7))),
        ([4, 0, 1, 0, 0], Err((6, 1, 7))),
        ([4, 0, 0, 0, 1], Err((6, 1, 7))),
    ];
    for (row, expected) in table {
        assert_eq!(rt; sections(rt.alloc(), &[TRUE, row], &[], &[WEAK])?, expected);
    }
    Ok(())
}

// The only condition, at offset 2: is it listed, does it name what it may, and is it true.
#[test]
fn condition_0(rt: HostRuntime) -> Result<(), Fail> {
    let table: [(Row, Outcome); 6] = [
        ([0, 0, 0, 0, 0], Ok(())),
        ([9, 0, 0, 0, 0], Err((5, 1, 2))),
        ([3, 0, 0, 0, 0], Err((6, 1, 2))),
        ([2, 0, 32, 0, 0], Err((6, 1, 2))),
        ([2, 0, 0, 0, 0], Err((7, 1, 2))),
        ([1, 0, 0, 0, 0], Err((7, 1, 2))),
    ];
    for (row, expected) in table {
        assert_eq!(rt; sections(rt.alloc(), &[row], &[], &[WEAK])?, expected);
    }
    Ok(())
}

// A second sequence, at offset 14.
#[test]
fn sequences(rt: HostRuntime) -> Result<(), Fail> {
    let table: [(Row, Outcome); 23] = [
        ([0, 0, 0, 0, 0], Ok(())),
        ([1, 0, 0, 0, 0], Ok(())),
        ([2, 0, 0, 0, 0], Ok(())),
        ([3, 0, 0, 0, 0], Ok(())),
        ([4, 0, 0, 0, 0], Ok(())),
        ([5, 0, 0, 0, 0], Ok(())),
        ([6, 0, 0, 0, 0], Ok(())),
        ([7, 0, 0, 0, 0], Ok(())),
        ([8, 0, 0, 0, 0], Err((5, 2, 14))),
        ([0, 0, 0, 0, 1], Err((5, 2, 14))),
        ([5, 0, 1, 0, 0], Err((5, 2, 14))),
        ([5, 0, 0, 0, 1], Err((5, 2, 14))),
        ([6, 0, 0, 1, 0], Err((5, 2, 14))),
        ([0, 0, 1, 0, 0], Err((6, 2, 14))),
        ([1, 0, 1, 0, 0], Err((6, 2, 14))),
        ([1, 0, 0, 0, 1], Err((6, 2, 14))),
        ([2, 0, 1, 0, 0], Err((6, 2, 14))),
        ([2, 0, 0, 0, 1], Err((6, 2, 14))),
        ([3, 0, 0, 1, 0], Err((6, 2, 14))),
        ([4, 1, 0, 0, 0], Err((6, 2, 14))),
        ([6, 0, 1, 0, 0], Err((6, 2, 14))),
        ([7, 0, 1, 0, 0], Err((6, 2, 14))),
        ([7, 0, 0, 0, 1], Err((6, 2, 14))),
    ];
    for (row, expected) in table {
        assert_eq!(rt;
            sections(rt.alloc(), &[TRUE], &[ON_TRUE, row], &[WEAK])?,
            expected
        );
    }
    Ok(())
}

// A second formula, at offset 21.
#[test]
fn formulas(rt: HostRuntime) -> Result<(), Fail> {
    let table: [(Row, Outcome); 34] = [
        ([0, 0, 0, 0, 0], Ok(())),
        ([1, 0, 0, 0, 0], Ok(())),
        ([2, 0, 0, 0, 0], Ok(())),
        ([3, 0, 0, 0, 0], Ok(())),
        ([4, 0, 0, 0, 0], Ok(())),
        ([5, 0, 0, 0, 0], Ok(())),
        ([6, 0, 0, 0, 0], Ok(())),
        ([7, 0, 0, 0, 0], Ok(())),
        ([8, 0, 0, 0, 0], Ok(())),
        ([9, 0, 0, 0, 0], Ok(())),
        ([10, 0, 0, 0, 0], Ok(())),
        ([11, 0, 0, 0, 0], Err((5, 3, 21))),
        ([0, 0, 0, 0, 1], Err((5, 3, 21))),
        ([1, 0, 0, 0, 1], Err((5, 3, 21))),
        ([2, 0, 0, 0, 1], Err((5, 3, 21))),
        ([3, 0, 0, 0, 1], Err((5, 3, 21))),
        ([4, 0, 0, 0, 1], Err((5, 3, 21))),
        ([6, 0, 0, 0, 1], Err((5, 3, 21))),
        ([0, 0, 1, 0, 0], Err((6, 3, 21))),
        ([1, 0, 1, 0, 0], Err((6, 3, 21))),
        ([2, 0, 1, 0, 0], Err((6, 3, 21))),
        ([3, 0, 1, 0, 0], Err((6, 3, 21))),
        ([4, 0, 1, 0, 0], Err((6, 3, 21))),
        ([5, 0, 1, 0, 0], Err((6, 3, 21))),
        ([5, 0, 0, 0, 1], Err((6, 3, 21))),
        ([6, 0, 1, 0, 0], Err((6, 3, 21))),
        ([7, 0, 1, 0, 0], Err((6, 3, 21))),
        ([7, 0, 0, 0, 1], Err((6, 3, 21))),
        ([8, 0, 1, 0, 0], Err((6, 3, 21))),
        ([8, 0, 0, 0, 1], Err((6, 3, 21))),
        ([9, 0, 1, 0, 0], Err((6, 3, 21))),
        ([9, 0, 0, 0, 1], Err((6, 3, 21))),
        ([10, 0, 1, 0, 0], Err((6, 3, 21))),
        ([10, 0, 0, 0, 1], Err((6, 3, 21))),
    ];
    for (row, expected) in table {
        assert_eq!(rt;
            sections(rt.alloc(), &[TRUE], &[ON_TRUE], &[WEAK, row])?,
            expected
        );
    }
    Ok(())
}

// Of several faults the first in file order is told.
#[test]
fn first_fault(rt: HostRuntime) -> Result<(), Fail> {
    let bad: Row = [99, 0, 0, 0, 0];
    let atom: Row = [2, 0, 0, 0, 0];
    assert_eq!(rt;
        sections(rt.alloc(), &[atom, bad], &[bad], &[bad])?,
        Err((7, 1, 2))
    );
    assert_eq!(rt;
        sections(rt.alloc(), &[TRUE, bad], &[bad], &[bad])?,
        Err((5, 1, 7))
    );
    assert_eq!(rt;
        sections(rt.alloc(), &[TRUE, atom], &[bad], &[bad])?,
        Err((5, 2, 14))
    );
    assert_eq!(rt;
        sections(rt.alloc(), &[TRUE, atom], &[], &[WEAK, bad])?,
        Err((5, 3, 21))
    );
    Ok(())
}
