// What each kind of entry adds, and which pairs are met.
use crate::files::{Outcome, forming};
use form::place::Form;
use std::test::Fail;
use test_files::rows::{ON_TRUE, Row, TRUE, WEAK};

// A last formula over a weak one, beside a sequence on a condition.
#[test]
fn formulas(rt: HostRuntime) -> Result<(), Fail> {
    let table: [(Row, Outcome); 11] = [
        ([0, 0, 0, 0, 0], Outcome(Ok(()), 3, 0, 3)),
        ([1, 0, 0, 0, 0], Outcome(Ok(()), 4, 0, 4)),
        ([2, 0, 0, 0, 0], Outcome(Ok(()), 3, 4, 1)),
        ([3, 0, 0, 0, 0], Outcome(Ok(()), 3, 4, 1)),
        ([4, 0, 0, 0, 0], Outcome(Ok(()), 4, 0, 5)),
        ([5, 0, 0, 0, 0], Outcome(Ok(()), 4, 0, 5)),
        ([6, 0, 0, 0, 0], Outcome(Ok(()), 5, 0, 11)),
        ([7, 0, 0, 0, 0], Outcome(Ok(()), 4, 0, 10)),
        ([8, 0, 0, 0, 0], Outcome(Ok(()), 4, 0, 5)),
        ([9, 0, 0, 0, 0], Outcome(Ok(()), 6, 4, 5)),
        ([10, 0, 0, 0, 0], Outcome(Ok(()), 4, 0, 4)),
    ];
    for (row, expected) in table {
        assert_eq!(rt;
            forming(rt.alloc(), &[TRUE], &[ON_TRUE], &[WEAK, row])?,
            expected
        );
    }
    Ok(())
}

// A last sequence over one on a condition, under r!.
#[test]
fn sequences(rt: HostRuntime) -> Result<(), Fail> {
    let table: [(Row, Outcome); 8] = [
        ([0, 0, 0, 0, 0], Outcome(Ok(()), 3, 4, 1)),
        ([1, 0, 0, 0, 0], Outcome(Ok(()), 3, 5, 1)),
        ([2, 0, 0, 0, 0], Outcome(Ok(()), 3, 5, 1)),
        ([3, 0, 0, 0, 0], Outcome(Ok(()), 3, 5, 1)),
        ([4, 0, 0, 0, 0], Outcome(Ok(()), 3, 5, 1)),
        ([5, 0, 0, 0, 0], Outcome(Ok(()), 1, 1, 1)),
        ([6, 0, 0, 0, 0], Outcome(Ok(()), 3, 5, 1)),
        ([7, 0, 0, 0, 0], Outcome(Ok(()), 3, 4, 1)),
    ];
    for (row, expected) in table {
        assert_eq!(rt;
            forming(rt.alloc(), &[TRUE], &[ON_TRUE, row], &[[2, 0, 1, 0, 0]])?,
            expected
        );
    }
    Ok(())
}

// Three formulas after the strong and the weak one, with two conditions: clocks nested, repeated, equal but for their number, and unused.
#[test]
fn clocks(rt: HostRuntime) -> Result<(), Fail> {
    let table: [([Row; 3], Outcome); 6] = [
        (
            [[10, 0, 1, 0, 1], [10, 0, 2, 0, 0], [10, 0, 3, 0, 1]],
            Outcome(Ok(()), 5, 0, 4),
        ),
        (
            [[10, 0, 1, 0, 1], [10, 0, 1, 0, 1], [5, 0, 2, 0, 3]],
            Outcome(Ok(()), 5, 0, 5),
        ),
        (
            [[10, 0, 1, 0, 1], [10, 0, 1, 0, 0], [5, 0, 2, 0, 3]],
            Outcome(Ok(()), 8, 0, 9),
        ),
        (
            [[10, 0, 1, 0, 1], [4, 0, 1, 0, 0], [5, 0, 2, 0, 1]],
            Outcome(Ok(()), 8, 0, 9),
        ),
        (
            [[4, 0, 0, 0, 0], [4, 0, 1, 0, 0], [4, 0, 1, 0, 0]],
            Outcome(Ok(()), 5, 0, 5),
        ),
        (
            [[5, 0, 0, 0, 1], [5, 0, 2, 0, 2], [5, 0, 3, 0, 3]],
            Outcome(Ok(()), 7, 0, 10),
        ),
    ];
    for ([a, b, c], expected) in table {
        assert_eq!(rt;
            forming(
                rt.alloc(),
                &[TRUE, TRUE],
                &[ON_TRUE],
                &[[0, 0, 0, 0, 0], WEAK, a, b, c],
            )?,
            expected
        );
    }
    Ok(())
}

#[test]
fn a_new_place(rt: HostRuntime) {
    let form = Form::new();
    assert_eq!(rt; form.conditions().len(), 1);
    assert_eq!(rt; form.sequences().len(), 0);
    assert_eq!(rt; form.formulas().len(), 1);
    assert_eq!(rt; form.root(), 0);
}
