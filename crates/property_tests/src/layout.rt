// Counts at their limits, files cut short, and bytes left over.
use crate::files::{Outcome, reading, sections};
use std::test::Fail;
use test_files::rows::{ON_TRUE, Row, TRUE, WEAK};

// X! of an atom held strongly: counts at 0, 12 and 14.
const NEXT: [u8; 26] = [
    0, 2, 0, 0, 0, 0, 0, 2, 0, 0, 0, 0, 0, 0, 0, 2, 0, 0, 1, 0, 0, 6, 0, 0, 0, 0,
];

// The file cut before byte n.
fn cut(n: usize) -> Outcome {
    match n {
        0..=1 => Err((1, 1, 0)),
        2..=11 => Err((3, 1, 2)),
        12..=13 => Err((1, 2, 12)),
        14..=15 => Err((1, 3, 14)),
        16..=25 => Err((3, 3, 16)),
        _ => Ok(()),
    }
}

#[test]
fn cut_at_every_byte(rt: HostRuntime) {
    for n in 0..27 {
        assert_eq!(rt; reading(&NEXT[0..n]), cut(n));
    }
}

#[test]
fn sequences_cut_short(rt: HostRuntime) {
    assert_eq!(rt; reading(&[0, 1, 0, 0, 0, 0, 0, 0]), Err((1, 2, 7)));
    assert_eq!(rt; reading(&[0, 1, 0, 0, 0, 0, 0, 0, 1]), Err((3, 2, 9)));
    assert_eq!(rt;
        reading(&[0, 1, 0, 0, 0, 0, 0, 0, 1, 0, 0, 0, 0]),
        Err((3, 2, 9))
    );
}

// A byte after the last formula, also where the first condition is not listed.
#[test]
fn left_over_byte(rt: HostRuntime) {
    assert_eq!(rt;
        reading(&[0, 1, 0, 0, 0, 0, 0, 0, 0, 0, 1, 1, 0, 0, 0, 0, 0]),
        Err((4, 3, 16))
    );
    assert_eq!(rt;
        reading(&[0, 1, 9, 0, 0, 0, 0, 0, 0, 0, 1, 1, 0, 0, 0, 0, 0]),
        Err((4, 3, 16))
    );
}

#[test]
fn least_counts(rt: HostRuntime) -> Result<(), Fail> {
    assert_eq!(rt; sections(rt.alloc(), &[], &[], &[WEAK])?, Err((2, 1, 0)));
    assert_eq!(rt; sections(rt.alloc(), &[TRUE], &[], &[])?, Err((2, 3, 9)));
    assert_eq!(rt; sections(rt.alloc(), &[TRUE], &[], &[WEAK])?, Ok(()));
    assert_eq!(rt; reading(&[1, 0]), Err((2, 1, 0)));
    Ok(())
}

#[test]
fn greatest_counts(rt: HostRuntime) -> Result<(), Fail> {
    let trues: [Row; 65] = [TRUE; 65];
    let sequences: [Row; 65] = [ON_TRUE; 65];
    let weaks: [Row; 65] = [WEAK; 65];
    assert_eq!(rt;
        sections(rt.alloc(), &trues[0..64], &sequences[0..64], &weaks[0..64])?,
        Ok(())
    );
    assert_eq!(rt; sections(rt.alloc(), &trues, &[], &[WEAK])?, Err((2, 1, 0)));
    assert_eq!(rt;
        sections(rt.alloc(), &[TRUE], &sequences, &[WEAK])?,
        Err((2, 2, 7))
    );
    assert_eq!(rt; sections(rt.alloc(), &[TRUE], &[], &weaks)?, Err((2, 3, 9)));
    Ok(())
}
