// The sizes of sequences, up to 240 and past it.
use crate::files::{Outcome, sections};
use std::test::Fail;
use test_files::rows::{Row, TRUE, WEAK};

// Sequences of the sizes 2, 4, 6, 10, 24, 240 and 0.
const MADE: [Row; 7] = [
    [0, 0, 0, 0, 0],
    [1, 0, 0, 0, 0],
    [3, 0, 1, 0, 0],
    [1, 0, 1, 0, 2],
    [4, 0, 1, 0, 2],
    [4, 0, 4, 0, 3],
    [5, 0, 0, 0, 0],
];

// One more sequence over those, at offset 44.
#[test]
fn sizes(rt: HostRuntime) -> Result<(), Fail> {
    let table: [(Row, Outcome); 11] = [
        ([6, 0, 5, 0, 0], Ok(())),
        ([7, 0, 5, 0, 0], Ok(())),
        ([1, 0, 5, 0, 6], Ok(())),
        ([2, 0, 6, 0, 5], Ok(())),
        ([4, 0, 5, 0, 6], Ok(())),
        ([1, 0, 5, 0, 0], Err((8, 2, 44))),
        ([3, 0, 0, 0, 5], Err((8, 2, 44))),
        ([2, 0, 4, 0, 3], Err((8, 2, 44))),
        ([2, 0, 5, 0, 5], Err((8, 2, 44))),
        ([4, 0, 5, 0, 0], Err((8, 2, 44))),
        ([4, 0, 5, 0, 5], Err((8, 2, 44))),
    ];
    for (row, expected) in table {
        let [a, b, c, d, e, f, g] = MADE;
        assert_eq!(rt;
            sections(rt.alloc(), &[TRUE], &[a, b, c, d, e, f, g, row], &[WEAK])?,
            expected
        );
    }
    Ok(())
}
