// The run record on examples.
use letter::full::{Full, Tag};
use letter::wire::Wire;
use record::record::Record;
use run_record::run::Run;
use run_record::runs::Runs;

// A stretch of ordinary letters.
fn stretch(bits: u32, length: usize) -> Run<Wire> {
    Run {
        letter: Full::Ordinary(Wire::of(bits)),
        length,
    }
}

// A stretch of tops, with an ordinary letter that counts for nothing.
fn tops(bits: u32, length: usize) -> Run<Wire> {
    Run {
        letter: Full::of(Tag::Top, Wire::of(bits)),
        length,
    }
}

#[test]
fn filling(rt: HostRuntime) {
    // the rows there are, the length of a stretch, the letters tried, those that were granted, their stretches
    for (there, long, tried, granted, stretches) in [
        (0, 1, 1, 0, 0),
        (1, 1, 1, 1, 1),
        (1, 1, 2, 1, 1),
        (1, 600, 511, 511, 1),
        (1, 600, 512, 512, 1),
        (1, 600, 513, 512, 1),
        (64, 1, 64, 64, 64),
        (64, 1, 65, 64, 64),
        (65, 1, 65, 64, 64),
        (63, 1, 65, 63, 63),
        (64, 8, 513, 512, 64),
        (64, 7, 449, 448, 64),
    ] {
        let mut rows = [stretch(0, 0); 65];
        assert!(rt; there <= rows.len());
        assert!(rt; 0 < long);
        let mut runs = Runs::new(&mut rows[0..there]);
        let mut outcome = Ok(());
        for i in 0..tried {
            if let Err(refusal) = runs.add(Tag::Ordinary, Wire::of(i / long)) {
                outcome = Err(refusal.number());
            }
        }
        assert_eq!(rt; runs.count(), granted);
        assert_eq!(rt; runs.stretches(), stretches);
        assert_eq!(rt;
            outcome,
            if granted as u32 == tried {
                Ok(())
            } else {
                Err(22)
            }
        );
    }
}

#[test]
fn used_rows(rt: HostRuntime) {
    // two rows, how many of them are in use, the count
    for (first, second, used, count) in [
        (stretch(1, 1), stretch(2, 2), 0, 0),
        (stretch(1, 1), stretch(2, 2), 1, 1),
        (stretch(1, 1), stretch(2, 2), 2, 3),
        (stretch(1, 1), stretch(2, 2), 9, 3),
        (stretch(1, 1), stretch(2, 0), 1, 1),
        (stretch(1, 1), stretch(2, 0), 2, 0),
        (stretch(1, 1), stretch(1, 1), 2, 0),
        (tops(1, 1), tops(2, 1), 2, 0),
        (tops(1, 1), stretch(1, 1), 2, 2),
        (stretch(1, 511), stretch(2, 1), 2, 512),
        (stretch(1, 512), stretch(2, 1), 2, 0),
        (stretch(1, 513), stretch(2, 1), 1, 0),
    ] {
        let mut rows = [first, second];
        let mut runs = Runs::resume(&mut rows, used);
        assert_eq!(rt; runs.count(), count);
        assert_eq!(rt; runs.letter(count).map_err(|e| e.number()), Err(26));
        assert_eq!(rt; runs.add(Tag::Bottom, Wire::empty()).is_ok(), count < 2);
    }
}
