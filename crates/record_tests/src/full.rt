// Top and bottom among ordinary letters, in both records.
use letter::full::{Full, Tag};
use letter::wire::Wire;
use record::flat::Flat;
use record::record::Record;
use run_record::run::Run;
use run_record::runs::Runs;
use std::process::Abort;

// The letters that each test adds: six letters in four stretches.
const LETTERS: [(Tag, u32); 6] = [
    (Tag::Ordinary, 1),
    (Tag::Top, 1),
    (Tag::Top, 2),
    (Tag::Bottom, 2),
    (Tag::Ordinary, 2),
    (Tag::Ordinary, 2),
];

// Adds the letters, and reads them again.
fn added_and_read<R: Record<Letter = Wire>>(rt: &impl Abort, record: &mut R) {
    for (tag, bits) in LETTERS {
        assert!(rt; record.add(tag, Wire::of(bits)).is_ok());
    }
    assert_eq!(rt; record.count(), 6);
    for (place, (tag, bits)) in LETTERS.iter().enumerate() {
        assert_eq!(rt; record.letter(place), Ok(Full::of(*tag, Wire::of(*bits))));
    }
    assert_eq!(rt; record.letter(6).is_ok(), false);
}

#[test]
fn in_flat_rows(rt: HostRuntime) {
    let mut rows = [Full::Bottom; 6];
    let mut flat = Flat::new(&mut rows);
    added_and_read(&rt, &mut flat);
    assert_eq!(rt; flat.add(Tag::Ordinary, Wire::of(2)).is_ok(), false);
}

#[test]
fn in_stretches(rt: HostRuntime) {
    let mut rows = [Run {
        letter: Full::Bottom,
        length: 3,
    }; 4];
    let mut runs = Runs::new(&mut rows);
    added_and_read(&rt, &mut runs);
    assert_eq!(rt; runs.add(Tag::Top, Wire::of(2)).is_ok(), false);
    assert_eq!(rt; runs.add(Tag::Ordinary, Wire::of(2)).is_ok(), true);
    assert_eq!(rt; runs.count(), 7);
}
