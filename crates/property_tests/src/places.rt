// What a place holds when it is new, after a reading, and after a refused one.
use property::place::Property;
use psl::entry::{Condition, Formula, Sequence};

// A condition true, an atom 5, the sequence on it, and r |-> f with its repetition.
const FILE: [u8; 31] = [
    0, 2, 0, 0, 0, 0, 0, 2, 0, 5, 0, 0, 0, 1, 0, 0, 1, 0, 0, 0, 2, 0, 0, 1, 0, 0, 9, 0, 0, 0, 0,
];

#[test]
fn a_new_place(rt: HostRuntime) {
    let property = Property::new();
    assert!(rt; matches!(property.condition(0), Some(Condition::True)));
    assert!(rt; matches!(property.sequence(0), None));
    assert!(rt; matches!(property.sequence_size(0), None));
    assert!(rt; matches!(property.formula(0), Some(Formula::Weak(0))));
    assert!(rt; matches!(property.root(), Formula::Weak(0)));
}

#[test]
fn a_refusal_keeps_what_was_read(rt: HostRuntime) {
    let mut property = Property::new();
    assert!(rt; property.read(&FILE).is_ok());
    assert!(rt; property.read(&FILE[0..30]).is_err());
    assert_eq!(rt; property.condition_count(), 2);
    assert_eq!(rt; property.sequence_count(), 1);
    assert_eq!(rt; property.formula_count(), 2);
    assert!(rt; matches!(property.condition(1), Some(Condition::Atom(5))));
    assert!(rt; matches!(property.condition(2), None));
    assert!(rt; matches!(property.sequence(0), Some(Sequence::Condition(1))));
    assert!(rt; matches!(property.sequence_size(0), Some(2)));
    assert!(rt; matches!(property.formula(0), Some(Formula::Strong(1))));
    assert!(rt; matches!(property.root(), Formula::Implies(0, 0)));
}
