// Wire letters and simulator letters on examples.
use letter::kind::Kind;
use letter::simulated::Simulated;
use letter::value::Value;
use letter::wire::Wire;

#[test]
fn wire_letters(rt: HostRuntime) {
    // the atom put in, the atom asked for, the answer
    for (put, asked, is) in [
        (0, 0, true),
        (0, 1, false),
        (31, 31, true),
        (31, 30, false),
        (32, 32, false),
        (32, 0, false),
        (255, 255, false),
    ] {
        let letter = Wire::empty().with(put);
        assert_eq!(rt; letter.satisfies(asked), is);
        assert_eq!(rt; letter.mirror().satisfies(asked), is);
        assert_eq!(rt; letter == Wire::empty(), put > 31);
    }
    assert_eq!(rt; Wire::of(5), Wire::empty().with(2).with(0));
    assert_ne!(rt; Wire::of(5), Wire::of(4));
}

#[test]
fn simulator_letters(rt: HostRuntime) {
    // the value put on wire 7, whether the letter satisfies atom 7, whether its mirror does
    for (value, own, other) in [
        (Value::Zero, false, false),
        (Value::One, true, true),
        (Value::X, false, true),
        (Value::Y, true, false),
    ] {
        let letter = Simulated::zeros().with(7, Value::Y).with(7, value);
        let mirror = letter.mirror();
        assert_eq!(rt; letter.satisfies(7), own);
        assert_eq!(rt; mirror.satisfies(7), other);
        assert_eq!(rt; Simulated::zeros().with(7, letter.value(7)), letter);
        assert_eq!(rt; letter.satisfies(8), false);
        assert_eq!(rt; letter == mirror, own == other);
        assert_eq!(rt; letter, mirror.mirror());
        assert_eq!(rt; letter.with(32, Value::One), letter);
    }
}
