// The flat record on examples.
use letter::full::{Full, Tag};
use letter::wire::Wire;
use record::flat::Flat;
use record::record::Record;
use record::twice::add_twice;

#[test]
fn filling(rt: HostRuntime) {
    // the rows there are, the letters tried, those that were granted
    for (there, tried, granted) in [
        (0, 1, 0),
        (1, 1, 1),
        (1, 2, 1),
        (3, 4, 3),
        (511, 512, 511),
        (512, 511, 511),
        (512, 512, 512),
        (512, 513, 512),
        (520, 513, 512),
    ] {
        let mut rows = [Full::Top; 520];
        assert!(rt; there <= rows.len());
        let mut flat = Flat::new(&mut rows[0..there]);
        for i in 0..tried {
            let r = flat.add(Tag::Ordinary, Wire::of(i)).map_err(|e| e.number());
            assert_eq!(rt;
                r,
                if flat.count() > i as usize {
                    Ok(())
                } else {
                    Err(22)
                }
            );
        }
        assert_eq!(rt; flat.count(), granted);
    }
}

#[test]
fn places(rt: HostRuntime) {
    // the count handed over, the place asked for, whether the letter there satisfies atom 2, or the refusal's number
    for (count, place, expected) in [
        (0, 0, Err(26)),
        (2, 0, Ok(true)),
        (2, 1, Ok(true)),
        (2, 2, Err(26)),
        (3, 2, Ok(true)),
        (9, 2, Ok(true)),
        (9, 3, Err(26)),
    ] {
        let mut rows = [Full::Ordinary(Wire::of(4)); 3];
        let mut flat = Flat::resume(&mut rows, count);
        let told = flat
            .letter(place)
            .map(|letter| letter.satisfies(2))
            .map_err(|e| e.number());
        assert_eq!(rt; told, expected);
    }
}

#[test]
fn twice(rt: HostRuntime) {
    let mut rows = [Full::Top; 3];
    let mut flat = Flat::new(&mut rows);
    assert_eq!(rt; add_twice(&mut flat, Tag::Bottom, Wire::empty()), 2);
    assert_eq!(rt; add_twice(&mut flat, Tag::Bottom, Wire::empty()), 3);
    assert_eq!(rt; add_twice(&mut flat, Tag::Bottom, Wire::empty()), 3);
}
