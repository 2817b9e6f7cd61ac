// What costs of the three kinds combine to, and which is the cheaper.
use costs::{Cost, Pair};

fn pair(first: u16, second: u16) -> Pair {
    Pair { first, second }
}

#[test]
fn costs_combine(rt: HostRuntime) {
    assert_eq!(rt; 4_294_967_290u32.combine(10), 4_294_967_295);
    assert_eq!(rt; 4_294_967_290u32.combine(4), 4_294_967_294);
    assert_eq!(rt; 3u16.combine(9), 9);
    assert_eq!(rt; 9u16.combine(3), 9);
    let rows = [
        [pair(65_534, 5), pair(1, 0), pair(65_535, 65_535)],
        [pair(65_533, 5), pair(1, 0), pair(65_534, 5)],
        [pair(3, 65_000), pair(0, 900), pair(3, 65_535)],
    ];
    for [a, b, both] in rows {
        assert_eq!(rt; a.combine(b), both);
        assert_eq!(rt; b.combine(a), both);
    }
}

// Whether the first is at most the second, and whether it is cheaper.
fn compared<C: Cost>(a: C, b: C) -> (bool, bool) {
    (a.is_at_most(b), a.is_cheaper(b))
}

#[test]
fn cheaper_is_strict(rt: HostRuntime) {
    let rows = [
        (3, 9, (true, true)),
        (9, 9, (true, false)),
        (9, 3, (false, false)),
    ];
    for (a, b, answer) in rows {
        assert_eq!(rt; compared(u32::from(a), u32::from(b)), answer);
        assert_eq!(rt; compared::<u16>(a, b), answer);
        assert_eq!(rt; compared(pair(a, 1), pair(b, 1)), answer);
        assert_eq!(rt; compared(pair(1, a), pair(1, b)), answer);
    }
}

#[test]
fn the_first_number_decides(rt: HostRuntime) {
    let low = pair(1, 9);
    let high = pair(2, 0);
    assert_eq!(rt; compared(low, high), (true, true));
    assert_eq!(rt; compared(high, low), (false, false));
}

#[test]
fn a_full_first_number_hides_the_second(rt: HostRuntime) {
    let some = pair(65_535, 3);
    let none = pair(65_535, 0);
    assert_eq!(rt; compared(some, none), (true, false));
    assert_eq!(rt; compared(none, some), (true, false));
    assert_eq!(rt; Pair::ranked(65_535, 3), Pair::ranked(65_535, 0));
    assert_ne!(rt; some, none);
}
