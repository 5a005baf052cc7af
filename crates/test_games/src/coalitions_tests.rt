//! The calls at values worked by hand.

use coalitions::{Coalition, GrayStep};

#[test]
fn calls_answer_as_worked_by_hand(rt: HostRuntime) {
    let pair = Coalition::single(0).with(63);
    assert_eq!(rt;
        (
            pair,
            pair.without(0),
            pair.without(5),
            pair.contains(63),
            pair.contains(62)
        ),
        (
            Coalition(0x8000_0000_0000_0001),
            Coalition::single(63),
            pair,
            true,
            false
        )
    );
    assert_eq!(rt; pair.members().as_slice(), [0u32, 63].as_slice());
    assert_eq!(rt; Coalition::empty().next_mask(64), Some(Coalition(1)));
    for &(set, n, len, complement, next) in &[
        (Coalition(5), 3, 2, Coalition(2), Some(Coalition(6))),
        (Coalition(7), 3, 3, Coalition(0), None),
        (Coalition(u64::MAX), 64, 64, Coalition(0), None),
    ] {
        assert!(rt; n <= 64 && set <= Coalition::all(n));
        assert_eq!(rt;
            (set.len(), set.complement(n), set.next_mask(n)),
            (len, complement, next),
            "{set:?} of {n}"
        );
    }
}

#[test]
fn subsets_come_in_ascending_order(rt: HostRuntime) {
    let mut subsets = Coalition::subsets(2);
    for mask in 0..4u64 {
        assert_eq!(rt; subsets.next(), Some(Coalition(mask)));
    }
    assert_eq!(rt;
        (
            subsets.next(),
            Coalition::subsets(0).count(),
            Coalition::subsets(10).count()
        ),
        (None, 1, 1024)
    );
}

#[test]
fn gray_order_of_two_players(rt: HostRuntime) {
    let mut steps = Coalition::gray(2);
    for &(mask, flipped) in &[(0u64, None), (1, Some(0)), (3, Some(1)), (2, Some(0))] {
        let mask = Coalition(mask);
        assert_eq!(rt; steps.next(), Some(GrayStep { mask, flipped }));
    }
    assert_eq!(rt;
        (
            steps.next(),
            Coalition::gray(0).count(),
            Coalition::gray(16).count()
        ),
        (None, 1, 65536)
    );
}
