use super::{order_of, scripted};
use std::process::Abort;
use std::test::*;
use swim_targets::{Chooser, Seeded};

// What is drawn for the members 1, 2, .., and then for places from 0 to 9.
fn draws<R: Abort, C: Chooser>(rt: &R, chooser: C, orders: &[[u32; 5]], places: &[u32]) {
    let mut chooser = chooser;
    draws_orders(rt, &mut chooser, orders);
    for expected in places {
        assert_eq!(rt; chooser.place(9), *expected);
    }
}

fn draws_orders<R: Abort, C: Chooser>(rt: &R, chooser: &mut C, orders: &[[u32; 5]]) {
    for expected in orders {
        let mut ids = order_of(&[1, 2, 3, 4, 5]);
        chooser.order(ids.as_mut_slice());
        assert!(rt; ids == order_of(expected));
    }
}

// What is drawn for each last place.
fn draws_places<R: Abort, C: Chooser>(rt: &R, chooser: C, places: &[(u32, u32)]) {
    let mut chooser = chooser;
    for (last, expected) in places {
        assert_eq!(rt; chooser.place(*last), *expected);
    }
}

// The values were computed apart from this program: the words of ChaCha20 for a key and a nonce of
// zeros, which begin with the bytes 76 b8 e0 ad, and over them the shuffle of `rand`, which takes the
// indices of as many swaps as fit 32 bits from one word, and its draw from a range, which takes the
// high half of a word times the size of the range, and one more word where its low half might carry.
#[test]
fn a_seed_chooses(rt: HostRuntime) {
    let orders = [[4, 3, 2, 1, 5], [3, 1, 2, 4, 5]];
    draws(&rt, Seeded::new([0; 32]), &orders, &[1, 7, 1, 8]);
}

#[test]
fn a_seed_shuffles_twenty(rt: HostRuntime) {
    let mut ids = order_of(&[
        1, 2, 3, 4, 5, 6, 7, 8, 9, 10, 11, 12, 13, 14, 15, 16, 17, 18, 19, 20,
    ]);
    Seeded::new([0; 32]).order(ids.as_mut_slice());
    let expected = [
        18, 11, 2, 16, 5, 9, 10, 7, 17, 4, 14, 13, 15, 3, 20, 1, 12, 19, 8, 6,
    ];
    assert!(rt; ids == order_of(&expected));
}

#[test]
fn a_seed_places(rt: HostRuntime) {
    let places = [
        (0, 0),
        (1, 1),
        (5, 5),
        (127, 20),
        (128, 92),
        (u32::MAX, 451775904),
    ];
    draws_places(&rt, Seeded::new([0; 32]), &places);
}

// The same, with the stream's number as nonce. The words of stream 1 begin with the bytes ef 3f df d6.
#[test]
fn a_later_life_chooses_anew(rt: HostRuntime) {
    let orders = [[2, 1, 4, 5, 3], [3, 4, 1, 5, 2]];
    draws(&rt, Seeded::life([0; 32], 1), &orders, &[7, 5, 2, 6]);
}

#[test]
fn the_last_life_chooses(rt: HostRuntime) {
    let places = [
        (0, 0),
        (1, 0),
        (5, 4),
        (127, 127),
        (128, 26),
        (u32::MAX, 988207724),
    ];
    draws_places(&rt, Seeded::life([0; 32], u64::MAX), &places);
}

#[test]
fn a_script_is_followed_to_its_end(rt: HostRuntime) {
    let orders = [
        [3, 1, 2].as_slice(),
        [1, 2].as_slice(),
        [1, 1, 3].as_slice(),
    ];
    let mut chooser = scripted(&rt, rt.alloc(), &orders, &[3, 9]);
    for expected in [[3, 1, 2], [1, 2, 3], [1, 2, 3], [1, 2, 3]] {
        let mut ids = order_of(&[1, 2, 3]);
        chooser.order(ids.as_mut_slice());
        assert!(rt; ids == order_of(&expected));
    }
    draws_places(&rt, chooser, &[(5, 3), (5, 5), (5, 5)]);
}
