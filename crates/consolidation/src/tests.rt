// What the consolidations tell, on examples.
use crate::consolidation::Consolidation;
use crate::fold::fold;
use crate::item::Item;
use crate::mean::Mean;
use crate::monoid::Monoid;
use crate::single::{Last, Max, Min};
use std::fmt::Debug;
use std::process::Abort;

fn told<E: Consolidation + Copy>(x: E) -> (i64, u32) {
    (x.amount(), x.weight())
}

fn no_time<E: Consolidation + Copy>(rt: &impl Abort) {
    assert_eq!(rt; told(E::empty()), (0, 0));
    assert_eq!(rt; told(E::hold(7, 0)), (0, 0));
}

// A hold tells this, and joined with nothing it is the same.
fn hold_tells<E: Consolidation + Copy + PartialEq + Debug>(
    rt: &impl Abort,
    reading: i32,
    seconds: u32,
    tells: (i64, u32),
) {
    let held = E::hold(reading, seconds);
    assert_eq!(rt; told(held), tells);
    assert_eq!(rt; E::empty().join(held), held);
    assert_eq!(rt; held.join(E::empty()), held);
}

// 7 for 2 seconds and then -3 for 4, and the other way round.
fn joins_tell<E: Consolidation + Copy>(rt: &impl Abort, falling: (i64, u32), rising: (i64, u32)) {
    assert_eq!(rt; told(E::hold(7, 2).join(E::hold(-3, 4))), falling);
    assert_eq!(rt; told(E::hold(-3, 4).join(E::hold(7, 2))), rising);
}

fn item<E>(element: E, known: u32, of: u32) -> Item<E> {
    Item { element, known, of }
}

fn item_told<E: Consolidation + Copy>(x: Item<E>) -> (i64, u32, u32, u32) {
    (x.element.amount(), x.element.weight(), x.known, x.of)
}

// The fold of `items` tells this, and the joining of two parts is the same; that of no item tells nothing.
fn fold_tells<E: Consolidation + Copy + PartialEq + Debug>(
    rt: &impl Abort,
    items: &[Item<E>],
    tells: (i64, u32, u32, u32),
) {
    let whole = fold(items);
    assert_eq!(rt; item_told(whole), tells);
    for cut in 0..items.len() {
        let parts = fold(&items[..cut]).join(fold(&items[cut..]));
        assert_eq!(rt; parts, whole);
    }
    assert_eq!(rt; item_told(fold(&items[..0])), (0, 0, 0, 0));
}

#[test]
fn no_time_tells_nothing(rt: HostRuntime) {
    no_time::<Min>(&rt);
    no_time::<Max>(&rt);
    no_time::<Last>(&rt);
    no_time::<Mean>(&rt);
}

#[test]
fn a_hold_tells_its_reading(rt: HostRuntime) {
    hold_tells::<Min>(&rt, -3, 4, (-3, 1));
    hold_tells::<Max>(&rt, -3, 4, (-3, 1));
    hold_tells::<Last>(&rt, -3, 4, (-3, 1));
    hold_tells::<Mean>(&rt, -3, 4, (-12, 4));
}

#[test]
fn extreme_readings_are_told_whole(rt: HostRuntime) {
    hold_tells::<Min>(&rt, i32::MIN, u32::MAX, (-2147483648, 1));
    hold_tells::<Max>(&rt, i32::MAX, u32::MAX, (2147483647, 1));
    hold_tells::<Last>(&rt, i32::MIN, u32::MAX, (-2147483648, 1));
    hold_tells::<Mean>(&rt, i32::MIN, u32::MAX, (-9223372034707292160, 4294967295));
    hold_tells::<Mean>(&rt, i32::MAX, u32::MAX, (9223372030412324865, 4294967295));
}

#[test]
fn only_last_heeds_the_order(rt: HostRuntime) {
    joins_tell::<Min>(&rt, (-3, 1), (-3, 1));
    joins_tell::<Max>(&rt, (7, 1), (7, 1));
    joins_tell::<Last>(&rt, (-3, 1), (7, 1));
    joins_tell::<Mean>(&rt, (2, 6), (2, 6));
}

#[test]
fn the_mean_wraps(rt: HostRuntime) {
    let most = Mean {
        amount: i64::MAX,
        weight: u32::MAX,
    };
    let one = Mean {
        amount: 1,
        weight: 1,
    };
    assert_eq!(rt; told(most.join(one)), (i64::MIN, 0));
    assert_eq!(rt; told(most.join(most)), (-2, 4294967294));
}

#[test]
fn a_fold_joins_in_order(rt: HostRuntime) {
    let means = [
        item(Mean::hold(7, 2), 2, 2),
        item(Mean::hold(-3, 4), 1, 4),
        item(Mean::hold(5, 1), 1, u32::MAX),
    ];
    fold_tells(&rt, &means, (7, 7, 4, 5));
    let lasts = [
        item(Last::hold(7, 2), 2, 2),
        item(Last::hold(5, 1), 1, 1),
        item(Last::empty(), 0, 4),
    ];
    fold_tells(&rt, &lasts, (5, 1, 3, 7));
}
