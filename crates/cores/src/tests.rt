//! Examples, worked out by hand.
use crate::{Cores, preempted};

#[test]
fn three_passes(rt: HostRuntime) {
    let mut cores = Cores::new();
    let mut list = [9; 4];
    cores.place(&[0, 1, 2], 3, &mut list);
    assert_eq!(rt; list, [0, 1, 2, 9]);
    cores.place(&[1, 2, 4], 3, &mut list);
    assert_eq!(rt; list, [4, 1, 2, 9]);
    cores.place(&[0, 2, 4], 3, &mut list);
    assert_eq!(rt; list, [4, 0, 2, 9]);
    cores.place(&[0, 1, 3], 3, &mut list);
    assert_eq!(rt; list, [1, 0, 3, 9]);
    cores.place(&[2, 3, 4], 3, &mut list);
    assert_eq!(rt; list, [4, 2, 3, 9]);
}

#[test]
fn whatever_is_named(rt: HostRuntime) {
    let mut cores = Cores::new();
    let mut list = [9; 4];
    cores.place(&[7, 7, 80, 255, 6], 3, &mut list);
    assert_eq!(rt; list, [7, 6, 9, 9]);
    let mut short = [9; 1];
    cores.place(&[6, 7], 2, &mut short);
    assert_eq!(rt; short, [7]);
    cores.place(&[], 0, &mut short);
    assert_eq!(rt; short, [7]);
}

#[test]
fn counted_preemptions(rt: HostRuntime) {
    assert_eq!(rt; preempted(&[0, 4], &[0, 1, 3]), 1);
    assert_eq!(rt; preempted(&[1, 2, 4], &[1, 2, 4]), 0);
    assert_eq!(rt; preempted(&[4, 2, 1], &[1, 3]), 2);
    assert_eq!(rt; preempted(&[1, 2], &[]), 2);
    assert_eq!(rt; preempted(&[], &[1]), 0);
}
