//! Examples, worked out by hand.
use crate::rules::*;
use crate::{Choosing, Share};

fn share(left: u32, rate: u16, deadline: u32) -> Share {
    Share {
        left,
        rate,
        deadline,
    }
}

#[test]
fn the_rules_differ(rt: HostRuntime) {
    let server = share(5, 5, 1);
    let clients = [share(1, 1, 1), share(8, 4, 2)];
    assert_eq!(rt; EarliestDeadline.choose(server, &clients), Some(0));
    assert_eq!(rt; LeastSlack.choose(server, &clients), Some(1));
}

#[test]
fn the_first_of_equals_with_left(rt: HostRuntime) {
    let server = share(9, 6, 1);
    let clients = [
        share(0, 2, 1),
        share(3, 1, 2),
        share(3, 1, 2),
        share(3, 2, 3),
    ];
    assert_eq!(rt; EarliestDeadline.choose(server, &clients), Some(1));
    assert_eq!(rt; LeastSlack.choose(server, &clients), Some(1));
    assert_eq!(rt; LeastSlack.choose(server, &clients[2..4]), Some(0));
}

#[test]
fn none_without_left_or_past_eighty(rt: HostRuntime) {
    let server = share(1, 1, 1);
    assert_eq!(rt; EarliestDeadline.choose(server, &[]), None);
    assert_eq!(rt; LeastSlack.choose(server, &[share(0, 1, 1); 2]), None);
    assert_eq!(rt; EarliestDeadline.choose(server, &[server; 80]), Some(0));
    assert_eq!(rt; LeastSlack.choose(server, &[server; 81]), None);
}

// The slacks are 0 + 65535 × (0 − 4294967295) − 1, far below 0, and 0 − 4294967295.
#[test]
fn slack_may_be_negative(rt: HostRuntime) {
    let server = share(0, u16::MAX, u32::MAX);
    let clients = [share(u32::MAX, 0, u32::MAX), share(1, 0, 0)];
    assert_eq!(rt; LeastSlack.choose(server, &clients), Some(1));
    assert_eq!(rt; EarliestDeadline.choose(server, &clients), Some(1));
}
