//! The edges of each limit. The expected values were worked out by hand from the rules of the settings.
ghost use Rattle.std.specs.Prelude.{◌≤◌};

use crate::{Judged, Limits, NO_LIMIT, judge, next_poll};
use std::process::Abort;

const GREATEST: i64 = 4_000_000_000_000_000_000;

fn polls(min_poll: u8, max_poll: u8) -> Limits
    requires ordered { min_poll ≤ max_poll }
    requires bounded { max_poll ≤ 17 }
{
    Limits {
        max_pos: 172_800,
        max_neg: 172_800,
        max_allowed: 300,
        min_poll,
        max_poll,
    }
}

fn limits(max_pos: u32, max_neg: u32, max_allowed: u32) -> Limits {
    Limits {
        max_pos,
        max_neg,
        max_allowed,
        min_poll: 10,
        max_poll: 15,
    }
}

fn expect_judged(rt: &impl Abort, limits: Limits, cases: &[(i64, Judged)]) {
    for (offset, expected) in cases {
        assert!(rt; offset.unsigned_abs() <= 4_000_000_000_000_000_000);
        assert_eq!(rt; judge(*offset, &limits), *expected, "at {offset}");
    }
}

// Two days either way, and five minutes for a slew.
fn judged_by_a_controller(rt: &impl Abort) {
    let cases = [
        (0, Judged::Slew),
        (3_000_000_000, Judged::Slew),
        (3_000_000_001, Judged::Step),
        (1_728_000_000_000, Judged::Step),
        (1_728_000_000_001, Judged::TooBig),
        (GREATEST, Judged::TooBig),
        (-3_000_000_000, Judged::Slew),
        (-3_000_000_001, Judged::Step),
        (-1_728_000_000_000, Judged::Step),
        (-1_728_000_000_001, Judged::TooBig),
        (-GREATEST, Judged::TooBig),
    ];
    expect_judged(rt, limits(172_800, 172_800, 300), &cases);
}

// No limit ahead, and nothing allowed behind.
fn judged_without_a_limit_ahead(rt: &impl Abort) {
    let cases = [
        (0, Judged::Slew),
        (42_949_672_950_000_001, Judged::Step),
        (GREATEST, Judged::Step),
        (-1, Judged::TooBig),
        (-GREATEST, Judged::TooBig),
    ];
    expect_judged(rt, limits(NO_LIMIT, 0, 300), &cases);
}

// Nothing allowed ahead, no limit behind, and the greatest number of seconds for a slew.
fn judged_without_a_limit_behind(rt: &impl Abort) {
    let cases = [
        (1, Judged::TooBig),
        (GREATEST, Judged::TooBig),
        (0, Judged::Slew),
        (-42_949_672_950_000_000, Judged::Slew),
        (-42_949_672_950_000_001, Judged::Step),
        (-GREATEST, Judged::Step),
    ];
    expect_judged(rt, limits(0, NO_LIMIT, NO_LIMIT), &cases);
}

// The greatest limit that is one, and no second for a slew.
fn judged_by_the_greatest_limit(rt: &impl Abort) {
    let cases = [
        (0, Judged::Slew),
        (1, Judged::Step),
        (-1, Judged::Step),
        (42_949_672_940_000_000, Judged::Step),
        (42_949_672_940_000_001, Judged::TooBig),
        (GREATEST, Judged::TooBig),
        (-42_949_672_940_000_000, Judged::Step),
        (-42_949_672_940_000_001, Judged::TooBig),
        (-GREATEST, Judged::TooBig),
    ];
    expect_judged(rt, limits(NO_LIMIT - 1, NO_LIMIT - 1, 0), &cases);
}

fn expect_polls(rt: &impl Abort, limits: Limits, cases: &[(u8, i64, u8)]) {
    for (poll, offset, expected) in cases {
        assert!(rt; *poll >= limits.min_poll && *poll <= limits.max_poll);
        assert!(rt; offset.unsigned_abs() <= 4_000_000_000_000_000_000);
        assert_eq!(rt;
            next_poll(*poll, *offset, &limits),
            *expected,
            "at {poll}, {offset}"
        );
    }
}

fn polls_of_a_member(rt: &impl Abort) {
    let cases = [
        (10, 1_000_000, 11),
        (10, -1_000_000, 11),
        (14, 0, 15),
        (15, 0, 15),
        (15, 1_000_000, 15),
        (15, 1_000_001, 10),
        (12, -1_000_001, 10),
        (10, GREATEST, 10),
        (15, -GREATEST, 10),
    ];
    expect_polls(rt, polls(10, 15), &cases);
}

// The least and the greatest exponent of all, and one that is both.
fn polls_at_their_limits(rt: &impl Abort) {
    let cases = [(0, 0, 1), (16, 0, 17), (17, 0, 17), (17, 1_000_001, 0)];
    expect_polls(rt, polls(0, 17), &cases);
    expect_polls(rt, polls(7, 7), &[(7, 0, 7), (7, -1_000_001, 7)]);
}

#[test]
fn limits_at_their_edges(rt: HostRuntime) {
    judged_by_a_controller(&rt);
    judged_without_a_limit_ahead(&rt);
    judged_without_a_limit_behind(&rt);
    judged_by_the_greatest_limit(&rt);
    polls_of_a_member(&rt);
    polls_at_their_limits(&rt);
}
