use super::*;

/// The distance at `d` of the sum of a list.
fn sum_map(rt: &impl Abort, lo: i64, hi: i64, size: Option<u32>, d: u64) -> Option<u64> {
    let part = sum(rt, ints(lo, hi, size), list_metric(size)).expect(rt, "made");
    distance_of(rt, &part, d)
}

/// The sum of a list of numbers from -5 to 10.
fn sum_of(rt: &impl Abort, alloc: Global, size: Option<u32>, list: &[i64]) -> Option<i64> {
    let part = sum(rt, ints(-5, 10, size), list_metric(size)).expect(rt, "made");
    number_of(rt, alloc, &part, &numbers(alloc, list).expect(rt, "memory"))
}

#[test]
fn sums_map_by_the_greatest_bound_or_by_the_range(rt: HostRuntime) {
    for (lo, hi, size, d, wanted) in [
        (-5, 10, None, 2, Some(20)),
        (-5, 10, Some(4), 1, Some(15)),
        (0, 3, None, 1_431_655_765, Some(4_294_967_295)),
        (0, 3, None, 1_431_655_766, None),
        (
            -2_147_483_648,
            2_147_483_648,
            Some(1),
            1,
            Some(4_294_967_296),
        ),
        (-2_147_483_648, 2_147_483_648, Some(1), 2, None),
    ] {
        assert_eq!(rt; sum_map(&rt, lo, hi, size, d), wanted);
    }
}

#[test]
fn sums_add(rt: HostRuntime) {
    for (size, list, wanted) in [
        (None, &[10, -5, 4][..], 9),
        (None, &[][..], 0),
        (Some(3), &[-5, -5, -5][..], -15),
    ] {
        assert_eq!(rt; sum_of(&rt, rt.alloc(), size, list), Some(wanted));
    }
}
