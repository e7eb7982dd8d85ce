use super::*;

fn rows(columns: u32) -> Domain {
    Domain::Rows { columns }
}

fn opt_ints(lo: i64, hi: i64) -> Domain {
    Domain::OptInts { lo, hi }
}

fn ints(lo: i64, hi: i64, size: Option<u32>) -> Domain {
    Domain::Ints { lo, hi, size }
}

fn cats(n: u32, size: Option<u32>) -> Domain {
    Domain::Cats { n, size }
}

fn int(lo: i64, hi: i64) -> Domain {
    Domain::Int { lo, hi }
}

fn cat(n: u32) -> Domain {
    Domain::Cat { n }
}

fn vector(len: u32, lo: i64, hi: i64) -> Domain {
    Domain::IntVec { len, lo, hi }
}

#[test]
fn both_ends_of_every_limit_fit(rt: HostRuntime) {
    for (domain, fits) in [
        (rows(0), false),
        (rows(1), true),
        (rows(64), true),
        (rows(65), false),
        (Domain::Texts, true),
        (opt_ints(-2147483648, 2147483648), true),
        (opt_ints(-2147483649, 0), false),
        (opt_ints(0, 2147483649), false),
        (ints(-2147483648, 2147483648, None), true),
        (ints(0, 2147483649, None), false),
        (ints(1, 0, None), false),
        (ints(0, 0, Some(0)), false),
        (ints(0, 0, Some(1)), true),
        (ints(0, 0, Some(1048576)), true),
        (ints(0, 0, Some(1048577)), false),
        (cats(1, None), false),
        (cats(2, Some(1048576)), true),
        (cats(1024, None), true),
        (cats(1025, None), false),
        (int(-2305843009213693952, 2305843009213693952), true),
        (int(-2305843009213693953, 0), false),
        (int(0, 2305843009213693953), false),
        (cat(1), false),
        (cat(1024), true),
        (vector(1, 0, 0), false),
        (vector(2, 0, 2305843009213693952), true),
        (vector(1025, 0, 0), false),
    ] {
        assert_eq!(rt; domain.fits(), fits, "{domain:?}");
    }
}

#[test]
fn domains_that_differ_in_one_number_do_not_agree(rt: HostRuntime) {
    let domain = ints(0, 9, Some(5));
    for (other, agrees) in [
        (ints(0, 9, Some(5)), true),
        (ints(1, 9, Some(5)), false),
        (ints(0, 8, Some(5)), false),
        (ints(0, 9, Some(6)), false),
        (ints(0, 9, None), false),
        (int(0, 9), false),
    ] {
        assert!(rt; domain.fits() && other.fits());
        assert_eq!(rt; domain.agrees(&other), agrees, "{other:?}");
    }
}
