use crate::{Budget, Mids, Over};
use dp_count::{Items, NoMemory};
use dp_num::Bound;
use std::alloc::Global;
use std::test::Fail;

/// So many equal mids.
fn equal_mids(alloc: Global, count: u32, mid: u64) -> Result<Mids, NoMemory> {
    let mut mids = Vec::new(alloc);
    for _mid in 0..count {
        mids.push(mid)?;
    }
    Ok(Items::from_vec(mids))
}

/// Two mids.
fn two_mids(alloc: Global, first: u64, second: u64) -> Result<Mids, NoMemory> {
    let mut mids = Vec::new(alloc);
    mids.push(first)?;
    mids.push(second)?;
    Ok(Items::from_vec(mids))
}

#[test]
fn a_filter_of_five_admits_three_and_two(rt: HostRuntime) {
    let mut budget = Budget::filter(5);
    assert_eq!(rt; budget.declared(), Some(5));
    assert_eq!(rt; budget.admit(3), Ok(()));
    assert_eq!(rt; budget.admit(3), Err(Over { cost: 3, left: 2 }));
    assert_eq!(rt; budget.spent(), 3);
    assert_eq!(rt; budget.admit(2), Ok(()));
    assert_eq!(rt; budget.spent(), 5);
    assert_eq!(rt; budget.admit(0), Ok(()));
    assert_eq!(rt; budget.admit(1), Err(Over { cost: 1, left: 0 }));
    assert_eq!(rt; budget.declared(), Some(5));
}

#[test]
fn mids_are_used_one_each_query(rt: HostRuntime) -> Result<(), Fail> {
    let mut budget = Budget::compositor(two_mids(rt.alloc(), 2, 1)?)?;
    assert_eq!(rt; budget.declared(), Some(3));
    assert_eq!(rt; budget.admit(3), Err(Over { cost: 3, left: 2 }));
    assert_eq!(rt; budget.admit(1), Ok(()));
    assert_eq!(rt; budget.admit(2), Err(Over { cost: 2, left: 1 }));
    assert_eq!(rt; budget.admit(1), Ok(()));
    assert_eq!(rt; budget.spent(), 2);
    assert_eq!(rt; budget.admit(0), Err(Over { cost: 0, left: 0 }));
    assert_eq!(rt; budget.spent(), 2);
    assert_eq!(rt; budget.declared(), Some(3));
    Ok(())
}

#[test]
fn an_odometer_ends_at_two_to_the_thirty_two(rt: HostRuntime) {
    let mut budget = Budget::odometer();
    assert_eq!(rt; budget.declared(), None);
    assert_eq!(rt; budget.admit(4_294_967_295), Ok(()));
    assert_eq!(rt; budget.admit(2), Err(Over { cost: 2, left: 1 }));
    assert_eq!(rt; budget.admit(1), Ok(()));
    assert_eq!(rt; budget.admit(1), Err(Over { cost: 1, left: 0 }));
    assert_eq!(rt; budget.admit(0), Ok(()));
    assert_eq!(rt; budget.spent(), 4_294_967_296);
}

#[test]
fn mids_are_few_and_their_sum_is_in_range(rt: HostRuntime) -> Result<(), Fail> {
    let alloc = rt.alloc();
    assert!(rt; Budget::compositor(equal_mids(alloc, 1, 0)?).is_ok());
    assert!(rt; Budget::compositor(equal_mids(alloc, 1024, 4_194_304)?).is_ok());
    assert!(rt; Budget::compositor(two_mids(alloc, 4_294_967_296, 0)?).is_ok());
    for mids in [
        equal_mids(alloc, 0, 1)?,
        equal_mids(alloc, 1025, 0)?,
        two_mids(alloc, 4_294_967_296, 1)?,
        two_mids(alloc, 18_446_744_073_709_551_615, 1)?,
    ] {
        assert_eq!(rt; Budget::compositor(mids).err(), Some(Bound));
    }
    Ok(())
}
