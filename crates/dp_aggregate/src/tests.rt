//! Each part on small values, and what it refuses.
use super::*;
use dp_count::NoMemory;
use dp_domain::{Domain, Items, Metric, Value};
use dp_law::{Refused, Transformation, list_metric};
use std::alloc::Global;
use std::process::Abort;
use std::test::Fail;

mod counts;
mod edges;
mod histograms;
mod lists;
mod sizes;
mod steps;
mod sums;

const KIND: Option<Refused> = Some(Refused::Kind);

const METRIC: Option<Refused> = Some(Refused::Metric);

const BOUND: Option<Refused> = Some(Refused::Bound);

fn ints(lo: i64, hi: i64, size: Option<u32>) -> Domain {
    Domain::Ints { lo, hi, size }
}

fn numbers(alloc: Global, list: &[i64]) -> Result<Value, NoMemory> {
    Ok(Value::Ints(Items::from_vec(Vec::from_slice(alloc, list)?)))
}

fn categories(alloc: Global, list: &[u32]) -> Result<Value, NoMemory> {
    Ok(Value::Cats(Items::from_vec(Vec::from_slice(alloc, list)?)))
}

/// The part's number or category of a value of its input domain.
fn number_of<T: Transformation>(
    rt: &impl Abort,
    alloc: Global,
    part: &T,
    v: &Value,
) -> Option<i64> {
    let domain = part.in_domain();
    assert!(rt; domain.fits());
    assert!(rt; domain.has(v));
    match part.apply(alloc, v) {
        Ok(Value::Int(number)) => Some(number),
        Ok(Value::Cat(category)) => Some(i64::from(category)),
        _ => None,
    }
}

/// Whether the part gives the list or the vector of a value of its input domain.
fn gives<T: Transformation>(
    rt: &impl Abort,
    alloc: Global,
    part: &T,
    v: &Value,
    wanted: &[i64],
) -> bool {
    let domain = part.in_domain();
    assert!(rt; domain.fits());
    assert!(rt; domain.has(v));
    match part.apply(alloc, v) {
        Ok(Value::Ints(list)) => list.as_slice() == wanted,
        Ok(Value::IntVec(cells)) => cells.as_slice() == wanted,
        _ => false,
    }
}

/// The part's distance at `d`, which is at most 2^32, where it is not past.
fn distance_of<T: Transformation>(rt: &impl Abort, part: &T, d: u64) -> Option<u64> {
    assert!(rt; d <= 4_294_967_296);
    part.map(d).ok()
}

fn count(rt: &impl Abort, domain: Domain, metric: Metric) -> Result<Count, Refused> {
    assert!(rt; domain.fits());
    Count::new(domain, metric)
}

fn sum(rt: &impl Abort, domain: Domain, metric: Metric) -> Result<Sum, Refused> {
    assert!(rt; domain.fits());
    Sum::new(domain, metric)
}

fn histogram(rt: &impl Abort, domain: Domain, metric: Metric) -> Result<Histogram, Refused> {
    assert!(rt; domain.fits());
    Histogram::new(domain, metric)
}
