//! Each part on small values, and what it refuses.
use super::*;
use dp_count::NoMemory;
use dp_domain::{Domain, Ints, Metric, OptInts, Record, Rows, Text, Texts, Value};
use dp_law::{MakeFault, Refused, Transformation};
use std::alloc::Global;

mod numbers;
mod persons;
mod records;
mod texts;

const MOST: i64 = 2_147_483_648;

fn texts_of(alloc: Global, cells: &[&[u8]]) -> Result<Texts, NoMemory> {
    let mut texts = Vec::new(alloc);
    for cell in cells {
        texts.push(Text::from_vec(Vec::from_slice(alloc, cell)?))?;
    }
    Ok(Texts::from_vec(texts))
}

fn copy_bytes(alloc: Global, bytes: &[u8]) -> Result<Vec<u8>, NoMemory> {
    Ok(Vec::from_slice(alloc, bytes)?)
}

fn ints_of(alloc: Global, numbers: &[i64]) -> Result<Value, NoMemory> {
    Ok(Value::Ints(Ints::from_vec(Vec::from_slice(alloc, numbers)?)))
}

fn is_ints(v: &Value, wanted: &[i64]) -> bool {
    match v {
        Value::Ints(found) => found.as_slice() == wanted,
        _ => false,
    }
}

fn is_optional(v: &Value, wanted: &[Option<i64>]) -> bool {
    match v {
        Value::OptInts(found) => found.as_slice() == wanted,
        _ => false,
    }
}

fn is_cats(v: &Value, wanted: &[u32]) -> bool {
    match v {
        Value::Cats(found) => found.as_slice() == wanted,
        _ => false,
    }
}

/// What a part gives of a value of its input domain.
fn given<T: Transformation>(alloc: Global, part: &T, v: &Value) -> Result<Value, Fault> {
    if !part.in_domain().has(v) {
        return Err(Fault::Wrong);
    }
    let out = part.apply(alloc, v)?;
    if !part.out_domain().has(&out) {
        return Err(Fault::Wrong);
    }
    Ok(out)
}

/// The same of a part whose stability map keeps each distance, which is tried at both ends.
fn applied<T: Transformation + Drop>(alloc: Global, part: T, v: &Value) -> Result<Value, Fault> {
    if part.map(0) != Ok(0) || part.map(4_294_967_296) != Ok(4_294_967_296) {
        return Err(Fault::Wrong);
    }
    given(alloc, &part, v)
}

/// Why a test ends early.
#[derive(Clone, Copy, Debug, PartialEq, Eq)]
enum Fault {
    Memory,
    Refused,
    Wrong,
}

impl From<NoMemory> for Fault {
    fn from(_: NoMemory) -> Self {
        Fault::Memory
    }
}

impl From<Refused> for Fault {
    fn from(_: Refused) -> Self {
        Fault::Refused
    }
}

impl From<MakeFault> for Fault {
    fn from(_: MakeFault) -> Self {
        Fault::Refused
    }
}
