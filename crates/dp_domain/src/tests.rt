//! Domains, their values, and copies, on small cases.
use super::*;
use dp_count::NoMemory;
use std::alloc::Global;
use std::test::Fail;

mod copies;
mod limits;
mod members;

fn text(alloc: Global, text: &str) -> Result<Text, NoMemory> {
    Ok(Items::from_vec(Vec::from_slice(alloc, text.as_bytes())?))
}
