ghost use Rattle.std.specs.Prelude.{◌≡◌, Ok, IfOk, take};

use dp_count::{Items, NoMemory};
use std::alloc::Global;

/// Types whose values can be copied into memory of their own.
pub trait Duplicate: Drop {
    /// An equal value in memory of its own.
    fn duplicate(&self, alloc: Global) -> Result<Self, NoMemory>
        ensures { IfOk result (λ copy. copy ≡ self.now) };

    /// Equal values in order, in memory of their own.
    fn duplicate_all(alloc: Global, items: &[Self]) -> Result<Vec<Self>, NoMemory>
        ensures { IfOk result (λ copy. copy.items ≡ items.now) };
}

impl Duplicate for u8 {
    fn duplicate(&self, _: Global) -> Result<u8, NoMemory>
        ensures { result ≡ Ok self.now }
    {
        Ok(*self)
    }

    fn duplicate_all(alloc: Global, items: &[u8]) -> Result<Vec<u8>, NoMemory> {
        Ok(Vec::from_slice(alloc, items)?)
    }
}

impl Duplicate for u32 {
    fn duplicate(&self, _: Global) -> Result<u32, NoMemory>
        ensures { result ≡ Ok self.now }
    {
        Ok(*self)
    }

    fn duplicate_all(alloc: Global, items: &[u32]) -> Result<Vec<u32>, NoMemory> {
        Ok(Vec::from_slice(alloc, items)?)
    }
}

impl Duplicate for i64 {
    fn duplicate(&self, _: Global) -> Result<i64, NoMemory>
        ensures { result ≡ Ok self.now }
    {
        Ok(*self)
    }

    fn duplicate_all(alloc: Global, items: &[i64]) -> Result<Vec<i64>, NoMemory> {
        Ok(Vec::from_slice(alloc, items)?)
    }
}

impl Duplicate for Option<i64> {
    fn duplicate(&self, _: Global) -> Result<Option<i64>, NoMemory>
        ensures { result ≡ Ok self.now }
    {
        Ok(*self)
    }

    fn duplicate_all(alloc: Global, items: &[Option<i64>]) -> Result<Vec<Option<i64>>, NoMemory> {
        Ok(Vec::from_slice(alloc, items)?)
    }
}

impl<T: Duplicate> Duplicate for Items<T> {
    fn duplicate(&self, alloc: Global) -> Result<Items<T>, NoMemory> {
        Ok(Items::from_vec(T::duplicate_all(alloc, self.as_slice())?))
    }

    fn duplicate_all(alloc: Global, items: &[Items<T>]) -> Result<Vec<Items<T>>, NoMemory> {
        let mut copies = Vec::with_capacity(alloc, items.len())?;
        for item in items {
            copies.push(item.duplicate(alloc)?)?;
        }
        Ok(copies)
    }
}
