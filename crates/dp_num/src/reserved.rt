ghost use Rattle.std.specs.Prelude.{◌≡◌, [], ◌∷◌, ◌++◌, ◌<◌, ◌≤◌, ◌-◌, length};
ghost use Rattle.std.specs.Prelude.{slice_get, slice_index_or, Some, OnOk, OnErr};
ghost use Rattle.std.specs.Borrow.{sem};

use dp_count::NoMemory;
use std::alloc::Global;
use std::marker::Model;

/// A list that takes memory in `reserve` alone. Contracts see its items, and its spare: for how many more there is
/// room.
#[derive(Debug, Drop)]
pub struct Reserved<T> {
    items: Vec<T>,
    spare: u64,
}

impl<T> Model for Reserved<T> {
    ghost use Rattle.std.specs.Prelude.{◌+◌, ◌≤◌, vec_len, vec_capacity};
    ghost use Rattle.dp_num.specs.Reserved.{ReservedValue, reserved_code};

    ghost Value = { ReservedValue T };

    ghost coded = { reserved_code T.code };

    ghost view = { λ r. record { items = r.items.items; spare = r.spare } };

    ghost invariant = { λ r. vec_len r.items + r.spare ≤ vec_capacity r.items };
}

impl<T> Reserved<T> {
    ghost use Rattle.dp_num.specs.Lending.{LendsItem};

    /// The empty list with no room, which takes no memory.
    pub fn new(alloc: Global) -> Reserved<T>
        ensures { result ≡ record { items = []; spare = 0 } }
    {
        Reserved {
            items: Vec::new(alloc),
            spare: 0,
        }
    }

    /// How many items there are.
    pub fn len(&self) -> u64
        ensures { result ≡ length self.now.items }
    {
        self.items.len() as u64
    }

    /// The items in order.
    pub fn as_slice(&self) -> &[T]
        ensures { result.now ≡ self.now.items }
    {
        self.items.as_slice()
    }

    /// The item at place `k`, from 0.
    pub fn at(&self, k: u64) -> &T
        requires { k < length self.now.items }
        ensures item { slice_get self.now.items k ≡ Some result.now }
        ensures value { result.now ≡ slice_index_or self.now.items k result.now }
    {
        &self.items[k as usize]
    }

    /// The item at place `k`, from 0, for writing.
    pub fn at_mut(&mut self, k: u64) -> &mut T
        requires { k < length self.old.items }
        ensures* writes_back { sem 𝓛 (LendsItem T.row self.entry k result) }
        ensures value { result.now ≡ slice_index_or self.old.items k result.now }
    {
        &mut self.items[k as usize]
    }

    /// Makes room for at least one more item. The items stay, also after `NoMemory`.
    pub fn reserve(&mut self) -> Result<(), NoMemory>
        ensures room { OnOk result (1 ≤ self.new.spare) }
        ensures kept { self.old.spare ≤ self.new.spare }
        ensures items { self.new.items ≡ self.old.items }
        ensures unchanged { OnErr result (self.new ≡ self.old) }
    {
        if self.spare == 0 {
            self.items.reserve(1)?;
            self.spare = 1;
        }
        Ok(())
    }
}

impl<T: Drop> Reserved<T> {
    /// Appends an item, for which there is room. It uses one of the spare and takes no memory.
    pub fn push(&mut self, item: T)
        requires { 1 ≤ self.old.spare }
        ensures { self.new ≡ record { items = self.old.items ++ item ∷ []; spare = self.old.spare - 1 } }
    {
        self.items.push(item).unwrap();
        self.spare -= 1;
    }
}

#[cfg(test)]
mod tests {
    use super::*;
    use std::test::Fail;

    #[test]
    fn room_is_made_before_an_item_comes(rt: HostRuntime) -> Result<(), Fail> {
        let mut list = Reserved::<u8>::new(rt.alloc());
        assert_eq!(rt; list.len(), 0);
        assert_eq!(rt; list.reserve(), Ok(()));
        list.push(4);
        assert_eq!(rt; list.reserve(), Ok(()));
        list.push(5);
        *list.at_mut(0) = 9;
        assert_eq!(rt; (*list.at(0), *list.at(1)), (9, 5));
        assert_eq!(rt; list.as_slice(), [9, 5].as_slice());
        Ok(())
    }
}
