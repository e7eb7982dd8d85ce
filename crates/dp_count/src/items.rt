ghost use Rattle.std.specs.Prelude.{◌≡◌, [], ◌∷◌, ◌++◌, ◌<◌, ◌^◌, ◌==◌, length, slice_get, slice_set, slice_index_or, Some, OnOk, OnErr};

use crate::NoMemory;
use std::alloc::Global;
use std::marker::Model;

/// A list. It is kept in a `Vec`, and contracts see it as the list of its items.
#[derive(Debug, Drop)]
pub struct Items<T> {
    items: Vec<T>,
}

impl<T> Model for Items<T> {
    ghost use Rattle.std.specs.Prelude.{List};
    ghost use Rattle.std.specs.Coded.{coded_list};

    ghost Value = { List T };

    ghost coded = { coded_list T.code };

    ghost view = { λ it. it.items.items };
}

impl<T> Items<T> {
    /// The empty list, which takes no memory.
    pub fn new(alloc: Global) -> Items<T>
        ensures { result ≡ [] }
    {
        Items {
            items: Vec::new(alloc),
        }
    }

    /// The list of a vector's items, in the vector's own memory.
    pub fn from_vec(items: Vec<T>) -> Items<T>
        ensures { result ≡ items.items }
    {
        Items { items }
    }

    /// The vector of the list's items, in the list's own memory.
    pub fn into_vec(self) -> Vec<T>
        ensures { result.items ≡ self }
    {
        let Items { items } = self;
        items
    }

    /// The items in order.
    pub fn as_slice(&self) -> &[T]
        ensures { result.now ≡ self.now }
    {
        self.items.as_slice()
    }

    /// How many items there are.
    pub fn len(&self) -> u64
        ensures { result ≡ length self.now }
    {
        self.items.len() as u64
    }

    /// Whether there is no item.
    pub fn is_empty(&self) -> bool
        ensures { result ≡ (length self.now == 0) }
    {
        self.items.is_empty()
    }

    /// The item at place `k`, from 0.
    pub fn at(&self, k: u64) -> &T
        requires { k < length self.now }
        ensures item { slice_get self.now k ≡ Some result.now }
        ensures value { result.now ≡ slice_index_or self.now k result.now }
    {
        &self.items[k as usize]
    }

    /// Puts `item` at place `k`, from 0, and gives back the item that stood there.
    pub fn swap(&mut self, k: u64, item: T) -> T
        requires { k < length self.old }
        ensures item { slice_get self.old k ≡ Some result }
        ensures list { self.new ≡ slice_set self.old k item }
    {
        std::mem::replace(&mut self.items[k as usize], item)
    }
}

impl<T: Drop> Items<T> {
    /// Appends an item. After `NoMemory` the list is unchanged.
    pub fn push(&mut self, item: T) -> Result<(), NoMemory>
        requires { length self.old < 2 ^ 32 }
        ensures ok { OnOk result (self.new ≡ self.old ++ item ∷ []) }
        ensures err { OnErr result (self.new ≡ self.old) }
    {
        self.items.push(item)?;
        Ok(())
    }
}

#[cfg(test)]
mod tests {
    use super::*;
    use std::test::Fail;

    #[test]
    fn a_list_grows_and_swaps(rt: HostRuntime) -> Result<(), Fail> {
        let mut list = Items::<u8>::new(rt.alloc());
        assert!(rt; list.is_empty());
        assert_eq!(rt; list.push(4), Ok(()));
        assert_eq!(rt; list.push(5), Ok(()));
        assert_eq!(rt; list.len(), 2);
        assert_eq!(rt; list.swap(1, 9), 5);
        assert_eq!(rt; *list.at(1), 9);
        assert_eq!(rt; list.as_slice(), [4, 9].as_slice());
        let back = Items::from_vec(list.into_vec());
        assert_eq!(rt; *back.at(0), 4);
        Ok(())
    }
}
