ghost use Rattle.std.specs.Prelude.{◌≡◌, ◌<◌, ◌^◌, [], length, replicate, IfOk, OnOk};
ghost use Rattle.std.specs.List.{All};
ghost use Rattle.dp_rowwise.specs.OneMore.{with_one_more};

use dp_count::{Items, NoMemory};
use std::alloc::Global;

/// So many lists without elements, as for the elements of each text among categories.
pub fn empty_lists<T: Drop>(alloc: Global, count: u32) -> Result<Vec<Items<T>>, NoMemory>
    ensures { IfOk result (λ lists. lists.items ≡ replicate count []) }
{
    let mut lists = Vec::new(alloc);
    for _turn in 0..count {
        lists.push(Items::new(alloc))?;
    }
    Ok(lists)
}

/// Appends an element to the list at the place, from 0. It is dropped where there is no such list.
pub fn put<T: Drop>(lists: &mut Vec<Items<T>>, place: usize, element: T) -> Result<(), NoMemory>
    requires { All (λ list. length list < 2 ^ 32) lists.old.items }
    ensures { OnOk result (lists.new.items ≡ with_one_more place element lists.old.items) }
{
    if place < lists.len() {
        lists[place].push(element)?;
    }
    Ok(())
}
