ghost use Rattle.std.specs.Prelude.{◌≡◌, ◌<◌, length, slice_index_or, IfOk};
ghost use Rattle.std.specs.List.{range_with_len};

use dp_count::NoMemory;
use std::alloc::{AllocError, Global};
use std::marker::Model;
use std::rc::RcSlice;

/// Numbers of records, in order. A copy shares them.
#[derive(Debug, Drop)]
pub struct Selection {
    numbers: Numbers,
}

/// All numbers below one, which are not listed, or these.
#[derive(Debug, Drop)]
enum Numbers {
    All(u32),
    These(RcSlice<u32>),
}

impl Model for Selection {
    ghost use Rattle.std.specs.Prelude.{ℕ, List};

    ghost Value = { List ℕ };

    ghost use Rattle.dp_store.specs.Selections.{numbers_of};

    ghost view = { λ s. numbers_of s.numbers };
}

impl Selection {
    /// All numbers below `count`, in order. It takes no memory.
    pub(crate) fn all(count: u32) -> Selection
        ensures { result ≡ range_with_len 0 count }
    {
        Selection {
            numbers: Numbers::All(count),
        }
    }

    /// These numbers.
    pub(crate) fn these(numbers: Vec<u32>) -> Result<Selection, NoMemory>
        ensures { IfOk result (λ selection. selection ≡ numbers.items) }
    {
        Ok(Selection {
            numbers: Numbers::These(RcSlice::from_vec(numbers)?),
        })
    }

    /// How many numbers there are.
    pub fn len(&self) -> u64
        ensures { result ≡ length self.now }
    {
        match &self.numbers {
            Numbers::All(count) => u64::from(*count),
            Numbers::These(shared) => shared.len() as u64,
        }
    }

    /// The number at place `k`, from 0.
    pub fn at(&self, k: u64) -> u32
        requires { k < length self.now }
        ensures { result ≡ slice_index_or self.now k 0 }
    {
        match &self.numbers {
            Numbers::All(count) => {
                let _count = *count;
                k as u32
            }
            Numbers::These(shared) => shared.as_slice()[k as usize],
        }
    }
}

impl Clone for Selection {
    ghost use Rattle.std.specs.Prelude.{◌≡◌};

    ghost is_clone = { λ one copy. copy ≡ one };

    fn clone(&self) -> Result<Selection, AllocError> {
        let numbers = match &self.numbers {
            Numbers::All(count) => Numbers::All(*count),
            Numbers::These(shared) => Numbers::These(shared.clone()?),
        };
        Ok(Selection { numbers })
    }
}
