ghost use Rattle.std.specs.Prelude.{◌≡◌, IfOk};
ghost use Rattle.dp_store.specs.Held.{held_value, IsHeld};

use crate::selection::Selection;
use crate::store::Store;
use dp_count::NoMemory;
use dp_domain::Value;
use std::alloc::Global;

/// What is held of a value that a line gives of records: a selection of them, or a value of another kind.
#[derive(Debug, Drop)]
pub enum Held {
    /// Records, by their numbers.
    Chosen(Selection),
    /// A value of another kind.
    Plain(Value),
}

impl Held {
    /// The value that is held, in memory of its own.
    pub(crate) fn into_value(self, alloc: Global, store: &Store) -> Result<Value, NoMemory>
        requires { IsHeld store.now.records self }
        ensures { IfOk result (λ v. v ≡ held_value store.now.records self) }
    {
        match self {
            Held::Chosen(chosen) => store.rows(alloc, &chosen),
            Held::Plain(v) => Ok(v),
        }
    }
}
