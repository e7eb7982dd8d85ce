ghost use Rattle.std.specs.Prelude.{◌≡◌, IfOk};

use crate::duplicate::Duplicate;
use crate::lists::{Cats, Cells, Ints, OptInts, Rows, Texts};
use dp_count::NoMemory;
use std::alloc::Global;

/// A value that a transformation or a measurement takes or gives.
#[derive(Debug, Drop)]
pub enum Value {
    /// Records, each a list of cells.
    Rows(Rows),
    /// Texts.
    Texts(Texts),
    /// Numbers, some of them missing.
    OptInts(OptInts),
    /// Numbers.
    Ints(Ints),
    /// Category numbers.
    Cats(Cats),
    /// One number.
    Int(i64),
    /// One category number.
    Cat(u32),
    /// A vector of numbers.
    IntVec(Cells),
}

impl Value {
    /// An equal value in memory of its own.
    pub fn copy(&self, alloc: Global) -> Result<Value, NoMemory>
        ensures { IfOk result (λ copy. copy ≡ self.now) }
    {
        match self {
            Value::Rows(rows) => Ok(Value::Rows(rows.duplicate(alloc)?)),
            Value::Texts(texts) => Ok(Value::Texts(texts.duplicate(alloc)?)),
            Value::OptInts(ints) => Ok(Value::OptInts(ints.duplicate(alloc)?)),
            Value::Ints(ints) => Ok(Value::Ints(ints.duplicate(alloc)?)),
            Value::Cats(cats) => Ok(Value::Cats(cats.duplicate(alloc)?)),
            Value::Int(int) => Ok(Value::Int(*int)),
            Value::Cat(cat) => Ok(Value::Cat(*cat)),
            Value::IntVec(cells) => Ok(Value::IntVec(cells.duplicate(alloc)?)),
        }
    }
}
