ghost use Rattle.std.specs.Prelude.{◌≡◌, IfOk};

use dp_count::NoMemory;
use dp_domain::{Duplicate, Ints, Items, Text, Texts};
use std::alloc::Global;

/// The parameters of a transformation. Columns are numbers from 0.
#[derive(Debug, Drop)]
pub enum Stage {
    /// The records whose cell in the column is the text.
    Filter {
        /// The column.
        column: u32,
        /// The text.
        text: Text,
    },
    /// The cell in the column of each record.
    Select {
        /// The column.
        column: u32,
    },
    /// Each text as a number, where it spells one.
    Cast,
    /// The place of each text in a list.
    Categories {
        /// The list.
        texts: Texts,
    },
    /// A number for each missing one.
    Impute {
        /// The number.
        value: i64,
    },
    /// The numbers that are there.
    DropNone,
    /// Each number brought into a range.
    Clamp {
        /// The least number of the range.
        lo: i64,
        /// The greatest number of the range.
        hi: i64,
    },
    /// For each number, how many edges are at most it.
    Bins {
        /// The edges.
        edges: Ints,
    },
    /// The least numbers in rising order, filled up to a size.
    Resize {
        /// The size.
        size: u64,
        /// What the list is filled up with.
        fill: i64,
    },
    /// The length.
    Count,
    /// The sum.
    Sum,
    /// How many elements each category has.
    Histogram,
    /// A number in whole steps, rounded down.
    Quantise {
        /// The step.
        step: u64,
    },
    /// How many edges are at most a number.
    AtLeast {
        /// The edges.
        edges: Ints,
    },
    /// The least records of each person.
    Truncate {
        /// How many of each.
        most: u64,
    },
}

/// Stages in order.
pub type Stages = Items<Stage>;

impl Duplicate for Stage {
    fn duplicate(&self, alloc: Global) -> Result<Stage, NoMemory> {
        copy_of(alloc, self)
    }

    fn duplicate_all(alloc: Global, items: &[Stage]) -> Result<Vec<Stage>, NoMemory> {
        let mut copies = Vec::with_capacity(alloc, items.len())?;
        for item in items {
            copies.push(copy_of(alloc, item)?)?;
        }
        Ok(copies)
    }
}

/// An equal stage in memory of its own.
fn copy_of(alloc: Global, stage: &Stage) -> Result<Stage, NoMemory>
    ensures { IfOk result (λ copy. copy ≡ stage.now) }
{
    Ok(match stage {
        Stage::Filter { column, text } => Stage::Filter {
            column: *column,
            text: text.duplicate(alloc)?,
        },
        Stage::Select { column } => Stage::Select { column: *column },
        Stage::Cast => Stage::Cast,
        Stage::Categories { texts } => Stage::Categories {
            texts: texts.duplicate(alloc)?,
        },
        Stage::Impute { value } => Stage::Impute { value: *value },
        Stage::DropNone => Stage::DropNone,
        Stage::Clamp { lo, hi } => Stage::Clamp { lo: *lo, hi: *hi },
        Stage::Bins { edges } => Stage::Bins {
            edges: edges.duplicate(alloc)?,
        },
        Stage::Resize { size, fill } => Stage::Resize {
            size: *size,
            fill: *fill,
        },
        Stage::Count => Stage::Count,
        Stage::Sum => Stage::Sum,
        Stage::Histogram => Stage::Histogram,
        Stage::Quantise { step } => Stage::Quantise { step: *step },
        Stage::AtLeast { edges } => Stage::AtLeast {
            edges: edges.duplicate(alloc)?,
        },
        Stage::Truncate { most } => Stage::Truncate { most: *most },
    })
}
