ghost use Rattle.std.specs.Prelude.{ℕ};
ghost use Rattle.csv.specs.declared.error.ErrorKind.{ErrorKind};
ghost use Rattle.dp_records.specs.RawRecords.{raw_up_to, IsOfReader};
ghost use Rattle.dp_records.specs.TextReader.{Gives};

use csv::{ErrorKind, Reader, ReaderBuilder};
use dp_count::NoMemory;
use std::alloc::Global;

/// A reader of the CSV records of a text, which may differ in their numbers of cells.
pub(crate) fn text_reader(alloc: Global, text: &[u8]) -> Reader<&[u8]>
    ensures { (most : ℕ) → Gives result most (raw_up_to most text.now) }
{
    ReaderBuilder::new()
        .has_headers(false)
        .flexible(true)
        .from_reader(alloc, text)
}

/// The fault of a reader over bytes in memory, which has no other than want of memory.
pub(crate) fn no_memory(kind: ErrorKind) -> NoMemory
    requires { IsOfReader kind }
{
    match kind {
        ErrorKind::Io(_) | ErrorKind::OutOfMemory => NoMemory,
        _ => unreachable!(),
    }
}
