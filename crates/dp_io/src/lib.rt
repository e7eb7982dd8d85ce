//! Files and outputs: the traits of what is read and of what is written, the loops that read and write whole, the
//! reader of lines, objects in memory that fail at stated calls, and the adapters over real files and the standard
//! streams.
#![tactic(auto)]

mod calls;
mod faults;
mod file_shelf;
mod lines;
mod mem_shelf;
mod mem_sink;
mod read_buffer;
mod retrying;
mod shelf;
mod sink;
mod slot;
mod std_sink;
mod whole;

pub use faults::{LineFault, OpenFault, WholeFault};
pub use file_shelf::FileShelf;
pub use lines::Lines;
pub use mem_shelf::MemShelf;
pub use mem_sink::MemSink;
pub use shelf::Shelf;
pub use sink::{Sink, write_all};
pub use slot::Slot;
pub use std_sink::StdSink;
pub use whole::read_whole;

#[cfg(test)]
mod tests;
