//! The records of a data text, as the crate `csv` reads it: how many there are, and each cut or padded to a number of
//! columns, as a value or with all cells in one buffer.
#![tactic(auto)]

mod cells;
mod faults;
pub mod laws;
mod packed;
mod records;
mod tally;
mod text_reader;

pub use cells::{cells_of, read_cells};
pub use faults::DataFault;
pub use packed::Packed;
pub use records::{read_records, records_of};
pub use tally::{MOST_RECORDS, count_records};

#[cfg(test)]
mod tests;
