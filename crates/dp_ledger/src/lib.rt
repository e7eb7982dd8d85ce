//! A total of units that survives a crash: the trait of a disk and what a crash may leave of it, a disk in memory that
//! fails at stated calls, the adapter over a real file, and the ledger, which keeps its total through a crash at any
//! moment.
#![tactic(auto)]

mod blanks;
mod calls;
mod disk;
mod faults;
mod file_disk;
mod image;
mod ledger;
mod mem_disk;
mod settle;
mod slot;
mod steps;

pub use disk::Disk;
pub use faults::{ChargeFault, CreateFault, OpenLedgerFault};
pub use file_disk::FileDisk;
pub use ledger::Ledger;
pub use mem_disk::MemDisk;

#[cfg(test)]
mod tests;
