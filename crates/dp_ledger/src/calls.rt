ghost use Rattle.std.specs.Prelude.{◌≡◌, ◌+◌, ◌<◌, ◌≤◌, length, vec_capacity};
ghost use Rattle.dp_ledger.specs.Made.{change_of};
ghost use Rattle.dp_ledger.specs.MemDisk.{noted};

use std::marker::Model;

/// What a call made of a disk in memory.
#[derive(Debug, Drop)]
pub(crate) enum Made {
    /// The bytes were put at the place.
    Written { at: u64, bytes: Vec<u8> },
    /// A write of as many bytes failed.
    Torn { at: u64, size: usize },
    /// A sync kept the content.
    Synced,
    /// A read, or a sync that failed.
    Nothing,
}

/// The record of a call of a disk in memory.
#[derive(Debug, Drop)]
pub(crate) struct Call {
    made: Made,
}

impl Model for Call {
    ghost use Rattle.dp_ledger.specs.MemDisk.{Change};
    ghost use Rattle.dp_ledger.specs.Made.{change_of};

    ghost Value = { Change };

    ghost view = { λ call. change_of call.made };
}

/// Adds the record of a call, where there is room for it.
pub(crate) fn note(records: &mut Vec<Call>, calls: u64, made: Made)
    requires { calls ≤ vec_capacity records.old }
    ensures noted { records.new.items ≡ noted calls records.old.items (change_of made) }
    ensures capacity { vec_capacity records.old ≤ vec_capacity records.new }
{
    if (records.len() as u64) < calls {
        records.push(Call { made }).unwrap();
    }
}
