ghost use Rattle.std.specs.Prelude.{◌≡◌, ◌≤◌, IfOk, length};
ghost use Rattle.dp_records.specs.RawRecords.{raw_up_to};

use crate::text_reader::{no_memory, text_reader};
use csv::ByteRecord;
use dp_count::NoMemory;
use std::alloc::Global;

/// How many records a text may have; no record after these is read.
pub const MOST_RECORDS: u64 = 1 << 30;

/// How many of the first `most` CSV records a text has. The records may differ in their numbers of cells.
pub fn count_records(alloc: Global, text: &[u8], most: u64) -> Result<u64, NoMemory>
    ensures records { IfOk result (λ n. n ≡ length (raw_up_to most text.now)) }
    ensures within { IfOk result (λ n. n ≤ most) }
{
    let mut reader = text_reader(alloc, text);
    let mut row = ByteRecord::new(alloc);
    for count in 0..most {
        match reader.read_byte_record(&mut row) {
            Ok(true) => {}
            Ok(false) => return Ok(count),
            Err(error) => return Err(no_memory(error.into_kind())),
        }
    }
    Ok(most)
}
