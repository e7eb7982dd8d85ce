ghost use Rattle.std.specs.Prelude.{◌≡◌, ◌≢◌, ◌+◌, ◌≤◌, ◌^◌, OnOk, Err};
ghost use Rattle.dp_runner.specs.Causes.{Answers, Kept};
ghost use Rattle.dp_runner.specs.Pipelines.{pipeline_text, pipeline_at};

use crate::stop::Stop;
use dp_io::{Shelf, WholeFault, read_whole};
use dp_pipeline::{Pipeline, read_pipeline};
use std::alloc::Global;

/// The greatest length of a pipeline's text, in bytes.
const MOST_PIPELINE: u64 = 1 << 20;

/// The number with which a longer text is refused.
const TOO_LONG: u8 = 9;

/// The pipeline of a file. Its text is refused with a number, or accepted.
pub(crate) fn pipeline_of<S: Shelf>(
    alloc: Global,
    shelf: &mut S,
    name: &str,
) -> Result<Pipeline, Stop>
    ensures answers { Answers result (λ pipeline. pipeline) (S.files shelf.old) (λ files. pipeline_at files name.now)
        (S.faults shelf.old) (S.faults shelf.new) }
    ensures no_draw_fault { result ≢ Err Stop.DrawFault }
    ensures later { S.faults shelf.old ≤ S.faults shelf.new }
    ensures kept { Kept result (S.faults shelf.old) (S.faults shelf.new) }
    ensures opens { S.slots shelf.new ≤ S.slots shelf.old + 1 }
    ensures opened { OnOk result (S.slots shelf.new ≡ S.slots shelf.old + 1) }
    ensures same_files { S.files shelf.new ≡ S.files shelf.old }
{
    let text = read_text(alloc, shelf, name)?;
    Ok(read_pipeline(alloc, text.as_slice())?)
}

/// The text of a pipeline's file, if it has at most 2^20 bytes.
fn read_text<S: Shelf>(alloc: Global, shelf: &mut S, name: &str) -> Result<Vec<u8>, Stop>
    ensures answers { Answers result (λ text. text.items) (S.files shelf.old) (λ files. pipeline_text files name.now)
        (S.faults shelf.old) (S.faults shelf.new) }
    ensures no_draw_fault { result ≢ Err Stop.DrawFault }
    ensures later { S.faults shelf.old ≤ S.faults shelf.new }
    ensures kept { Kept result (S.faults shelf.old) (S.faults shelf.new) }
    ensures opens { S.slots shelf.new ≤ S.slots shelf.old + 1 }
    ensures opened { OnOk result (S.slots shelf.new ≡ S.slots shelf.old + 1) }
    ensures same_files { S.files shelf.new ≡ S.files shelf.old }
{
    let slot = shelf.open(alloc, name)?;
    match read_whole(alloc, shelf, slot, MOST_PIPELINE) {
        Ok(text) => Ok(text),
        Err(WholeFault::TooLong) => Err(Stop::Pipeline(TOO_LONG)),
        Err(fault) => Err(Stop::from(fault)),
    }
}
