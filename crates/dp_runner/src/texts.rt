ghost use Rattle.std.specs.Prelude.{◌≡◌, ◌+◌, ◌≤◌, OnOk};
ghost use Rattle.dp_runner.specs.Causes.{Answers, Kept};
ghost use Rattle.dp_runner.specs.Texts.{file_text, drawn};

use crate::stop::Stop;
use dp_draws::{Draws, Replay, read_draws};
use dp_io::{Shelf, read_whole};
use std::alloc::Global;

/// The greatest length of a data file, in bytes.
pub(crate) const MOST_DATA: u64 = 1 << 30;

/// The greatest length of a file of draws, in bytes.
const MOST_DRAWS: u64 = 1 << 26;

/// The source of the numbers that a file of draws spells.
pub(crate) fn read_replay<S: Shelf>(
    alloc: Global,
    shelf: &mut S,
    name: &str,
) -> Result<Replay, Stop>
    ensures answers { Answers result ⟦<Replay as Draws>⟧.state (S.files shelf.old) (λ files. drawn files name.now)
        (S.faults shelf.old) (S.faults shelf.new) }
    ensures later { S.faults shelf.old ≤ S.faults shelf.new }
    ensures kept { Kept result (S.faults shelf.old) (S.faults shelf.new) }
    ensures opens { S.slots shelf.new ≤ S.slots shelf.old + 1 }
    ensures opened { OnOk result (S.slots shelf.new ≡ S.slots shelf.old + 1) }
    ensures same_files { S.files shelf.new ≡ S.files shelf.old }
{
    let text = read_file(alloc, shelf, name, MOST_DRAWS)?;
    Ok(read_draws(alloc, text.as_slice())?)
}

/// The whole text of a file of at most `most` bytes.
pub(crate) fn read_file<S: Shelf>(
    alloc: Global,
    shelf: &mut S,
    name: &str,
    most: u64,
) -> Result<Vec<u8>, Stop>
    ensures answers { Answers result (λ text. text.items) (S.files shelf.old) (λ files. file_text files name.now most)
        (S.faults shelf.old) (S.faults shelf.new) }
    ensures later { S.faults shelf.old ≤ S.faults shelf.new }
    ensures kept { Kept result (S.faults shelf.old) (S.faults shelf.new) }
    ensures opens { S.slots shelf.new ≤ S.slots shelf.old + 1 }
    ensures opened { OnOk result (S.slots shelf.new ≡ S.slots shelf.old + 1) }
    ensures same_files { S.files shelf.new ≡ S.files shelf.old }
{
    let slot = shelf.open(alloc, name)?;
    Ok(read_whole(alloc, shelf, slot, most)?)
}
