ghost use Rattle.std.specs.Prelude.{◌≡◌, ℕ, ◌+◌, ◌^◌, ◌<◌, ◌≤◌, ◌≢◌, ◌⊎◌, List, length, Option, Err, IfOk, OnOk, OnErr};
ghost use Rattle.dp_count.specs.Faults.{Rose, HasCause};
ghost use Rattle.dp_io.specs.Shelf.{Files, StartsFile, TakesNext, LacksFile};

use crate::{OpenFault, Slot};
use dp_count::Failed;
use std::alloc::Global;

/// Files that are opened by name and read from front to end. No call closes a slot or changes a file.
pub trait Shelf {
    // the bytes of the files by name, where the shelf tells them
    ghost files: { Self → Option Files };

    // what is left of the slot of that number, where the shelf tells it
    ghost left: { Self → ℕ → Option (List ℕ) };

    // how many slots are open: they have the numbers below it, in the order of opening
    ghost slots: { Self → ℕ };

    // how many calls failed; it never falls, and stands still at 2 ^ 64 - 1
    ghost faults: { Self → ℕ };

    /// Opens the file of that name in a new slot, with the whole file left of it.
    ///
    /// `Failed` comes only where the count of faults rose, or where the shelf tells its files and lacks that name.
    fn open(&mut self, alloc: Global, name: &str) -> Result<Slot, OpenFault>
        ensures slot { IfOk result (λ slot. slot ≡ slots self.old) }
        ensures opened { OnOk result (slots self.new ≡ slots self.old + 1) }
        ensures starts { IfOk result (λ slot. StartsFile (files self.old) name.now (left self.new slot)) }
        ensures refused { OnErr result (slots self.new ≡ slots self.old) }
        ensures same_files { files self.new ≡ files self.old }
        ensures others { (n : ℕ) → n < slots self.old → left self.new n ≡ left self.old n }
        ensures kept { OnErr result ((n : ℕ) → left self.new n ≡ left self.old n) }
        ensures later { faults self.old ≤ faults self.new }
        ensures no_fault { OnOk result (faults self.new ≡ faults self.old) }
        ensures cause { result ≡ Err OpenFault.Failed
            → (Rose (faults self.old) (faults self.new) ⊎ LacksFile (files self.old) name.now) };

    /// Moves the next bytes of what is left of an open slot into a buffer that is not empty, and gives their number,
    /// at most the buffer's length. 0 means the end.
    ///
    /// `Failed` comes only where the count of faults rose, and leaves the slot as it was.
    fn read(&mut self, slot: Slot, buf: &mut [u8]) -> Result<usize, Failed>
        requires open { slot < slots self.old }
        requires room { 0 < length buf.old }
        ensures takes { IfOk result (λ n. TakesNext (left self.old slot) (left self.new slot) n buf.new) }
        ensures fits { IfOk result (λ n. n ≤ length buf.old) }
        ensures kept { OnErr result (left self.new slot ≡ left self.old slot) }
        ensures others { (n : ℕ) → n ≢ slot → left self.new n ≡ left self.old n }
        ensures same_files { files self.new ≡ files self.old }
        ensures same_slots { slots self.new ≡ slots self.old }
        ensures cause { HasCause (faults self.old) (faults self.new) result };

    ghost bounded: { (shelf : Self) → faults shelf < 2 ^ 64 };
}
