ghost use Rattle.std.specs.Prelude.{◌≡◌, ℕ, ◌+◌, ◌<◌, ◌≤◌, ◌≢◌, ◌⊎◌, ◌==◌, ◌||◌, [], true, false, length, position, nat_lt, Ok, Err, IfOk, OnOk, OnErr, option_map};
ghost use Rattle.std.specs.List.{list_any, position_or_len};
ghost use Rattle.std.specs.Option.{ForSome};
ghost use Rattle.dp_count.specs.Faults.{Rose, HasCause};
ghost use Rattle.dp_io.specs.Shelf.{IsEmptied};
ghost use Rattle.dp_io.specs.Lines.{is_line_feed, first_line, after_first_line, remaining, needs_read, ReadsAhead};

use crate::read_buffer::ReadBuffer;
use crate::{LineFault, Shelf, Slot};
use dp_count::{Failed, NoMemory};
use std::alloc::Global;
use std::marker::Model;

/// How many bytes a line has at most.
const MOST_LINE_BYTES: usize = 65_536;

/// A reader of the lines of an open slot. Lines end with a line feed; a last line without one counts, and
/// an empty rest after the last line feed is no line.
///
/// It keeps what it read past a line for the next one, and reads from the slot only while the bytes that it
/// keeps have no line feed and no read came to the end. The work is linear in the bytes.
#[derive(Debug, Drop)]
pub struct Lines {
    slot: Slot,
    // the last line, its line feed, and the bytes read ahead of it
    buffer: ReadBuffer,
    line_bytes: usize,
    given_bytes: usize,
    // how many of the bytes read ahead are known to be no line feeds
    searched: usize,
    at_end: bool,
}

impl Model for Lines {
    ghost use Rattle.std.specs.Prelude.{◌≡◌, ◌+◌, ◌≤◌, false, length, take, drop};
    ghost use Rattle.std.specs.List.{list_any};
    ghost use Rattle.dp_io.specs.Lines.{LinesValue, is_line_feed};

    ghost Value = { LinesValue };

    ghost view = { λ lines. record {
      slot = lines.slot;
      line = take lines.line_bytes lines.buffer;
      read_ahead = drop lines.given_bytes lines.buffer;
      at_end = lines.at_end;
    } };

    ghost invariant = { λ lines. (lines.line_bytes ≤ length lines.buffer)
        × (lines.given_bytes + lines.searched ≤ length lines.buffer)
        × (list_any is_line_feed (take lines.searched (drop lines.given_bytes lines.buffer)) ≡ false) };
}

impl Lines {
    /// A reader of the lines of what is left of that slot. Takes all the memory that later calls use.
    pub fn new(alloc: Global, slot: Slot) -> Result<Lines, NoMemory>
        ensures { IfOk result (λ lines. lines
            ≡ record { slot = slot; line = []; read_ahead = []; at_end = false }) }
    {
        Ok(Lines {
            slot,
            buffer: ReadBuffer::new(alloc)?,
            line_bytes: 0,
            given_bytes: 0,
            searched: 0,
            at_end: false,
        })
    }

    /// The line that the last call of `next` read, without its line feed: at most 65,536 bytes. It is empty
    /// where that call read none.
    pub fn line(&self) -> &[u8]
        ensures { result.now ≡ self.now.line }
    {
        &self.buffer.as_slice()[..self.line_bytes]
    }

    /// Reads the next line, and answers false where nothing remains. Takes no memory.
    ///
    /// `TooLong` comes exactly where the line has more than 65,536 bytes and no read failed. `Failed` comes
    /// only where the shelf's count of faults rose. After either the same text remains as before the call,
    /// and after `Failed` every whole line that was read has been given. A line without a line feed is given only
    /// after a read that came to the end.
    pub fn next<S: Shelf>(&mut self, shelf: &mut S) -> Result<bool, LineFault>
        requires { self.old.slot < S.slots shelf.old }
        ensures more { IfOk result (λ more.
            ForSome (remaining self.old (S.left shelf.old self.old.slot))
            (λ text. more ≡ nat_lt 0 (length text))) }
        ensures line { OnOk result (ForSome (remaining self.old (S.left shelf.old self.old.slot))
            (λ text. self.new.line ≡ first_line text)) }
        ensures rest { OnOk result (remaining self.new (S.left shelf.new self.old.slot)
            ≡ option_map after_first_line (remaining self.old (S.left shelf.old self.old.slot))) }
        ensures short { length self.new.line ≤ 65536 }
        ensures no_line_feed { list_any is_line_feed self.new.line ≡ false }
        ensures no_line { result ≢ Ok true → self.new.line ≡ [] }
        ensures none { result ≡ Ok false → (self.new.read_ahead ≡ []) × (self.new.at_end ≡ true) }
        ensures too_long { result ≡ Err LineFault.TooLong
            → ForSome (remaining self.old (S.left shelf.old self.old.slot))
            (λ text. 65536 < length (first_line text)) }
        ensures long_ahead { result ≡ Err LineFault.TooLong
            → 65536 < length (first_line self.new.read_ahead) }
        ensures kept { OnErr result (remaining self.new (S.left shelf.new self.old.slot)
            ≡ remaining self.old (S.left shelf.old self.old.slot)) }
        ensures failed_ahead { result ≡ Err LineFault.Failed → needs_read self.new ≡ true }
        ensures unended { result ≡ Ok true → ForSome (remaining self.old (S.left shelf.old self.old.slot))
            (λ text. list_any is_line_feed text ≡ false → self.new.at_end ≡ true) }
        ensures same_slot { self.new.slot ≡ self.old.slot }
        ensures end { self.new.at_end ≡ true
            → ((self.old.at_end ≡ true) ⊎ IsEmptied (S.left shelf.new self.old.slot)) }
        ensures end_stays { self.old.at_end ≡ true → self.new.at_end ≡ true }
        ensures no_read { needs_read self.old ≡ false → shelf.new ≡ shelf.old }
        ensures later { S.faults shelf.old ≤ S.faults shelf.new }
        ensures no_fault { result ≢ Err LineFault.Failed → S.faults shelf.new ≡ S.faults shelf.old }
        ensures cause { result ≡ Err LineFault.Failed → Rose (S.faults shelf.old) (S.faults shelf.new) }
        ensures others { (n : ℕ) → n ≢ self.old.slot → S.left shelf.new n ≡ S.left shelf.old n }
        ensures same_files { S.files shelf.new ≡ S.files shelf.old }
        ensures same_slots { S.slots shelf.new ≡ S.slots shelf.old }
    {
        'pieces: loop {
            let end = self.first_line_end();
            if end > MOST_LINE_BYTES {
                self.drop_line();
                return Err(LineFault::TooLong);
            }
            if self.is_line_end(end) {
                return Ok(self.take_line(end));
            }
            self.read_ahead(shelf)?;
        }
    }

    /// Whether a line ends at that place of the bytes read ahead; else it may go on in what is left.
    fn is_line_end(&self, place: usize) -> bool
        ensures { result ≡ (self.now.at_end || nat_lt place (length self.now.read_ahead)) }
    {
        self.at_end || place < self.buffer.len() - self.given_bytes
    }

    /// The place of the first line feed of the bytes read ahead, or their number where they have none.
    fn first_line_end(&mut self) -> usize
        ensures place { result ≡ position_or_len is_line_feed self.old.read_ahead }
        ensures same { self.new ≡ self.old }
    {
        let unsearched = &self.buffer.as_slice()[self.given_bytes + self.searched..];
        let more = line_end(unsearched);
        self.searched += more;
        self.searched
    }

    /// Lets the last line go.
    fn drop_line(&mut self)
        ensures { self.new ≡ record self.old { line = [] } }
    {
        self.line_bytes = 0;
    }

    /// Takes the first line of the bytes read ahead, which ends at that place, and its line feed, where it
    /// has one. Answers whether there was any byte.
    fn take_line(&mut self, end: usize) -> bool
        requires { end ≡ position_or_len is_line_feed self.old.read_ahead }
        ensures more { result ≡ nat_lt 0 (length self.old.read_ahead) }
        ensures line { self.new ≡ record self.old {
          line = first_line self.old.read_ahead;
          read_ahead = after_first_line self.old.read_ahead;
        } }
    {
        self.buffer.drop_front(self.given_bytes);
        let ahead = self.buffer.len();
        self.line_bytes = end;
        self.given_bytes = (end + 1).min(ahead);
        self.searched = 0;
        ahead > 0
    }

    /// Lets the last line go, and reads the next bytes of the slot.
    fn read_ahead<S: Shelf>(&mut self, shelf: &mut S) -> Result<(), Failed>
        requires open { self.old.slot < S.slots shelf.old }
        requires room { length self.old.read_ahead < 131072 }
        ensures ahead { OnOk result
            (ReadsAhead (S.left shelf.old self.old.slot) (S.left shelf.new self.old.slot) self.old self.new) }
        ensures refused { OnErr result (self.new ≡ record self.old { line = [] }) }
        ensures kept { OnErr result (S.left shelf.new self.old.slot ≡ S.left shelf.old self.old.slot) }
        ensures others { (n : ℕ) → n ≢ self.old.slot → S.left shelf.new n ≡ S.left shelf.old n }
        ensures same_files { S.files shelf.new ≡ S.files shelf.old }
        ensures same_slots { S.slots shelf.new ≡ S.slots shelf.old }
        ensures cause { HasCause (S.faults shelf.old) (S.faults shelf.new) result }
    {
        self.buffer.drop_front(self.given_bytes);
        self.line_bytes = 0;
        self.given_bytes = 0;
        let n = self.buffer.read(shelf, self.slot)?;
        self.at_end = n == 0;
        Ok(())
    }
}

/// The place of the first line feed, or the number of bytes where there is none.
fn line_end(bytes: &[u8]) -> usize
    ensures { result ≡ position_or_len is_line_feed bytes.now }
{
    line_feed(bytes).unwrap_or(bytes.len())
}

/// The place of the first line feed.
fn line_feed(bytes: &[u8]) -> Option<usize>
    ensures { result ≡ position is_line_feed bytes.now }
{
    bytes.iter().position(|byte| *byte == b'\n')
}
