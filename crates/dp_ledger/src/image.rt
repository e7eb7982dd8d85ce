ghost use Rattle.std.specs.Prelude.{◌≡◌, ◌+◌, ◌<◌, ◌≤◌, length, option_map, IfSome, IsTrue};
ghost use Rattle.std.specs.Int.{w32, w64};
ghost use Rattle.dp_ledger.specs.Image.{number_at, entry_at, is_open, other, counted, greatest, current_of, is_of, ledger_total, current_slot, place_of, new_image};

use crate::slot::Slot;
use dp_num::{MOST_UNITS, Ratio};

/// How many bytes an image has.
pub(crate) const SIZE: usize = 26;

/// What a slot holds.
#[derive(Clone, Copy, Debug)]
pub(crate) struct Entry {
    pub(crate) total: u64,
    pub(crate) gate: u8,
}

impl Entry {
    /// Whether the gate is open.
    fn is_open(self) -> bool
        ensures { result ≡ is_open self }
    {
        self.gate == 1
    }

    /// Its total, where it counts.
    #[tactic(auto, unfolding(crate::specs::Image::counted))]
    fn counted(self) -> Option<u64>
        ensures { result ≡ counted self }
    {
        if self.is_open() && self.total <= MOST_UNITS {
            return Some(self.total);
        }
        None
    }
}

/// What a ledger knows of its image.
#[derive(Clone, Copy, Debug)]
pub(crate) struct Reading {
    pub(crate) total: u64,
    pub(crate) current: Slot,
    pub(crate) other_open: bool,
}

/// The number of four bytes, the lowest first.
#[tactic(auto, unfolding(crate::specs::Image::number_at))]
fn short_at(bytes: &[u8], at: usize) -> u32
    requires { at + 4 ≤ length bytes.now }
    ensures { result ≡ number_at w32 at bytes.now }
{
    let b = &bytes[at..at + 4];
    u32::from_le_bytes([b[0], b[1], b[2], b[3]])
}

/// The number of eight bytes, the lowest first.
#[tactic(auto, unfolding(crate::specs::Image::number_at))]
fn long_at(bytes: &[u8], at: usize) -> u64
    requires { at + 8 ≤ length bytes.now }
    ensures { result ≡ number_at w64 at bytes.now }
{
    let b = &bytes[at..at + 8];
    u64::from_le_bytes([b[0], b[1], b[2], b[3], b[4], b[5], b[6], b[7]])
}

/// What the bytes have in a slot.
#[tactic(auto, unfolding(crate::specs::Image::entry_at))]
fn entry_at(slot: Slot, bytes: &[u8]) -> Entry
    requires { length bytes.now ≡ 26 }
    ensures { result ≡ entry_at slot bytes.now }
{
    let place = slot.place();
    Entry {
        total: long_at(bytes, place),
        gate: bytes[place + 8],
    }
}

/// Whether the bytes are as many as an image has, and begin with the numbers of the ratio.
#[tactic(auto, unfolding(crate::specs::Image::is_of))]
fn is_of(ratio: &Ratio, bytes: &[u8]) -> bool
    ensures meaning { result ≡ is_of ratio.now bytes.now }
    ensures size { IsTrue result → length bytes.now ≡ 26 }
{
    bytes.len() == SIZE
        && u64::from(short_at(bytes, 0)) == ratio.p
        && u64::from(short_at(bytes, 4)) == ratio.q
}

/// What a ledger knows of two slots, where one counts.
fn read_slots(first: Entry, second: Entry) -> Option<Reading>
    ensures total { option_map (λ r. r.total) result ≡ greatest (counted first) (counted second) }
    ensures current { IfSome result (λ r. r.current ≡ current_of (counted first) (counted second)) }
    ensures first { IfSome result (λ r. r.current ≡ Slot.First → r.other_open ≡ is_open second) }
    ensures second { IfSome result (λ r. r.current ≡ Slot.Second → r.other_open ≡ is_open first) }
{
    let (total, current) = match (first.counted(), second.counted()) {
        (None, None) => return None,
        (Some(total), None) => (total, Slot::First),
        (None, Some(total)) => (total, Slot::Second),
        (Some(a), Some(b)) if a < b => (b, Slot::Second),
        (Some(a), Some(_)) => (a, Slot::First),
    };
    let other_open = match current {
        Slot::First => second.is_open(),
        Slot::Second => first.is_open(),
    };
    Some(Reading {
        total,
        current,
        other_open,
    })
}

/// What a ledger of the ratio knows of the bytes; none where they are no ledger of it.
#[tactic(auto, unfolding(crate::specs::Image::ledger_total, crate::specs::Image::current_slot))]
pub(crate) fn read_image(ratio: &Ratio, bytes: &[u8]) -> Option<Reading>
    ensures total { option_map (λ r. r.total) result ≡ ledger_total ratio.now bytes.now }
    ensures current { IfSome result (λ r. r.current ≡ current_slot bytes.now) }
    ensures other_gate { IfSome result (λ r. r.other_open ≡ is_open (entry_at (other r.current) bytes.now)) }
{
    if !is_of(ratio, bytes) {
        return None;
    }
    read_slots(entry_at(Slot::First, bytes), entry_at(Slot::Second, bytes))
}

/// The bytes of a new ledger of the ratio: the total 0 with an open gate, and an empty slot.
#[tactic(auto, unfolding(crate::specs::Image::new_image))]
pub(crate) fn new_image(ratio: &Ratio) -> [u8; SIZE]
    ensures { result ≡ new_image ratio.now }
{
    let [p0, p1, p2, p3] = (ratio.p as u32).to_le_bytes();
    let [q0, q1, q2, q3] = (ratio.q as u32).to_le_bytes();
    [
        p0, p1, p2, p3, q0, q1, q2, q3, 0, 0, 0, 0, 0, 0, 0, 0, 1, 0, 0, 0, 0, 0, 0, 0, 0, 0,
    ]
}
