ghost use Rattle.std.specs.Prelude.{◌≡◌};

use std::marker::Model;

/// An open file of a shelf: the number that `open` gave, from 0, in the order of opening.
#[derive(Clone, Copy, Debug)]
pub struct Slot {
    number: usize,
}

impl Model for Slot {
    ghost use Rattle.std.specs.Prelude.{ℕ};

    ghost Value = { ℕ };

    ghost view = { λ slot. slot.number };

    ghost inverse = { λ number. record { number = number } };
}

impl Slot {
    /// The slot of that number.
    pub(crate) fn new(number: usize) -> Slot
        ensures { result ≡ number }
    {
        Slot { number }
    }

    /// The slot's number.
    pub(crate) fn number(self) -> usize
        ensures { result ≡ self }
    {
        self.number
    }
}
