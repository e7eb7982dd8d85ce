ghost use Rattle.std.specs.Prelude.{◌≡◌};
ghost use Rattle.dp_ledger.specs.Image.{other, place_of};

/// One of the two slots of a ledger's image.
#[derive(Clone, Copy, Debug, PartialEq, Eq)]
pub enum Slot {
    First,
    Second,
}

impl Slot {
    /// The other slot.
    pub(crate) fn other(self) -> Slot
        ensures { result ≡ other self }
    {
        match self {
            Slot::First => Slot::Second,
            Slot::Second => Slot::First,
        }
    }

    /// Where its total begins: eight bytes, and then its gate.
    pub(crate) fn place(self) -> usize
        ensures { result ≡ place_of self }
    {
        match self {
            Slot::First => 8,
            Slot::Second => 17,
        }
    }
}
