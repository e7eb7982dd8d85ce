ghost use Rattle.std.specs.Prelude.{◌≡◌};

/// A cost is greater than what is left, or no mid is left for it.
#[derive(Clone, Copy, Debug, PartialEq, Eq)]
pub struct Over {
    /// The cost, in units.
    pub cost: u64,
    /// What is left, in units: 0 where no mid is left.
    pub left: u64,
}
