ghost use Rattle.std.specs.Prelude.{◌≡◌};

/// A parameter is out of its range.
#[derive(Clone, Copy, Debug, PartialEq, Eq)]
pub struct Bound;

/// A number of units is greater than 2^32.
#[derive(Clone, Copy, Debug, PartialEq, Eq)]
pub struct Past;
