ghost use Rattle.std.specs.Prelude.{◌≡◌, IsTrue, ◌↔◌, ◌≤ℤ◌};
ghost use Rattle.dp_domain.specs.Domains.{item_limit, number_limit, IsRange};
ghost use Rattle.dp_domain.specs.Ranges.{is_range, is_narrow, is_narrow_range, clamped};

/// The numbers of a list are from -2^31 to 2^31.
pub const ITEM_LIMIT: i64 = 1 << 31;

/// A number alone, and each cell of a vector, is from -2^61 to 2^61.
pub const NUMBER_LIMIT: i64 = 1 << 61;

/// The greatest difference of the bounds of a range of at most 65,536 numbers.
pub const MOST_WIDTH: i64 = 65_535;

/// Whether the bounds are in order, from -2^31 to 2^31.
pub fn is_item_range(lo: &i64, hi: &i64) -> bool
    ensures value { result ≡ is_range item_limit lo.now hi.now }
    ensures range { IsTrue result ↔ IsRange item_limit lo.now hi.now }
{
    -ITEM_LIMIT <= *lo && *lo <= *hi && *hi <= ITEM_LIMIT
}

/// Whether the bounds are in order, from -2^61 to 2^61.
pub fn is_number_range(lo: &i64, hi: &i64) -> bool
    ensures value { result ≡ is_range number_limit lo.now hi.now }
    ensures range { IsTrue result ↔ IsRange number_limit lo.now hi.now }
{
    -NUMBER_LIMIT <= *lo && *lo <= *hi && *hi <= NUMBER_LIMIT
}

/// Whether the range from `lo` to `hi` has 1 to 65,536 numbers.
pub fn is_narrow(lo: &i64, hi: &i64) -> bool
    ensures { result ≡ is_narrow lo.now hi.now }
{
    *lo <= *hi && hi.checked_sub(*lo).is_some_and(|width| width <= MOST_WIDTH)
}

/// Whether the range from `lo` to `hi` has 1 to 65,536 numbers, from -2^61 to 2^61.
pub fn is_narrow_range(lo: &i64, hi: &i64) -> bool
    ensures { result ≡ is_narrow_range lo.now hi.now }
{
    is_number_range(lo, hi) && is_narrow(lo, hi)
}

/// The number from `lo` to `hi` that is nearest to `z`.
pub fn clamped(lo: &i64, hi: &i64, z: &i64) -> i64
    requires { lo.now ≤ℤ hi.now }
    ensures value { result ≡ clamped lo.now hi.now z.now }
    ensures least { lo.now ≤ℤ result }
    ensures greatest { result ≤ℤ hi.now }
{
    (*z).max(*lo).min(*hi)
}
