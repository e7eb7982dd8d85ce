ghost use Rattle.std.specs.Prelude.{◌≡◌, ◌≤◌, ◌≤ℤ◌, ◌^◌, ◌+◌, ◌*◌, pos};
ghost use Rattle.std.specs.Result.{result_ok};
ghost use Rattle.std.specs.Int.{div_ceil, int_div_euclid};
ghost use Rattle.dp_num.specs.Limits.{capped};

use crate::Past;
use dp_count::at_most;

/// The greatest number of units, 2^32.
pub const MOST_UNITS: u64 = 1 << 32;

/// The sum of two numbers of units. `Past` comes exactly where it is greater than 2^32.
pub fn add_units(a: u64, b: u64) -> Result<u64, Past>
    requires first { a ≤ 2 ^ 32 }
    requires second { b ≤ 2 ^ 32 }
    ensures { result_ok result ≡ capped (a + b) }
{
    within_most(a + b)
}

/// The product of two numbers of units. `Past` comes exactly where it is greater than 2^32.
pub fn mul_units(a: u64, b: u64) -> Result<u64, Past>
    requires first { a ≤ 2 ^ 32 }
    requires second { b ≤ 2 ^ 32 }
    ensures { result_ok result ≡ capped (a * b) }
{
    let Some(product) = a.checked_mul(b) else {
        return Err(Past);
    };
    within_most(product)
}

/// `a` / `g`, rounded up.
pub fn ceil_div(a: u64, g: u64) -> u64
    requires { 1 ≤ g }
    ensures { result ≡ div_ceil a g }
{
    a.div_ceil(g)
}

/// `a` / `g`, rounded down (towards the smaller number also where `a` is negative).
pub fn floor_div(a: i64, g: i64) -> i64
    requires { pos 1 ≤ℤ g }
    ensures { result ≡ int_div_euclid a g }
{
    a.div_euclid(g)
}

/// The number, where it is at most 2^32.
fn within_most(units: u64) -> Result<u64, Past>
    ensures { result_ok result ≡ capped units }
{
    at_most(MOST_UNITS, units).ok_or(Past)
}

#[cfg(test)]
mod tests {
    use super::*;

    #[test]
    fn units_are_at_most_two_to_the_thirty_two(rt: HostRuntime) {
        assert_eq!(rt; add_units(4_294_967_296, 0), Ok(4_294_967_296));
        assert_eq!(rt; add_units(4_294_967_296, 1), Err(Past));
        assert_eq!(rt; mul_units(65_536, 65_536), Ok(4_294_967_296));
        assert_eq!(rt; mul_units(65_536, 65_537), Err(Past));
        assert_eq!(rt; mul_units(4_294_967_296, 4_294_967_296), Err(Past));
    }

    #[test]
    fn divisions_round_up_and_down(rt: HostRuntime) {
        assert_eq!(rt; ceil_div(0, 5), 0);
        assert_eq!(rt; ceil_div(10, 5), 2);
        assert_eq!(rt; ceil_div(11, 5), 3);
        assert_eq!(rt; floor_div(7, 3), 2);
        assert_eq!(rt; floor_div(-7, 3), -3);
        assert_eq!(rt; floor_div(-6, 3), -2);
    }
}
