ghost use Rattle.std.specs.Prelude.{◌≡◌, ◌≤◌, ◌<◌, ◌*◌, ◌/◌, ℤ, ◌-ℤ◌, nat_abs, length, if◌then◌else◌, nat_le, Some, None, IfOk, IsTrue};
ghost use Rattle.std.specs.Option.{option_map};
ghost use Rattle.dp_num.specs.Fractions.{fraction_of};
ghost use Rattle.dp_choice.specs.Weights.{weight, first_weight, all_draws, weight_table, IsGreatest, is_score_range, weights_fit};
ghost use Rattle.dp_choice.specs.Choice.{IsFittingTable};

use dp_count::NoMemory;
use dp_domain::is_narrow_range;
use dp_num::Ratio;
use std::alloc::Global;

/// The bound of the draw.
pub(crate) const ALL_DRAWS: u64 = 1 << 62;

/// The weight of the score 0.
const FIRST_WEIGHT: u64 = 65_536;

/// The weights of the scores from 0 to top - floor, or none where these bounds are refused or the weights don't fit.
/// No table is allocated before it is known that they fit. The range of the cells' numbers plays no part.
pub(crate) fn fitting_table(
    alloc: Global,
    len: u32,
    ratio: &Ratio,
    low: u64,
    high: u64,
    floor: &i64,
    top: &i64,
) -> Result<Option<Vec<u64>>, NoMemory>
    requires some { 1 ≤ len }
    requires positive { 1 ≤ low }
    requires order { low ≤ high }
    ensures { IfOk result (λ table. (least most : ℤ) → IsFittingTable (fraction_of ratio.now) (record {
      len = len;
      least = least;
      most = most;
      floor = floor.now;
      top = top.now;
      low = low;
      high = high;
    }) (option_map (λ t. t.items) table)) }
{
    if !is_score_range(floor, top) {
        return Ok(None);
    }
    let most = width(floor, top);
    let Some(greatest) = greatest_weight(low, high, most) else {
        return Ok(None);
    };
    if !weights_fit(len, greatest, ratio.p(), ratio.q()) {
        return Ok(None);
    }
    Ok(Some(weight_table(alloc, low, high, most)?))
}

/// The greatest score of a range of scores.
fn width(floor: &i64, top: &i64) -> u64
    requires { IsTrue (is_score_range floor.now top.now) }
    ensures value { result ≡ nat_abs (top.now -ℤ floor.now) }
    ensures few { result ≤ 65535 }
{
    (*top - *floor) as u64
}

/// Whether the range of the scores has more than one number and at most 65,536, from -2^61 to 2^61.
fn is_score_range(floor: &i64, top: &i64) -> bool
    ensures { result ≡ is_score_range floor.now top.now }
{
    *floor < *top && is_narrow_range(floor, top)
}

/// Whether the sum of the weights is at most 2^62 and each share leaves room for its rounding.
fn weights_fit(len: u32, most: u64, p: u64, q: u64) -> bool
    requires order { p < q }
    requires small { q ≤ 65536 }
    requires few { most ≤ all_draws }
    ensures { result ≡ weights_fit len most p q }
{
    let all = u128::from(ALL_DRAWS);
    let sum = u128::from(len) * u128::from(most);
    sum <= all && sum * u128::from(q + p) <= all * u128::from(FIRST_WEIGHT) * u128::from(q - p)
}

/// The weight of the score `most`, which is the greatest, or none where it is greater than 2^62.
fn greatest_weight(low: u64, high: u64, most: u64) -> Option<u64>
    requires positive { 1 ≤ low }
    requires order { low ≤ high }
    ensures { IsGreatest first_weight low high most result }
{
    let mut weight = FIRST_WEIGHT;
    for _score in 0..most {
        let Some(next) = next_weight(weight, low, high) else {
            return None;
        };
        weight = next;
    }
    Some(weight)
}

/// The weights of the scores from 0 to `most`.
fn weight_table(alloc: Global, low: u64, high: u64, most: u64) -> Result<Vec<u64>, NoMemory>
    requires positive { 1 ≤ low }
    requires order { low ≤ high }
    requires few { most ≤ 65535 }
    requires fits { weight first_weight low high most ≤ all_draws }
    ensures { IfOk result (λ table. table.items ≡ weight_table first_weight low high most) }
{
    let mut table = Vec::with_capacity(alloc, most as usize + 1)?;
    let mut weight = FIRST_WEIGHT;
    table.push(weight)?;
    for _score in 0..most {
        weight = grown(weight, low, high) as u64;
        table.push(weight)?;
    }
    Ok(table)
}

/// The weight one score higher, where it is at most 2^62.
fn next_weight(weight: u64, low: u64, high: u64) -> Option<u64>
    requires { 1 ≤ low }
    ensures { result ≡ (if nat_le (weight * high / low) all_draws then Some (weight * high / low) else None) }
{
    let next = grown(weight, low, high);
    if next > u128::from(ALL_DRAWS) {
        return None;
    }
    Some(next as u64)
}

/// The weight one score higher.
fn grown(weight: u64, low: u64, high: u64) -> u128
    requires { 1 ≤ low }
    ensures { result ≡ weight * high / low }
{
    u128::from(weight) * u128::from(high) / u128::from(low)
}

#[cfg(test)]
mod tests {
    use super::*;

    #[test]
    fn the_greatest_weight_is_at_most_two_to_the_62(rt: HostRuntime) {
        assert!(rt; greatest_weight(1, 2, 46) == Some(4_611_686_018_427_387_904));
        assert!(rt; greatest_weight(1, 2, 47).is_none());
    }

    #[test]
    fn shares_need_room_for_their_rounding(rt: HostRuntime) {
        assert!(rt; weights_fit(1, 2_305_860_601_533_957_120, 65_535, 65_536));
        assert!(rt; !weights_fit(1, 2_305_860_601_533_957_121, 65_535, 65_536));
        assert!(rt; weights_fit(1, 4_611_686_018_427_387_904, 1, 2));
        assert!(rt; !weights_fit(3, 2_305_843_009_213_693_952, 1, 2));
    }
}
