ghost use Rattle.std.specs.Prelude.{◌≡◌, ◌-◌, ◌^◌, map, min};
ghost use Rattle.dp_post.specs.Posts.{clipped_sum, running_sums, floored, first_greatest};

use dp_domain::clamped;

/// Running sums are from -2^62 to 2^62.
const SUM_LIMIT: i64 = 1 << 62;

/// Puts at each place the sum of its cell and of what now stands at the place before, clipped to ±2^62.
pub(crate) fn cumulate(cells: &mut [i64])
    ensures { cells.new ≡ running_sums cells.old }
{
    let mut sum = 0;
    for cell in cells.iter_mut() {
        sum = clipped_sum(&sum, cell);
        *cell = sum;
    }
}

/// The sum of the two numbers, or the limit that it is past. A sum past 64 bits is past the limit too.
fn clipped_sum(sum: &i64, cell: &i64) -> i64
    ensures { result ≡ clipped_sum sum.now cell.now }
{
    clamped(&-SUM_LIMIT, &SUM_LIMIT, &sum.saturating_add(*cell))
}

/// Puts 0 in place of each negative cell.
pub(crate) fn floor(cells: &mut [i64])
    ensures { cells.new ≡ map floored cells.old }
{
    for cell in cells.iter_mut() {
        *cell = floored(cell);
    }
}

/// The number, or 0 in place of a negative one.
pub(crate) fn floored(number: &i64) -> i64
    ensures { result ≡ floored number.now }
{
    (*number).max(0)
}

/// The first place of a greatest cell, from 0 and at most 2^32 - 1; 0 where there is no cell.
pub(crate) fn largest(cells: &[i64]) -> u32
    ensures { result ≡ min (first_greatest cells.now) (2 ^ 32 - 1) }
{
    first_greatest(cells).min(u32::MAX as usize) as u32
}

/// The first place of a greatest cell, from 0; 0 where there is no cell.
fn first_greatest(cells: &[i64]) -> usize
    ensures { result ≡ first_greatest cells.now }
{
    if cells.is_empty() {
        return 0;
    }
    let mut best = 0;
    for k in 1..cells.len() {
        if cells[k] > cells[best] {
            best = k;
        }
    }
    best
}
