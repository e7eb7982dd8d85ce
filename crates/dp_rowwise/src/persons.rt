ghost use Rattle.std.specs.Prelude.{◌≡◌, ◌<◌, ◌≤◌, ℕ, List, length, filter, nat_lt, slice_index_or, IfOk};
ghost use Rattle.std.specs.List.{range_with_len};
ghost use Rattle.std.specs.List.Sorted.{IsPermutation, IsSortedBy};
ghost use Rattle.std.specs.Ordering.{is_lt};
ghost use Rattle.dp_rowwise.specs.Truncate.{places, rank, kept_places, same_person};
ghost use Rattle.dp_rowwise.specs.Persons.{person_cmp, place_cmp};

use dp_count::NoMemory;
use std::alloc::Global;
use std::cmp::Ordering;

/// Records of persons at places from 0, wherever they are kept. A place past the end has the record without cells.
pub trait Records {
    ghost rows: { Self → List (List (List ℕ)) };

    ghost column: { Self → ℕ };

    /// How many records there are.
    fn count(&self) -> u32
        ensures { result ≡ length (rows self.now) };

    /// The order of the records at two places: by the persons' texts, and then by the records.
    fn order(&self, i: u32, j: u32) -> Ordering
        ensures { result ≡ person_cmp (column self.now) (rows self.now) i j };

    /// Whether the records at two places are of one person.
    fn same_person(&self, i: u32, j: u32) -> bool
        ensures { result ≡ same_person (column self.now) (rows self.now) i j };
}

/// The places whose records stay where each person keeps at most so many, in order. The work is that of sorting the
/// places.
pub fn kept_places<R: Records>(alloc: Global, records: &R, most: u64) -> Result<Vec<u32>, NoMemory>
    requires { 1 ≤ most }
    ensures { IfOk result (λ kept. kept.items ≡ kept_places (R.column records.now) most (R.rows records.now)) }
{
    let ordered = ordered_places(alloc, records)?;
    let mut kept = first_of_each(alloc, records, ordered.as_slice(), most)?;
    kept.sort_unstable();
    Ok(kept)
}

/// The places by persons and then by records.
fn ordered_places<R: Records>(alloc: Global, records: &R) -> Result<Vec<u32>, NoMemory>
    ensures all { IfOk result (λ ordered. IsPermutation (places (R.rows records.now)) ordered.items) }
    ensures sorted { IfOk result (λ ordered.
        IsSortedBy (λ i j. is_lt (place_cmp (R.column records.now) (R.rows records.now) i j)) ordered.items) }
{
    let mut ordered = all_places(alloc, records.count())?;
    ordered.sort_unstable_by(|i, j| place_order(records, *i, *j));
    Ok(ordered)
}

/// The places from 0, in order.
fn all_places(alloc: Global, count: u32) -> Result<Vec<u32>, NoMemory>
    ensures { IfOk result (λ all. all.items ≡ range_with_len 0 count) }
{
    let mut all = Vec::with_capacity(alloc, count as usize)?;
    for place in 0..count {
        all.push(place)?;
    }
    Ok(all)
}

/// The order of two places: by the persons' texts, then by the records, and then by themselves.
fn place_order<R: Records>(records: &R, i: u32, j: u32) -> Ordering
    ensures { result ≡ place_cmp (R.column records.now) (R.rows records.now) i j }
{
    match records.order(i, j) {
        Ordering::Less => Ordering::Less,
        Ordering::Equal => i.cmp(&j),
        Ordering::Greater => Ordering::Greater,
    }
}

/// The first places of each person, at most so many, of places that are ordered by persons.
fn first_of_each<R: Records>(
    alloc: Global,
    records: &R,
    ordered: &[u32],
    most: u64,
) -> Result<Vec<u32>, NoMemory>
    requires most { 1 ≤ most }
    requires all { IsPermutation (places (R.rows records.now)) ordered.now }
    requires sorted { IsSortedBy
        (λ i j. is_lt (place_cmp (R.column records.now) (R.rows records.now) i j)) ordered.now }
    ensures { IfOk result (λ kept.
        kept.items ≡ filter (λ i. nat_lt (rank (R.column records.now) (R.rows records.now) i) most) ordered.now) }
{
    let mut kept = Vec::new(alloc);
    for index in 0..ordered.len() {
        if is_early(records, ordered, index, most as usize) {
            kept.push(ordered[index])?;
        }
    }
    Ok(kept)
}

/// Whether fewer than so many places of its person stand before a place that is ordered by persons.
fn is_early<R: Records>(records: &R, ordered: &[u32], index: usize, most: usize) -> bool
    requires most { 1 ≤ most }
    requires within { index < length ordered.now }
    requires all { IsPermutation (places (R.rows records.now)) ordered.now }
    requires sorted { IsSortedBy
        (λ i j. is_lt (place_cmp (R.column records.now) (R.rows records.now) i j)) ordered.now }
    ensures { result ≡ nat_lt
        (rank (R.column records.now) (R.rows records.now) (slice_index_or ordered.now index 0)) most }
{
    index < most || !records.same_person(ordered[index - most], ordered[index])
}
