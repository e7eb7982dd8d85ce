ghost use Rattle.std.specs.Prelude.{◌≡◌, ◌≤◌, ◌≤ℤ◌, pos, true, length};
ghost use Rattle.std.specs.List.{list_all};
ghost use Rattle.dp_domain.specs.Domains.{most_listed};
ghost use Rattle.dp_domain.specs.Edges.{edges_at_most, is_rising, are_edges};
ghost use Rattle.dp_domain.specs.Ranges.{is_within};

use crate::domains::few_and_one;

/// How many strictly rising edges, at most 1,023, are at most the number, by binary search.
pub fn edges_at_most(edges: &[i64], number: &i64) -> u32
    requires few { length edges.now ≤ most_listed }
    requires rising { is_rising edges.now ≡ true }
    ensures { result ≡ edges_at_most edges.now number.now }
{
    edges.partition_point(|edge| *edge <= *number) as u32
}

/// Whether there are 1 to 1,023 strictly rising edges, each from -limit to limit, which is at least 0.
pub fn are_edges(limit: &i64, edges: &[i64]) -> bool
    requires { pos 0 ≤ℤ limit.now }
    ensures { result ≡ are_edges limit.now edges.now }
{
    few_and_one(edges.len() as u64) && all_within(limit, edges) && is_rising(edges)
}

/// Whether each edge is from -limit to limit.
fn all_within(limit: &i64, edges: &[i64]) -> bool
    requires { pos 0 ≤ℤ limit.now }
    ensures { result ≡ list_all (is_within limit.now) edges.now }
{
    edges.iter().all(|edge| is_within(limit, edge))
}

/// Whether the number is from -limit to limit.
fn is_within(limit: &i64, number: &i64) -> bool
    requires { pos 0 ≤ℤ limit.now }
    ensures { result ≡ is_within limit.now number.now }
{
    -*limit <= *number && *number <= *limit
}

/// Whether each edge is below those after it.
fn is_rising(edges: &[i64]) -> bool
    ensures { result ≡ is_rising edges.now }
{
    edges.is_sorted_by(|a, b| *a < *b)
}
