ghost use Rattle.std.specs.Prelude.{◌≡◌};
ghost use Rattle.dp_count.specs.AtMost.{at_most};

/// The number, where it is at most the limit.
pub fn at_most(limit: u64, n: u64) -> Option<u64>
    ensures { result ≡ at_most limit n }
{
    if n <= limit { Some(n) } else { None }
}
