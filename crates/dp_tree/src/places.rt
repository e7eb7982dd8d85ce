ghost use Rattle.std.specs.Prelude.{◌≡◌, ◌<◌, length, MatchOption};
ghost use Rattle.dp_tree.specs.Table.{place_of};
ghost use Rattle.dp_tree.specs.Lists.{Rise};

/// The place of a node among numbers that rise, from 0, if it is there. It is searched by halves.
pub fn place(numbers: &[u32], node: u64) -> Option<u32>
    requires { Rise numbers.now }
    ensures { let k = place_of numbers.now node in
        MatchOption result (k ≡ length numbers.now) (λ found. (found ≡ k) × (k < length numbers.now)) }
{
    let Ok(number) = u32::try_from(node) else {
        return None;
    };
    match numbers.binary_search(&number) {
        Ok(place) => Some(place as u32),
        Err(_) => None,
    }
}
