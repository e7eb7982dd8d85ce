ghost use Rattle.std.specs.Prelude.{◌≡◌, ◌+◌, ◌<◌, ◌≤◌, length};
ghost use Rattle.std.specs.Result.{result_err};
ghost use Rattle.dp_tree.specs.Lists.{ParentsInside, frozen_from};

use crate::FindFault;
use dp_num::{Steps, Trail};
use std::sync::ledger::Ledger;

/// Whether none of the `depth` nodes above a place had a query after number `node`. `Frozen` carries the nearest that
/// had one. Each link on the way is read once.
pub(crate) fn nearest_frozen<L: Ledger>(
    numbers: &[u32],
    trail: &Trail,
    node: u64,
    depth: u32,
    place: u32,
    steps: &mut Steps<L>,
) -> Result<(), FindFault>
    requires as_many { length trail.now.links ≡ length numbers.now }
    requires within { place < length numbers.now }
    requires inside { ParentsInside trail.now.links }
    ensures told { result_err result ≡ frozen_from numbers.now trail.now.links node depth place }
    ensures few { steps.new ≤ steps.old + (depth + 1) }
{
    let mut at = place;
    let mut link = trail.at(at, steps);
    for _level in 0..depth {
        at = link.parent;
        link = trail.at(at, steps);
        if u64::from(link.last) > node {
            return Err(FindFault::Frozen {
                ancestor: numbers[at as usize],
                later: link.last,
            });
        }
    }
    Ok(())
}
