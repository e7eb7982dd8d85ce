ghost use Rattle.std.specs.Prelude.{◌≡◌, ◌≤◌, ◌<◌, ◌^◌, OnErr, length};
ghost use Rattle.dp_tree.specs.Lists.{ChargesAt};

use crate::states::NodeState;
use dp_budget::Over;
use dp_num::Reserved;

/// Charges a cost, at most 2^32, to the budget of the node at a place. After `Over` nothing changed.
pub(crate) fn charge(states: &mut Reserved<NodeState>, place: u32, cost: u64) -> Result<(), Over>
    requires place { place < length states.old.items }
    requires cost { cost ≤ 2 ^ 32 }
    ensures charged { ChargesAt states.old place cost result states.new }
    ensures kept { OnErr result (states.new ≡ states.old) }
{
    states.at_mut(u64::from(place)).budget.admit(cost)
}
