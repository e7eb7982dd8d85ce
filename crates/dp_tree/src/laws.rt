//! The laws of what a history's queries lose, what its nodes spend, and which nodes stay open where a query freezes the
//! nodes below. Each is the contract of a function that does nothing.
ghost use Rattle.dp_tree.specs.Losses.{LossesLaw, RootLossesLaw, DeclaredLaw, ChildLaw, RootSpentLaw, MostSpentLaw};
ghost use Rattle.dp_tree.specs.Losses.{OdometerLaw, PathLaw, FreeLaw};

/// Where each child's budget declares the most that it admits, the asks at a node and below it cost no more than the
/// node has spent, and all asks no more than the root has. A child of an odometer may lose what no node above it spent.
pub fn losses_law()
    ensures node { LossesLaw }
    ensures root { RootLossesLaw }
    ensures odometer { OdometerLaw }
{}

/// What a node has spent is within what its budget declares, of a child within what its open cost, and within 2^32
/// where the root's budget declares no more.
pub fn spent_law()
    ensures declared { DeclaredLaw }
    ensures child { ChildLaw }
    ensures root { RootSpentLaw }
    ensures most { MostSpentLaw }
{}

/// Where each query was addressed to a node that was not frozen, each node that is not frozen after a query is its
/// node, stands above it, or was opened by it. But for the opened one none has a greater number than its node.
pub fn frozen_law()
    ensures path { PathLaw }
    ensures number { FreeLaw }
{}

#[cfg(test)]
mod tests {
    use super::*;

    /// A call gives its law to the function that makes it.
    fn given()
        ensures node { LossesLaw }
        ensures root { RootLossesLaw }
        ensures odometer { OdometerLaw }
        ensures declared { DeclaredLaw }
        ensures child { ChildLaw }
        ensures root_spent { RootSpentLaw }
        ensures most { MostSpentLaw }
        ensures path { PathLaw }
        ensures number { FreeLaw }
    {
        losses_law();
        spent_law();
        frozen_law();
    }

    #[test]
    fn a_call_gives_its_law(_rt: HostRuntime) {
        given();
    }
}
