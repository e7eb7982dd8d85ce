//! The laws of one measurement on each group of records. Each is the contract of a function that does nothing.
ghost use Rattle.dp_group.specs.GroupedLaw.{OrderLaw, StepsLaw, GroupedWaysLaw, GroupedPrivateLaw};

/// Of a private measurement of records that costs nothing at the distance 0: the order of the records plays no part,
/// and records that are some steps apart cost at most so many times the loss of one step.
pub fn steps_law()
    ensures order { OrderLaw }
    ensures steps { StepsLaw }
{}

/// The numbers of draw lists of the groups' answers multiply, and one measurement on each group is private with the
/// loss of one group.
pub fn grouped_law()
    ensures ways { GroupedWaysLaw }
    ensures private { GroupedPrivateLaw }
{}

#[cfg(test)]
mod tests {
    use super::*;

    /// A call gives its law to the function that makes it.
    fn given()
        ensures order { OrderLaw }
        ensures steps { StepsLaw }
        ensures ways { GroupedWaysLaw }
        ensures private { GroupedPrivateLaw }
    {
        steps_law();
        grouped_law();
    }

    #[test]
    fn a_call_gives_its_law(_rt: HostRuntime) {
        given();
    }
}
