//! The law of geometric noise, as the contract of a function that does nothing.
ghost use Rattle.dp_geometric.specs.GeometricWays.{WaysLaw};

/// How many draw lists give each answer, in closed form: of a number, those of its cell; of a vector, the product of
/// its cells' numbers; and none for anything else.
pub fn ways_law()
    ensures { WaysLaw }
{}

#[cfg(test)]
mod tests {
    use super::*;

    /// A call gives its law to the function that makes it.
    fn given()
        ensures { WaysLaw }
    {
        ways_law();
    }

    #[test]
    fn a_call_gives_its_law(_rt: HostRuntime) {
        given();
    }
}
