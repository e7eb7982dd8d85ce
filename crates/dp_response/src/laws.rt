//! The law of randomised response, as the contract of a function that does nothing.
ghost use Rattle.dp_response.specs.ResponseWays.{WaysLaw};

/// How many draws give each answer: q^u the true value, p^u each other value of the domain, and none anything else.
pub fn ways_law()
    ensures { WaysLaw }
{}

#[cfg(test)]
mod tests {
    use super::*;

    /// A call gives its law to the function that makes it.
    fn given()
        ensures { WaysLaw }
    {
        ways_law();
    }

    #[test]
    fn a_call_gives_its_law(_rt: HostRuntime) {
        given();
    }
}
