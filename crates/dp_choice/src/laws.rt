//! The laws of weighted choice. Each is the contract of a function that does nothing.
ghost use Rattle.dp_choice.specs.ChoiceWays.{WaysLaw};
ghost use Rattle.dp_choice.specs.ChoicePrivacy.{PrivacyLaw};

/// How many draws choose each cell: what its weight adds to the share of the draws, rounded down. No other answer has
/// any draw.
pub fn ways_law()
    ensures { WaysLaw }
{}

/// The choice is private at 2·u·d + 1 units of loss where the weights leave room for the rounding, and without loss at
/// the distance 0.
pub fn privacy_law()
    ensures { PrivacyLaw }
{}

#[cfg(test)]
mod tests {
    use super::*;

    /// A call gives its law to the function that makes it.
    fn given()
        ensures ways { WaysLaw }
        ensures privacy { PrivacyLaw }
    {
        ways_law();
        privacy_law();
    }

    #[test]
    fn a_call_gives_its_law(_rt: HostRuntime) {
        given();
    }
}
