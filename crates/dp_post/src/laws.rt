//! The laws of changes of answers. Each is the contract of a function that does nothing.
ghost use Rattle.dp_post.specs.PostedLaw.{GivenLaw, GivenOnceLaw, ChangedWaysLaw, ChangedPrivateLaw, RunningSumsLaw};

/// How many draw lists give each answer after any change of answers, by the answers before it; and that any change that
/// keeps the number of pieces leaves a private measurement private, at the same loss.
pub fn changed_law()
    ensures given { GivenLaw }
    ensures once { GivenOnceLaw }
    ensures ways { ChangedWaysLaw }
    ensures private { ChangedPrivateLaw }
{}

/// The running sums place by place.
pub fn sums_law()
    ensures { RunningSumsLaw }
{}

#[cfg(test)]
mod tests {
    use super::*;

    /// A call gives its law to the function that makes it.
    fn given()
        ensures given { GivenLaw }
        ensures once { GivenOnceLaw }
        ensures ways { ChangedWaysLaw }
        ensures private { ChangedPrivateLaw }
        ensures sums { RunningSumsLaw }
    {
        changed_law();
        sums_law();
    }

    #[test]
    fn a_call_gives_its_law(_rt: HostRuntime) {
        given();
    }
}
