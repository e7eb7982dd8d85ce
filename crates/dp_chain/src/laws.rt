//! The laws of what stages, lines, noises, parts and releases are by their definitions alone, where no code made them.
//! Each is the contract of a function that does nothing.
ghost use Rattle.dp_chain.specs.Laws.{StageLaw, LineLaw, NoiseLaw, PartLaw, ReleaseLaw};

/// On a domain that fits, each stage that is not refused is a stable transformation of that domain by that metric, and
/// so is each line of stages.
pub fn line_law()
    ensures stage { StageLaw }
    ensures line { LineLaw }
{}

/// On a domain that fits, with a ratio below 1, each noise that is not refused is a private measurement of that domain
/// by that metric, with that ratio, and loses nothing at the distance 0. So is each part, and each release of 1 to 16
/// parts.
pub fn release_law()
    ensures noise { NoiseLaw }
    ensures part { PartLaw }
    ensures release { ReleaseLaw }
{}

#[cfg(test)]
mod tests {
    use super::*;

    /// A call gives its law to the function that makes it.
    fn given()
        ensures stage { StageLaw }
        ensures line { LineLaw }
        ensures noise { NoiseLaw }
        ensures part { PartLaw }
        ensures release { ReleaseLaw }
    {
        line_law();
        release_law();
    }

    #[test]
    fn a_call_gives_its_law(_rt: HostRuntime) {
        given();
    }
}
