ghost use Rattle.std.specs.Prelude.{◌≡◌, []};

use crate::Draws;
use dp_count::Failed;

/// A source that gives 0 always. It never fails.
#[derive(Clone, Copy, Debug)]
pub struct Zeros;

impl Zeros {
    /// A source that gives 0 always. It has met no fault.
    pub fn new() -> Zeros
        ensures state { ⟦<Zeros as Draws>⟧.state result ≡ [] }
        ensures faults { ⟦<Zeros as Draws>⟧.faults result ≡ 0 }
    {
        Zeros
    }
}

impl Draws for Zeros {
    ghost use Rattle.dp_draws.specs.Sources.{zeros_step};
    ghost use Rattle.dp_draws.specs.SourceProof.{zeros_below};
    ghost use Rattle.std.specs.Prelude.{[]};
    ghost use Rattle.std.proofs.Common.{rules};

    ghost state = { λ _. [] };

    ghost step = { zeros_step };

    ghost faults = { λ _. 0 };

    fn below(&mut self, _m: u64) -> Result<u64, Failed> {
        Ok(0)
    }

    ghost draw_below = { zeros_below };

    ghost few_faults = { Prim.search rules };
}

#[cfg(test)]
mod tests {
    use super::*;

    #[test]
    fn every_draw_is_zero(rt: HostRuntime) {
        let mut source = Zeros::new();
        assert_eq!(rt; source.below(1), Ok(0));
        assert_eq!(rt; source.below(1 << 62), Ok(0));
    }
}
