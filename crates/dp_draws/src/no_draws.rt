ghost use Rattle.std.specs.Prelude.{◌≡◌, ◌<◌, ◌^◌, []};

use crate::Draws;
use dp_count::Failed;

/// A source that always fails.
#[derive(Debug, Drop)]
pub struct NoDraws {
    failed: u64,
    ghost few: { failed < 2 ^ 64 },
}

impl NoDraws {
    /// A source that always fails. It has met no fault.
    pub fn new() -> NoDraws
        ensures state { ⟦<NoDraws as Draws>⟧.state result ≡ [] }
        ensures faults { ⟦<NoDraws as Draws>⟧.faults result ≡ 0 }
    {
        NoDraws { failed: 0 }
    }
}

impl Draws for NoDraws {
    ghost use Rattle.dp_draws.specs.Views.{no_draws_faults};
    ghost use Rattle.dp_draws.specs.Sources.{no_step};
    ghost use Rattle.dp_draws.specs.SourceProof.{nothing_below};
    ghost use Rattle.std.specs.Prelude.{[]};

    ghost state = { λ _. [] };

    ghost step = { no_step };

    ghost faults = { no_draws_faults };

    fn below(&mut self, _m: u64) -> Result<u64, Failed> {
        self.failed = self.failed.saturating_add(1);
        Err(Failed)
    }

    ghost draw_below = { nothing_below };

    ghost few_faults = { λ source. source.few };
}

#[cfg(test)]
mod tests {
    use super::*;

    #[test]
    fn no_draw_is_given(rt: HostRuntime) {
        let mut source = NoDraws::new();
        assert_eq!(rt; source.below(3), Err(Failed));
        assert_eq!(rt; source.below(1), Err(Failed));
        assert_eq!(rt; source.failed, 2);
    }
}
