ghost use Rattle.std.specs.Prelude.{◌≡◌, ◌∷◌, ◌<◌, ◌^◌};

use crate::Draws;
use dp_count::Failed;

/// A source that passes a number of calls on to an inner one and fails at every later one. A call that is passed on
/// counts as one of them also where the inner source fails.
#[derive(Debug, Drop)]
pub struct FailAt<D> {
    inner: D,
    calls: u64,
    failed: u64,
    ghost few: { failed < 2 ^ 64 },
}

impl<D: Draws> FailAt<D> {
    /// The source that passes `calls` calls on to `inner`. Its state is the number of calls that it still passes on,
    /// followed by the state of `inner`. Its count of faults is its own, and it has met none.
    pub fn new(inner: D, calls: u64) -> FailAt<D>
        ensures state { ⟦<FailAt<D> as Draws>⟧.state result ≡ calls ∷ D.state inner }
        ensures faults { ⟦<FailAt<D> as Draws>⟧.faults result ≡ 0 }
    {
        FailAt {
            inner,
            calls,
            failed: 0,
        }
    }
}

impl<D: Draws> Draws for FailAt<D> {
    ghost use Rattle.std.specs.Prelude.{◌∷◌};
    ghost use Rattle.dp_draws.specs.Sources.{fail_at_step};
    ghost use Rattle.dp_draws.specs.SourceProof.{fail_at_below};

    ghost state = { λ source. source.calls ∷ D.state source.inner };

    ghost step = { fail_at_step D.step };

    ghost faults = { λ source. source.failed };

    fn below(&mut self, m: u64) -> Result<u64, Failed> {
        if self.calls > 0 {
            self.calls -= 1;
            if let Ok(draw) = self.inner.below(m) {
                return Ok(draw);
            }
        }
        self.failed = self.failed.saturating_add(1);
        Err(Failed)
    }

    ghost draw_below = { fail_at_below D.step D.draw_below };

    ghost few_faults = { λ source. source.few };
}

#[cfg(test)]
mod tests {
    use super::*;
    use crate::{NoDraws, Zeros};

    #[test]
    fn calls_are_passed_on_up_to_a_number_and_then_fail(rt: HostRuntime) {
        for calls in [0, 1, 2] {
            let mut source = FailAt::new(Zeros::new(), calls);
            for call in 0u64..4 {
                assert_eq!(rt;
                    source.below(5).is_ok(),
                    call < calls,
                    "call {call} of {calls}"
                );
            }
            assert_eq!(rt; source.failed, 4 - calls);
        }
    }

    #[test]
    fn a_failure_of_the_inner_source_uses_a_call_and_is_counted(rt: HostRuntime) {
        let mut source = FailAt::new(NoDraws::new(), 1);
        assert_eq!(rt; source.below(5), Err(Failed));
        assert_eq!(rt; (source.calls, source.failed), (0, 1));
        assert_eq!(rt; source.below(5), Err(Failed));
        assert_eq!(rt; (source.calls, source.failed), (0, 2));
    }
}
