ghost use Rattle.std.specs.Prelude.{◌≡◌, ◌<◌, ◌^◌};

use crate::Draws;
use dp_count::Failed;

/// A source that gives the numbers of a list in order.
#[derive(Debug, Drop)]
pub struct Replay {
    list: Vec<u64>,
    place: usize,
    failed: u64,
    ghost few: { failed < 2 ^ 64 },
}

impl Replay {
    /// The source of a list's numbers. It has met no fault.
    pub fn new(list: Vec<u64>) -> Replay
        ensures state { ⟦<Replay as Draws>⟧.state result ≡ list.items }
        ensures faults { ⟦<Replay as Draws>⟧.faults result ≡ 0 }
    {
        Replay {
            list,
            place: 0,
            failed: 0,
        }
    }
}

impl Draws for Replay {
    ghost use Rattle.dp_draws.specs.Views.{numbers_left, replay_faults};
    ghost use Rattle.dp_draws.specs.Sources.{replay_step};
    ghost use Rattle.dp_draws.specs.SourceProof.{replay_below};

    ghost state = { numbers_left };

    ghost step = { replay_step };

    ghost faults = { replay_faults };

    fn below(&mut self, m: u64) -> Result<u64, Failed> {
        if let Some(number) = self.list.get(self.place)
            && *number < m
        {
            self.place += 1;
            return Ok(*number);
        }
        self.failed = self.failed.saturating_add(1);
        Err(Failed)
    }

    ghost draw_below = { replay_below };

    ghost few_faults = { λ source. source.few };
}

#[cfg(test)]
mod tests {
    use super::*;
    use std::test::Fail;

    #[test]
    fn a_list_is_given_in_order_and_kept_at_a_failure(rt: HostRuntime) -> Result<(), Fail> {
        let mut source = Replay::new(vec![in rt.alloc(); 2, 9, 0]?);
        for (m, draw) in [
            (3, Ok(2)),
            (9, Err(Failed)),
            (9, Err(Failed)),
            (10, Ok(9)),
            (1, Ok(0)),
            (1, Err(Failed)),
            (4, Err(Failed)),
        ] {
            assert!(rt; 1 <= m && m <= 10);
            assert_eq!(rt; source.below(m), draw, "below {m}");
        }
        assert_eq!(rt; source.failed, 4);
        Ok(())
    }
}
