ghost use Rattle.std.specs.Prelude.{ℤ, neg_ℤ, pos, ◌≡◌, ◌^◌, ◌+◌, ◌<◌, ◌≤◌, ◌≤ℤ◌, ◌-ℤ◌, ◌+ℤ◌};
ghost use Rattle.std.specs.Option.{option_map};
ghost use Rattle.std.specs.Result.{result_ok};
ghost use Rattle.dp_count.specs.Faults.{HasCause};
ghost use Rattle.dp_draws.specs.Taking.{take_draws};
ghost use Rattle.dp_domain.specs.Domains.{number_limit};
ghost use Rattle.dp_domain.specs.Ranges.{clamped};
ghost use Rattle.dp_geometric.specs.OneCell.{cell_shape, cell_out, noise, width};
ghost use Rattle.dp_geometric.specs.CellLaw.{CellCounts, CellPrivate};

use crate::runs::leading_run;
use dp_count::Failed;
use dp_domain::clamped;
use dp_draws::Draws;

/// One cell of truncated geometric noise: its answers are the whole numbers from `lo` to `hi`. A value outside them
/// counts as the nearest of them. Between `lo` and `hi` an answer is rarer by the factor `low` / `high` with each step
/// of distance from the value. The two ends also take what falls beyond them: an end has `high` draw lists for each
/// `high` - `low` that an answer between them would have at the same distance.
#[derive(Clone, Copy, Debug, PartialEq, Eq)]
pub struct Cell {
    /// The least answer.
    pub lo: i64,
    /// The greatest answer.
    pub hi: i64,
    /// The smaller number of the ratio.
    pub low: u64,
    /// The greater number of the ratio.
    pub high: u64,
    pub ghost least: { neg_ℤ (pos number_limit) ≤ℤ lo },
    pub ghost ordered: { lo ≤ℤ hi },
    pub ghost greatest: { hi ≤ℤ pos number_limit },
    pub ghost narrow: { (hi -ℤ lo) ≤ℤ pos 65535 },
    pub ghost positive: { 1 ≤ low },
    pub ghost below_one: { low < high },
    pub ghost bounded: { low + high ≤ 2 ^ 62 },
}

impl Cell {
    ghost use Rattle.dp_geometric.specs.Parts.{cell_of};

    /// The cell of these numbers, with how many draw lists give each answer on each value, and the privacy of the
    /// answers.
    pub fn new(lo: i64, hi: i64, low: u64, high: u64) -> Cell
        requires least { neg_ℤ (pos number_limit) ≤ℤ lo }
        requires ordered { lo ≤ℤ hi }
        requires greatest { hi ≤ℤ pos number_limit }
        requires narrow { (hi -ℤ lo) ≤ℤ pos 65535 }
        requires positive { 1 ≤ low }
        requires below_one { low < high }
        requires bounded { low + high ≤ 2 ^ 62 }
        ensures numbers { cell_of result ≡ record { lo = lo; hi = hi; low = low; high = high } }
        ensures counts { CellCounts (cell_of result) }
        ensures private { CellPrivate (cell_of result) }
    {
        Cell { lo, hi, low, high }
    }

    /// An answer on `v`: one draw below `high` + `low` and then `hi` - `lo` draws below `high` are taken. `Failed`
    /// comes exactly where one of these draws fails.
    pub fn step<D: Draws>(&self, v: i64, draws: &mut D) -> Result<i64, Failed>
        ensures answer { result_ok result ≡ option_map (cell_out (cell_of self.now) v)
            (take_draws D.step (D.state draws.old) (cell_shape (cell_of self.now))).draws }
        ensures last { D.state draws.new
            ≡ (take_draws D.step (D.state draws.old) (cell_shape (cell_of self.now))).last }
        ensures cause { HasCause (D.faults draws.old) (D.faults draws.new) result }
    {
        let first = draws.below(self.high + self.low)?;
        let run = leading_run(draws, self.width(), self.low, self.high)?;
        Ok(self.settle(v, self.noise(first, run)))
    }

    /// How many run draws one answer takes.
    pub(crate) fn width(&self) -> u64
        ensures value { result ≡ width (cell_of self.now) }
        ensures few { result ≤ 65535 }
    {
        (self.hi - self.lo) as u64
    }

    /// The noise of a first draw and a leading run.
    fn noise(&self, first: u64, run: u64) -> i64
        requires { run ≤ 65535 }
        ensures value { result ≡ noise (cell_of self.now) first run }
        ensures least { neg_ℤ (pos 65536) ≤ℤ result }
        ensures greatest { result ≤ℤ pos 65536 }
    {
        if first < self.high - self.low {
            return 0;
        }
        if first < self.high {
            return 1 + run as i64;
        }
        -(1 + run as i64)
    }

    /// The answer on `v` with this noise.
    fn settle(&self, v: i64, noise: i64) -> i64
        requires least { neg_ℤ (pos 65536) ≤ℤ noise }
        requires greatest { noise ≤ℤ pos 65536 }
        ensures { result ≡ clamped self.now.lo self.now.hi (clamped self.now.lo self.now.hi v +ℤ noise) }
    {
        self.nearest(self.nearest(v) + noise)
    }

    /// The answer that is nearest to `z`.
    fn nearest(&self, z: i64) -> i64
        ensures value { result ≡ clamped self.now.lo self.now.hi z }
        ensures least { self.now.lo ≤ℤ result }
        ensures greatest { result ≤ℤ self.now.hi }
    {
        clamped(&self.lo, &self.hi, &z)
    }
}

#[cfg(test)]
mod tests {
    use super::*;
    use dp_draws::Replay;
    use std::alloc::{AllocError, Global};
    use std::test::Fail;

    fn source<const N: usize>(alloc: Global, draws: [u64; N]) -> Result<Replay, AllocError> {
        Ok(Replay::new(Vec::from_array(alloc, draws)?))
    }

    #[test]
    fn six_draw_lists_of_a_cell(rt: HostRuntime) -> Result<(), Fail> {
        let cell = Cell::new(0, 1, 1, 2);
        for (v, draws, answer) in [
            (0, [0, 0], 0),
            (0, [0, 1], 0),
            (0, [1, 0], 1),
            (0, [1, 1], 1),
            (0, [2, 0], 0),
            (0, [2, 1], 0),
            (1, [0, 0], 1),
            (1, [0, 1], 1),
            (1, [1, 0], 1),
            (1, [1, 1], 1),
            (1, [2, 0], 0),
            (1, [2, 1], 0),
        ] {
            let mut draws = source(rt.alloc(), draws)?;
            assert_eq!(rt; cell.step(v, &mut draws), Ok(answer), "on {v}");
        }
        Ok(())
    }

    #[test]
    fn noise_is_added_and_the_answer_kept_in_range(rt: HostRuntime) -> Result<(), Fail> {
        let cell = Cell::new(0, 5, 1, 2);
        for (v, draws, answer) in [
            (3, [1, 0, 1, 1, 0, 0], 5),
            (3, [2, 0, 0, 0, 0, 0], 0),
            (3, [0, 0, 0, 0, 0, 0], 3),
            (-7, [0, 1, 1, 1, 1, 1], 0),
            (i64::MAX, [2, 1, 0, 0, 0, 0], 4),
            (i64::MIN, [1, 1, 0, 0, 0, 0], 1),
        ] {
            let mut draws = source(rt.alloc(), draws)?;
            assert_eq!(rt; cell.step(v, &mut draws), Ok(answer), "on {v}");
        }
        Ok(())
    }

    #[test]
    fn a_range_of_one_number_has_one_answer(rt: HostRuntime) -> Result<(), Fail> {
        let cell = Cell::new(4, 4, 1, 2);
        for first in 0..3 {
            let mut draws = source(rt.alloc(), [first])?;
            assert_eq!(rt; cell.step(3, &mut draws), Ok(4), "at {first}");
        }
        Ok(())
    }

    #[test]
    fn all_run_draws_are_taken_or_the_step_fails(rt: HostRuntime) -> Result<(), Fail> {
        let cell = Cell::new(0, 5, 1, 2);
        let mut draws = source(rt.alloc(), [1, 1, 0, 0, 0, 0, 6, 3])?;
        assert_eq!(rt; cell.step(3, &mut draws), Ok(4));
        assert_eq!(rt; draws.below(7), Ok(6));
        assert_eq!(rt; cell.step(3, &mut draws), Err(Failed));
        assert_eq!(rt; draws.below(4), Ok(3));
        let mut few = source(rt.alloc(), [1, 0, 1])?;
        assert_eq!(rt; cell.step(3, &mut few), Err(Failed));
        assert_eq!(rt; few.below(2), Err(Failed));
        Ok(())
    }
}
