ghost use Rattle.std.specs.Prelude.{◌≡◌, ◌≤◌, ◌<◌, ◌*◌, ◌/◌, ◌≤ℤ◌, ◌-ℤ◌, pos, neg_ℤ, nat_abs, [], ◌∷◌, length, if◌then◌else◌, nat_le, slice_index};
ghost use Rattle.std.specs.Option.{option_map};
ghost use Rattle.std.specs.Result.{result_ok};
ghost use Rattle.std.specs.List.{sum};
ghost use Rattle.dp_count.specs.Faults.{HasCause};
ghost use Rattle.dp_draws.specs.Taking.{take_draws};
ghost use Rattle.dp_num.specs.Limits.{ArePowers};
ghost use Rattle.dp_num.specs.Fractions.{fraction_of};
ghost use Rattle.dp_domain.specs.Domains.{number_limit, Fits, Has};
ghost use Rattle.dp_domain.specs.Ranges.{clamped};
ghost use Rattle.dp_domain.proofs.Limits.{Fits-prop};
ghost use Rattle.dp_domain.specs.declared.domains.Domain.TheVariants as domain;
ghost use Rattle.dp_domain.specs.declared.values.Value.TheVariants as value;
ghost use Rattle.dp_law.specs.declared.pieces.Piece.TheVariants as piece;
ghost use Rattle.dp_law.specs.Making.{MakesOr};
ghost use Rattle.dp_law.specs.Releasing.{Released, ReleaseCause, MemoryFirst};
ghost use Rattle.dp_choice.specs.Weights.{weight, score, weights, first_weight, all_draws, weight_table};
ghost use Rattle.dp_choice.specs.Shares.{chosen};
ghost use Rattle.dp_choice.specs.Choice.{choice_from};
ghost use Rattle.dp_choice.specs.ChoicePrivacy.{HasRoom};

use crate::weights::{ALL_DRAWS, fitting_table};
use dp_count::{Failed, NoMemory, Shape};
use dp_domain::{Cells, Domain, Metric, Value, clamped};
use dp_draws::Draws;
use dp_law::{Answer, MakeFault, Measurement, Piece, ReleaseFault};
use dp_num::{Past, Ratio, add_units, mul_units};
use std::alloc::Global;

/// Weighted choice of a vector's cell, for the ratio p/q and u units. A cell's score is how far its number is above
/// `floor` after it is brought into `floor`..=`top`. The score 0 has the weight 65,536, and with each step of the score
/// the weight grows by q^u / p^u, rounded down. One draw is taken below N = 2^62, and each cell has its share of the N
/// draws, rounded down. With W the weight of the score top - floor and `len` the vector's length, two conditions hold:
/// len · W ≤ 2^62, so that the sum of the weights fits, and len · W · (q + p) ≤ 2^62 · 65,536 · (q - p), so that every
/// share leaves room for its rounding.
///
/// The loss at the distance d is 2·u·d + 1 units, the one for the rounding, and 0 at d = 0. That is about twice what is
/// needed: by L1 u·d + 1 suffices, since the cell that is chosen and the sum of the weights share the distance.
#[derive(Debug, Drop)]
pub struct Choice {
    len: u32,
    lo: i64,
    hi: i64,
    ratio: Ratio,
    u: u64,
    floor: i64,
    top: i64,
    low: u64,
    high: u64,
    table: Vec<u64>,
    ghost input_fits: { Fits (domain.IntVec len lo hi) } by { Fits-prop (domain.IntVec len lo hi) },
    ghost powers: { ArePowers ratio.p ratio.q u (low, high) },
    ghost least: { neg_ℤ (pos number_limit) ≤ℤ floor },
    ghost ordered: { floor ≤ℤ top },
    ghost greatest: { top ≤ℤ pos number_limit },
    ghost narrow: { (top -ℤ floor) ≤ℤ pos 65535 },
    ghost table_is: { table.items ≡ weight_table first_weight low high (nat_abs (top -ℤ floor)) },
    ghost sum_fits: { len * weight first_weight low high (nat_abs (top -ℤ floor)) ≤ all_draws },
    ghost room: { HasRoom all_draws first_weight (fraction_of ratio) (record {
      len = len;
      least = lo;
      most = hi;
      floor = floor;
      top = top;
      low = low;
      high = high;
    }) },
}

impl Choice {
    ghost use Rattle.dp_choice.specs.Parts.{numbers_of};

    /// Weighted choice with `u` units and scores from `floor` to `top` on the domain. `Kind` comes exactly where the
    /// domain is not `IntVec`, `Metric` exactly where it is and the metric is not `L1`, and `Bound` exactly where
    /// neither comes and the powers p^u and q^u are refused, not -2^61 ≤ floor < top ≤ 2^61, top - floor is greater
    /// than 65,535, or the weights don't fit: the greatest weight W times the vector's length is greater than 2^62,
    /// or that product times q + p is greater than 2^62 · 65,536 · (q - p), which leaves no room for rounding the
    /// shares. All this is tested before memory is taken.
    pub fn new(
        alloc: Global,
        domain: Domain,
        metric: Metric,
        ratio: Ratio,
        u: u64,
        floor: i64,
        top: i64,
    ) -> Result<Choice, MakeFault>
        requires { Fits domain }
        ensures { MakesOr ⟦<Choice as Measurement>⟧.mechanism result
            (choice_from (fraction_of ratio) u floor top domain metric) }
    {
        let Domain::IntVec { len, lo, hi } = domain else {
            return Err(MakeFault::Kind);
        };
        if metric != Metric::L1 {
            return Err(MakeFault::Metric);
        }
        let Ok((low, high)) = ratio.powers(u) else {
            return Err(MakeFault::Bound);
        };
        let Some(table) = fitting_table(alloc, len, &ratio, low, high, &floor, &top)? else {
            return Err(MakeFault::Bound);
        };
        Ok(Choice {
            len,
            lo,
            hi,
            ratio,
            u,
            floor,
            top,
            low,
            high,
            table,
        })
    }

    /// The place of the cell of `v`, a vector of the domain, that one draw below 2^62 chooses. It takes no memory and
    /// goes over the cells twice. `Failed` comes exactly where the draw fails.
    pub fn step<D: Draws>(&self, v: &Cells, draws: &mut D) -> Result<u32, Failed>
        requires { let m = ⟦<Choice as Measurement>⟧.mechanism self.now in Has m.input_domain (value.IntVec v.now) }
        ensures place { let m = ⟦<Choice as Measurement>⟧.mechanism self.now in
            option_map (λ j. piece.Cat j ∷ []) (result_ok result)
            ≡ option_map (m.function (value.IntVec v.now)) (take_draws D.step (D.state draws.old) m.shape).draws }
        ensures last { let m = ⟦<Choice as Measurement>⟧.mechanism self.now in
            D.state draws.new ≡ (take_draws D.step (D.state draws.old) m.shape).last }
        ensures cause { HasCause (D.faults draws.old) (D.faults draws.new) result }
    {
        let draw = draws.below(ALL_DRAWS)?;
        let total = self.total(v.as_slice());
        Ok(self.place(v.as_slice(), total, draw))
    }

    /// The weight of a cell's score.
    fn weight(&self, cell: i64) -> u64
        ensures value { result ≡ weight first_weight self.now.low self.now.high (score (numbers_of self.now) cell) }
    {
        entry(&self.table, self.score(cell))
    }

    /// How far a number is above `floor`, after it is brought into the range of the scores.
    fn score(&self, cell: i64) -> u64
        ensures value { result ≡ score (numbers_of self.now) cell }
        ensures few { result ≤ nat_abs (self.now.top -ℤ self.now.floor) }
    {
        self.above(self.nearest(cell))
    }

    /// How far a number of the range of the scores is above `floor`.
    fn above(&self, near: i64) -> u64
        requires least { self.now.floor ≤ℤ near }
        requires greatest { near ≤ℤ self.now.top }
        ensures value { result ≡ nat_abs (near -ℤ self.now.floor) }
        ensures few { result ≤ nat_abs (self.now.top -ℤ self.now.floor) }
    {
        (near - self.floor) as u64
    }

    /// The number of the range of the scores that is nearest to `z`.
    fn nearest(&self, z: i64) -> i64
        ensures value { result ≡ clamped self.now.floor self.now.top z }
        ensures least { self.now.floor ≤ℤ result }
        ensures greatest { result ≤ℤ self.now.top }
    {
        clamped(&self.floor, &self.top, &z)
    }

    /// The sum of the weights of the cells' scores.
    fn total(&self, cells: &[i64]) -> u64
        requires { length cells.now ≡ self.now.len }
        ensures value { result ≡ sum (weights first_weight (numbers_of self.now) cells.now) }
        ensures few { result ≤ all_draws }
        ensures positive { 1 ≤ result }
    {
        let mut total = 0;
        for cell in cells {
            total += self.weight(*cell);
        }
        total
    }

    /// The last place before which the weights' share of all draws is at most the draw.
    fn place(&self, cells: &[i64], total: u64, draw: u64) -> u32
        requires len { length cells.now ≡ self.now.len }
        requires total { total ≡ sum (weights first_weight (numbers_of self.now) cells.now) }
        requires few { total ≤ all_draws }
        requires positive { 1 ≤ total }
        ensures { result ≡ chosen all_draws (weights first_weight (numbers_of self.now) cells.now) draw }
    {
        let mut chosen = 0;
        let mut before = 0;
        let mut place = 0;
        for cell in cells {
            chosen = later(reaches(before, total, draw), place, chosen);
            before += self.weight(*cell);
            place += 1;
        }
        chosen
    }
}

/// The weight of a score in the table.
fn entry(table: &[u64], score: u64) -> u64
    requires { score < length table.now }
    ensures { result ≡ slice_index table.now score }
{
    table[score as usize]
}

/// The place, where the draw reaches it, and else the place that was chosen before.
fn later(reached: bool, place: u32, chosen: u32) -> u32
    ensures { result ≡ (if reached then place else chosen) }
{
    if reached { place } else { chosen }
}

/// Whether the share of all draws that weights with the sum `before` have in `total`, rounded down, is at most the
/// draw. It is, exactly where 2^62 · before < (draw + 1) · total.
fn reaches(before: u64, total: u64, draw: u64) -> bool
    requires few { total ≤ all_draws }
    requires positive { 1 ≤ total }
    ensures { result ≡ nat_le (all_draws * before / total) draw }
{
    u128::from(ALL_DRAWS) * u128::from(before) < (u128::from(draw) + 1) * u128::from(total)
}

impl Measurement for Choice {
    ghost use Rattle.dp_choice.specs.Choice.{choice};
    ghost use Rattle.dp_choice.specs.ChoiceProof.{choice_law};
    ghost use Rattle.dp_choice.specs.Parts.{numbers_of};

    ghost mechanism = { λ c. choice (fraction_of c.ratio) c.u (numbers_of c) };

    fn in_domain(&self) -> Domain {
        Domain::IntVec {
            len: self.len,
            lo: self.lo,
            hi: self.hi,
        }
    }

    fn in_metric(&self) -> Metric {
        Metric::L1
    }

    fn draws(&self) -> u64 {
        1
    }

    fn pieces(&self) -> u64 {
        1
    }

    fn shape(&self, alloc: Global) -> Result<Shape, NoMemory> {
        Shape::one(alloc, ALL_DRAWS)
    }

    fn loss(&self, d: u64) -> Result<u64, Past> {
        if d == 0 {
            return Ok(0);
        }
        add_units(mul_units(2 * self.u, d)?, 1)
    }

    fn release<D: Draws>(
        &self,
        alloc: Global,
        v: &Value,
        draws: &mut D,
    ) -> Result<Answer, ReleaseFault>
        requires { let m = ⟦<Choice as Measurement>⟧.mechanism self.now in Has m.input_domain v.now }
        ensures released { let m = ⟦<Choice as Measurement>⟧.mechanism self.now in
            Released D.step m.shape (m.function v.now) (D.state draws.old) result (D.state draws.new) }
        ensures cause { ReleaseCause (D.faults draws.old) (D.faults draws.new) result }
        ensures memory_first { MemoryFirst (D.state draws.old) result (D.state draws.new) }
    {
        let Value::IntVec(cells) = v else {
            unreachable!()
        };
        let mut answer = Vec::with_capacity(alloc, 1)?;
        let Ok(place) = self.step(cells, draws) else {
            return Err(ReleaseFault::DrawFault);
        };
        answer.push(Piece::Cat(place)).unwrap();
        Ok(Answer::from_vec(answer))
    }

    ghost law = { λ c. choice_law (fraction_of c.ratio) c.u (numbers_of c) c.input_fits
        (c.ratio.positive, c.ratio.below_one, c.ratio.small) c.powers c.ordered c.room };
}

#[cfg(test)]
mod tests {
    use super::*;
    use dp_domain::NUMBER_LIMIT;
    use dp_draws::{NoDraws, Replay};
    use std::process::Abort;
    use std::test::Fail;

    const CELLS: Domain = Domain::IntVec {
        len: 2,
        lo: 0,
        hi: 1,
    };

    /// Weighted choice for the ratio p/q.
    fn choice(
        rt: &impl Abort,
        alloc: Global,
        domain: Domain,
        metric: Metric,
        (p, q): (u64, u64),
        u: u64,
        floor: i64,
        top: i64,
    ) -> Result<Choice, MakeFault> {
        let ratio = Ratio::new(p, q).expect(rt, "a ratio");
        assert!(rt; domain.fits());
        Choice::new(alloc, domain, metric, ratio, u, floor, top)
    }

    /// The choice for the ratio 1/2 on two cells.
    fn of_two(rt: &impl Abort, alloc: Global, floor: i64, top: i64) -> Result<Choice, MakeFault> {
        choice(rt, alloc, CELLS, Metric::L1, (1, 2), 1, floor, top)
    }

    /// The place that a choice gives on two cells at one draw.
    fn place(
        rt: &impl Abort,
        alloc: Global,
        m: &Choice,
        cells: [i64; 2],
        draw: u64,
    ) -> Option<u32> {
        let value = Value::IntVec(Cells::from_vec(Vec::from_array(alloc, cells).ok()?));
        assert!(rt; m.in_domain().has(&value));
        let Value::IntVec(cells) = &value else {
            return None;
        };
        let mut source = Replay::new(Vec::from_array(alloc, [draw]).ok()?);
        m.step(cells, &mut source).ok()
    }

    /// What a measurement releases on a value of its domain, from these draws.
    fn released<M: Measurement, D: Draws>(
        rt: &impl Abort,
        alloc: Global,
        m: &M,
        v: &Value,
        draws: &mut D,
    ) -> Result<Answer, ReleaseFault> {
        assert!(rt; m.in_domain().fits());
        assert!(rt; m.in_domain().has(v));
        m.release(alloc, v, draws)
    }

    #[test]
    fn choice_halves(rt: HostRuntime) {
        let made = of_two(&rt, rt.alloc(), 0, 1).expect(&rt, "made");
        for (cells, draw, given) in [
            ([1, 0], 0, 0),
            ([1, 0], 3_074_457_345_618_258_601, 0),
            ([1, 0], 3_074_457_345_618_258_602, 1),
            ([0, 0], 2_305_843_009_213_693_951, 0),
            ([0, 0], 2_305_843_009_213_693_952, 1),
        ] {
            assert!(rt; place(&rt, rt.alloc(), &made, cells, draw) == Some(given));
        }
    }

    #[test]
    fn each_weight_is_rounded_down(rt: HostRuntime) {
        let made = choice(&rt, rt.alloc(), CELLS, Metric::L1, (9, 10), 1, 0, 5).expect(&rt, "made");
        let wanted = [65_536, 72_817, 80_907, 89_896, 99_884, 110_982];
        assert!(rt; made.table.as_slice() == wanted.as_slice());
    }

    #[test]
    fn scores_stay_between_floor_and_top(rt: HostRuntime) {
        let domain = Domain::IntVec {
            len: 2,
            lo: -9,
            hi: 9,
        };
        let made = choice(&rt, rt.alloc(), domain, Metric::L1, (1, 2), 1, 0, 1).expect(&rt, "made");
        for (draw, given) in [
            (3_074_457_345_618_258_601, 0),
            (3_074_457_345_618_258_602, 1),
        ] {
            assert!(rt; place(&rt, rt.alloc(), &made, [9, -9], draw) == Some(given));
        }
    }

    #[test]
    fn a_choice_is_released_as_one_piece(rt: HostRuntime) -> Result<(), Fail> {
        let made = of_two(&rt, rt.alloc(), 0, 1).expect(&rt, "made");
        let shape = made.shape(rt.alloc()).expect(&rt, "memory");
        assert_eq!(rt; (made.draws(), made.pieces(), shape.len()), (1, 1, 1));
        assert_eq!(rt; shape.at(0), 4_611_686_018_427_387_904);
        let value = Value::IntVec(Cells::from_vec(Vec::from_array(rt.alloc(), [1, 0])?));
        let mut last = Replay::new(Vec::from_array(rt.alloc(), [4_611_686_018_427_387_903])?);
        let answer = released(&rt, rt.alloc(), &made, &value, &mut last).expect(&rt, "released");
        assert_eq!(rt; answer.len(), 1);
        assert!(rt; matches!(answer.at(0), Piece::Cat(1)));
        assert!(rt;
            matches!(
                released(&rt, rt.alloc(), &made, &value, &mut NoDraws::new()),
                Err(ReleaseFault::DrawFault)
            )
        );
        Ok(())
    }

    #[test]
    fn a_choice_costs_one_unit_for_rounding(rt: HostRuntime) {
        let made = of_two(&rt, rt.alloc(), 0, 45).expect(&rt, "made");
        for (d, loss) in [
            (0, Ok(0)),
            (1, Ok(3)),
            (3, Ok(7)),
            (2_147_483_647, Ok(4_294_967_295)),
            (2_147_483_648, Err(Past)),
            (4_294_967_296, Err(Past)),
        ] {
            assert_eq!(rt; made.loss(d), loss);
        }
    }

    #[test]
    fn kind_metric_and_bound_are_refused(rt: HostRuntime) {
        for (domain, metric, u, floor, top, refusal) in [
            (Domain::Texts, Metric::L1, 0, 1, 0, MakeFault::Kind),
            (CELLS, Metric::Absolute, 0, 1, 0, MakeFault::Metric),
            (CELLS, Metric::L1, 0, 0, 1, MakeFault::Bound),
            (CELLS, Metric::L1, 62, 0, 1, MakeFault::Bound),
            (CELLS, Metric::L1, 1, 1, 1, MakeFault::Bound),
            (CELLS, Metric::L1, 1, 0, 46, MakeFault::Bound),
            (CELLS, Metric::L1, 1, 0, 65_536, MakeFault::Bound),
            (
                CELLS,
                Metric::L1,
                1,
                -NUMBER_LIMIT - 1,
                -NUMBER_LIMIT,
                MakeFault::Bound,
            ),
            (
                CELLS,
                Metric::L1,
                1,
                NUMBER_LIMIT,
                NUMBER_LIMIT + 1,
                MakeFault::Bound,
            ),
        ] {
            let given = choice(&rt, rt.alloc(), domain, metric, (1, 2), u, floor, top);
            assert!(rt; given.err() == Some(refusal));
        }
        assert!(rt; of_two(&rt, rt.alloc(), -NUMBER_LIMIT, -NUMBER_LIMIT + 45).is_ok());
        assert!(rt; of_two(&rt, rt.alloc(), NUMBER_LIMIT - 45, NUMBER_LIMIT).is_ok());
    }

    #[test]
    fn the_widest_range_has_65_535_scores_above_the_least(rt: HostRuntime) {
        let slow = (65_535, 65_536);
        let widest = choice(&rt, rt.alloc(), CELLS, Metric::L1, slow, 1, -5, 65_530);
        assert!(rt; widest.is_ok());
        let wider = choice(&rt, rt.alloc(), CELLS, Metric::L1, slow, 1, -5, 65_531);
        assert!(rt; wider.err() == Some(MakeFault::Bound));
    }
}
