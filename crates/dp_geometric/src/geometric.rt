ghost use Rattle.std.specs.Prelude.{◌≡◌, ◌≤◌, ◌+◌, [], true, None, length, vec_capacity, IfOk};
ghost use Rattle.std.specs.Option.{option_map};
ghost use Rattle.std.specs.Result.{result_ok};
ghost use Rattle.dp_count.specs.Faults.{HasCause};
ghost use Rattle.dp_draws.specs.Taking.{take_draws};
ghost use Rattle.dp_num.specs.Fractions.{fraction_of};
ghost use Rattle.dp_num.specs.Limits.{ArePowers};
ghost use Rattle.dp_domain.specs.Domains.{Fits, Has};
ghost use Rattle.dp_domain.proofs.Limits.{Fits-prop};
ghost use Rattle.dp_domain.specs.declared.values.Value.TheVariants as value;
ghost use Rattle.dp_law.specs.Making.{Makes};
ghost use Rattle.dp_law.specs.Releasing.{Released, ReleaseCause, MemoryFirst};
ghost use Rattle.dp_geometric.specs.OneCell.{width, cell_shape};
ghost use Rattle.dp_geometric.specs.Geometric.{cells_shape, cells_out, add_noise, is_numeric, kind_refusal, geometric_from};
ghost use Rattle.dp_geometric.specs.Parts.{cell_of};

use crate::cell::Cell;
use dp_count::{Failed, NoMemory, Shape};
use dp_domain::{Cells, Domain, Metric, Value, is_narrow_range};
use dp_draws::Draws;
use dp_law::{Answer, Measurement, Piece, Refused, ReleaseFault};
use dp_num::{Past, Ratio, mul_units};
use std::alloc::Global;

/// Truncated geometric noise on a number, or on each cell of a vector, for the ratio p/q and u units: each step of
/// distance costs u units of loss.
#[derive(Clone, Copy, Debug)]
pub struct Geometric {
    input: Domain,
    ratio: Ratio,
    u: u64,
    cell: Cell,
    ghost input_fits: { Fits input } by { Fits-prop input },
    ghost numeric: { is_numeric input ≡ true },
    ghost powers: { ArePowers ratio.p ratio.q u (cell.low, cell.high) },
}

impl Geometric {
    /// Geometric noise with `u` units and answers from `lo` to `hi` on the domain. `Kind` comes exactly where the
    /// domain is neither `Int` nor `IntVec`, `Metric` exactly where it is one of these and the metric is not `Absolute`
    /// or `L1`, its own, and `Bound` exactly where neither comes and the powers p^u and q^u are refused, not
    /// -2^61 ≤ lo ≤ hi ≤ 2^61, or hi - lo is greater than 65,535.
    pub fn new(
        domain: Domain,
        metric: Metric,
        ratio: Ratio,
        u: u64,
        lo: i64,
        hi: i64,
    ) -> Result<Geometric, Refused>
        requires { Fits domain }
        ensures { Makes ⟦<Geometric as Measurement>⟧.mechanism result
            (geometric_from (fraction_of ratio) u lo hi domain metric) }
    {
        if let Some(refusal) = kind_refusal(domain, metric) {
            return Err(refusal);
        }
        let Ok((low, high)) = ratio.powers(u) else {
            return Err(Refused::Bound);
        };
        if !is_narrow_range(&lo, &hi) {
            return Err(Refused::Bound);
        }
        Ok(Geometric {
            input: domain,
            ratio,
            u,
            cell: Cell::new(lo, hi, low, high),
        })
    }
}

impl Measurement for Geometric {
    ghost use Rattle.dp_geometric.specs.Geometric.{geometric};
    ghost use Rattle.dp_geometric.specs.GeometricProof.{geometric_law};

    ghost mechanism = { λ g. geometric g.input (fraction_of g.ratio) g.u (cell_of g.cell) };

    fn in_domain(&self) -> Domain {
        self.input
    }

    fn in_metric(&self) -> Metric {
        match self.input {
            Domain::IntVec { .. } => Metric::L1,
            _ => Metric::Absolute,
        }
    }

    fn draws(&self) -> u64 {
        match self.input {
            Domain::IntVec { len, .. } => u64::from(len) * cell_draws(&self.cell),
            _ => cell_draws(&self.cell),
        }
    }

    fn pieces(&self) -> u64 {
        1
    }

    fn shape(&self, alloc: Global) -> Result<Shape, NoMemory> {
        match self.input {
            Domain::IntVec { len, .. } => cells_shape(&self.cell, alloc, len),
            _ => cell_shape(&self.cell, alloc),
        }
    }

    fn loss(&self, d: u64) -> Result<u64, Past> {
        mul_units(self.u, d)
    }

    fn release<D: Draws>(
        &self,
        alloc: Global,
        v: &Value,
        draws: &mut D,
    ) -> Result<Answer, ReleaseFault>
        requires { let m = ⟦<Geometric as Measurement>⟧.mechanism self.now in Has m.input_domain v.now }
        ensures released { let m = ⟦<Geometric as Measurement>⟧.mechanism self.now in
            Released D.step m.shape (m.function v.now) (D.state draws.old) result (D.state draws.new) }
        ensures cause { ReleaseCause (D.faults draws.old) (D.faults draws.new) result }
        ensures memory_first { MemoryFirst (D.state draws.old) result (D.state draws.new) }
    {
        match v {
            Value::Int(number) => release_number(&self.cell, alloc, *number, draws),
            Value::IntVec(numbers) => {
                release_vector(&self.cell, alloc, numbers.as_slice(), draws)
            }
            _ => unreachable!(),
        }
    }

    ghost law = { λ g. geometric_law g.input (fraction_of g.ratio) g.u (cell_of g.cell) g.input_fits g.numeric
        (g.ratio.positive, g.ratio.below_one, g.ratio.small) g.powers g.cell.ordered g.cell.narrow };
}

/// The refusal by the domain's kind and the metric, if there is one.
fn kind_refusal(domain: Domain, metric: Metric) -> Option<Refused>
    ensures refusal { result ≡ kind_refusal domain metric }
    ensures numeric { result ≡ None → is_numeric domain ≡ true }
{
    let own = match domain {
        Domain::Int { .. } => Metric::Absolute,
        Domain::IntVec { .. } => Metric::L1,
        _ => return Some(Refused::Kind),
    };
    if metric != own {
        return Some(Refused::Metric);
    }
    None
}

/// How many draws one cell takes.
fn cell_draws(cell: &Cell) -> u64
    ensures value { result ≡ 1 + width (cell_of cell.now) }
    ensures few { result ≤ 65536 }
{
    1 + cell.width()
}

/// The shape of one cell.
fn cell_shape(cell: &Cell, alloc: Global) -> Result<Shape, NoMemory>
    ensures { IfOk result (λ shape. shape ≡ cell_shape (cell_of cell.now)) }
{
    let mut shape = Shape::one(alloc, cell.high + cell.low)?;
    shape.join(&Shape::repeat(alloc, cell.high, cell.width())?)?;
    Ok(shape)
}

/// The shape of `count` cells.
fn cells_shape(cell: &Cell, alloc: Global, count: u32) -> Result<Shape, NoMemory>
    requires { count ≤ 1024 }
    ensures { IfOk result (λ shape. shape ≡ cells_shape count (cell_of cell.now)) }
{
    let one = cell_shape(cell, alloc)?;
    let mut shape = Shape::new(alloc);
    for _turn in 0..count {
        shape.join(&one)?;
    }
    Ok(shape)
}

/// A cell's answer on a number, as one piece. Memory is taken before the first draw.
fn release_number<D: Draws>(
    cell: &Cell,
    alloc: Global,
    number: i64,
    draws: &mut D,
) -> Result<Answer, ReleaseFault>
    ensures released { Released D.step (cell_shape (cell_of cell.now))
        (add_noise (cell_of cell.now) (value.Int number)) (D.state draws.old) result (D.state draws.new) }
    ensures cause { ReleaseCause (D.faults draws.old) (D.faults draws.new) result }
    ensures memory_first { MemoryFirst (D.state draws.old) result (D.state draws.new) }
{
    let mut answer = Vec::with_capacity(alloc, 1)?;
    let Ok(given) = cell.step(number, draws) else {
        return Err(ReleaseFault::DrawFault);
    };
    answer.push(Piece::Int(given)).unwrap();
    Ok(Answer::from_vec(answer))
}

/// A cell's answers on the numbers of a vector, each on its own draws, as one piece. Memory is taken before the first
/// draw.
fn release_vector<D: Draws>(
    cell: &Cell,
    alloc: Global,
    numbers: &[i64],
    draws: &mut D,
) -> Result<Answer, ReleaseFault>
    ensures released { Released D.step (cells_shape (length numbers.now) (cell_of cell.now))
        (add_noise (cell_of cell.now) (value.IntVec numbers.now)) (D.state draws.old) result (D.state draws.new) }
    ensures cause { ReleaseCause (D.faults draws.old) (D.faults draws.new) result }
    ensures memory_first { MemoryFirst (D.state draws.old) result (D.state draws.new) }
{
    let mut answer = Vec::with_capacity(alloc, 1)?;
    let mut given = Vec::with_capacity(alloc, numbers.len())?;
    let Ok(()) = step_each(cell, numbers, &mut given, draws) else {
        return Err(ReleaseFault::DrawFault);
    };
    answer.push(Piece::IntVec(Cells::from_vec(given))).unwrap();
    Ok(Answer::from_vec(answer))
}

/// Puts the cell's answers on the numbers, each on its own draws, into an empty vector with room for them.
fn step_each<D: Draws>(
    cell: &Cell,
    numbers: &[i64],
    given: &mut Vec<i64>,
    draws: &mut D,
) -> Result<(), Failed>
    requires empty { given.old.items ≡ [] }
    requires room { length numbers.now ≤ vec_capacity given.old }
    ensures answers { option_map (λ _. given.new.items) (result_ok result)
        ≡ option_map (cells_out (cell_of cell.now) numbers.now)
        (take_draws D.step (D.state draws.old) (cells_shape (length numbers.now) (cell_of cell.now))).draws }
    ensures last { D.state draws.new
        ≡ (take_draws D.step (D.state draws.old) (cells_shape (length numbers.now) (cell_of cell.now))).last }
    ensures cause { HasCause (D.faults draws.old) (D.faults draws.new) result }
{
    for number in numbers {
        let answer = cell.step(*number, draws)?;
        given.push(answer).unwrap();
    }
    Ok(())
}

#[cfg(test)]
mod tests {
    use super::*;
    use dp_draws::Replay;
    use std::process::Abort;
    use std::test::Fail;

    const CELLS: Domain = Domain::IntVec {
        len: 2,
        lo: 0,
        hi: 5,
    };

    const NUMBER: Domain = Domain::Int { lo: 0, hi: 9 };

    /// Geometric noise for the ratio 1/2.
    fn geometric(
        rt: &impl Abort,
        domain: Domain,
        metric: Metric,
        u: u64,
        lo: i64,
        hi: i64,
    ) -> Result<Geometric, Refused> {
        let ratio = Ratio::new(1, 2).expect(rt, "a ratio");
        assert!(rt; domain.fits());
        Geometric::new(domain, metric, ratio, u, lo, hi)
    }

    /// What a measurement releases on a value of its domain, from these draws.
    fn released<M: Measurement, const N: usize>(
        rt: &impl Abort,
        alloc: Global,
        m: &M,
        v: &Value,
        draws: [u64; N],
    ) -> Result<Answer, ReleaseFault> {
        assert!(rt; m.in_domain().fits());
        assert!(rt; m.in_domain().has(v));
        let draws = Vec::from_array(alloc, draws).expect(rt, "memory");
        m.release(alloc, v, &mut Replay::new(draws))
    }

    #[test]
    fn each_cell_of_a_vector_takes_its_own_draws(rt: HostRuntime) -> Result<(), Fail> {
        let made = geometric(&rt, CELLS, Metric::L1, 1, 0, 1).expect(&rt, "made");
        let shape = made.shape(rt.alloc()).expect(&rt, "memory");
        assert_eq!(rt; (shape.len(), made.draws(), made.pieces()), (4, 4, 1));
        for (k, bound) in [(0, 3), (1, 2), (2, 3), (3, 2)] {
            assert!(rt; k < shape.len());
            assert_eq!(rt; shape.at(k), bound);
        }
        let value = Value::IntVec(Cells::from_vec(Vec::from_array(rt.alloc(), [0, 0])?));
        let answer = released(&rt, rt.alloc(), &made, &value, [1, 1, 2, 0]).expect(&rt, "released");
        assert_eq!(rt; answer.len(), 1);
        assert!(rt;
            matches!(answer.at(0), Piece::IntVec(cells) if cells.as_slice() == [1, 0].as_slice())
        );
        Ok(())
    }

    #[test]
    fn a_number_is_one_cell(rt: HostRuntime) -> Result<(), Fail> {
        let made = geometric(&rt, Domain::Int { lo: 0, hi: 5 }, Metric::Absolute, 1, 0, 1).expect(
            &rt, "made",
        );
        assert!(rt; made.in_metric() == Metric::Absolute);
        let answer = released(&rt, rt.alloc(), &made, &Value::Int(0), [1, 1]).expect(
            &rt, "released",
        );
        assert_eq!(rt; answer.len(), 1);
        assert!(rt; matches!(answer.at(0), Piece::Int(1)));
        assert!(rt;
            matches!(
                released(&rt, rt.alloc(), &made, &Value::Int(0), [1]),
                Err(ReleaseFault::DrawFault)
            )
        );
        Ok(())
    }

    #[test]
    fn a_number_takes_one_first_draw_and_as_many_as_the_range_is_wide(rt: HostRuntime) {
        let made = geometric(&rt, NUMBER, Metric::Absolute, 1, 0, 5).expect(&rt, "made");
        let shape = made.shape(rt.alloc()).expect(&rt, "memory");
        assert_eq!(rt; (shape.len(), made.draws(), made.pieces()), (6, 6, 1));
        for (k, bound) in [(0, 3), (1, 2), (2, 2), (3, 2), (4, 2), (5, 2)] {
            assert!(rt; k < shape.len());
            assert_eq!(rt; shape.at(k), bound, "at {k}");
        }
    }

    #[test]
    fn a_number_gets_its_noise_and_stays_in_the_range(rt: HostRuntime) {
        let made = geometric(&rt, NUMBER, Metric::Absolute, 1, 0, 5).expect(&rt, "made");
        for (number, draws, wanted) in [
            (2, [0, 0, 0, 0, 0, 0], 2),
            (2, [1, 1, 0, 0, 0, 0], 3),
            (2, [1, 0, 0, 1, 0, 0], 5),
            (2, [2, 1, 0, 0, 0, 0], 1),
            (2, [2, 0, 0, 0, 1, 0], 0),
            (9, [2, 0, 1, 0, 0, 0], 3),
        ] {
            let answer = released(&rt, rt.alloc(), &made, &Value::Int(number), draws);
            let answer = answer.expect(&rt, "released");
            assert_eq!(rt; answer.len(), 1);
            assert!(rt; matches!(answer.at(0), Piece::Int(given) if *given == wanted));
        }
    }

    #[test]
    fn a_vector_gets_its_noise_cell_by_cell(rt: HostRuntime) -> Result<(), Fail> {
        let made = geometric(&rt, CELLS, Metric::L1, 1, 0, 3).expect(&rt, "made");
        let value = Value::IntVec(Cells::from_vec(Vec::from_array(rt.alloc(), [1, 5])?));
        for (draws, wanted) in [
            ([1, 1, 0, 0, 2, 0, 1, 0], [2, 1]),
            ([2, 0, 0, 0, 0, 0, 0, 0], [0, 3]),
            ([1, 0, 0, 1, 2, 1, 1, 1], [3, 2]),
        ] {
            let answer = released(&rt, rt.alloc(), &made, &value, draws).expect(&rt, "released");
            assert_eq!(rt; answer.len(), 1);
            assert!(rt;
                matches!(answer.at(0), Piece::IntVec(cells) if cells.as_slice() == wanted.as_slice())
            );
        }
        Ok(())
    }

    #[test]
    fn each_step_of_distance_costs_u_units(rt: HostRuntime) {
        let made = geometric(&rt, CELLS, Metric::L1, 1, 0, 1).expect(&rt, "made");
        assert_eq!(rt; made.loss(3), Ok(3));
        let twice = geometric(&rt, CELLS, Metric::L1, 2, 0, 1).expect(&rt, "made");
        assert_eq!(rt; twice.loss(2_147_483_648), Ok(4_294_967_296));
        assert_eq!(rt; twice.loss(2_147_483_649), Err(Past));
    }

    #[test]
    fn kind_metric_and_bound_are_refused(rt: HostRuntime) {
        for (domain, metric, u, lo, hi, refusal) in [
            (Domain::Texts, Metric::L1, 1, 0, 1, Refused::Kind),
            (
                Domain::Cat { n: 2 },
                Metric::Discrete,
                0,
                1,
                0,
                Refused::Kind,
            ),
            (CELLS, Metric::Absolute, 0, 1, 0, Refused::Metric),
            (
                Domain::Int { lo: 0, hi: 5 },
                Metric::L1,
                1,
                0,
                1,
                Refused::Metric,
            ),
            (CELLS, Metric::L1, 0, 0, 1, Refused::Bound),
            (CELLS, Metric::L1, 62, 0, 1, Refused::Bound),
            (CELLS, Metric::L1, 1, 1, 0, Refused::Bound),
            (CELLS, Metric::L1, 1, 0, 65_536, Refused::Bound),
        ] {
            assert!(rt;
                matches!(geometric(&rt, domain, metric, u, lo, hi), Err(given) if given == refusal)
            );
        }
    }
}
