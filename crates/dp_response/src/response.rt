ghost use Rattle.std.specs.Prelude.{◌≡◌, ◌<◌, ◌≤◌, ◌+◌, ◌-◌, ◌*◌, ◌^◌, [], ◌∷◌, nat_le};
ghost use Rattle.std.specs.Option.{option_map};
ghost use Rattle.std.specs.Result.{result_ok};
ghost use Rattle.dp_count.specs.Faults.{HasCause};
ghost use Rattle.dp_draws.specs.Taking.{take_draws};
ghost use Rattle.dp_num.specs.Fractions.{fraction_of};
ghost use Rattle.dp_num.specs.Limits.{ArePowers};
ghost use Rattle.dp_domain.specs.Domains.{Fits, Has};
ghost use Rattle.dp_domain.proofs.Limits.{Fits-prop};
ghost use Rattle.dp_domain.specs.declared.domains.Domain.TheVariants as domain;
ghost use Rattle.dp_domain.specs.declared.values.Value.TheVariants as value;
ghost use Rattle.dp_law.specs.declared.pieces.Piece.TheVariants as piece;
ghost use Rattle.dp_law.specs.Making.{Makes};
ghost use Rattle.dp_law.specs.Releasing.{Released, ReleaseCause, MemoryFirst};
ghost use Rattle.dp_response.specs.Response.{draw_bound, other_value, response_from};

use dp_count::{Failed, NoMemory, Shape};
use dp_domain::{Domain, Metric, Value};
use dp_draws::Draws;
use dp_law::{Answer, Measurement, Piece, Refused, ReleaseFault};
use dp_num::{Past, Ratio, mul_units};
use std::alloc::Global;

/// The greatest bound of a draw.
const MOST: u128 = 1 << 62;

/// Randomised response on categories below n, for the ratio p/q and u units: the true value is given by q^u draws, and
/// each other value by p^u draws. Values that differ cost u units of loss.
#[derive(Clone, Copy, Debug)]
pub struct Response {
    n: u32,
    ratio: Ratio,
    u: u64,
    low: u64,
    high: u64,
    ghost input_fits: { Fits (domain.Cat n) } by { Fits-prop (domain.Cat n) },
    ghost powers: { ArePowers ratio.p ratio.q u (low, high) },
    ghost bounded: { draw_bound (record { n = n; low = low; high = high }) ≤ 2 ^ 62 },
}

impl Response {
    ghost use Rattle.dp_response.specs.Parts.{numbers_of};
    ghost use Rattle.dp_response.specs.Response.{reply};

    /// Randomised response with `u` units on the domain. `Kind` comes exactly where the domain is not `Cat`, `Metric`
    /// exactly where it is and the metric is not `Discrete`, and `Bound` exactly where neither comes and the powers p^u
    /// and q^u are refused or q^u + (n - 1)·p^u is greater than 2^62.
    pub fn new(domain: Domain, metric: Metric, ratio: Ratio, u: u64) -> Result<Response, Refused>
        requires { Fits domain }
        ensures { Makes ⟦<Response as Measurement>⟧.mechanism result
            (response_from (fraction_of ratio) u domain metric) }
    {
        let Domain::Cat { n } = domain else {
            return Err(Refused::Kind);
        };
        if metric != Metric::Discrete {
            return Err(Refused::Metric);
        }
        let Ok((low, high)) = ratio.powers(u) else {
            return Err(Refused::Bound);
        };
        if !is_bounded(n, low, high) {
            return Err(Refused::Bound);
        }
        Ok(Response {
            n,
            ratio,
            u,
            low,
            high,
        })
    }

    /// A reply to the true value `v`, a category of the domain, from one draw below q^u + (n - 1)·p^u. `Failed` comes
    /// exactly where that draw fails.
    pub fn step<D: Draws>(&self, v: u32, draws: &mut D) -> Result<u32, Failed>
        requires { let m = ⟦<Response as Measurement>⟧.mechanism self.now in Has m.input_domain (value.Cat v) }
        ensures reply { let m = ⟦<Response as Measurement>⟧.mechanism self.now in
            option_map (λ a. piece.Cat a ∷ []) (result_ok result)
            ≡ option_map (m.function (value.Cat v)) (take_draws D.step (D.state draws.old) m.shape).draws }
        ensures last { let m = ⟦<Response as Measurement>⟧.mechanism self.now in
            D.state draws.new ≡ (take_draws D.step (D.state draws.old) m.shape).last }
        ensures cause { HasCause (D.faults draws.old) (D.faults draws.new) result }
    {
        let draw = draws.below(self.draw_bound())?;
        Ok(self.reply(v, draw))
    }

    /// The bound of the draw.
    fn draw_bound(&self) -> u64
        ensures value { result ≡ draw_bound (numbers_of self.now) }
        ensures positive { 1 ≤ result }
        ensures bounded { result ≤ 2 ^ 62 }
    {
        self.high + u64::from(self.n - 1) * self.low
    }

    /// The reply of a draw.
    fn reply(&self, truth: u32, draw: u64) -> u32
        requires truth { truth < self.now.n }
        requires draw { draw < draw_bound (numbers_of self.now) }
        ensures { result ≡ reply (numbers_of self.now) truth draw }
    {
        if draw < self.high {
            return truth;
        }
        other_value(truth, ((draw - self.high) / self.low) as u32)
    }
}

impl Measurement for Response {
    ghost use Rattle.dp_response.specs.Parts.{numbers_of};
    ghost use Rattle.dp_response.specs.Response.{response};
    ghost use Rattle.dp_response.specs.ResponseProof.{response_law};

    ghost mechanism = { λ r. response (fraction_of r.ratio) r.u (numbers_of r) };

    fn in_domain(&self) -> Domain {
        Domain::Cat { n: self.n }
    }

    fn in_metric(&self) -> Metric {
        Metric::Discrete
    }

    fn draws(&self) -> u64 {
        1
    }

    fn pieces(&self) -> u64 {
        1
    }

    fn shape(&self, alloc: Global) -> Result<Shape, NoMemory> {
        Shape::one(alloc, self.draw_bound())
    }

    fn loss(&self, d: u64) -> Result<u64, Past> {
        mul_units(self.u, d.min(1))
    }

    fn release<D: Draws>(
        &self,
        alloc: Global,
        v: &Value,
        draws: &mut D,
    ) -> Result<Answer, ReleaseFault>
        requires { let m = ⟦<Response as Measurement>⟧.mechanism self.now in Has m.input_domain v.now }
        ensures released { let m = ⟦<Response as Measurement>⟧.mechanism self.now in
            Released D.step m.shape (m.function v.now) (D.state draws.old) result (D.state draws.new) }
        ensures cause { ReleaseCause (D.faults draws.old) (D.faults draws.new) result }
        ensures memory_first { MemoryFirst (D.state draws.old) result (D.state draws.new) }
    {
        let Value::Cat(truth) = v else { unreachable!() };
        let mut answer = Vec::with_capacity(alloc, 1)?;
        let Ok(given) = self.step(*truth, draws) else {
            return Err(ReleaseFault::DrawFault);
        };
        answer.push(Piece::Cat(given)).unwrap();
        Ok(Answer::from_vec(answer))
    }

    ghost law = { λ r. response_law (fraction_of r.ratio) r.u (numbers_of r) r.input_fits
        (r.ratio.positive, r.ratio.below_one, r.ratio.small) r.powers r.bounded };
}

/// Whether the bound of the draw is at most 2^62.
fn is_bounded(n: u32, low: u64, high: u64) -> bool
    requires { 1 ≤ n }
    ensures { result ≡ nat_le (draw_bound (record { n = n; low = low; high = high })) (2 ^ 62) }
{
    u128::from(high) + u128::from(n - 1) * u128::from(low) <= MOST
}

/// The category at a place of the categories without the true one.
fn other_value(truth: u32, place: u32) -> u32
    requires { place < 2 ^ 32 - 1 }
    ensures { result ≡ other_value truth place }
{
    if place < truth { place } else { place + 1 }
}

#[cfg(test)]
mod tests {
    use super::*;
    use dp_draws::{NoDraws, Replay};
    use std::process::Abort;

    /// Randomised response on categories below `n`, for the ratio p/q.
    fn on_categories(rt: &impl Abort, n: u32, p: u64, q: u64, u: u64) -> Result<Response, Refused>
        requires { Fits (domain.Cat n) }
    {
        let ratio = Ratio::new(p, q).expect(rt, "a ratio");
        Response::new(Domain::Cat { n }, Metric::Discrete, ratio, u)
    }

    /// What a measurement releases on a value of its domain, from these draws.
    fn released<M: Measurement, const N: usize>(
        rt: &impl Abort,
        alloc: Global,
        m: &M,
        v: &Value,
        draws: [u64; N],
    ) -> Result<Answer, ReleaseFault>
        requires { let m = M.mechanism m.now in Fits m.input_domain }
    {
        assert!(rt; m.in_domain().has(v));
        let mut source = Replay::new(Vec::from_array(alloc, draws).expect(rt, "memory"));
        m.release(alloc, v, &mut source)
    }

    #[test]
    fn response_draws(rt: HostRuntime) {
        let made = on_categories(&rt, 3, 1, 2, 1).expect(&rt, "made");
        assert!(rt; made.n == 3);
        for (draw, given) in [(0, 1), (1, 1), (2, 0), (3, 2)] {
            let mut source = Replay::new(Vec::from_array(rt.alloc(), [draw]).expect(&rt, "memory"));
            assert_eq!(rt; made.step(1, &mut source), Ok(given), "at {draw}");
        }
    }

    #[test]
    fn a_reply_is_released_as_one_piece(rt: HostRuntime) {
        let made = on_categories(&rt, 3, 1, 2, 1).expect(&rt, "made");
        let shape = made.shape(rt.alloc()).expect(&rt, "memory");
        assert_eq!(rt; (made.draws(), made.pieces(), shape.len()), (1, 1, 1));
        assert_eq!(rt; shape.at(0), 4);
        let answer = released(&rt, rt.alloc(), &made, &Value::Cat(1), [3]);
        let answer = answer.expect(&rt, "released");
        assert_eq!(rt; answer.len(), 1);
        assert!(rt; matches!(answer.at(0), Piece::Cat(2)));
    }

    #[test]
    fn the_greatest_bound_is_two_to_the_sixty_two(rt: HostRuntime) {
        let made = on_categories(&rt, 2, 9, 10, 18).expect(&rt, "made");
        let shape = made.shape(rt.alloc()).expect(&rt, "memory");
        assert_eq!(rt; shape.at(0), 1_150_094_635_296_999_121);
        assert_eq!(rt;
            on_categories(&rt, 1024, 9, 10, 18).err(),
            Some(Refused::Bound)
        );
        assert_eq!(rt; on_categories(&rt, 3, 1, 2, 0).err(), Some(Refused::Bound));
    }

    #[test]
    fn values_that_differ_cost_the_units(rt: HostRuntime) {
        let made = on_categories(&rt, 3, 1, 2, 4).expect(&rt, "made");
        for (d, loss) in [(0, 0), (1, 4), (9, 4), (4_294_967_296, 4)] {
            assert_eq!(rt; made.loss(d), Ok(loss), "at {d}");
        }
    }

    #[test]
    fn the_domain_is_refused_before_the_metric_and_the_units(rt: HostRuntime) {
        let half = Ratio::new(1, 2).expect(&rt, "a ratio");
        let number = Response::new(Domain::Int { lo: 0, hi: 1 }, Metric::Absolute, half, 0);
        assert_eq!(rt; number.err(), Some(Refused::Kind));
        let category = Response::new(Domain::Cat { n: 2 }, Metric::Absolute, half, 0);
        assert_eq!(rt; category.err(), Some(Refused::Metric));
    }

    #[test]
    fn a_draw_that_fails_gives_no_reply(rt: HostRuntime) {
        let made = on_categories(&rt, 3, 1, 2, 1).expect(&rt, "made");
        assert!(rt; made.n == 3);
        assert_eq!(rt; made.step(1, &mut NoDraws::new()), Err(Failed));
        let fault = released(&rt, rt.alloc(), &made, &Value::Cat(1), [4]).err();
        assert_eq!(rt; fault, Some(ReleaseFault::DrawFault));
    }
}
