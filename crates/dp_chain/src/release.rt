ghost use Rattle.std.specs.Prelude.{Some, ◌≡◌, ◌≤◌, ◌^◌, ◌++◌, ◌∷◌, [], length, IfOk, OnOk, OnErr};
ghost use Rattle.std.specs.Result.{result_ok};
ghost use Rattle.dp_domain.specs.Domains.{Fits};
ghost use Rattle.dp_domain.specs.Metrics.{SuitsMetric};
ghost use Rattle.dp_domain.proofs.Limits.{Fits-prop};
ghost use Rattle.dp_law.specs.Making.{MakesOr};
ghost use Rattle.dp_chain.specs.Releases.{release_on, part_on, joined_shape, joined_answer, all_pieces, total_loss, cost_of, IsLike, TakeAll};
ghost use Rattle.dp_num.specs.Fractions.{fraction_of};
ghost use Rattle.dp_chain.specs.PartMeanings.{part_mechanism, part_mechanisms, PartsAlike};
ghost use Rattle.dp_chain.specs.PartMeaningsProof.{PartsAlike-prop};
ghost use Rattle.dp_domain.proofs.Limits.{SuitsMetric-prop};
ghost use Rattle.dp_law.specs.Releasing.{Released, ReleaseCause};

use crate::any_measurement::AnyMeasurement;
use crate::both::joined_answers;
use crate::faults::CostFault;
use crate::input::Input;
use crate::line::{Line, append};
use crate::measured::Measured;
use crate::noise::{Part, ReleaseSpec};
use dp_count::{NoMemory, Shape};
use dp_domain::{Domain, Metric, Value};
use dp_draws::Draws;
use dp_law::{Answer, MakeFault, Measurement, ReleaseFault, Transformation};
use dp_num::{Past, Ratio, add_units};
use std::alloc::Global;

/// The greatest number of draws of one release.
const MOST_DRAWS: u64 = 1_048_576;

/// A part of a release: a line, and the measurement of what it gives.
pub type MeasuredLine = Measured<Line, AnyMeasurement>;

/// Parts on one input, as one measurement: their shapes and answers in order, and their losses added.
#[derive(Drop)]
pub struct Release {
    domain: Domain,
    metric: Metric,
    ratio: Ratio,
    parts: Vec<MeasuredLine>,
    ghost fits: { Fits domain } by { Fits-prop domain },
    ghost suits: { SuitsMetric domain metric } by { SuitsMetric-prop domain metric },
    ghost few: { length parts.items ≤ 16 },
    ghost alike: { PartsAlike ratio domain metric parts.items } by { PartsAlike-prop ratio domain metric parts.items },
}

impl Release {
    ghost use Rattle.dp_chain.specs.Release.{release_parts};

    /// The parts of the spec, 1 to 16, made from first to last on one domain and metric, with the ratio p/q. The first
    /// part that is refused decides; within it the first stage that is refused, and then the noise.
    pub fn make(
        alloc: Global,
        domain: Domain,
        metric: Metric,
        ratio: Ratio,
        spec: &ReleaseSpec,
    ) -> Result<Release, MakeFault>
        requires fits { Fits domain }
        requires some { 1 ≤ length spec.now }
        requires few { length spec.now ≤ 16 }
        ensures made { MakesOr ⟦<Release as Measurement>⟧.mechanism result
            (release_on (fraction_of ratio) spec.now domain metric) }
        ensures nothing_at_0 { IfOk result (λ release.
            let m = ⟦<Release as Measurement>⟧.mechanism release in m.privacy_map 0 ≡ Some 0) }
        ensures few_pieces { IfOk result (λ release.
            let m = ⟦<Release as Measurement>⟧.mechanism release in m.pieces ≤ 16) }
    {
        make_release(alloc, domain, metric, ratio, spec.as_slice())
    }

    /// What one release costs on values within `d`, in units. `Distance` comes exactly where a part's stability map or
    /// privacy map, or the sum of the losses, passes 2^32; `Draws` exactly where `Distance` does not and the release
    /// takes more than 2^20 draws.
    pub fn cost(&self, d: u64) -> Result<u64, CostFault>
        requires { d ≤ 2 ^ 32 }
        ensures { let m = ⟦<Release as Measurement>⟧.mechanism self.now in result ≡ cost_of m d }
    {
        cost_of(self, d)
    }

    /// The release on an input: each part's line is applied to it, and what it gives is measured, one part after the
    /// other. The draws and the faults are those of `release` on the value for which the input stands.
    pub fn release_from<I: Input, D: Draws>(
        &self,
        alloc: Global,
        input: &I,
        draws: &mut D,
    ) -> Result<Answer, ReleaseFault>
        requires { let m = ⟦<Release as Measurement>⟧.mechanism self.now in I.takes input.now m.input_domain }
        ensures released { let m = ⟦<Release as Measurement>⟧.mechanism self.now in
            Released D.step m.shape (m.function (I.stands_for input.now))
            (D.state draws.old) result (D.state draws.new) }
        ensures cause { ReleaseCause (D.faults draws.old) (D.faults draws.new) result }
    {
        release_each(alloc, self.parts.as_slice(), input, draws)
    }

    /// The parts, each a line and the measurement of what it gives.
    pub fn parts(&self) -> &[MeasuredLine]
        ensures { result.now ≡ release_parts self.now }
    {
        self.parts.as_slice()
    }
}

impl Measurement for Release {
    ghost use Rattle.dp_chain.specs.Releases.{joined};
    ghost use Rattle.dp_chain.specs.ReleasesProof.{release_law};
    ghost use Rattle.dp_law.proofs.ChainingLaw.{measured_law};
    ghost use Rattle.dp_chain.specs.contracts.line.LineTransformation.TheImpl.Laws.{law-law as line_law};
    ghost use Rattle.dp_chain.specs.contracts.any_measurement.AnyMeasurementMeasurement.TheImpl.Laws.{law-law as noise_law};

    ghost mechanism = { λ r. joined (fraction_of r.ratio) r.domain r.metric (part_mechanisms r.parts.items) };

    fn in_domain(&self) -> Domain {
        self.domain
    }

    fn in_metric(&self) -> Metric {
        self.metric
    }

    fn draws(&self) -> u64 {
        all_draws(self.parts.as_slice())
    }

    fn pieces(&self) -> u64 {
        all_pieces(self.parts.as_slice())
    }

    fn shape(&self, alloc: Global) -> Result<Shape, NoMemory> {
        joined_shape(alloc, self.parts.as_slice())
    }

    fn loss(&self, d: u64) -> Result<u64, Past> {
        total_loss(self.parts.as_slice(), d)
    }

    fn release<D: Draws>(
        &self,
        alloc: Global,
        v: &Value,
        draws: &mut D,
    ) -> Result<Answer, ReleaseFault> {
        release_each(alloc, self.parts.as_slice(), v, draws)
    }

    ghost law = { λ r. release_law part_mechanism
        (λ m. measured_law (⟦<Line as Transformation>⟧.mapping m.first)
        (⟦<AnyMeasurement as Measurement>⟧.mechanism m.second)
        (line_law m.first) (noise_law m.second) m.domains m.metrics)
        (fraction_of r.ratio) r.domain r.metric r.parts.items r.fits r.suits
        (r.ratio.positive, r.ratio.below_one, r.ratio.small) r.few r.alike };
}

/// What one release of a measurement costs on values within `d`, in units. `Distance` comes exactly where its privacy
/// map has no number there; `Draws` exactly where it has one and the release takes more than 2^20 draws.
pub fn cost_of<M: Measurement>(measurement: &M, d: u64) -> Result<u64, CostFault>
    requires { d ≤ 2 ^ 32 }
    ensures { let m = M.mechanism measurement.now in result ≡ cost_of m d }
{
    let Ok(loss) = measurement.loss(d) else {
        return Err(CostFault::Distance);
    };
    if measurement.draws() > MOST_DRAWS {
        return Err(CostFault::Draws);
    }
    Ok(loss)
}

/// The release of the parts, made from first to last.
fn make_release(
    alloc: Global,
    domain: Domain,
    metric: Metric,
    ratio: Ratio,
    parts: &[Part],
) -> Result<Release, MakeFault>
    requires fits { Fits domain }
    requires some { 1 ≤ length parts.now }
    requires few { length parts.now ≤ 16 }
    ensures made { MakesOr ⟦<Release as Measurement>⟧.mechanism result
        (release_on (fraction_of ratio) parts.now domain metric) }
    ensures nothing_at_0 { IfOk result (λ release.
        let m = ⟦<Release as Measurement>⟧.mechanism release in m.privacy_map 0 ≡ Some 0) }
    ensures few_pieces { IfOk result (λ release.
        let m = ⟦<Release as Measurement>⟧.mechanism release in m.pieces ≤ 16) }
{
    let mut made = Vec::new(alloc);
    for part in parts {
        let next = match make_part(alloc, domain, metric, ratio, part) {
            Ok(next) => next,
            Err(fault) => return Err(fault),
        };
        append(&mut made, next)?;
    }
    Ok(Release {
        domain,
        metric,
        ratio,
        parts: made,
    })
}

/// The line of a part, and the measurement of what it gives.
fn make_part(
    alloc: Global,
    domain: Domain,
    metric: Metric,
    ratio: Ratio,
    part: &Part,
) -> Result<MeasuredLine, MakeFault>
    requires { Fits domain }
    ensures made { MakesOr part_mechanism result (part_on (fraction_of ratio) part.now domain metric) }
    ensures alike { IfOk result (λ made. IsLike (fraction_of ratio) domain metric (part_mechanism made)) }
{
    let line = match Line::make(alloc, domain, metric, &part.stages) {
        Ok(line) => line,
        Err(fault) => return Err(fault),
    };
    let to_domain = line.out_domain();
    let to_metric = line.out_metric();
    match AnyMeasurement::make(alloc, to_domain, to_metric, ratio, &part.noise) {
        Ok(noise) => Ok(Measured::joined(line, noise)),
        Err(fault) => Err(fault),
    }
}

/// How many draws the parts take.
fn all_draws(parts: &[MeasuredLine]) -> u64
    requires { length (joined_shape (part_mechanisms parts.now)) ≤ 2 ^ 40 }
    ensures { result ≡ length (joined_shape (part_mechanisms parts.now)) }
{
    let Some((first, rest)) = parts.split_first() else {
        return 0;
    };
    first.draws() + all_draws(rest)
}

/// How many pieces the answers of the parts have.
fn all_pieces(parts: &[MeasuredLine]) -> u64
    requires { all_pieces (part_mechanisms parts.now) ≤ 2 ^ 31 }
    ensures { result ≡ all_pieces (part_mechanisms parts.now) }
{
    let Some((first, rest)) = parts.split_first() else {
        return 0;
    };
    first.pieces() + all_pieces(rest)
}

/// The shapes of the parts in order.
fn joined_shape(alloc: Global, parts: &[MeasuredLine]) -> Result<Shape, NoMemory>
    requires { length (joined_shape (part_mechanisms parts.now)) ≤ 2 ^ 40 }
    ensures { IfOk result (λ shape. shape ≡ joined_shape (part_mechanisms parts.now)) }
{
    let Some((first, rest)) = parts.split_first() else {
        return Ok(Shape::new(alloc));
    };
    let mut shape = first.shape(alloc)?;
    shape.join(&joined_shape(alloc, rest)?)?;
    Ok(shape)
}

/// The sum of the losses of the parts.
fn total_loss(parts: &[MeasuredLine], d: u64) -> Result<u64, Past>
    requires { d ≤ 2 ^ 32 }
    ensures { result_ok result ≡ total_loss (part_mechanisms parts.now) d }
{
    let Some((first, rest)) = parts.split_first() else {
        return Ok(0);
    };
    let Ok(front) = first.loss(d) else {
        return Err(Past);
    };
    let Ok(back) = total_loss(rest, d) else {
        return Err(Past);
    };
    add_units(front, back)
}

/// The answers of the parts in order, each on draws of its own. A part takes the memory for its answer before its first
/// draw.
fn release_each<I: Input, D: Draws>(
    alloc: Global,
    parts: &[MeasuredLine],
    input: &I,
    draws: &mut D,
) -> Result<Answer, ReleaseFault>
    requires { TakeAll (I.takes input.now) (part_mechanisms parts.now) }
    ensures released { let parts = part_mechanisms parts.now in
        Released D.step (joined_shape parts) (joined_answer parts (I.stands_for input.now))
        (D.state draws.old) result (D.state draws.new) }
    ensures cause { ReleaseCause (D.faults draws.old) (D.faults draws.new) result }
{
    let Some((first, rest)) = parts.split_first() else {
        return Ok(Answer::new(alloc));
    };
    match release_part(alloc, first, input, draws) {
        Err(fault) => Err(fault),
        Ok(front) => match release_each(alloc, rest, input, draws) {
            Err(fault) => Err(fault),
            Ok(back) => match joined_answers(front, back) {
                Err(NoMemory) => Err(ReleaseFault::NoMemory),
                Ok(answer) => Ok(answer),
            },
        },
    }
}

/// The answer of one part: its line is applied to the input, and what it gives is measured.
fn release_part<I: Input, D: Draws>(
    alloc: Global,
    part: &MeasuredLine,
    input: &I,
    draws: &mut D,
) -> Result<Answer, ReleaseFault>
    requires { let m = part_mechanism part.now in I.takes input.now m.input_domain }
    ensures released { let m = part_mechanism part.now in
        Released D.step m.shape (m.function (I.stands_for input.now))
        (D.state draws.old) result (D.state draws.new) }
    ensures cause { ReleaseCause (D.faults draws.old) (D.faults draws.new) result }
{
    let between = match input.through(alloc, part.first()) {
        Ok(between) => between,
        Err(NoMemory) => return Err(ReleaseFault::NoMemory),
    };
    part.second().release(alloc, &between, draws)
}
