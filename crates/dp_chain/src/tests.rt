ghost use Rattle.std.specs.Prelude.{◌≡◌};
ghost use Rattle.dp_domain.specs.Domains.{Fits};
ghost use Rattle.dp_domain.specs.declared.domains.Domain.TheVariants as domain;
ghost use Rattle.dp_domain.specs.declared.metrics.Metric.TheVariants as metrics;
ghost use Rattle.dp_domain.specs.Domains.{Has};
ghost use Rattle.dp_law.specs.Releasing.{Released};
ghost use Rattle.dp_chain.specs.PartMeanings.{part_mechanism};
ghost use Rattle.dp_chain.specs.Releases.{IsLike};

use super::*;
use dp_aggregate::{Count, Sum};
use dp_count::NoMemory;
use dp_domain::{Domain, Items, Metric, Text, Value};
use dp_draws::{Draws, Replay};
use dp_geometric::Geometric;
use dp_law::{Answer, MakeFault, Measurement, Piece, ReleaseFault, Transformation};
use dp_num::Ratio;
use dp_rowwise::{Clamp, Filter, Select};
use std::alloc::Global;
use std::process::Abort;
use std::test::Fail;

fn ints(lo: i64, hi: i64) -> Domain {
    Domain::Ints { lo, hi, size: None }
}

fn clamp(rt: &impl Abort, lo: i64, hi: i64, from: Domain) -> Clamp {
    assert!(rt; from.fits());
    Clamp::new(from, Metric::Symmetric, lo, hi).expect(rt, "a clamp")
}

fn sum(rt: &impl Abort, from: Domain) -> Sum {
    assert!(rt; from.fits());
    Sum::new(from, Metric::Symmetric).expect(rt, "a sum")
}

/// Noise on 0..1 of a number, for the ratio 1/2.
fn noise(rt: &impl Abort, number: Domain) -> Geometric
    requires { Fits number }
    ensures { IsLike record { p = 1; q = 2 } number metrics.Absolute
        (⟦<Geometric as Measurement>⟧.mechanism result) }
{
    let Ok(ratio) = Ratio::new(1, 2) else {
        panic!(rt; "a ratio");
    };
    let Ok(noise) = Geometric::new(number, Metric::Absolute, ratio, 1, 0, 1) else {
        panic!(rt; "a noise");
    };
    noise
}

/// A count of records of two cells, with noise on 0..1 for the ratio 1/2.
fn noisy_count(rt: &impl Abort) -> Measured<Count, Geometric>
    ensures { IsLike record { p = 1; q = 2 } (domain.Rows 2) metrics.Symmetric
        (⟦<Measured<Count, Geometric> as Measurement>⟧.mechanism result) }
{
    let rows = Domain::Rows { columns: 2 };
    let Ok(count) = Count::new(rows, Metric::Symmetric) else {
        panic!(rt; "a count");
    };
    let number = count.out_domain();
    match Measured::new(count, noise(rt, number)) {
        Ok(part) => part,
        Err(_) => panic!(rt; "joined"),
    }
}

/// A record of the two texts.
fn one_record(alloc: Global, first: &str, second: &str) -> Result<Value, NoMemory> {
    let mut cells = Items::new(alloc);
    push_text(alloc, &mut cells, first)?;
    push_text(alloc, &mut cells, second)?;
    let mut rows = Vec::new(alloc);
    rows.push(cells)?;
    Ok(Value::Rows(Items::from_vec(rows)))
}

fn push_text(alloc: Global, texts: &mut Items<Text>, text: &str) -> Result<(), NoMemory> {
    let mut all = std::mem::replace(texts, Items::new(alloc)).into_vec();
    all.push(Items::from_vec(Vec::from_slice(alloc, text.as_bytes())?))?;
    *texts = Items::from_vec(all);
    Ok(())
}

/// What a measurement releases on a value of its domain from these draws.
fn released<M: Measurement>(
    rt: &impl Abort,
    alloc: Global,
    m: &M,
    v: &Value,
    draws: &[u64],
) -> Result<Answer, ReleaseFault> {
    assert!(rt; m.in_domain().fits());
    assert!(rt; m.in_domain().has(v));
    m.release(alloc, v, &mut Replay::new(Vec::from_slice(alloc, draws)?))
}

/// The bounds of a measurement's shape.
fn bounds<M: Measurement>(rt: &impl Abort, alloc: Global, m: &M) -> Result<Vec<u64>, NoMemory> {
    let shape = m.shape(alloc)?;
    let mut bounds = Vec::new(alloc);
    for k in 0..shape.len() {
        bounds.push(shape.at(k))?;
    }
    assert!(rt; m.draws() == shape.len());
    Ok(bounds)
}

/// The number that a transformation gives on a value of its input domain.
fn number_of<T: Transformation>(rt: &impl Abort, alloc: Global, part: &T, v: &Value) -> i64 {
    let domain = part.in_domain();
    assert!(rt; domain.fits());
    assert!(rt; domain.has(v));
    match part.apply(alloc, v) {
        Ok(Value::Int(number)) => number,
        _ => panic!(rt; "a number"),
    }
}

/// How many records a transformation gives on a value of its input domain.
fn records_of<T: Transformation>(rt: &impl Abort, alloc: Global, part: &T, v: &Value) -> u64 {
    let domain = part.in_domain();
    assert!(rt; domain.fits());
    assert!(rt; domain.has(v));
    match part.apply(alloc, v) {
        Ok(Value::Rows(rows)) => rows.len(),
        _ => panic!(rt; "records"),
    }
}

fn is_int(piece: &Piece, wanted: i64) -> bool {
    matches!(piece, Piece::Int(number) if *number == wanted)
}

#[test]
fn a_clamp_and_a_sum_are_chained_where_their_domains_are_the_same(
    rt: HostRuntime,
) -> Result<(), Fail> {
    assert!(rt;
        matches!(
            Chain::new(clamp(&rt, 0, 5, ints(0, 9)), sum(&rt, ints(0, 6))),
            Err(JoinFault::Kind)
        )
    );
    let chain = Chain::new(clamp(&rt, 0, 5, ints(0, 9)), sum(&rt, ints(0, 5))).expect(
        &rt, "chained",
    );
    assert_eq!(rt; chain.map(1), Ok(5));
    let value = Value::Ints(Items::from_vec(Vec::from_slice(rt.alloc(), &[9, 2])?));
    assert_eq!(rt; number_of(&rt, rt.alloc(), &chain, &value), 7);
    Ok(())
}

#[test]
fn a_measured_count_takes_the_draws_of_its_noise(rt: HostRuntime) -> Result<(), Fail> {
    let part = noisy_count(&rt);
    assert_eq!(rt;
        bounds(&rt, rt.alloc(), &part)
            .expect(&rt, "memory")
            .as_slice(),
        [3, 2].as_slice()
    );
    assert_eq!(rt; part.loss(1), Ok(1));
    let value = one_record(rt.alloc(), "a", "b")?;
    let answer = released(&rt, rt.alloc(), &part, &value, &[0, 0]).expect(&rt, "released");
    assert!(rt; answer.len() == 1 && is_int(answer.at(0), 1));
    Ok(())
}

#[test]
fn two_measurements_answer_in_order_and_add_their_losses(rt: HostRuntime) -> Result<(), Fail> {
    let both = Both::new(noisy_count(&rt), noisy_count(&rt)).expect(&rt, "joined");
    assert_eq!(rt;
        bounds(&rt, rt.alloc(), &both)
            .expect(&rt, "memory")
            .as_slice(),
        [3, 2, 3, 2].as_slice()
    );
    assert_eq!(rt; both.loss(1), Ok(2));
    let value = one_record(rt.alloc(), "a", "b")?;
    let answer = released(&rt, rt.alloc(), &both, &value, &[0, 0, 2, 0]).expect(&rt, "released");
    assert!(rt; answer.len() == 2 && is_int(answer.at(0), 1) && is_int(answer.at(1), 0));
    Ok(())
}

/// A list of these stages.
fn stages<const N: usize>(alloc: Global, list: [Stage; N]) -> Result<Stages, NoMemory> {
    Ok(Items::from_vec(Vec::from_array(alloc, list)?))
}

/// The line of stages on records of two cells by the records.
fn line<const N: usize>(
    rt: &impl Abort,
    alloc: Global,
    list: [Stage; N],
) -> Result<Line, MakeFault> {
    let rows = Domain::Rows { columns: 2 };
    assert!(rt; rows.fits());
    let Ok(stages) = stages(alloc, list) else {
        panic!(rt; "memory");
    };
    Line::make(alloc, rows, Metric::Symmetric, &stages)
}

/// Why the line is not made.
fn refusal<const N: usize>(rt: &impl Abort, alloc: Global, list: [Stage; N]) -> Option<MakeFault> {
    line(rt, alloc, list).err()
}

#[test]
fn a_line_without_stages_changes_nothing(rt: HostRuntime) -> Result<(), Fail> {
    let none = line(&rt, rt.alloc(), []).expect(&rt, "a line");
    assert_eq!(rt; none.map(3), Ok(3));
    assert!(rt; none.out_domain() == Domain::Rows { columns: 2 });
    assert!(rt; none.out_metric() == Metric::Symmetric);
    let value = one_record(rt.alloc(), "a", "7")?;
    assert_eq!(rt; records_of(&rt, rt.alloc(), &none, &value), 1);
    Ok(())
}

#[test]
fn a_line_goes_through_its_stages_in_order(rt: HostRuntime) -> Result<(), Fail> {
    let total = line(
        &rt,
        rt.alloc(),
        [
            Stage::Select { column: 1 },
            Stage::Cast,
            Stage::DropNone,
            Stage::Clamp { lo: 0, hi: 9 },
            Stage::Sum,
        ],
    )
    .expect(&rt, "a line");
    assert_eq!(rt; total.map(2), Ok(18));
    assert_eq!(rt; total.map(477_218_589), Err(dp_num::Past));
    let value = one_record(rt.alloc(), "a", "12")?;
    assert_eq!(rt; number_of(&rt, rt.alloc(), &total, &value), 9);
    Ok(())
}

#[test]
fn a_line_tells_its_stages_in_order(rt: HostRuntime) {
    let counted = line(
        &rt,
        rt.alloc(),
        [
            Stage::Select { column: 1 },
            Stage::Cast,
            Stage::DropNone,
            Stage::Count,
        ],
    )
    .expect(&rt, "a line");
    let [first, second, third, last] = counted.stages() else {
        panic!(rt; "four stages");
    };
    assert!(rt; matches!(first, AnyTransformation::Select(select) if select.column() == 1));
    assert!(rt; matches!(second, AnyTransformation::Cast(_)));
    assert!(rt; matches!(third, AnyTransformation::DropNone(_)));
    assert!(rt; matches!(last, AnyTransformation::Count(_)));
}

#[test]
fn the_first_refused_stage_decides(rt: HostRuntime) {
    assert_eq!(rt;
        refusal(&rt, rt.alloc(), [Stage::Cast, Stage::Select { column: 9 }]),
        Some(MakeFault::Kind)
    );
    assert_eq!(rt;
        refusal(
            &rt,
            rt.alloc(),
            [Stage::Select { column: 9 }, Stage::Select { column: 0 }]
        ),
        Some(MakeFault::Bound)
    );
    assert_eq!(rt;
        refusal(&rt, rt.alloc(), [Stage::Count, Stage::Quantise { step: 0 }]),
        Some(MakeFault::Bound)
    );
    assert_eq!(rt;
        refusal(&rt, rt.alloc(), [Stage::Count, Stage::Count]),
        Some(MakeFault::Kind)
    );
    assert_eq!(rt;
        refusal(&rt, rt.alloc(), [Stage::Count, Stage::Quantise { step: 3 }]),
        None
    );
}

/// The release of these parts on records of two cells by the records, for the ratio 1/2.
fn release(rt: &impl Abort, alloc: Global, parts: Vec<Part>) -> Result<Release, MakeFault> {
    let rows = Domain::Rows { columns: 2 };
    let spec = ReleaseSpec::from_vec(parts);
    assert!(rt; rows.fits());
    assert!(rt; 1 <= spec.len() && spec.len() <= 16);
    let Ok(ratio) = Ratio::new(1, 2) else {
        panic!(rt; "a ratio");
    };
    Release::make(alloc, rows, Metric::Symmetric, ratio, &spec)
}

fn counting(alloc: Global, u: u64, lo: i64, hi: i64) -> Result<Part, NoMemory> {
    Ok(Part {
        stages: stages(alloc, [Stage::Count])?,
        noise: Noise::Geometric { u, lo, hi },
    })
}

/// A count of each of so many categories and one more, with the widest noise.
fn counting_each(alloc: Global, categories: u8) -> Result<Part, NoMemory> {
    let mut texts = Vec::new(alloc);
    for text in 0..categories {
        texts.push(Items::from_vec(Vec::from_slice(alloc, &[text])?))?;
    }
    Ok(Part {
        stages: stages(
            alloc,
            [
                Stage::Select { column: 0 },
                Stage::Categories {
                    texts: Items::from_vec(texts),
                },
                Stage::Histogram,
            ],
        )?,
        noise: Noise::Geometric {
            u: 1,
            lo: 0,
            hi: 65_535,
        },
    })
}

#[test]
fn two_parts_on_empty_data(rt: HostRuntime) -> Result<(), Fail> {
    let mut parts = Vec::new(rt.alloc());
    parts.push(counting(rt.alloc(), 1, 0, 0)?)?;
    parts.push(counting(rt.alloc(), 2, 0, 5)?)?;
    let made = release(&rt, rt.alloc(), parts).expect(&rt, "a release");
    assert_eq!(rt;
        bounds(&rt, rt.alloc(), &made)
            .expect(&rt, "memory")
            .as_slice(),
        [3, 5, 4, 4, 4, 4, 4].as_slice()
    );
    assert_eq!(rt; made.pieces(), 2);
    assert_eq!(rt; (made.cost(0), made.cost(1)), (Ok(0), Ok(3)));
    let value = Value::Rows(Items::new(rt.alloc()));
    let answer = released(&rt, rt.alloc(), &made, &value, &[0, 0, 0, 0, 0, 0, 0]).expect(
        &rt, "released",
    );
    assert!(rt; answer.len() == 2 && is_int(answer.at(0), 0) && is_int(answer.at(1), 0));
    assert!(rt;
        matches!(
            released(&rt, rt.alloc(), &made, &value, &[0, 0, 0, 0, 0, 0]),
            Err(ReleaseFault::DrawFault)
        )
    );
    Ok(())
}

/// What a part of a release answers, where its line is run first and then its noise.
fn line_then_noise<D: Draws>(
    alloc: Global,
    part: &MeasuredLine,
    v: &Value,
    draws: &mut D,
) -> Result<Answer, ReleaseFault>
    requires { let m = part_mechanism part.now in Has m.input_domain v.now }
    ensures { let m = part_mechanism part.now in
        Released D.step m.shape (m.function v.now) (D.state draws.old) result (D.state draws.new) }
{
    let Ok(between) = part.first().apply(alloc, v) else {
        return Err(ReleaseFault::NoMemory);
    };
    part.second().release(alloc, &between, draws)
}

#[test]
fn a_part_answers_by_its_line_and_then_its_noise(rt: HostRuntime) -> Result<(), Fail> {
    let mut parts = Vec::new(rt.alloc());
    parts.push(counting(rt.alloc(), 1, 0, 3)?)?;
    let made = release(&rt, rt.alloc(), parts).expect(&rt, "a release");
    let value = one_record(rt.alloc(), "a", "7")?;
    let mut draws = Replay::new(vec![in rt.alloc(); 0, 0, 0, 0]?);
    let [part] = made.parts() else {
        panic!(rt; "one part");
    };
    let domain = part.in_domain();
    assert!(rt; domain.fits());
    assert!(rt; domain.has(&value));
    let answer = line_then_noise(rt.alloc(), part, &value, &mut draws).expect(&rt, "an answer");
    assert!(rt; answer.len() == 1 && is_int(answer.at(0), 1));
    Ok(())
}

/// What a release of one part costs.
fn part_cost(
    rt: &impl Abort,
    alloc: Global,
    part: Result<Part, NoMemory>,
    d: u64,
) -> Result<u64, CostFault> {
    let (Ok(part), Ok(mut parts)) = (part, Vec::with_capacity(alloc, 1)) else {
        panic!(rt; "memory");
    };
    let Ok(()) = parts.push(part) else {
        panic!(rt; "memory");
    };
    assert!(rt; d <= 4_294_967_296);
    match release(rt, alloc, parts) {
        Ok(release) => release.cost(d),
        Err(_) => panic!(rt; "a release"),
    }
}

#[test]
fn a_cost_is_at_most_the_greatest_number_of_units(rt: HostRuntime) {
    let alloc = rt.alloc();
    assert_eq!(rt;
        part_cost(&rt, alloc, counting(alloc, 2, 0, 0), 2_147_483_648),
        Ok(4_294_967_296)
    );
    assert_eq!(rt;
        part_cost(&rt, alloc, counting(alloc, 3, 0, 0), 2_147_483_648),
        Err(CostFault::Distance)
    );
}

#[test]
fn a_release_has_at_most_a_million_draws(rt: HostRuntime) {
    let alloc = rt.alloc();
    assert_eq!(rt; part_cost(&rt, alloc, counting_each(alloc, 15), 1), Ok(1));
    assert_eq!(rt;
        part_cost(&rt, alloc, counting_each(alloc, 16), 1),
        Err(CostFault::Draws)
    );
    assert_eq!(rt;
        part_cost(&rt, alloc, counting_each(alloc, 16), 4_294_967_296),
        Err(CostFault::Draws)
    );
}

#[test]
fn a_filter_of_persons_gives_persons_and_a_selection_takes_records(rt: HostRuntime) {
    let rows = Domain::Rows { columns: 2 };
    let (Ok(filter), Ok(select)) = (
        Filter::new(rows, Metric::Users(0), 1, Vec::new(rt.alloc())),
        Select::new(rows, Metric::Symmetric, 1),
    ) else {
        panic!(&rt; "made");
    };
    assert!(rt; matches!(Chain::new(filter, select), Err(JoinFault::Metric)));
}

/// Whether the stage is made on the domain and the metric.
fn is_made(rt: &impl Abort, alloc: Global, domain: Domain, metric: Metric, stage: &Stage) -> bool {
    assert!(rt; domain.fits());
    AnyTransformation::make(alloc, domain, metric, stage).is_ok()
}

/// Whether the noise is made on the domain and the metric, for the ratio 1/2.
fn is_measured(
    rt: &impl Abort,
    alloc: Global,
    domain: Domain,
    metric: Metric,
    noise: &Noise,
) -> bool {
    let Ok(ratio) = Ratio::new(1, 2) else {
        panic!(rt; "a ratio");
    };
    assert!(rt; domain.fits());
    AnyMeasurement::make(alloc, domain, metric, ratio, noise).is_ok()
}

/// These edges.
fn edges(alloc: Global, list: &[i64]) -> Result<Items<i64>, NoMemory> {
    Ok(Items::from_vec(Vec::from_slice(alloc, list)?))
}

#[test]
fn stages_of_records_and_lists_are_made(rt: HostRuntime) -> Result<(), Fail> {
    let alloc = rt.alloc();
    let rows = Domain::Rows { columns: 2 };
    let optional = Domain::OptInts { lo: 0, hi: 9 };
    let filter = Stage::Filter {
        column: 1,
        text: Items::from_vec(Vec::from_slice(alloc, b"x".as_slice())?),
    };
    assert!(rt; is_made(&rt, alloc, rows, Metric::Users(1), &filter));
    assert!(rt; !is_made(&rt, alloc, rows, Metric::Users(2), &filter));
    assert!(rt;
        is_made(
            &rt,
            alloc,
            rows,
            Metric::Users(0),
            &Stage::Truncate { most: 2 }
        )
    );
    assert!(rt;
        !is_made(
            &rt,
            alloc,
            rows,
            Metric::Symmetric,
            &Stage::Truncate { most: 2 }
        )
    );
    assert!(rt;
        is_made(
            &rt,
            alloc,
            optional,
            Metric::Symmetric,
            &Stage::Impute { value: 3 }
        )
    );
    assert!(rt;
        !is_made(
            &rt,
            alloc,
            optional,
            Metric::Symmetric,
            &Stage::Impute { value: 10 }
        )
    );
    Ok(())
}

#[test]
fn stages_of_numbers_are_made(rt: HostRuntime) -> Result<(), Fail> {
    let alloc = rt.alloc();
    let number = Domain::Int { lo: 0, hi: 9 };
    let bins = Stage::Bins {
        edges: edges(alloc, &[1, 5])?,
    };
    let at_least = Stage::AtLeast {
        edges: edges(alloc, &[2])?,
    };
    let resize = Stage::Resize { size: 3, fill: 0 };
    assert!(rt; is_made(&rt, alloc, ints(0, 9), Metric::Symmetric, &bins));
    assert!(rt; is_made(&rt, alloc, ints(0, 9), Metric::Symmetric, &resize));
    assert!(rt; is_made(&rt, alloc, number, Metric::Absolute, &at_least));
    assert!(rt;
        is_made(
            &rt,
            alloc,
            number,
            Metric::Absolute,
            &Stage::Quantise { step: 4 }
        )
    );
    assert!(rt; !is_made(&rt, alloc, number, Metric::L1, &at_least));
    Ok(())
}

#[test]
fn noises_of_categories_and_vectors_are_made(rt: HostRuntime) {
    let alloc = rt.alloc();
    let choice = Noise::Choice {
        u: 1,
        floor: 0,
        top: 1,
    };
    let vector = Domain::IntVec {
        len: 2,
        lo: 0,
        hi: 1,
    };
    let response = Noise::Response { u: 1 };
    assert!(rt;
        is_measured(
            &rt,
            alloc,
            Domain::Cat { n: 3 },
            Metric::Discrete,
            &response
        )
    );
    assert!(rt;
        !is_measured(
            &rt,
            alloc,
            Domain::Cat { n: 3 },
            Metric::Absolute,
            &response
        )
    );
    assert!(rt; is_measured(&rt, alloc, vector, Metric::L1, &choice));
    assert!(rt; !is_measured(&rt, alloc, vector, Metric::L1, &response));
}
