use crate::Grouped;
use dp_chain::{Noise, Part, Release, ReleaseSpec, Stage, Stages};
use dp_count::NoMemory;
use dp_domain::{Domain, Metric, Record, Rows, Text, Texts, Value};
use dp_draws::{Draws, Replay, Zeros};
use dp_geometric::Geometric;
use dp_law::{Answer, MakeFault, Measurement, Piece, ReleaseFault};
use dp_num::{Past, Ratio};
use std::alloc::Global;
use std::process::Abort;
use std::test::Fail;

/// Sex, age and district of twelve persons.
const CENSUS: [[&str; 3]; 12] = [
    ["F", "34", "North"],
    ["M", "51", "South"],
    ["F", "7", "North"],
    ["F", "68", "East"],
    ["M", "29", "North"],
    ["M", "12x", "South"],
    ["F", "45", "South"],
    ["F", "81", "North"],
    ["M", "17", "East"],
    ["F", "22", "North"],
    ["M", "66", "South"],
    ["F", "39", "East"],
];

const DISTRICT: u32 = 2;

fn text_of(alloc: Global, bytes: &[u8]) -> Result<Text, NoMemory> {
    Ok(Text::from_vec(Vec::from_slice(alloc, bytes)?))
}

fn texts_of(alloc: Global, texts: &[&str]) -> Result<Texts, NoMemory> {
    let mut list = Vec::new(alloc);
    for text in texts {
        list.push(text_of(alloc, text.as_bytes())?)?;
    }
    Ok(Texts::from_vec(list))
}

/// The census as a value of three columns.
fn census(alloc: Global) -> Result<Value, NoMemory> {
    let mut rows: Vec<Record> = Vec::new(alloc);
    for cells in &CENSUS {
        rows.push(texts_of(alloc, cells)?)?;
    }
    Ok(Value::Rows(Rows::from_vec(rows)))
}

/// So many different texts of two bytes.
fn numbered(alloc: Global, count: u16) -> Result<Texts, NoMemory> {
    let mut list = Vec::new(alloc);
    for number in 0..count {
        list.push(text_of(alloc, &number.to_be_bytes())?)?;
    }
    Ok(Texts::from_vec(list))
}

/// The release of a line of stages on the census and of noise from `lo` to `hi`, for the ratio 9/10.
fn release<const N: usize>(
    rt: &impl Abort,
    alloc: Global,
    metric: Metric,
    stages: [Stage; N],
    noise: Noise,
) -> Release {
    let rows = Domain::Rows { columns: 3 };
    assert!(rt; rows.fits());
    let stages = Stages::from_vec(Vec::from_array(alloc, stages).expect(rt, "memory"));
    let parts = Vec::from_array(alloc, [Part { stages, noise }]).expect(rt, "memory");
    let spec = ReleaseSpec::from_vec(parts);
    assert!(rt; 1 <= spec.len() && spec.len() <= 16);
    let ratio = Ratio::new(9, 10).expect(rt, "a ratio");
    Release::make(alloc, rows, metric, ratio, &spec).expect(rt, "a release")
}

/// The noisy count of women, by the records.
fn women(rt: &impl Abort, alloc: Global, u: u64) -> Release {
    let text = text_of(alloc, b"F").expect(rt, "memory");
    release(
        rt,
        alloc,
        Metric::Symmetric,
        [Stage::Filter { column: 0, text }, Stage::Count],
        Noise::Geometric { u, lo: 0, hi: 12 },
    )
}

/// The inner measurement on the groups of these texts in a column.
fn grouped<M: Measurement + Drop>(
    rt: &impl Abort,
    alloc: Global,
    inner: M,
    column: u32,
    texts: Result<Texts, NoMemory>,
) -> Result<Grouped<M>, MakeFault> {
    assert!(rt; inner.draws() <= 1_048_576);
    assert!(rt; inner.pieces() <= 1_048_576);
    let Ok(0) = inner.loss(0) else {
        panic!(rt; "no loss at the distance 0");
    };
    Grouped::new(alloc, inner, column, texts.expect(rt, "memory"))
}

/// The noisy count of women in each of these districts.
fn by_district(rt: &impl Abort, alloc: Global, districts: &[&str], u: u64) -> Grouped<Release> {
    let texts = texts_of(alloc, districts);
    let made = grouped(rt, alloc, women(rt, alloc, u), DISTRICT, texts);
    made.expect(rt, "a grouped release")
}

/// What is released on the census.
fn released<M: Measurement, D: Draws>(
    rt: &impl Abort,
    alloc: Global,
    m: &M,
    draws: &mut D,
) -> Result<Answer, ReleaseFault> {
    let value = census(alloc).expect(rt, "memory");
    let domain = m.in_domain();
    assert!(rt; domain.fits());
    assert!(rt; domain.has(&value));
    m.release(alloc, &value, draws)
}

/// Whether the answer is these numbers.
fn are_ints(answer: &Answer, wanted: &[i64]) -> bool {
    let pieces = answer.as_slice();
    pieces.len() == wanted.len()
        && pieces
            .iter()
            .zip(wanted)
            .all(|(piece, number)| is_int(piece, number))
}

fn is_int(piece: &Piece, wanted: &i64) -> bool {
    matches!(piece, Piece::Int(number) if number == wanted)
}

#[test]
fn each_group_is_released_in_the_order_of_the_texts(rt: HostRuntime) {
    for (districts, wanted) in [
        (["North", "South", "East"].as_slice(), [4, 1, 2].as_slice()),
        (&["East", "South", "North"], &[2, 1, 4]),
        (&["North", "West"], &[4, 0]),
        (&["East"], &[2]),
    ] {
        let counts = by_district(&rt, rt.alloc(), districts, 1);
        let answer = released(&rt, rt.alloc(), &counts, &mut Zeros::new());
        assert!(rt;
            are_ints(&answer.expect(&rt, "released"), wanted),
            "{districts:?}"
        );
    }
}

#[test]
fn each_group_has_draws_of_its_own(rt: HostRuntime) -> Result<(), Fail> {
    let noise = [12, 3, 9, 0, 0, 0, 0, 0, 0, 0, 0, 0, 0];
    for (place, wanted) in [(0, [2, 1, 2]), (1, [4, 0, 2]), (2, [4, 1, 0])] {
        let counts = by_district(&rt, rt.alloc(), &["North", "South", "East"], 1);
        let mut list = Vec::new(rt.alloc());
        for group in 0..3 {
            list.extend_from_slice(if group == place { &noise } else { &[0; 13] })?;
        }
        let mut draws = Replay::new(list);
        let answer = released(&rt, rt.alloc(), &counts, &mut draws).expect(&rt, "released");
        assert!(rt; are_ints(&answer, &wanted), "{place}");
        assert!(rt; draws.below(2).is_err(), "all draws are taken");
    }
    Ok(())
}

#[test]
fn a_release_without_its_last_draw_is_a_draw_fault(rt: HostRuntime) -> Result<(), Fail> {
    let counts = by_district(&rt, rt.alloc(), &["North", "South", "East"], 1);
    let mut draws = Replay::new(vec![in rt.alloc(); 0; 38]?);
    let answer = released(&rt, rt.alloc(), &counts, &mut draws);
    assert!(rt; matches!(answer, Err(ReleaseFault::DrawFault)));
    Ok(())
}

#[test]
fn shape_and_pieces_are_the_inner_ones_for_each_text(rt: HostRuntime) {
    let counts = by_district(&rt, rt.alloc(), &["North", "South", "East"], 1);
    assert!(rt; counts.in_domain() == Domain::Rows { columns: 3 });
    assert_eq!(rt; counts.in_metric(), Metric::Symmetric);
    assert_eq!(rt; (counts.draws(), counts.pieces()), (39, 3));
    let shape = counts.shape(rt.alloc()).expect(&rt, "memory");
    assert_eq!(rt; shape.len(), 39);
    for (k, bound) in [(0, 19), (1, 10), (12, 10), (13, 19), (26, 19), (38, 10)] {
        assert!(rt; k < shape.len());
        assert_eq!(rt; shape.at(k), bound);
    }
}

#[test]
fn the_loss_is_that_of_one_group_for_each_step(rt: HostRuntime) {
    let counts = by_district(&rt, rt.alloc(), &["North", "South", "East"], 2);
    for (d, loss) in [
        (0, Ok(0)),
        (1, Ok(2)),
        (5, Ok(10)),
        (2_147_483_648, Ok(4_294_967_296)),
        (2_147_483_649, Err(Past)),
        (4_294_967_296, Err(Past)),
    ] {
        assert_eq!(rt; counts.loss(d), loss);
    }
}

#[test]
fn the_loss_is_past_where_that_of_one_step_is(rt: HostRuntime) {
    let ages = release(
        &rt,
        rt.alloc(),
        Metric::Symmetric,
        [
            Stage::Select { column: 1 },
            Stage::Cast,
            Stage::DropNone,
            Stage::Clamp {
                lo: 0,
                hi: 2_147_483_648,
            },
            Stage::Sum,
        ],
        Noise::Geometric { u: 3, lo: 0, hi: 4 },
    );
    let texts = texts_of(rt.alloc(), &["F", "M"]);
    let sums = grouped(&rt, rt.alloc(), ages, 0, texts).expect(&rt, "a grouped release");
    assert_eq!(rt; (sums.loss(0), sums.loss(1)), (Ok(0), Err(Past)));
}

/// Why the inner measurement is not released on the groups of these texts.
fn refusal<M: Measurement + Drop>(
    rt: &impl Abort,
    alloc: Global,
    inner: M,
    column: u32,
    texts: Result<Texts, NoMemory>,
) -> Option<MakeFault> {
    grouped(rt, alloc, inner, column, texts).err()
}

#[test]
fn a_measurement_of_other_values_is_of_another_kind(rt: HostRuntime) {
    let number = Domain::Int { lo: 0, hi: 9 };
    assert!(rt; number.fits());
    let ratio = Ratio::new(9, 10).expect(&rt, "a ratio");
    let noise = Geometric::new(number, Metric::Absolute, ratio, 1, 0, 9).expect(&rt, "a noise");
    let texts = numbered(rt.alloc(), 0);
    assert_eq!(rt;
        refusal(&rt, rt.alloc(), noise, 9, texts),
        Some(MakeFault::Kind)
    );
}

#[test]
fn a_measurement_by_persons_has_another_metric(rt: HostRuntime) {
    let persons = release(
        &rt,
        rt.alloc(),
        Metric::Users(0),
        [Stage::Truncate { most: 1 }, Stage::Count],
        Noise::Geometric {
            u: 1,
            lo: 0,
            hi: 12,
        },
    );
    let texts = numbered(rt.alloc(), 0);
    assert_eq!(rt;
        refusal(&rt, rt.alloc(), persons, 9, texts),
        Some(MakeFault::Metric)
    );
}

#[test]
fn a_column_that_the_domain_lacks_is_out_of_bounds(rt: HostRuntime) {
    for (column, wanted) in [(2, None), (3, Some(MakeFault::Bound))] {
        let texts = texts_of(rt.alloc(), &["North"]);
        let inner = women(&rt, rt.alloc(), 1);
        assert_eq!(rt; refusal(&rt, rt.alloc(), inner, column, texts), wanted);
    }
}

#[test]
fn there_are_one_to_1023_texts(rt: HostRuntime) {
    for (count, wanted) in [
        (0, Some(MakeFault::Bound)),
        (1, None),
        (1023, None),
        (1024, Some(MakeFault::Bound)),
    ] {
        let texts = numbered(rt.alloc(), count);
        let inner = women(&rt, rt.alloc(), 1);
        assert_eq!(rt; refusal(&rt, rt.alloc(), inner, DISTRICT, texts), wanted);
    }
}

#[test]
fn equal_texts_are_refused(rt: HostRuntime) {
    for texts in [["North", "North", "East"], ["North", "East", "North"]] {
        let texts = texts_of(rt.alloc(), &texts);
        let inner = women(&rt, rt.alloc(), 1);
        assert_eq!(rt;
            refusal(&rt, rt.alloc(), inner, DISTRICT, texts),
            Some(MakeFault::Bound)
        );
    }
}
