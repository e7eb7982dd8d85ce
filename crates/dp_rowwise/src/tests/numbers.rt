ghost use Rattle.std.specs.Prelude.{◌≡◌, IfOk, map};
ghost use Rattle.dp_domain.specs.declared.values.Value.TheVariants as value;
ghost use Rattle.dp_domain.specs.Ranges.{clamped};
ghost use Rattle.dp_rowwise.specs.Parts.{clamp_lo, clamp_hi};

use super::*;

const OPTIONAL: Domain = Domain::OptInts { lo: -3, hi: 9 };

const AGES: Domain = Domain::Ints {
    lo: 0,
    hi: 99,
    size: Some(4),
};

const UNSIZED: Domain = Domain::Ints {
    lo: 0,
    hi: 5,
    size: None,
};

const SIZED: Domain = Domain::Ints {
    lo: 0,
    hi: 5,
    size: Some(2),
};

fn optional_of(alloc: Global, numbers: &[Option<i64>]) -> Result<Value, NoMemory> {
    Ok(Value::OptInts(OptInts::from_vec(Vec::from_slice(alloc, numbers)?)))
}

fn binned(alloc: Global, v: &Value) -> Result<Value, Fault> {
    let edges = copy_edges(alloc, &[18, 65])?;
    applied(alloc, Bins::new(AGES, Metric::ChangeOne, edges)?, v)
}

fn copy_edges(alloc: Global, edges: &[i64]) -> Result<Vec<i64>, NoMemory> {
    Ok(Vec::from_slice(alloc, edges)?)
}

/// The edges from 0, as many as asked for.
fn many_edges(alloc: Global, count: i64) -> Result<Vec<i64>, NoMemory> {
    let mut edges = Vec::new(alloc);
    for edge in 0..count {
        edges.push(edge)?;
    }
    Ok(edges)
}

#[test]
fn missing_numbers_are_refused_by_their_rows(rt: HostRuntime) {
    for (domain, metric, value, dropping, imputing) in [
        (
            UNSIZED,
            Metric::L1,
            10,
            Some(Refused::Kind),
            Some(Refused::Kind),
        ),
        (
            OPTIONAL,
            Metric::ChangeOne,
            10,
            Some(Refused::Metric),
            Some(Refused::Metric),
        ),
        (OPTIONAL, Metric::Symmetric, 10, None, Some(Refused::Bound)),
        (OPTIONAL, Metric::Symmetric, -4, None, Some(Refused::Bound)),
        (OPTIONAL, Metric::Symmetric, 9, None, None),
        (OPTIONAL, Metric::Symmetric, -3, None, None),
    ] {
        assert!(rt; domain.fits());
        assert_eq!(rt; DropNone::new(domain, metric).err(), dropping);
        assert_eq!(rt; Impute::new(domain, metric, value).err(), imputing);
    }
}

#[test]
fn limits_are_refused_by_their_rows(rt: HostRuntime) {
    for (domain, metric, lo, hi, wanted) in [
        (Domain::Texts, Metric::Symmetric, 4, 3, Some(Refused::Kind)),
        (SIZED, Metric::Symmetric, 4, 3, Some(Refused::Metric)),
        (UNSIZED, Metric::ChangeOne, 4, 3, Some(Refused::Metric)),
        (UNSIZED, Metric::Symmetric, 4, 3, Some(Refused::Bound)),
        (
            UNSIZED,
            Metric::Symmetric,
            -MOST - 1,
            0,
            Some(Refused::Bound),
        ),
        (SIZED, Metric::ChangeOne, 0, MOST + 1, Some(Refused::Bound)),
        (SIZED, Metric::ChangeOne, -MOST, MOST, None),
        (UNSIZED, Metric::Symmetric, 3, 3, None),
    ] {
        assert!(rt; domain.fits());
        assert_eq!(rt; Clamp::new(domain, metric, lo, hi).err(), wanted);
    }
}

#[test]
fn edges_are_refused_by_their_row(rt: HostRuntime) -> Result<(), NoMemory> {
    for (domain, metric, edges, wanted) in [
        (
            Domain::Texts,
            Metric::L1,
            [].as_slice(),
            Some(Refused::Kind),
        ),
        (
            SIZED,
            Metric::Symmetric,
            [].as_slice(),
            Some(Refused::Metric),
        ),
        (
            SIZED,
            Metric::ChangeOne,
            [].as_slice(),
            Some(Refused::Bound),
        ),
        (
            UNSIZED,
            Metric::Symmetric,
            [1, 2, 2].as_slice(),
            Some(Refused::Bound),
        ),
        (
            UNSIZED,
            Metric::Symmetric,
            [-MOST - 1].as_slice(),
            Some(Refused::Bound),
        ),
        (
            UNSIZED,
            Metric::Symmetric,
            [0, MOST + 1].as_slice(),
            Some(Refused::Bound),
        ),
        (UNSIZED, Metric::Symmetric, [-MOST, MOST].as_slice(), None),
        (SIZED, Metric::ChangeOne, [7].as_slice(), None),
    ] {
        assert!(rt; domain.fits());
        let edges = copy_edges(rt.alloc(), edges)?;
        assert_eq!(rt; Bins::new(domain, metric, edges).err(), wanted);
    }
    for (count, wanted) in [(1_023, None), (1_024, Some(Refused::Bound))] {
        let edges = many_edges(rt.alloc(), count)?;
        assert_eq!(rt; Bins::new(AGES, Metric::ChangeOne, edges).err(), wanted);
    }
    Ok(())
}

#[test]
fn missing_numbers_are_imputed_or_dropped(rt: HostRuntime) -> Result<(), Fault> {
    let numbers = optional_of(rt.alloc(), &[Some(9), None, Some(-3), None])?;
    let imputed = applied(
        rt.alloc(),
        Impute::new(OPTIONAL, Metric::Symmetric, 4)?,
        &numbers,
    )?;
    assert!(rt; is_ints(&imputed, &[9, 4, -3, 4]));
    let left = applied(
        rt.alloc(),
        DropNone::new(OPTIONAL, Metric::Symmetric)?,
        &numbers,
    )?;
    assert!(rt; is_ints(&left, &[9, -3]));
    Ok(())
}

#[test]
fn numbers_are_clamped_and_put_into_bins(rt: HostRuntime) -> Result<(), Fault> {
    let numbers = ints_of(rt.alloc(), &[17, 18, 64, 65])?;
    let clamped = applied(
        rt.alloc(),
        Clamp::new(AGES, Metric::ChangeOne, 18, 60)?,
        &numbers,
    )?;
    assert!(rt; is_ints(&clamped, &[18, 18, 60, 60]));
    let places = binned(rt.alloc(), &numbers)?;
    assert!(rt; is_cats(&places, &[0, 1, 1, 2]));
    Ok(())
}

#[test]
fn numbers_of_no_size_are_clamped_and_put_into_bins(rt: HostRuntime) -> Result<(), Fault> {
    let clamped = applied(
        rt.alloc(),
        Clamp::new(UNSIZED, Metric::Symmetric, 1, 3)?,
        &ints_of(rt.alloc(), &[0, 5, 2])?,
    )?;
    assert!(rt; is_ints(&clamped, &[1, 3, 2]));
    let edges = copy_edges(rt.alloc(), &[2])?;
    let places = applied(
        rt.alloc(),
        Bins::new(UNSIZED, Metric::Symmetric, edges)?,
        &clamped,
    )?;
    assert!(rt; is_cats(&places, &[0, 1, 1]));
    Ok(())
}

#[test]
fn no_numbers_stay_none(rt: HostRuntime) -> Result<(), Fault> {
    let numbers = optional_of(rt.alloc(), &[])?;
    let imputed = applied(
        rt.alloc(),
        Impute::new(OPTIONAL, Metric::Symmetric, 4)?,
        &numbers,
    )?;
    assert!(rt; is_ints(&imputed, &[]));
    let clamped = applied(
        rt.alloc(),
        Clamp::new(UNSIZED, Metric::Symmetric, 1, 3)?,
        &ints_of(rt.alloc(), &[])?,
    )?;
    assert!(rt; is_ints(&clamped, &[]));
    let edges = copy_edges(rt.alloc(), &[2])?;
    let places = applied(
        rt.alloc(),
        Bins::new(UNSIZED, Metric::Symmetric, edges)?,
        &clamped,
    )?;
    assert!(rt; is_cats(&places, &[]));
    Ok(())
}

#[test]
fn one_number_is_treated_as_in_a_list(rt: HostRuntime) -> Result<(), Fault> {
    let impute = Impute::new(OPTIONAL, Metric::Symmetric, 4)?;
    assert_eq!(rt; impute.number(&Some(-3)), -3);
    assert_eq!(rt; impute.number(&None), 4);
    let clamp = Clamp::new(AGES, Metric::ChangeOne, 18, 60)?;
    let bins = Bins::new(AGES, Metric::ChangeOne, copy_edges(rt.alloc(), &[18, 65])?)?;
    for (number, nearest, bin) in [(17, 18, 0), (18, 18, 1), (64, 60, 1), (65, 60, 2)] {
        assert_eq!(rt; clamp.number(&number), nearest);
        assert_eq!(rt; bins.number(&number), bin);
    }
    let one_by_one = clamped_one_by_one(rt.alloc(), &clamp, &[17, 18, 64, 65])?;
    assert!(rt; is_ints(&one_by_one, &[18, 18, 60, 60]));
    Ok(())
}

/// What a clamp's function gives of a list, number by number.
fn clamped_one_by_one(alloc: Global, clamp: &Clamp, numbers: &[i64]) -> Result<Value, NoMemory>
    ensures { IfOk result (λ w. let m = ⟦<Clamp as Transformation>⟧.mapping clamp.now in
        w ≡ m.function (value.Ints numbers.now)) }
{
    Ok(Value::Ints(Ints::from_vec(each_clamped(alloc, clamp, numbers)?)))
}

/// Each number clamped.
fn each_clamped(alloc: Global, clamp: &Clamp, numbers: &[i64]) -> Result<Vec<i64>, NoMemory>
    ensures { IfOk result (λ out. out.items
        ≡ map (clamped (clamp_lo clamp.now) (clamp_hi clamp.now)) numbers.now) }
{
    Ok(
        numbers
            .iter()
            .map(|number| clamp.number(number))
            .collect(alloc)?,
    )
}
