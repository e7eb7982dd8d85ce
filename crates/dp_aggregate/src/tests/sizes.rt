use super::*;

fn resize(
    rt: &impl Abort,
    domain: Domain,
    metric: Metric,
    size: u64,
    fill: i64,
) -> Result<Resize, Refused> {
    assert!(rt; domain.fits());
    Resize::new(domain, metric, size, fill)
}

/// Whether resizing a list of numbers from -9 to 9, with 0 as fill, gives the wanted list.
fn resizes(
    rt: &impl Abort,
    alloc: Global,
    size: u64,
    list: &[i64],
    wanted: &[i64],
) -> Result<bool, Fail> {
    let part = resize(rt, ints(-9, 9, None), Metric::Symmetric, size, 0)?;
    Ok(gives(rt, alloc, &part, &numbers(alloc, list)?, wanted))
}

#[test]
fn resizing_keeps_the_least_and_fills_up(rt: HostRuntime) -> Result<(), Fail> {
    for (size, list, wanted) in [
        (2, &[9, 3, 7][..], &[3, 7][..]),
        (5, &[9, 3, 7][..], &[3, 7, 9, 0, 0][..]),
        (2, &[][..], &[0, 0][..]),
        (2, &[4, -4, 4][..], &[-4, 4][..]),
    ] {
        assert!(rt; resizes(&rt, rt.alloc(), size, list, wanted)?);
    }
    Ok(())
}

#[test]
fn resizing_is_refused_by_kind_metric_and_bound(rt: HostRuntime) {
    let plain = ints(-3, 9, None);
    for (domain, metric, size, fill, wanted) in [
        (plain, Metric::Symmetric, 0, 0, BOUND),
        (plain, Metric::Symmetric, 1, -3, None),
        (plain, Metric::Symmetric, 1_048_576, 9, None),
        (plain, Metric::Symmetric, 1_048_577, 0, BOUND),
        (plain, Metric::Symmetric, 4_294_967_297, 0, BOUND),
        (plain, Metric::Symmetric, 1, -4, BOUND),
        (plain, Metric::Symmetric, 1, 10, BOUND),
        (plain, Metric::ChangeOne, 0, 0, METRIC),
        (ints(-3, 9, Some(4)), Metric::ChangeOne, 0, 0, METRIC),
        (Domain::Texts, Metric::L1, 0, 0, KIND),
    ] {
        assert_eq!(rt; resize(&rt, domain, metric, size, fill).err(), wanted);
    }
}
