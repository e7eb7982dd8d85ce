use super::*;

fn quantise(
    rt: &impl Abort,
    domain: Domain,
    metric: Metric,
    step: u64,
) -> Result<Quantise, Refused> {
    assert!(rt; domain.fits());
    Quantise::new(domain, metric, step)
}

#[test]
fn quantising_rounds_down(rt: HostRuntime) -> Result<(), Fail> {
    let thirds = quantise(&rt, Domain::Int { lo: -7, hi: 7 }, Metric::Absolute, 3)?;
    for (number, wanted) in [(-7, -3), (-6, -2), (-1, -1), (0, 0), (2, 0), (7, 2)] {
        assert_eq!(rt;
            number_of(&rt, rt.alloc(), &thirds, &Value::Int(number)),
            Some(wanted)
        );
    }
    for (d, wanted) in [(0, 0), (1, 1), (3, 1), (4, 2)] {
        assert_eq!(rt; distance_of(&rt, &thirds, d), Some(wanted));
    }
    Ok(())
}

#[test]
fn quantising_is_refused_by_kind_metric_and_bound(rt: HostRuntime) {
    let number = Domain::Int { lo: 0, hi: 9 };
    for (domain, metric, step, wanted) in [
        (number, Metric::Absolute, 0, BOUND),
        (number, Metric::Absolute, 1, None),
        (number, Metric::Absolute, 2_147_483_648, None),
        (number, Metric::Absolute, 2_147_483_649, BOUND),
        (number, Metric::Discrete, 0, METRIC),
        (Domain::Cat { n: 2 }, Metric::Discrete, 0, KIND),
    ] {
        assert_eq!(rt; quantise(&rt, domain, metric, step).err(), wanted);
    }
}
