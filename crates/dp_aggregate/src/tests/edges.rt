use super::*;

fn at_least(
    rt: &impl Abort,
    domain: Domain,
    metric: Metric,
    edges: Vec<i64>,
) -> Result<AtLeast, Refused> {
    assert!(rt; domain.fits());
    AtLeast::new(domain, metric, edges)
}

#[test]
fn an_edge_is_reached_from_itself_on(rt: HostRuntime) -> Result<(), Fail> {
    let edges = vec![in rt.alloc(); 2, 5]?;
    let part = at_least(&rt, Domain::Int { lo: -9, hi: 9 }, Metric::Absolute, edges)?;
    for (number, wanted) in [(-9, 0), (1, 0), (2, 1), (4, 1), (5, 2), (9, 2)] {
        assert_eq!(rt;
            number_of(&rt, rt.alloc(), &part, &Value::Int(number)),
            Some(wanted)
        );
    }
    for (d, wanted) in [(0, 0), (1, 1), (5, 1)] {
        assert_eq!(rt; distance_of(&rt, &part, d), Some(wanted));
    }
    Ok(())
}

/// What `AtLeast` is refused for at the edges.
fn edges_refusal(
    rt: &impl Abort,
    alloc: Global,
    metric: Metric,
    edges: &[i64],
) -> Result<Option<Refused>, NoMemory> {
    let domain = Domain::Int { lo: 0, hi: 9 };
    Ok(at_least(rt, domain, metric, Vec::from_slice(alloc, edges)?).err())
}

/// What `AtLeast` is refused for at so many edges.
fn many_edges_refusal(
    rt: &impl Abort,
    alloc: Global,
    count: i64,
) -> Result<Option<Refused>, NoMemory> {
    let mut edges = Vec::new(alloc);
    for edge in 0..count {
        edges.push(edge)?;
    }
    edges_refusal(rt, alloc, Metric::Absolute, edges.as_slice())
}

#[test]
fn edges_are_refused_by_kind_metric_and_bound(rt: HostRuntime) -> Result<(), Fail> {
    let limit = 2_305_843_009_213_693_952;
    for (metric, edges, wanted) in [
        (Metric::Absolute, &[][..], BOUND),
        (Metric::Absolute, &[4][..], None),
        (Metric::Absolute, &[4, 4][..], BOUND),
        (Metric::Absolute, &[1, 2, 0][..], BOUND),
        (Metric::Absolute, &[-limit, limit][..], None),
        (Metric::Absolute, &[-limit - 1, 0][..], BOUND),
        (Metric::Absolute, &[0, limit + 1][..], BOUND),
        (Metric::L1, &[][..], METRIC),
    ] {
        assert_eq!(rt; edges_refusal(&rt, rt.alloc(), metric, edges)?, wanted);
    }
    let none = Vec::new(rt.alloc());
    assert_eq!(rt; at_least(&rt, Domain::Texts, Metric::L1, none).err(), KIND);
    assert_eq!(rt; many_edges_refusal(&rt, rt.alloc(), 1023)?, None);
    assert_eq!(rt; many_edges_refusal(&rt, rt.alloc(), 1024)?, BOUND);
    Ok(())
}
