use super::*;

/// What `Count`, `Sum` and `Histogram` are refused for.
fn refusals(rt: &impl Abort, domain: Domain, metric: Metric) -> [Option<Refused>; 3] {
    [
        count(rt, domain, metric).err(),
        sum(rt, domain, metric).err(),
        histogram(rt, domain, metric).err(),
    ]
}

#[test]
fn parts_of_lists_are_refused_by_kind_and_then_by_metric(rt: HostRuntime) {
    let cats = Domain::Cats { n: 2, size: None };
    let sized = Domain::Cats {
        n: 2,
        size: Some(4),
    };
    for (domain, metric, wanted) in [
        (ints(0, 9, None), Metric::Symmetric, [None, None, KIND]),
        (ints(0, 9, None), Metric::ChangeOne, [METRIC, METRIC, KIND]),
        (ints(0, 9, Some(4)), Metric::ChangeOne, [METRIC, None, KIND]),
        (
            ints(0, 9, Some(4)),
            Metric::Symmetric,
            [METRIC, METRIC, KIND],
        ),
        (cats, Metric::Symmetric, [None, KIND, None]),
        (cats, Metric::L1, [METRIC, KIND, METRIC]),
        (sized, Metric::ChangeOne, [METRIC, KIND, None]),
        (sized, Metric::Symmetric, [METRIC, KIND, METRIC]),
        (
            Domain::Rows { columns: 1 },
            Metric::Symmetric,
            [None, KIND, KIND],
        ),
        (Domain::Texts, Metric::ChangeOne, [METRIC, KIND, KIND]),
        (
            Domain::OptInts { lo: 0, hi: 9 },
            Metric::Symmetric,
            [None, KIND, KIND],
        ),
        (
            Domain::Int { lo: 0, hi: 9 },
            Metric::Symmetric,
            [KIND, KIND, KIND],
        ),
        (Domain::Cat { n: 2 }, Metric::Discrete, [KIND, KIND, KIND]),
        (
            Domain::IntVec {
                len: 2,
                lo: 0,
                hi: 9,
            },
            Metric::L1,
            [KIND, KIND, KIND],
        ),
    ] {
        assert_eq!(rt; refusals(&rt, domain, metric), wanted);
    }
}
