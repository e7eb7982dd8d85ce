use super::*;

#[test]
fn histograms_count_each_category(rt: HostRuntime) -> Result<(), Fail> {
    let alloc = rt.alloc();
    let plain = histogram(&rt, Domain::Cats { n: 3, size: None }, Metric::Symmetric)?;
    for (list, wanted) in [(&[0, 2, 0][..], &[2, 0, 1][..]), (&[][..], &[0, 0, 0][..])] {
        assert!(rt; gives(&rt, alloc, &plain, &categories(alloc, list)?, wanted));
    }
    assert_eq!(rt; distance_of(&rt, &plain, 2), Some(2));
    Ok(())
}

#[test]
fn histograms_of_sized_lists_count_and_map_to_twice_the_distance(
    rt: HostRuntime,
) -> Result<(), Fail> {
    let sized = histogram(
        &rt,
        Domain::Cats {
            n: 3,
            size: Some(4),
        },
        Metric::ChangeOne,
    )?;
    let list = categories(rt.alloc(), &[2, 0, 2, 2])?;
    assert!(rt; gives(&rt, rt.alloc(), &sized, &list, &[1, 0, 3]));
    for (d, wanted) in [
        (2, Some(4)),
        (2_147_483_648, Some(4_294_967_296)),
        (2_147_483_649, None),
    ] {
        assert_eq!(rt; distance_of(&rt, &sized, d), wanted);
    }
    Ok(())
}
