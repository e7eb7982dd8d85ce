use super::*;

#[test]
fn lists_are_counted(rt: HostRuntime) -> Result<(), Fail> {
    let alloc = rt.alloc();
    let part = count(&rt, ints(-5, 5, None), Metric::Symmetric)?;
    assert_eq!(rt;
        number_of(&rt, alloc, &part, &numbers(alloc, &[3, 3])?),
        Some(2)
    );
    let part = count(&rt, Domain::Texts, Metric::Symmetric)?;
    assert_eq!(rt;
        number_of(&rt, alloc, &part, &Value::Texts(Items::new(alloc))),
        Some(0)
    );
    assert_eq!(rt; distance_of(&rt, &part, 4_294_967_296), Some(4_294_967_296));
    Ok(())
}
