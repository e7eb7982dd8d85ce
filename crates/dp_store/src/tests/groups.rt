ghost use Rattle.std.specs.Prelude.{◌≡◌};

use super::{PERSONS, has_numbers, stored};
use crate::{Selection, Store};
use dp_domain::{Domain, Metric, Text, Texts};
use dp_rowwise::Categories;
use std::process::Abort;
use std::test::Fail;

/// A table of texts, which are different.
fn table(rt: &impl AllocGlobal, texts: &[&[u8]]) -> Result<Categories, Fail> {
    let alloc = rt.alloc();
    let mut list = Vec::new(alloc);
    for text in texts {
        list.push(Text::from_vec(Vec::from_slice(alloc, text)?))?;
    }
    let texts = Texts::from_vec(list);
    Ok(Categories::new(alloc, Domain::Texts, Metric::Symmetric, texts)?)
}

/// That the groups are these numbers.
fn are(rt: &impl Abort, groups: &[Selection], wanted: &[&[u32]]) {
    assert_eq!(rt; groups.len(), wanted.len());
    for (group, numbers) in groups.iter().zip(wanted) {
        assert!(rt; has_numbers(group, numbers));
    }
}

#[test]
fn each_text_has_the_numbers_of_its_records(rt: HostRuntime) -> Result<(), Fail> {
    let store = stored(rt.alloc(), PERSONS)?;
    let all = store.whole(rt.alloc())?;
    let texts = table(&rt, &[b"b".as_slice(), b"a".as_slice()])?;
    let groups = store.groups(rt.alloc(), &all, 0, &texts)?;
    are(&rt, groups.as_slice(), &[&[1, 4], &[0, 2, 3]]);
    Ok(())
}

#[test]
fn records_of_no_text_are_in_no_group(rt: HostRuntime) -> Result<(), Fail> {
    let store = stored(rt.alloc(), PERSONS)?;
    let all = store.whole(rt.alloc())?;
    let texts = table(&rt, &[b"w".as_slice(), b"z".as_slice(), b"".as_slice()])?;
    let groups = store.groups(rt.alloc(), &all, 1, &texts)?;
    are(&rt, groups.as_slice(), &[&[2], &[], &[]]);
    Ok(())
}

#[test]
fn a_selection_is_put_into_groups(rt: HostRuntime) -> Result<(), Fail> {
    let store = stored(rt.alloc(), PERSONS)?;
    let all = store.whole(rt.alloc())?;
    let some = store.select(rt.alloc(), &all, 0, b"a")?;
    let texts = table(&rt, &[b"x".as_slice(), b"w".as_slice(), b"y".as_slice()])?;
    let groups = store.groups(rt.alloc(), &some, 1, &texts)?;
    are(&rt, groups.as_slice(), &[&[0, 3], &[2], &[]]);
    Ok(())
}

/// That a group has the numbers that its text selects.
fn group_is_selected(
    rt: &(impl Abort + AllocGlobal),
    store: &Store,
    text: &[u8],
) -> Result<(), Fail>
    requires { store.now.columns ≡ 2 }
{
    let all = store.whole(rt.alloc())?;
    let chosen = store.select(rt.alloc(), &all, 1, text)?;
    let groups = store.groups(rt.alloc(), &all, 1, &table(rt, &[text])?)?;
    let mut numbers = Vec::new(rt.alloc());
    for k in 0..chosen.len() {
        numbers.push(chosen.at(k))?;
    }
    are(rt, groups.as_slice(), &[numbers.as_slice()]);
    Ok(())
}

#[test]
fn a_group_is_what_its_text_selects(rt: HostRuntime) -> Result<(), Fail> {
    let store = stored(rt.alloc(), PERSONS)?;
    group_is_selected(&rt, &store, b"x")?;
    group_is_selected(&rt, &store, b"y")?;
    group_is_selected(&rt, &store, b"v")
}
