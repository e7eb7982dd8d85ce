ghost use Rattle.std.specs.Prelude.{◌≡◌, length, IfOk};

use crate::{SessionFault, group_text, post_text};
use dp_domain::{Text, Texts};
use dp_draws::{NoDraws, Zeros};
use dp_pipeline::{Pipeline, read_pipeline};
use dp_post::Post;
use dp_store::{Store, store_of};
use std::alloc::Global;
use std::test::Fail;

/// A pipeline of two columns with a plan, the number of all records, and a budget of one unit.
const COUNTED: &[u8] = br#"{"version":1,"columns":["sex","age"],"header":false,"ratio":[1,2],
"distance":1,"root":["filter",1],"plans":{"all":[["count"],["geometric",1,0,5]]}}"#;

/// The pipeline, and the store of three records under it.
fn opened(alloc: Global) -> Result<(Pipeline, Store), Fail>
    ensures { IfOk result (λ found. let store = found.1 in let pipeline = found.0 in
        store.columns ≡ length pipeline.columns) }
{
    let pipeline = read_pipeline(alloc, COUNTED)?;
    let columns = pipeline.columns().len() as u32;
    let store = store_of(alloc, b"F,34\nM,51\nF,7\n", columns, pipeline.header())?;
    Ok((pipeline, store))
}

/// The texts `M` and `F`.
fn both(alloc: Global) -> Result<Texts, Fail> {
    let mut texts = Vec::new(alloc);
    texts.push(Text::from_vec(Vec::from_slice(alloc, b"M")?))?;
    texts.push(Text::from_vec(Vec::from_slice(alloc, b"F")?))?;
    Ok(Texts::from_vec(texts))
}

#[test]
fn a_changed_release_is_two_lines(rt: HostRuntime) -> Result<(), Fail> {
    let alloc = rt.alloc();
    let (pipeline, store) = opened(alloc)?;
    let text = post_text(
        alloc,
        &pipeline,
        &store,
        b"all",
        &[Post::Floor],
        &mut Zeros::new(),
    )?;
    assert_eq!(rt; text.as_str(), "1 answer 3 cost 1 spent 1\nend 1 spent 1\n");
    Ok(())
}

#[test]
fn a_release_by_groups_is_two_lines(rt: HostRuntime) -> Result<(), Fail> {
    let alloc = rt.alloc();
    let (pipeline, store) = opened(alloc)?;
    let text = group_text(
        alloc,
        &pipeline,
        &store,
        b"all",
        b"sex",
        both(alloc)?,
        &mut Zeros::new(),
    )?;
    assert_eq!(rt;
        text.as_str(),
        "1 answer (1;2) cost 1 spent 1\nend 1 spent 1\n"
    );
    Ok(())
}

#[test]
fn a_name_of_no_plan_takes_no_draw(rt: HostRuntime) -> Result<(), Fail> {
    let alloc = rt.alloc();
    let (pipeline, store) = opened(alloc)?;
    let text = post_text(
        alloc,
        &pipeline,
        &store,
        b"some",
        &[Post::Floor],
        &mut NoDraws::new(),
    )?;
    assert_eq!(rt; text.as_str(), "1 refused 1 malformed\nend 1 spent 0\n");
    Ok(())
}

#[test]
fn a_release_without_draws_is_a_draw_fault(rt: HostRuntime) -> Result<(), Fail> {
    let alloc = rt.alloc();
    let (pipeline, store) = opened(alloc)?;
    let told = post_text(
        alloc,
        &pipeline,
        &store,
        b"all",
        &[Post::Floor],
        &mut NoDraws::new(),
    );
    assert!(rt; matches!(told, Err(SessionFault::DrawFault)));
    Ok(())
}
