use super::{Calls, NO_FAILURE, Pieces, Shown, run, run_in_pieces, run_with};
use crate::laws::account_law;
use std::process::Abort;
use std::test::Fail;

/// The words of an account of the pipeline `data` and the queries `draws`.
pub(super) const ACCOUNT: [&str; 3] = ["account", "data", "draws"];

/// A pipeline with an odometer at its root.
pub(super) const ODOMETER: &[u8] =
    br#"{"version":1,"columns":["sex","age"],"header":false,"ratio":[1,2],
"distance":1,"root":["odometer"],"plans":{}}"#;

/// The same with a filter of 5.
pub(super) const FILTER_FIVE: &[u8] =
    br#"{"version":1,"columns":["sex","age"],"header":false,"ratio":[1,2],
"distance":1,"root":["filter",5],"plans":{}}"#;

/// The same with a budget of two steps.
pub(super) const TWO_STEPS: &[u8] =
    br#"{"version":1,"columns":["sex","age"],"header":false,"ratio":[1,2],
"distance":1,"root":["compositor",[2,1]],"plans":{}}"#;

/// The one with an odometer, where siblings stay open.
const SIBLINGS_OPEN: &[u8] =
    br#"{"version":2,"siblings":"open","columns":["sex","age"],"header":false,"ratio":[1,2],
"distance":1,"root":["odometer"],"plans":{}}"#;

/// An ask of cost 1, an ask of cost 2 and an ask of cost 3 at the root.
pub(super) const ASK_ONE: &str = r#"{"node":0,"ask":[["count"],["geometric",1,0,0]]}"#;

pub(super) const ASK_TWO: &str = r#"{"node":0,"ask":[["count"],["geometric",2,0,0]]}"#;

pub(super) const ASK_THREE: &str = r#"{"node":0,"ask":[["count"],["geometric",3,0,0]]}"#;

/// The texts as the lines of one text.
pub(super) fn joined(rt: &impl AllocGlobal, lines: &[&str]) -> Result<String, Fail> {
    let mut text = String::new(rt.alloc());
    for line in lines {
        text.push_str(line)?;
        text.push('\n')?;
    }
    Ok(text)
}

/// What a run shows of an account, where such calls fail.
fn account_with(
    rt: &impl AllocGlobal,
    pipeline: &[u8],
    queries: &[u8],
    calls: Calls,
) -> Result<Shown, Fail> {
    run_with(rt, &ACCOUNT, pipeline, queries, calls)
}

/// That a run ended with this status, these bytes and this line on the error output.
pub(super) fn shows(rt: &impl Abort, shown: &Shown, status: u8, out: &[u8], err: &[u8]) {
    assert_eq!(rt; shown.out.as_slice(), out);
    assert_eq!(rt; shown.err.as_slice(), err);
    assert_eq!(rt; shown.status, status);
}

/// That an account of these query lines writes these lines and ends with 0.
pub(super) fn accounts(
    rt: &(impl Abort + AllocGlobal),
    pipeline: &[u8],
    queries: &[&str],
    lines: &[&str],
) -> Result<(), Fail> {
    let text = joined(rt, queries)?;
    let shown = account_with(rt, pipeline, text.as_bytes(), NO_FAILURE)?;
    shows(rt, &shown, 0, joined(rt, lines)?.as_bytes(), b"");
    Ok(())
}

#[test]
fn account_of_a_filter_of_five(rt: HostRuntime) -> Result<(), Fail> {
    account_law();
    accounts(
        &rt,
        FILTER_FIVE,
        &[ASK_THREE, ASK_THREE, ASK_TWO],
        &[
            "1 admitted draws 1 cost 3 spent 3",
            "2 refused 7 budget 3 2",
            "3 admitted draws 1 cost 2 spent 5",
            "end 3 spent 5",
        ],
    )
}

#[test]
fn account_of_a_budget_of_two_steps(rt: HostRuntime) -> Result<(), Fail> {
    let alloc = rt.alloc();
    let stages = r#"["select","age"],["cast"],["impute",0],["clamp",0,0],["sum"]"#;
    let clamped = format!(in alloc; "{{\"node\":0,\"ask\":[{stages},[\"geometric\",1,0,0]]}}")?;
    accounts(
        &rt,
        TWO_STEPS,
        &[ASK_ONE, ASK_TWO, ASK_ONE, clamped.as_str()],
        &[
            "1 admitted draws 1 cost 1 spent 1",
            "2 refused 7 budget 2 1",
            "3 admitted draws 1 cost 1 spent 2",
            "4 refused 7 budget 0 0",
            "end 4 spent 2",
        ],
    )
}

/// Two nested opens, and asks at the root, the inner, the outer and no node.
pub(super) const BELOW_THE_ROOT: [&str; 6] = [
    r#"{"node":0,"open":[],"distance":1,"budget":["filter",4]}"#,
    r#"{"node":1,"open":[],"distance":1,"budget":["filter",2]}"#,
    ASK_ONE,
    r#"{"node":2,"ask":[["count"],["geometric",1,0,0]]}"#,
    r#"{"node":1,"ask":[["count"],["geometric",1,0,0]]}"#,
    r#"{"node":9,"ask":[["count"],["geometric",1,0,0]]}"#,
];

#[test]
fn an_ask_at_the_root_freezes_the_nodes_below_it(rt: HostRuntime) -> Result<(), Fail> {
    accounts(
        &rt,
        ODOMETER,
        &BELOW_THE_ROOT,
        &[
            "1 node cost 4 spent 4",
            "2 node cost 2 spent 4",
            "3 admitted draws 1 cost 1 spent 5",
            "4 refused 3 frozen 0 3",
            "5 refused 3 frozen 0 3",
            "6 refused 2 no-node",
            "end 6 spent 5",
        ],
    )
}

#[test]
fn where_siblings_stay_open_no_node_is_frozen(rt: HostRuntime) -> Result<(), Fail> {
    accounts(
        &rt,
        SIBLINGS_OPEN,
        &BELOW_THE_ROOT,
        &[
            "1 node cost 4 spent 4",
            "2 node cost 2 spent 4",
            "3 admitted draws 1 cost 1 spent 5",
            "4 admitted draws 1 cost 1 spent 5",
            "5 admitted draws 1 cost 1 spent 5",
            "6 refused 2 no-node",
            "end 6 spent 5",
        ],
    )
}

#[test]
fn a_child_at_less_than_its_mapped_distance_is_refused(rt: HostRuntime) -> Result<(), Fail> {
    let alloc = rt.alloc();
    let stages = r#"["select","age"],["cast"],["impute",0],["clamp",-1,2],["sum"]"#;
    let end = r#""distance":1,"budget":["filter",1]"#;
    let child = format!(in alloc; "{{\"node\":0,\"open\":[{stages}],{end}}}")?;
    accounts(
        &rt,
        ODOMETER,
        &[
            r#"{"node":0,"open":[],"distance":1,"budget":["filter",3]}"#,
            child.as_str(),
            r#"{"node":1,"ask":[["count"],["geometric",1,0,0]]}"#,
        ],
        &[
            "1 node cost 3 spent 3",
            "2 refused 6 child-distance 2",
            "3 admitted draws 1 cost 1 spent 3",
            "end 3 spent 3",
        ],
    )
}

/// An ask for a histogram with these edges.
fn histogram(rt: &impl AllocGlobal, edges: &str) -> Result<String, Fail> {
    let alloc = rt.alloc();
    let stages = r#"["select","age"],["cast"],["impute",0]"#;
    let end = r#"["histogram"],["geometric",1,0,65535]"#;
    Ok(format!(in alloc; "{{\"node\":0,\"ask\":[{stages},[\"bins\",[{edges}]],{end}]}}")?)
}

#[test]
fn a_release_of_the_most_draws_and_one_of_more(rt: HostRuntime) -> Result<(), Fail> {
    let fifteen = histogram(&rt, "1,2,3,4,5,6,7,8,9,10,11,12,13,14,15")?;
    let sixteen = histogram(&rt, "1,2,3,4,5,6,7,8,9,10,11,12,13,14,15,16")?;
    accounts(
        &rt,
        ODOMETER,
        &[fifteen.as_str(), sixteen.as_str()],
        &[
            "1 admitted draws 1048576 cost 1 spent 1",
            "2 refused 4 construction 5",
            "end 2 spent 1",
        ],
    )
}

#[test]
fn sixteen_nodes_below_each_other_and_no_more(rt: HostRuntime) -> Result<(), Fail> {
    let alloc = rt.alloc();
    let mut queries = String::new(alloc);
    let mut lines = String::new(alloc);
    for node in 0..17 {
        let open = format!(in alloc;
            "{{\"node\":{node},\"open\":[],\"distance\":1,\"budget\":[\"filter\",0]}}\n"
        )?;
        queries.push_str(open.as_str())?;
    }
    queries.push_str("{\"node\":16,\"ask\":[[\"count\"],[\"geometric\",1,0,0]]}\n")?;
    for number in 1..17 {
        let line = format!(in alloc; "{number} node cost 0 spent 0\n")?;
        lines.push_str(line.as_str())?;
    }
    lines.push_str("17 refused 5 depth\n18 refused 7 budget 1 0\nend 18 spent 0\n")?;
    let shown = account_with(&rt, ODOMETER, queries.as_bytes(), NO_FAILURE)?;
    shows(&rt, &shown, 0, lines.as_bytes(), b"");
    Ok(())
}

#[test]
fn lines_that_spell_no_query_are_malformed(rt: HostRuntime) -> Result<(), Fail> {
    accounts(
        &rt,
        ODOMETER,
        &["", "{}", r#"{"node":0,"ask":"none"}"#, "[1"],
        &[
            "1 refused 1 malformed",
            "2 refused 1 malformed",
            "3 refused 1 malformed",
            "4 refused 1 malformed",
            "end 4 spent 0",
        ],
    )
}

/// The least pieces that the objects of a run may take.
const LEAST: Pieces = Pieces {
    read: 1,
    written: 1,
    told: 1,
};

#[test]
fn a_query_line_of_more_than_65_536_bytes_ends_the_run(rt: HostRuntime) -> Result<(), Fail> {
    let whole = Calls {
        whole: true,
        ..NO_FAILURE
    };
    let answered = b"1 admitted draws 1 cost 1 spent 1\nend 1 spent 1\n".as_slice();
    let limit = b"dp: query limit\n".as_slice();
    let mut text = Vec::from_slice(rt.alloc(), ASK_ONE.as_bytes())?;
    text.resize(65_536, b' ')?;
    let shown = account_with(&rt, ODOMETER, text.as_slice(), whole)?;
    shows(&rt, &shown, 0, answered, b"");
    let shown = run_in_pieces(&rt, &ACCOUNT, ODOMETER, text.as_slice(), NO_FAILURE, LEAST)?;
    shows(&rt, &shown, 0, answered, b"");
    text.push(b' ')?;
    let shown = account_with(&rt, ODOMETER, text.as_slice(), whole)?;
    shows(&rt, &shown, 8, b"", limit);
    let shown = run_in_pieces(&rt, &ACCOUNT, ODOMETER, text.as_slice(), NO_FAILURE, LEAST)?;
    shows(&rt, &shown, 8, b"", limit);
    Ok(())
}

#[test]
fn the_lines_before_one_that_is_too_long_are_written(rt: HostRuntime) -> Result<(), Fail> {
    let mut text = Vec::from_slice(rt.alloc(), ASK_ONE.as_bytes())?;
    text.push(b'\n')?;
    text.resize(ASK_ONE.len() + 1 + 65_537, b' ')?;
    text.push(b'\n')?;
    let shown = account_with(&rt, ODOMETER, text.as_slice(), NO_FAILURE)?;
    let line = b"1 admitted draws 1 cost 1 spent 1\n".as_slice();
    shows(&rt, &shown, 8, line, b"dp: query limit\n");
    Ok(())
}

#[test]
fn an_empty_text_has_no_queries(rt: HostRuntime) -> Result<(), Fail> {
    let shown = account_with(&rt, ODOMETER, b"", NO_FAILURE)?;
    shows(&rt, &shown, 0, b"end 0 spent 0\n", b"");
    let shown = account_with(&rt, ODOMETER, ASK_ONE.as_bytes(), NO_FAILURE)?;
    let line = b"1 admitted draws 1 cost 1 spent 1\nend 1 spent 1\n".as_slice();
    shows(&rt, &shown, 0, line, b"");
    Ok(())
}

#[test]
fn words_after_account_name_two_files(rt: HostRuntime) -> Result<(), Fail> {
    for words in [
        ["account"].as_slice(),
        ["account", "data"].as_slice(),
        ["account", "data", "draws", "draws"].as_slice(),
        ["account", "", "draws"].as_slice(),
        ["account", "data", ""].as_slice(),
        ["accounts", "data", "draws"].as_slice(),
    ] {
        let shown = run(&rt, words, ODOMETER, b"")?;
        shows(&rt, &shown, 2, b"", b"dp: usage\n");
    }
    let read_fault = b"dp: read fault\n".as_slice();
    let shown = run(&rt, &["account", "other", "draws"], ODOMETER, b"")?;
    shows(&rt, &shown, 4, b"", read_fault);
    let shown = run(&rt, &["account", "data", "other"], ODOMETER, b"")?;
    shows(&rt, &shown, 4, b"", read_fault);
    let shown = run(&rt, &["account", "data", "other"], b"[1", b"")?;
    shows(&rt, &shown, 3, b"", b"dp: pipeline refused 6\n");
    Ok(())
}
