use super::account::{ACCOUNT, ASK_ONE, ASK_THREE, ASK_TWO, BELOW_THE_ROOT, ODOMETER, accounts};
use super::sessions::{TWO_RECORDS, ask, replays};
use super::{Calls, NO_FAILURE, run_with};
use std::process::Abort;
use std::test::Fail;

/// What a pipeline of version 2 may say of siblings.
const SIBLINGS: [&str; 2] = ["open", "frozen"];

/// A pipeline of version 2, by what it says of siblings and by its root.
fn second_version(rt: &impl AllocGlobal, siblings: &str, root: &str) -> Result<String, Fail> {
    let names = r#""columns":["sex","age"],"header":false,"ratio":[1,2],"distance":1,"plans":{}"#;
    Ok(format!(in rt.alloc();
        "{{\"version\":2,\"siblings\":\"{siblings}\",{names},\"root\":[{root}]}}"
    )?)
}

#[test]
fn a_filter_of_five_of_version_2(rt: HostRuntime) -> Result<(), Fail> {
    for siblings in SIBLINGS {
        let pipeline = second_version(&rt, siblings, "\"filter\",5")?;
        accounts(
            &rt,
            pipeline.as_bytes(),
            &[ASK_THREE, ASK_THREE, ASK_TWO],
            &[
                "1 admitted draws 1 cost 3 spent 3",
                "2 refused 7 budget 3 2",
                "3 admitted draws 1 cost 2 spent 5",
                "end 3 spent 5",
            ],
        )?;
    }
    Ok(())
}

#[test]
fn two_steps_of_version_2(rt: HostRuntime) -> Result<(), Fail> {
    for siblings in SIBLINGS {
        let pipeline = second_version(&rt, siblings, "\"compositor\",[2,1]")?;
        accounts(
            &rt,
            pipeline.as_bytes(),
            &[ASK_ONE, ASK_TWO, ASK_ONE],
            &[
                "1 admitted draws 1 cost 1 spent 1",
                "2 refused 7 budget 2 1",
                "3 admitted draws 1 cost 1 spent 2",
                "end 3 spent 2",
            ],
        )?;
    }
    Ok(())
}

#[test]
fn a_child_that_is_too_near_in_version_2(rt: HostRuntime) -> Result<(), Fail> {
    let stages = r#"["select","age"],["cast"],["impute",0],["clamp",-1,2],["sum"]"#;
    let end = r#""distance":1,"budget":["filter",1]"#;
    let child = format!(in rt.alloc(); "{{\"node\":0,\"open\":[{stages}],{end}}}")?;
    for siblings in SIBLINGS {
        let pipeline = second_version(&rt, siblings, "\"odometer\"")?;
        accounts(
            &rt,
            pipeline.as_bytes(),
            &[
                r#"{"node":0,"open":[],"distance":1,"budget":["filter",3]}"#,
                child.as_str(),
                r#"{"node":1,"ask":[["count"],["geometric",1,0,0]]}"#,
            ],
            &[
                "1 node cost 3 spent 3",
                "2 refused 6 child-distance 2",
                "3 admitted draws 1 cost 1 spent 3",
                "end 3 spent 3",
            ],
        )?;
    }
    Ok(())
}

#[test]
fn frozen_siblings_are_those_of_version_1(rt: HostRuntime) -> Result<(), Fail> {
    let pipeline = second_version(&rt, "frozen", "\"odometer\"")?;
    accounts(
        &rt,
        pipeline.as_bytes(),
        &BELOW_THE_ROOT,
        &[
            "1 node cost 4 spent 4",
            "2 node cost 2 spent 4",
            "3 admitted draws 1 cost 1 spent 5",
            "4 refused 3 frozen 0 3",
            "5 refused 3 frozen 0 3",
            "6 refused 2 no-node",
            "end 6 spent 5",
        ],
    )?;
    replays(
        &rt,
        pipeline.as_bytes(),
        TWO_RECORDS,
        &BELOW_THE_ROOT,
        "0",
        &[
            "1 node cost 4 spent 4",
            "2 node cost 2 spent 4",
            "3 answer 0 cost 1 spent 5",
            "4 refused 3 frozen 0 3",
            "5 refused 3 frozen 0 3",
            "6 refused 2 no-node",
            "end 6 spent 5",
        ],
    )
}

#[test]
fn open_siblings_are_answered_by_three_draws(rt: HostRuntime) -> Result<(), Fail> {
    let pipeline = second_version(&rt, "open", "\"odometer\"")?;
    replays(
        &rt,
        pipeline.as_bytes(),
        TWO_RECORDS,
        &BELOW_THE_ROOT,
        "0 0 0",
        &[
            "1 node cost 4 spent 4",
            "2 node cost 2 spent 4",
            "3 answer 0 cost 1 spent 5",
            "4 answer 0 cost 1 spent 5",
            "5 answer 0 cost 1 spent 5",
            "6 refused 2 no-node",
            "end 6 spent 5",
        ],
    )
}

#[test]
fn releases_that_are_not_made(rt: HostRuntime) -> Result<(), Fail> {
    let texts = ask(
        &rt,
        r#"["select","sex"],["clamp",0,1],["sum"],["geometric",1,0,1]"#,
    )?;
    let sizes = r#"["resize",2,0],["resize",2,0],["sum"],["geometric",1,0,1]"#;
    let limits = r#"["clamp",5,4],["sum"],["geometric",1,0,1]"#;
    accounts(
        &rt,
        ODOMETER,
        &[
            texts.as_str(),
            of_ages(&rt, sizes)?.as_str(),
            of_ages(&rt, limits)?.as_str(),
        ],
        &[
            "1 refused 4 construction 1",
            "2 refused 4 construction 2",
            "3 refused 4 construction 3",
            "end 3 spent 0",
        ],
    )
}

/// A query of the ages, by what comes after they are numbers.
fn of_ages(rt: &impl AllocGlobal, stages: &str) -> Result<String, Fail> {
    let numbers = r#"["select","age"],["cast"],["impute",0]"#;
    let all = format!(in rt.alloc(); "{numbers},{stages}")?;
    ask(rt, all.as_str())
}

/// A pipeline on the records of persons.
const PERSONS: &[u8] =
    br#"{"version":1,"columns":["id","item"],"header":false,"user":"id","ratio":[1,2],
"distance":1,"root":["odometer"],"plans":{"p":[["truncate",2],["count"],["geometric",1,0,5]]}}"#;

#[test]
fn releases_on_persons(rt: HostRuntime) -> Result<(), Fail> {
    accounts(
        &rt,
        PERSONS,
        &[
            r#"{"node":0,"ask":"p"}"#,
            r#"{"node":0,"ask":[["count"],["geometric",1,0,5]]}"#,
            r#"{"node":0,"ask":[["truncate",0],["count"],["geometric",1,0,5]]}"#,
            r#"{"node":0,"ask":[["filter","item","y"],["truncate",1],["count"],["geometric",1,0,5]]}"#,
        ],
        &[
            "1 admitted draws 6 cost 4 spent 4",
            "2 refused 4 construction 2",
            "3 refused 4 construction 3",
            "4 admitted draws 6 cost 2 spent 6",
            "end 4 spent 6",
        ],
    )
}

/// How many query lines a run answers at most.
const MOST_LINES: usize = 1 << 20;

#[test]
fn as_many_lines_as_a_run_answers_and_one_more(rt: HostRuntime) -> Result<(), Fail> {
    let mut text = vec![in rt.alloc(); b'\n'; MOST_LINES]?;
    ends(&rt, text.as_slice(), 0, b"\nend 1048576 spent 0\n", b"")?;
    text.push(b'\n')?;
    ends(
        &rt,
        text.as_slice(),
        8,
        b"\n1048576 refused 1 malformed\n",
        b"dp: query limit\n",
    )
}

/// That an account of these lines ends so.
fn ends(
    rt: &(impl Abort + AllocGlobal),
    queries: &[u8],
    status: u8,
    out: &[u8],
    err: &[u8],
) -> Result<(), Fail> {
    let whole = Calls {
        whole: true,
        ..NO_FAILURE
    };
    let shown = run_with(rt, &ACCOUNT, ODOMETER, queries, whole)?;
    assert!(rt; shown.out.as_slice().ends_with(out));
    assert_eq!(rt; shown.err.as_slice(), err);
    assert_eq!(rt; shown.status, status);
    Ok(())
}
