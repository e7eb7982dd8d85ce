use super::{Calls, NO_FAILURE, Shown, run, run_with};
use crate::laws::{check_law, long_law, refusal_law};
use std::process::Abort;
use std::test::Fail;

/// The words of a check of the file `data`.
const CHECK: [&str; 2] = ["check", "data"];

/// A pipeline over the records of a census.
const CENSUS: &[u8] =
    br#"{"version":1,"columns":["sex","age","district"],"header":true,"ratio":[9,10],
"distance":1,"root":["filter",20],"plans":{"women":[["filter","sex","F"],["count"],["geometric",1,0,12]]}}"#;

/// What is written of it: seven lines.
const STAGES: &[u8] = b"root rows 3 symmetric 1
budget filter 20
plan women
filter rows 3 symmetric 1
count int 0 1073741824 absolute 1
geometric draws 13 loss 1
accepted
";

/// A text that is not of a pipeline's form.
const NO_COLUMNS: &[u8] =
    br#"{"version":1,"header":false,"ratio":[1,2],"distance":1,"root":["odometer"],"plans":{}}"#;

/// A pipeline with a ratio that is out of its range.
const RATIO_OF_ONE: &[u8] = br#"{"version":1,"columns":["sex","age"],"header":false,"ratio":[2,2],
"distance":1,"root":["odometer"],"plans":{}}"#;

/// A pipeline up to the parts of its one plan.
const BEFORE_PLAN: &str = r#"{"version":1,"columns":["sex","age"],"header":false,"ratio":[1,2],
"distance":1,"root":["odometer"],"plans":{"p":["#;

/// What a run shows of a check of this text, where such calls fail.
fn check_with(rt: &impl AllocGlobal, text: &[u8], calls: Calls) -> Result<Shown, Fail> {
    run_with(rt, &CHECK, text, b"", calls)
}

/// That a run ended with this status and this line on the error output, and wrote nothing.
fn refuses(rt: &impl Abort, shown: &Shown, status: u8, line: &[u8]) {
    assert_eq!(rt; shown.status, status);
    assert!(rt; shown.out.is_empty());
    assert_eq!(rt; shown.err.as_slice(), line);
}

#[test]
fn the_stages_of_a_pipeline_are_written(rt: HostRuntime) -> Result<(), Fail> {
    check_law();
    let shown = check_with(&rt, CENSUS, NO_FAILURE)?;
    assert_eq!(rt; shown.status, 0);
    assert_eq!(rt; shown.out.as_slice(), STAGES);
    assert!(rt; shown.err.is_empty());
    Ok(())
}

#[test]
fn a_text_that_is_no_pipeline_is_refused_with_its_number(rt: HostRuntime) -> Result<(), Fail> {
    refusal_law();
    for (text, line) in [
        (
            br#"{"version":1"#.as_slice(),
            b"dp: pipeline refused 6\n".as_slice(),
        ),
        (b"".as_slice(), b"dp: pipeline refused 6\n".as_slice()),
        (NO_COLUMNS, b"dp: pipeline refused 7\n".as_slice()),
        (RATIO_OF_ONE, b"dp: pipeline refused 8\n".as_slice()),
    ] {
        refuses(&rt, &check_with(&rt, text, NO_FAILURE)?, 3, line);
    }
    Ok(())
}

#[test]
fn a_plan_that_is_not_made_is_refused_with_its_number(rt: HostRuntime) -> Result<(), Fail> {
    let alloc = rt.alloc();
    for (plan, line) in [
        (
            r#"["select","sex"],["clamp",0,1],["sum"],["geometric",1,0,1]"#,
            b"dp: pipeline refused 1\n".as_slice(),
        ),
        (
            r#"["select","age"],["cast"],["impute",0],["resize",2,0],["resize",2,0],["sum"],
            ["geometric",1,0,1]"#,
            b"dp: pipeline refused 2\n".as_slice(),
        ),
        (
            r#"["select","age"],["cast"],["impute",0],["clamp",5,4],["sum"],["geometric",1,0,1]"#,
            b"dp: pipeline refused 3\n".as_slice(),
        ),
        (
            r#"["select","age"],["cast"],["impute",0],["sum"],["geometric",3,0,0]"#,
            b"dp: pipeline refused 4\n".as_slice(),
        ),
        (
            r#"["select","age"],["cast"],["impute",0],["bins",[1,2,3,4,5,6,7,8,9,10,11,12,13,14,15,16]],
            ["histogram"],["geometric",1,0,65535]"#,
            b"dp: pipeline refused 5\n".as_slice(),
        ),
    ] {
        let text = format!(in alloc; "{BEFORE_PLAN}{plan}]}}}}")?;
        refuses(&rt, &check_with(&rt, text.as_bytes(), NO_FAILURE)?, 3, line);
    }
    Ok(())
}

#[test]
fn a_text_of_more_than_2_to_the_20_bytes_is_refused_with_9(rt: HostRuntime) -> Result<(), Fail> {
    long_law();
    let calls = Calls {
        whole: true,
        ..NO_FAILURE
    };
    let mut text = Vec::from_slice(rt.alloc(), CENSUS)?;
    text.resize(1 << 20, b' ')?;
    let shown = check_with(&rt, text.as_slice(), calls)?;
    assert_eq!(rt; shown.status, 0);
    assert_eq!(rt; shown.out.as_slice(), STAGES);
    text.push(b' ')?;
    assert_eq!(rt; text.len(), 1_048_577);
    let shown = check_with(&rt, text.as_slice(), calls)?;
    refuses(&rt, &shown, 3, b"dp: pipeline refused 9\n");
    Ok(())
}

#[test]
fn words_after_check_name_one_file(rt: HostRuntime) -> Result<(), Fail> {
    for words in [
        ["check"].as_slice(),
        ["check", "data", "data"].as_slice(),
        ["check", ""].as_slice(),
        ["checks", "data"].as_slice(),
    ] {
        refuses(&rt, &run(&rt, words, CENSUS, b"")?, 2, b"dp: usage\n");
    }
    let shown = run(&rt, &["check", "other"], CENSUS, b"")?;
    refuses(&rt, &shown, 4, b"dp: read fault\n");
    Ok(())
}

#[test]
fn an_error_output_that_fails_does_not_change_a_refusal(rt: HostRuntime) -> Result<(), Fail> {
    for (err, whole, told) in [(1, true, b"".as_slice()), (2, false, b"dp: p".as_slice())] {
        let calls = Calls {
            err,
            whole,
            ..NO_FAILURE
        };
        refuses(&rt, &check_with(&rt, NO_COLUMNS, calls)?, 3, told);
    }
    Ok(())
}
