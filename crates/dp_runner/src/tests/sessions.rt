ghost use Rattle.std.specs.Prelude.{◌≤◌};

use super::account::{
    ASK_ONE, ASK_THREE, ASK_TWO, BELOW_THE_ROOT, FILTER_FIVE, ODOMETER, TWO_STEPS, joined, shows,
};
use super::{Calls, NO_FAILURE, Pieces, Shown, pieces_of, run_over};
use crate::laws::{rehearse_law, replay_law, run_law, session_law};
use dp_draws::{Draws, NoDraws, Zeros};
use dp_io::MemShelf;
use std::process::Abort;
use std::test::Fail;

/// The words of the three commands over the files `pipeline`, `data`, `queries` and `draws`.
pub(super) const RUN: [&str; 4] = ["run", "pipeline", "data", "queries"];

pub(super) const REPLAY: [&str; 5] = ["replay", "pipeline", "data", "queries", "draws"];

pub(super) const REHEARSE: [&str; 5] = ["rehearse", "pipeline", "data", "queries", "0"];

/// Two records of two columns.
pub(super) const TWO_RECORDS: &[u8] = b"F,3\nM,4\n";

/// The texts of the four files.
#[derive(Clone, Copy, Drop)]
pub(super) struct Texts<'a> {
    pub(super) pipeline: &'a [u8],
    pub(super) data: &'a [u8],
    pub(super) queries: &'a [u8],
    pub(super) draws: &'a [u8],
}

/// What a run shows over these files, by a source of draws, where such calls fail.
pub(super) fn run_with<D: Draws>(
    rt: &impl AllocGlobal,
    words: &[&str],
    texts: Texts<'_>,
    source: &mut D,
    calls: Calls,
) -> Result<Shown, Fail> {
    run_in_pieces(rt, words, texts, source, calls, pieces_of(calls.whole))
}

/// The same, whose objects take such pieces.
pub(super) fn run_in_pieces<D: Draws>(
    rt: &impl AllocGlobal,
    words: &[&str],
    texts: Texts<'_>,
    source: &mut D,
    calls: Calls,
    pieces: Pieces,
) -> Result<Shown, Fail>
    requires read { 1 ≤ pieces.read }
    requires written { 1 ≤ pieces.written }
    requires told { 1 ≤ pieces.told }
{
    let alloc = rt.alloc();
    let mut shelf = MemShelf::new(alloc, pieces.read, vec![in alloc; calls.shelf]?);
    shelf.add(
        String::from_str(alloc, "pipeline")?,
        Vec::from_slice(alloc, texts.pipeline)?,
    )?;
    shelf.add(
        String::from_str(alloc, "data")?,
        Vec::from_slice(alloc, texts.data)?,
    )?;
    shelf.add(
        String::from_str(alloc, "queries")?,
        Vec::from_slice(alloc, texts.queries)?,
    )?;
    shelf.add(
        String::from_str(alloc, "draws")?,
        Vec::from_slice(alloc, texts.draws)?,
    )?;
    run_over(rt, words, &mut shelf, source, calls, pieces)
}

/// What a replay shows, where such calls fail. No draw is taken from the source that is handed in: it has none.
fn replay_with(rt: &impl AllocGlobal, texts: Texts<'_>, calls: Calls) -> Result<Shown, Fail> {
    run_with(rt, &REPLAY, texts, &mut NoDraws::new(), calls)
}

/// That a replay writes these lines and ends with 0.
pub(super) fn replays(
    rt: &(impl Abort + AllocGlobal),
    pipeline: &[u8],
    data: &[u8],
    queries: &[&str],
    draws: &str,
    lines: &[&str],
) -> Result<(), Fail> {
    let queries = joined(rt, queries)?;
    let texts = Texts {
        pipeline,
        data,
        queries: queries.as_bytes(),
        draws: draws.as_bytes(),
    };
    let shown = replay_with(rt, texts, NO_FAILURE)?;
    shows(rt, &shown, 0, joined(rt, lines)?.as_bytes(), b"");
    Ok(())
}

/// A query of a release at the root, by its stages and its noise.
pub(super) fn ask(rt: &impl AllocGlobal, stages: &str) -> Result<String, Fail> {
    Ok(format!(in rt.alloc(); "{{\"node\":0,\"ask\":[{stages}]}}")?)
}

#[test]
fn ragged_records(rt: HostRuntime) -> Result<(), Fail> {
    replay_law();
    let women = ask(&rt, r#"["filter","sex","F"],["count"],["geometric",1,0,5]"#)?;
    let ages = ask(
        &rt,
        r#"["select","age"],["cast"],["dropnone"],["count"],["geometric",1,0,5]"#,
    )?;
    replays(
        &rt,
        ODOMETER,
        b"F,3,x\nM\n\"F\",12x\n",
        &[women.as_str(), ages.as_str()],
        "0 0 0 0 0 0 0 0 0 0 0 0",
        &[
            "1 answer 2 cost 1 spent 1",
            "2 answer 1 cost 1 spent 2",
            "end 2 spent 2",
        ],
    )
}

#[test]
fn cost_at_the_limit(rt: HostRuntime) -> Result<(), Fail> {
    let stages = r#"["select","age"],["cast"],["impute",0],["sum"]"#;
    let alloc = rt.alloc();
    let two = format!(in alloc; "{stages},[\"geometric\",2,0,0]")?;
    let three = format!(in alloc; "{stages},[\"geometric\",3,0,0]")?;
    replays(
        &rt,
        ODOMETER,
        TWO_RECORDS,
        &[
            ask(&rt, two.as_str())?.as_str(),
            ask(&rt, three.as_str())?.as_str(),
        ],
        "0",
        &[
            "1 answer 0 cost 4294967296 spent 4294967296",
            "2 refused 4 construction 4",
            "end 2 spent 4294967296",
        ],
    )
}

#[test]
fn filter_budget_five(rt: HostRuntime) -> Result<(), Fail> {
    replays(
        &rt,
        FILTER_FIVE,
        TWO_RECORDS,
        &[ASK_THREE, ASK_THREE, ASK_TWO],
        "0 0",
        &[
            "1 answer 0 cost 3 spent 3",
            "2 refused 7 budget 3 2",
            "3 answer 0 cost 2 spent 5",
            "end 3 spent 5",
        ],
    )
}

#[test]
fn compositor_two_one(rt: HostRuntime) -> Result<(), Fail> {
    let clamped = ask(
        &rt,
        r#"["select","age"],["cast"],["impute",0],["clamp",0,0],["sum"],["geometric",1,0,0]"#,
    )?;
    replays(
        &rt,
        TWO_STEPS,
        TWO_RECORDS,
        &[ASK_ONE, ASK_TWO, ASK_ONE, clamped.as_str()],
        "0 0",
        &[
            "1 answer 0 cost 1 spent 1",
            "2 refused 7 budget 2 1",
            "3 answer 0 cost 1 spent 2",
            "4 refused 7 budget 0 0",
            "end 4 spent 2",
        ],
    )
}

#[test]
fn frozen_below_the_root(rt: HostRuntime) -> Result<(), Fail> {
    replays(
        &rt,
        ODOMETER,
        TWO_RECORDS,
        &BELOW_THE_ROOT,
        "0",
        &[
            "1 node cost 4 spent 4",
            "2 node cost 2 spent 4",
            "3 answer 0 cost 1 spent 5",
            "4 refused 3 frozen 0 3",
            "5 refused 3 frozen 0 3",
            "6 refused 2 no-node",
            "end 6 spent 5",
        ],
    )
}

#[test]
fn child_distance(rt: HostRuntime) -> Result<(), Fail> {
    let alloc = rt.alloc();
    let stages = r#"["select","age"],["cast"],["impute",0],["clamp",-1,2],["sum"]"#;
    let end = r#""distance":1,"budget":["filter",1]"#;
    let child = format!(in alloc; "{{\"node\":0,\"open\":[{stages}],{end}}}")?;
    replays(
        &rt,
        ODOMETER,
        TWO_RECORDS,
        &[
            r#"{"node":0,"open":[],"distance":1,"budget":["filter",3]}"#,
            child.as_str(),
            r#"{"node":1,"ask":[["count"],["geometric",1,0,0]]}"#,
        ],
        "0",
        &[
            "1 node cost 3 spent 3",
            "2 refused 6 child-distance 2",
            "3 answer 0 cost 1 spent 3",
            "end 3 spent 3",
        ],
    )
}

/// The queries of three asks of cost 1, and the lines of two of them.
fn three_asks(rt: &impl AllocGlobal) -> Result<String, Fail> {
    joined(rt, &[ASK_ONE, ASK_ONE, ASK_ONE])
}

const TWO_LINES: [&str; 2] = ["1 answer 0 cost 1 spent 1", "2 answer 0 cost 1 spent 2"];

#[test]
fn draws_run_out(rt: HostRuntime) -> Result<(), Fail> {
    session_law();
    let queries = three_asks(&rt)?;
    let lines = joined(&rt, &TWO_LINES)?;
    for draws in ["0 0", "0 0 3", "0 0 x 0"] {
        let texts = Texts {
            pipeline: ODOMETER,
            data: TWO_RECORDS,
            queries: queries.as_bytes(),
            draws: draws.as_bytes(),
        };
        let shown = replay_with(&rt, texts, NO_FAILURE)?;
        shows(&rt, &shown, 6, lines.as_bytes(), b"dp: draw fault\n");
    }
    Ok(())
}

/// A pipeline of three columns with a filter of 20 and a plan.
pub(super) const CENSUS: &[u8] =
    br#"{"version":1,"columns":["sex","age","district"],"header":true,"ratio":[9,10],
"distance":1,"root":["filter",20],
"plans":{"women":[["filter","sex","F"],["count"],["geometric",1,0,12]]}}"#;

/// Twelve records below a header.
pub(super) const PERSONS: &[u8] = b"sex,age,district
F,34,North
M,51,South
F,7,North
F,68,East
M,29,North
M,12x,South
F,45,South
F,81,North
M,17,East
F,22,North
M,66,South
F,39,East
";

/// The plan, the ages in four bins, and a choice of a district.
const CENSUS_QUERIES: &[u8] = br#"{"node":0,"ask":"women"}
{"node":0,"ask":[["select","age"],["cast"],["dropnone"],["bins",[18,40,65]],["histogram"],["geometric",2,0,4]]}
{"node":0,"ask":[["select","district"],["categories",["North","South","East"]],["histogram"],["choice",1,0,10]]}
"#;

/// The noises -2, then 0, 1, -2 and 0, then the draw of the second district.
const CENSUS_DRAWS: &[u8] = b"12 3 9 0 0 0 0 0 0 0 0 0 0
5 0 0 0 0 50 90 0 0 0 150 80 81 0 0 18 99 99 99 99
2305843009213693952";

/// The census by these draws.
fn census(draws: &[u8]) -> Texts<'_> {
    Texts {
        pipeline: CENSUS,
        data: PERSONS,
        queries: CENSUS_QUERIES,
        draws,
    }
}

#[test]
fn census_by_its_draws(rt: HostRuntime) -> Result<(), Fail> {
    let lines = joined(
        &rt,
        &[
            "1 answer 5 cost 1 spent 1",
            "2 answer [2,4,0,3] cost 2 spent 3",
            "3 answer #1 cost 3 spent 6",
            "end 3 spent 6",
        ],
    )?;
    let shown = replay_with(&rt, census(CENSUS_DRAWS), NO_FAILURE)?;
    shows(&rt, &shown, 0, lines.as_bytes(), b"");
    Ok(())
}

#[test]
fn census_by_zeros_that_are_handed_in(rt: HostRuntime) -> Result<(), Fail> {
    run_law();
    let lines = joined(
        &rt,
        &[
            "1 answer 7 cost 1 spent 1",
            "2 answer [2,4,2,3] cost 2 spent 3",
            "3 answer #0 cost 3 spent 6",
            "end 3 spent 6",
        ],
    )?;
    let shown = run_with(&rt, &RUN, census(b""), &mut Zeros::new(), NO_FAILURE)?;
    shows(&rt, &shown, 0, lines.as_bytes(), b"");
    Ok(())
}

/// One ask of cost 1, by one draw.
fn one_ask() -> Texts<'static> {
    Texts {
        pipeline: ODOMETER,
        data: TWO_RECORDS,
        queries: b"{\"node\":0,\"ask\":[[\"count\"],[\"geometric\",1,0,0]]}\n",
        draws: b"0",
    }
}

#[test]
fn write_fails_at_call_two(rt: HostRuntime) -> Result<(), Fail> {
    let calls = Calls {
        out: 2,
        ..NO_FAILURE
    };
    let pieces = Pieces {
        read: 7,
        written: 10,
        told: 64,
    };
    let source = &mut NoDraws::new();
    let shown = run_in_pieces(&rt, &REPLAY, one_ask(), source, calls, pieces)?;
    shows(&rt, &shown, 5, b"1 answer 0", b"dp: write fault\n");
    Ok(())
}

#[test]
fn longest_query_line(rt: HostRuntime) -> Result<(), Fail> {
    let whole = Calls {
        whole: true,
        ..NO_FAILURE
    };
    let mut line = Vec::from_slice(rt.alloc(), ASK_ONE.as_bytes())?;
    line.resize(65_536, b' ')?;
    let texts = Texts {
        queries: line.as_slice(),
        ..one_ask()
    };
    let shown = replay_with(&rt, texts, whole)?;
    let answered = b"1 answer 0 cost 1 spent 1\nend 1 spent 1\n".as_slice();
    shows(&rt, &shown, 0, answered, b"");
    line.push(b' ')?;
    let texts = Texts {
        queries: line.as_slice(),
        ..one_ask()
    };
    let shown = replay_with(&rt, texts, whole)?;
    shows(&rt, &shown, 8, b"", b"dp: query limit\n");
    Ok(())
}

#[test]
fn four_malformed_lines(rt: HostRuntime) -> Result<(), Fail> {
    replays(
        &rt,
        ODOMETER,
        TWO_RECORDS,
        &["", "{}", r#"{"node":0,"ask":"none"}"#, "[1"],
        "",
        &[
            "1 refused 1 malformed",
            "2 refused 1 malformed",
            "3 refused 1 malformed",
            "4 refused 1 malformed",
            "end 4 spent 0",
        ],
    )
}

/// That a rehearsal of a count of the records, from 0 to `most`, answers this.
fn rehearses(
    rt: &(impl Abort + AllocGlobal),
    data: &[u8],
    most: u8,
    seed: &str,
    answer: u8,
) -> Result<(), Fail> {
    let alloc = rt.alloc();
    let count = format!(in alloc; "[\"count\"],[\"geometric\",1,0,{most}]")?;
    let query = ask(rt, count.as_str())?;
    let texts = Texts {
        data,
        queries: query.as_bytes(),
        ..one_ask()
    };
    let words = ["rehearse", "pipeline", "data", "queries", seed];
    let shown = run_with(rt, &words, texts, &mut NoDraws::new(), NO_FAILURE)?;
    let lines = format!(in alloc; "rehearsal\n1 answer {answer} cost 1 spent 1\nend 1 spent 1\n")?;
    shows(rt, &shown, 0, lines.as_bytes(), b"");
    Ok(())
}

#[test]
fn rehearsal(rt: HostRuntime) -> Result<(), Fail> {
    rehearse_law();
    rehearses(&rt, TWO_RECORDS, 1, "0", 1)
}

#[test]
fn rehearsals_of_several_seeds(rt: HostRuntime) -> Result<(), Fail> {
    // The draws were computed by ChaCha20 in another language.
    for (seed, answer) in [
        ("0", 4),
        ("0000000000000000258", 5),
        ("513", 6),
        ("9999999999999999999", 8),
    ] {
        rehearses(&rt, b"F,1\nF,2\nF,3\nF,4\n", 9, seed, answer)?;
    }
    Ok(())
}

#[test]
fn run_without_draws(rt: HostRuntime) -> Result<(), Fail> {
    let shown = run_with(&rt, &RUN, one_ask(), &mut NoDraws::new(), NO_FAILURE)?;
    shows(&rt, &shown, 6, b"", b"dp: draw fault\n");
    Ok(())
}

#[test]
fn two_parts_on_empty_data_with_their_bounds(rt: HostRuntime) -> Result<(), Fail> {
    let both = ask(
        &rt,
        r#""all",[["count"],["geometric",1,0,0]],[["count"],["geometric",2,0,5]]"#,
    )?;
    let answered = b"1 answer (0;0) cost 3 spent 3\nend 1 spent 3\n".as_slice();
    let fault = b"dp: draw fault\n".as_slice();
    for (draws, status, out, err) in [
        ("0 0 0 0 0 0 0", 0, answered, b"".as_slice()),
        ("2 4 3 3 3 3 3", 0, answered, b"".as_slice()),
        ("3 0 0 0 0 0 0", 6, b"".as_slice(), fault),
        ("0 5 0 0 0 0 0", 6, b"".as_slice(), fault),
        ("0 0 0 0 0 0 4", 6, b"".as_slice(), fault),
        ("0 0 0 0 0 0", 6, b"".as_slice(), fault),
    ] {
        let texts = Texts {
            data: b"",
            queries: both.as_bytes(),
            draws: draws.as_bytes(),
            ..one_ask()
        };
        let shown = replay_with(&rt, texts, NO_FAILURE)?;
        shows(&rt, &shown, status, out, err);
    }
    Ok(())
}

/// That a run with these words over one ask ends with this status and this line, and writes this.
fn ends(
    rt: &(impl Abort + AllocGlobal),
    words: &[&str],
    status: u8,
    out: &[u8],
    err: &[u8],
) -> Result<(), Fail> {
    let shown = run_with(rt, words, one_ask(), &mut Zeros::new(), NO_FAILURE)?;
    shows(rt, &shown, status, out, err);
    Ok(())
}

#[test]
fn words_of_no_form(rt: HostRuntime) -> Result<(), Fail> {
    for words in [
        ["run", "pipeline"].as_slice(),
        ["run", "pipeline", "data"].as_slice(),
        ["run", "pipeline", "data", "queries", "draws"].as_slice(),
        ["run", "", "data", "queries"].as_slice(),
        ["run", "pipeline", "", "queries"].as_slice(),
        ["run", "pipeline", "data", ""].as_slice(),
        ["replay", "pipeline", "data", "queries"].as_slice(),
        ["replay", "pipeline", "data", "queries", ""].as_slice(),
        ["rehearse", "pipeline", "data", "queries"].as_slice(),
    ] {
        ends(&rt, words, 2, b"", b"dp: usage\n")?;
    }
    for seed in ["", "-1", "+1", "1x", " 1", "00000000000000000000"] {
        let words = ["rehearse", "pipeline", "data", "queries", seed];
        ends(&rt, &words, 2, b"", b"dp: usage\n")?;
    }
    Ok(())
}

#[test]
fn a_file_that_is_missing(rt: HostRuntime) -> Result<(), Fail> {
    let fault = b"dp: read fault\n".as_slice();
    for words in [
        ["run", "other", "data", "queries"].as_slice(),
        ["run", "pipeline", "other", "queries"].as_slice(),
        ["run", "pipeline", "data", "other"].as_slice(),
        ["replay", "pipeline", "data", "queries", "other"].as_slice(),
        ["rehearse", "pipeline", "other", "queries", "0"].as_slice(),
    ] {
        ends(&rt, words, 4, b"", fault)?;
    }
    let words = ["rehearse", "pipeline", "data", "other", "0"];
    ends(&rt, &words, 4, b"rehearsal\n", fault)
}

#[test]
fn a_pipeline_is_refused_before_the_data_are_opened(rt: HostRuntime) -> Result<(), Fail> {
    for words in [
        ["run", "data", "other", "queries"].as_slice(),
        ["replay", "data", "other", "queries", "draws"].as_slice(),
        ["rehearse", "data", "other", "queries", "0"].as_slice(),
    ] {
        ends(&rt, words, 3, b"", b"dp: pipeline refused 6\n")?;
    }
    Ok(())
}
