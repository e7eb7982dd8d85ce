use super::NO_FAILURE;
use super::account::{joined, shows};
use super::sessions::{CENSUS, PERSONS, TWO_RECORDS, Texts, run_with};
use crate::laws::{group_law, post_law};
use dp_draws::{Draws, NoDraws, Replay, Zeros};
use std::process::Abort;
use std::test::Fail;

/// The words of the women in three districts.
pub(super) const BY_DISTRICT: [&str; 8] = [
    "group", "pipeline", "data", "women", "district", "North", "South", "East",
];

/// The pipeline of the census with the ages in four bins, and the number of all records up to 0.
const AGES_AND_NET: &[u8] =
    br#"{"version":1,"columns":["sex","age","district"],"header":true,"ratio":[9,10],
"distance":1,"root":["filter",20],"plans":{
"ages":[["select","age"],["cast"],["dropnone"],["bins",[18,40,65]],["histogram"],["geometric",2,0,4]],
"net":[["count"],["geometric",1,-5,0]]}}"#;

/// A pipeline whose first column names persons, and five records of two of them.
const USERS: &[u8] =
    br#"{"version":1,"columns":["id","item"],"header":false,"user":"id","ratio":[1,2],
"distance":1,"root":["odometer"],"plans":{"p":[["truncate",2],["count"],["geometric",1,0,5]]}}"#;

const ITEMS: &[u8] = b"a,x\nb,y\na,w\na,x\nb,y\n";

/// A pipeline and its data, of one release.
fn over<'a>(pipeline: &'a [u8], data: &'a [u8]) -> Texts<'a> {
    Texts {
        pipeline,
        data,
        queries: b"",
        draws: b"",
    }
}

/// That a run with these words, by these draws, writes these lines and ends with 0.
fn releases<D: Draws>(
    rt: &(impl Abort + AllocGlobal),
    texts: Texts<'_>,
    words: &[&str],
    source: &mut D,
    lines: &[&str],
) -> Result<(), Fail> {
    let shown = run_with(rt, words, texts, source, NO_FAILURE)?;
    shows(rt, &shown, 0, joined(rt, lines)?.as_bytes(), b"");
    Ok(())
}

/// The same by draws of 0.
fn by_zeros(
    rt: &(impl Abort + AllocGlobal),
    texts: Texts<'_>,
    words: &[&str],
    lines: &[&str],
) -> Result<(), Fail> {
    releases(rt, texts, words, &mut Zeros::new(), lines)
}

/// So many draws of 0.
fn zeros(rt: &impl AllocGlobal, count: u64) -> Result<Replay, Fail> {
    let mut list = Vec::new(rt.alloc());
    for _turn in 0..count {
        list.push(0)?;
    }
    Ok(Replay::new(list))
}

#[test]
fn women_by_district(rt: HostRuntime) -> Result<(), Fail> {
    group_law();
    let lines = ["1 answer (4;1;2) cost 1 spent 1", "end 1 spent 1"];
    by_zeros(&rt, over(CENSUS, PERSONS), &BY_DISTRICT, &lines)
}

#[test]
fn three_groups_take_the_draws_of_three_releases(rt: HostRuntime) -> Result<(), Fail> {
    let texts = over(CENSUS, PERSONS);
    let lines = ["1 answer (4;1;2) cost 1 spent 1", "end 1 spent 1"];
    releases(&rt, texts, &BY_DISTRICT, &mut zeros(&rt, 39)?, &lines)?;
    let shown = run_with(&rt, &BY_DISTRICT, texts, &mut zeros(&rt, 38)?, NO_FAILURE)?;
    shows(&rt, &shown, 6, b"", b"dp: draw fault\n");
    Ok(())
}

#[test]
fn equal_texts_are_refused(rt: HostRuntime) -> Result<(), Fail> {
    let words = [
        "group", "pipeline", "data", "women", "district", "North", "North",
    ];
    let lines = ["1 refused 4 construction 3", "end 1 spent 0"];
    by_zeros(&rt, over(CENSUS, PERSONS), &words, &lines)
}

#[test]
fn groups_of_a_text_without_records(rt: HostRuntime) -> Result<(), Fail> {
    let words = [
        "group", "pipeline", "data", "women", "district", "West", "", "East",
    ];
    let lines = ["1 answer (0;0;2) cost 1 spent 1", "end 1 spent 1"];
    by_zeros(&rt, over(CENSUS, PERSONS), &words, &lines)
}

#[test]
fn ages_changed(rt: HostRuntime) -> Result<(), Fail> {
    post_law();
    for (words, answer) in [
        (
            ["post", "pipeline", "data", "ages", "cumulate"].as_slice(),
            "1 answer [2,6,8,11] cost 2 spent 2",
        ),
        (
            ["post", "pipeline", "data", "ages", "largest"].as_slice(),
            "1 answer #1 cost 2 spent 2",
        ),
        (
            ["post", "pipeline", "data", "ages", "cumulate", "largest"].as_slice(),
            "1 answer #3 cost 2 spent 2",
        ),
    ] {
        by_zeros(
            &rt,
            over(AGES_AND_NET, PERSONS),
            words,
            &[answer, "end 1 spent 2"],
        )?;
    }
    Ok(())
}

#[test]
fn a_number_below_zero_is_changed_to_zero(rt: HostRuntime) -> Result<(), Fail> {
    let words = ["post", "pipeline", "data", "net", "floor"];
    let mut source = Replay::new(vec![in rt.alloc(); 18, 9, 9, 9, 9, 9]?);
    let lines = ["1 answer 0 cost 1 spent 1", "end 1 spent 1"];
    releases(
        &rt,
        over(AGES_AND_NET, PERSONS),
        &words,
        &mut source,
        &lines,
    )
}

#[test]
fn several_changes_are_one_release(rt: HostRuntime) -> Result<(), Fail> {
    let texts = over(CENSUS, PERSONS);
    let words = [
        "post", "pipeline", "data", "women", "floor", "floor", "cumulate",
    ];
    let lines = ["1 answer 7 cost 1 spent 1", "end 1 spent 1"];
    releases(&rt, texts, &words, &mut zeros(&rt, 13)?, &lines)?;
    let shown = run_with(&rt, &words, texts, &mut zeros(&rt, 12)?, NO_FAILURE)?;
    shows(&rt, &shown, 6, b"", b"dp: draw fault\n");
    Ok(())
}

#[test]
fn records_of_persons_are_changed(rt: HostRuntime) -> Result<(), Fail> {
    let words = ["post", "pipeline", "data", "p", "floor"];
    let lines = ["1 answer 4 cost 4 spent 4", "end 1 spent 4"];
    by_zeros(&rt, over(USERS, ITEMS), &words, &lines)
}

#[test]
fn persons_have_no_groups(rt: HostRuntime) -> Result<(), Fail> {
    let lines = ["1 refused 4 construction 2", "end 1 spent 0"];
    for words in [
        ["group", "pipeline", "data", "p", "item", "x", "y"].as_slice(),
        ["group", "pipeline", "data", "p", "item", "x", "x"].as_slice(),
    ] {
        by_zeros(&rt, over(USERS, ITEMS), words, &lines)?;
    }
    Ok(())
}

#[test]
fn names_of_no_plan_and_of_no_column_are_malformed(rt: HostRuntime) -> Result<(), Fail> {
    let lines = ["1 refused 1 malformed", "end 1 spent 0"];
    for words in [
        ["post", "pipeline", "data", "q", "floor"].as_slice(),
        ["post", "pipeline", "data", "", "floor"].as_slice(),
        ["group", "pipeline", "data", "q", "item", "x"].as_slice(),
        ["group", "pipeline", "data", "p", "Item", "x"].as_slice(),
        ["group", "pipeline", "data", "p", "", "x", "x"].as_slice(),
    ] {
        by_zeros(&rt, over(USERS, ITEMS), words, &lines)?;
    }
    Ok(())
}

#[test]
fn a_budget_of_none_refuses_both(rt: HostRuntime) -> Result<(), Fail> {
    let pipeline = br#"{"version":1,"columns":["sex","age","district"],"header":true,"ratio":[9,10],
"distance":1,"root":["filter",0],
"plans":{"women":[["filter","sex","F"],["count"],["geometric",1,0,12]]}}"#;
    let texts = over(pipeline, PERSONS);
    let lines = ["1 refused 7 budget 1 0", "end 1 spent 0"];
    by_zeros(
        &rt,
        texts,
        &["post", "pipeline", "data", "women", "floor"],
        &lines,
    )?;
    by_zeros(&rt, texts, &BY_DISTRICT, &lines)
}

#[test]
fn the_loss_of_groups_at_the_greatest_distance(rt: HostRuntime) -> Result<(), Fail> {
    let pipeline = br#"{"version":1,"columns":["sex","age"],"header":false,"ratio":[1,2],
"distance":4294967296,"root":["odometer"],
"plans":{"some":[["count"],["atleast",[1]],["response",2]]}}"#;
    let texts = over(pipeline, TWO_RECORDS);
    let words = ["group", "pipeline", "data", "some", "sex", "F", "M"];
    let lines = ["1 refused 4 construction 4", "end 1 spent 0"];
    by_zeros(&rt, texts, &words, &lines)
}

/// The words of a group of so many texts, each of which is a number.
fn numbered(rt: &impl AllocGlobal, count: u32) -> Result<Vec<String>, Fail> {
    let alloc = rt.alloc();
    let mut words = Vec::new(alloc);
    for k in 0..count {
        words.push(format!(in alloc; "{k}")?)?;
    }
    Ok(words)
}

/// What a group of a plan by so many texts shows, by draws of 0.
fn shown_by(
    rt: &(impl Abort + AllocGlobal),
    texts: Texts<'_>,
    count: u32,
    status: u8,
    out: &[u8],
    err: &[u8],
) -> Result<(), Fail> {
    let numbers = numbered(rt, count)?;
    let mut words = Vec::new(rt.alloc());
    for word in ["group", "pipeline", "data", "all", "age"] {
        words.push(word)?;
    }
    for number in &numbers {
        words.push(number.as_str())?;
    }
    let shown = run_with(rt, words.as_slice(), texts, &mut Zeros::new(), NO_FAILURE)?;
    shows(rt, &shown, status, out, err);
    Ok(())
}

#[test]
fn the_draws_of_groups_at_their_limit(rt: HostRuntime) -> Result<(), Fail> {
    let pipeline = br#"{"version":1,"columns":["sex","age"],"header":false,"ratio":[1,2],
"distance":1,"root":["odometer"],"plans":{"all":[["count"],["geometric",1,0,65535]]}}"#;
    let texts = over(pipeline, TWO_RECORDS);
    let sixteen = b"1 answer (0;0;0;1;1;0;0;0;0;0;0;0;0;0;0;0) cost 1 spent 1\nend 1 spent 1\n";
    shown_by(&rt, texts, 16, 0, sixteen, b"")?;
    shown_by(
        &rt,
        texts,
        17,
        0,
        b"1 refused 4 construction 5\nend 1 spent 0\n",
        b"",
    )
}

#[test]
fn a_group_has_at_most_1023_texts(rt: HostRuntime) -> Result<(), Fail> {
    let texts = over(USERS, ITEMS);
    shown_by(
        &rt,
        texts,
        1023,
        0,
        b"1 refused 1 malformed\nend 1 spent 0\n",
        b"",
    )?;
    shown_by(&rt, texts, 1024, 2, b"", b"dp: usage\n")?;
    shown_by(&rt, texts, 0, 2, b"", b"dp: usage\n")
}

/// That a run with these words over the census ends with this status and this line, and writes nothing.
fn ends(
    rt: &(impl Abort + AllocGlobal),
    words: &[&str],
    status: u8,
    err: &[u8],
) -> Result<(), Fail> {
    let shown = run_with(
        rt,
        words,
        over(CENSUS, PERSONS),
        &mut Zeros::new(),
        NO_FAILURE,
    )?;
    shows(rt, &shown, status, b"", err);
    Ok(())
}

#[test]
fn words_of_no_release(rt: HostRuntime) -> Result<(), Fail> {
    for words in [
        ["post", "pipeline", "data", "women"].as_slice(),
        ["post", "pipeline", "data", "women", "round"].as_slice(),
        ["post", "pipeline", "data", "women", "floor", "Floor"].as_slice(),
        ["post", "", "data", "women", "floor"].as_slice(),
        ["post", "pipeline", "", "women", "floor"].as_slice(),
        ["group", "pipeline", "data", "women", "district"].as_slice(),
        ["group", "", "data", "women", "district", "North"].as_slice(),
        ["group", "pipeline", "", "women", "district", "North"].as_slice(),
    ] {
        ends(&rt, words, 2, b"dp: usage\n")?;
    }
    Ok(())
}

#[test]
fn at_most_16_changes(rt: HostRuntime) -> Result<(), Fail> {
    let mut words = Vec::new(rt.alloc());
    for word in ["post", "pipeline", "data", "women"] {
        words.push(word)?;
    }
    for _turn in 0..16 {
        words.push("cumulate")?;
    }
    let lines = ["1 answer 7 cost 1 spent 1", "end 1 spent 1"];
    by_zeros(&rt, over(CENSUS, PERSONS), words.as_slice(), &lines)?;
    words.push("cumulate")?;
    ends(&rt, words.as_slice(), 2, b"dp: usage\n")
}

#[test]
fn a_release_of_a_file_that_is_missing(rt: HostRuntime) -> Result<(), Fail> {
    for words in [
        ["post", "other", "data", "women", "floor"].as_slice(),
        ["post", "pipeline", "other", "women", "floor"].as_slice(),
        ["group", "other", "data", "women", "district", "North"].as_slice(),
        ["group", "pipeline", "other", "women", "district", "North"].as_slice(),
    ] {
        ends(&rt, words, 4, b"dp: read fault\n")?;
    }
    ends(
        &rt,
        &["group", "data", "other", "women", "district", "North"],
        3,
        b"dp: pipeline refused 6\n",
    )
}

#[test]
fn releases_without_draws(rt: HostRuntime) -> Result<(), Fail> {
    let texts = over(CENSUS, PERSONS);
    for words in [
        ["post", "pipeline", "data", "women", "floor"].as_slice(),
        BY_DISTRICT.as_slice(),
    ] {
        let shown = run_with(&rt, words, texts, &mut NoDraws::new(), NO_FAILURE)?;
        shows(&rt, &shown, 6, b"", b"dp: draw fault\n");
    }
    Ok(())
}

#[test]
fn a_refused_release_takes_no_draw(rt: HostRuntime) -> Result<(), Fail> {
    let words = [
        "group", "pipeline", "data", "women", "district", "North", "North",
    ];
    let lines = ["1 refused 4 construction 3", "end 1 spent 0"];
    releases(
        &rt,
        over(CENSUS, PERSONS),
        &words,
        &mut NoDraws::new(),
        &lines,
    )
}
