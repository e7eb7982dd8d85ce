use super::{pipeline, plan_refusal, refusal, repeated};
use std::test::Fail;

/// The members of a pipeline, each with its value.
const MEMBERS: [(&str, &str); 7] = [
    ("version", "1"),
    ("columns", "[\"sex\",\"age\"]"),
    ("header", "false"),
    ("ratio", "[1,2]"),
    ("distance", "1"),
    ("root", "[\"odometer\"]"),
    ("plans", "{}"),
];

/// A pipeline in which the member at that place reads otherwise, or is left out where nothing is given.
fn otherwise(
    alloc: std::alloc::Global,
    place: usize,
    value: Option<&str>,
    more: &str,
) -> Result<String, Fail> {
    let mut text = String::from_str(alloc, "{")?;
    let mut comma = "";
    for (at, (name, usual)) in MEMBERS.iter().enumerate() {
        let value = if at == place { value } else { Some(*usual) };
        if let Some(value) = value {
            let member = format!(in alloc; "{comma}\"{name}\":{value}")?;
            text.push_str(member.as_str())?;
            comma = ",";
        }
    }
    text.push_str(more)?;
    text.push_str("}")?;
    Ok(text)
}

#[test]
fn each_member_has_to_be_there_but_for_plans(rt: HostRuntime) -> Result<(), Fail> {
    for place in 0..7usize {
        let text = otherwise(rt.alloc(), place, None, "")?;
        let wanted = if place == 6 { 0 } else { 7 };
        assert_eq!(rt; refusal(rt.alloc(), text.as_bytes())?, wanted);
    }
    Ok(())
}

#[test]
fn each_member_is_of_its_form(rt: HostRuntime) -> Result<(), Fail> {
    for (place, value) in [
        (0, "\"1\""),
        (0, "1.0"),
        (0, "-1"),
        (0, "4294967297"),
        (1, "\"sex\""),
        (1, "[\"sex\",1]"),
        (1, "{}"),
        (2, "0"),
        (2, "null"),
        (3, "[1]"),
        (3, "[1,2,3]"),
        (3, "[1,2.0]"),
        (3, "[1,4294967297]"),
        (4, "1e0"),
        (4, "-0"),
        (4, "18446744073709551616"),
        (4, "true"),
        (5, "[]"),
        (5, "\"odometer\""),
        (5, "[\"odometer\",1]"),
        (5, "[\"filter\"]"),
        (5, "[\"filter\",1,2]"),
        (5, "[\"filter\",\"1\"]"),
        (5, "[\"compositor\",1]"),
        (5, "[\"compositor\",[1],[2]]"),
        (5, "[\"compositor\",[-1]]"),
        (5, "[\"none\"]"),
        (6, "[]"),
        (6, "{\"p\":1}"),
        (6, "{\"p\":[]}"),
    ] {
        let text = otherwise(rt.alloc(), place, Some(value), "")?;
        assert_eq!(rt; refusal(rt.alloc(), text.as_bytes())?, 7);
    }
    Ok(())
}

#[test]
fn of_two_members_with_one_name_the_last_counts_and_no_others_may_be(
    rt: HostRuntime,
) -> Result<(), Fail> {
    for (more, wanted) in [
        (",\"version\":1", 0),
        (",\"version\":3", 8),
        (",\"header\":1", 7),
        (",\"Version\":1", 7),
        (",\"\":1", 7),
        (",\"comment\":null", 7),
        (",\"user\":\"age\"", 0),
        (",\"user\":\"zip\"", 7),
        (",\"user\":1", 7),
        (",\"siblings\":\"open\"", 7),
    ] {
        let text = otherwise(rt.alloc(), 7, None, more)?;
        assert_eq!(rt; refusal(rt.alloc(), text.as_bytes())?, wanted);
    }
    Ok(())
}

#[test]
fn version_2_has_to_say_whether_siblings_stay_open(rt: HostRuntime) -> Result<(), Fail> {
    for (version, more, wanted) in [
        ("2", "", 7),
        ("2", ",\"siblings\":\"open\"", 0),
        ("2", ",\"siblings\":\"frozen\"", 0),
        ("2", ",\"siblings\":\"shut\"", 7),
        ("2", ",\"siblings\":true", 7),
        ("1", ",\"siblings\":\"frozen\"", 7),
        ("3", "", 8),
        ("3", ",\"siblings\":\"open\"", 7),
        ("0", "", 8),
    ] {
        let text = otherwise(rt.alloc(), 0, Some(version), more)?;
        assert_eq!(rt; refusal(rt.alloc(), text.as_bytes())?, wanted);
    }
    Ok(())
}

#[test]
fn texts_that_are_no_json_are_refused(rt: HostRuntime) -> Result<(), Fail> {
    for text in [
        b"".as_slice(),
        b"{\"version\":1".as_slice(),
        b"{}{}".as_slice(),
        b"{\"version\":01}".as_slice(),
        b"[1e400]".as_slice(),
        b"[\"\\ud800\"]".as_slice(),
        b"\xef\xbb\xbf{}".as_slice(),
        b"\"\xff\"".as_slice(),
    ] {
        assert_eq!(rt; refusal(rt.alloc(), text)?, 6);
    }
    for text in [
        b"{}".as_slice(),
        b"[]".as_slice(),
        b"1.5".as_slice(),
        b"null".as_slice(),
    ] {
        assert_eq!(rt; refusal(rt.alloc(), text)?, 7);
    }
    Ok(())
}

#[test]
fn arrays_nest_at_most_127_deep(rt: HostRuntime) -> Result<(), Fail> {
    for (depth, wanted) in [(100, 7), (127, 7), (128, 6), (200, 6)] {
        let mut text = repeated(rt.alloc(), "[", depth)?;
        let closing = repeated(rt.alloc(), "]", depth)?;
        text.push_str(closing.as_str())?;
        assert_eq!(rt; refusal(rt.alloc(), text.as_bytes())?, wanted);
    }
    Ok(())
}

#[test]
fn a_text_has_at_most_2_to_the_20_bytes(rt: HostRuntime) -> Result<(), Fail> {
    let alloc = rt.alloc();
    let mut text = pipeline(alloc, "[\"a\"]", "[\"odometer\"]", "{}")?;
    let most: usize = 1_048_576;
    let spaces = repeated(alloc, " ", most.saturating_sub(text.len()))?;
    text.push_str(spaces.as_str())?;
    assert_eq!(rt; refusal(alloc, text.as_bytes())?, 0);
    text.push_str(" ")?;
    assert_eq!(rt; refusal(alloc, text.as_bytes())?, 9);
    Ok(())
}

#[test]
fn each_stage_and_noise_is_of_its_form(rt: HostRuntime) -> Result<(), Fail> {
    for stage in [
        "[]",
        "1",
        "\"count\"",
        "[1]",
        "[\"Count\"]",
        "[\"filter\",\"sex\"]",
        "[\"filter\",\"zip\",\"F\"]",
        "[\"filter\",\"sex\",1]",
        "[\"filter\",\"sex\",\"F\",\"M\"]",
        "[\"select\"]",
        "[\"select\",\"zip\"]",
        "[\"select\",0]",
        "[\"cast\",1]",
        "[\"categories\",\"F\"]",
        "[\"categories\",[1]]",
        "[\"impute\"]",
        "[\"impute\",1.0]",
        "[\"impute\",4611686018427387905]",
        "[\"dropnone\",[]]",
        "[\"clamp\",1]",
        "[\"clamp\",0,\"9\"]",
        "[\"clamp\",-4611686018427387905,1]",
        "[\"bins\",1]",
        "[\"bins\",[1.5]]",
        "[\"resize\",-1,0]",
        "[\"resize\",4294967297,0]",
        "[\"resize\",1]",
        "[\"count\",1]",
        "[\"sum\",1]",
        "[\"histogram\",1]",
        "[\"quantise\",-1]",
        "[\"quantise\"]",
        "[\"atleast\",1]",
        "[\"atleast\",[\"1\"]]",
        "[\"truncate\",-1]",
        "[\"truncate\"]",
    ] {
        let plan = format!(in rt.alloc(); "[{stage},[\"count\"],[\"geometric\",1,0,1]]")?;
        assert_eq!(rt; plan_refusal(rt.alloc(), plan.as_str())?, 7);
    }
    for noise in [
        "[]",
        "[\"count\"]",
        "[\"geometric\"]",
        "[\"geometric\",1,0]",
        "[\"geometric\",1,0,1,2]",
        "[\"geometric\",-1,0,1]",
        "[\"geometric\",1,0,\"1\"]",
        "[\"response\"]",
        "[\"response\",1,2]",
        "[\"response\",1.0]",
        "[\"choice\",1,0]",
        "[\"choice\",1,0,null]",
        "[\"laplace\",1]",
    ] {
        let plan = format!(in rt.alloc(); "[[\"count\"],{noise}]")?;
        assert_eq!(rt; plan_refusal(rt.alloc(), plan.as_str())?, 7);
    }
    Ok(())
}

#[test]
fn an_all_has_1_to_16_parts(rt: HostRuntime) -> Result<(), Fail> {
    for (parts, wanted) in [(0, 7), (1, 0), (16, 0), (17, 7)] {
        let more = repeated(rt.alloc(), ",[[\"count\"],[\"geometric\",1,0,1]]", parts)?;
        let plan = format!(in rt.alloc(); "[\"all\"{more}]")?;
        assert_eq!(rt; plan_refusal(rt.alloc(), plan.as_str())?, wanted);
    }
    assert_eq!(rt; plan_refusal(rt.alloc(), "[\"all\",\"all\"]")?, 7);
    assert_eq!(rt;
        plan_refusal(rt.alloc(), "[\"each\",[[\"count\"],[\"geometric\",1,0,1]]]")?,
        7
    );
    Ok(())
}
