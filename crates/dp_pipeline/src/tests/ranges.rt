use super::{pipeline, refusal, repeated};
use dp_count::NoMemory;
use std::alloc::Global;
use std::test::Fail;

/// Names of columns, each of that many bytes, as JSON.
fn columns(alloc: Global, number: usize, bytes: usize) -> Result<String, NoMemory> {
    let mut text = String::from_str(alloc, "[")?;
    for at in 0..number {
        let comma = if at == 0 { "" } else { "," };
        let tail = at.saturating_add(1000);
        let front = repeated(alloc, "c", bytes.saturating_sub(4))?;
        let name = format!(in alloc; "{comma}\"{front}{tail}\"")?;
        text.push_str(name.as_str())?;
    }
    text.push_str("]")?;
    Ok(text)
}

/// The number with which a pipeline of these columns is refused.
fn columns_refusal(alloc: Global, columns: &str) -> Result<u8, NoMemory> {
    let text = pipeline(alloc, columns, "[\"odometer\"]", "{}")?;
    refusal(alloc, text.as_bytes())
}

#[test]
fn there_are_1_to_64_columns_of_1_to_64_bytes_all_different(rt: HostRuntime) -> Result<(), Fail> {
    let alloc = rt.alloc();
    for (number, bytes, wanted) in [
        (0, 4, 8),
        (1, 4, 0),
        (64, 4, 0),
        (65, 4, 8),
        (2, 64, 0),
        (2, 65, 8),
    ] {
        let names = columns(alloc, number, bytes)?;
        assert_eq!(rt; columns_refusal(alloc, names.as_str())?, wanted);
    }
    for (names, wanted) in [
        ("[\"\"]", 8),
        ("[\"a\",\"b\",\"a\"]", 8),
        ("[\"a\",\"A\"]", 0),
        ("[\"\\u0061\",\"a\"]", 8),
    ] {
        assert_eq!(rt; columns_refusal(alloc, names)?, wanted);
    }
    Ok(())
}

#[test]
fn a_ratio_is_from_1_to_65536_and_below_one(rt: HostRuntime) -> Result<(), Fail> {
    for (ratio, wanted) in [
        ("[1,2]", 0),
        ("[65535,65536]", 0),
        ("[0,2]", 8),
        ("[2,2]", 8),
        ("[3,2]", 8),
        ("[1,65537]", 8),
        ("[1,4294967296]", 8),
        ("[1,4294967297]", 7),
    ] {
        let text = format!(in rt.alloc();
            "{{\"version\":1,\"columns\":[\"a\"],\"header\":true,\"ratio\":{ratio},
\"distance\":4294967296,\"root\":[\"odometer\"]}}"
        )?;
        assert_eq!(rt; refusal(rt.alloc(), text.as_bytes())?, wanted);
    }
    Ok(())
}

#[test]
fn there_are_1_to_1024_mids_of_at_most_2_to_the_32(rt: HostRuntime) -> Result<(), Fail> {
    let alloc = rt.alloc();
    for (mids, wanted) in [(0, 8), (1, 0), (1024, 0), (1025, 8)] {
        let more = repeated(alloc, ",1", mids)?;
        let bare = more.as_str().strip_prefix(",").unwrap_or("");
        let root = format!(in alloc; "[\"compositor\",[{bare}]]")?;
        let text = pipeline(alloc, "[\"a\"]", root.as_str(), "{}")?;
        assert_eq!(rt; refusal(alloc, text.as_bytes())?, wanted);
    }
    for (root, wanted) in [
        ("[\"compositor\",[4294967296]]", 0),
        ("[\"compositor\",[4294967296,1]]", 8),
        ("[\"compositor\",[0,0]]", 0),
        ("[\"filter\",4294967296]", 0),
        ("[\"filter\",0]", 0),
    ] {
        let text = pipeline(alloc, "[\"a\"]", root, "{}")?;
        assert_eq!(rt; refusal(alloc, text.as_bytes())?, wanted);
    }
    Ok(())
}

/// So many plans, as JSON.
fn plans(alloc: Global, number: usize) -> Result<String, NoMemory> {
    let mut text = String::from_str(alloc, "{")?;
    for at in 0..number {
        let comma = if at == 0 { "" } else { "," };
        let plan = format!(in alloc; "{comma}\"p{at}\":[[\"count\"],[\"geometric\",1,0,0]]")?;
        text.push_str(plan.as_str())?;
    }
    text.push_str("}")?;
    Ok(text)
}

#[test]
fn there_are_at_most_256_plans(rt: HostRuntime) -> Result<(), Fail> {
    let alloc = rt.alloc();
    for (number, wanted) in [(0, 0), (256, 0), (257, 8)] {
        let plans = plans(alloc, number)?;
        let text = pipeline(alloc, "[\"a\"]", "[\"odometer\"]", plans.as_str())?;
        assert_eq!(rt; refusal(alloc, text.as_bytes())?, wanted);
    }
    Ok(())
}

#[test]
fn a_plan_has_a_name_of_letters_digits_and_two_marks(rt: HostRuntime) -> Result<(), Fail> {
    let alloc = rt.alloc();
    let longest = repeated(alloc, "n", 64)?;
    let longer = repeated(alloc, "n", 65)?;
    for (name, wanted) in [
        ("aZ09_-", 0),
        (longest.as_str(), 0),
        (longer.as_str(), 8),
        ("", 8),
        ("a b", 8),
        ("a.b", 8),
        ("[", 8),
        ("`", 8),
        ("{", 8),
        ("@", 8),
        ("/", 8),
        (":", 8),
        ("\u{e9}", 8),
    ] {
        let plans = format!(in alloc; "{{\"{name}\":[[\"count\"],[\"geometric\",1,0,0]]}}")?;
        let text = pipeline(alloc, "[\"a\"]", "[\"odometer\"]", plans.as_str())?;
        assert_eq!(rt; refusal(alloc, text.as_bytes())?, wanted);
    }
    Ok(())
}

#[test]
fn a_form_is_looked_at_before_ranges_and_those_before_plans(rt: HostRuntime) -> Result<(), Fail> {
    let alloc = rt.alloc();
    for (columns, plans, wanted) in [
        ("[]", "{\"\":[[\"sum\"],[\"geometric\",1,0,1]]}", 8),
        (
            "[]",
            "{\"p\":[[\"select\",\"a\"],[\"geometric\",1,0,1]]}",
            7,
        ),
        ("[\"a\"]", "{\"p\":[[\"sum\"],[\"geometric\",1,0,1]]}", 1),
    ] {
        let text = pipeline(alloc, columns, "[\"odometer\"]", plans)?;
        assert_eq!(rt; refusal(alloc, text.as_bytes())?, wanted);
    }
    Ok(())
}
