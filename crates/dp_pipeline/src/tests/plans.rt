use super::{pipeline, plan_refusal, refusal};
use std::test::Fail;

/// Stages before a number, and noise on it.
const NOISY_COUNT: &str = "[\"count\"],[\"geometric\",1,0,1]";

#[test]
fn each_stage_is_refused_by_its_row(rt: HostRuntime) -> Result<(), Fail> {
    let alloc = rt.alloc();
    let ages = "[\"select\",\"age\"],[\"cast\"]";
    let whole = "[\"select\",\"age\"],[\"cast\"],[\"impute\",0]";
    for (front, stage, wanted) in [
        ("[\"count\"],", "[\"filter\",\"sex\",\"F\"]", 1),
        ("[\"count\"],", "[\"select\",\"sex\"]", 1),
        ("", "[\"cast\"]", 1),
        ("", "[\"categories\",[\"a\"]]", 1),
        ("[\"select\",\"sex\"],", "[\"categories\",[]]", 3),
        (
            "[\"select\",\"sex\"],",
            "
[\"categories\",[\"a\",\"a\"]]",
            3,
        ),
        ("", "[\"impute\",0]", 1),
        ("AGES,", "[\"impute\",2147483649]", 3),
        ("", "[\"dropnone\"]", 1),
        ("", "[\"clamp\",0,1]", 1),
        ("WHOLE,", "[\"clamp\",5,4]", 3),
        ("", "[\"bins\",[1]]", 1),
        ("WHOLE,", "[\"bins\",[]]", 3),
        ("WHOLE,", "[\"bins\",[2,2]]", 3),
        ("", "[\"resize\",2,0]", 1),
        ("WHOLE,[\"resize\",2,0],", "[\"resize\",2,0]", 2),
        ("WHOLE,", "[\"resize\",0,0]", 3),
        ("WHOLE,", "[\"resize\",1048577,0]", 3),
        ("[\"count\"],", "[\"count\"]", 1),
        ("WHOLE,[\"resize\",2,0],", "[\"count\"]", 2),
        ("", "[\"sum\"]", 1),
        ("", "[\"histogram\"]", 1),
        ("", "[\"quantise\",2]", 1),
        ("[\"count\"],", "[\"quantise\",0]", 3),
        ("", "[\"atleast\",[1]]", 1),
        ("[\"count\"],", "[\"atleast\",[]]", 3),
        ("", "[\"truncate\",1]", 2),
        ("[\"count\"],", "[\"truncate\",1]", 1),
    ] {
        let front = match front {
            "AGES," => format!(in alloc; "{ages},")?,
            "WHOLE," => format!(in alloc; "{whole},")?,
            "WHOLE,[\"resize\",2,0]," => format!(in alloc; "{whole},[\"resize\",2,0],")?,
            other => String::from_str(alloc, other)?,
        };
        let plan = format!(in alloc; "[{front}{stage},{NOISY_COUNT}]")?;
        assert_eq!(rt; plan_refusal(alloc, plan.as_str())?, wanted);
    }
    Ok(())
}

#[test]
fn each_noise_is_refused_by_its_row(rt: HostRuntime) -> Result<(), Fail> {
    let alloc = rt.alloc();
    let vector = "[\"select\",\"sex\"],[\"categories\",[\"F\",\"M\"]],[\"histogram\"]";
    let category = "[\"count\"],[\"atleast\",[1]]";
    for (front, noise, wanted) in [
        ("", "[\"geometric\",1,0,1]", 1),
        ("[\"count\"],", "[\"geometric\",0,0,1]", 3),
        ("[\"count\"],", "[\"geometric\",1,1,0]", 3),
        ("[\"count\"],", "[\"geometric\",1,0,65536]", 3),
        ("[\"count\"],", "[\"geometric\",62,0,1]", 3),
        ("[\"count\"],", "[\"response\",1]", 1),
        ("CATEGORY,", "[\"response\",1]", 0),
        ("CATEGORY,", "[\"response\",62]", 3),
        ("[\"count\"],", "[\"choice\",1,0,10]", 1),
        ("VECTOR,", "[\"choice\",1,0,10]", 0),
        ("VECTOR,", "[\"choice\",1,0,0]", 3),
        ("VECTOR,", "[\"choice\",1,0,60]", 3),
    ] {
        let front = match front {
            "VECTOR," => format!(in alloc; "{vector},")?,
            "CATEGORY," => format!(in alloc; "{category},")?,
            other => String::from_str(alloc, other)?,
        };
        let plan = format!(in alloc; "[{front}{noise}]")?;
        assert_eq!(rt; plan_refusal(alloc, plan.as_str())?, wanted);
    }
    Ok(())
}

#[test]
fn a_loss_past_2_to_the_32_is_refused_before_too_many_draws(rt: HostRuntime) -> Result<(), Fail> {
    let alloc = rt.alloc();
    let wide = "[\"count\"],[\"quantise\",1],[\"geometric\",1,0,65535]";
    for (plan, wanted) in [
        (
            "[[\"select\",\"age\"],[\"cast\"],[\"impute\",0],[\"sum\"],[\"geometric\",2,0,0]]",
            0,
        ),
        (
            "[[\"select\",\"age\"],[\"cast\"],[\"impute\",0],[\"sum\"],[\"geometric\",3,0,0]]",
            4,
        ),
    ] {
        assert_eq!(rt; plan_refusal(alloc, plan)?, wanted);
    }
    for (parts, wanted) in [(15usize, 0), (16, 0)] {
        let mut plan = String::from_str(alloc, "[\"all\"")?;
        for _part in 0..parts {
            let part = format!(in alloc; ",[{wide}]")?;
            plan.push_str(part.as_str())?;
        }
        plan.push_str("]")?;
        assert_eq!(rt; plan_refusal(alloc, plan.as_str())?, wanted);
    }
    let vector = "[\"select\",\"sex\"],
[\"categories\",[\"a\",\"b\",\"c\",\"d\",\"e\",\"f\",\"g\",\"h\",\"i\",\"j\",\"k\",\"l\",\"m\",\"n\",\"o\",\"p\"]],
[\"histogram\"]";
    let draws = format!(in alloc; "[{vector},[\"geometric\",1,0,65535]]")?;
    assert_eq!(rt; plan_refusal(alloc, draws.as_str())?, 5);
    Ok(())
}

#[test]
fn the_first_plan_in_the_order_of_names_decides(rt: HostRuntime) -> Result<(), Fail> {
    let alloc = rt.alloc();
    for (plans, wanted) in [
        (
            "{\"b\":[[\"sum\"],[\"geometric\",1,0,1]],\"a\":[[\"count\"],[\"geometric\",0,0,1]]}",
            3,
        ),
        (
            "{\"b\":[[\"count\"],[\"geometric\",0,0,1]],\"a\":[[\"sum\"],[\"geometric\",1,0,1]]}",
            1,
        ),
        (
            "{\"a\":[[\"count\"],[\"geometric\",1,0,1]],\"b\":[[\"count\"],[\"geometric\",0,0,1]]}",
            3,
        ),
    ] {
        let text = pipeline(alloc, "[\"sex\",\"age\"]", "[\"odometer\"]", plans)?;
        assert_eq!(rt; refusal(alloc, text.as_bytes())?, wanted);
    }
    Ok(())
}

#[test]
fn under_persons_a_plan_has_to_truncate(rt: HostRuntime) -> Result<(), Fail> {
    let alloc = rt.alloc();
    for (stages, wanted) in [
        ("", 2),
        ("[\"truncate\",2],", 0),
        ("[\"truncate\",0],", 3),
        ("[\"filter\",\"item\",\"y\"],[\"truncate\",1],", 0),
        ("[\"truncate\",2],[\"truncate\",2],", 2),
        ("[\"select\",\"item\"],", 2),
    ] {
        let text = format!(in alloc;
            "{{\"version\":1,\"columns\":[\"id\",\"item\"],\"header\":false,\"user\":\"id\",
\"ratio\":[1,2],\"distance\":1,\"root\":[\"odometer\"],\"plans\":{{\"p\":[{stages}{NOISY_COUNT}]}}}}"
        )?;
        assert_eq!(rt; refusal(alloc, text.as_bytes())?, wanted);
    }
    Ok(())
}
