mod checks;
mod forms;
mod plans;
mod queries;
mod ranges;

use crate::{PipelineFault, QueryFault, read_pipeline};
use dp_count::NoMemory;
use std::alloc::Global;
use std::test::Fail;

/// The number with which a text is refused, 0 where it is accepted.
fn refusal(alloc: Global, text: &[u8]) -> Result<u8, NoMemory> {
    match read_pipeline(alloc, text) {
        Ok(_) => Ok(0),
        Err(PipelineFault::Refused(number)) => Ok(number),
        Err(PipelineFault::NoMemory) => Err(NoMemory),
    }
}

/// A pipeline of these columns, root and plans, each as JSON, without a header, at the distance 1 by 1/2.
fn pipeline(alloc: Global, columns: &str, root: &str, plans: &str) -> Result<String, NoMemory> {
    Ok(format!(in alloc;
        "{{\"version\":1,\"columns\":{columns},\"header\":false,\"ratio\":[1,2],
\"distance\":1,\"root\":{root},\"plans\":{plans}}}"
    )?)
}

/// The number with which a pipeline of one plan is refused.
fn plan_refusal(alloc: Global, plan: &str) -> Result<u8, NoMemory> {
    let plans = format!(in alloc; "{{\"p\":{plan}}}")?;
    let text = pipeline(alloc, "[\"sex\",\"age\"]", "[\"odometer\"]", plans.as_str())?;
    refusal(alloc, text.as_bytes())
}

/// A text so many times.
fn repeated(alloc: Global, text: &str, times: usize) -> Result<String, NoMemory> {
    let mut all = String::new(alloc);
    for _turn in 0..times {
        all.push_str(text)?;
    }
    Ok(all)
}

#[test]
fn faults_are_named(rt: HostRuntime) -> Result<(), Fail> {
    let alloc = rt.alloc();
    for (fault, name) in [
        (PipelineFault::Refused(6), "Refused"),
        (PipelineFault::NoMemory, "NoMemory"),
    ] {
        assert_eq!(rt; format!(in alloc; "{fault}")?.as_str(), name);
    }
    for (fault, name) in [
        (QueryFault::Malformed, "Malformed"),
        (QueryFault::NoMemory, "NoMemory"),
    ] {
        assert_eq!(rt; format!(in alloc; "{fault}")?.as_str(), name);
    }
    Ok(())
}
