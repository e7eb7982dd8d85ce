use crate::{Pipeline, Query, QueryFault, read_pipeline, read_query};
use dp_count::NoMemory;
use std::alloc::Global;
use std::process::Abort;

/// A pipeline with one plan, an `all` of two parts.
fn census(rt: &impl Abort, alloc: Global) -> Pipeline {
    let text = r#"{"version":1,"columns":["sex","age"],"header":true,"ratio":[9,10],
"distance":1,"root":["filter",20],
"plans":{"women":["all",[["filter","sex","F"],["count"],["geometric",1,0,12]],[["count"],["geometric",2,0,5]]]}}"#;
    match read_pipeline(alloc, text.as_bytes()) {
        Ok(pipeline) => pipeline,
        Err(_) => panic!(rt; "a pipeline"),
    }
}

#[test]
fn an_ask_names_a_plan_or_says_its_release(rt: HostRuntime) {
    let pipeline = census(&rt, rt.alloc());
    let Ok(Query::Ask { node, spec }) = read_query(
        rt.alloc(),
        &pipeline,
        b"{\"node\":0,\"ask\":\"women\"}",
    ) else {
        panic!(rt; "an ask");
    };
    assert_eq!(rt; node, 0);
    assert_eq!(rt; spec.parts().len(), 2);
    assert_eq!(rt; spec.parts().at(0).stages.len(), 2);
    assert_eq!(rt; spec.parts().at(1).stages.len(), 1);
    let line = b"{\"ask\":[[\"count\"],[\"geometric\",1,0,1]],\"node\":4294967296}";
    let Ok(Query::Ask { node, spec }) = read_query(rt.alloc(), &pipeline, line) else {
        panic!(rt; "an ask");
    };
    assert_eq!(rt; node, 4294967296);
    assert_eq!(rt; spec.parts().len(), 1);
}

#[test]
fn an_open_says_its_line_its_distance_and_its_budget(rt: HostRuntime) {
    let pipeline = census(&rt, rt.alloc());
    for (budget, wanted) in [("[\"filter\",3]", 3), ("[\"compositor\",[2,1,4]]", 7)] {
        let Ok(line) = open_line(rt.alloc(), budget) else {
            panic!(rt; "a line");
        };
        let Ok(
            Query::Open {
                node,
                stages,
                distance,
                budget,
            },
        ) = read_query(rt.alloc(), &pipeline, line.as_bytes())
        else {
            panic!(rt; "an open");
        };
        assert_eq!(rt; node, 7);
        assert_eq!(rt; stages.len(), 1);
        assert_eq!(rt; distance, 2);
        assert_eq!(rt; budget.declared(), Some(wanted));
        assert_eq!(rt; budget.spent(), 0);
    }
}

fn open_line(alloc: Global, budget: &str) -> Result<String, NoMemory> {
    Ok(format!(in alloc;
        "{{\"node\":7,\"open\":[[\"select\",\"age\"]],\"distance\":2,\"budget\":{budget}}}"
    )?)
}

#[test]
fn other_lines_are_malformed(rt: HostRuntime) {
    let pipeline = census(&rt, rt.alloc());
    for line in [
        b"".as_slice(),
        b" ".as_slice(),
        b"{}".as_slice(),
        b"[1".as_slice(),
        b"[]".as_slice(),
        b"{\"node\":0,\"ask\":\"none\"}".as_slice(),
        b"{\"node\":0,\"ask\":\"\"}".as_slice(),
        b"{\"node\":0}".as_slice(),
        b"{\"ask\":\"women\"}".as_slice(),
        b"{\"node\":-1,\"ask\":\"women\"}".as_slice(),
        b"{\"node\":4294967297,\"ask\":\"women\"}".as_slice(),
        b"{\"node\":0.0,\"ask\":\"women\"}".as_slice(),
        b"{\"node\":\"0\",\"ask\":\"women\"}".as_slice(),
        b"{\"node\":0,\"ask\":\"women\",\"distance\":1}".as_slice(),
        b"{\"node\":0,\"ask\":\"women\",\"open\":[]}".as_slice(),
        b"{\"node\":0,\"ask\":[[\"filter\",\"zip\",\"F\"],[\"count\"],[\"geometric\",1,0,1]]}".as_slice(),
        b"{\"node\":0,\"ask\":[\"all\"]}".as_slice(),
        b"{\"node\":0,\"open\":[],\"distance\":1}".as_slice(),
        b"{\"node\":0,\"open\":[],\"budget\":[\"filter\",1]}".as_slice(),
        b"{\"node\":0,\"distance\":1,\"budget\":[\"filter\",1]}".as_slice(),
        b"{\"open\":[],\"distance\":1,\"budget\":[\"filter\",1]}".as_slice(),
        b"{\"node\":0,\"open\":\"women\",\"distance\":1,\"budget\":[\"filter\",1]}".as_slice(),
        b"{\"node\":0,\"open\":[],\"distance\":1,\"budget\":[\"odometer\"]}".as_slice(),
        b"{\"node\":0,\"open\":[],\"distance\":1,\"budget\":[\"compositor\",[]]}".as_slice(),
        b"{\"node\":0,\"open\":[],\"distance\":1,\"budget\":[\"compositor\",[4294967296,1]]}".as_slice(),
        b"{\"node\":0,\"open\":[],\"distance\":-1,\"budget\":[\"filter\",1]}".as_slice(),
        b"{\"node\":0,\"open\":[[\"select\",\"zip\"]],\"distance\":1,\"budget\":[\"filter\",1]}".as_slice(),
        b"{\"node\":0,\"open\":[],\"distance\":1,\"budget\":[\"filter\",1],\"user\":\"sex\"}".as_slice(),
    ] {
        match read_query(rt.alloc(), &pipeline, line) {
            Err(fault) => assert_eq!(rt; fault, QueryFault::Malformed),
            Ok(_) => panic!(rt; "a query"),
        }
    }
}

#[test]
fn of_two_members_of_a_query_with_one_name_the_last_counts(rt: HostRuntime) {
    let pipeline = census(&rt, rt.alloc());
    let line = b"{\"node\":1,\"ask\":1,\"ask\":\"women\",\"node\":2}";
    let Ok(Query::Ask { node, .. }) = read_query(rt.alloc(), &pipeline, line) else {
        panic!(rt; "an ask");
    };
    assert_eq!(rt; node, 2);
}
