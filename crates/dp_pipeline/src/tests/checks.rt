use crate::{PrintFault, Siblings, print_stages, read_pipeline};
use dp_count::NoMemory;
use dp_io::MemSink;
use std::alloc::Global;
use std::process::Abort;
use std::test::Fail;

const CENSUS: &str =
    r#"{"version":1,"columns":["sex","age","district"],"header":true,"ratio":[9,10],
"distance":1,"root":["filter",20],
"plans":{"women":[["filter","sex","F"],["count"],["geometric",1,0,12]]}}"#;

const PERSONS: &str =
    r#"{"version":1,"columns":["id","item"],"header":false,"user":"id","ratio":[1,2],
"distance":1,"root":["odometer"],
"plans":{"p":[["truncate",2],["count"],["geometric",1,0,5]]}}"#;

/// What is printed of a pipeline.
fn printed(rt: &impl Abort, alloc: Global, text: &str) -> MemSink {
    let Ok(pipeline) = read_pipeline(alloc, text.as_bytes()) else {
        panic!(rt; "a pipeline");
    };
    let Ok(mut out) = MemSink::new(alloc, 7, Vec::new(alloc), 4096) else {
        panic!(rt; "a sink");
    };
    assert_eq!(rt; print_stages(alloc, &pipeline, &mut out), Ok(()));
    out
}

#[test]
fn the_stages_of_the_census_are_printed(rt: HostRuntime) {
    let out = printed(&rt, rt.alloc(), CENSUS);
    let wanted = "root rows 3 symmetric 1
budget filter 20
plan women
filter rows 3 symmetric 1
count int 0 1073741824 absolute 1
geometric draws 13 loss 1
accepted
";
    assert_eq!(rt; out.held(), wanted.as_bytes());
}

#[test]
fn the_stages_of_persons_are_printed(rt: HostRuntime) {
    let out = printed(&rt, rt.alloc(), PERSONS);
    let wanted = "root rows 2 users 0 1
budget odometer
plan p
truncate rows 2 symmetric 4
count int 0 1073741824 absolute 4
geometric draws 6 loss 4
accepted
";
    assert_eq!(rt; out.held(), wanted.as_bytes());
}

#[test]
fn version_2_prints_what_it_says_of_siblings(rt: HostRuntime) {
    for (word, line) in [("open", "siblings open\n"), ("frozen", "siblings frozen\n")] {
        let Ok(text) = siblings(rt.alloc(), word) else {
            panic!(rt; "a text");
        };
        let out = printed(&rt, rt.alloc(), text.as_str());
        let Ok(wanted) = siblings_printed(rt.alloc(), line) else {
            panic!(rt; "a text");
        };
        assert_eq!(rt; out.held(), wanted.as_bytes());
    }
}

fn siblings(alloc: Global, word: &str) -> Result<String, NoMemory> {
    Ok(format!(in alloc;
        "{{\"version\":2,\"siblings\":\"{word}\",\"columns\":[\"sex\"],\"header\":false,
\"ratio\":[1,2],\"distance\":1,\"root\":[\"compositor\",[2,1]]}}"
    )?)
}

fn siblings_printed(alloc: Global, line: &str) -> Result<String, NoMemory> {
    Ok(format!(in alloc; "root rows 1 symmetric 1\nbudget compositor 2 1\n{line}accepted\n")?)
}

#[test]
fn every_stage_every_domain_and_an_all_are_printed(rt: HostRuntime) {
    let text =
        r#"{"version":1,"columns":["sex","age"],"header":false,"ratio":[1,2],"distance":3,"root":["odometer"],"plans":{
        "b":["all",[["select","age"],["cast"],["dropnone"],["clamp",-5,10],["bins",[0,5]],["histogram"],
                    ["choice",1,0,10]],
                   [["select","sex"],["categories",["F","M"]],["histogram"],["geometric",1,0,4]]],
        "a":["all",[["select","age"],["cast"],["impute",0],["resize",4,1],["clamp",0,9],["sum"],
                    ["quantise",2],["atleast",[1,2]],["response",2]]]}}"#;
    let wanted = "root rows 2 symmetric 3
budget odometer
plan a
part 1
select texts symmetric 3
cast optints -2147483648 2147483648 symmetric 3
impute ints -2147483648 2147483648 symmetric 3
resize ints -2147483648 2147483648 size 4 change-one 3
clamp ints 0 9 size 4 change-one 3
sum int 0 36 absolute 27
quantise int 0 18 absolute 14
atleast cat 3 discrete 1
response draws 1 loss 2
all draws 1 loss 2
plan b
part 1
select texts symmetric 3
cast optints -2147483648 2147483648 symmetric 3
dropnone ints -2147483648 2147483648 symmetric 3
clamp ints -5 10 symmetric 3
bins cats 3 symmetric 3
histogram intvec 3 0 1073741824 l1 3
choice draws 1 loss 7
part 2
select texts symmetric 3
categories cats 3 symmetric 3
histogram intvec 3 0 1073741824 l1 3
geometric draws 15 loss 3
all draws 16 loss 10
accepted
";
    let out = printed(&rt, rt.alloc(), text);
    assert_eq!(rt; out.held(), wanted.as_bytes());
}

#[test]
fn an_output_that_fails_keeps_a_front(rt: HostRuntime) -> Result<(), Fail> {
    let alloc = rt.alloc();
    let Ok(pipeline) = read_pipeline(alloc, CENSUS.as_bytes()) else {
        panic!(rt; "a pipeline");
    };
    let mut out = MemSink::new(alloc, 64, vec![in alloc; 2]?, 4096)?;
    assert_eq!(rt;
        print_stages(alloc, &pipeline, &mut out),
        Err(PrintFault::WriteFault)
    );
    assert_eq!(rt; out.held(), b"root rows 3 symmetric 1\n".as_slice());
    Ok(())
}

#[test]
fn a_pipeline_tells_what_its_text_says(rt: HostRuntime) {
    let Ok(persons) = read_pipeline(rt.alloc(), PERSONS.as_bytes()) else {
        panic!(rt; "a pipeline");
    };
    assert_eq!(rt; persons.columns().len(), 2);
    assert!(rt; !persons.header());
    assert_eq!(rt; persons.ratio().p(), 1);
    assert_eq!(rt; persons.ratio().q(), 2);
    assert_eq!(rt; persons.distance(), 1);
    assert_eq!(rt; persons.user(), Some(0));
    assert_eq!(rt; persons.plans().len(), 1);
    assert_eq!(rt; persons.plans().at(0).name.as_slice(), b"p".as_slice());
    assert_eq!(rt; persons.plans().at(0).spec.parts().len(), 1);
    assert!(rt; !persons.plans().at(0).spec.is_all());
    assert!(rt; !persons.siblings_open());
    let Ok(text) = siblings(rt.alloc(), "open") else {
        panic!(rt; "a text");
    };
    let Ok(open) = read_pipeline(rt.alloc(), text.as_bytes()) else {
        panic!(rt; "a pipeline");
    };
    assert!(rt; open.siblings_open());
    assert_eq!(rt; open.siblings(), Some(Siblings::Open));
    assert_eq!(rt; open.user(), None);
}
