ghost use Rattle.std.specs.Prelude.{◌≡◌, ◌+◌, ◌≤◌, ◌<◌, ◌^◌, length, IfOk};

use crate::{EndFault, Session, SessionFault};
use dp_draws::{Draws, NoDraws, Replay, Zeros};
use dp_io::MemSink;
use dp_num::Steps;
use dp_pipeline::read_pipeline;
use dp_records::records_of;
use dp_store::store_of;
use std::alloc::Global;
use std::marker::Brand;
use std::process::Abort;
use std::sync::ledger::{Blank, Ledger};
use std::test::Fail;

/// A pipeline of two columns with an odometer at its root.
const ODOMETER: &[u8] = br#"{"version":1,"columns":["sex","age"],"header":false,"ratio":[1,2],
"distance":1,"root":["odometer"],"plans":{}}"#;

/// The same, where siblings stay open.
const OPEN_SIBLINGS: &[u8] = br#"{"version":2,"siblings":"open","columns":["sex","age"],
"header":false,"ratio":[1,2],"distance":1,"root":["odometer"],"plans":{}}"#;

/// The same, where siblings are frozen.
const FROZEN_SIBLINGS: &[u8] = br#"{"version":2,"siblings":"frozen","columns":["sex","age"],
"header":false,"ratio":[1,2],"distance":1,"root":["odometer"],"plans":{}}"#;

/// Records of a sex and an age.
const PERSONS: &[u8] = b"F,34\nM,51\nF,7\n";

/// A child of the records of women.
const OPEN_WOMEN: &[u8] =
    br#"{"node":0,"open":[["filter","sex","F"]],"distance":1,"budget":["filter",1]}"#;

/// A count of all records, and one of those of the first child.
const COUNT: &[u8] = br#"{"node":0,"ask":[["count"],["geometric",1,0,5]]}"#;

const COUNT_BELOW: &[u8] = br#"{"node":1,"ask":[["count"],["geometric",1,0,5]]}"#;

/// A count whose range is the one number 0.
const COUNT_NONE: &[u8] = br#"{"node":0,"ask":[["count"],["geometric",1,0,0]]}"#;

/// The session of a pipeline's text on the records of a text.
fn session_of(alloc: Global, pipeline: &[u8], text: &[u8]) -> Result<Session, Fail>
    requires { length text.now ≤ 2 ^ 30 }
    ensures { IfOk result (λ session. session.queries.answered ≡ 0) }
{
    let pipeline = read_pipeline(alloc, pipeline)?;
    let columns = pipeline.columns().len() as u32;
    let store = store_of(alloc, text, columns, pipeline.header())?;
    Ok(Session::over(alloc, pipeline, store)?)
}

/// An output of at most 1,000 bytes that never fails.
fn output(alloc: Global) -> Result<MemSink, Fail> {
    Ok(MemSink::new(alloc, 1000, Vec::new(alloc), 1000)?)
}

/// Answers a line.
fn answer<D: Draws>(
    alloc: Global,
    session: &mut Session,
    line: &[u8],
    draws: &mut D,
    out: &mut MemSink,
) -> Result<(), SessionFault>
    requires { session.old.queries.answered < 2 ^ 20 }
    ensures { session.new.queries.answered ≤ session.old.queries.answered + 1 }
{
    answer_by::<D, Brand>(alloc, session, line, draws, out, Blank::new(1))
}

/// Answers a line by a ledger of steps.
fn answer_by<D: Draws, L: Ledger>(
    alloc: Global,
    session: &mut Session,
    line: &[u8],
    draws: &mut D,
    out: &mut MemSink,
    blank: Blank,
) -> Result<(), SessionFault>
    requires name { blank.name ≡ L.name }
    requires parts { blank.parts ≡ L.parts }
    requires counts { 0 < L.parts }
    requires few { session.old.queries.answered < 2 ^ 20 }
    ensures { session.new.queries.answered ≤ session.old.queries.answered + 1 }
{
    session.answer(alloc, line, draws, out, &mut Steps::<L>::new(blank))
}

/// Answers three lines by draws that are all 0.
fn answer_three(
    alloc: Global,
    session: &mut Session,
    lines: [&[u8]; 3],
    out: &mut MemSink,
) -> Result<(), SessionFault>
    requires { session.old.queries.answered < 100 }
    ensures { session.new.queries.answered ≤ session.old.queries.answered + 3 }
{
    let [first, second, third] = lines;
    let mut draws = Zeros::new();
    answer(alloc, session, first, &mut draws, out)?;
    answer(alloc, session, second, &mut draws, out)?;
    answer(alloc, session, third, &mut draws, out)
}

/// What a session writes of three lines and the last one.
fn written_of(alloc: Global, session: &mut Session, lines: [&[u8]; 3]) -> Result<Vec<u8>, Fail>
    requires { session.old.queries.answered ≡ 0 }
{
    let mut out = output(alloc)?;
    answer_three(alloc, session, lines, &mut out)?;
    session.end(&mut out)?;
    Ok(Vec::from_slice(alloc, out.held())?)
}

/// What the session of a pipeline's text on the records of a text writes of three lines and the last one.
fn written_on(
    alloc: Global,
    pipeline: &[u8],
    text: &[u8],
    lines: [&[u8]; 3],
) -> Result<Vec<u8>, Fail>
    requires { length text.now ≤ 2 ^ 30 }
{
    let mut session = session_of(alloc, pipeline, text)?;
    written_of(alloc, &mut session, lines)
}

/// A pipeline of three columns with a plan.
const CENSUS: &[u8] =
    br#"{"version":1,"columns":["sex","age","district"],"header":true,"ratio":[9,10],
"distance":1,"root":["filter",20],
"plans":{"women":[["filter","sex","F"],["count"],["geometric",1,0,12]]}}"#;

/// Twelve records below a header.
const CENSUS_RECORDS: &[u8] = b"sex,age,district
F,34,North
M,51,South
F,7,North
F,68,East
M,29,North
M,12x,South
F,45,South
F,81,North
M,17,East
F,22,North
M,66,South
F,39,East
";

const WOMEN: &[u8] = br#"{"node":0,"ask":"women"}"#;

/// The ages in four bins.
const AGES: &[u8] = br#"{"node":0,"ask":[["select","age"],["cast"],["dropnone"],
["bins",[18,40,65]],["histogram"],["geometric",2,0,4]]}"#;

/// A choice of a district.
const DISTRICT: &[u8] = br#"{"node":0,"ask":[["select","district"],
["categories",["North","South","East"]],["histogram"],["choice",1,0,10]]}"#;

#[test]
fn a_number_a_vector_and_a_category_are_written(rt: HostRuntime) -> Result<(), Fail> {
    let alloc = rt.alloc();
    assert_eq!(rt;
        written_on(alloc, CENSUS, CENSUS_RECORDS, [WOMEN, AGES, DISTRICT])?.as_slice(),
        b"1 answer 7 cost 1 spent 1
2 answer [2,4,2,3] cost 2 spent 3
3 answer #0 cost 3 spent 6
end 3 spent 6
"
            .as_slice()
    );
    Ok(())
}

/// Two counts in one ask.
const TWO_PARTS: &[u8] = br#"{"node":0,"ask":["all",[["count"],["geometric",1,0,0]],
[["count"],["geometric",2,0,5]]]}"#;

#[test]
fn parts_are_written_in_parentheses(rt: HostRuntime) -> Result<(), Fail> {
    let alloc = rt.alloc();
    assert_eq!(rt;
        written_on(alloc, ODOMETER, b"", [TWO_PARTS, b"{", COUNT_NONE])?.as_slice(),
        b"1 answer (0;0) cost 3 spent 3
2 refused 1 malformed
3 answer 0 cost 1 spent 4
end 3 spent 4
"
            .as_slice()
    );
    Ok(())
}

/// That a source of too few draws ends a session, which writes nothing.
fn ends_without_draws<D: Draws>(
    rt: &(impl Abort + AllocGlobal),
    session: &mut Session,
    draws: &mut D,
    out: &mut MemSink,
)
    requires { session.old.queries.answered ≡ 0 }
{
    let alloc = rt.alloc();
    let first = answer(alloc, session, COUNT, draws, out);
    assert_eq!(rt; first, Err(SessionFault::DrawFault));
    let second = answer(alloc, session, OPEN_WOMEN, draws, out);
    assert_eq!(rt; second, Err(SessionFault::Ended));
    assert_eq!(rt; session.end(out), Err(EndFault::Ended));
    assert_eq!(rt; out.held(), b"".as_slice());
}

/// The same of a session on three records.
fn runs_out<D: Draws>(rt: &(impl Abort + AllocGlobal), draws: &mut D) -> Result<(), Fail> {
    let alloc = rt.alloc();
    let mut out = output(alloc)?;
    let mut session = session_of(alloc, ODOMETER, PERSONS)?;
    ends_without_draws(rt, &mut session, draws, &mut out);
    Ok(())
}

#[test]
fn a_draw_fault_ends_a_session_and_writes_nothing(rt: HostRuntime) -> Result<(), Fail> {
    runs_out(&rt, &mut NoDraws::new())?;
    let five = vec![in rt.alloc(); 0, 0, 0, 0, 0]?;
    runs_out(&rt, &mut Replay::new(five))
}

/// A pipeline whose first column names a person, with a plan of at most two records of each.
const PERSON: &[u8] = br#"{"version":1,"columns":["id","item"],"header":false,"user":"id",
"ratio":[1,2],"distance":1,"root":["odometer"],
"plans":{"p":[["truncate",2],["count"],["geometric",1,0,5]]}}"#;

/// The records of two persons.
const ITEMS: &[u8] = b"a,x\nb,y\na,w\na,x\nb,y\n";

const TWO_OF_EACH: &[u8] = br#"{"node":0,"ask":"p"}"#;

const TRUNCATED_TO_NONE: &[u8] =
    br#"{"node":0,"ask":[["truncate",0],["count"],["geometric",1,0,5]]}"#;

const TRUNCATED_TO_ONE: &[u8] = br#"{"node":0,"ask":[["filter","item","y"],["truncate",1],
["count"],["geometric",1,0,5]]}"#;

#[test]
fn queries_where_a_person_is_the_unit(rt: HostRuntime) -> Result<(), Fail> {
    let alloc = rt.alloc();
    assert_eq!(rt;
        written_on(
            alloc,
            PERSON,
            ITEMS,
            [TWO_OF_EACH, TRUNCATED_TO_NONE, TRUNCATED_TO_ONE]
        )?
        .as_slice(),
        b"1 answer 4 cost 4 spent 4
2 refused 4 construction 3
3 answer 1 cost 2 spent 6
end 3 spent 6
"
            .as_slice()
    );
    Ok(())
}

#[test]
fn a_child_stays_open_beside_later_queries_where_siblings_do(rt: HostRuntime) -> Result<(), Fail> {
    let alloc = rt.alloc();
    assert_eq!(rt;
        written_on(
            alloc,
            OPEN_SIBLINGS,
            PERSONS,
            [OPEN_WOMEN, COUNT_NONE, COUNT_BELOW]
        )?
        .as_slice(),
        b"1 node cost 1 spent 1
2 answer 0 cost 1 spent 2
3 answer 2 cost 1 spent 2
end 3 spent 2
"
            .as_slice()
    );
    Ok(())
}

#[test]
fn a_child_is_frozen_by_a_later_query_where_siblings_are(rt: HostRuntime) -> Result<(), Fail> {
    let alloc = rt.alloc();
    assert_eq!(rt;
        written_on(
            alloc,
            FROZEN_SIBLINGS,
            PERSONS,
            [OPEN_WOMEN, COUNT_NONE, COUNT_BELOW]
        )?
        .as_slice(),
        b"1 node cost 1 spent 1
2 answer 0 cost 1 spent 2
3 refused 3 frozen 0 2
end 3 spent 2
"
            .as_slice()
    );
    Ok(())
}

/// The session of a pipeline's text on the value of the records of a text.
fn session_of_value(
    rt: &impl Abort,
    alloc: Global,
    pipeline: &[u8],
    text: &[u8],
) -> Result<Session, Fail>
    requires { length text.now ≤ 2 ^ 30 }
    ensures { IfOk result (λ session. session.queries.answered ≡ 0) }
{
    let pipeline = read_pipeline(alloc, pipeline)?;
    let columns = pipeline.columns().len() as u32;
    let records = records_of(alloc, text, columns, pipeline.header())?;
    assert!(rt; pipeline.place().domain().has(&records));
    Ok(Session::new(alloc, pipeline, records)?)
}

#[test]
fn a_session_on_a_value_answers_as_one_on_a_store(rt: HostRuntime) -> Result<(), Fail> {
    let alloc = rt.alloc();
    let lines = [WOMEN, AGES, DISTRICT];
    let mut session = session_of_value(&rt, alloc, CENSUS, CENSUS_RECORDS)?;
    let of_value = written_of(alloc, &mut session, lines)?;
    let of_store = written_on(alloc, CENSUS, CENSUS_RECORDS, lines)?;
    assert_eq!(rt; of_value.as_slice(), of_store.as_slice());
    Ok(())
}

/// A child of the records of persons, at most two of each, and one of what filtering leaves of them.
const OPEN_TRUNCATED: &[u8] =
    br#"{"node":0,"open":[["truncate",2]],"distance":4,"budget":["filter",9]}"#;

const OPEN_BELOW: &[u8] =
    br#"{"node":1,"open":[["filter","item","y"]],"distance":4,"budget":["filter",1]}"#;

/// The numbers of the records that are selected of a node, if any are.
fn numbers_of(alloc: Global, session: &Session, node: u64) -> Result<Option<Vec<u32>>, Fail> {
    let Some(selection) = session.selection(node) else {
        return Ok(None);
    };
    let mut numbers = Vec::new(alloc);
    for k in 0..selection.len() {
        numbers.push(selection.at(k))?;
    }
    Ok(Some(numbers))
}

/// That these numbers are selected of a node.
fn selects(
    rt: &(impl Abort + AllocGlobal),
    session: &Session,
    node: u64,
    wanted: &[u32],
) -> Result<(), Fail> {
    let Some(numbers) = numbers_of(rt.alloc(), session, node)? else {
        panic!(rt; "a selection");
    };
    assert_eq!(rt; numbers.as_slice(), wanted);
    Ok(())
}

/// Opens a child of the root, and one below it.
fn open_two(alloc: Global, session: &mut Session) -> Result<(), Fail>
    requires { session.old.queries.answered ≡ 0 }
{
    let mut out = output(alloc)?;
    let mut draws = NoDraws::new();
    answer(alloc, session, OPEN_TRUNCATED, &mut draws, &mut out)?;
    answer(alloc, session, OPEN_BELOW, &mut draws, &mut out)?;
    Ok(())
}

/// That the root and both children select what their lines leave, and that there is no further node.
fn select_what_is_left(rt: &(impl Abort + AllocGlobal), session: &Session) -> Result<(), Fail> {
    selects(rt, session, 0, &[0, 1, 2, 3, 4])?;
    selects(rt, session, 1, &[0, 1, 2, 4])?;
    selects(rt, session, 2, &[1, 4])?;
    assert!(rt; session.selection(3).is_none());
    Ok(())
}

#[test]
fn nodes_select_what_their_lines_leave(rt: HostRuntime) -> Result<(), Fail> {
    let alloc = rt.alloc();
    let mut session = session_of(alloc, PERSON, ITEMS)?;
    open_two(alloc, &mut session)?;
    select_what_is_left(&rt, &session)
}

/// That an output which fails at its second call ends a session, which tells no selection then.
fn ends_at_the_second_line(
    rt: &(impl Abort + AllocGlobal),
    session: &mut Session,
    out: &mut MemSink,
)
    requires { session.old.queries.answered ≡ 0 }
{
    let alloc = rt.alloc();
    let mut draws = Zeros::new();
    let first = answer(alloc, session, COUNT, &mut draws, out);
    assert_eq!(rt; first, Ok(()));
    let second = answer(alloc, session, COUNT, &mut draws, out);
    assert_eq!(rt; second, Err(SessionFault::WriteFault));
    let third = answer(alloc, session, COUNT, &mut draws, out);
    assert_eq!(rt; third, Err(SessionFault::Ended));
    assert_eq!(rt; session.end(out), Err(EndFault::Ended));
    assert!(rt; session.selection(0).is_none());
    assert_eq!(rt; out.held(), b"1 answer 3 cost 1 spent 1\n".as_slice());
}

#[test]
fn a_write_fault_ends_a_session(rt: HostRuntime) -> Result<(), Fail> {
    let alloc = rt.alloc();
    let mut out = MemSink::new(alloc, 1000, vec![in alloc; 2]?, 1000)?;
    let mut session = session_of(alloc, ODOMETER, PERSONS)?;
    ends_at_the_second_line(&rt, &mut session, &mut out);
    Ok(())
}
