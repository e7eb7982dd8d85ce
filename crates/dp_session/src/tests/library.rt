ghost use Rattle.std.specs.Prelude.{◌≡◌, ◌↔◌, ◌∷◌, [], ◌+◌, ◌*◌, ◌≤◌, ◌<◌, ◌^◌};
ghost use Rattle.std.specs.Prelude.{ℕ, List, pos, Some, None, Ok, Err, length, IfOk, IfSome, OnOk, IsSome};
ghost use Rattle.dp_domain.specs.Domains.{Has};
ghost use Rattle.dp_domain.specs.declared.domains.Domain.TheVariants as domain;
ghost use Rattle.dp_domain.specs.declared.metrics.Metric.TheVariants as metrics;
ghost use Rattle.dp_law.specs.Making.{MakesOr};
ghost use Rattle.dp_law.specs.Releasing.{Released};
ghost use Rattle.dp_chain.specs.Releases.{release_on};
ghost use Rattle.dp_pipeline.specs.declared.content.Content.{Content};
ghost use Rattle.dp_pipeline.specs.Accepted.{accepted, ratio_of, root_domain, root_metric};
ghost use Rattle.dp_records.specs.Records.{records};
ghost use Rattle.dp_session.specs.Accounts.{WritesEnd};
ghost use Rattle.dp_session.specs.Privacy.{IsPrivatePipeline};
ghost use Rattle.dp_session.specs.QueryLines.{end_line};
ghost use Rattle.dp_session.specs.Sessions.{IsSessionAt};
ghost use Rattle.dp_session.specs.Verdicts.{root_spent, verdict};
ghost use Rattle.dp_session.specs.declared.refusal.Refusal.{Refusal};

use crate::{EndFault, Session, SessionFault};
use dp_aggregate::{Quantise, Sum};
use dp_chain::{Chain, Measured, Release};
use dp_domain::{Domain, Ints, Metric, Value};
use dp_draws::{Draws, Zeros};
use dp_geometric::Geometric;
use dp_io::MemSink;
use dp_law::{Answer, MakeFault, Measurement, Piece, ReleaseFault, Transformation};
use dp_num::{Ratio, Steps};
use dp_pipeline::{Pipeline, Spec, read_pipeline};
use dp_rowwise::Clamp;
use dp_store::store_of;
use std::alloc::Global;
use std::marker::Brand;
use std::sync::ledger::{Blank, Ledger};
use std::test::Fail;

/// Ages from 0 to 120, each brought into 0 to 100.
fn capped_ages() -> Clamp
    ensures range { let m = ⟦<Clamp as Transformation>⟧.mapping result in
        m.output_domain ≡ domain.Ints (pos 0) (pos 100) None }
    ensures metric { let m = ⟦<Clamp as Transformation>⟧.mapping result in m.output_metric ≡ metrics.Symmetric }
    ensures stable { let m = ⟦<Clamp as Transformation>⟧.mapping result in m.stability_map 1 ≡ Some 1 }
{
    let ages = Domain::Ints {
        lo: 0,
        hi: 120,
        size: None,
    };
    let Ok(clamp) = Clamp::new(ages, Metric::Symmetric, 0, 100) else {
        unreachable!()
    };
    clamp
}

/// Their sum. One age more or less changes it by at most 100.
fn sum_of_ages() -> Chain<Clamp, Sum>
    ensures range { let m = ⟦<Chain<Clamp, Sum> as Transformation>⟧.mapping result in
        m.output_domain ≡ domain.Int (pos 0) (pos (2 ^ 30 * 100)) }
    ensures metric { let m = ⟦<Chain<Clamp, Sum> as Transformation>⟧.mapping result in
        m.output_metric ≡ metrics.Absolute }
    ensures stable { let m = ⟦<Chain<Clamp, Sum> as Transformation>⟧.mapping result in m.stability_map 1 ≡ Some 100 }
{
    let clamp = capped_ages();
    let Ok(sum) = Sum::new(clamp.out_domain(), clamp.out_metric()) else {
        unreachable!()
    };
    let Ok(chain) = Chain::new(clamp, sum) else {
        unreachable!()
    };
    chain
}

/// The same in hundreds, rounded down. One age more or less changes it by at most 1.
type Hundreds = Chain<Chain<Clamp, Sum>, Quantise>;

fn hundreds_of_ages() -> Hundreds
    ensures range { let m = ⟦<Hundreds as Transformation>⟧.mapping result in
        m.output_domain ≡ domain.Int (pos 0) (pos (2 ^ 30)) }
    ensures metric { let m = ⟦<Hundreds as Transformation>⟧.mapping result in m.output_metric ≡ metrics.Absolute }
    ensures stable { let m = ⟦<Hundreds as Transformation>⟧.mapping result in m.stability_map 1 ≡ Some 1 }
{
    let sum = sum_of_ages();
    let Ok(quantise) = Quantise::new(sum.out_domain(), sum.out_metric(), 100) else {
        unreachable!()
    };
    let Ok(chain) = Chain::new(sum, quantise) else {
        unreachable!()
    };
    chain
}

/// The hundreds with noise, as a number from 0 to 200. An answer costs 5 units of ln(10/9) between lists that differ
/// by one age.
type NoisyHundreds = Measured<Hundreds, Geometric>;

#[tactic(auto, unfolding(dp_num::specs::Limits::powers))]
fn noisy_hundreds() -> NoisyHundreds
    ensures ratio { let m = ⟦<NoisyHundreds as Measurement>⟧.mechanism result in m.ratio ≡ record { p = 9; q = 10 } }
    ensures loss { let m = ⟦<NoisyHundreds as Measurement>⟧.mechanism result in m.privacy_map 1 ≡ Some 5 }
{
    let Ok(ratio) = Ratio::new(9, 10) else {
        unreachable!()
    };
    let hundreds = hundreds_of_ages();
    let Ok(noise) = Geometric::new(
        hundreds.out_domain(),
        hundreds.out_metric(),
        ratio,
        5,
        0,
        200,
    ) else {
        unreachable!()
    };
    let Ok(noisy) = Measured::new(hundreds, noise) else {
        unreachable!()
    };
    noisy
}

/// What an answer costs between lists that differ by one age, in units.
fn units_of_one_age() -> u64
    ensures { result ≡ 5 }
{
    let Ok(units) = noisy_hundreds().loss(1) else {
        unreachable!()
    };
    units
}

/// A release of any measurement, where its input domain has the value: its function's answer on the draws that the
/// source gives for its shape.
fn answer_on<M: Measurement, D: Draws>(
    alloc: Global,
    measurement: &M,
    value: &Value,
    draws: &mut D,
) -> Option<Result<Answer, ReleaseFault>>
    ensures taken { let m = M.mechanism measurement.now in IsSome result ↔ Has m.input_domain value.now }
    ensures released { let m = M.mechanism measurement.now in
        IfSome result (λ released. Released D.step m.shape (m.function value.now)
        (D.state draws.old) released (D.state draws.new)) }
{
    let domain = measurement.in_domain();
    if !domain.has(value) {
        return None;
    }
    Some(measurement.release(alloc, value, draws))
}

/// A pipeline of people: a plan of two counts, and ten units for all queries.
const TOWN: &[u8] = br#"{"version":1,"columns":["sex","age","district"],"header":true,
"ratio":[1,2],"distance":1,"root":["filter",10],
"plans":{"both":["all",[["count"],["geometric",2,0,20]],
[["filter","sex","F"],["count"],["geometric",1,0,20]]]}}"#;

/// The release of a plan on a pipeline's records: all its parts as one measurement.
fn release_of_plan(alloc: Global, pipeline: &Pipeline, plan: &Spec) -> Result<Release, MakeFault>
    ensures { MakesOr ⟦<Release as Measurement>⟧.mechanism result
        (release_on (ratio_of pipeline.now) plan.now.parts (root_domain pipeline.now) (root_metric pipeline.now)) }
{
    let at = pipeline.place();
    Release::make(
        alloc,
        at.domain(),
        at.metric(),
        pipeline.ratio(),
        plan.parts(),
    )
}

/// A session of a pipeline's text on the records of a text of at most 2^30 bytes, at no queries.
fn session_over(alloc: Global, pipeline: &[u8], text: &[u8]) -> Result<Session, Fail>
    requires { length text.now ≤ 2 ^ 30 }
    ensures stands { IfOk result (λ session. (content : Content) → accepted pipeline.now ≡ Ok content
        → IsSessionAt session content (records (length content.columns) content.header text.now) []) }
    ensures none { IfOk result (λ session. session.queries.answered ≡ 0) }
{
    let pipeline = read_pipeline(alloc, pipeline)?;
    let columns = pipeline.columns().len() as u32;
    let store = store_of(alloc, text, columns, pipeline.header())?;
    Ok(Session::over(alloc, pipeline, store)?)
}

/// Answers a line of queries. After `Ok` the session stands at one line more, and the pipeline is private.
fn ask<D: Draws>(
    alloc: Global,
    session: &mut Session,
    line: &[u8],
    draws: &mut D,
    out: &mut MemSink,
) -> Result<(), SessionFault>
    requires { session.old.queries.answered < 2 ^ 20 }
    ensures stands { (pipeline : Content) (rows : List (List (List ℕ))) (past : List (List ℕ))
        → IsSessionAt session.old pipeline rows past
        → OnOk result (IsSessionAt session.new pipeline rows (line.now ∷ past)) }
    ensures counted { session.new.queries.answered ≤ session.old.queries.answered + 1 }
    ensures private { (bytes : List ℕ) → accepted bytes ≡ Ok session.old.queries.pipeline
        → IsPrivatePipeline session.old.queries.pipeline }
{
    ask_by::<D, Brand>(alloc, session, line, draws, out, Blank::new(1))
}

/// The same by a ledger of steps. `Session::answer` takes at most 17 of them, however many lines came before.
fn ask_by<D: Draws, L: Ledger>(
    alloc: Global,
    session: &mut Session,
    line: &[u8],
    draws: &mut D,
    out: &mut MemSink,
    blank: Blank,
) -> Result<(), SessionFault>
    requires name { blank.name ≡ L.name }
    requires parts { blank.parts ≡ L.parts }
    requires counts { 0 < L.parts }
    requires few { session.old.queries.answered < 2 ^ 20 }
    ensures stands { (pipeline : Content) (rows : List (List (List ℕ))) (past : List (List ℕ))
        → IsSessionAt session.old pipeline rows past
        → OnOk result (IsSessionAt session.new pipeline rows (line.now ∷ past)) }
    ensures counted { session.new.queries.answered ≤ session.old.queries.answered + 1 }
    ensures private { (bytes : List ℕ) → accepted bytes ≡ Ok session.old.queries.pipeline
        → IsPrivatePipeline session.old.queries.pipeline }
{
    session.answer(alloc, line, draws, out, &mut Steps::<L>::new(blank))
}

/// Writes the last line, which tells how many lines came and what the root has spent.
fn close(session: &mut Session, out: &mut MemSink) -> Result<(), EndFault>
    ensures { (pipeline : Content) (rows : List (List (List ℕ))) (past : List (List ℕ))
        → IsSessionAt session.old pipeline rows past
        → WritesEnd result (end_line (length past) (root_spent pipeline past))
        (Some out.old.bytes) (Some out.new.bytes) }
{
    session.end(out)
}

/// A refused line costs nothing.
fn refusals_are_free()
    ensures { (pipeline : Content) (past : List (List ℕ)) (line : List ℕ) (refused : Refusal)
        → verdict pipeline past line ≡ Err refused → root_spent pipeline (line ∷ past) ≡ root_spent pipeline past }
{}

/// Four people below a header.
const PEOPLE: &[u8] = b"sex,age,district
F,34,North
M,51,South
F,7,North
F,68,East
";

/// A child of the women, with four units of its own.
const OPEN_WOMEN: &[u8] =
    br#"{"node":0,"open":[["filter","sex","F"]],"distance":1,"budget":["filter",4]}"#;

/// Counts of all people for one unit, and of the women for three.
const COUNT: &[u8] = br#"{"node":0,"ask":[["count"],["geometric",1,0,20]]}"#;

const COUNT_WOMEN: &[u8] = br#"{"node":2,"ask":[["count"],["geometric",3,0,20]]}"#;

/// Asks for the plan, opens the child, asks there twice, asks at the root and then below it.
fn six_lines<D: Draws>(
    alloc: Global,
    session: &mut Session,
    draws: &mut D,
    out: &mut MemSink,
) -> Result<(), SessionFault>
    requires { session.old.queries.answered ≡ 0 }
    ensures { session.new.queries.answered ≤ 6 }
{
    ask(alloc, session, br#"{"node":0,"ask":"both"}"#, draws, out)?;
    ask(alloc, session, OPEN_WOMEN, draws, out)?;
    ask(alloc, session, COUNT_WOMEN, draws, out)?;
    ask(alloc, session, COUNT_WOMEN, draws, out)?;
    ask(alloc, session, COUNT, draws, out)?;
    ask(alloc, session, COUNT_WOMEN, draws, out)
}

/// A list of ages.
fn ages(alloc: Global, list: &[i64]) -> Result<Value, Fail> {
    Ok(Value::Ints(Ints::from_vec(Vec::from_slice(alloc, list)?)))
}

#[test]
fn one_age_counts_for_at_most_one_hundred(rt: HostRuntime) {
    assert_eq!(rt; capped_ages().number(&104), 100);
    assert_eq!(rt; sum_of_ages().map(1), Ok(100));
    assert_eq!(rt; hundreds_of_ages().map(1), Ok(1));
    assert_eq!(rt; noisy_hundreds().draws(), 201);
    assert_eq!(rt; units_of_one_age(), 5);
}

#[test]
fn ages_of_the_domain_have_an_answer(rt: HostRuntime) -> Result<(), Fail> {
    let alloc = rt.alloc();
    let noisy = noisy_hundreds();
    let four = ages(alloc, &[34, 51, 7, 104])?;
    let answer = answer_on(alloc, &noisy, &four, &mut Zeros::new()).expect(&rt, "ages")?;
    assert!(rt; answer.len() == 1 && matches!(answer.at(0), Piece::Int(1)));
    let too_old = ages(alloc, &[121])?;
    assert!(rt; answer_on(alloc, &noisy, &too_old, &mut Zeros::new()).is_none());
    Ok(())
}

#[test]
fn the_parts_of_a_plan_are_one_release(rt: HostRuntime) -> Result<(), Fail> {
    let alloc = rt.alloc();
    let pipeline = read_pipeline(alloc, TOWN)?;
    let plan = pipeline.plan(b"both").expect(&rt, "a plan");
    let release = release_of_plan(alloc, &pipeline, plan)?;
    assert_eq!(rt; release.cost(pipeline.distance()), Ok(3));
    Ok(())
}

/// What a session writes of the six lines and the last one.
fn told_of(alloc: Global, session: &mut Session) -> Result<Vec<u8>, Fail>
    requires { session.old.queries.answered ≡ 0 }
{
    let mut out = MemSink::new(alloc, 1000, Vec::new(alloc), 1000)?;
    six_lines(alloc, session, &mut Zeros::new(), &mut out)?;
    close(session, &mut out)?;
    refusals_are_free();
    Ok(Vec::from_slice(alloc, out.held())?)
}

#[test]
fn a_session_answers_refuses_and_tells_what_was_spent(rt: HostRuntime) -> Result<(), Fail> {
    let alloc = rt.alloc();
    let mut session = session_over(alloc, TOWN, PEOPLE)?;
    assert_eq!(rt;
        told_of(alloc, &mut session)?.as_slice(),
        b"1 answer (4;3) cost 3 spent 3
2 node cost 4 spent 7
3 answer 3 cost 3 spent 7
4 refused 7 budget 3 1
5 answer 4 cost 1 spent 8
6 refused 3 frozen 0 5
end 6 spent 8
"
            .as_slice()
    );
    Ok(())
}
