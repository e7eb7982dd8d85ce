ghost use Rattle.std.specs.Prelude.{◌≡◌, ◌≢◌, ◌≤◌, ℕ, map, string_bytes, [], Option, Some, Err, IfOk, IfErr, false};
ghost use Rattle.dp_count.specs.Faults.{Rose};
ghost use Rattle.dp_io.specs.Shelf.{Files};
ghost use Rattle.dp_session.specs.Sessions.{IsSessionAt};
ghost use Rattle.dp_runner.specs.Answering.{answered};
ghost use Rattle.dp_runner.specs.Causes.{Runs};
ghost use Rattle.dp_runner.specs.Outcome.{Source, source_at};
ghost use Rattle.dp_runner.specs.Sample.{sample_form, record_count_of, sample_line, sample_text, sample_pipeline, sampled, sample_queries, records_line, sample_outcome};
ghost use Rattle.dp_runner.specs.Sessions.{opened_by};
ghost use Rattle.dp_runner.specs.Stops.{row_of, is_silent};
ghost use Rattle.dp_runner.specs.Turns.{RunsTo};

use crate::answerer::Answerer;
use crate::sessions::write_lines;
use crate::stop::Stop;
use dp_count::{NoMemory, short_decimal};
use dp_draws::{Draws, Zeros};
use dp_io::Sink;
use dp_pipeline::{Pipeline, PipelineFault, read_pipeline};
use dp_session::Session;
use dp_store::store_of;
use std::alloc::Global;

/// The greatest number of digits of the number of records.
const MOST_DIGITS: usize = 7;

/// The greatest number of records.
const MOST_RECORDS: u64 = 1_000_000;

/// The text of the pipeline.
const PIPELINE: &str = concat!(
    r#"{"version":1,"columns":["sex","age","district"],"header":false,"ratio":[9,10],"#,
    r#""distance":1,"root":["odometer"],"plans":{}}"#
);

/// How many records have the sex `F`, to the hundred.
const WOMEN: &str = concat!(
    r#"{"node":0,"ask":[["filter","sex","F"],["count"],["quantise",100],"#,
    r#"["geometric",1,0,10000]]}"#
);

/// The sum of the ages, to the thousand.
const AGES: &str = concat!(
    r#"{"node":0,"ask":[["select","age"],["cast"],["impute",0],["clamp",0,100],["sum"],"#,
    r#"["quantise",1000],["geometric",1,0,65535]]}"#
);

/// A district by how near its number of records is to 200,000.
const DISTRICTS: &str = concat!(
    r#"{"node":0,"ask":[["select","district"],["categories",["D0","D1","D2","D3","D4"]],"#,
    r#"["histogram"],["choice",1,199900,200100]]}"#
);

/// What the words after `sample` say, if they are of its form: a number of records from 1 to 1,000,000.
pub(crate) fn sample_form(words: &[String]) -> Option<u32>
    ensures { result ≡ sample_form (map string_bytes words.now) }
{
    let [number] = words else {
        return None;
    };
    record_count_of(number.as_str())
}

/// The number of records that a word spells.
fn record_count_of(word: &str) -> Option<u32>
    ensures { result ≡ record_count_of word.now }
{
    let number = short_decimal(word.as_bytes(), MOST_DIGITS)?;
    if number < 1 || number > MOST_RECORDS {
        return None;
    }
    Some(number as u32)
}

/// Makes that many records, writes their number, and answers the three queries by draws of 0. No file is opened, and no
/// draw is taken from the source that is handed in to the run.
pub(crate) fn run_sample<K: Sink>(alloc: Global, records: u32, out: &mut K) -> Result<(), Stop>
    requires { records ≤ 1000000 }
    ensures runs { (source : Source) (told : Option Files) (faults : ℕ) → Runs result told
        (λ files. sample_outcome records files source) faults faults (K.held out.old) (K.held out.new) source.state }
    ensures speaks { IfErr result (λ reason. is_silent (row_of reason).status ≡ false) }
    ensures no_read { result ≢ Err Stop.ReadFault }
    ensures write_fault { result ≡ Err Stop.WriteFault → Rose (K.faults out.old) (K.faults out.new) }
    ensures out_later { K.faults out.old ≤ K.faults out.new }
    ensures out_kept { result ≢ Err Stop.WriteFault → K.faults out.new ≡ K.faults out.old }
{
    let mut session = sample_session(alloc, records)?;
    let line = records_line(alloc, records)?;
    write_lines(out, line.as_bytes())?;
    answer_queries(alloc, &mut session, &mut Zeros::new(), out)
}

/// The line of the number of records.
fn records_line(alloc: Global, records: u32) -> Result<String, NoMemory>
    ensures { IfOk result (λ line. string_bytes line ≡ records_line records) }
{
    Ok(format!(in alloc; "records {records}\n")?)
}

/// Answers the three queries by a draw source, from what has answered none, and writes the last line.
fn answer_queries<A: Answerer, D: Draws, K: Sink>(
    alloc: Global,
    answerer: &mut A,
    draws: &mut D,
    out: &mut K,
) -> Result<(), Stop>
    requires { A.stands answerer.old [] }
    ensures runs { RunsTo result
        (Some (answered (source_at D.step (D.state draws.old)) (A.answering answerer.old) sample_queries)) 0 0
        (K.held out.old) (K.held out.new) (D.state draws.new) }
    ensures speaks { IfErr result (λ reason. is_silent (row_of reason).status ≡ false) }
    ensures no_read { result ≢ Err Stop.ReadFault }
    ensures write_fault { result ≡ Err Stop.WriteFault → Rose (K.faults out.old) (K.faults out.new) }
    ensures out_later { K.faults out.old ≤ K.faults out.new }
    ensures out_kept { result ≢ Err Stop.WriteFault → K.faults out.new ≡ K.faults out.old }
{
    answerer.answer_line(alloc, WOMEN.as_bytes(), draws, out)?;
    answerer.answer_line(alloc, AGES.as_bytes(), draws, out)?;
    answerer.answer_line(alloc, DISTRICTS.as_bytes(), draws, out)?;
    answerer.write_last(out)
}

/// The session of the pipeline on the records, at no queries.
fn sample_session(alloc: Global, records: u32) -> Result<Session, NoMemory>
    requires { records ≤ 1000000 }
    ensures opened { IfOk result (λ session. opened_by session ≡ sampled records) }
    ensures stands { IfOk result (λ session.
        IsSessionAt session session.queries.pipeline session.store.records []) }
{
    let pipeline = sample_pipeline(alloc)?;
    let text = sample_text(alloc, records)?;
    let columns = pipeline.columns().len() as u32;
    let store = store_of(alloc, text.as_slice(), columns, pipeline.header())?;
    Session::over(alloc, pipeline, store)
}

/// The pipeline.
fn sample_pipeline(alloc: Global) -> Result<Pipeline, NoMemory>
    ensures { IfOk result (λ pipeline. pipeline ≡ sample_pipeline) }
{
    match read_pipeline(alloc, PIPELINE.as_bytes()) {
        Ok(pipeline) => Ok(pipeline),
        Err(PipelineFault::NoMemory) => Err(NoMemory),
        Err(PipelineFault::Refused(_)) => unreachable!(),
    }
}

/// The data text of so many records.
fn sample_text(alloc: Global, records: u32) -> Result<Vec<u8>, NoMemory>
    requires { records ≤ 1000000 }
    ensures { IfOk result (λ text. text.items ≡ sample_text records) }
{
    let mut text = Vec::new(alloc);
    for i in 0..records {
        let line = sample_line(alloc, i)?;
        text.extend_from_slice(line.as_bytes())?;
    }
    Ok(text)
}

/// The line of a record, by its number from 0.
fn sample_line(alloc: Global, i: u32) -> Result<String, NoMemory>
    requires { i ≤ 1000000 }
    ensures { IfOk result (λ line. string_bytes line ≡ sample_line i) }
{
    let sex = if i % 2 == 0 { "F" } else { "M" };
    let age = (37 * i + 11) % 100;
    let district = 7 * i % 5;
    Ok(format!(in alloc; "{sex},{age},D{district}\n")?)
}
