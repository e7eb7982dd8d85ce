ghost use Rattle.std.specs.Prelude.{◌≡◌, ◌≢◌, ◌+◌, ◌≤◌, ◌^◌, map, string_bytes, pos, IfOk, OnOk, Ok, Err, IfSome, option_map};
ghost use Rattle.std.specs.Result.{result_ok};
ghost use Rattle.dp_count.specs.Faults.{Rose};
ghost use Rattle.dp_domain.specs.Ranges.{IsNarrowRange};
ghost use Rattle.dp_runner.specs.Causes.{Answers, Kept, Runs};
ghost use Rattle.dp_runner.specs.Outcome.{Source, written_last};
ghost use Rattle.dp_geometric.specs.Parts.{cell_of};
ghost use Rattle.dp_runner.specs.Count.{count_form, count_form_of, range_of, counted, count_cell, cell_draws, cell_answer, count_answer, count_written};

use crate::stop::Stop;
use crate::texts::{MOST_DATA, read_file, read_replay};
use dp_count::{Failed, signed_decimal};
use dp_domain::is_narrow;
use dp_draws::{Draws, Replay};
use dp_geometric::Cell;
use dp_io::{Shelf, Sink, write_all};
use dp_records::{MOST_RECORDS, count_records};
use std::alloc::Global;
use std::marker::Model;

/// The greatest number of digits of a number word.
const NUMBER_DIGITS: usize = 18;

/// The words of `count DATA DRAWS LO HI`.
#[derive(Debug, Drop)]
pub(crate) struct CountForm<'a> {
    data_name: &'a str,
    draws_name: &'a str,
    lo: i64,
    hi: i64,
}

impl<'a> Model for CountForm<'a> {
    ghost use Rattle.dp_runner.specs.Count.{CountForm};
    ghost use Rattle.dp_domain.specs.Ranges.{IsNarrowRange};

    ghost Value = { CountForm };

    ghost view = { λ form. record {
      data_name = form.data_name.now;
      draws_name = form.draws_name.now;
      lo = form.lo;
      hi = form.hi;
    } };

    ghost invariant = { λ form. IsNarrowRange form.lo form.hi };
}

impl CountForm<'_> {
    /// The name of the file of records.
    fn data_name(&self) -> &str
        ensures { result.now ≡ self.now.data_name }
    {
        self.data_name
    }

    /// The name of the file of draws.
    fn draws_name(&self) -> &str
        ensures { result.now ≡ self.now.draws_name }
    {
        self.draws_name
    }

    /// The cell of the range, with the ratio 1 / 2.
    fn cell(&self) -> Cell
        ensures { cell_of result ≡ count_cell self.now }
    {
        Cell::new(self.lo, self.hi, 1, 2)
    }
}

/// What the words after `count` say, if they are of its form.
pub(crate) fn count_form(words: &[String]) -> Option<CountForm<'_>>
    ensures { result ≡ count_form (map string_bytes words.now) }
{
    let [data_name, draws_name, lo, hi] = words else {
        return None;
    };
    count_form_of(
        data_name.as_str(),
        draws_name.as_str(),
        lo.as_str(),
        hi.as_str(),
    )
}

/// What four words say, if they are of that form.
fn count_form_of<'a>(
    data_name: &'a str,
    draws_name: &'a str,
    lo: &str,
    hi: &str,
) -> Option<CountForm<'a>>
    ensures { result ≡ count_form_of data_name.now draws_name.now lo.now hi.now }
{
    if data_name.is_empty() || draws_name.is_empty() {
        return None;
    }
    let (lo, hi) = range(lo, hi)?;
    Some(CountForm {
        data_name,
        draws_name,
        lo,
        hi,
    })
}

/// The range that two number words spell, if it is one.
fn range(lo: &str, hi: &str) -> Option<(i64, i64)>
    ensures range { result ≡ range_of lo.now hi.now }
    ensures within { IfSome result (λ range. IsNarrowRange range.0 range.1) }
{
    let lo = signed_decimal(lo.as_bytes(), NUMBER_DIGITS)?;
    let hi = signed_decimal(hi.as_bytes(), NUMBER_DIGITS)?;
    is_narrow(&lo, &hi).then_some((lo, hi))
}

/// Answers, and writes the line of the answer. No draw is taken from the source that is handed in to the run.
pub(crate) fn run_count<S: Shelf, K: Sink>(
    alloc: Global,
    form: &CountForm<'_>,
    shelf: &mut S,
    out: &mut K,
) -> Result<(), Stop>
    ensures runs { (source : Source) → Runs result (S.files shelf.old)
        (λ files. written_last source (count_written form.now files)) (S.faults shelf.old) (S.faults shelf.new)
        (K.held out.old) (K.held out.new) source.state }
    ensures no_usage { result ≢ Err Stop.Usage }
    ensures nothing { result ≢ Ok tt → result ≢ Err Stop.WriteFault → K.held out.new ≡ K.held out.old }
    ensures later { S.faults shelf.old ≤ S.faults shelf.new }
    ensures kept { Kept result (S.faults shelf.old) (S.faults shelf.new) }
    ensures opens { S.slots shelf.new ≤ S.slots shelf.old + 2 }
    ensures opened { OnOk result (S.slots shelf.new ≡ S.slots shelf.old + 2) }
    ensures write_fault { result ≡ Err Stop.WriteFault → Rose (K.faults out.old) (K.faults out.new) }
    ensures out_later { K.faults out.old ≤ K.faults out.new }
    ensures out_kept { result ≢ Err Stop.WriteFault → K.faults out.new ≡ K.faults out.old }
{
    let line = answer_line(alloc, form, shelf)?;
    match write_all(out, line.as_bytes()) {
        Ok(()) => Ok(()),
        Err(_) => Err(Stop::WriteFault),
    }
}

/// The line of the answer, with its line feed.
fn answer_line<S: Shelf>(alloc: Global, form: &CountForm<'_>, shelf: &mut S) -> Result<String, Stop>
    ensures answers { Answers result string_bytes (S.files shelf.old) (count_written form.now)
        (S.faults shelf.old) (S.faults shelf.new) }
    ensures later { S.faults shelf.old ≤ S.faults shelf.new }
    ensures kept { Kept result (S.faults shelf.old) (S.faults shelf.new) }
    ensures opens { S.slots shelf.new ≤ S.slots shelf.old + 2 }
    ensures opened { OnOk result (S.slots shelf.new ≡ S.slots shelf.old + 2) }
{
    let answer = count_answer(alloc, form, shelf)?;
    match format!(in alloc; "answer {answer}\n") {
        Ok(line) => Ok(line),
        Err(_) => Err(Stop::NoMemory),
    }
}

/// The geometric release of the number of records.
fn count_answer<S: Shelf>(alloc: Global, form: &CountForm<'_>, shelf: &mut S) -> Result<i64, Stop>
    ensures answers { Answers result (λ answer. answer) (S.files shelf.old) (count_answer form.now)
        (S.faults shelf.old) (S.faults shelf.new) }
    ensures later { S.faults shelf.old ≤ S.faults shelf.new }
    ensures kept { Kept result (S.faults shelf.old) (S.faults shelf.new) }
    ensures opens { S.slots shelf.new ≤ S.slots shelf.old + 2 }
    ensures opened { OnOk result (S.slots shelf.new ≡ S.slots shelf.old + 2) }
{
    let records = count_file(alloc, shelf, form.data_name())?;
    let mut replay = read_replay(alloc, shelf, form.draws_name())?;
    match release(form, records, &mut replay) {
        Ok(answer) => Ok(answer),
        Err(_) => Err(Stop::DrawFault),
    }
}

/// The geometric release of a number of records.
fn release(form: &CountForm<'_>, records: u64, replay: &mut Replay) -> Result<i64, Failed>
    requires { records ≤ 2 ^ 30 }
    ensures { result_ok result
        ≡ option_map (cell_answer form.now records) (cell_draws form.now (⟦<Replay as Draws>⟧.state replay.old)) }
{
    form.cell().step(records as i64, replay)
}

/// How many records a data file has.
fn count_file<S: Shelf>(alloc: Global, shelf: &mut S, name: &str) -> Result<u64, Stop>
    ensures answers { Answers result (λ n. n) (S.files shelf.old) (λ files. counted files name.now)
        (S.faults shelf.old) (S.faults shelf.new) }
    ensures later { S.faults shelf.old ≤ S.faults shelf.new }
    ensures kept { Kept result (S.faults shelf.old) (S.faults shelf.new) }
    ensures opens { S.slots shelf.new ≤ S.slots shelf.old + 1 }
    ensures opened { OnOk result (S.slots shelf.new ≡ S.slots shelf.old + 1) }
    ensures same_files { S.files shelf.new ≡ S.files shelf.old }
    ensures within { IfOk result (λ n. n ≤ 2 ^ 30) }
{
    let text = read_file(alloc, shelf, name, MOST_DATA)?;
    Ok(count_records(alloc, text.as_slice(), MOST_RECORDS)?)
}
