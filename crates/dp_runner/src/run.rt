ghost use Rattle.std.specs.Prelude.{◌≡◌, ◌≢◌, ◌+◌, ◌-◌, ◌≤◌, ◌⊎◌, ◌↔◌, map, string_bytes, Some, None, Ok, Err, OnOk, IfErr, IsTrue, false};
ghost use Rattle.std.specs.Option.{ForSome};
ghost use Rattle.dp_count.specs.Faults.{Rose, Still};
ghost use Rattle.dp_law.specs.Releasing.{TakesFront};
ghost use Rattle.dp_session.specs.Privacy.{PrivacyLaw};
ghost use Rattle.dp_session.specs.SinglePrivacy.{PostPrivacyLaw, GroupPrivacyLaw};
ghost use Rattle.dp_runner.specs.Causes.{Interrupts, Runs, Kept, IsTold};
ghost use Rattle.dp_runner.specs.Outcome.{source_at};
ghost use Rattle.dp_runner.specs.Forms.{form_of, command, outcome};
ghost use Rattle.dp_runner.specs.RunClauses.{IsOutcome, IsRefused, Ending, GainsLines, GainsMessage};
ghost use Rattle.dp_runner.specs.Stops.{row_of, is_silent};

use crate::account::run_account;
use crate::check::run_check;
use crate::count::run_count;
use crate::form::{Form, form_of};
use crate::release::run_release;
use crate::sample::run_sample;
use crate::sessions::{run_rehearse, run_replay, run_session};
use crate::stop::Stop;
use dp_draws::Draws;
use dp_io::{Shelf, Sink, write_all};
use dp_session::laws::{privacy_law, single_law};
use std::alloc::Global;

/// Does all that the program does, and gives the status that it ends with.
///
/// `words` are the words of the command line without the program's own name. They have one of nine forms, of which
/// `run`, `post` and `group` alone use the draw source that is handed in:
///
/// - `count DATA DRAWS LO HI` counts the CSV records of the file DATA and writes `answer A`, A being the geometric
///   release of that number with the ratio 1/2 and the range LO..HI, from the draws in the file DRAWS;
/// - `check P` reads the pipeline of the file P and writes its stages;
/// - `account P QUERIES` reads the pipeline of the file P and the lines of the file QUERIES, and writes the verdict of
///   each query, what it costs and what is spent, and a last line;
/// - `run P DATA QUERIES` answers the queries on the records of the file DATA, by the draws that are handed in, and
///   writes the line of each query and a last line;
/// - `replay P DATA QUERIES DRAWS` does so by the draws in the file DRAWS;
/// - `rehearse P DATA QUERIES SEED` writes the line `rehearsal`, just before it opens QUERIES, and does so by the draws
///   of ChaCha20 whose key is SEED, 1 to 19 digits, as eight bytes, the lowest first, and 24 zeros;
/// - `sample N` opens no file: it makes a data text of N records, N being 1 to 7 digits that spell a number from 1 to
///   1,000,000, writes `records N`, and answers three fixed queries on a fixed pipeline by draws of 0;
/// - `post P DATA PLAN POST..` makes the release of a plan on the records of the file DATA, by the draws that are
///   handed in, changes its answer by 1 to 16 changes, `cumulate`, `floor` or `largest`, and writes its line and a last
///   line;
/// - `group P DATA PLAN COLUMN TEXT..` makes it on the records of each of 1 to 1,023 texts in a column, and writes the
///   line of all its answers and a last line.
///
/// Answers of `replay`, `rehearse` and `sample` come from known draws and protect nobody. Of the definitions that they
/// and `run` follow, every accepted pipeline is private, and so is each accepted release of `post` and `group`.
///
/// | status | line on `err` | comes |
/// |---|---|---|
/// | 0 | none | all lines of the command were written |
/// | 2 | `dp: usage` | exactly where the words are of no form |
/// | 3 | `dp: pipeline refused c` | exactly where P's text is refused with the number c, and no earlier fault came |
/// | 4 | `dp: read fault` | only where the shelf's count of faults rose, or where it tells its files and lacks one |
/// | 5 | `dp: write fault` | only where the count of faults of `out` rose |
/// | 6 | `dp: draw fault` | exactly where the draw source fails in taking the draws, and no other fault came |
/// | 7 | `dp: too long` | exactly where DATA passes 2^30 bytes or DRAWS 2^26, and no earlier fault came |
/// | 8 | `dp: query limit` | exactly where a line of QUERIES passes 65,536 bytes or they pass 2^20, and no fault came |
/// | 9 | `dp: no memory` | memory ran out |
///
/// Where the source that is handed in failed so, its count of faults rose; after any other end it is what it was.
///
/// The first fault ends the run. A failure of `err` does not change the status. A run that ends with 0 opened each file
/// that its words name once, and raised no count of faults of the shelf or of `out`; no run opens more files.
pub fn run_words<S: Shelf, D: Draws, K: Sink, E: Sink>(
    alloc: Global,
    words: &[String],
    shelf: &mut S,
    draws: &mut D,
    out: &mut K,
    err: &mut E,
) -> u8
    // What ended the run, if anything did, gives the status and the line on the error output.
    ensures ending { Ending (S.files shelf.old)
        (λ files. outcome (map string_bytes words.now) files (source_at D.step (D.state draws.old)))
        result (E.held err.old) (E.held err.new) (E.faults err.old) (E.faults err.new) }

    // Where nothing fails, the run is its definition over whole texts.
    ensures outcome { ForSome (S.files shelf.old) (λ files. Still (S.faults shelf.old) (S.faults shelf.new)
        → Still (K.faults out.old) (K.faults out.new) → result ≢ 9
        → IsOutcome (outcome (map string_bytes words.now) files (source_at D.step (D.state draws.old)))
        (K.held out.old) (K.held out.new) result (D.state draws.new)) }

    // The statuses that need no failure are the definition's, whatever the counts do.
    ensures settled { result ≢ 4 → result ≢ 5 → result ≢ 9 → ForSome (S.files shelf.old) (λ files.
        IsOutcome (outcome (map string_bytes words.now) files (source_at D.step (D.state draws.old)))
        (K.held out.old) (K.held out.new) result (D.state draws.new)) }

    // In every run the output gains a front of what the definition says, whole lines unless the output failed.
    ensures front { ForSome (S.files shelf.old) (λ files.
        GainsLines (outcome (map string_bytes words.now) files (source_at D.step (D.state draws.old))).bytes
        (K.held out.old) (K.held out.new) result) }
    ensures silent { IsTrue (is_silent result) → K.held out.new ≡ K.held out.old }
    ensures nothing { IsTrue (command (map string_bytes words.now)).writes_last → result ≢ 0 → result ≢ 5
        → K.held out.new ≡ K.held out.old }

    // Where a read of the queries failed, what was left of the file tells what was given of its text, and the output
    // gained the line of each query whose line feed was given, and of no other.
    ensures interrupted { result ≡ 4
        → S.slots shelf.new ≡ S.slots shelf.old + (command (map string_bytes words.now)).files
        → Interrupts (command (map string_bytes words.now)).queries (S.files shelf.old)
        (source_at D.step (D.state draws.old)) (S.left shelf.new (S.slots shelf.new - 1))
        (K.held out.old) (K.held out.new) (D.state draws.new) }

    ensures usage { (result ≡ 2) ↔ (form_of (map string_bytes words.now) ≡ None) }
    ensures refused { result ≡ 3 → ForSome (S.files shelf.old)
        (λ files. IsRefused (outcome (map string_bytes words.now) files (source_at D.step (D.state draws.old))).stop) }
    ensures read_fault { result ≡ 4 → (Rose (S.faults shelf.old) (S.faults shelf.new) ⊎ IsTold (S.files shelf.old)
        (λ files. (outcome (map string_bytes words.now) files (source_at D.step (D.state draws.old))).stop
        ≡ Some Stop.ReadFault)) }
    ensures write_fault { result ≡ 5 → Rose (K.faults out.old) (K.faults out.new) }
    ensures draw_fault { result ≡ 6 → ForSome (S.files shelf.old)
        (λ files. (outcome (map string_bytes words.now) files (source_at D.step (D.state draws.old))).stop
        ≡ Some Stop.DrawFault) }
    ensures too_long { result ≡ 7 → ForSome (S.files shelf.old)
        (λ files. (outcome (map string_bytes words.now) files (source_at D.step (D.state draws.old))).stop
        ≡ Some Stop.TooLong) }
    ensures query_limit { result ≡ 8 → ForSome (S.files shelf.old)
        (λ files. (outcome (map string_bytes words.now) files (source_at D.step (D.state draws.old))).stop
        ≡ Some Stop.QueryLimit) }

    // No run opens more files than its words name, and one that ends with 0 opens so many.
    ensures opens { S.slots shelf.new ≤ S.slots shelf.old + (command (map string_bytes words.now)).files }
    ensures opened { result ≡ 0
        → S.slots shelf.new ≡ S.slots shelf.old + (command (map string_bytes words.now)).files }

    // A run that met neither a failure nor want of memory raised no count.
    ensures kept { result ≢ 4 → result ≢ 5 → result ≢ 9
        → (S.faults shelf.new ≡ S.faults shelf.old) × (K.faults out.new ≡ K.faults out.old) }
    ensures source { IsTrue (command (map string_bytes words.now)).keeps_source → draws.new ≡ draws.old }

    // The count of the source that is handed in rose where the run used it and it failed, and nowhere else.
    ensures source_rose { result ≡ 6 → (command (map string_bytes words.now)).keeps_source ≡ false
        → Rose (D.faults draws.old) (D.faults draws.new) }
    ensures source_kept { result ≢ 6 → D.faults draws.new ≡ D.faults draws.old }
    ensures source_later { D.faults draws.old ≤ D.faults draws.new }

    // Unless it failed, it stands where taking some first part of the run's draws leaves it.
    ensures taken { result ≢ 6 → ForSome (S.files shelf.old) (λ files. TakesFront D.step
        ((command (map string_bytes words.now)).shape files) (D.state draws.old) (D.state draws.new)) }

    // Every accepted pipeline is private, on all data texts within its distance, for all lists of queries and replies.
    ensures private { PrivacyLaw }

    // So is each accepted release of `post` and of `group`, for all answers, at the cost that is written.
    ensures post_private { PostPrivacyLaw }
    ensures group_private { GroupPrivacyLaw }

    ensures later { (S.faults shelf.old ≤ S.faults shelf.new) × (K.faults out.old ≤ K.faults out.new)
        × (E.faults err.old ≤ E.faults err.new) }
{
    privacy_law();
    single_law();
    match run(alloc, words, shelf, draws, out) {
        Ok(()) => 0,
        Err(stop) => report(stop, err),
    }
}

/// Ends a run for which no memory was left before it began: writes the line of that and gives its status.
pub fn end_without_memory<E: Sink>(err: &mut E) -> u8
    ensures status { result ≡ (row_of Stop.NoMemory).status }
    ensures message { GainsMessage (row_of Stop.NoMemory).line (E.held err.old) (E.held err.new)
        (E.faults err.old) (E.faults err.new) }
{
    report(Stop::NoMemory, err)
}

/// Writes the line of a stop, and gives its status.
fn report<E: Sink>(stop: Stop, err: &mut E) -> u8
    ensures status { result ≡ (row_of stop).status }
    ensures message { GainsMessage (row_of stop).line (E.held err.old) (E.held err.new)
        (E.faults err.old) (E.faults err.new) }
    ensures later { E.faults err.old ≤ E.faults err.new }
{
    let row = stop.row();
    let _ = write_all(err, row.line.as_bytes());
    row.status
}

/// Does what the words say: a row a command.
fn run<S: Shelf, D: Draws, K: Sink>(
    alloc: Global,
    words: &[String],
    shelf: &mut S,
    draws: &mut D,
    out: &mut K,
) -> Result<(), Stop>
    ensures runs { Runs result (S.files shelf.old)
        (λ files. outcome (map string_bytes words.now) files (source_at D.step (D.state draws.old)))
        (S.faults shelf.old) (S.faults shelf.new) (K.held out.old) (K.held out.new) (D.state draws.new) }
    ensures usage { (result ≡ Err Stop.Usage) ↔ (form_of (map string_bytes words.now) ≡ None) }
    ensures silent { IfErr result (λ reason.
        IsTrue (is_silent (row_of reason).status) → K.held out.new ≡ K.held out.old) }
    ensures nothing { IsTrue (command (map string_bytes words.now)).writes_last → result ≢ Ok tt
        → result ≢ Err Stop.WriteFault → K.held out.new ≡ K.held out.old }
    ensures interrupted { result ≡ Err Stop.ReadFault
        → S.slots shelf.new ≡ S.slots shelf.old + (command (map string_bytes words.now)).files
        → Interrupts (command (map string_bytes words.now)).queries (S.files shelf.old)
        (source_at D.step (D.state draws.old)) (S.left shelf.new (S.slots shelf.new - 1))
        (K.held out.old) (K.held out.new) (D.state draws.new) }
    ensures opens { S.slots shelf.new ≤ S.slots shelf.old + (command (map string_bytes words.now)).files }
    ensures opened { OnOk result
        (S.slots shelf.new ≡ S.slots shelf.old + (command (map string_bytes words.now)).files) }
    ensures source { IsTrue (command (map string_bytes words.now)).keeps_source → draws.new ≡ draws.old }
    ensures source_rose { result ≡ Err Stop.DrawFault → (command (map string_bytes words.now)).keeps_source ≡ false
        → Rose (D.faults draws.old) (D.faults draws.new) }
    ensures source_kept { result ≢ Err Stop.DrawFault → D.faults draws.new ≡ D.faults draws.old }
    ensures source_later { D.faults draws.old ≤ D.faults draws.new }
    ensures taken { result ≢ Err Stop.DrawFault → ForSome (S.files shelf.old) (λ files. TakesFront D.step
        ((command (map string_bytes words.now)).shape files) (D.state draws.old) (D.state draws.new)) }
    ensures later { S.faults shelf.old ≤ S.faults shelf.new }
    ensures kept { Kept result (S.faults shelf.old) (S.faults shelf.new) }
    ensures write_fault { result ≡ Err Stop.WriteFault → Rose (K.faults out.old) (K.faults out.new) }
    ensures out_later { K.faults out.old ≤ K.faults out.new }
    ensures out_kept { result ≢ Err Stop.WriteFault → K.faults out.new ≡ K.faults out.old }
{
    match form_of(words) {
        None => Err(Stop::Usage),
        Some(Form::Count(form)) => run_count(alloc, &form, shelf, out),
        Some(Form::Check(form)) => run_check(alloc, &form, shelf, out),
        Some(Form::Account(form)) => run_account(alloc, &form, shelf, out),
        Some(Form::Run(form)) => run_session(alloc, &form, shelf, draws, out),
        Some(Form::Replay(form)) => run_replay(alloc, &form, shelf, out),
        Some(Form::Rehearse(form)) => run_rehearse(alloc, &form, shelf, out),
        Some(Form::Sample(records)) => run_sample(alloc, records, out),
        Some(Form::Post(form)) => run_release(alloc, &form, shelf, draws, out),
        Some(Form::Group(form)) => run_release(alloc, &form, shelf, draws, out),
    }
}
