ghost use Rattle.std.specs.Prelude.{◌≡◌, ◌≢◌, ◌+◌, ◌-◌, ◌≤◌, ◌<◌, ◌^◌, map, string_bytes, length, [], OnOk, OnErr, IfOk, IfErr, IsTrue, Err};
ghost use Rattle.std.specs.Option.{ForSome};
ghost use Rattle.dp_count.specs.Digits.{short_decimal};
ghost use Rattle.dp_count.specs.Faults.{Rose};
ghost use Rattle.dp_io.specs.Sink.{appended, AddsFront};
ghost use Rattle.dp_law.specs.Releasing.{TakesFront};
ghost use Rattle.dp_session.specs.Sessions.{IsSessionAt};
ghost use Rattle.dp_runner.specs.Causes.{Answers, Interrupts, Kept, Runs};
ghost use Rattle.dp_runner.specs.Outcome.{Source, source_at};
ghost use Rattle.dp_runner.specs.Sessions.{run_form, replay_form, rehearse_form, session_form_of, replay_form_of, rehearse_form_of, opened_at, opened, opened_by, stored, file_records, run_outcome, run_command, form_shape, replay_outcome, replay_command, rehearse_outcome, rehearse_command, seed_bytes};
ghost use Rattle.dp_runner.specs.Stops.{row_of, is_silent};

use crate::answering::answer_file;
use crate::pipelines::pipeline_of;
use crate::stop::Stop;
use crate::texts::read_replay;
use dp_count::short_decimal;
use dp_draws::{ChaChaDraws, Draws};
use dp_io::{Shelf, Sink, write_all};
use dp_pipeline::Pipeline;
use dp_session::Session;
use dp_store::{Store, read_store};
use std::alloc::Global;
use std::marker::Model;

/// The greatest number of digits of a seed.
const SEED_DIGITS: usize = 19;

/// The words `P DATA QUERIES`.
#[derive(Debug, Drop)]
pub(crate) struct SessionForm<'a> {
    pipeline_name: &'a str,
    data_name: &'a str,
    queries_name: &'a str,
}

impl<'a> Model for SessionForm<'a> {
    ghost use Rattle.dp_runner.specs.Sessions.{SessionForm};

    ghost Value = { SessionForm };

    ghost view = { λ form. record {
      pipeline_name = form.pipeline_name.now;
      data_name = form.data_name.now;
      queries_name = form.queries_name.now;
    } };
}

impl SessionForm<'_> {
    /// The name of the file of the pipeline.
    fn pipeline_name(&self) -> &str
        ensures { result.now ≡ self.now.pipeline_name }
    {
        self.pipeline_name
    }

    /// The name of the file of the data.
    fn data_name(&self) -> &str
        ensures { result.now ≡ self.now.data_name }
    {
        self.data_name
    }

    /// The name of the file of the queries.
    fn queries_name(&self) -> &str
        ensures { result.now ≡ self.now.queries_name }
    {
        self.queries_name
    }
}

/// The words of `replay P DATA QUERIES DRAWS`.
#[derive(Debug, Drop)]
pub(crate) struct ReplayForm<'a> {
    session: SessionForm<'a>,
    draws_name: &'a str,
}

impl<'a> Model for ReplayForm<'a> {
    ghost use Rattle.dp_runner.specs.Sessions.{ReplayForm};

    ghost Value = { ReplayForm };

    ghost view = { λ form. record { session = form.session; draws_name = form.draws_name.now } };
}

impl<'a> ReplayForm<'a> {
    /// The files of the pipeline, of the data and of the queries.
    fn session(&self) -> &SessionForm<'a>
        ensures { result.now ≡ self.now.session }
    {
        &self.session
    }

    /// The name of the file of draws.
    fn draws_name(&self) -> &str
        ensures { result.now ≡ self.now.draws_name }
    {
        self.draws_name
    }
}

/// The words of `rehearse P DATA QUERIES SEED`.
#[derive(Debug, Drop)]
pub(crate) struct RehearseForm<'a> {
    session: SessionForm<'a>,
    seed: u64,
}

impl<'a> Model for RehearseForm<'a> {
    ghost use Rattle.dp_runner.specs.Sessions.{RehearseForm};

    ghost Value = { RehearseForm };

    ghost view = { λ form. record { session = form.session; seed = form.seed } };
}

impl<'a> RehearseForm<'a> {
    /// The files of the pipeline, of the data and of the queries.
    fn session(&self) -> &SessionForm<'a>
        ensures { result.now ≡ self.now.session }
    {
        &self.session
    }

    /// The number of the seed.
    fn seed(&self) -> u64
        ensures { result ≡ self.now.seed }
    {
        self.seed
    }
}

/// What the words after `run` say, if they are of its form.
pub(crate) fn run_form(words: &[String]) -> Option<SessionForm<'_>>
    ensures { result ≡ run_form (map string_bytes words.now) }
{
    let [pipeline_name, data_name, queries_name] = words else {
        return None;
    };
    session_form_of(
        pipeline_name.as_str(),
        data_name.as_str(),
        queries_name.as_str(),
    )
}

/// What the words after `replay` say, if they are of its form.
pub(crate) fn replay_form(words: &[String]) -> Option<ReplayForm<'_>>
    ensures { result ≡ replay_form (map string_bytes words.now) }
{
    let [pipeline_name, data_name, queries_name, draws_name] = words else {
        return None;
    };
    let session = session_form_of(
        pipeline_name.as_str(),
        data_name.as_str(),
        queries_name.as_str(),
    )?;
    replay_form_of(session, draws_name.as_str())
}

/// What the words after `rehearse` say, if they are of its form.
pub(crate) fn rehearse_form(words: &[String]) -> Option<RehearseForm<'_>>
    ensures { result ≡ rehearse_form (map string_bytes words.now) }
{
    let [pipeline_name, data_name, queries_name, seed] = words else {
        return None;
    };
    let session = session_form_of(
        pipeline_name.as_str(),
        data_name.as_str(),
        queries_name.as_str(),
    )?;
    rehearse_form_of(session, seed.as_str())
}

/// Three files, if three words name them.
fn session_form_of<'a>(
    pipeline_name: &'a str,
    data_name: &'a str,
    queries_name: &'a str,
) -> Option<SessionForm<'a>>
    ensures { result ≡ session_form_of pipeline_name.now data_name.now queries_name.now }
{
    if pipeline_name.is_empty() || data_name.is_empty() || queries_name.is_empty() {
        return None;
    }
    Some(SessionForm {
        pipeline_name,
        data_name,
        queries_name,
    })
}

/// Three files and a fourth, if a word names it.
fn replay_form_of<'a>(session: SessionForm<'a>, draws_name: &'a str) -> Option<ReplayForm<'a>>
    ensures { result ≡ replay_form_of session.entry draws_name.now }
{
    if draws_name.is_empty() {
        return None;
    }
    Some(ReplayForm {
        session,
        draws_name,
    })
}

/// Three files and a seed, if a word spells one.
fn rehearse_form_of<'a>(session: SessionForm<'a>, seed: &str) -> Option<RehearseForm<'a>>
    ensures { result ≡ rehearse_form_of session.entry seed.now }
{
    let seed = short_decimal(seed.as_bytes(), SEED_DIGITS)?;
    Some(RehearseForm { session, seed })
}

/// Answers the queries by the draws that are handed in to the run.
pub(crate) fn run_session<S: Shelf, D: Draws, K: Sink>(
    alloc: Global,
    form: &SessionForm<'_>,
    shelf: &mut S,
    draws: &mut D,
    out: &mut K,
) -> Result<(), Stop>
    ensures runs { Runs result (S.files shelf.old)
        (λ files. run_outcome form.now files (source_at D.step (D.state draws.old)))
        (S.faults shelf.old) (S.faults shelf.new) (K.held out.old) (K.held out.new) (D.state draws.new) }
    ensures taken { result ≢ Err Stop.DrawFault → ForSome (S.files shelf.old) (λ files.
        TakesFront D.step (form_shape form.now files) (D.state draws.old) (D.state draws.new)) }
    ensures interrupted { result ≡ Err Stop.ReadFault → S.slots shelf.new ≡ S.slots shelf.old + 3
        → Interrupts (run_command form.now).queries (S.files shelf.old) (source_at D.step (D.state draws.old))
        (S.left shelf.new (S.slots shelf.new - 1)) (K.held out.old) (K.held out.new) (D.state draws.new) }
    ensures no_usage { result ≢ Err Stop.Usage }
    ensures silent { IfErr result (λ reason.
        IsTrue (is_silent (row_of reason).status) → K.held out.new ≡ K.held out.old) }
    ensures later { S.faults shelf.old ≤ S.faults shelf.new }
    ensures kept { Kept result (S.faults shelf.old) (S.faults shelf.new) }
    ensures opens { S.slots shelf.new ≤ S.slots shelf.old + 3 }
    ensures opened { OnOk result (S.slots shelf.new ≡ S.slots shelf.old + 3) }
    ensures draw_fault { result ≡ Err Stop.DrawFault → Rose (D.faults draws.old) (D.faults draws.new) }
    ensures draws_kept { result ≢ Err Stop.DrawFault → D.faults draws.new ≡ D.faults draws.old }
    ensures write_fault { result ≡ Err Stop.WriteFault → Rose (K.faults out.old) (K.faults out.new) }
    ensures out_later { K.faults out.old ≤ K.faults out.new }
    ensures out_kept { result ≢ Err Stop.WriteFault → K.faults out.new ≡ K.faults out.old }
{
    let mut session = session_of(alloc, form, shelf)?;
    answer_file(alloc, &mut session, form.queries_name(), shelf, draws, out)
}

/// Answers the queries by the draws of a file. No draw is taken from the source that is handed in to the run.
pub(crate) fn run_replay<S: Shelf, K: Sink>(
    alloc: Global,
    form: &ReplayForm<'_>,
    shelf: &mut S,
    out: &mut K,
) -> Result<(), Stop>
    ensures runs { (source : Source) → Runs result (S.files shelf.old)
        (λ files. replay_outcome form.now files source) (S.faults shelf.old) (S.faults shelf.new)
        (K.held out.old) (K.held out.new) source.state }
    ensures interrupted { (source : Source) → result ≡ Err Stop.ReadFault
        → S.slots shelf.new ≡ S.slots shelf.old + 4
        → Interrupts (replay_command form.now).queries (S.files shelf.old) source
        (S.left shelf.new (S.slots shelf.new - 1)) (K.held out.old) (K.held out.new) source.state }
    ensures no_usage { result ≢ Err Stop.Usage }
    ensures silent { IfErr result (λ reason.
        IsTrue (is_silent (row_of reason).status) → K.held out.new ≡ K.held out.old) }
    ensures later { S.faults shelf.old ≤ S.faults shelf.new }
    ensures kept { Kept result (S.faults shelf.old) (S.faults shelf.new) }
    ensures opens { S.slots shelf.new ≤ S.slots shelf.old + 4 }
    ensures opened { OnOk result (S.slots shelf.new ≡ S.slots shelf.old + 4) }
    ensures write_fault { result ≡ Err Stop.WriteFault → Rose (K.faults out.old) (K.faults out.new) }
    ensures out_later { K.faults out.old ≤ K.faults out.new }
    ensures out_kept { result ≢ Err Stop.WriteFault → K.faults out.new ≡ K.faults out.old }
{
    let words = form.session();
    let mut session = session_of(alloc, words, shelf)?;
    let mut replay = read_replay(alloc, shelf, form.draws_name())?;
    answer_file(
        alloc,
        &mut session,
        words.queries_name(),
        shelf,
        &mut replay,
        out,
    )
}

/// Writes a line that says so, and answers the queries by the draws of a seed. No draw is taken from the source that is
/// handed in to the run.
pub(crate) fn run_rehearse<S: Shelf, K: Sink>(
    alloc: Global,
    form: &RehearseForm<'_>,
    shelf: &mut S,
    out: &mut K,
) -> Result<(), Stop>
    ensures runs { (source : Source) → Runs result (S.files shelf.old)
        (λ files. rehearse_outcome form.now files source) (S.faults shelf.old) (S.faults shelf.new)
        (K.held out.old) (K.held out.new) source.state }
    ensures interrupted { (source : Source) → result ≡ Err Stop.ReadFault
        → S.slots shelf.new ≡ S.slots shelf.old + 3
        → Interrupts (rehearse_command form.now).queries (S.files shelf.old) source
        (S.left shelf.new (S.slots shelf.new - 1)) (K.held out.old) (K.held out.new) source.state }
    ensures no_usage { result ≢ Err Stop.Usage }
    ensures silent { IfErr result (λ reason.
        IsTrue (is_silent (row_of reason).status) → K.held out.new ≡ K.held out.old) }
    ensures later { S.faults shelf.old ≤ S.faults shelf.new }
    ensures kept { Kept result (S.faults shelf.old) (S.faults shelf.new) }
    ensures opens { S.slots shelf.new ≤ S.slots shelf.old + 3 }
    ensures opened { OnOk result (S.slots shelf.new ≡ S.slots shelf.old + 3) }
    ensures write_fault { result ≡ Err Stop.WriteFault → Rose (K.faults out.old) (K.faults out.new) }
    ensures out_later { K.faults out.old ≤ K.faults out.new }
    ensures out_kept { result ≢ Err Stop.WriteFault → K.faults out.new ≡ K.faults out.old }
{
    let words = form.session();
    let mut session = session_of(alloc, words, shelf)?;
    let mut draws = ChaChaDraws::new(seed_bytes(form.seed()));
    // The line stands before the answers, so that no reader takes them for released ones.
    write_lines(out, b"rehearsal\n")?;
    answer_file(
        alloc,
        &mut session,
        words.queries_name(),
        shelf,
        &mut draws,
        out,
    )
}

/// Writes lines, which are given with their line feeds.
pub(crate) fn write_lines<K: Sink>(out: &mut K, lines: &[u8]) -> Result<(), Stop>
    ensures written { OnOk result (K.held out.new ≡ appended (K.held out.old) lines.now) }
    ensures front { OnErr result (AddsFront (K.held out.old) (K.held out.new) lines.now) }
    ensures only { IfErr result (λ reason. reason ≡ Stop.WriteFault) }
    ensures write_fault { OnErr result (Rose (K.faults out.old) (K.faults out.new)) }
    ensures out_later { K.faults out.old ≤ K.faults out.new }
    ensures out_kept { OnOk result (K.faults out.new ≡ K.faults out.old) }
{
    match write_all(out, lines) {
        Ok(()) => Ok(()),
        Err(_) => Err(Stop::WriteFault),
    }
}

/// The 32 bytes of a seed: its number in eight bytes, the lowest first, and then zeros.
fn seed_bytes(seed: u64) -> [u8; 32]
    ensures { result ≡ seed_bytes seed }
{
    let [a, b, c, d, e, f, g, h] = seed.to_le_bytes();
    [
        a, b, c, d, e, f, g, h, 0, 0, 0, 0, 0, 0, 0, 0, 0, 0, 0, 0, 0, 0, 0, 0, 0, 0, 0, 0, 0, 0,
        0, 0,
    ]
}

/// The session of a file's pipeline on the records of a data file, at no queries.
fn session_of<S: Shelf>(
    alloc: Global,
    form: &SessionForm<'_>,
    shelf: &mut S,
) -> Result<Session, Stop>
    ensures answers { Answers result opened_by (S.files shelf.old) (opened form.now)
        (S.faults shelf.old) (S.faults shelf.new) }
    ensures stands { IfOk result (λ session.
        IsSessionAt session session.queries.pipeline session.store.records []) }
    ensures no_draw_fault { result ≢ Err Stop.DrawFault }
    ensures later { S.faults shelf.old ≤ S.faults shelf.new }
    ensures kept { Kept result (S.faults shelf.old) (S.faults shelf.new) }
    ensures opens { S.slots shelf.new ≤ S.slots shelf.old + 2 }
    ensures opened { OnOk result (S.slots shelf.new ≡ S.slots shelf.old + 2) }
    ensures same_files { S.files shelf.new ≡ S.files shelf.old }
{
    let (pipeline, store) = open_data(alloc, shelf, form.pipeline_name(), form.data_name())?;
    Ok(Session::over(alloc, pipeline, store)?)
}

/// The pipeline of a file, and the records of a data file under it.
pub(crate) fn open_data<S: Shelf>(
    alloc: Global,
    shelf: &mut S,
    pipeline_name: &str,
    data_name: &str,
) -> Result<(Pipeline, Store), Stop>
    ensures answers { Answers result (λ found. stored found.0 found.1) (S.files shelf.old)
        (opened_at pipeline_name.now data_name.now) (S.faults shelf.old) (S.faults shelf.new) }
    ensures columns { IfOk result (λ found. let store = found.1 in let pipeline = found.0 in
        store.columns ≡ length pipeline.columns) }
    ensures no_draw_fault { result ≢ Err Stop.DrawFault }
    ensures later { S.faults shelf.old ≤ S.faults shelf.new }
    ensures kept { Kept result (S.faults shelf.old) (S.faults shelf.new) }
    ensures opens { S.slots shelf.new ≤ S.slots shelf.old + 2 }
    ensures opened { OnOk result (S.slots shelf.new ≡ S.slots shelf.old + 2) }
    ensures same_files { S.files shelf.new ≡ S.files shelf.old }
{
    let pipeline = pipeline_of(alloc, shelf, pipeline_name)?;
    let store = records_of(alloc, shelf, data_name, &pipeline)?;
    Ok((pipeline, store))
}

/// The records of a data file under a pipeline. Its text is dropped.
fn records_of<S: Shelf>(
    alloc: Global,
    shelf: &mut S,
    name: &str,
    pipeline: &Pipeline,
) -> Result<Store, Stop>
    ensures answers { Answers result (stored pipeline.now) (S.files shelf.old)
        (λ files. file_records files name.now pipeline.now) (S.faults shelf.old) (S.faults shelf.new) }
    ensures columns { IfOk result (λ store. store.columns ≡ length pipeline.now.columns) }
    ensures no_draw_fault { result ≢ Err Stop.DrawFault }
    ensures later { S.faults shelf.old ≤ S.faults shelf.new }
    ensures kept { Kept result (S.faults shelf.old) (S.faults shelf.new) }
    ensures opens { S.slots shelf.new ≤ S.slots shelf.old + 1 }
    ensures opened { OnOk result (S.slots shelf.new ≡ S.slots shelf.old + 1) }
    ensures same_files { S.files shelf.new ≡ S.files shelf.old }
{
    let columns = pipeline.columns().len() as u32;
    let slot = shelf.open(alloc, name)?;
    Ok(read_store(alloc, shelf, slot, columns, pipeline.header())?)
}
