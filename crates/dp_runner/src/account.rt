ghost use Rattle.std.specs.Prelude.{◌≡◌, ◌≢◌, ◌+◌, ◌-◌, ◌≤◌, map, string_bytes, OnOk, IfErr, IsTrue, Err};
ghost use Rattle.dp_count.specs.Faults.{Rose};
ghost use Rattle.dp_runner.specs.Account.{account_form, account_form_of, account_outcome, account_command};
ghost use Rattle.dp_runner.specs.Causes.{Interrupts, Kept, Runs};
ghost use Rattle.dp_runner.specs.Outcome.{Source};
ghost use Rattle.dp_runner.specs.Stops.{row_of, is_silent};

use crate::answering::answer_file;
use crate::pipelines::pipeline_of;
use crate::stop::Stop;
use dp_draws::NoDraws;
use dp_io::{Shelf, Sink};
use dp_session::Account;
use std::alloc::Global;
use std::marker::Model;

/// The words of `account P QUERIES`.
#[derive(Debug, Drop)]
pub(crate) struct AccountForm<'a> {
    pipeline_name: &'a str,
    queries_name: &'a str,
}

impl<'a> Model for AccountForm<'a> {
    ghost use Rattle.dp_runner.specs.Account.{AccountForm};

    ghost Value = { AccountForm };

    ghost view = { λ form. record {
      pipeline_name = form.pipeline_name.now;
      queries_name = form.queries_name.now;
    } };
}

impl AccountForm<'_> {
    /// The name of the file of the pipeline.
    fn pipeline_name(&self) -> &str
        ensures { result.now ≡ self.now.pipeline_name }
    {
        self.pipeline_name
    }

    /// The name of the file of the queries.
    fn queries_name(&self) -> &str
        ensures { result.now ≡ self.now.queries_name }
    {
        self.queries_name
    }
}

/// What the words after `account` say, if they are of its form.
pub(crate) fn account_form(words: &[String]) -> Option<AccountForm<'_>>
    ensures { result ≡ account_form (map string_bytes words.now) }
{
    let [pipeline_name, queries_name] = words else {
        return None;
    };
    account_form_of(pipeline_name.as_str(), queries_name.as_str())
}

/// What two words say, if they are of that form.
fn account_form_of<'a>(pipeline_name: &'a str, queries_name: &'a str) -> Option<AccountForm<'a>>
    ensures { result ≡ account_form_of pipeline_name.now queries_name.now }
{
    if pipeline_name.is_empty() || queries_name.is_empty() {
        return None;
    }
    Some(AccountForm {
        pipeline_name,
        queries_name,
    })
}

/// Writes the verdict of each query, what it costs and what is spent, and a last line. It reads one query line at a
/// time, and writes its line before it reads the next. No draw is taken from the source that is handed in to the run.
pub(crate) fn run_account<S: Shelf, K: Sink>(
    alloc: Global,
    form: &AccountForm<'_>,
    shelf: &mut S,
    out: &mut K,
) -> Result<(), Stop>
    ensures runs { (source : Source) → Runs result (S.files shelf.old)
        (λ files. account_outcome form.now files source) (S.faults shelf.old) (S.faults shelf.new)
        (K.held out.old) (K.held out.new) source.state }
    ensures interrupted { (source : Source) → result ≡ Err Stop.ReadFault
        → S.slots shelf.new ≡ S.slots shelf.old + 2
        → Interrupts (account_command form.now).queries (S.files shelf.old) source
        (S.left shelf.new (S.slots shelf.new - 1)) (K.held out.old) (K.held out.new) source.state }
    ensures no_usage { result ≢ Err Stop.Usage }
    ensures silent { IfErr result (λ reason.
        IsTrue (is_silent (row_of reason).status) → K.held out.new ≡ K.held out.old) }
    ensures later { S.faults shelf.old ≤ S.faults shelf.new }
    ensures kept { Kept result (S.faults shelf.old) (S.faults shelf.new) }
    ensures opens { S.slots shelf.new ≤ S.slots shelf.old + 2 }
    ensures opened { OnOk result (S.slots shelf.new ≡ S.slots shelf.old + 2) }
    ensures write_fault { result ≡ Err Stop.WriteFault → Rose (K.faults out.old) (K.faults out.new) }
    ensures out_later { K.faults out.old ≤ K.faults out.new }
    ensures out_kept { result ≢ Err Stop.WriteFault → K.faults out.new ≡ K.faults out.old }
{
    let pipeline = pipeline_of(alloc, shelf, form.pipeline_name())?;
    let mut account = Account::new(alloc, pipeline)?;
    answer_file(
        alloc,
        &mut account,
        form.queries_name(),
        shelf,
        &mut NoDraws::new(),
        out,
    )
}
