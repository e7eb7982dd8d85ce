ghost use Rattle.std.specs.Prelude.{◌≡◌, ◌≢◌, ◌+◌, ◌≤◌, ℕ, Option, List, length, string_bytes, true, OnOk, Err};
ghost use Rattle.std.specs.Option.{ForSome};
ghost use Rattle.dp_count.specs.Faults.{Rose};
ghost use Rattle.dp_count.specs.Slots.{Slot};
ghost use Rattle.dp_io.specs.Shelf.{Files};
ghost use Rattle.dp_law.specs.Releasing.{TakesFront};
ghost use Rattle.dp_session.specs.Sessions.{MakesText, DrawCause};
ghost use Rattle.dp_runner.specs.Causes.{Kept, Runs};
ghost use Rattle.dp_runner.specs.OneRelease.{PlanForm, plan_form_of, slot_outcome, release_outcome, release_shape};
ghost use Rattle.dp_runner.specs.Outcome.{source_at};
ghost use Rattle.dp_runner.specs.Sessions.{Opened, stored};
ghost use Rattle.dp_runner.specs.WrittenLines.{are_lines};

use crate::sessions::{open_data, write_lines};
use crate::stop::Stop;
use dp_draws::Draws;
use dp_io::{Shelf, Sink};
use dp_pipeline::Pipeline;
use dp_session::SessionFault;
use dp_store::Store;
use std::alloc::Global;
use std::marker::Model;

/// The words `P DATA PLAN`.
#[derive(Debug, Drop)]
pub(crate) struct PlanForm<'a> {
    pipeline_name: &'a str,
    data_name: &'a str,
    plan: &'a str,
}

impl<'a> Model for PlanForm<'a> {
    ghost use Rattle.dp_runner.specs.OneRelease.{PlanForm};

    ghost Value = { PlanForm };

    ghost view = { λ form. record {
      pipeline_name = form.pipeline_name.now;
      data_name = form.data_name.now;
      plan = form.plan.now;
    } };
}

impl PlanForm<'_> {
    /// The name of the file of the pipeline.
    fn pipeline_name(&self) -> &str
        ensures { result.now ≡ self.now.pipeline_name }
    {
        self.pipeline_name
    }

    /// The name of the file of the data.
    fn data_name(&self) -> &str
        ensures { result.now ≡ self.now.data_name }
    {
        self.data_name
    }

    /// The name of the plan.
    pub(crate) fn plan(&self) -> &str
        ensures { result.now ≡ self.now.plan }
    {
        self.plan
    }
}

/// Two files and a plan, if two words name files.
pub(crate) fn plan_form_of<'a>(
    pipeline_name: &'a str,
    data_name: &'a str,
    plan: &'a str,
) -> Option<PlanForm<'a>>
    ensures { result ≡ plan_form_of pipeline_name.now data_name.now plan.now }
{
    if pipeline_name.is_empty() || data_name.is_empty() {
        return None;
    }
    Some(PlanForm {
        pipeline_name,
        data_name,
        plan,
    })
}

/// One release of a plan on the records of a data file.
pub(crate) trait OneRelease {
    // The words P DATA PLAN.
    ghost names: { Self → PlanForm };

    // By a pipeline and records, the bounds of its draws, and what is written by them.
    ghost slot: { Self → Opened → Slot (List ℕ) };

    /// The words P DATA PLAN.
    fn names(&self) -> &PlanForm<'_>
        ensures { result.now ≡ names self.now };

    /// What is written: the lines of the answer or of the refusal.
    fn text<D: Draws>(
        &self,
        alloc: Global,
        pipeline: &Pipeline,
        store: &Store,
        draws: &mut D,
    ) -> Result<String, SessionFault>
        requires { store.now.columns ≡ length pipeline.now.columns }
        ensures text { MakesText string_bytes result
            record { step = D.step; before = D.state draws.old; after = D.state draws.new }
            (slot self.now (stored pipeline.now store.now)) }
        ensures cause { DrawCause result (D.faults draws.old) (D.faults draws.new) };

    // Whatever the draws, whole lines are written.
    ghost whole_lines: { (release : Self) (found : Opened) (draws : List ℕ)
        → are_lines ((slot release found).out draws) ≡ true };
}

/// Makes one release by the draws that are handed in to the run, and writes its lines.
pub(crate) fn run_release<R: OneRelease, S: Shelf, D: Draws, K: Sink>(
    alloc: Global,
    release: &R,
    shelf: &mut S,
    draws: &mut D,
    out: &mut K,
) -> Result<(), Stop>
    ensures runs { Runs result (S.files shelf.old)
        (λ files. release_outcome (R.names release.now) (R.slot release.now) files
        (source_at D.step (D.state draws.old)))
        (S.faults shelf.old) (S.faults shelf.new) (K.held out.old) (K.held out.new) (D.state draws.new) }
    ensures taken { result ≢ Err Stop.DrawFault → ForSome (S.files shelf.old) (λ files.
        TakesFront D.step (release_shape (R.names release.now) (R.slot release.now) files)
        (D.state draws.old) (D.state draws.new)) }
    ensures no_usage { result ≢ Err Stop.Usage }
    ensures nothing { result ≢ Ok tt → result ≢ Err Stop.WriteFault → K.held out.new ≡ K.held out.old }
    ensures later { S.faults shelf.old ≤ S.faults shelf.new }
    ensures kept { Kept result (S.faults shelf.old) (S.faults shelf.new) }
    ensures opens { S.slots shelf.new ≤ S.slots shelf.old + 2 }
    ensures opened { OnOk result (S.slots shelf.new ≡ S.slots shelf.old + 2) }
    ensures draw_fault { result ≡ Err Stop.DrawFault → Rose (D.faults draws.old) (D.faults draws.new) }
    ensures draws_kept { result ≢ Err Stop.DrawFault → D.faults draws.new ≡ D.faults draws.old }
    ensures write_fault { result ≡ Err Stop.WriteFault → Rose (K.faults out.old) (K.faults out.new) }
    ensures out_later { K.faults out.old ≤ K.faults out.new }
    ensures out_kept { result ≢ Err Stop.WriteFault → K.faults out.new ≡ K.faults out.old }
{
    let names = release.names();
    let (pipeline, store) = open_data(alloc, shelf, names.pipeline_name(), names.data_name())?;
    write_release(alloc, release, &pipeline, &store, draws, out)
}

/// Makes one release on records, and writes its lines.
fn write_release<R: OneRelease, D: Draws, K: Sink>(
    alloc: Global,
    release: &R,
    pipeline: &Pipeline,
    store: &Store,
    draws: &mut D,
    out: &mut K,
) -> Result<(), Stop>
    requires { store.now.columns ≡ length pipeline.now.columns }
    ensures runs { (told : Option Files) (faults : ℕ) → Runs result told
        (λ files. slot_outcome (source_at D.step (D.state draws.old))
        (R.slot release.now (stored pipeline.now store.now)))
        faults faults (K.held out.old) (K.held out.new) (D.state draws.new) }
    ensures taken { result ≢ Err Stop.DrawFault → let slot = R.slot release.now (stored pipeline.now store.now) in
        TakesFront D.step slot.shape (D.state draws.old) (D.state draws.new) }
    ensures no_read { result ≢ Err Stop.ReadFault }
    ensures no_usage { result ≢ Err Stop.Usage }
    ensures nothing { result ≢ Ok tt → result ≢ Err Stop.WriteFault → K.held out.new ≡ K.held out.old }
    ensures draw_fault { result ≡ Err Stop.DrawFault → Rose (D.faults draws.old) (D.faults draws.new) }
    ensures draws_kept { result ≢ Err Stop.DrawFault → D.faults draws.new ≡ D.faults draws.old }
    ensures write_fault { result ≡ Err Stop.WriteFault → Rose (K.faults out.old) (K.faults out.new) }
    ensures out_later { K.faults out.old ≤ K.faults out.new }
    ensures out_kept { result ≢ Err Stop.WriteFault → K.faults out.new ≡ K.faults out.old }
{
    match release.text(alloc, pipeline, store, draws) {
        Ok(text) => write_lines(out, text.as_bytes()),
        Err(SessionFault::DrawFault) => Err(Stop::DrawFault),
        Err(SessionFault::NoMemory) => Err(Stop::NoMemory),
        Err(SessionFault::Ended | SessionFault::WriteFault) => unreachable!(),
    }
}
