ghost use Rattle.std.specs.Prelude.{◌≡◌, ◌≢◌, ◌+◌, ◌≤◌, map, string_bytes, OnOk, Ok, Err};
ghost use Rattle.dp_count.specs.Faults.{Rose};
ghost use Rattle.dp_runner.specs.Causes.{Kept, Runs};
ghost use Rattle.dp_runner.specs.Outcome.{Source, written_last};
ghost use Rattle.dp_runner.specs.Check.{check_form, check_form_of, check_written};

use crate::pipelines::pipeline_of;
use crate::stop::Stop;
use dp_io::{Shelf, Sink};
use dp_pipeline::{PrintFault, print_stages};
use std::alloc::Global;
use std::marker::Model;

/// The words of `check P`.
#[derive(Debug, Drop)]
pub(crate) struct CheckForm<'a> {
    pipeline_name: &'a str,
}

impl<'a> Model for CheckForm<'a> {
    ghost use Rattle.dp_runner.specs.Check.{CheckForm};

    ghost Value = { CheckForm };

    ghost view = { λ form. record { pipeline_name = form.pipeline_name.now } };
}

impl CheckForm<'_> {
    /// The name of the file of the pipeline.
    fn pipeline_name(&self) -> &str
        ensures { result.now ≡ self.now.pipeline_name }
    {
        self.pipeline_name
    }
}

/// What the words after `check` say, if they are of its form.
pub(crate) fn check_form(words: &[String]) -> Option<CheckForm<'_>>
    ensures { result ≡ check_form (map string_bytes words.now) }
{
    let [pipeline_name] = words else {
        return None;
    };
    check_form_of(pipeline_name.as_str())
}

/// What one word says, if it is of that form.
fn check_form_of(pipeline_name: &str) -> Option<CheckForm<'_>>
    ensures { result ≡ check_form_of pipeline_name.now }
{
    if pipeline_name.is_empty() {
        return None;
    }
    Some(CheckForm { pipeline_name })
}

/// Writes the stages of the pipeline. No draw is taken from the source that is handed in to the run.
pub(crate) fn run_check<S: Shelf, K: Sink>(
    alloc: Global,
    form: &CheckForm<'_>,
    shelf: &mut S,
    out: &mut K,
) -> Result<(), Stop>
    ensures runs { (source : Source) → Runs result (S.files shelf.old)
        (λ files. written_last source (check_written form.now files)) (S.faults shelf.old) (S.faults shelf.new)
        (K.held out.old) (K.held out.new) source.state }
    ensures no_usage { result ≢ Err Stop.Usage }
    ensures nothing { result ≢ Ok tt → result ≢ Err Stop.WriteFault → K.held out.new ≡ K.held out.old }
    ensures later { S.faults shelf.old ≤ S.faults shelf.new }
    ensures kept { Kept result (S.faults shelf.old) (S.faults shelf.new) }
    ensures opens { S.slots shelf.new ≤ S.slots shelf.old + 1 }
    ensures opened { OnOk result (S.slots shelf.new ≡ S.slots shelf.old + 1) }
    ensures write_fault { result ≡ Err Stop.WriteFault → Rose (K.faults out.old) (K.faults out.new) }
    ensures out_later { K.faults out.old ≤ K.faults out.new }
    ensures out_kept { result ≢ Err Stop.WriteFault → K.faults out.new ≡ K.faults out.old }
{
    let pipeline = pipeline_of(alloc, shelf, form.pipeline_name())?;
    match print_stages(alloc, &pipeline, out) {
        Ok(()) => Ok(()),
        Err(PrintFault::WriteFault) => Err(Stop::WriteFault),
        Err(PrintFault::NoMemory) => Err(Stop::NoMemory),
    }
}
