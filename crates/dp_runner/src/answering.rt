ghost use Rattle.std.specs.Prelude.{◌≡◌, ◌≢◌, ◌+◌, ◌-◌, ◌≤◌, ◌<◌, ◌^◌, List, ℕ, [], true, false, length, OnOk, IfErr, Some, Ok, Err, option_map};
ghost use Rattle.std.specs.List.{list_any};
ghost use Rattle.std.specs.Option.{ForSome};
ghost use Rattle.dp_count.specs.Faults.{Rose};
ghost use Rattle.dp_io.specs.Lines.{is_line_feed, remaining, needs_read};
ghost use Rattle.dp_law.specs.Releasing.{TakesFront};
ghost use Rattle.dp_runner.specs.Answering.{answered, answered_shape, interrupted, file_answered, file_shape};
ghost use Rattle.dp_runner.specs.Causes.{IsInterrupted, Kept, Runs};
ghost use Rattle.dp_runner.specs.Outcome.{source_at};
ghost use Rattle.dp_runner.specs.Stops.{row_of, is_silent};
ghost use Rattle.dp_runner.specs.Turns.{RunsTo, Turns};

use crate::answerer::Answerer;
use crate::stop::Stop;
use dp_draws::Draws;
use dp_io::{Lines, Shelf, Sink};
use std::alloc::Global;

/// How many query lines there are at most.
const MOST_LINES: u32 = 1 << 20;

/// Answers all query lines of a file by a draw source, from what has answered none, and writes the last line. It reads
/// one line at a time, and writes what it answers before it reads the next. Where a read of the file fails, the line of
/// each query whose line feed was read is written, and no other.
pub(crate) fn answer_file<A: Answerer, S: Shelf, D: Draws, K: Sink>(
    alloc: Global,
    answerer: &mut A,
    name: &str,
    shelf: &mut S,
    draws: &mut D,
    out: &mut K,
) -> Result<(), Stop>
    requires { A.stands answerer.old [] }
    ensures runs { Runs result (S.files shelf.old)
        (λ files. file_answered (source_at D.step (D.state draws.old)) (A.answering answerer.old) files name.now)
        (S.faults shelf.old) (S.faults shelf.new) (K.held out.old) (K.held out.new) (D.state draws.new) }
    ensures taken { result ≢ Err Stop.DrawFault → ForSome (S.files shelf.old) (λ files. TakesFront D.step
        (file_shape (A.answering answerer.old) files name.now) (D.state draws.old) (D.state draws.new)) }
    ensures interrupted { result ≡ Err Stop.ReadFault → S.slots shelf.new ≡ S.slots shelf.old + 1
        → ForSome (S.files shelf.old) (λ files. IsInterrupted (files name.now)
        (S.left shelf.new (S.slots shelf.new - 1))
        (interrupted (source_at D.step (D.state draws.old)) (A.answering answerer.old))
        (K.held out.old) (K.held out.new) (D.state draws.new)) }
    ensures speaks { IfErr result (λ reason. is_silent (row_of reason).status ≡ false) }
    ensures later { S.faults shelf.old ≤ S.faults shelf.new }
    ensures kept { Kept result (S.faults shelf.old) (S.faults shelf.new) }
    ensures opens { S.slots shelf.new ≤ S.slots shelf.old + 1 }
    ensures opened { OnOk result (S.slots shelf.new ≡ S.slots shelf.old + 1) }
    ensures draw_fault { result ≡ Err Stop.DrawFault → Rose (D.faults draws.old) (D.faults draws.new) }
    ensures draws_kept { result ≢ Err Stop.DrawFault → D.faults draws.new ≡ D.faults draws.old }
    ensures write_fault { result ≡ Err Stop.WriteFault → Rose (K.faults out.old) (K.faults out.new) }
    ensures out_later { K.faults out.old ≤ K.faults out.new }
    ensures out_kept { result ≢ Err Stop.WriteFault → K.faults out.new ≡ K.faults out.old }
{
    let slot = shelf.open(alloc, name)?;
    let mut lines = Lines::new(alloc, slot)?;
    answer_lines(alloc, answerer, &mut lines, shelf, draws, out)
}

/// Answers all query lines that remain, and writes the last line.
fn answer_lines<A: Answerer, S: Shelf, D: Draws, K: Sink>(
    alloc: Global,
    answerer: &mut A,
    lines: &mut Lines,
    shelf: &mut S,
    draws: &mut D,
    out: &mut K,
) -> Result<(), Stop>
    requires open { lines.old.slot < S.slots shelf.old }
    requires stands { A.stands answerer.old [] }
    ensures runs { RunsTo result
        (option_map (answered (source_at D.step (D.state draws.old)) (A.answering answerer.old))
        (remaining lines.old (S.left shelf.old lines.old.slot)))
        (S.faults shelf.old) (S.faults shelf.new) (K.held out.old) (K.held out.new) (D.state draws.new) }
    ensures taken { result ≢ Err Stop.DrawFault → ForSome (remaining lines.old (S.left shelf.old lines.old.slot))
        (λ text. TakesFront D.step (answered_shape (A.answering answerer.old) text)
        (D.state draws.old) (D.state draws.new)) }
    ensures interrupted { result ≡ Err Stop.ReadFault
        → ForSome (remaining lines.old (S.left shelf.old lines.old.slot)) (λ text. IsInterrupted (Some text)
        (S.left shelf.new lines.old.slot)
        (interrupted (source_at D.step (D.state draws.old)) (A.answering answerer.old))
        (K.held out.old) (K.held out.new) (D.state draws.new)) }
    ensures speaks { IfErr result (λ reason. is_silent (row_of reason).status ≡ false) }
    ensures later { S.faults shelf.old ≤ S.faults shelf.new }
    ensures kept { Kept result (S.faults shelf.old) (S.faults shelf.new) }
    ensures same_slots { S.slots shelf.new ≡ S.slots shelf.old }
    ensures draw_fault { result ≡ Err Stop.DrawFault → Rose (D.faults draws.old) (D.faults draws.new) }
    ensures draws_kept { result ≢ Err Stop.DrawFault → D.faults draws.new ≡ D.faults draws.old }
    ensures write_fault { result ≡ Err Stop.WriteFault → Rose (K.faults out.old) (K.faults out.new) }
    ensures out_later { K.faults out.old ≤ K.faults out.new }
    ensures out_kept { result ≢ Err Stop.WriteFault → K.faults out.new ≡ K.faults out.old }
{
    for _turn in 0..MOST_LINES {
        if !answer_next(alloc, answerer, lines, shelf, draws, out)? {
            return answerer.write_last(out);
        }
    }
    if lines.next(shelf)? {
        return Err(Stop::QueryLimit);
    }
    answerer.write_last(out)
}

/// Reads the next query line and answers it; tells whether there was one.
fn answer_next<A: Answerer, S: Shelf, D: Draws, K: Sink>(
    alloc: Global,
    answerer: &mut A,
    lines: &mut Lines,
    shelf: &mut S,
    draws: &mut D,
    out: &mut K,
) -> Result<bool, Stop>
    requires open { lines.old.slot < S.slots shelf.old }
    requires stands { (past : List (List ℕ)) × A.stands answerer.old past × (length past < 2 ^ 20) }
    ensures turns { (past : List (List ℕ)) → A.stands answerer.old past
        → Turns result (A.stands answerer.new) (A.answering answerer.old) past
        record { step = D.step; before = D.state draws.old; after = D.state draws.new }
        (remaining lines.old (S.left shelf.old lines.old.slot)) (remaining lines.new (S.left shelf.new lines.old.slot))
        (K.held out.old) (K.held out.new) }
    ensures same { OnOk result (A.answering answerer.new ≡ A.answering answerer.old) }
    ensures unended { result ≡ Ok true → ForSome (remaining lines.old (S.left shelf.old lines.old.slot))
        (λ text. list_any is_line_feed text ≡ false → lines.new.at_end ≡ true) }
    ensures end_stays { lines.old.at_end ≡ true → lines.new.at_end ≡ true }
    ensures failed { result ≡ Err Stop.ReadFault → needs_read lines.new ≡ true }
    ensures same_text { result ≡ Err Stop.ReadFault → remaining lines.new (S.left shelf.new lines.old.slot)
        ≡ remaining lines.old (S.left shelf.old lines.old.slot) }
    ensures speaks { IfErr result (λ reason. is_silent (row_of reason).status ≡ false) }
    ensures rose { result ≡ Err Stop.ReadFault → Rose (S.faults shelf.old) (S.faults shelf.new) }
    ensures later { S.faults shelf.old ≤ S.faults shelf.new }
    ensures kept { Kept result (S.faults shelf.old) (S.faults shelf.new) }
    ensures same_slot { lines.new.slot ≡ lines.old.slot }
    ensures same_slots { S.slots shelf.new ≡ S.slots shelf.old }
    ensures draw_fault { result ≡ Err Stop.DrawFault → Rose (D.faults draws.old) (D.faults draws.new) }
    ensures draws_kept { result ≢ Err Stop.DrawFault → D.faults draws.new ≡ D.faults draws.old }
    ensures write_fault { result ≡ Err Stop.WriteFault → Rose (K.faults out.old) (K.faults out.new) }
    ensures out_later { K.faults out.old ≤ K.faults out.new }
    ensures out_kept { result ≢ Err Stop.WriteFault → K.faults out.new ≡ K.faults out.old }
{
    if !lines.next(shelf)? {
        return Ok(false);
    }
    answerer.answer_line(alloc, lines.line(), draws, out)?;
    Ok(true)
}
