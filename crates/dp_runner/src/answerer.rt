ghost use Rattle.std.specs.Prelude.{◌≡◌, ◌≢◌, ◌↔◌, ◌≤◌, ◌<◌, ◌^◌, ◌∷◌, List, ℕ, length, true, false, OnOk, IfErr, Err};
ghost use Rattle.dp_count.specs.Faults.{Rose};
ghost use Rattle.dp_domain.specs.declared.values.Value.TheVariants as value;
ghost use Rattle.dp_pipeline.specs.declared.content.Content.{Content};
ghost use Rattle.dp_session.specs.SessionLines.{session_slot};
ghost use Rattle.dp_session.specs.Sessions.{IsSessionAt, AnswersLine};
ghost use Rattle.dp_runner.specs.Answering.{Answering};
ghost use Rattle.dp_runner.specs.Stops.{row_of, is_silent};
ghost use Rattle.dp_runner.specs.Turns.{AnswersSlot, Ends, WritesLines};

use crate::stop::Stop;
use dp_draws::Draws;
use dp_io::Sink;
use dp_num::Steps;
use dp_session::{Account, AccountFault, EndFault, Session, SessionFault};
use std::alloc::Global;
use std::marker::Brand;
use std::sync::ledger::{Blank, Ledger};

/// What answers query lines one after the other: an account, or a session.
pub(crate) trait Answerer {
    // how it answers each line, by those before
    ghost answering: { Self → Answering };

    // the lines that it has answered, newest first
    ghost stands: { Self → List (List ℕ) → Type 0 };

    /// Answers the next line, which is given without its line feed, after fewer than 2^20 others. A fault is an output
    /// that failed, a draw that was not given, or want of memory.
    fn answer_line<D: Draws, K: Sink>(
        &mut self,
        alloc: Global,
        line: &[u8],
        draws: &mut D,
        out: &mut K,
    ) -> Result<(), Stop>
        requires { (past : List (List ℕ)) × stands self.old past × (length past < 2 ^ 20) }
        ensures line { (past : List (List ℕ)) → stands self.old past → let answers = answering self.old in
            AnswersSlot result record { step = D.step; before = D.state draws.old; after = D.state draws.new }
            (answers.slot past line.now) (K.held out.old) (K.held out.new) }
        ensures answered { (past : List (List ℕ)) → stands self.old past
            → OnOk result (stands self.new (line.now ∷ past)) }
        ensures same { OnOk result (answering self.new ≡ answering self.old) }
        ensures speaks { IfErr result (λ reason. is_silent (row_of reason).status ≡ false) }
        ensures no_read { result ≢ Err Stop.ReadFault }
        ensures draw_fault { result ≡ Err Stop.DrawFault → Rose (D.faults draws.old) (D.faults draws.new) }
        ensures draws_kept { result ≢ Err Stop.DrawFault → D.faults draws.new ≡ D.faults draws.old }
        ensures write_fault { result ≡ Err Stop.WriteFault → Rose (K.faults out.old) (K.faults out.new) }
        ensures out_later { K.faults out.old ≤ K.faults out.new }
        ensures out_kept { result ≢ Err Stop.WriteFault → K.faults out.new ≡ K.faults out.old };

    /// Writes the last line.
    fn write_last<K: Sink>(&mut self, out: &mut K) -> Result<(), Stop>
        requires { (past : List (List ℕ)) × stands self.old past }
        ensures ends { (past : List (List ℕ)) → stands self.old past → let answers = answering self.old in
            Ends result (answers.last_line past) (K.held out.old) (K.held out.new) }
        ensures only { IfErr result (λ reason. reason ≡ Stop.WriteFault) }
        ensures write_fault { result ≡ Err Stop.WriteFault → Rose (K.faults out.old) (K.faults out.new) }
        ensures out_later { K.faults out.old ≤ K.faults out.new }
        ensures out_kept { result ≢ Err Stop.WriteFault → K.faults out.new ≡ K.faults out.old };

    ghost whole_lines: { (answerer : Self) → WritesLines (answering answerer) };
}

impl Answerer for Account {
    ghost use Rattle.dp_session.specs.Accounts.{IsAccountAt};
    ghost use Rattle.dp_runner.specs.Answering.{account_answering};
    ghost use Rattle.dp_runner.specs.AnsweringProof.{account_lines_whole};

    ghost answering = { λ account. account_answering account.queries.pipeline };

    ghost stands = { λ account past. IsAccountAt account account.queries.pipeline past };

    fn answer_line<D: Draws, K: Sink>(
        &mut self,
        alloc: Global,
        line: &[u8],
        draws: &mut D,
        out: &mut K,
    ) -> Result<(), Stop> {
        let _ = draws;
        match self.line(alloc, line, out) {
            Ok(()) => Ok(()),
            Err(AccountFault::WriteFault) => Err(Stop::WriteFault),
            Err(AccountFault::NoMemory) => Err(Stop::NoMemory),
            Err(AccountFault::Ended) => unreachable!(),
        }
    }

    fn write_last<K: Sink>(&mut self, out: &mut K) -> Result<(), Stop> {
        match self.end(out) {
            Ok(()) => Ok(()),
            Err(EndFault::WriteFault) => Err(Stop::WriteFault),
            Err(EndFault::Ended) => unreachable!(),
        }
    }

    ghost whole_lines = { λ account. account_lines_whole account.queries.pipeline };
}

impl Answerer for Session {
    ghost use Rattle.dp_domain.specs.declared.values.Value.TheVariants as value;
    ghost use Rattle.dp_session.specs.Sessions.{IsSessionAt};
    ghost use Rattle.dp_runner.specs.Answering.{session_answering};
    ghost use Rattle.dp_runner.specs.AnsweringProof.{session_lines_whole};

    ghost answering = { λ session. session_answering session.queries.pipeline (value.Rows session.store.records) };

    ghost stands = { λ session past. IsSessionAt session session.queries.pipeline session.store.records past };

    fn answer_line<D: Draws, K: Sink>(
        &mut self,
        alloc: Global,
        line: &[u8],
        draws: &mut D,
        out: &mut K,
    ) -> Result<(), Stop> {
        match answer_by::<D, K, Brand>(self, alloc, line, draws, out, Blank::new(1)) {
            Ok(()) => Ok(()),
            Err(SessionFault::DrawFault) => Err(Stop::DrawFault),
            Err(SessionFault::WriteFault) => Err(Stop::WriteFault),
            Err(SessionFault::NoMemory) => Err(Stop::NoMemory),
            Err(SessionFault::Ended) => unreachable!(),
        }
    }

    fn write_last<K: Sink>(&mut self, out: &mut K) -> Result<(), Stop> {
        match self.end(out) {
            Ok(()) => Ok(()),
            Err(EndFault::WriteFault) => Err(Stop::WriteFault),
            Err(EndFault::Ended) => unreachable!(),
        }
    }

    ghost whole_lines = { λ session. session_lines_whole session.queries.pipeline (value.Rows session.store.records) };
}

/// Answers the next line, and counts the nodes on the way to the root, which nobody reads.
fn answer_by<D: Draws, K: Sink, L: Ledger>(
    session: &mut Session,
    alloc: Global,
    line: &[u8],
    draws: &mut D,
    out: &mut K,
    blank: Blank,
) -> Result<(), SessionFault>
    requires name { blank.name ≡ L.name }
    requires parts { blank.parts ≡ L.parts }
    requires counts { 0 < L.parts }
    requires few { session.old.queries.answered < 2 ^ 20 }
    ensures line { (pipeline : Content) (rows : List (List (List ℕ))) (past : List (List ℕ))
        → IsSessionAt session.old pipeline rows past
        → AnswersLine result record { step = D.step; before = D.state draws.old; after = D.state draws.new }
        (session_slot pipeline (value.Rows rows) past line.now) (K.held out.old) (K.held out.new) }
    ensures stands { (pipeline : Content) (rows : List (List (List ℕ))) (past : List (List ℕ))
        → IsSessionAt session.old pipeline rows past
        → OnOk result (IsSessionAt session.new pipeline rows (line.now ∷ past)) }
    ensures ended { (result ≡ Err SessionFault.Ended) ↔ (session.old.ended ≡ true) }
    ensures draw_fault { result ≡ Err SessionFault.DrawFault → Rose (D.faults draws.old) (D.faults draws.new) }
    ensures draws_kept { result ≢ Err SessionFault.DrawFault → D.faults draws.new ≡ D.faults draws.old }
    ensures write_fault { result ≡ Err SessionFault.WriteFault → Rose (K.faults out.old) (K.faults out.new) }
    ensures kept { result ≢ Err SessionFault.WriteFault → K.faults out.new ≡ K.faults out.old }
    ensures later { K.faults out.old ≤ K.faults out.new }
{
    session.answer(alloc, line, draws, out, &mut Steps::<L>::new(blank))
}
