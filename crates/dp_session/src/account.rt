ghost use Rattle.std.specs.Prelude.{◌≡◌, ◌≢◌, ◌↔◌, ◌+◌, ◌≤◌, ◌<◌, ◌^◌, [], ◌∷◌, List, ℕ, true, false, IfOk, OnOk, OnErr, IsErr, length, string_bytes};
ghost use Rattle.dp_count.specs.Faults.{Rose};
ghost use Rattle.dp_io.specs.Sink.{appended};
ghost use Rattle.dp_pipeline.specs.declared.content.Content.{Content};
ghost use Rattle.dp_session.specs.Verdicts.{verdict, root_spent};
ghost use Rattle.dp_session.specs.QueryLines.{account_line, end_line};
ghost use Rattle.dp_session.specs.Settling.{StandAt, Settles, IfSettled};
ghost use Rattle.dp_session.specs.Accounts.{IsAccountAt, WritesLine, WritesEnd};

use crate::end_line::end_line;
use crate::faults::{AccountFault, EndFault, JudgeFault};
use crate::queries::Queries;
use crate::text::{admitted_line, refused_line};
use dp_count::{Failed, NoMemory};
use dp_io::{Sink, write_all};
use dp_num::Steps;
use dp_pipeline::Pipeline;
use std::alloc::Global;
use std::marker::{Brand, Model};
use std::sync::ledger::{Blank, Ledger};

/// The verdicts of queries on a pipeline and what they cost, without data and without draws.
#[derive(Drop)]
pub struct Account {
    queries: Queries,
    ended: bool,
}

impl Model for Account {
    ghost use Rattle.dp_session.specs.Accounts.{AccountValue};

    ghost Value = { AccountValue };

    ghost view = { λ account. record { queries = account.queries; ended = account.ended } };
}

impl Account {
    /// The account of a pipeline, at no queries.
    pub fn new(alloc: Global, pipeline: Pipeline) -> Result<Account, NoMemory>
        ensures { IfOk result (λ account. IsAccountAt account pipeline []) }
    {
        let queries = Queries::new(alloc, pipeline)?;
        Ok(Account {
            queries,
            ended: false,
        })
    }

    /// Answers the next query, of which the line is given without its line feed, and writes its line. A refused query
    /// has its line too. Fewer than 2^20 queries were answered before.
    ///
    /// `Ended` comes exactly where an earlier call answered a fault or the last line was asked for. `WriteFault` comes
    /// only where the sink's count of faults rose; a front of the line is written then. `NoMemory` writes nothing.
    /// After any of them the account has ended.
    pub fn line<K: Sink>(
        &mut self,
        alloc: Global,
        line: &[u8],
        out: &mut K,
    ) -> Result<(), AccountFault>
        requires { self.old.queries.answered < 2 ^ 20 }
        ensures line { (pipeline : Content) (past : List (List ℕ)) → IsAccountAt self.old pipeline past
            → WritesLine result (account_line pipeline past line.now) (K.held out.old) (K.held out.new) }
        ensures stands { (pipeline : Content) (past : List (List ℕ)) → IsAccountAt self.old pipeline past
            → OnOk result (IsAccountAt self.new pipeline (line.now ∷ past)) }
        ensures counted { OnOk result (self.new.queries.answered ≡ self.old.queries.answered + 1) }
        ensures at_most { self.new.queries.answered ≤ self.old.queries.answered + 1 }
        ensures ended { (result ≡ Err AccountFault.Ended) ↔ (self.old.ended ≡ true) }
        ensures ends { OnErr result (self.new.ended ≡ true) }
        ensures nothing { result ≢ Ok tt → result ≢ Err AccountFault.WriteFault → out.new ≡ out.old }
        ensures write_fault { result ≡ Err AccountFault.WriteFault → Rose (K.faults out.old) (K.faults out.new) }
        ensures kept { result ≢ Err AccountFault.WriteFault → K.faults out.new ≡ K.faults out.old }
        ensures later { K.faults out.old ≤ K.faults out.new }
    {
        if self.ended {
            return Err(AccountFault::Ended);
        }
        self.ended = true;
        let text = line_text::<Brand>(alloc, &mut self.queries, line, Blank::new(1))?;
        write_all(out, text.as_bytes())?;
        self.ended = false;
        Ok(())
    }

    /// Writes the last line: how many queries there were, and what the root has spent. It has ended then. Takes no
    /// memory; the faults come as those of `line` do.
    pub fn end<K: Sink>(&mut self, out: &mut K) -> Result<(), EndFault>
        ensures line { (pipeline : Content) (past : List (List ℕ)) → IsAccountAt self.old pipeline past
            → WritesEnd result (end_line (length past) (root_spent pipeline past)) (K.held out.old) (K.held out.new) }
        ensures ended { (result ≡ Err EndFault.Ended) ↔ (self.old.ended ≡ true) }
        ensures ends { self.new.ended ≡ true }
        ensures nothing { result ≡ Err EndFault.Ended → out.new ≡ out.old }
        ensures write_fault { result ≡ Err EndFault.WriteFault → Rose (K.faults out.old) (K.faults out.new) }
        ensures kept { result ≢ Err EndFault.WriteFault → K.faults out.new ≡ K.faults out.old }
        ensures later { K.faults out.old ≤ K.faults out.new }
    {
        if self.ended {
            return Err(EndFault::Ended);
        }
        self.ended = true;
        let line = end_line(self.queries.answered(), self.queries.spent());
        match write_all(out, line.as_str().as_bytes()) {
            Ok(()) => Ok(()),
            Err(_) => Err(EndFault::WriteFault),
        }
    }
}

/// Settles the query of a line, and gives its line.
fn line_text<L: Ledger>(
    alloc: Global,
    queries: &mut Queries,
    line: &[u8],
    blank: Blank,
) -> Result<String, NoMemory>
    requires name { blank.name ≡ L.name }
    requires parts { blank.parts ≡ L.parts }
    requires counts { 0 < L.parts }
    requires few { queries.old.answered < 2 ^ 20 }
    ensures text { (past : List (List ℕ)) → StandAt queries.old past
        → IfOk result (λ text. string_bytes text ≡ account_line queries.old.pipeline past line.now) }
    ensures stands { (past : List (List ℕ)) → StandAt queries.old past
        → OnOk result (StandAt queries.new (line.now ∷ past)) }
    ensures same { queries.new.pipeline ≡ queries.old.pipeline }
    ensures counted { queries.new.answered ≡ queries.old.answered + 1 }
{
    let mut steps = Steps::<L>::new(blank);
    match queries.settle(alloc, line, &mut steps) {
        Ok(work) => admitted_line(
            alloc,
            queries.answered(),
            &work.task,
            work.cost,
            queries.spent(),
        ),
        Err(JudgeFault::Refused(refused)) => refused_line(alloc, queries.answered(), &refused),
        Err(JudgeFault::NoMemory) => Err(NoMemory),
    }
}
