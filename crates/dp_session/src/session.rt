ghost use Rattle.std.specs.Prelude.{string_bytes, ◌≡◌, ◌≢◌, ◌↔◌, ◌+◌, ◌≤◌, ◌<◌, ◌^◌, [], ◌∷◌, List, ℕ, true, None, Ok, Err, option_map, IfOk, OnOk, OnErr, length};
ghost use Rattle.dp_count.specs.Faults.{Rose};
ghost use Rattle.dp_domain.specs.Domains.{Has};
ghost use Rattle.dp_domain.specs.declared.values.Value.TheVariants as value;
ghost use Rattle.dp_io.specs.Sink.{appended};
ghost use Rattle.dp_pipeline.specs.declared.content.Content.{Content};
ghost use Rattle.dp_pipeline.specs.Accepted.{accepted, root_domain};
ghost use Rattle.dp_pipeline.specs.Queries.{query_of};
ghost use Rattle.dp_session.specs.Verdicts.{root_spent};
ghost use Rattle.dp_session.specs.Privacy.{IsPrivatePipeline};
ghost use Rattle.dp_session.specs.QueryLines.{end_line};
ghost use Rattle.dp_session.specs.Accounts.{WritesEnd};
ghost use Rattle.dp_session.specs.SessionLines.{session_slot};
ghost use Rattle.dp_session.specs.Sessions.{IsSessionAt, AnswersLine, AreAt, AreSomewhere, MakesText, DrawCause, Selects};

use crate::end_line::end_line;
use crate::faults::{EndFault, JudgeFault, SessionFault};
use crate::queries::Queries;
use crate::serving::serve;
use crate::text::{accepted_line, refused_line};
use crate::values::Values;
use dp_count::NoMemory;
use dp_domain::Value;
use dp_draws::Draws;
use dp_io::{Sink, write_all};
use dp_num::Steps;
use dp_pipeline::Pipeline;
use dp_store::{Held, Selection, Store};
use std::alloc::Global;
use std::marker::Model;
use std::sync::ledger::Ledger;

/// The queries of a pipeline, answered on records.
#[derive(Drop)]
pub struct Session {
    queries: Queries,
    store: Store,
    values: Values,
    ended: bool,
}

impl Model for Session {
    ghost use Rattle.std.specs.Prelude.{◌≡◌, false};
    ghost use Rattle.dp_session.specs.Sessions.{SessionValue, AreSomewhere};

    ghost Value = { SessionValue };

    ghost view = { λ session. record {
      queries = session.queries;
      store = session.store;
      values = session.values;
      ended = session.ended;
    } };

    ghost invariant = { λ session. session.ended ≡ false
        → AreSomewhere session.queries session.store session.values };
}

impl Session {
    /// The session of a pipeline on a value of records of its columns, at no queries.
    pub fn new(alloc: Global, pipeline: Pipeline, records: Value) -> Result<Session, NoMemory>
        requires { Has (root_domain pipeline) records }
        ensures { IfOk result (λ session. (rows : List (List (List ℕ))) → records ≡ value.Rows rows
            → IsSessionAt session pipeline rows []) }
    {
        let columns = pipeline.columns().len() as u32;
        let store = Store::from_records(alloc, &records, columns)?;
        Session::over(alloc, pipeline, store)
    }

    /// The session of a pipeline on a store of records of its columns, at no queries.
    pub fn over(alloc: Global, pipeline: Pipeline, store: Store) -> Result<Session, NoMemory>
        requires { store.columns ≡ length pipeline.columns }
        ensures { IfOk result (λ session. IsSessionAt session pipeline store.records []) }
    {
        let _domain = store.domain();
        let whole = store.whole(alloc)?;
        let values = Values::new(alloc, Held::Chosen(whole))?;
        let queries = Queries::new(alloc, pipeline)?;
        Ok(Session {
            queries,
            store,
            values,
            ended: false,
        })
    }

    /// Answers the next query, of which the line is given without its line feed, and writes its line. A refused query
    /// has its line too. The draws of a release are taken before its line is written. Fewer than 2^20 queries were
    /// answered before. It takes at most one step for each node on the way to the root.
    ///
    /// `Ended` comes exactly where an earlier call answered a fault or the last line was asked for. `DrawFault` comes
    /// exactly where the source fails in taking the draws of an accepted ask; nothing is written then. `WriteFault`
    /// comes only where the sink's count of faults rose; a front of the line is written then. `NoMemory` writes
    /// nothing. After any of them the session has ended.
    pub fn answer<D: Draws, K: Sink, L: Ledger>(
        &mut self,
        alloc: Global,
        line: &[u8],
        draws: &mut D,
        out: &mut K,
        steps: &mut Steps<L>,
    ) -> Result<(), SessionFault>
        requires { self.old.queries.answered < 2 ^ 20 }
        ensures line { (pipeline : Content) (rows : List (List (List ℕ))) (past : List (List ℕ))
            → IsSessionAt self.old pipeline rows past
            → AnswersLine result record { step = D.step; before = D.state draws.old; after = D.state draws.new }
            (session_slot pipeline (value.Rows rows) past line.now) (K.held out.old) (K.held out.new) }
        ensures stands { (pipeline : Content) (rows : List (List (List ℕ))) (past : List (List ℕ))
            → IsSessionAt self.old pipeline rows past
            → OnOk result (IsSessionAt self.new pipeline rows (line.now ∷ past)) }
        ensures counted { OnOk result (self.new.queries.answered ≡ self.old.queries.answered + 1) }
        ensures at_most { self.new.queries.answered ≤ self.old.queries.answered + 1 }
        ensures ended { (result ≡ Err SessionFault.Ended) ↔ (self.old.ended ≡ true) }
        ensures ends { OnErr result (self.new.ended ≡ true) }
        ensures nothing { result ≢ Ok tt → result ≢ Err SessionFault.WriteFault → out.new ≡ out.old }
        ensures no_draws { result ≡ Err SessionFault.Ended → draws.new ≡ draws.old }
        ensures draw_fault { result ≡ Err SessionFault.DrawFault → Rose (D.faults draws.old) (D.faults draws.new) }
        ensures draws_kept { result ≢ Err SessionFault.DrawFault → D.faults draws.new ≡ D.faults draws.old }
        ensures write_fault { result ≡ Err SessionFault.WriteFault → Rose (K.faults out.old) (K.faults out.new) }
        ensures kept { result ≢ Err SessionFault.WriteFault → K.faults out.new ≡ K.faults out.old }
        ensures later { K.faults out.old ≤ K.faults out.new }
        ensures few_steps { steps.new ≤ steps.old + 17 }
        ensures no_steps { query_of self.old.queries.pipeline line.now ≡ None → steps.new ≡ steps.old }

        // The pipeline is private, on all data texts and for all queries and replies.
        ensures private { (bytes : List ℕ) → accepted bytes ≡ Ok self.old.queries.pipeline
            → IsPrivatePipeline self.old.queries.pipeline }
    {
        if self.ended {
            return Err(SessionFault::Ended);
        }
        self.ended = true;
        let text = line_text(
            alloc,
            &mut self.queries,
            &self.store,
            &mut self.values,
            line,
            draws,
            steps,
        )?;
        write_all(out, text.as_bytes())?;
        self.ended = false;
        Ok(())
    }

    /// Writes the last line: how many queries there were, and what the root has spent. It has ended then. Takes no
    /// memory; the faults come as those of `answer` do.
    pub fn end<K: Sink>(&mut self, out: &mut K) -> Result<(), EndFault>
        ensures line { (pipeline : Content) (rows : List (List (List ℕ))) (past : List (List ℕ))
            → IsSessionAt self.old pipeline rows past
            → WritesEnd result (end_line (length past) (root_spent pipeline past)) (K.held out.old) (K.held out.new) }
        ensures ended { (result ≡ Err EndFault.Ended) ↔ (self.old.ended ≡ true) }
        ensures ends { self.new.ended ≡ true }
        ensures nothing { result ≡ Err EndFault.Ended → out.new ≡ out.old }
        ensures write_fault { result ≡ Err EndFault.WriteFault → Rose (K.faults out.old) (K.faults out.new) }
        ensures kept { result ≢ Err EndFault.WriteFault → K.faults out.new ≡ K.faults out.old }
        ensures later { K.faults out.old ≤ K.faults out.new }
    {
        if self.ended {
            return Err(EndFault::Ended);
        }
        self.ended = true;
        let line = end_line(self.queries.answered(), self.queries.spent());
        match write_all(out, line.as_str().as_bytes()) {
            Ok(()) => Ok(()),
            Err(_) => Err(EndFault::WriteFault),
        }
    }

    /// The records.
    pub fn store(&self) -> &Store
        ensures { result.now ≡ self.now.store }
    {
        &self.store
    }

    /// The selection of records that is held of a node. `None` comes exactly where the session has ended, there is no
    /// node of that number, it is frozen, or its value is not one of records.
    pub fn selection(&self, node: u64) -> Option<&Selection>
        ensures selects { (pipeline : Content) (rows : List (List (List ℕ))) (past : List (List ℕ))
            → IsSessionAt self.now pipeline rows past
            → Selects (option_map (λ selection. selection.now) result) pipeline rows past node }
        ensures ended { self.now.ended ≡ true → result ≡ None }
    {
        if self.ended {
            return None;
        }
        match self.values.get(node)? {
            Held::Chosen(selection) => Some(selection),
            Held::Plain(_) => None,
        }
    }
}

/// Settles the query of a line, does what it asks for, and gives its line.
fn line_text<D: Draws, L: Ledger>(
    alloc: Global,
    queries: &mut Queries,
    store: &Store,
    values: &mut Values,
    line: &[u8],
    draws: &mut D,
    steps: &mut Steps<L>,
) -> Result<String, SessionFault>
    requires somewhere { AreSomewhere queries.old store.now values.old }
    requires few { queries.old.answered < 2 ^ 20 }
    ensures text { (past : List (List ℕ)) → AreAt queries.old store.now values.old past
        → MakesText string_bytes result
        record { step = D.step; before = D.state draws.old; after = D.state draws.new }
        (session_slot queries.old.pipeline (value.Rows store.now.records) past line.now) }
    ensures at { (past : List (List ℕ)) → AreAt queries.old store.now values.old past
        → OnOk result (AreAt queries.new store.now values.new (line.now ∷ past)) }
    ensures same { queries.new.pipeline ≡ queries.old.pipeline }
    ensures counted { queries.new.answered ≡ queries.old.answered + 1 }
    ensures few_steps { steps.new ≤ steps.old + 17 }
    ensures no_steps { query_of queries.old.pipeline line.now ≡ None → steps.new ≡ steps.old }
    ensures cause { DrawCause result (D.faults draws.old) (D.faults draws.new) }
{
    let all_stay = queries.pipeline().siblings_open();
    match queries.settle(alloc, line, steps) {
        Ok(work) => {
            let number = queries.answered();
            let done = serve(
                alloc, store, values, all_stay, number, work.node, &work.task, draws,
            )?;
            let spent = queries.spent();
            Ok(accepted_line(alloc, number, done.as_str(), work.cost, spent)?)
        }
        Err(JudgeFault::Refused(refused)) => {
            Ok(refused_line(alloc, queries.answered(), &refused)?)
        }
        Err(JudgeFault::NoMemory) => Err(SessionFault::NoMemory),
    }
}
