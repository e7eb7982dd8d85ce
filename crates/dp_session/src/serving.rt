ghost use Rattle.std.specs.Prelude.{◌≡◌, ◌<◌, ◌||◌, ◌++◌, ℕ, Some, None, string_bytes, IfOk, OnOk, IsSome, nat_le, if◌then◌else◌, codes};
ghost use Rattle.dp_domain.specs.declared.values.Value.{Value};
ghost use Rattle.dp_store.specs.Held.{held_value, IsHeld};
ghost use Rattle.dp_session.specs.Serving.{Serves, Suits, task_slot, release_slot, value_then};
ghost use Rattle.dp_session.specs.SessionLines.{answered_text};
ghost use Rattle.dp_session.specs.Sessions.{MakesText, DrawCause};
ghost use Rattle.dp_session.specs.Values.{held_of, value_of, AreHeld};
ghost use Rattle.dp_session.specs.Works.{task_of};

use crate::answer::answer_text;
use crate::faults::SessionFault;
use crate::task::Task;
use crate::values::Values;
use dp_chain::{Input, Line, Release};
use dp_count::NoMemory;
use dp_domain::Value;
use dp_draws::Draws;
use dp_law::{Answer, Measurement, ReleaseFault, Transformation};
use dp_store::{Held, Store};
use std::alloc::Global;

/// A node's value, as it is held over the records of a store.
#[derive(Clone, Copy)]
pub(crate) struct NodeValue<'a> {
    pub(crate) store: &'a Store,
    pub(crate) held: &'a Held,
}

impl Input for NodeValue<'_> {
    ghost use Rattle.dp_store.specs.Held.{held_value};
    ghost use Rattle.dp_session.specs.Serving.{Suits};

    ghost stands_for = { λ node. held_value node.store.now.records node.held.now };

    ghost takes = { λ node domain. Suits node.store.now node.held.now domain };

    fn through(&self, alloc: Global, line: &Line) -> Result<Value, NoMemory> {
        match self.held {
            Held::Chosen(base) => self.store.scan(alloc, base, line),
            Held::Plain(v) => line.apply(alloc, v),
        }
    }

    ghost has_value = { λ node domain suits. suits.has };
}

/// Does what an accepted query of that number asks for of the value of its node, and gives what is written of it. The
/// draws of a release are taken, and a child's value is held. Unless all values stay, those of the nodes after the
/// query's node are let go.
pub(crate) fn serve<D: Draws>(
    alloc: Global,
    store: &Store,
    values: &mut Values,
    all_stay: bool,
    number: u32,
    node: u64,
    task: &Task,
    draws: &mut D,
) -> Result<String, SessionFault>
    requires serves { Serves store.now values.old node (task_of task.now) }
    requires next { (i : ℕ) → IsSome (held_of values.old i) → i < number }
    requires held { AreHeld store.now.records values.old }
    ensures text { (v : Value) → value_of store.now.records values.old node ≡ Some v
        → MakesText string_bytes result
        record { step = D.step; before = D.state draws.old; after = D.state draws.new }
        (task_slot v (task_of task.now)) }
    ensures values { (v : Value) → value_of store.now.records values.old node ≡ Some v
        → OnOk result ((i : ℕ) → value_of store.now.records values.new i
        ≡ value_then all_stay number node v (task_of task.now) i (value_of store.now.records values.old i)) }
    ensures held { OnOk result (AreHeld store.now.records values.new) }
    ensures cause { DrawCause result (D.faults draws.old) (D.faults draws.new) }
{
    match task {
        Task::Release(release) => {
            let text = release_text(alloc, store, node_held(values, node), release, draws)?;
            let_go(values, all_stay, node);
            Ok(text)
        }
        Task::Child(line) => {
            let held = child_held(alloc, store, node_held(values, node), line)?;
            let_go(values, all_stay, node);
            values.push(number, held)?;
            Ok(node_text(alloc)?)
        }
    }
}

/// What is held of a node.
fn node_held(values: &Values, node: u64) -> &Held
    requires { IsSome (held_of values.now node) }
    ensures { held_of values.now node ≡ Some result.now }
{
    let Some(held) = values.get(node) else {
        unreachable!()
    };
    held
}

/// Lets go what is held of the nodes after a node, unless all stays.
fn let_go(values: &mut Values, all_stay: bool, node: u64)
    requires { IsSome (held_of values.old node) }
    ensures { (i : ℕ) → held_of values.new i
        ≡ (if all_stay || nat_le i node then held_of values.old i else None) }
{
    if !all_stay {
        values.keep_to(node);
    }
}

/// What is written of an opened child.
fn node_text(alloc: Global) -> Result<String, NoMemory>
    ensures { IfOk result (λ text. string_bytes text ≡ codes "node") }
{
    Ok(format!(in alloc; "node")?)
}

/// The value of a child, as it is held: what a line gives of its parent's.
fn child_held(alloc: Global, store: &Store, held: &Held, line: &Line) -> Result<Held, NoMemory>
    requires { let m = ⟦<Line as Transformation>⟧.mapping line.now in Suits store.now held.now m.input_domain }
    ensures value { let m = ⟦<Line as Transformation>⟧.mapping line.now in IfOk result (λ child.
        held_value store.now.records child ≡ m.function (held_value store.now.records held.now)) }
    ensures held { IfOk result (IsHeld store.now.records) }
{
    match held {
        Held::Chosen(base) => store.hold(alloc, base, line),
        Held::Plain(v) => Ok(Held::Plain(line.apply(alloc, v)?)),
    }
}

/// Makes a release on a value that is held, and gives what is written of its answer.
fn release_text<D: Draws>(
    alloc: Global,
    store: &Store,
    held: &Held,
    release: &Release,
    draws: &mut D,
) -> Result<String, SessionFault>
    requires { let m = ⟦<Release as Measurement>⟧.mechanism release.now in Suits store.now held.now m.input_domain }
    ensures text { let m = ⟦<Release as Measurement>⟧.mechanism release.now in MakesText string_bytes result
        record { step = D.step; before = D.state draws.old; after = D.state draws.new }
        (release_slot (held_value store.now.records held.now) m) }
    ensures cause { DrawCause result (D.faults draws.old) (D.faults draws.new) }
{
    let at = NodeValue { store, held };
    match release.release_from(alloc, &at, draws) {
        Ok(answer) => Ok(answered_text(alloc, &answer)?),
        Err(ReleaseFault::DrawFault) => Err(SessionFault::DrawFault),
        Err(ReleaseFault::NoMemory) => Err(SessionFault::NoMemory),
    }
}

/// What is written of a release's answer.
pub(crate) fn answered_text(alloc: Global, answer: &Answer) -> Result<String, NoMemory>
    ensures { IfOk result (λ text. string_bytes text ≡ answered_text answer.now) }
{
    let text = answer_text(alloc, answer)?;
    Ok(format!(in alloc; "answer {text}")?)
}
