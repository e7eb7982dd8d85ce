ghost use Rattle.std.specs.Prelude.{◌≡◌, ◌<◌, ◌≤◌, false, length, take, slice_index_or, IfOk};
ghost use Rattle.dp_domain.specs.Domains.{Has};
ghost use Rattle.dp_domain.specs.declared.domains.Domain.TheVariants as domain;
ghost use Rattle.dp_domain.specs.declared.values.Value.TheVariants as value;
ghost use Rattle.dp_chain.specs.Lines.{line_value, Runs};
ghost use Rattle.dp_chain.specs.Meanings.{stage_mappings};
ghost use Rattle.dp_chain.specs.declared.any_transformation.AnyTransformation.{AnyTransformation};
ghost use Rattle.dp_store.specs.Held.{held_value, IsHeld};
ghost use Rattle.dp_store.specs.Rowwise.{is_rowwise, AllRowwise};
ghost use Rattle.dp_store.specs.Selections.{IsSelection, selected};
ghost use Rattle.dp_store.specs.Taken.{TakesColumns, AllTakeColumns};

use crate::element::is_rowwise;
use crate::held::Held;
use crate::pass::{counted, listed};
use crate::selection::Selection;
use crate::store::Store;
use dp_chain::{AnyTransformation, Line};
use dp_count::NoMemory;
use dp_domain::Value;
use dp_law::Transformation;
use std::alloc::Global;

impl Store {
    /// What a line gives of the selected records, from records of the store's columns. Records that it leaves are a
    /// selection, and no record is copied for a filter, a truncation or a count of records.
    pub fn hold(&self, alloc: Global, base: &Selection, line: &Line) -> Result<Held, NoMemory>
        requires base { IsSelection self.now.records base.now }
        requires domain { let m = ⟦<Line as Transformation>⟧.mapping line.now in
            m.input_domain ≡ domain.Rows self.now.columns }
        ensures value { let m = ⟦<Line as Transformation>⟧.mapping line.now in
            IfOk result (λ held. held_value self.now.records held
            ≡ m.function (value.Rows (selected self.now.records base.now))) }
        ensures held { IfOk result (IsHeld self.now.records) }
    {
        let _columns = self.columns();
        hold_stages(alloc, self, base, line.stages())
    }

    /// What a line gives of the selected records, from records of the store's columns, as a value in memory of its
    /// own.
    pub fn scan(&self, alloc: Global, base: &Selection, line: &Line) -> Result<Value, NoMemory>
        requires base { IsSelection self.now.records base.now }
        requires domain { let m = ⟦<Line as Transformation>⟧.mapping line.now in
            m.input_domain ≡ domain.Rows self.now.columns }
        ensures { let m = ⟦<Line as Transformation>⟧.mapping line.now in
            IfOk result (λ v. v ≡ m.function (value.Rows (selected self.now.records base.now))) }
    {
        self.hold(alloc, base, line)?.into_value(alloc, self)
    }
}

/// What transformations give of the selected records, one after the other.
fn hold_stages(
    alloc: Global,
    store: &Store,
    base: &Selection,
    stages: &[AnyTransformation],
) -> Result<Held, NoMemory>
    requires base { IsSelection store.now.records base.now }
    requires columns { AllTakeColumns store.now.columns stages.now }
    requires runs { Runs (stage_mappings stages.now) (value.Rows (selected store.now.records base.now)) }
    ensures value { IfOk result (λ held. held_value store.now.records held
        ≡ line_value (stage_mappings stages.now) (value.Rows (selected store.now.records base.now))) }
    ensures held { IfOk result (IsHeld store.now.records) }
{
    let mut held = Held::Chosen(base.clone()?);
    let mut place = 0;
    while place < stages.len() {
        let (next, used) = hold_next(alloc, store, held, &stages[place..])?;
        held = next;
        place += used;
    }
    Ok(held)
}

/// What the first of the transformations give, and how many these are.
fn hold_next(
    alloc: Global,
    store: &Store,
    held: Held,
    stages: &[AnyTransformation],
) -> Result<(Held, usize), NoMemory>
    requires some { 1 ≤ length stages.now }
    requires held { IsHeld store.now.records held }
    requires columns { AllTakeColumns store.now.columns stages.now }
    requires runs { Runs (stage_mappings stages.now) (held_value store.now.records held) }
    ensures used { IfOk result (λ next. (1 ≤ next.1) × (next.1 ≤ length stages.now)) }
    ensures value { IfOk result (λ next. held_value store.now.records next.0
        ≡ line_value (stage_mappings (take next.1 stages.now)) (held_value store.now.records held)) }
    ensures held { IfOk result (λ next. IsHeld store.now.records next.0) }
{
    match held {
        Held::Chosen(chosen) => hold_of_records(alloc, store, &chosen, stages),
        Held::Plain(v) => Ok((Held::Plain(stages[0].apply(alloc, &v)?), 1)),
    }
}

/// What the first of the transformations give of the selected records, and how many these are. Those that give at most
/// one element for each are done in one pass, with a count behind them, if there is one.
fn hold_of_records(
    alloc: Global,
    store: &Store,
    chosen: &Selection,
    stages: &[AnyTransformation],
) -> Result<(Held, usize), NoMemory>
    requires some { 1 ≤ length stages.now }
    requires chosen { IsSelection store.now.records chosen.now }
    requires columns { AllTakeColumns store.now.columns stages.now }
    requires runs { Runs (stage_mappings stages.now) (value.Rows (selected store.now.records chosen.now)) }
    ensures used { IfOk result (λ next. (1 ≤ next.1) × (next.1 ≤ length stages.now)) }
    ensures value { IfOk result (λ next. held_value store.now.records next.0 ≡ line_value
        (stage_mappings (take next.1 stages.now)) (value.Rows (selected store.now.records chosen.now))) }
    ensures held { IfOk result (λ next. IsHeld store.now.records next.0) }
{
    let front = rowwise_len(stages);
    if front == 0 {
        return Ok((hold_whole(alloc, store, chosen, &stages[0])?, 1));
    }
    if let Some(AnyTransformation::Count(_)) = stages.get(front) {
        let count = counted(store, chosen, &stages[..front]);
        return Ok((Held::Plain(Value::Int(count as i64)), front + 1));
    }
    let listing = listed(alloc, store, chosen, &stages[..front])?;
    Ok((listing.into_held()?, front))
}

/// How many of the transformations, from the first on, give at most one element for each element of a list.
fn rowwise_len(stages: &[AnyTransformation]) -> usize
    ensures within { result ≤ length stages.now }
    ensures front { AllRowwise (take result stages.now) }
    ensures end { (stage : AnyTransformation) → result < length stages.now →
        is_rowwise (slice_index_or stages.now result stage) ≡ false }
{
    for (k, stage) in stages.iter().enumerate() {
        if !is_rowwise(stage) {
            return k;
        }
    }
    stages.len()
}

/// What a transformation gives of the selected records that looks at all of them.
fn hold_whole(
    alloc: Global,
    store: &Store,
    chosen: &Selection,
    stage: &AnyTransformation,
) -> Result<Held, NoMemory>
    requires chosen { IsSelection store.now.records chosen.now }
    requires whole { is_rowwise stage.now ≡ false }
    requires columns { TakesColumns store.now.columns stage.now }
    requires runs { let m = ⟦<AnyTransformation as Transformation>⟧.mapping stage.now in
        Has m.input_domain (value.Rows (selected store.now.records chosen.now)) }
    ensures value { let m = ⟦<AnyTransformation as Transformation>⟧.mapping stage.now in
        IfOk result (λ next. held_value store.now.records next
        ≡ m.function (value.Rows (selected store.now.records chosen.now))) }
    ensures held { IfOk result (IsHeld store.now.records) }
{
    match stage {
        AnyTransformation::Truncate(part) => {
            let left = store.truncate(alloc, chosen, part.column(), part.most())?;
            Ok(Held::Chosen(left))
        }
        AnyTransformation::Count(_) => Ok(Held::Plain(Value::Int(chosen.len() as i64))),
        _ => unreachable!(),
    }
}
