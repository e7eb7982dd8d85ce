ghost use Rattle.std.specs.Prelude.{◌≡◌, ◌<◌, ℕ, true, List, [], ◌∷◌, length, IfSome};
ghost use Rattle.dp_domain.specs.declared.values.Value.TheVariants as value;
ghost use Rattle.dp_rowwise.specs.Truncate.{record_at};
ghost use Rattle.dp_chain.specs.Lines.{line_value};
ghost use Rattle.dp_chain.specs.Meanings.{stage_mappings};
ghost use Rattle.dp_store.specs.Elements.{element_value, HasElement, IsStoredElement};
ghost use Rattle.dp_store.specs.Rowwise.{is_rowwise, AllRowwise};
ghost use Rattle.dp_store.specs.Taken.{TakesColumns, AllTakeColumns};

use crate::store::Store;
use dp_chain::AnyTransformation;
use dp_law::Transformation;

/// An element of a list of records, by its number, of texts, of numbers or of categories.
#[derive(Clone, Copy)]
pub(crate) enum Element<'a> {
    Record(u32),
    Text(&'a [u8]),
    OptInt(Option<i64>),
    Int(i64),
    Cat(u32),
}

/// Whether the transformation gives at most one element for each element of a list.
pub(crate) fn is_rowwise(stage: &AnyTransformation) -> bool
    ensures { result ≡ is_rowwise stage.now }
{
    match stage {
        AnyTransformation::Filter(_)
        | AnyTransformation::Select(_)
        | AnyTransformation::Cast(_)
        | AnyTransformation::Categories(_)
        | AnyTransformation::Impute(_)
        | AnyTransformation::DropNone(_)
        | AnyTransformation::Clamp(_)
        | AnyTransformation::Bins(_) => true,
        _ => false,
    }
}

/// What the transformations give of a record, one after the other.
pub(crate) fn element_of<'a>(
    store: &'a Store,
    stages: &[AnyTransformation],
    number: u32,
) -> Option<Element<'a>>
    requires number { number < length store.now.records }
    requires rowwise { AllRowwise stages.now }
    requires columns { AllTakeColumns store.now.columns stages.now }
    ensures value { HasElement store.now.records result
        (line_value (stage_mappings stages.now) (value.Rows (record_at store.now.records number ∷ []))) }
    ensures stored { IfSome result (IsStoredElement store.now.records) }
{
    let mut element = Element::Record(number);
    for stage in stages {
        let Some(next) = next_element(store, stage, element) else {
            return None;
        };
        element = next;
    }
    Some(element)
}

/// What a transformation gives of an element.
fn next_element<'a>(
    store: &'a Store,
    stage: &AnyTransformation,
    element: Element<'a>,
) -> Option<Element<'a>>
    requires rowwise { is_rowwise stage.now ≡ true }
    requires columns { TakesColumns store.now.columns stage.now }
    requires stored { IsStoredElement store.now.records element }
    ensures value { let m = ⟦<AnyTransformation as Transformation>⟧.mapping stage.now in
        HasElement store.now.records result (m.function (element_value store.now.records element.entry)) }
    ensures stored { IfSome result (IsStoredElement store.now.records) }
{
    match element {
        Element::Record(number) => of_record(store, stage, number),
        Element::Text(text) => of_text(stage, text),
        Element::OptInt(number) => of_opt_int(stage, number),
        Element::Int(number) => Some(of_int(stage, &number)),
        Element::Cat(number) => Some(Element::Cat(number)),
    }
}

/// What a transformation gives of a record.
fn of_record<'a>(store: &'a Store, stage: &AnyTransformation, number: u32) -> Option<Element<'a>>
    requires rowwise { is_rowwise stage.now ≡ true }
    requires columns { TakesColumns store.now.columns stage.now }
    requires number { number < length store.now.records }
    ensures value { let m = ⟦<AnyTransformation as Transformation>⟧.mapping stage.now in
        HasElement store.now.records result
        (m.function (value.Rows (record_at store.now.records number ∷ []))) }
    ensures stored { IfSome result (IsStoredElement store.now.records) }
{
    match stage {
        AnyTransformation::Filter(part) => {
            if store.cell(number, part.column()) == part.text() {
                Some(Element::Record(number))
            } else {
                None
            }
        }
        AnyTransformation::Select(part) => Some(Element::Text(store.cell(number, part.column()))),
        _ => Some(Element::Record(number)),
    }
}

/// What a transformation gives of a text.
fn of_text<'a>(stage: &AnyTransformation, text: &'a [u8]) -> Option<Element<'a>>
    requires { is_rowwise stage.now ≡ true }
    ensures value { let m = ⟦<AnyTransformation as Transformation>⟧.mapping stage.now in
        (rows : List (List (List ℕ))) → HasElement rows result (m.function (value.Texts (text.now ∷ []))) }
    ensures stored { (rows : List (List (List ℕ))) → IfSome result (IsStoredElement rows) }
{
    match stage {
        AnyTransformation::Cast(part) => Some(Element::OptInt(part.number(text))),
        AnyTransformation::Categories(part) => Some(Element::Cat(part.number(text))),
        _ => Some(Element::Text(text)),
    }
}

/// What a transformation gives of a number that may be missing.
fn of_opt_int<'a>(stage: &AnyTransformation, number: Option<i64>) -> Option<Element<'a>>
    requires { is_rowwise stage.now ≡ true }
    ensures value { let m = ⟦<AnyTransformation as Transformation>⟧.mapping stage.now in
        (rows : List (List (List ℕ))) → HasElement rows result (m.function (value.OptInts (number ∷ []))) }
    ensures stored { (rows : List (List (List ℕ))) → IfSome result (IsStoredElement rows) }
{
    match stage {
        AnyTransformation::Impute(part) => Some(Element::Int(part.number(&number))),
        AnyTransformation::DropNone(_) => Some(Element::Int(number?)),
        _ => Some(Element::OptInt(number)),
    }
}

/// What a transformation gives of a number.
fn of_int<'a>(stage: &AnyTransformation, number: &i64) -> Element<'a>
    requires { is_rowwise stage.now ≡ true }
    ensures value { let m = ⟦<AnyTransformation as Transformation>⟧.mapping stage.now in
        (rows : List (List (List ℕ))) → element_value rows result ≡ m.function (value.Ints (number.now ∷ [])) }
    ensures stored { (rows : List (List (List ℕ))) → IsStoredElement rows result }
{
    match stage {
        AnyTransformation::Clamp(part) => Element::Int(part.number(number)),
        AnyTransformation::Bins(part) => Element::Cat(part.number(number)),
        _ => Element::Int(*number),
    }
}
