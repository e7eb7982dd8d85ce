ghost use Rattle.std.specs.Prelude.{◌≡◌, ◌≤◌, ◌^◌, ◌++◌, ◌∷◌, ℕ, true, List, []};
ghost use Rattle.std.specs.Prelude.{IfOk, OnOk};
ghost use Rattle.dp_domain.specs.declared.values.Value.TheVariants as value;
ghost use Rattle.dp_chain.specs.Lines.{line_value};
ghost use Rattle.dp_chain.specs.Meanings.{stage_mappings};
ghost use Rattle.dp_store.specs.Elements.{element_value, IsStoredElement};
ghost use Rattle.dp_store.specs.Held.{held_value, IsHeld};
ghost use Rattle.dp_store.specs.Listings.{no_elements, listing_value, IsStoredListing};
ghost use Rattle.dp_store.specs.Rowwise.{is_rowwise, AllRowwise, list_len, joined};

use crate::element::Element;
use crate::held::Held;
use crate::selection::Selection;
use dp_chain::AnyTransformation;
use dp_count::NoMemory;
use dp_domain::{Cats, Ints, OptInts, Text, Texts, Value};
use dp_law::Transformation;
use std::alloc::Global;

/// What the elements of a list are.
#[derive(Clone, Copy)]
pub(crate) enum Kind {
    Records,
    Texts,
    OptInts,
    Ints,
    Cats,
}

/// A list of elements that grows, of records by their numbers.
#[derive(Drop)]
pub(crate) enum Listing {
    Records(Vec<u32>),
    Texts(Vec<Text>),
    OptInts(Vec<Option<i64>>),
    Ints(Vec<i64>),
    Cats(Vec<u32>),
}

/// The kind of the lists that the transformations give of records.
pub(crate) fn kind_after(stages: &[AnyTransformation]) -> Kind
    requires { AllRowwise stages.now }
    ensures { no_elements result ≡ line_value (stage_mappings stages.now) (value.Rows []) }
{
    let mut kind = Kind::Records;
    for stage in stages {
        kind = next_kind(stage, kind);
    }
    kind
}

/// The kind of the lists that a transformation gives of lists of a kind.
fn next_kind(stage: &AnyTransformation, kind: Kind) -> Kind
    requires { is_rowwise stage.now ≡ true }
    ensures { let m = ⟦<AnyTransformation as Transformation>⟧.mapping stage.now in
        no_elements result ≡ m.function (no_elements kind) }
{
    match kind {
        Kind::Records => match stage {
            AnyTransformation::Select(_) => Kind::Texts,
            _ => Kind::Records,
        },
        Kind::Texts => match stage {
            AnyTransformation::Cast(_) => Kind::OptInts,
            AnyTransformation::Categories(_) => Kind::Cats,
            _ => Kind::Texts,
        },
        Kind::OptInts => match stage {
            AnyTransformation::Impute(_) | AnyTransformation::DropNone(_) => Kind::Ints,
            _ => Kind::OptInts,
        },
        Kind::Ints => match stage {
            AnyTransformation::Bins(_) => Kind::Cats,
            _ => Kind::Ints,
        },
        Kind::Cats => Kind::Cats,
    }
}

impl Listing {
    /// The list of a kind without elements, which takes no memory.
    pub(crate) fn new(alloc: Global, kind: Kind) -> Listing
        ensures value { (rows : List (List (List ℕ))) → listing_value rows result ≡ no_elements kind }
        ensures stored { (rows : List (List (List ℕ))) → IsStoredListing rows result }
    {
        match kind {
            Kind::Records => Listing::Records(Vec::new(alloc)),
            Kind::Texts => Listing::Texts(Vec::new(alloc)),
            Kind::OptInts => Listing::OptInts(Vec::new(alloc)),
            Kind::Ints => Listing::Ints(Vec::new(alloc)),
            Kind::Cats => Listing::Cats(Vec::new(alloc)),
        }
    }

    /// Puts an element of the list's kind at the end. One of another kind is left out.
    pub(crate) fn push(&mut self, alloc: Global, element: Element<'_>) -> Result<(), NoMemory>
        ensures value { (rows : List (List (List ℕ))) → OnOk result (listing_value rows self.new
            ≡ joined (listing_value rows self.old) (element_value rows element.entry)) }
        ensures stored { (rows : List (List (List ℕ))) → IsStoredListing rows self.old →
            IsStoredElement rows element.entry → OnOk result (IsStoredListing rows self.new) }
    {
        match (self, element) {
            (Listing::Records(numbers), Element::Record(number)) => append(numbers, number),
            (Listing::Texts(texts), Element::Text(text)) => {
                let copy = Text::from_vec(Vec::from_slice(alloc, text)?);
                append(texts, copy)
            }
            (Listing::OptInts(numbers), Element::OptInt(number)) => append(numbers, number),
            (Listing::Ints(numbers), Element::Int(number)) => append(numbers, number),
            (Listing::Cats(numbers), Element::Cat(number)) => append(numbers, number),
            _ => Ok(()),
        }
    }

    /// The list as what is held of it.
    pub(crate) fn into_held(self) -> Result<Held, NoMemory>
        ensures value { (rows : List (List (List ℕ))) →
            IfOk result (λ held. held_value rows held ≡ listing_value rows self) }
        ensures held { (rows : List (List (List ℕ))) → IsStoredListing rows self →
            list_len (listing_value rows self) ≤ 2 ^ 30 → IfOk result (IsHeld rows) }
    {
        match self {
            Listing::Records(numbers) => Ok(Held::Chosen(Selection::these(numbers)?)),
            Listing::Texts(texts) => Ok(Held::Plain(Value::Texts(Texts::from_vec(texts)))),
            Listing::OptInts(numbers) => Ok(Held::Plain(Value::OptInts(OptInts::from_vec(
                numbers,
            )))),
            Listing::Ints(numbers) => Ok(Held::Plain(Value::Ints(Ints::from_vec(numbers)))),
            Listing::Cats(numbers) => Ok(Held::Plain(Value::Cats(Cats::from_vec(numbers)))),
        }
    }
}

/// Puts an item at the end.
fn append<T: Drop>(list: &mut Vec<T>, item: T) -> Result<(), NoMemory>
    ensures { OnOk result (list.new.items ≡ list.old.items ++ item ∷ []) }
{
    list.push(item)?;
    Ok(())
}
