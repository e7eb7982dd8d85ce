ghost use Rattle.std.specs.Prelude.{◌≡◌, ◌≤◌, ◌^◌, IfOk};
ghost use Rattle.dp_domain.specs.declared.values.Value.TheVariants as value;
ghost use Rattle.dp_chain.specs.Lines.{line_value};
ghost use Rattle.dp_chain.specs.Meanings.{stage_mappings};
ghost use Rattle.dp_store.specs.Listings.{listing_value, IsStoredListing};
ghost use Rattle.dp_store.specs.Rowwise.{AllRowwise, list_len};
ghost use Rattle.dp_store.specs.Selections.{IsSelection, selected};
ghost use Rattle.dp_store.specs.Taken.{AllTakeColumns};

use crate::element::element_of;
use crate::listing::{Listing, kind_after};
use crate::selection::Selection;
use crate::store::Store;
use dp_chain::AnyTransformation;
use dp_count::NoMemory;
use std::alloc::Global;

/// What the transformations give of the selected records, in one pass over these.
pub(crate) fn listed(
    alloc: Global,
    store: &Store,
    base: &Selection,
    stages: &[AnyTransformation],
) -> Result<Listing, NoMemory>
    requires base { IsSelection store.now.records base.now }
    requires rowwise { AllRowwise stages.now }
    requires columns { AllTakeColumns store.now.columns stages.now }
    ensures value { IfOk result (λ listing. listing_value store.now.records listing
        ≡ line_value (stage_mappings stages.now) (value.Rows (selected store.now.records base.now))) }
    ensures stored { IfOk result (IsStoredListing store.now.records) }
    ensures few { IfOk result (λ listing. list_len (listing_value store.now.records listing) ≤ 2 ^ 30) }
{
    let mut listing = Listing::new(alloc, kind_after(stages));
    for k in 0..base.len() {
        if let Some(element) = element_of(store, stages, base.at(k)) {
            listing.push(alloc, element)?;
        }
    }
    Ok(listing)
}

/// How many elements the transformations give of the selected records, in one pass over these that lists none.
pub(crate) fn counted(store: &Store, base: &Selection, stages: &[AnyTransformation]) -> u64
    requires base { IsSelection store.now.records base.now }
    requires rowwise { AllRowwise stages.now }
    requires columns { AllTakeColumns store.now.columns stages.now }
    ensures count { result ≡ list_len
        (line_value (stage_mappings stages.now) (value.Rows (selected store.now.records base.now))) }
    ensures few { result ≤ 2 ^ 30 }
{
    let mut count = 0;
    for k in 0..base.len() {
        if element_of(store, stages, base.at(k)).is_some() {
            count += 1;
        }
    }
    count
}
