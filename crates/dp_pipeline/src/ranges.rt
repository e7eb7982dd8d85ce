ghost use Rattle.std.specs.Prelude.{◌≡◌, length};
ghost use Rattle.std.specs.List.{list_all, list_any};
ghost use Rattle.dp_domain.specs.Distance.{text_eq};
ghost use Rattle.dp_rowwise.specs.Categories.{are_different};
ghost use Rattle.dp_pipeline.specs.Accepted.{is_name_length, few_columns, are_names, are_columns, is_name_byte, is_plan_name, is_rule, is_version, are_plans, is_in_range};

use crate::content::Content;
use crate::plan::Plan;
use crate::root::RootSpec;
use crate::stages::is_text;
use dp_budget::are_mids;
use dp_domain::Text;
use dp_num::Ratio;

/// The greatest number of columns.
const MOST_COLUMNS: usize = 64;

/// The greatest number of plans.
const MOST_PLANS: usize = 256;

/// The greatest number of bytes of a name.
const MOST_NAME: u64 = 64;

/// Whether the numbers and the names are in their ranges.
#[tactic(auto, unfolding(crate::specs::Accepted::is_in_range))]
pub(crate) fn is_in_range(content: &Content) -> bool
    ensures { result ≡ is_in_range content.now }
{
    is_version(content.version)
        && are_columns(content.columns.as_slice())
        && Ratio::new(content.p, content.q).is_ok()
        && is_rule(&content.root)
        && are_plans(content.plans.as_slice())
}

/// Whether there is a form of that version.
fn is_version(version: u64) -> bool
    ensures { result ≡ is_version version }
{
    version == 1 || version == 2
}

/// Whether these are 1 to 64 names of columns.
#[tactic(auto, unfolding(crate::specs::Accepted::are_columns))]
fn are_columns(columns: &[Text]) -> bool
    ensures { result ≡ are_columns columns.now }
{
    few_columns(columns.len()) && are_names(columns)
}

/// Whether the number of columns is from 1 to 64.
fn few_columns(len: usize) -> bool
    ensures { result ≡ few_columns len }
{
    1 <= len && len <= MOST_COLUMNS
}

/// Whether each name has 1 to 64 bytes, and no two are equal.
fn are_names(names: &[Text]) -> bool
    ensures { result ≡ are_names names.now }
{
    are_short(names) && are_different(names)
}

/// Whether each name has 1 to 64 bytes.
fn are_short(names: &[Text]) -> bool
    ensures { result ≡ list_all (λ name. is_name_length (length name)) names.now }
{
    names.iter().all(|name| is_column_name(name))
}

/// Whether the text has 1 to 64 bytes.
fn is_column_name(name: &Text) -> bool
    ensures { result ≡ is_name_length (length name.now) }
{
    1 <= name.len() && name.len() <= MOST_NAME
}

/// Whether no text is equal to one after it.
#[tactic(auto, unfolding(dp_rowwise::specs::Categories::are_different))]
fn are_different(texts: &[Text]) -> bool
    ensures { result ≡ are_different texts.now }
{
    let Some((text, rest)) = texts.split_first() else {
        return true;
    };
    !has_text(rest, text) && are_different(rest)
}

/// Whether the text is among the others.
fn has_text(others: &[Text], text: &Text) -> bool
    ensures { result ≡ list_any (text_eq text.now) others.now }
{
    others.iter().any(|other| is_text(other, text.as_slice()))
}

/// Whether the budget's mids, if it has any, are within their limits.
fn is_rule(root: &RootSpec) -> bool
    ensures { result ≡ is_rule root.now }
{
    match root {
        RootSpec::Compositor(mids) => are_mids(mids.as_slice()),
        RootSpec::Filter(_) => true,
        RootSpec::Odometer => true,
    }
}

/// Whether these are at most 256 plans with names of plans.
fn are_plans(plans: &[Plan]) -> bool
    ensures { result ≡ are_plans plans.now }
{
    plans.len() <= MOST_PLANS && are_named(plans)
}

/// Whether all plans have names of plans.
fn are_named(plans: &[Plan]) -> bool
    ensures { result ≡ list_all (λ plan. is_plan_name plan.name) plans.now }
{
    plans.iter().all(|plan| is_plan_name(&plan.name))
}

/// Whether the text is 1 to 64 ASCII letters, digits, `_` or `-`.
#[tactic(auto, unfolding(crate::specs::Accepted::is_plan_name))]
fn is_plan_name(name: &Text) -> bool
    ensures { result ≡ is_plan_name name.now }
{
    is_column_name(name) && are_name_bytes(name.as_slice())
}

/// Whether all bytes are ASCII letters, digits, `_` or `-`.
fn are_name_bytes(bytes: &[u8]) -> bool
    ensures { result ≡ list_all is_name_byte bytes.now }
{
    bytes.iter().all(|byte| is_name_byte(*byte))
}

/// Whether the byte is an ASCII letter, a digit, `_` or `-`.
#[tactic(auto, unfolding(crate::specs::Accepted::is_name_byte))]
fn is_name_byte(byte: u8) -> bool
    ensures { result ≡ is_name_byte byte }
{
    matches!(byte, b'A'..=b'Z' | b'a'..=b'z' | b'0'..=b'9' | b'_' | b'-')
}
