ghost use Rattle.std.specs.Prelude.{◌≡◌, ◌≤◌, ◌^◌, ℕ, List, Option, map, option_map, IfOk, IfSome};
ghost use Rattle.serde_json.specs.View.{view};
ghost use Rattle.serde_json.specs.Data.{Data};
ghost use Rattle.dp_pipeline.specs.Json.{json_of, array_of, member_at, text_of, count_of, signed_of, all_of, list_of};

use dp_count::NoMemory;
use dp_domain::{Items, Text};
use dp_num::MOST_UNITS;
use serde_json::Value;
use std::alloc::Global;

/// The greatest signed number.
const MOST_SIGNED: i64 = 4_611_686_018_427_387_904;

/// The value of a JSON text in UTF-8, if it is one.
#[tactic(auto, unfolding(crate::specs::Json::json_of))]
pub(crate) fn parse(alloc: Global, bytes: &[u8]) -> Result<Option<Value>, NoMemory>
    ensures { IfOk result (λ found. option_map view found ≡ json_of bytes.now) }
{
    match Value::from_slice(alloc, bytes) {
        Ok(value) => Ok(Some(value)),
        Err(fault) if fault.is_memory() => Err(NoMemory),
        Err(_) => Ok(None),
    }
}

/// The items of an array, if the value is one.
#[tactic(auto, unfolding(crate::specs::Json::array_of))]
pub(crate) fn array(value: &Value) -> Option<&[Value]>
    ensures { option_map (λ items. map view items.now) result ≡ array_of (view value.now) }
{
    match value.as_array() {
        Some(items) => Some(items.as_slice()),
        None => None,
    }
}

/// The value of the member of that name, if there is one.
#[tactic(auto, unfolding(crate::specs::Json::member_at))]
pub(crate) fn member<'a>(value: &'a Value, name: &str) -> Option<&'a Value>
    ensures { option_map (λ found. view found.now) result ≡ member_at name.now (view value.now) }
{
    value.get(name)
}

/// The text, if the value is one.
#[tactic(auto, unfolding(crate::specs::Json::text_of))]
pub(crate) fn text(value: &Value) -> Option<&str>
    ensures { option_map (λ text. text.now) result ≡ text_of (view value.now) }
{
    value.as_str()
}

/// The number, if the value is a whole one from 0 to 2^32.
#[tactic(auto, unfolding(crate::specs::Json::count_of))]
pub(crate) fn count(value: &Value) -> Option<u64>
    ensures reads { result ≡ count_of (view value.now) }
    ensures within { IfSome result (λ number. number ≤ 2 ^ 32) }
{
    let number = value.as_u64()?;
    if number > MOST_UNITS {
        return None;
    }
    Some(number)
}

/// The number, if the value is a whole one from -2^62 to 2^62.
#[tactic(auto, unfolding(crate::specs::Json::signed_of))]
pub(crate) fn signed(value: &Value) -> Option<i64>
    ensures { result ≡ signed_of (view value.now) }
{
    let number = value.as_i64()?;
    if number < -MOST_SIGNED || number > MOST_SIGNED {
        return None;
    }
    Some(number)
}

/// What is read from one value. The names of the columns are those that a text may name.
pub(crate) trait FromJson: Drop {
    ghost form: { List (List ℕ) → Data → Option Self };

    /// The value, if it is of the form.
    fn from_json(alloc: Global, columns: &[Text], value: &Value) -> Result<Option<Self>, NoMemory>
        ensures { IfOk result (λ found. found ≡ form columns.now (view value.now)) };
}

/// All items of an array, if the value is one and each item is of the form.
pub(crate) fn list<T: FromJson>(
    alloc: Global,
    columns: &[Text],
    value: &Value,
) -> Result<Option<Items<T>>, NoMemory>
    ensures { IfOk result (λ found. found ≡ list_of (T.form columns.now) (view value.now)) }
{
    let Some(values) = array(value) else {
        return Ok(None);
    };
    all(alloc, columns, values)
}

/// The values, if each is of the form.
#[tactic(auto, unfolding(crate::specs::Json::all_of))]
pub(crate) fn all<T: FromJson>(
    alloc: Global,
    columns: &[Text],
    values: &[Value],
) -> Result<Option<Items<T>>, NoMemory>
    ensures { IfOk result (λ found. found ≡ all_of (T.form columns.now) (map view values.now)) }
{
    let mut items = Vec::new(alloc);
    for value in values {
        let Some(item) = T::from_json(alloc, columns, value)? else {
            return Ok(None);
        };
        items.push(item)?;
    }
    Ok(Some(Items::from_vec(items)))
}

impl FromJson for i64 {
    ghost use Rattle.dp_pipeline.specs.Json.{signed_of};

    ghost form = { λ columns. signed_of };

    fn from_json(_: Global, _: &[Text], value: &Value) -> Result<Option<i64>, NoMemory> {
        Ok(signed(value))
    }
}

impl FromJson for u64 {
    ghost use Rattle.dp_pipeline.specs.Json.{count_of};

    ghost form = { λ columns. count_of };

    fn from_json(_: Global, _: &[Text], value: &Value) -> Result<Option<u64>, NoMemory> {
        Ok(count(value))
    }
}

impl FromJson for Text {
    ghost use Rattle.dp_pipeline.specs.Json.{text_of};

    ghost form = { λ columns. text_of };

    fn from_json(alloc: Global, _: &[Text], value: &Value) -> Result<Option<Text>, NoMemory> {
        let Some(found) = text(value) else {
            return Ok(None);
        };
        Ok(Some(text_from(alloc, found)?))
    }
}

/// A text of its own.
pub(crate) fn text_from(alloc: Global, text: &str) -> Result<Text, NoMemory>
    ensures { IfOk result (λ copy. copy ≡ text.now) }
{
    Ok(Text::from_vec(Vec::from_slice(alloc, text.as_bytes())?))
}
