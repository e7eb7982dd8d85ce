ghost use Rattle.std.specs.Prelude.{◌≡◌, ◌<◌, map, length, IfOk, IfSome};
ghost use Rattle.serde_json.specs.View.{view};
ghost use Rattle.dp_pipeline.specs.Json.{signed_of, count_of, text_of, list_of};
ghost use Rattle.dp_pipeline.specs.StageForms.{bare, one, two, three, place_of, column_of, stage_by, stage_of, noise_by, noise_of};
ghost use Rattle.dp_domain.specs.Distance.{text_eq};
ghost use Rattle.dp_chain.specs.declared.stage.Stage.TheVariants as stage;
ghost use Rattle.dp_chain.specs.declared.noise.Noise.TheVariants as noise;

use crate::json::{FromJson, array, count, list, signed, text, text_from};
use dp_chain::{Noise, Stage};
use dp_count::NoMemory;
use dp_domain::Text;
use serde_json::Value;
use std::alloc::Global;

impl FromJson for Stage {
    ghost use Rattle.dp_pipeline.specs.StageForms.{stage_of};

    ghost form = { stage_of };

    fn from_json(
        alloc: Global,
        columns: &[Text],
        value: &Value,
    ) -> Result<Option<Stage>, NoMemory> {
        stage_from(alloc, columns, value)
    }
}

/// The stage of a value, if it is an array that begins with a stage's word and goes on by its form.
#[tactic(auto, unfolding(crate::specs::StageForms::stage_of))]
fn stage_from(alloc: Global, columns: &[Text], value: &Value) -> Result<Option<Stage>, NoMemory>
    ensures { IfOk result (λ found. found ≡ stage_of columns.now (view value.now)) }
{
    let Some([first, args @ ..]) = array(value) else {
        return Ok(None);
    };
    let Some(word) = text(first) else {
        return Ok(None);
    };
    stage_after(alloc, columns, word, args)
}

/// The stage of a word with its arguments: a line a word.
#[tactic(auto, unfolding(crate::specs::StageForms::stage_by))]
fn stage_after(
    alloc: Global,
    columns: &[Text],
    word: &str,
    args: &[Value],
) -> Result<Option<Stage>, NoMemory>
    ensures { IfOk result (λ found. found ≡ stage_by columns.now word.now (map view args.now)) }
{
    match word {
        "filter" => filter(alloc, columns, args),
        "select" => select(columns, args),
        "cast" => Ok(bare(Stage::Cast, args)),
        "categories" => categories(alloc, columns, args),
        "impute" => Ok(impute(args)),
        "dropnone" => Ok(bare(Stage::DropNone, args)),
        "clamp" => Ok(clamp(args)),
        "bins" => bins(alloc, columns, args),
        "resize" => Ok(resize(args)),
        "count" => Ok(bare(Stage::Count, args)),
        "sum" => Ok(bare(Stage::Sum, args)),
        "histogram" => Ok(bare(Stage::Histogram, args)),
        "quantise" => Ok(quantise(args)),
        "atleast" => at_least(alloc, columns, args),
        "truncate" => Ok(truncate(args)),
        _ => Ok(None),
    }
}

/// What is made of a word without arguments.
pub(crate) fn bare<T: Drop>(made: T, args: &[Value]) -> Option<T>
    ensures { result ≡ bare made (map view args.now) }
{
    match args {
        [] => Some(made),
        _ => None,
    }
}

/// `["filter", column, text]`
fn filter(alloc: Global, columns: &[Text], args: &[Value]) -> Result<Option<Stage>, NoMemory>
    ensures { IfOk result (λ found. found ≡ two (column_of columns.now) text_of stage.Filter (map view args.now)) }
{
    let [column, words] = args else {
        return Ok(None);
    };
    let Some(column) = column_named(columns, column)? else {
        return Ok(None);
    };
    let Some(words) = text(words) else {
        return Ok(None);
    };
    Ok(Some(Stage::Filter {
        column,
        text: text_from(alloc, words)?,
    }))
}

/// `["select", column]`
fn select(columns: &[Text], args: &[Value]) -> Result<Option<Stage>, NoMemory>
    ensures { IfOk result (λ found. found ≡ one (column_of columns.now) stage.Select (map view args.now)) }
{
    let [column] = args else {
        return Ok(None);
    };
    let Some(column) = column_named(columns, column)? else {
        return Ok(None);
    };
    Ok(Some(Stage::Select { column }))
}

/// `["categories", [text, ..]]`
fn categories(alloc: Global, columns: &[Text], args: &[Value]) -> Result<Option<Stage>, NoMemory>
    ensures { IfOk result (λ found. found ≡ one (list_of text_of) stage.Categories (map view args.now)) }
{
    let [texts] = args else {
        return Ok(None);
    };
    let Some(texts) = list(alloc, columns, texts)? else {
        return Ok(None);
    };
    Ok(Some(Stage::Categories { texts }))
}

/// `["impute", value]`
fn impute(args: &[Value]) -> Option<Stage>
    ensures { result ≡ one signed_of stage.Impute (map view args.now) }
{
    let [value] = args else {
        return None;
    };
    let value = signed(value)?;
    Some(Stage::Impute { value })
}

/// `["clamp", lo, hi]`
fn clamp(args: &[Value]) -> Option<Stage>
    ensures { result ≡ two signed_of signed_of stage.Clamp (map view args.now) }
{
    let [lo, hi] = args else {
        return None;
    };
    let lo = signed(lo)?;
    let hi = signed(hi)?;
    Some(Stage::Clamp { lo, hi })
}

/// `["bins", [edge, ..]]`
fn bins(alloc: Global, columns: &[Text], args: &[Value]) -> Result<Option<Stage>, NoMemory>
    ensures { IfOk result (λ found. found ≡ one (list_of signed_of) stage.Bins (map view args.now)) }
{
    let [edges] = args else {
        return Ok(None);
    };
    let Some(edges) = list(alloc, columns, edges)? else {
        return Ok(None);
    };
    Ok(Some(Stage::Bins { edges }))
}

/// `["resize", size, fill]`
fn resize(args: &[Value]) -> Option<Stage>
    ensures { result ≡ two count_of signed_of stage.Resize (map view args.now) }
{
    let [size, fill] = args else {
        return None;
    };
    let size = count(size)?;
    let fill = signed(fill)?;
    Some(Stage::Resize { size, fill })
}

/// `["quantise", step]`
fn quantise(args: &[Value]) -> Option<Stage>
    ensures { result ≡ one count_of stage.Quantise (map view args.now) }
{
    let [step] = args else {
        return None;
    };
    let step = count(step)?;
    Some(Stage::Quantise { step })
}

/// `["atleast", [edge, ..]]`
fn at_least(alloc: Global, columns: &[Text], args: &[Value]) -> Result<Option<Stage>, NoMemory>
    ensures { IfOk result (λ found. found ≡ one (list_of signed_of) stage.AtLeast (map view args.now)) }
{
    let [edges] = args else {
        return Ok(None);
    };
    let Some(edges) = list(alloc, columns, edges)? else {
        return Ok(None);
    };
    Ok(Some(Stage::AtLeast { edges }))
}

/// `["truncate", most]`
fn truncate(args: &[Value]) -> Option<Stage>
    ensures { result ≡ one count_of stage.Truncate (map view args.now) }
{
    let [most] = args else {
        return None;
    };
    let most = count(most)?;
    Some(Stage::Truncate { most })
}

/// The number of the first column of the name.
#[tactic(auto, unfolding(crate::specs::StageForms::column_of))]
pub(crate) fn column_named(columns: &[Text], name: &Value) -> Result<Option<u32>, NoMemory>
    ensures reads { IfOk result (λ found. found ≡ column_of columns.now (view name.now)) }
    ensures range { IfOk result (λ found. IfSome found (λ column. column < length columns.now)) }
{
    let Some(name) = text(name) else {
        return Ok(None);
    };
    let Some(place) = place_of(columns, name.as_bytes()) else {
        return Ok(None);
    };
    // A text of 2^20 bytes names fewer columns than that.
    match u32::try_from(place) {
        Ok(column) => Ok(Some(column)),
        Err(_) => Err(NoMemory),
    }
}

/// The place of the first column of the name, if there is one.
pub(crate) fn place_of(columns: &[Text], name: &[u8]) -> Option<usize>
    ensures place { result ≡ place_of columns.now name.now }
    ensures range { IfSome result (λ place. place < length columns.now) }
{
    columns.iter().position(|column| is_text(column, name))
}

/// Whether the text is that of the bytes.
pub(crate) fn is_text(text: &Text, bytes: &[u8]) -> bool
    ensures { result ≡ text_eq bytes.now text.now }
{
    text.as_slice() == bytes
}

/// The noise of a value, if it is an array that begins with a noise's word and goes on by its form.
#[tactic(auto, unfolding(crate::specs::StageForms::noise_of))]
pub(crate) fn noise_from(value: &Value) -> Option<Noise>
    ensures { result ≡ noise_of (view value.now) }
{
    let [first, args @ ..] = array(value)? else {
        return None;
    };
    noise_after(text(first)?, args)
}

/// The noise of a word with its arguments: a line a word.
#[tactic(auto, unfolding(crate::specs::StageForms::noise_by))]
fn noise_after(word: &str, args: &[Value]) -> Option<Noise>
    ensures { result ≡ noise_by word.now (map view args.now) }
{
    match word {
        "geometric" => geometric(args),
        "response" => response(args),
        "choice" => choice(args),
        _ => None,
    }
}

/// `["geometric", u, lo, hi]`
fn geometric(args: &[Value]) -> Option<Noise>
    ensures { result ≡ three count_of signed_of signed_of noise.Geometric (map view args.now) }
{
    let [u, lo, hi] = args else {
        return None;
    };
    let u = count(u)?;
    let lo = signed(lo)?;
    let hi = signed(hi)?;
    Some(Noise::Geometric { u, lo, hi })
}

/// `["response", u]`
fn response(args: &[Value]) -> Option<Noise>
    ensures { result ≡ one count_of noise.Response (map view args.now) }
{
    let [u] = args else {
        return None;
    };
    let u = count(u)?;
    Some(Noise::Response { u })
}

/// `["choice", u, floor, top]`
fn choice(args: &[Value]) -> Option<Noise>
    ensures { result ≡ three count_of signed_of signed_of noise.Choice (map view args.now) }
{
    let [u, floor, top] = args else {
        return None;
    };
    let u = count(u)?;
    let floor = signed(floor)?;
    let top = signed(top)?;
    Some(Noise::Choice { u, floor, top })
}
