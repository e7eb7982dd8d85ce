ghost use Rattle.std.specs.Prelude.{◌≡◌, ◌++◌, ◌∷◌, [], ◌≤◌, ◌^◌, length, string_bytes, IfOk, OnOk, codes, Err, Some};
ghost use Rattle.std.specs.Fmt as fmt;
ghost use Rattle.dp_count.specs.Faults.{Rose};
ghost use Rattle.dp_io.specs.Sink.{appended, AddsFront};
ghost use Rattle.dp_num.specs.Fractions.{fraction_of};
ghost use Rattle.dp_pipeline.specs.Accepted.{ratio_of, root_place};
ghost use Rattle.dp_pipeline.specs.StageForms.{stage_word, noise_word, SpecValue};
ghost use Rattle.dp_law.specs.Mechanism.{Mechanism};
ghost use Rattle.dp_pipeline.specs.Printing.{size_text, domain_text, metric_text, place_line, loss_line, lines_at, noise_lines, part_lines, numbered_lines, plain_lines, all_lines, lines_of, plan_line, plans_lines, mids_text, budget_line, siblings_word, siblings_lines, check_lines, check_text};

use crate::content::Siblings;
use crate::faults::PrintFault;
use crate::lines::Lines;
use crate::pipeline::Pipeline;
use crate::place::Place;
use crate::plan::Plan;
use crate::root::RootSpec;
use crate::spec::Spec;
use dp_chain::{AnyMeasurement, Noise, Part, Release, ReleaseSpec, Stage};
use dp_count::NoMemory;
use dp_domain::{Domain, Metric, Text};
use dp_io::Sink;
use dp_law::{MakeFault, Measurement};
use dp_num::Ratio;
use std::alloc::Global;

/// Writes the stages of a pipeline: a line each for the root, its budget, siblings in version 2, each plan, its stages
/// and its noises, and a last line.
///
/// `WriteFault` comes only where the sink's count of faults rose; a front of the text is written then. `NoMemory`
/// writes nothing.
#[tactic(auto, unfolding(crate::specs::Printing::check_text))]
pub fn print_stages<K: Sink>(
    alloc: Global,
    pipeline: &Pipeline,
    out: &mut K,
) -> Result<(), PrintFault>
    ensures written { OnOk result (K.held out.new ≡ appended (K.held out.old) (check_text pipeline.now)) }
    ensures front { result ≡ Err PrintFault.WriteFault
        → AddsFront (K.held out.old) (K.held out.new) (check_text pipeline.now) }
    ensures rose { result ≡ Err PrintFault.WriteFault → Rose (K.faults out.old) (K.faults out.new) }
    ensures nothing { result ≡ Err PrintFault.NoMemory → out.new ≡ out.old }
    ensures kept { OnOk result (K.faults out.new ≡ K.faults out.old) }
    ensures later { K.faults out.old ≤ K.faults out.new }
{
    let Ok(lines) = check_lines(alloc, pipeline) else {
        return Err(PrintFault::NoMemory);
    };
    match lines.write(out) {
        Ok(()) => Ok(()),
        Err(_) => Err(PrintFault::WriteFault),
    }
}

/// All lines of a pipeline.
fn check_lines(alloc: Global, pipeline: &Pipeline) -> Result<Lines, NoMemory>
    ensures { IfOk result (λ lines. lines ≡ check_lines pipeline.now) }
{
    let at = pipeline.place();
    let mut lines = Lines::new(alloc);
    lines.push(place_line(alloc, "root", &at)?)?;
    lines.push(budget_line(alloc, pipeline.root())?)?;
    push_siblings(alloc, &mut lines, pipeline.siblings())?;
    push_plans(
        alloc,
        &mut lines,
        pipeline.ratio(),
        &at,
        pipeline.plans().as_slice(),
    )?;
    lines.push(format!(in alloc; "accepted\n")?)?;
    Ok(lines)
}

/// A word, a domain, a metric and a distance.
fn place_line(alloc: Global, word: &str, at: &Place) -> Result<String, NoMemory>
    ensures { IfOk result (λ line. string_bytes line ≡ place_line word.now at.now) }
{
    let domain = domain_text(alloc, &at.domain())?;
    let metric = metric_text(alloc, &at.metric())?;
    let distance = at.distance();
    Ok(format!(in alloc; "{word} {domain} {metric} {distance}\n")?)
}

/// The word and the numbers of a domain.
#[tactic(auto, unfolding(crate::specs::Printing::domain_text))]
fn domain_text(alloc: Global, domain: &Domain) -> Result<String, NoMemory>
    ensures { IfOk result (λ text. string_bytes text ≡ domain_text domain.now) }
{
    match domain {
        Domain::Rows { columns } => Ok(format!(in alloc; "rows {columns}")?),
        Domain::Texts => Ok(format!(in alloc; "texts")?),
        Domain::OptInts { lo, hi } => Ok(format!(in alloc; "optints {lo} {hi}")?),
        Domain::Ints { lo, hi, size } => {
            let size = size_text(alloc, size)?;
            Ok(format!(in alloc; "ints {lo} {hi}{size}")?)
        }
        Domain::Cats { n, size } => {
            let size = size_text(alloc, size)?;
            Ok(format!(in alloc; "cats {n}{size}")?)
        }
        Domain::Int { lo, hi } => Ok(format!(in alloc; "int {lo} {hi}")?),
        Domain::Cat { n } => Ok(format!(in alloc; "cat {n}")?),
        Domain::IntVec { len, lo, hi } => Ok(format!(in alloc; "intvec {len} {lo} {hi}")?),
    }
}

/// The size of a list, where it has one.
fn size_text(alloc: Global, size: &Option<u32>) -> Result<String, NoMemory>
    ensures { IfOk result (λ text. string_bytes text ≡ size_text size.now) }
{
    match size {
        None => Ok(String::new(alloc)),
        Some(size) => Ok(format!(in alloc; " size {size}")?),
    }
}

/// The word of a metric.
#[tactic(auto, unfolding(crate::specs::Printing::metric_text))]
fn metric_text(alloc: Global, metric: &Metric) -> Result<String, NoMemory>
    ensures { IfOk result (λ text. string_bytes text ≡ metric_text metric.now) }
{
    Ok(match metric {
        Metric::Symmetric => format!(in alloc; "symmetric")?,
        Metric::Users(column) => format!(in alloc; "users {column}")?,
        Metric::ChangeOne => format!(in alloc; "change-one")?,
        Metric::Absolute => format!(in alloc; "absolute")?,
        Metric::Discrete => format!(in alloc; "discrete")?,
        Metric::L1 => format!(in alloc; "l1")?,
    })
}

/// A word, a number of draws and a loss.
fn loss_line(alloc: Global, word: &str, draws: u64, loss: u64) -> Result<String, NoMemory>
    ensures { IfOk result (λ line. string_bytes line ≡ loss_line word.now draws loss) }
{
    Ok(format!(in alloc; "{word} draws {draws} loss {loss}\n")?)
}

/// The budget of the root.
fn budget_line(alloc: Global, root: &RootSpec) -> Result<String, NoMemory>
    ensures { IfOk result (λ line. string_bytes line ≡ budget_line root.now) }
{
    match root {
        RootSpec::Compositor(mids) => compositor_line(alloc, mids.as_slice()),
        RootSpec::Filter(limit) => Ok(format!(in alloc; "budget filter {limit}\n")?),
        RootSpec::Odometer => Ok(format!(in alloc; "budget odometer\n")?),
    }
}

/// What version 2 says of siblings.
fn push_siblings(
    alloc: Global,
    lines: &mut Lines,
    siblings: Option<Siblings>,
) -> Result<(), NoMemory>
    ensures { OnOk result (lines.new ≡ lines.old ++ siblings_lines siblings) }
{
    let Some(siblings) = siblings else {
        return Ok(());
    };
    let word = siblings_word(siblings);
    lines.push(format!(in alloc; "siblings {word}\n")?)
}

/// The word of what is said of siblings.
fn siblings_word(siblings: Siblings) -> &'static str
    ensures { result.now ≡ siblings_word siblings }
{
    match siblings {
        Siblings::Open => "open",
        Siblings::Frozen => "frozen",
    }
}

/// All plans.
#[tactic(auto, unfolding(crate::specs::Printing::plans_lines))]
fn push_plans(
    alloc: Global,
    lines: &mut Lines,
    ratio: Ratio,
    at: &Place,
    plans: &[Plan],
) -> Result<(), NoMemory>
    ensures { OnOk result (lines.new ≡ lines.old ++ plans_lines (fraction_of ratio) at.now plans.now) }
{
    for plan in plans {
        push_plan(alloc, lines, ratio, at, plan)?;
    }
    Ok(())
}

/// A plan: its name, and then its parts.
fn push_plan(
    alloc: Global,
    lines: &mut Lines,
    ratio: Ratio,
    at: &Place,
    plan: &Plan,
) -> Result<(), NoMemory>
    ensures { OnOk result (lines.new ≡ lines.old ++ (plan_line plan.now.name
        ∷ lines_of (fraction_of ratio) plan.now.spec.parts at.now plan.now.spec.is_all)) }
{
    lines.push_bytes(plan_line(alloc, &plan.name)?)?;
    push_spec(alloc, lines, ratio, at, &plan.spec)
}

/// The name of a plan.
fn plan_line(alloc: Global, name: &Text) -> Result<Vec<u8>, NoMemory>
    ensures { IfOk result (λ line. line.items ≡ plan_line name.now) }
{
    let mut line = Vec::from_slice(alloc, b"plan ")?;
    line.extend_from_slice(name.as_slice())?;
    line.push(b'\n')?;
    Ok(line)
}

/// The parts of a release, and where it was written as an `all` also all together.
fn push_spec(
    alloc: Global,
    lines: &mut Lines,
    ratio: Ratio,
    at: &Place,
    spec: &Spec,
) -> Result<(), NoMemory>
    ensures { OnOk result (lines.new
        ≡ lines.old ++ lines_of (fraction_of ratio) spec.now.parts at.now spec.now.is_all) }
{
    if !spec.is_all() {
        return push_parts(alloc, lines, ratio, at, spec.parts().as_slice());
    }
    push_numbered(alloc, lines, ratio, at, spec.parts().as_slice())?;
    push_all(alloc, lines, ratio, at, spec.parts())
}

/// The parts of a release in order.
#[tactic(auto, unfolding(crate::specs::Printing::plain_lines))]
fn push_parts(
    alloc: Global,
    lines: &mut Lines,
    ratio: Ratio,
    at: &Place,
    parts: &[Part],
) -> Result<(), NoMemory>
    ensures { OnOk result (lines.new ≡ lines.old ++ plain_lines (fraction_of ratio) parts.now at.now) }
{
    for part in parts {
        push_part(alloc, lines, ratio, *at, part)?;
    }
    Ok(())
}

/// The parts of an `all` in order, each after its number.
#[tactic(auto, unfolding(crate::specs::Printing::numbered_lines))]
fn push_numbered(
    alloc: Global,
    lines: &mut Lines,
    ratio: Ratio,
    at: &Place,
    parts: &[Part],
) -> Result<(), NoMemory>
    requires { length parts.now ≤ 16 }
    ensures { OnOk result (lines.new ≡ lines.old ++ numbered_lines (fraction_of ratio) 1 parts.now at.now) }
{
    let mut number: u64 = 1;
    for part in parts {
        lines.push(format!(in alloc; "part {number}\n")?)?;
        push_part(alloc, lines, ratio, *at, part)?;
        number += 1;
    }
    Ok(())
}

/// All parts of a release together, if they are made and have a loss.
#[tactic(auto, unfolding(crate::specs::Printing::all_lines))]
fn push_all(
    alloc: Global,
    lines: &mut Lines,
    ratio: Ratio,
    at: &Place,
    parts: &ReleaseSpec,
) -> Result<(), NoMemory>
    requires some { 1 ≤ length parts.now }
    requires few { length parts.now ≤ 16 }
    ensures { OnOk result (lines.new ≡ lines.old ++ all_lines (fraction_of ratio) parts.now at.now) }
{
    match Release::make(alloc, at.domain(), at.metric(), ratio, parts) {
        Ok(release) => push_measured(alloc, lines, "all", at.distance(), &release),
        Err(MakeFault::NoMemory) => Err(NoMemory),
        Err(_) => Ok(()),
    }
}

/// A measurement, if it has a loss at the distance.
fn push_measured<M: Measurement>(
    alloc: Global,
    lines: &mut Lines,
    word: &str,
    distance: u64,
    measurement: &M,
) -> Result<(), NoMemory>
    requires { distance ≤ 2 ^ 32 }
    ensures { let m = M.mechanism measurement.now in
        OnOk result (lines.new ≡ lines.old ++ lines_at word.now (length m.shape) (m.privacy_map distance)) }
{
    let Ok(loss) = measurement.loss(distance) else {
        return Ok(());
    };
    lines.push(loss_line(alloc, word, measurement.draws(), loss)?)
}

/// The stages of a part, each on what the one before gives, and then its noise.
#[tactic(auto, unfolding(crate::specs::Printing::part_lines))]
fn push_part(
    alloc: Global,
    lines: &mut Lines,
    ratio: Ratio,
    from: Place,
    part: &Part,
) -> Result<(), NoMemory>
    ensures { OnOk result (lines.new
        ≡ lines.old ++ part_lines (fraction_of ratio) part.now.noise part.now.stages from) }
{
    let mut at = from;
    for stage in part.stages.as_slice() {
        let Some(next) = at.after(alloc, stage)? else {
            return Ok(());
        };
        lines.push(place_line(alloc, stage_word(stage), &next)?)?;
        at = next;
    }
    push_noise(alloc, lines, ratio, &at, &part.noise)
}

/// The noise of a part, if it is made and has a loss.
#[tactic(auto, unfolding(crate::specs::Printing::noise_lines))]
fn push_noise(
    alloc: Global,
    lines: &mut Lines,
    ratio: Ratio,
    at: &Place,
    noise: &Noise,
) -> Result<(), NoMemory>
    ensures { OnOk result (lines.new ≡ lines.old ++ noise_lines (fraction_of ratio) noise.now at.now) }
{
    match AnyMeasurement::make(alloc, at.domain(), at.metric(), ratio, noise) {
        Ok(made) => push_measured(alloc, lines, noise_word(noise), at.distance(), &made),
        Err(MakeFault::NoMemory) => Err(NoMemory),
        Err(_) => Ok(()),
    }
}

/// The word of a stage.
#[tactic(auto, unfolding(crate::specs::StageForms::stage_word))]
fn stage_word(stage: &Stage) -> &'static str
    ensures { result.now ≡ stage_word stage.now }
{
    match stage {
        Stage::Filter { .. } => "filter",
        Stage::Select { .. } => "select",
        Stage::Cast => "cast",
        Stage::Categories { .. } => "categories",
        Stage::Impute { .. } => "impute",
        Stage::DropNone => "dropnone",
        Stage::Clamp { .. } => "clamp",
        Stage::Bins { .. } => "bins",
        Stage::Resize { .. } => "resize",
        Stage::Count => "count",
        Stage::Sum => "sum",
        Stage::Histogram => "histogram",
        Stage::Quantise { .. } => "quantise",
        Stage::AtLeast { .. } => "atleast",
        Stage::Truncate { .. } => "truncate",
    }
}

/// The word of a noise.
#[tactic(auto, unfolding(crate::specs::StageForms::noise_word))]
fn noise_word(noise: &Noise) -> &'static str
    ensures { result.now ≡ noise_word noise.now }
{
    match noise {
        Noise::Geometric { .. } => "geometric",
        Noise::Response { .. } => "response",
        Noise::Choice { .. } => "choice",
    }
}

/// The mids of a compositor.
fn compositor_line(alloc: Global, mids: &[u64]) -> Result<String, NoMemory>
    ensures { IfOk result (λ line. string_bytes line ≡ codes "budget compositor" ++ mids_text mids.now) }
{
    let mut line = String::from_str(alloc, "budget compositor")?;
    push_mids(alloc, &mut line, mids)?;
    Ok(line)
}

/// Each mid after a space, and then a line feed.
#[tactic(auto, unfolding(crate::specs::Printing::mids_text))]
fn push_mids(alloc: Global, line: &mut String, mids: &[u64]) -> Result<(), NoMemory>
    ensures { OnOk result (string_bytes line.new ≡ string_bytes line.old ++ mids_text mids.now) }
{
    for mid in mids {
        let next = format!(in alloc; " {mid}")?;
        line.push_str(next.as_str())?;
    }
    line.push_str("\n")?;
    Ok(())
}
