ghost use Rattle.std.specs.Prelude.{◌≡◌, ◌≤◌, ◌^◌, IfOk, OnOk, OnErr, ◌++◌, ◌∷◌, []};
ghost use Rattle.std.specs.Result.{result_ok};
ghost use Rattle.dp_domain.specs.Domains.{Fits};
ghost use Rattle.dp_domain.proofs.Limits.{Fits-prop};
ghost use Rattle.dp_law.specs.Making.{MakesOr};
ghost use Rattle.dp_chain.specs.Lines.{line_on, line_map, line_value, end_domain, end_metric, Runs};
ghost use Rattle.dp_chain.specs.Meanings.{stage_mappings, StagesJoin};
ghost use Rattle.dp_chain.specs.MeaningsProof.{StagesJoin-prop};

use crate::any_transformation::AnyTransformation;
use crate::stage::{Stage, Stages};
use dp_count::NoMemory;
use dp_domain::{Domain, Metric, Value};
use dp_law::{MakeFault, Transformation};
use dp_num::Past;
use std::alloc::Global;

/// Transformations one after the other, as one. Without one, values and distances stay as they are.
#[derive(Drop)]
pub struct Line {
    domain: Domain,
    metric: Metric,
    stages: Vec<AnyTransformation>,
    to_domain: Domain,
    to_metric: Metric,
    ghost fits: { Fits domain } by { Fits-prop domain },
    ghost end_fits: { Fits to_domain } by { Fits-prop to_domain },
    ghost joined: { StagesJoin domain metric stages.items } by { StagesJoin-prop domain metric stages.items },
    ghost ends: { end_domain domain (stage_mappings stages.items) ≡ to_domain },
    ghost ends_by: { end_metric metric (stage_mappings stages.items) ≡ to_metric },
}

impl Line {
    ghost use Rattle.dp_domain.specs.declared.values.Value.{Value};
    ghost use Rattle.dp_domain.specs.Domains.{Has};
    ghost use Rattle.dp_chain.specs.Lines.{composed};
    ghost use Rattle.dp_chain.specs.Line.{line_stages};

    /// The transformations of the stages, made from first to last, each on the domain and the metric that the one
    /// before gives. The first stage that is refused decides, by the lowest of `Kind`, `Metric` and `Bound` that comes.
    pub fn make(
        alloc: Global,
        domain: Domain,
        metric: Metric,
        stages: &Stages,
    ) -> Result<Line, MakeFault>
        requires { Fits domain }
        ensures { MakesOr ⟦<Line as Transformation>⟧.mapping result (line_on stages.now domain metric) }
    {
        make_line(alloc, domain, metric, stages.as_slice())
    }

    /// The transformations from first to last. The line is these as one; each takes the domain and the metric that the
    /// one before gives, and on a value of the line's input domain each has in its own what those before it give.
    pub fn stages(&self) -> &[AnyTransformation]
        ensures stages { result.now ≡ line_stages self.now }
        ensures composed { let m = ⟦<Line as Transformation>⟧.mapping self.now in
            m ≡ composed m.input_domain m.input_metric (stage_mappings result.now) }
        ensures joined { let m = ⟦<Line as Transformation>⟧.mapping self.now in
            StagesJoin m.input_domain m.input_metric result.now }
        ensures runs { let m = ⟦<Line as Transformation>⟧.mapping self.now in
            (v : Value) → Has m.input_domain v → Runs (stage_mappings result.now) v }
    {
        self.stages.as_slice()
    }
}

/// The line of the stages, made from first to last.
fn make_line(
    alloc: Global,
    domain: Domain,
    metric: Metric,
    stages: &[Stage],
) -> Result<Line, MakeFault>
    requires { Fits domain }
    ensures { MakesOr ⟦<Line as Transformation>⟧.mapping result (line_on stages.now domain metric) }
{
    let mut made = Vec::new(alloc);
    let mut at = domain;
    let mut at_metric = metric;
    for stage in stages {
        let next = match AnyTransformation::make(alloc, at, at_metric, stage) {
            Ok(next) => next,
            Err(fault) => return Err(fault),
        };
        at = next.out_domain();
        at_metric = next.out_metric();
        append(&mut made, next)?;
    }
    Ok(Line {
        domain,
        metric,
        stages: made,
        to_domain: at,
        to_metric: at_metric,
    })
}

impl Transformation for Line {
    ghost use Rattle.dp_chain.specs.Lines.{composed};
    ghost use Rattle.dp_chain.specs.LinesProof.{line_law};
    ghost use Rattle.dp_chain.specs.contracts.any_transformation.AnyTransformationTransformation.TheImpl.Laws.{law-law as stage_law};

    ghost mapping = { λ t. composed t.domain t.metric (stage_mappings t.stages.items) };

    fn in_domain(&self) -> Domain {
        self.domain
    }

    fn in_metric(&self) -> Metric {
        self.metric
    }

    fn out_domain(&self) -> Domain {
        self.to_domain
    }

    fn out_metric(&self) -> Metric {
        self.to_metric
    }

    fn map(&self, d: u64) -> Result<u64, Past> {
        map_all(self.stages.as_slice(), d)
    }

    fn apply(&self, alloc: Global, v: &Value) -> Result<Value, NoMemory> {
        apply_line(alloc, self.stages.as_slice(), v)
    }

    ghost law = { λ t. line_law ⟦<AnyTransformation as Transformation>⟧.mapping stage_law
        t.domain t.metric t.stages.items t.fits t.joined };
}

/// How far apart values within `d` can be after the transformations.
fn map_all(stages: &[AnyTransformation], d: u64) -> Result<u64, Past>
    requires { d ≤ 2 ^ 32 }
    ensures { result_ok result ≡ line_map (stage_mappings stages.now) d }
{
    let mut at = d;
    for stage in stages {
        let Ok(next) = stage.map(at) else {
            return Err(Past);
        };
        at = next;
    }
    Ok(at)
}

/// What the transformations give, one after the other, on a value that stays as it is.
fn apply_line(alloc: Global, stages: &[AnyTransformation], v: &Value) -> Result<Value, NoMemory>
    requires { Runs (stage_mappings stages.now) v.now }
    ensures { IfOk result (λ w. w ≡ line_value (stage_mappings stages.now) v.now) }
{
    match stages {
        [] => v.copy(alloc),
        [first, rest @ ..] => apply_all(alloc, rest, first.apply(alloc, v)?),
    }
}

/// What the transformations give, one after the other.
fn apply_all(alloc: Global, stages: &[AnyTransformation], v: Value) -> Result<Value, NoMemory>
    requires { Runs (stage_mappings stages.now) v }
    ensures { IfOk result (λ w. w ≡ line_value (stage_mappings stages.now) v) }
{
    let mut at = v;
    for stage in stages {
        at = stage.apply(alloc, &at)?;
    }
    Ok(at)
}

/// Puts an item at the end. After `NoMemory` the list is unchanged.
pub(crate) fn append<T: Drop>(list: &mut Vec<T>, item: T) -> Result<(), NoMemory>
    ensures ok { OnOk result (list.new.items ≡ list.old.items ++ item ∷ []) }
    ensures err { OnErr result (list.new.items ≡ list.old.items) }
{
    list.push(item)?;
    Ok(())
}
