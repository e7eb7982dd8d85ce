ghost use Rattle.std.specs.Prelude.{◌≡◌, ◌≤◌, length, IfErr};
ghost use Rattle.dp_num.specs.Fractions.{fraction_of};
ghost use Rattle.dp_pipeline.specs.Accepted.{release_cost, plans_made};
ghost use Rattle.dp_pipeline.specs.Answers.{Answers, IsNumbered};

use crate::faults::PipelineFault;
use crate::place::Place;
use crate::plan::Plan;
use dp_chain::{CostFault, Release, ReleaseSpec};
use dp_law::MakeFault;
use dp_num::Ratio;
use std::alloc::Global;

/// Makes each plan, or answers the number of the first that is refused.
#[tactic(auto, unfolding(crate::specs::Accepted::plans_made))]
pub(crate) fn make_plans(
    alloc: Global,
    ratio: Ratio,
    at: &Place,
    plans: &[Plan],
) -> Result<(), PipelineFault>
    ensures answers { Answers (λ made. made) result (plans_made (fraction_of ratio) at.now plans.now) }
    ensures number { IfErr result IsNumbered }
{
    for plan in plans {
        match release_cost(alloc, ratio, at, plan.spec.parts()) {
            Ok(_) => {}
            Err(fault) => return Err(fault),
        }
    }
    Ok(())
}

/// What the release costs, or the number of its refusal.
#[tactic(auto, unfolding(crate::specs::Accepted::release_cost))]
fn release_cost(
    alloc: Global,
    ratio: Ratio,
    at: &Place,
    parts: &ReleaseSpec,
) -> Result<u64, PipelineFault>
    requires some { 1 ≤ length parts.now }
    requires few { length parts.now ≤ 16 }
    ensures answers { Answers (λ cost. cost) result (release_cost (fraction_of ratio) parts.now at.now) }
    ensures number { IfErr result IsNumbered }
{
    let release = match Release::make(alloc, at.domain(), at.metric(), ratio, parts) {
        Ok(release) => release,
        Err(MakeFault::Kind) => return Err(PipelineFault::Refused(1)),
        Err(MakeFault::Metric) => return Err(PipelineFault::Refused(2)),
        Err(MakeFault::Bound) => return Err(PipelineFault::Refused(3)),
        Err(MakeFault::NoMemory) => return Err(PipelineFault::NoMemory),
    };
    match release.cost(at.distance()) {
        Ok(cost) => Ok(cost),
        Err(CostFault::Distance) => Err(PipelineFault::Refused(4)),
        Err(CostFault::Draws) => Err(PipelineFault::Refused(5)),
    }
}
