ghost use Rattle.std.specs.Prelude.{◌≡◌, option_map};
ghost use Rattle.dp_pipeline.specs.Queries.{plan_named};

use crate::spec::Spec;
use crate::stages::is_text;
use dp_domain::{Items, Text};

/// A release by a name.
#[derive(Debug, Drop)]
pub struct Plan {
    /// The name.
    pub name: Text,
    /// The release.
    pub spec: Spec,
}

/// Plans in the order of their names' bytes.
pub type Plans = Items<Plan>;

/// The release of the first plan of that name, if there is one.
#[tactic(auto, unfolding(crate::specs::Queries::plan_named))]
pub(crate) fn plan_named<'a>(plans: &'a [Plan], name: &[u8]) -> Option<&'a Spec>
    ensures { option_map (λ spec. spec.now) result ≡ plan_named plans.now name.now }
{
    for plan in plans {
        if is_text(&plan.name, name) {
            return Some(&plan.spec);
        }
    }
    None
}
