ghost use Rattle.std.specs.Prelude.{◌≡◌, ◌≤◌, ◌^◌, IfOk};
ghost use Rattle.dp_domain.specs.Domains.{Fits};
ghost use Rattle.dp_pipeline.specs.Places.{PlaceValue, after_stage};

use dp_chain::{AnyTransformation, Stage};
use dp_count::NoMemory;
use dp_domain::{Domain, Metric};
use dp_law::{MakeFault, Transformation};
use std::alloc::Global;
use std::marker::Model;

/// Where stages and noises are made: a domain, a metric, and the distance of values there, at most 2^32.
#[derive(Clone, Copy, Debug)]
pub struct Place {
    domain: Domain,
    metric: Metric,
    distance: u64,
}

impl Model for Place {
    ghost use Rattle.std.specs.Prelude.{◌≤◌, ◌^◌};
    ghost use Rattle.dp_domain.specs.Domains.{Fits};
    ghost use Rattle.dp_pipeline.specs.Places.{PlaceValue};

    ghost Value = { PlaceValue };

    ghost view = { λ place. record {
      domain = place.domain;
      metric = place.metric;
      distance = place.distance;
    } };

    ghost inverse = { λ place. record {
      domain = place.domain;
      metric = place.metric;
      distance = place.distance;
    } };

    ghost invariant = { λ place. Fits place.domain × (place.distance ≤ 2 ^ 32) };
}

impl Place {
    /// The place of a domain, a metric and a distance.
    pub fn new(domain: Domain, metric: Metric, distance: u64) -> Place
        requires fits { Fits domain }
        requires within { distance ≤ 2 ^ 32 }
        ensures { result ≡ record { domain = domain; metric = metric; distance = distance } }
    {
        Place {
            domain,
            metric,
            distance,
        }
    }

    /// The domain.
    pub fn domain(&self) -> Domain
        ensures domain { result ≡ self.now.domain }
        ensures fits { Fits result }
    {
        self.domain
    }

    /// The metric.
    pub fn metric(&self) -> Metric
        ensures { result ≡ self.now.metric }
    {
        self.metric
    }

    /// The distance.
    pub fn distance(&self) -> u64
        ensures distance { result ≡ self.now.distance }
        ensures within { result ≤ 2 ^ 32 }
    {
        self.distance
    }

    /// Where a stage leads, if it is made.
    #[tactic(auto, unfolding(crate::specs::Places::after_stage))]
    pub(crate) fn after(&self, alloc: Global, stage: &Stage) -> Result<Option<Place>, NoMemory>
        ensures { IfOk result (λ next. next ≡ after_stage stage.now self.now) }
    {
        let made = match AnyTransformation::make(alloc, self.domain, self.metric, stage) {
            Ok(made) => made,
            Err(MakeFault::NoMemory) => return Err(NoMemory),
            Err(_) => return Ok(None),
        };
        match made.map(self.distance) {
            Ok(distance) => Ok(Some(Place {
                domain: made.out_domain(),
                metric: made.out_metric(),
                distance,
            })),
            Err(_) => Ok(None),
        }
    }
}
