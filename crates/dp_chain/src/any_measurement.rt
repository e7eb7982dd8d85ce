ghost use Rattle.dp_domain.specs.Domains.{Fits};
ghost use Rattle.dp_law.specs.Making.{MakesOr};
ghost use Rattle.dp_num.specs.Fractions.{fraction_of};
ghost use Rattle.dp_chain.specs.Stages.{noise_on};

use crate::noise::Noise;
use dp_choice::Choice;
use dp_count::{NoMemory, Shape};
use dp_domain::{Domain, Metric, Value};
use dp_draws::Draws;
use dp_geometric::Geometric;
use dp_law::{Answer, MakeFault, Measurement, ReleaseFault};
use dp_num::{Past, Ratio};
use dp_response::Response;
use std::alloc::Global;

/// Any measurement that a noise makes.
#[derive(Debug, Drop)]
pub enum AnyMeasurement {
    /// Truncated geometric noise.
    Geometric(Geometric),
    /// Randomised response.
    Response(Response),
    /// Weighted choice.
    Choice(Choice),
}

// The same of whichever measurement it is.
macro_rules! of_each {
    ($any:expr, $part:ident => $same:expr) => {
        match $any {
            AnyMeasurement::Geometric($part) => $same,
            AnyMeasurement::Response($part) => $same,
            AnyMeasurement::Choice($part) => $same,
        }
    };
}

impl AnyMeasurement {
    /// The measurement of a noise on a domain and a metric, with the ratio p/q, or its refusal.
    #[tactic(auto, unfolding(crate::specs::Stages::noise_on))]
    pub fn make(
        alloc: Global,
        domain: Domain,
        metric: Metric,
        ratio: Ratio,
        noise: &Noise,
    ) -> Result<AnyMeasurement, MakeFault>
        requires { Fits domain }
        ensures { MakesOr ⟦<AnyMeasurement as Measurement>⟧.mechanism result
            (noise_on (fraction_of ratio) noise.now domain metric) }
    {
        match noise {
            Noise::Geometric { u, lo, hi } => Ok(AnyMeasurement::Geometric(Geometric::new(
                domain, metric, ratio, *u, *lo, *hi,
            )?)),
            Noise::Response { u } => Ok(AnyMeasurement::Response(Response::new(
                domain, metric, ratio, *u,
            )?)),
            Noise::Choice { u, floor, top } => Ok(AnyMeasurement::Choice(Choice::new(
                alloc, domain, metric, ratio, *u, *floor, *top,
            )?)),
        }
    }
}

impl Measurement for AnyMeasurement {
    ghost use Rattle.dp_chain.specs.declared.any_measurement.AnyMeasurement.TheVariants as any;
    ghost use Rattle.dp_geometric.specs.contracts.geometric.GeometricMeasurement.TheImpl.Laws.{law-law as geometric_law};
    ghost use Rattle.dp_response.specs.contracts.response.ResponseMeasurement.TheImpl.Laws.{law-law as response_law};
    ghost use Rattle.dp_choice.specs.contracts.choice.ChoiceMeasurement.TheImpl.Laws.{law-law as choice_law};

    ghost mechanism = { elim [
      | any.Geometric m ↦ ⟦<Geometric as Measurement>⟧.mechanism m
      | any.Response m ↦ ⟦<Response as Measurement>⟧.mechanism m
      | any.Choice m ↦ ⟦<Choice as Measurement>⟧.mechanism m
    ] };

    fn in_domain(&self) -> Domain {
        of_each!(self, part => part.in_domain())
    }

    fn in_metric(&self) -> Metric {
        of_each!(self, part => part.in_metric())
    }

    fn draws(&self) -> u64 {
        of_each!(self, part => part.draws())
    }

    fn pieces(&self) -> u64 {
        of_each!(self, part => part.pieces())
    }

    fn shape(&self, alloc: Global) -> Result<Shape, NoMemory> {
        of_each!(self, part => part.shape(alloc))
    }

    fn loss(&self, d: u64) -> Result<u64, Past> {
        of_each!(self, part => part.loss(d))
    }

    fn release<D: Draws>(
        &self,
        alloc: Global,
        v: &Value,
        draws: &mut D,
    ) -> Result<Answer, ReleaseFault> {
        of_each!(self, part => part.release(alloc, v, draws))
    }

    ghost law = { elim [
      | any.Geometric m ↦ geometric_law m
      | any.Response m ↦ response_law m
      | any.Choice m ↦ choice_law m
    ] };
}
