ghost use Rattle.dp_domain.specs.Domains.{Fits};
ghost use Rattle.dp_law.specs.Making.{MakesOr};
ghost use Rattle.dp_chain.specs.Stages.{stage_on};

use crate::stage::Stage;
use dp_aggregate::{AtLeast, Count, Histogram, Quantise, Resize, Sum};
use dp_count::NoMemory;
use dp_domain::{Domain, Duplicate, Metric, Value};
use dp_law::{MakeFault, Transformation};
use dp_num::Past;
use dp_rowwise::{Bins, Cast, Categories, Clamp, DropNone, Filter, Impute, Select, Truncate};
use std::alloc::Global;

/// Any transformation that a stage makes.
#[derive(Debug, Drop)]
pub enum AnyTransformation {
    /// Keeps records by a text in a column.
    Filter(Filter),
    /// Selects a column.
    Select(Select),
    /// Reads texts as numbers.
    Cast(Cast),
    /// Gives texts their places in a list.
    Categories(Categories),
    /// Puts a number for each missing one.
    Impute(Impute),
    /// Drops missing numbers.
    DropNone(DropNone),
    /// Brings numbers into a range.
    Clamp(Clamp),
    /// Puts numbers between edges.
    Bins(Bins),
    /// Gives a list a size.
    Resize(Resize),
    /// Counts.
    Count(Count),
    /// Adds up.
    Sum(Sum),
    /// Counts each category.
    Histogram(Histogram),
    /// Rounds a number down to whole steps.
    Quantise(Quantise),
    /// Puts a number between edges.
    AtLeast(AtLeast),
    /// Keeps few records of each person.
    Truncate(Truncate),
}

// The same of whichever transformation it is.
macro_rules! of_each {
    ($any:expr, $part:ident => $same:expr) => {
        match $any {
            AnyTransformation::Filter($part) => $same,
            AnyTransformation::Select($part) => $same,
            AnyTransformation::Cast($part) => $same,
            AnyTransformation::Categories($part) => $same,
            AnyTransformation::Impute($part) => $same,
            AnyTransformation::DropNone($part) => $same,
            AnyTransformation::Clamp($part) => $same,
            AnyTransformation::Bins($part) => $same,
            AnyTransformation::Resize($part) => $same,
            AnyTransformation::Count($part) => $same,
            AnyTransformation::Sum($part) => $same,
            AnyTransformation::Histogram($part) => $same,
            AnyTransformation::Quantise($part) => $same,
            AnyTransformation::AtLeast($part) => $same,
            AnyTransformation::Truncate($part) => $same,
        }
    };
}

impl AnyTransformation {
    /// The transformation of a stage on a domain and a metric, or its refusal.
    #[tactic(auto, unfolding(crate::specs::Stages::stage_on))]
    pub fn make(
        alloc: Global,
        domain: Domain,
        metric: Metric,
        stage: &Stage,
    ) -> Result<AnyTransformation, MakeFault>
        requires { Fits domain }
        ensures { MakesOr ⟦<AnyTransformation as Transformation>⟧.mapping result
            (stage_on stage.now domain metric) }
    {
        match stage {
            Stage::Filter { column, text } => Ok(AnyTransformation::Filter(Filter::new(
                domain,
                metric,
                *column,
                text.duplicate(alloc)?.into_vec(),
            )?)),
            Stage::Select { column } => Ok(AnyTransformation::Select(Select::new(
                domain, metric, *column,
            )?)),
            Stage::Cast => Ok(AnyTransformation::Cast(Cast::new(domain, metric)?)),
            Stage::Categories { texts } => Ok(AnyTransformation::Categories(Categories::new(
                alloc,
                domain,
                metric,
                texts.duplicate(alloc)?,
            )?)),
            Stage::Impute { value } => Ok(AnyTransformation::Impute(Impute::new(
                domain, metric, *value,
            )?)),
            Stage::DropNone => Ok(AnyTransformation::DropNone(DropNone::new(domain, metric)?)),
            Stage::Clamp { lo, hi } => Ok(AnyTransformation::Clamp(Clamp::new(
                domain, metric, *lo, *hi,
            )?)),
            Stage::Bins { edges } => Ok(AnyTransformation::Bins(Bins::new(
                domain,
                metric,
                edges.duplicate(alloc)?.into_vec(),
            )?)),
            Stage::Resize { size, fill } => {
                Ok(AnyTransformation::Resize(Resize::new(domain, metric, *size, *fill)?))
            }
            Stage::Count => Ok(AnyTransformation::Count(Count::new(domain, metric)?)),
            Stage::Sum => Ok(AnyTransformation::Sum(Sum::new(domain, metric)?)),
            Stage::Histogram => Ok(AnyTransformation::Histogram(Histogram::new(domain, metric)?)),
            Stage::Quantise { step } => Ok(AnyTransformation::Quantise(Quantise::new(
                domain, metric, *step,
            )?)),
            Stage::AtLeast { edges } => Ok(AnyTransformation::AtLeast(AtLeast::new(
                domain,
                metric,
                edges.duplicate(alloc)?.into_vec(),
            )?)),
            Stage::Truncate { most } => Ok(AnyTransformation::Truncate(Truncate::new(
                domain, metric, *most,
            )?)),
        }
    }
}

impl Transformation for AnyTransformation {
    ghost use Rattle.dp_chain.specs.declared.any_transformation.AnyTransformation.TheVariants as any;

    ghost mapping = { elim [
      | any.Filter t ↦ ⟦<Filter as Transformation>⟧.mapping t
      | any.Select t ↦ ⟦<Select as Transformation>⟧.mapping t
      | any.Cast t ↦ ⟦<Cast as Transformation>⟧.mapping t
      | any.Categories t ↦ ⟦<Categories as Transformation>⟧.mapping t
      | any.Impute t ↦ ⟦<Impute as Transformation>⟧.mapping t
      | any.DropNone t ↦ ⟦<DropNone as Transformation>⟧.mapping t
      | any.Clamp t ↦ ⟦<Clamp as Transformation>⟧.mapping t
      | any.Bins t ↦ ⟦<Bins as Transformation>⟧.mapping t
      | any.Resize t ↦ ⟦<Resize as Transformation>⟧.mapping t
      | any.Count t ↦ ⟦<Count as Transformation>⟧.mapping t
      | any.Sum t ↦ ⟦<Sum as Transformation>⟧.mapping t
      | any.Histogram t ↦ ⟦<Histogram as Transformation>⟧.mapping t
      | any.Quantise t ↦ ⟦<Quantise as Transformation>⟧.mapping t
      | any.AtLeast t ↦ ⟦<AtLeast as Transformation>⟧.mapping t
      | any.Truncate t ↦ ⟦<Truncate as Transformation>⟧.mapping t
    ] };

    fn in_domain(&self) -> Domain {
        of_each!(self, part => part.in_domain())
    }

    fn in_metric(&self) -> Metric {
        of_each!(self, part => part.in_metric())
    }

    fn out_domain(&self) -> Domain {
        of_each!(self, part => part.out_domain())
    }

    fn out_metric(&self) -> Metric {
        of_each!(self, part => part.out_metric())
    }

    fn map(&self, d: u64) -> Result<u64, Past> {
        of_each!(self, part => part.map(d))
    }

    fn apply(&self, alloc: Global, v: &Value) -> Result<Value, NoMemory> {
        of_each!(self, part => part.apply(alloc, v))
    }

    ghost use Rattle.dp_rowwise.specs.contracts.filter.FilterTransformation.TheImpl.Laws.{law-law as filter_law};
    ghost use Rattle.dp_rowwise.specs.contracts.select.SelectTransformation.TheImpl.Laws.{law-law as select_law};
    ghost use Rattle.dp_rowwise.specs.contracts.cast.CastTransformation.TheImpl.Laws.{law-law as cast_law};
    ghost use Rattle.dp_rowwise.specs.contracts.categories.CategoriesTransformation.TheImpl.Laws.{law-law as categories_law};
    ghost use Rattle.dp_rowwise.specs.contracts.impute.ImputeTransformation.TheImpl.Laws.{law-law as impute_law};
    ghost use Rattle.dp_rowwise.specs.contracts.drop_none.DropNoneTransformation.TheImpl.Laws.{law-law as drop_none_law};
    ghost use Rattle.dp_rowwise.specs.contracts.clamp.ClampTransformation.TheImpl.Laws.{law-law as clamp_law};
    ghost use Rattle.dp_rowwise.specs.contracts.bins.BinsTransformation.TheImpl.Laws.{law-law as bins_law};
    ghost use Rattle.dp_aggregate.specs.contracts.resize.ResizeTransformation.TheImpl.Laws.{law-law as resize_law};
    ghost use Rattle.dp_aggregate.specs.contracts.count.CountTransformation.TheImpl.Laws.{law-law as count_law};
    ghost use Rattle.dp_aggregate.specs.contracts.sum.SumTransformation.TheImpl.Laws.{law-law as sum_law};
    ghost use Rattle.dp_aggregate.specs.contracts.histogram.HistogramTransformation.TheImpl.Laws.{law-law as histogram_law};
    ghost use Rattle.dp_aggregate.specs.contracts.quantise.QuantiseTransformation.TheImpl.Laws.{law-law as quantise_law};
    ghost use Rattle.dp_aggregate.specs.contracts.at_least.AtLeastTransformation.TheImpl.Laws.{law-law as at_least_law};
    ghost use Rattle.dp_rowwise.specs.contracts.truncate.TruncateTransformation.TheImpl.Laws.{law-law as truncate_law};

    ghost law = { elim [
      | any.Filter t ↦ filter_law t
      | any.Select t ↦ select_law t
      | any.Cast t ↦ cast_law t
      | any.Categories t ↦ categories_law t
      | any.Impute t ↦ impute_law t
      | any.DropNone t ↦ drop_none_law t
      | any.Clamp t ↦ clamp_law t
      | any.Bins t ↦ bins_law t
      | any.Resize t ↦ resize_law t
      | any.Count t ↦ count_law t
      | any.Sum t ↦ sum_law t
      | any.Histogram t ↦ histogram_law t
      | any.Quantise t ↦ quantise_law t
      | any.AtLeast t ↦ at_least_law t
      | any.Truncate t ↦ truncate_law t
    ] };
}
