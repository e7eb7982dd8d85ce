//! Pipelines and queries from their JSON texts. A text is read as one definition says: a pipeline, or the first of the
//! refusals that applies. A pipeline's stages are printed as they are made.
#![tactic(auto)]

mod content;
mod costs;
mod faults;
mod json;
mod lines;
mod pipeline;
mod place;
mod plan;
mod printing;
mod query;
mod ranges;
mod reading;
mod root;
mod spec;
mod stages;

pub use content::Siblings;
pub use faults::{PipelineFault, PrintFault, QueryFault};
pub use pipeline::{Pipeline, read_pipeline};
pub use place::Place;
pub use plan::{Plan, Plans};
pub use printing::print_stages;
pub use query::{Query, read_query};
pub use root::RootSpec;
pub use spec::Spec;

#[cfg(test)]
mod tests;
