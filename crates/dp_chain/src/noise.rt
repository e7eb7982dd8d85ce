ghost use Rattle.std.specs.Prelude.{◌≡◌, IfOk};

use crate::stage::Stages;
use dp_count::NoMemory;
use dp_domain::{Duplicate, Items};
use std::alloc::Global;

/// The parameters of a measurement. `u` is a number of units.
#[derive(Clone, Copy, Debug)]
pub enum Noise {
    /// Truncated geometric noise on a range.
    Geometric {
        /// The units of loss for each step of distance.
        u: u64,
        /// The least answer.
        lo: i64,
        /// The greatest answer.
        hi: i64,
    },
    /// Randomised response.
    Response {
        /// The units of loss.
        u: u64,
    },
    /// Weighted choice of a cell, by scores from 0 to `top` - `floor`.
    Choice {
        /// The units by which a weight grows with each step of the score.
        u: u64,
        /// The number whose score is 0.
        floor: i64,
        /// The number whose score is the greatest.
        top: i64,
    },
}

/// A line of stages and the noise on what it gives.
#[derive(Debug, Drop)]
pub struct Part {
    /// The stages, from first to last.
    pub stages: Stages,
    /// The noise.
    pub noise: Noise,
}

/// The parts of a release in order.
pub type ReleaseSpec = Items<Part>;

impl Duplicate for Part {
    fn duplicate(&self, alloc: Global) -> Result<Part, NoMemory> {
        copy_of(alloc, self)
    }

    fn duplicate_all(alloc: Global, items: &[Part]) -> Result<Vec<Part>, NoMemory> {
        let mut copies = Vec::with_capacity(alloc, items.len())?;
        for item in items {
            copies.push(copy_of(alloc, item)?)?;
        }
        Ok(copies)
    }
}

/// An equal part in memory of its own.
fn copy_of(alloc: Global, part: &Part) -> Result<Part, NoMemory>
    ensures { IfOk result (λ copy. copy ≡ part.now) }
{
    Ok(Part {
        stages: part.stages.duplicate(alloc)?,
        noise: part.noise,
    })
}
