ghost use Rattle.std.specs.Prelude.{◌≡◌, [], ◌∷◌, ◌++◌, ◌<◌, ◌≤◌, ◌+◌, ◌^◌, ◌==◌, length, replicate, slice_get, Some, IfOk, OnOk, OnErr};
ghost use Rattle.std.specs.List.{All};

use crate::NoMemory;
use std::alloc::Global;
use std::marker::Model;

/// One bound, some number of times in a row.
#[derive(Clone, Copy, Debug)]
struct Run {
    bound: u64,
    times: u64,
}

/// The shape of draw lists: the bounds of the draws, each at least 1, at most 2^40 of them. Contracts see the list of
/// the bounds; it is kept as runs of one bound.
#[derive(Debug, Drop)]
pub struct Shape {
    runs: Vec<Run>,
    len: u64,
}

impl Model for Shape {
    ghost use Rattle.std.specs.Prelude.{ℕ, List};

    ghost Value = { List ℕ };

    ghost use Rattle.dp_count.specs.Bounds.{bounds, AreRuns};

    ghost view = { λ s. bounds s.runs.items };

    ghost invariant = { λ s. AreRuns s.runs.items s.len };
}

impl Shape {
    /// The shape without a draw, which takes no memory.
    pub fn new(alloc: Global) -> Shape
        ensures { result ≡ [] }
    {
        Shape {
            runs: Vec::new(alloc),
            len: 0,
        }
    }

    /// The shape of one draw below `m`.
    pub fn one(alloc: Global, m: u64) -> Result<Shape, NoMemory>
        requires { 1 ≤ m }
        ensures { IfOk result (λ shape. shape ≡ m ∷ []) }
    {
        Shape::repeat(alloc, m, 1)
    }

    /// The shape of `times` draws below `m`.
    pub fn repeat(alloc: Global, m: u64, times: u64) -> Result<Shape, NoMemory>
        requires bound { 1 ≤ m }
        requires few { times ≤ 2 ^ 32 }
        ensures { IfOk result (λ shape. shape ≡ replicate times m) }
    {
        let mut runs = Vec::new(alloc);
        runs.push(Run { bound: m, times })?;
        Ok(Shape { runs, len: times })
    }

    /// Appends the bounds of another shape. After `NoMemory` the shape is unchanged.
    pub fn join(&mut self, other: &Shape) -> Result<(), NoMemory>
        requires { length self.old + length other.now ≤ 2 ^ 40 }
        ensures ok { OnOk result (self.new ≡ self.old ++ other.now) }
        ensures err { OnErr result (self.new ≡ self.old) }
    {
        self.runs.extend_from_slice(other.runs.as_slice())?;
        self.len += other.len;
        Ok(())
    }

    /// How many draws a draw list of the shape has.
    pub fn len(&self) -> u64
        ensures value { result ≡ length self.now }
        ensures few { result ≤ 2 ^ 40 }
        ensures positive { All (λ bound. 1 ≤ bound) self.now }
    {
        self.len
    }

    /// Whether the shape has no draw.
    pub fn is_empty(&self) -> bool
        ensures { result ≡ (length self.now == 0) }
    {
        self.len == 0
    }

    /// The bound of the draw at place `k`, from 0.
    pub fn at(&self, k: u64) -> u64
        requires { k < length self.now }
        ensures { slice_get self.now k ≡ Some result }
    {
        let mut left = k;
        for run in &self.runs {
            if left < run.times {
                return run.bound;
            }
            left -= run.times;
        }
        unreachable!()
    }
}

#[cfg(test)]
mod tests {
    use super::*;

    #[test]
    fn joined_bounds_follow_one_another(rt: HostRuntime) -> Result<(), NoMemory> {
        let mut shape = Shape::one(rt.alloc(), 3)?;
        shape.join(&Shape::repeat(rt.alloc(), 2, 3)?)?;
        shape.join(&Shape::new(rt.alloc()))?;
        shape.join(&Shape::repeat(rt.alloc(), 5, 0)?)?;
        shape.join(&Shape::one(rt.alloc(), 4_611_686_018_427_387_904)?)?;
        assert!(rt; !shape.is_empty());
        assert_eq!(rt; shape.len(), 5);
        for (k, bound) in [
            (0, 3),
            (1, 2),
            (2, 2),
            (3, 2),
            (4, 4_611_686_018_427_387_904),
        ] {
            assert!(rt; k < shape.len());
            assert_eq!(rt; shape.at(k), bound);
        }
        Ok(())
    }
}
