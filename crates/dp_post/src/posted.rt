ghost use Rattle.std.specs.Prelude.{◌≡◌, ◌≤◌, length};
ghost use Rattle.dp_post.specs.Posts.{posted};
ghost use Rattle.dp_post.specs.Posted.{changed_by};

use crate::post::{Posts, changed_answer};
use dp_count::{NoMemory, Shape};
use dp_domain::{Domain, Metric, Value};
use dp_draws::Draws;
use dp_law::{Answer, Measurement, ReleaseFault};
use dp_num::Past;
use std::alloc::Global;

/// A measurement whose answers are changed after their release, at no further loss. Domain, metric, draws, number of
/// pieces and loss are the inner measurement's.
#[derive(Drop)]
pub struct Posted<M: Measurement> {
    inner: M,
    posts: Posts,
    ghost few: { length posts ≤ 16 },
}

impl<M: Measurement + Drop> Posted<M> {
    /// The inner measurement, with each of its answers changed by at most 16 changes, from first to last.
    pub fn new(inner: M, posts: Posts) -> Posted<M>
        requires { length posts ≤ 16 }
        ensures { ⟦<Posted<M> as Measurement>⟧.mechanism result ≡ changed_by (posted posts) (M.mechanism inner) }
    {
        Posted { inner, posts }
    }
}

impl<M: Measurement> Measurement for Posted<M> {
    ghost use Rattle.dp_post.specs.Posts.{posted};
    ghost use Rattle.dp_post.specs.Posted.{changed_by};
    ghost use Rattle.dp_post.specs.PostedProof.{posted_law};

    ghost mechanism = { λ m. changed_by (posted m.posts) (M.mechanism m.inner) };

    fn in_domain(&self) -> Domain {
        self.inner.in_domain()
    }

    fn in_metric(&self) -> Metric {
        self.inner.in_metric()
    }

    fn draws(&self) -> u64 {
        self.inner.draws()
    }

    fn pieces(&self) -> u64 {
        self.inner.pieces()
    }

    fn shape(&self, alloc: Global) -> Result<Shape, NoMemory> {
        self.inner.shape(alloc)
    }

    fn loss(&self, d: u64) -> Result<u64, Past> {
        self.inner.loss(d)
    }

    fn release<D: Draws>(
        &self,
        alloc: Global,
        v: &Value,
        draws: &mut D,
    ) -> Result<Answer, ReleaseFault> {
        match self.inner.release(alloc, v, draws) {
            Err(fault) => Err(fault),
            Ok(answer) => Ok(changed_answer(self.posts.as_slice(), answer)),
        }
    }

    ghost law = { λ m. posted_law m.posts (M.mechanism m.inner) (M.law m.inner) };
}
