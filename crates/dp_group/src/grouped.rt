ghost use Rattle.std.specs.Prelude.{◌≡◌, ◌≤◌, ◌*◌, ◌^◌, length, map, true, Some, IfOk};
ghost use Rattle.std.specs.List.{All, repeat};
ghost use Rattle.dp_domain.specs.declared.metrics.Metric.TheVariants as metrics;
ghost use Rattle.dp_law.specs.Making.{MakesOr};
ghost use Rattle.dp_law.specs.Releasing.{Released, ReleaseCause};
ghost use Rattle.dp_rowwise.specs.Categories.{are_different};
ghost use Rattle.dp_rowwise.specs.Parts.{category_texts};
ghost use Rattle.dp_group.specs.Grouped.{TakesColumn, answers_on, are_group_texts, grouped, grouped_on};
ghost use Rattle.dp_group.specs.ColumnProof.{TakesColumn-prop};

use crate::groups::{groups_of, table_of};
use crate::input::ReleaseInput;
use dp_count::{NoMemory, Shape};
use dp_domain::{Domain, Metric, Texts, Value};
use dp_draws::Draws;
use dp_law::{Answer, MakeFault, Measurement, ReleaseFault};
use dp_num::{Past, mul_units};
use dp_rowwise::Categories;
use std::alloc::Global;

/// One measurement on each group of records, where a group is the records that have one text in a column. The answers
/// follow one another in the order of the texts, each on draws of its own, and records of no text are in no group. A
/// record is in one group at most, so the loss is that of one group: nothing at the distance 0, and else the distance
/// times the inner measurement's loss at 1.
#[derive(Drop)]
pub struct Grouped<M: Measurement> {
    inner: M,
    column: u32,
    texts: Categories,
    ghost takes_column: { TakesColumn (M.mechanism inner) column } by { TakesColumn-prop (M.mechanism inner) column },
    ghost symmetric: { let m = M.mechanism inner in m.input_metric ≡ metrics.Symmetric },
    ghost nothing_at_0: { let m = M.mechanism inner in m.privacy_map 0 ≡ Some 0 },
    ghost few_draws: { let m = M.mechanism inner in length m.shape ≤ 2 ^ 20 },
    ghost few_pieces: { let m = M.mechanism inner in m.pieces ≤ 2 ^ 20 },
    ghost are_texts: { are_group_texts (category_texts texts) ≡ true },
}

impl<M: Measurement + Drop> Grouped<M> {
    /// The inner measurement on the group of each text in the column, from 0. Its loss at the distance 0 is 0, and it
    /// takes at most 2^20 draws and gives at most 2^20 pieces. `Kind` comes exactly where its input domain is not
    /// `Rows`, `Metric` exactly where it is and the input metric is not `Symmetric`, and `Bound` exactly where neither
    /// comes and the domain has no such column, there are not 1 to 1,023 texts, or two texts are equal.
    pub fn new(alloc: Global, inner: M, column: u32, texts: Texts) -> Result<Grouped<M>, MakeFault>
        requires few_draws { let m = M.mechanism inner in length m.shape ≤ 2 ^ 20 }
        requires few_pieces { let m = M.mechanism inner in m.pieces ≤ 2 ^ 20 }
        requires nothing_at_0 { let m = M.mechanism inner in m.privacy_map 0 ≡ Some 0 }
        ensures { MakesOr ⟦<Grouped<M> as Measurement>⟧.mechanism result
            (grouped_on column texts (M.mechanism inner)) }
    {
        let Domain::Rows { columns } = inner.in_domain() else {
            return Err(MakeFault::Kind);
        };
        if inner.in_metric() != Metric::Symmetric {
            return Err(MakeFault::Metric);
        }
        if column >= columns {
            return Err(MakeFault::Bound);
        }
        match table_of(alloc, texts) {
            Ok(texts) => Ok(Grouped {
                inner,
                column,
                texts,
            }),
            Err(fault) => Err(fault),
        }
    }
}

impl<M: Measurement> Grouped<M> {
    /// The inner measurement, the column from 0, and the texts in order.
    pub fn parts(&self) -> (&M, u32, &Categories)
        ensures grouped { ⟦<Grouped<M> as Measurement>⟧.mechanism self.now
            ≡ grouped result.1 (category_texts result.2.now) (M.mechanism result.0.now) }
        ensures column { TakesColumn (M.mechanism result.0.now) result.1 }
        ensures different { are_different (category_texts result.2.now) ≡ true }
    {
        (&self.inner, self.column, &self.texts)
    }
}

impl<M: Measurement> Measurement for Grouped<M> {
    ghost use Rattle.dp_rowwise.specs.Parts.{category_texts};
    ghost use Rattle.dp_group.specs.Grouped.{grouped};
    ghost use Rattle.dp_group.specs.GroupedProof.{grouped_law};

    ghost mechanism = { λ m. grouped m.column (category_texts m.texts) (M.mechanism m.inner) };

    fn in_domain(&self) -> Domain {
        self.inner.in_domain()
    }

    fn in_metric(&self) -> Metric {
        self.inner.in_metric()
    }

    fn draws(&self) -> u64 {
        u64::from(self.texts.len()) * self.inner.draws()
    }

    fn pieces(&self) -> u64 {
        u64::from(self.texts.len()) * self.inner.pieces()
    }

    fn shape(&self, alloc: Global) -> Result<Shape, NoMemory> {
        let shape = self.inner.shape(alloc)?;
        repeated(alloc, &shape, self.texts.len())
    }

    fn loss(&self, d: u64) -> Result<u64, Past> {
        if d == 0 {
            return Ok(0);
        }
        let once = self.inner.loss(1)?;
        mul_units(d, once)
    }

    fn release<D: Draws>(
        &self,
        alloc: Global,
        v: &Value,
        draws: &mut D,
    ) -> Result<Answer, ReleaseFault> {
        let Value::Rows(rows) = v else { unreachable!() };
        let groups = match groups_of(alloc, &self.texts, self.column, rows.as_slice()) {
            Ok(groups) => groups,
            Err(NoMemory) => return Err(ReleaseFault::NoMemory),
        };
        release_each(alloc, &self.inner, groups.as_slice(), draws)
    }

    ghost law = { λ m. grouped_law m.column (category_texts m.texts) (M.mechanism m.inner)
        record { private = M.law m.inner; symmetric = m.symmetric; nothing_at_0 = m.nothing_at_0 }
        m.takes_column m.few_draws m.few_pieces m.are_texts };
}

/// The bounds of the shape so many times.
fn repeated(alloc: Global, shape: &Shape, times: u32) -> Result<Shape, NoMemory>
    requires { times * length shape.now ≤ 2 ^ 40 }
    ensures { IfOk result (λ whole. whole ≡ repeat times shape.now) }
{
    let mut whole = Shape::new(alloc);
    for _turn in 0..times {
        whole.join(shape)?;
    }
    Ok(whole)
}

/// The answers of the measurement on the inputs in order. The memory for an answer is taken before its first draw.
pub fn release_each<M: Measurement, I: ReleaseInput<M>, D: Draws>(
    alloc: Global,
    inner: &M,
    inputs: &[I],
    draws: &mut D,
) -> Result<Answer, ReleaseFault>
    requires { let m = M.mechanism inner.now in All (λ input. I.takes input m.input_domain) inputs.now }
    ensures released { let m = M.mechanism inner.now in
        Released D.step (repeat (length inputs.now) m.shape) (answers_on m (map I.stands_for inputs.now))
        (D.state draws.old) result (D.state draws.new) }
    ensures cause { ReleaseCause (D.faults draws.old) (D.faults draws.new) result }
{
    let mut answer = Vec::new(alloc);
    for input in inputs {
        answer.reserve(inner.pieces() as usize)?;
        let part = input.released(alloc, inner, draws)?;
        answer.append(&mut part.into_vec()).unwrap();
    }
    Ok(Answer::from_vec(answer))
}
