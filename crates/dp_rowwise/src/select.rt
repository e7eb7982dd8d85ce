ghost use Rattle.std.specs.Prelude.{◌≡◌, ◌<◌, length, map, IfOk, All};
ghost use Rattle.dp_domain.specs.Domains.{Fits};
ghost use Rattle.dp_domain.specs.declared.domains.Domain.TheVariants as domain;
ghost use Rattle.dp_domain.proofs.Limits.{Fits-prop};
ghost use Rattle.dp_law.specs.Making.{Makes};
ghost use Rattle.dp_domain.specs.Users.{cell};
ghost use Rattle.dp_rowwise.specs.Select.{select_from};

use dp_count::NoMemory;
use dp_domain::{Domain, Duplicate, Metric, Record, Text, Texts, Value};
use dp_law::{Refused, Transformation};
use dp_num::Past;
use std::alloc::Global;

/// Gives the cell in a column of each record. It takes `Rows` and gives `Texts`, both by `Symmetric`. The work is
/// linear in the records and in the bytes of their cells in the column.
#[derive(Debug, Drop)]
pub struct Select {
    column: u32,
    columns: u32,
    ghost fits: { Fits (domain.Rows columns) } by { Fits-prop (domain.Rows columns) },
    ghost within: { column < columns },
}

impl Select {
    ghost use Rattle.dp_rowwise.specs.Select.{select_value};
    ghost use Rattle.dp_rowwise.specs.Columns.{HasColumn};
    ghost use Rattle.dp_rowwise.specs.Parts.{select_column};

    /// The selection of the column, from 0. `Kind` comes exactly where the domain is not `Rows`, `Metric` exactly where
    /// it is and the metric is not `Symmetric`, and `Bound` exactly where neither comes and the domain has no such
    /// column.
    pub fn new(domain: Domain, metric: Metric, column: u32) -> Result<Select, Refused>
        requires { Fits domain }
        ensures { Makes ⟦<Select as Transformation>⟧.mapping result (select_from column domain metric) }
    {
        let Domain::Rows { columns } = domain else {
            return Err(Refused::Kind);
        };
        if metric != Metric::Symmetric {
            return Err(Refused::Metric);
        }
        if column >= columns {
            return Err(Refused::Bound);
        }
        Ok(Select { column, columns })
    }

    /// The column, from 0. The input domain has it.
    pub fn column(&self) -> u32
        ensures value { result ≡ select_column self.now }
        ensures within { let m = ⟦<Select as Transformation>⟧.mapping self.now in HasColumn m.input_domain result }
        ensures selects { let m = ⟦<Select as Transformation>⟧.mapping self.now in
            m.function ≡ select_value (select_column self.now) }
    {
        self.column
    }
}

impl Transformation for Select {
    ghost use Rattle.dp_rowwise.specs.Select.{select_mapping};
    ghost use Rattle.dp_rowwise.specs.SelectProof.{select_law};

    ghost mapping = { λ t. select_mapping t.column t.columns };

    fn in_domain(&self) -> Domain {
        Domain::Rows {
            columns: self.columns,
        }
    }

    fn in_metric(&self) -> Metric {
        Metric::Symmetric
    }

    fn out_domain(&self) -> Domain {
        Domain::Texts
    }

    fn out_metric(&self) -> Metric {
        Metric::Symmetric
    }

    fn map(&self, d: u64) -> Result<u64, Past> {
        Ok(d)
    }

    fn apply(&self, alloc: Global, v: &Value) -> Result<Value, NoMemory> {
        let Value::Rows(rows) = v else { unreachable!() };
        let texts = cells_of(alloc, rows.as_slice(), self.column)?;
        Ok(Value::Texts(Texts::from_vec(texts)))
    }

    ghost law = { λ t. select_law t.column t.columns t.fits };
}

/// The cell in the column of each record.
fn cells_of(alloc: Global, rows: &[Record], column: u32) -> Result<Vec<Text>, NoMemory>
    requires { All (λ cells. column < length cells) rows.now }
    ensures { IfOk result (λ texts. texts.items ≡ map (cell column) rows.now) }
{
    let mut texts = Vec::with_capacity(alloc, rows.len())?;
    for cells in rows {
        texts.push(cell_of(alloc, cells, column)?)?;
    }
    Ok(texts)
}

/// The record's cell in the column.
fn cell_of(alloc: Global, cells: &Record, column: u32) -> Result<Text, NoMemory>
    requires { column < length cells.now }
    ensures { IfOk result (λ text. text ≡ cell column cells.now) }
{
    cells.at(u64::from(column)).duplicate(alloc)
}
