ghost use Rattle.std.specs.Prelude.{◌≡◌, ◌<◌, ◌==◌, length, filter, IfOk, All};
ghost use Rattle.dp_domain.specs.Distance.{text_eq};
ghost use Rattle.dp_domain.specs.Domains.{Fits};
ghost use Rattle.dp_domain.specs.declared.domains.Domain.TheVariants as domain;
ghost use Rattle.dp_domain.proofs.Limits.{Fits-prop};
ghost use Rattle.dp_law.specs.Making.{Makes};
ghost use Rattle.dp_domain.specs.Users.{cell};
ghost use Rattle.dp_rowwise.specs.Filter.{filter_from, compares_rows};

use dp_count::NoMemory;
use dp_domain::{Domain, Duplicate, Metric, Record, Rows, Value};
use dp_law::{Refused, Transformation};
use dp_num::Past;
use std::alloc::Global;

/// Keeps the records whose cell in a column is a text, byte for byte, in order. It takes `Rows` by `Symmetric`, or by
/// `Users` of a column of the domain, and gives the same. The work is linear in the cells.
#[derive(Debug, Drop)]
pub struct Filter {
    column: u32,
    text: Vec<u8>,
    columns: u32,
    metric: Metric,
    ghost fits: { Fits (domain.Rows columns) } by { Fits-prop (domain.Rows columns) },
    ghost within: { column < columns },
}

impl Filter {
    ghost use Rattle.dp_rowwise.specs.Filter.{filter_value};
    ghost use Rattle.dp_rowwise.specs.Columns.{HasColumn};
    ghost use Rattle.dp_rowwise.specs.Parts.{filter_column, filter_text};

    /// The filter of the column, from 0, by the text. `Kind` comes exactly where the domain is not `Rows`, `Metric`
    /// exactly where it is and the metric is neither `Symmetric` nor `Users` of a column of the domain, and `Bound`
    /// exactly where neither comes and the domain has no such column.
    pub fn new(
        domain: Domain,
        metric: Metric,
        column: u32,
        text: Vec<u8>,
    ) -> Result<Filter, Refused>
        requires { Fits domain }
        ensures { Makes ⟦<Filter as Transformation>⟧.mapping result (filter_from column text.items domain metric) }
    {
        let Domain::Rows { columns } = domain else {
            return Err(Refused::Kind);
        };
        if !compares_rows(columns, metric) {
            return Err(Refused::Metric);
        }
        if column >= columns {
            return Err(Refused::Bound);
        }
        Ok(Filter {
            column,
            text,
            columns,
            metric,
        })
    }

    /// The column, from 0. The input domain has it.
    pub fn column(&self) -> u32
        ensures value { result ≡ filter_column self.now }
        ensures within { let m = ⟦<Filter as Transformation>⟧.mapping self.now in HasColumn m.input_domain result }
        ensures keeps { let m = ⟦<Filter as Transformation>⟧.mapping self.now in
            m.function ≡ filter_value (filter_column self.now) (filter_text self.now) }
    {
        self.column
    }

    /// The text that a record has in the column to be kept.
    pub fn text(&self) -> &[u8]
        ensures { result.now ≡ filter_text self.now }
    {
        self.text.as_slice()
    }
}

impl Transformation for Filter {
    ghost use Rattle.dp_rowwise.specs.Filter.{filter_mapping};
    ghost use Rattle.dp_rowwise.specs.FilterProof.{filter_law};

    ghost mapping = { λ t. filter_mapping t.column t.text.items t.columns t.metric };

    fn in_domain(&self) -> Domain {
        Domain::Rows {
            columns: self.columns,
        }
    }

    fn in_metric(&self) -> Metric {
        self.metric
    }

    fn out_domain(&self) -> Domain {
        Domain::Rows {
            columns: self.columns,
        }
    }

    fn out_metric(&self) -> Metric {
        self.metric
    }

    fn map(&self, d: u64) -> Result<u64, Past> {
        Ok(d)
    }

    fn apply(&self, alloc: Global, v: &Value) -> Result<Value, NoMemory> {
        let Value::Rows(rows) = v else { unreachable!() };
        let kept = matching(alloc, rows.as_slice(), self.column, self.text.as_slice())?;
        Ok(Value::Rows(Rows::from_vec(kept)))
    }

    ghost law = { λ t. filter_law t.column t.text.items t.columns t.metric t.fits };
}

/// Whether the metric compares records of so many cells: `Symmetric`, or `Users` of one of their columns.
fn compares_rows(columns: u32, metric: Metric) -> bool
    ensures { result ≡ compares_rows columns metric }
{
    match metric {
        Metric::Symmetric => true,
        Metric::Users(user) => user < columns,
        _ => false,
    }
}

/// The records whose cell in the column is the text.
fn matching(
    alloc: Global,
    rows: &[Record],
    column: u32,
    text: &[u8],
) -> Result<Vec<Record>, NoMemory>
    requires { All (λ cells. column < length cells) rows.now }
    ensures { IfOk result (λ kept. kept.items ≡ filter (λ cells. text_eq (cell column cells) text.now) rows.now) }
{
    let mut kept = Vec::new(alloc);
    for cells in rows {
        if has_text(cells, column, text) {
            kept.push(cells.duplicate(alloc)?)?;
        }
    }
    Ok(kept)
}

/// Whether the record's cell in the column is the text.
fn has_text(cells: &Record, column: u32, text: &[u8]) -> bool
    requires { column < length cells.now }
    ensures { result ≡ text_eq (cell column cells.now) text.now }
{
    cells.at(u64::from(column)).as_slice() == text
}
