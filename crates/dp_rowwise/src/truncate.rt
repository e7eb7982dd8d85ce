ghost use Rattle.std.specs.Prelude.{◌≡◌, ◌<◌, ◌≤◌, ◌^◌, length, map, IfOk};
ghost use Rattle.dp_domain.specs.Users.{cell};
ghost use Rattle.dp_domain.specs.Domains.{Fits};
ghost use Rattle.dp_domain.specs.declared.domains.Domain.TheVariants as domain;
ghost use Rattle.dp_domain.proofs.Limits.{Fits-prop};
ghost use Rattle.dp_law.specs.Making.{Makes};
ghost use Rattle.dp_rowwise.specs.Truncate.{text_cmp, record_cmp, record_at, truncated, truncate_from, Truncates};

use crate::persons::{Records, kept_places};
use dp_count::NoMemory;
use dp_domain::{Domain, Duplicate, Metric, Record, Rows, Text, Value};
use dp_law::{Refused, Transformation};
use dp_num::{Past, mul_units};
use std::alloc::Global;
use std::cmp::Ordering;

const MOST: u64 = 1 << 20;

/// Keeps at most so many records of each person, the least ones and of equal ones the first, in order. It takes `Rows`
/// by `Users` of a column of the domain and gives `Rows` by `Symmetric`. The work is that of sorting the records, and
/// each record that stays is copied once.
#[derive(Clone, Copy, Debug)]
pub struct Truncate {
    most: u64,
    column: u32,
    columns: u32,
    ghost fits: { Fits (domain.Rows columns) } by { Fits-prop (domain.Rows columns) },
    ghost within: { column < columns },
    ghost some: { 1 ≤ most },
    ghost few: { most ≤ 2 ^ 20 },
}

impl Truncate {
    ghost use Rattle.dp_rowwise.specs.Truncate.{truncate_value};
    ghost use Rattle.dp_rowwise.specs.Columns.{HasColumn};
    ghost use Rattle.dp_rowwise.specs.Parts.{truncate_column, truncate_most};

    /// Truncating to at most so many records of each person. `Kind` comes exactly where the domain is not `Rows`,
    /// `Metric` exactly where it is and the metric is not `Users` of a column of the domain, and `Bound` exactly where
    /// neither comes and the number is not from 1 to 2^20.
    pub fn new(domain: Domain, metric: Metric, most: u64) -> Result<Truncate, Refused>
        requires { Fits domain }
        ensures { Makes ⟦<Truncate as Transformation>⟧.mapping result (truncate_from most domain metric) }
    {
        let Domain::Rows { columns } = domain else {
            return Err(Refused::Kind);
        };
        let Metric::Users(column) = metric else {
            return Err(Refused::Metric);
        };
        if column >= columns {
            return Err(Refused::Metric);
        }
        if most < 1 || most > MOST {
            return Err(Refused::Bound);
        }
        Ok(Truncate {
            most,
            column,
            columns,
        })
    }

    /// How many records of a person stay at most.
    pub fn most(&self) -> u64
        ensures truncates { Truncates result (⟦<Truncate as Transformation>⟧.mapping self.now) }
        ensures value { result ≡ truncate_most self.now }
    {
        self.most
    }

    /// The column whose cells name the persons, from 0. The input domain has it.
    pub fn column(&self) -> u32
        ensures value { result ≡ truncate_column self.now }
        ensures within { let m = ⟦<Truncate as Transformation>⟧.mapping self.now in HasColumn m.input_domain result }
        ensures keeps { let m = ⟦<Truncate as Transformation>⟧.mapping self.now in
            m.function ≡ truncate_value (truncate_column self.now) (truncate_most self.now) }
    {
        self.column
    }
}

impl Transformation for Truncate {
    ghost use Rattle.dp_rowwise.specs.Truncate.{truncate_mapping};
    ghost use Rattle.dp_rowwise.specs.TruncateProof.{truncate_law};

    ghost mapping = { λ t. truncate_mapping t.column t.most t.columns };

    fn in_domain(&self) -> Domain {
        Domain::Rows {
            columns: self.columns,
        }
    }

    fn in_metric(&self) -> Metric {
        Metric::Users(self.column)
    }

    fn out_domain(&self) -> Domain {
        Domain::Rows {
            columns: self.columns,
        }
    }

    fn out_metric(&self) -> Metric {
        Metric::Symmetric
    }

    fn map(&self, d: u64) -> Result<u64, Past> {
        mul_units(2 * self.most, d)
    }

    fn apply(&self, alloc: Global, v: &Value) -> Result<Value, NoMemory> {
        let Value::Rows(rows) = v else { unreachable!() };
        let kept = kept_records(alloc, rows.as_slice(), self.column, self.most)?;
        Ok(Value::Rows(Rows::from_vec(kept)))
    }

    ghost law = { λ t. truncate_law t.column t.most t.columns t.fits t.within };
}

/// Records in a list, whose cells in a column name the persons.
#[derive(Clone, Copy)]
struct Listed<'a> {
    rows: &'a [Record],
    column: u32,
    ghost few: { length rows.now ≤ 2 ^ 30 },
}

impl<'a> Records for Listed<'a> {
    ghost rows = { λ r. r.rows.now };

    ghost column = { λ r. r.column };

    fn count(&self) -> u32 {
        self.rows.len() as u32
    }

    fn order(&self, i: u32, j: u32) -> Ordering {
        let one = record_at(self.rows, i);
        let other = record_at(self.rows, j);
        match text_order(cell_in(one, self.column), cell_in(other, self.column)) {
            Ordering::Less => Ordering::Less,
            Ordering::Equal => record_order(one, other),
            Ordering::Greater => Ordering::Greater,
        }
    }

    fn same_person(&self, i: u32, j: u32) -> bool {
        cell_in(record_at(self.rows, i), self.column)
            == cell_in(record_at(self.rows, j), self.column)
    }
}

/// The record at a place, and past the end the one without cells.
fn record_at(rows: &[Record], place: u32) -> &[Text]
    ensures { result.now ≡ record_at rows.now place }
{
    match rows.get(place as usize) {
        Some(record) => record.as_slice(),
        None => &[],
    }
}

/// The cell in a column, and past the end the empty text.
fn cell_in(cells: &[Text], column: u32) -> &[u8]
    ensures { result.now ≡ cell column cells.now }
{
    match cells.get(column as usize) {
        Some(text) => text.as_slice(),
        None => &[],
    }
}

/// The order of two texts by their bytes.
fn text_order(one: &[u8], other: &[u8]) -> Ordering
    ensures { result ≡ text_cmp one.now other.now }
{
    one.cmp(other)
}

/// The order of two records by their cells.
fn record_order(one: &[Text], other: &[Text]) -> Ordering
    ensures { result ≡ record_cmp one.now other.now }
{
    for column in 0..one.len().min(other.len()) {
        let order = text_order(one[column].as_slice(), other[column].as_slice());
        if order != Ordering::Equal {
            return order;
        }
    }
    one.len().cmp(&other.len())
}

/// The records that stay.
fn kept_records(
    alloc: Global,
    rows: &[Record],
    column: u32,
    most: u64,
) -> Result<Vec<Record>, NoMemory>
    requires few { length rows.now ≤ 2 ^ 30 }
    requires some { 1 ≤ most }
    ensures { IfOk result (λ kept. kept.items ≡ truncated column most rows.now) }
{
    let places = kept_places(alloc, &Listed { rows, column }, most)?;
    copies_at(alloc, rows, places.as_slice())
}

/// Equal records to those at the places, in memory of their own.
fn copies_at(alloc: Global, rows: &[Record], places: &[u32]) -> Result<Vec<Record>, NoMemory>
    ensures { IfOk result (λ copies. copies.items ≡ map (record_at rows.now) places.now) }
{
    let mut copies = Vec::with_capacity(alloc, places.len())?;
    for place in places {
        let cells = Text::duplicate_all(alloc, record_at(rows, *place))?;
        copies.push(Record::from_vec(cells))?;
    }
    Ok(copies)
}
