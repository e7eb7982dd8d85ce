ghost use Rattle.std.specs.Prelude.{◌≡◌, IsTrue, ◌↔◌, ◌≤◌, ◌<◌, ◌^◌, length, All, IfSome};
ghost use Rattle.dp_domain.specs.Domains.{Fits, Has, FitsSize, FewCategories, few_and_one, IsBetween, HasSize};

use crate::lists::{Cats, Ints, OptInts, Rows, Texts};
use crate::ranges::{is_item_range, is_number_range};
use crate::values::Value;

/// A set of values. Bounds are included. A list without a size has at most 2^30 elements.
#[derive(Clone, Copy, Debug, PartialEq, Eq)]
pub enum Domain {
    /// Lists of records of so many cells, from 1 to 64.
    Rows { columns: u32 },
    /// Lists of texts.
    Texts,
    /// Lists of numbers from `lo` to `hi`, some of them missing. Bounds are from -2^31 to 2^31.
    OptInts { lo: i64, hi: i64 },
    /// Lists of numbers from `lo` to `hi`, of the size if one is given, from 1 to 2^20. Bounds are
    /// from -2^31 to 2^31.
    Ints { lo: i64, hi: i64, size: Option<u32> },
    /// Lists of categories below `n`, from 2 to 1,024, of the size if one is given, from 1 to 2^20.
    Cats { n: u32, size: Option<u32> },
    /// Numbers from `lo` to `hi`. Bounds are from -2^61 to 2^61.
    Int { lo: i64, hi: i64 },
    /// Categories below `n`, from 2 to 1,024.
    Cat { n: u32 },
    /// Vectors of so many numbers from `lo` to `hi`, from 2 to 1,024. Bounds are from -2^61 to 2^61.
    IntVec { len: u32, lo: i64, hi: i64 },
}

const MOST_ITEMS: u64 = 1 << 30;

const MOST_SIZE: u32 = 1 << 20;

const MOST_COLUMNS: u32 = 64;

const MOST_CATEGORIES: u32 = 1024;

/// The greatest number of edges, or of texts that are numbered: one more is a number of categories.
pub const MOST_LISTED: u64 = 1_023;

impl Domain {
    /// Whether the domain's numbers are within their limits and no lower bound is above its upper bound.
    pub fn fits(&self) -> bool
        ensures { IsTrue result ↔ Fits self.now }
    {
        match self {
            Domain::Rows { columns } => 1 <= *columns && *columns <= MOST_COLUMNS,
            Domain::Texts => true,
            Domain::OptInts { lo, hi } => is_item_range(lo, hi),
            Domain::Ints { lo, hi, size } => is_item_range(lo, hi) && fits_size(size),
            Domain::Cats { n, size } => few_categories(*n) && fits_size(size),
            Domain::Int { lo, hi } => is_number_range(lo, hi),
            Domain::Cat { n } => few_categories(*n),
            Domain::IntVec { len, lo, hi } => few_categories(*len) && is_number_range(lo, hi),
        }
    }

    /// Whether the value is of the domain's kind, and each of its elements, lengths and sizes is as the domain says: a
    /// list has its size where one is given, and else at most 2^30 elements.
    pub fn has(&self, v: &Value) -> bool
        requires { Fits self.now }
        ensures { IsTrue result ↔ Has self.now v.now }
    {
        match (self, v) {
            (Domain::Rows { columns }, Value::Rows(rows)) => has_rows(*columns, rows),
            (Domain::Texts, Value::Texts(texts)) => has_texts(texts),
            (Domain::OptInts { lo, hi }, Value::OptInts(ints)) => has_opt_ints(lo, hi, ints),
            (Domain::Ints { lo, hi, size }, Value::Ints(ints)) => {
                has_size(size, ints.len()) && all_between(lo, hi, ints)
            }
            (Domain::Cats { n, size }, Value::Cats(cats)) => {
                has_size(size, cats.len()) && all_below(*n, cats)
            }
            (Domain::Int { lo, hi }, Value::Int(int)) => is_between(lo, hi, int),
            (Domain::Cat { n }, Value::Cat(cat)) => *cat < *n,
            (Domain::IntVec { len, lo, hi }, Value::IntVec(cells)) => {
                cells.len() == u64::from(*len) && all_between(lo, hi, cells)
            }
            _ => false,
        }
    }

    /// Whether the two domains are equal.
    pub fn agrees(&self, other: &Domain) -> bool
        requires one { Fits self.now }
        requires other { Fits other.now }
        ensures { IsTrue result ↔ (self.now ≡ other.now) }
    {
        match self {
            Domain::Rows { columns } =>
                matches!(other, Domain::Rows { columns: c } if *columns == *c),
            Domain::Texts => matches!(other, Domain::Texts),
            Domain::OptInts { lo, hi } => {
                matches!(other, Domain::OptInts { lo: l, hi: h } if same_range(lo, hi, l, h))
            }
            Domain::Ints { lo, hi, size } => {
                matches!(other, Domain::Ints { lo: l, hi: h, size: s } if same_range(lo, hi, l, h) && *size == *s)
            }
            Domain::Cats { n, size } => {
                matches!(other, Domain::Cats { n: m, size: s } if *n == *m && *size == *s)
            }
            Domain::Int { lo, hi } => {
                matches!(other, Domain::Int { lo: l, hi: h } if same_range(lo, hi, l, h))
            }
            Domain::Cat { n } => matches!(other, Domain::Cat { n: m } if *n == *m),
            Domain::IntVec { len, lo, hi } => {
                matches!(other, Domain::IntVec { len: m, lo: l, hi: h } if *len == *m && same_range(lo, hi, l, h))
            }
        }
    }
}

fn same_range(lo: &i64, hi: &i64, other_lo: &i64, other_hi: &i64) -> bool
    ensures { IsTrue result ↔ ((lo.now ≡ other_lo.now) × (hi.now ≡ other_hi.now)) }
{
    *lo == *other_lo && *hi == *other_hi
}

fn fits_size(size: &Option<u32>) -> bool
    ensures { IsTrue result ↔ FitsSize size.now }
{
    match size {
        None => true,
        Some(n) => 1 <= *n && *n <= MOST_SIZE,
    }
}

fn few_categories(n: u32) -> bool
    ensures { IsTrue result ↔ FewCategories n }
{
    2 <= n && n <= MOST_CATEGORIES
}

/// Whether the number is from 1 to 1,023, so that with one more it is a number of categories.
pub fn few_and_one(n: u64) -> bool
    ensures { result ≡ few_and_one n }
{
    1 <= n && n <= MOST_LISTED
}

fn has_size(size: &Option<u32>, len: u64) -> bool
    ensures { IsTrue result ↔ HasSize size.now len }
{
    match size {
        None => len <= MOST_ITEMS,
        Some(size) => len == u64::from(*size),
    }
}

fn is_between(lo: &i64, hi: &i64, z: &i64) -> bool
    ensures { IsTrue result ↔ IsBetween lo.now hi.now z.now }
{
    *lo <= *z && *z <= *hi
}

fn is_opt_between(lo: &i64, hi: &i64, x: &Option<i64>) -> bool
    ensures { IsTrue result ↔ IfSome x.now (IsBetween lo.now hi.now) }
{
    match x {
        None => true,
        Some(z) => is_between(lo, hi, z),
    }
}

fn has_rows(columns: u32, rows: &Rows) -> bool
    ensures { IsTrue result ↔ ((length rows.now ≤ 2 ^ 30) × All (λ cells. length cells ≡ columns) rows.now) }
{
    rows.len() <= MOST_ITEMS
        && rows
            .as_slice()
            .iter()
            .all(|cells| cells.len() == u64::from(columns))
}

fn has_texts(texts: &Texts) -> bool
    ensures { IsTrue result ↔ (length texts.now ≤ 2 ^ 30) }
{
    texts.len() <= MOST_ITEMS
}

fn has_opt_ints(lo: &i64, hi: &i64, ints: &OptInts) -> bool
    ensures { IsTrue result ↔ ((length ints.now ≤ 2 ^ 30) × All (λ x. IfSome x (IsBetween lo.now hi.now)) ints.now) }
{
    ints.len() <= MOST_ITEMS && ints.as_slice().iter().all(|x| is_opt_between(lo, hi, x))
}

fn all_between(lo: &i64, hi: &i64, ints: &Ints) -> bool
    ensures { IsTrue result ↔ All (IsBetween lo.now hi.now) ints.now }
{
    ints.as_slice().iter().all(|z| is_between(lo, hi, z))
}

fn all_below(n: u32, cats: &Cats) -> bool
    ensures { IsTrue result ↔ All (λ x. x < n) cats.now }
{
    cats.as_slice().iter().all(|x| *x < n)
}
