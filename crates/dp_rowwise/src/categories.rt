ghost use Rattle.std.proofs.Props.{props};
ghost use Rattle.std.specs.Prelude.{◌≡◌, ◌≤◌, ◌+◌, true, false, length, map, IfOk, MatchOption, None};
ghost use Rattle.dp_domain.specs.Domains.{Fits, most_listed};
ghost use Rattle.dp_domain.specs.declared.domains.Domain.TheVariants as domain;
ghost use Rattle.dp_domain.proofs.Limits.{Fits-prop};
ghost use Rattle.dp_law.specs.Making.{MakesOr};
ghost use Rattle.dp_rowwise.specs.Categories.{place_in, are_different, categories_from};

use crate::table::Table;
use dp_count::NoMemory;
use dp_domain::{Cats, Domain, Metric, Text, Texts, Value, few_and_one};
use dp_law::{MakeFault, Transformation};
use dp_num::Past;
use std::alloc::Global;

/// Gives the place of each text in a list of different texts, from 0, or their number where it is not there. It takes
/// `Texts` and gives `Cats`, both by `Symmetric`. A text is looked up by its hash, so the work is linear in the bytes.
#[derive(Debug, Drop)]
pub struct Categories {
    table: Table,
    ghost fits: { Fits (domain.Cats (length table + 1) None) } by { Fits-prop (domain.Cats (length table + 1) None) },
    ghost different: { are_different table ≡ true } by { Prim.hlevel props },
}

impl Categories {
    ghost use Rattle.dp_rowwise.specs.Categories.{categories_value};
    ghost use Rattle.dp_rowwise.specs.Parts.{category_texts};

    /// The categories of the texts. `Kind` comes exactly where the domain is not `Texts`, `Metric` exactly where it is
    /// and the metric is not `Symmetric`, and `Bound` exactly where neither comes and the texts are not 1 to 1,023 that
    /// are all different.
    pub fn new(
        alloc: Global,
        domain: Domain,
        metric: Metric,
        texts: Texts,
    ) -> Result<Categories, MakeFault>
        requires { Fits domain }
        ensures { MakesOr ⟦<Categories as Transformation>⟧.mapping result (categories_from texts domain metric) }
    {
        let Domain::Texts = domain else {
            return Err(MakeFault::Kind);
        };
        if metric != Metric::Symmetric {
            return Err(MakeFault::Metric);
        }
        if !few_and_one(texts.len()) {
            return Err(MakeFault::Bound);
        }
        let Some(table) = table_of(alloc, texts)? else {
            return Err(MakeFault::Bound);
        };
        Ok(Categories { table })
    }

    /// How many texts there are, from 1 to 1,023.
    pub fn len(&self) -> u32
        ensures len { result ≡ length (category_texts self.now) }
        ensures some { 1 ≤ result }
        ensures few { result ≤ most_listed }
    {
        self.table.len() as u32
    }

    /// The place of a text among the texts, from 0, or their number where it is not there.
    pub fn number(&self, text: &[u8]) -> u32
        ensures value { result ≡ place_in (category_texts self.now) text.now }
        ensures numbers { let m = ⟦<Categories as Transformation>⟧.mapping self.now in
            m.function ≡ categories_value (category_texts self.now) }
    {
        number_of(&self.table, text)
    }
}

impl Transformation for Categories {
    ghost use Rattle.dp_rowwise.specs.Categories.{categories_mapping};
    ghost use Rattle.dp_rowwise.specs.CategoriesProof.{categories_law};

    ghost mapping = { λ t. categories_mapping t.table };

    fn in_domain(&self) -> Domain {
        Domain::Texts
    }

    fn in_metric(&self) -> Metric {
        Metric::Symmetric
    }

    fn out_domain(&self) -> Domain {
        Domain::Cats {
            n: self.len() + 1,
            size: None,
        }
    }

    fn out_metric(&self) -> Metric {
        Metric::Symmetric
    }

    fn map(&self, d: u64) -> Result<u64, Past> {
        Ok(d)
    }

    fn apply(&self, alloc: Global, v: &Value) -> Result<Value, NoMemory> {
        let Value::Texts(texts) = v else {
            unreachable!()
        };
        let numbers = number_all(alloc, &self.table, texts.as_slice())?;
        Ok(Value::Cats(Cats::from_vec(numbers)))
    }

    ghost law = { λ t. categories_law t.table t.fits };
}

/// The place of each text.
fn number_all(alloc: Global, table: &Table, texts: &[Text]) -> Result<Vec<u32>, NoMemory>
    requires { length table.now ≤ most_listed }
    ensures { IfOk result (λ numbers. numbers.items ≡ map (place_in table.now) texts.now) }
{
    Ok(
        texts
            .iter()
            .map(|text| number_of(table, text.as_slice()))
            .collect(alloc)?,
    )
}

/// The place of a text.
fn number_of(table: &Table, text: &[u8]) -> u32
    requires { length table.now ≤ most_listed }
    ensures { result ≡ place_in table.now text.now }
{
    table.number(text) as u32
}

/// The table of the texts, or none where two are equal.
fn table_of(alloc: Global, texts: Texts) -> Result<Option<Table>, NoMemory>
    ensures { IfOk result (λ made. MatchOption made (are_different texts ≡ false)
        (λ table. (are_different texts ≡ true) × (table ≡ texts))) }
{
    let mut table = Table::new(alloc);
    for text in texts.into_vec() {
        let fresh = table.add(text.into_vec())?;
        if !fresh {
            return Ok(None);
        }
    }
    Ok(Some(table))
}
