ghost use Rattle.std.specs.Prelude.{◌≡◌, ◌≤◌, ◌^◌, Some, IfSome, IfOk, OnOk, OnErr, length, is_ok};
ghost use Rattle.std.specs.List.{sum};
ghost use Rattle.std.specs.Result.{result_ok, result_err};
ghost use Rattle.dp_num.specs.Limits.{capped};
ghost use Rattle.dp_budget.specs.Rules.{fresh, declared, are_mids, refusal, charged, WithinRule};
ghost use Rattle.dp_budget.specs.declared.budget.Rule.TheVariants as rule;

use crate::Over;
use dp_count::Items;
use dp_num::{Bound, MOST_UNITS, Past};
use std::marker::Model;

/// Numbers of units, each for one query, in order.
pub type Mids = Items<u64>;

/// The greatest number of mids.
const MOST_MIDS: usize = 1024;

/// How a budget's units are limited.
#[derive(Debug, Drop)]
pub enum Rule {
    /// The next query may cost the next mid, and there are as many queries as mids.
    Compositor(Mids),
    /// All queries together may cost the limit.
    Filter(u64),
    /// All queries together may cost 2^32.
    Odometer,
}

/// What a node's queries may cost, and what they have spent, in units. Contracts see its rule, the sum of the admitted
/// costs, and how many mids are used.
#[derive(Debug, Drop)]
pub struct Budget {
    rule: Rule,
    spent: u64,
    place: u64,
}

impl Model for Budget {
    ghost use Rattle.dp_budget.specs.Rules.{BudgetValue, WithinRule};

    ghost Value = { BudgetValue };

    ghost view = { λ b. record { rule = b.rule; spent = b.spent; place = b.place } };

    ghost invariant = { λ b. WithinRule b.rule b.spent b.place };
}

impl Budget {
    /// A budget of mids: the n-th query may cost at most the n-th mid. `Bound` comes exactly unless there are 1 to
    /// 1,024 mids with a sum of at most 2^32.
    pub fn compositor(mids: Mids) -> Result<Budget, Bound>
        ensures exactly { is_ok result ≡ are_mids mids }
        ensures new { IfOk result (λ budget. budget ≡ fresh (rule.Compositor mids)) }
    {
        if !are_mids(mids.as_slice()) {
            return Err(Bound);
        }
        Ok(Budget::new(Rule::Compositor(mids)))
    }

    /// A budget of at most `limit` units, which is at most 2^32, for all queries together.
    pub fn filter(limit: u64) -> Budget
        requires { limit ≤ 2 ^ 32 }
        ensures { result ≡ fresh (rule.Filter limit) }
    {
        Budget::new(Rule::Filter(limit))
    }

    /// A budget that declares no limit: its queries may cost 2^32 units together.
    pub fn odometer() -> Budget
        ensures { result ≡ fresh rule.Odometer }
    {
        Budget::new(Rule::Odometer)
    }

    /// Admits a cost, at most 2^32: adds it to what is spent, and of mids uses the next. `Over` comes exactly where the
    /// mids are used up or the cost is greater than what is left: the next mid, or the limit less what is spent.
    pub fn admit(&mut self, cost: u64) -> Result<(), Over>
        requires { cost ≤ 2 ^ 32 }
        ensures refused { result_err result ≡ refusal self.old cost }
        ensures admitted { OnOk result (self.new ≡ charged self.old cost) }
        ensures kept { OnErr result (self.new ≡ self.old) }
    {
        let left = match &self.rule {
            Rule::Compositor(mids) => {
                if self.place >= mids.len() {
                    return Err(Over { cost, left: 0 });
                }
                *mids.at(self.place)
            }
            Rule::Filter(limit) => *limit - self.spent,
            Rule::Odometer => MOST_UNITS - self.spent,
        };
        if cost > left {
            return Err(Over { cost, left });
        }
        self.spent += cost;
        if let Rule::Compositor(_) = &self.rule {
            self.place += 1;
        }
        Ok(())
    }

    /// The sum of the admitted costs.
    pub fn spent(&self) -> u64
        ensures sum { result ≡ self.now.spent }
        ensures range { result ≤ 2 ^ 32 }
        ensures within { IfSome (declared self.now.rule) (λ most. result ≤ most) }
    {
        self.spent
    }

    /// The most that can be admitted: the sum of the mids, or the limit. An odometer declares none.
    pub fn declared(&self) -> Option<u64>
        ensures sum { result ≡ declared self.now.rule }
        ensures range { IfSome result (λ most. most ≤ 2 ^ 32) }
    {
        match &self.rule {
            Rule::Compositor(mids) => total(mids.as_slice()).ok(),
            Rule::Filter(limit) => Some(*limit),
            Rule::Odometer => None,
        }
    }

    /// A budget of which nothing is spent.
    fn new(rule: Rule) -> Budget
        requires { WithinRule rule 0 0 }
        ensures { result ≡ fresh rule }
    {
        Budget {
            rule,
            spent: 0,
            place: 0,
        }
    }
}

/// Whether there are 1 to 1,024 mids with a sum of at most 2^32.
pub fn are_mids(mids: &[u64]) -> bool
    ensures { result ≡ are_mids mids.now }
{
    1 <= mids.len() && mids.len() <= MOST_MIDS && total(mids).is_ok()
}

/// The sum of the mids. `Past` comes exactly where it is greater than 2^32.
fn total(mids: &[u64]) -> Result<u64, Past>
    ensures { result_ok result ≡ capped (sum mids.now) }
{
    let mut total = 0;
    for mid in mids {
        if *mid > MOST_UNITS - total {
            return Err(Past);
        }
        total += *mid;
    }
    Ok(total)
}
