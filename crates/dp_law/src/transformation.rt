ghost use Rattle.std.specs.Prelude.{◌≡◌, ◌≤◌, ◌^◌, IfOk};
ghost use Rattle.std.specs.Result.{result_ok};
ghost use Rattle.dp_domain.specs.Domains.{Has};
ghost use Rattle.dp_law.specs.Mapping.{Mapping, IsStable};

use dp_count::NoMemory;
use dp_domain::{Domain, Metric, Value};
use dp_num::Past;
use std::alloc::Global;

/// A stable transformation: a function from the values of a domain to those of another, with a metric on each, and a
/// stability map, which says how far apart results are of values that are so far apart. Its law says that both domains
/// fit, that the output metric is used with the output domain where the input metric is with the input domain and
/// nowhere else, that the function lands in the output domain, and that the stability map holds.
pub trait Transformation {
    ghost mapping: { Self → Mapping };

    /// The input domain.
    fn in_domain(&self) -> Domain
        ensures { let m = mapping self.now in result ≡ m.input_domain };

    /// The metric of the input domain.
    fn in_metric(&self) -> Metric
        ensures { let m = mapping self.now in result ≡ m.input_metric };

    /// The output domain.
    fn out_domain(&self) -> Domain
        ensures { let m = mapping self.now in result ≡ m.output_domain };

    /// The metric of the output domain.
    fn out_metric(&self) -> Metric
        ensures { let m = mapping self.now in result ≡ m.output_metric };

    /// How far apart the results can be of values within `d`, from 0 to 2^32. `Past` comes exactly where the stability
    /// map has no number.
    fn map(&self, d: u64) -> Result<u64, Past>
        requires { d ≤ 2 ^ 32 }
        ensures { let m = mapping self.now in result_ok result ≡ m.stability_map d };

    /// The function's value at a value of the input domain. It is in the output domain.
    fn apply(&self, alloc: Global, v: &Value) -> Result<Value, NoMemory>
        requires { let m = mapping self.now in Has m.input_domain v.now }
        ensures value { let m = mapping self.now in IfOk result (λ w. w ≡ m.function v.now) }
        ensures within { let m = mapping self.now in IfOk result (λ w. Has m.output_domain w) };

    ghost law: { (t : Self) → IsStable (mapping t) };
}
