ghost use Rattle.std.specs.Prelude.{◌≡◌, ◌≤◌, ◌^◌, length, IfOk};
ghost use Rattle.std.specs.Result.{result_ok};
ghost use Rattle.dp_domain.specs.Domains.{Has};
ghost use Rattle.dp_law.specs.Mechanism.{Mechanism, IsPrivate};
ghost use Rattle.dp_law.specs.Releasing.{Released, ReleaseCause};

use crate::faults::ReleaseFault;
use crate::pieces::Answer;
use dp_count::{NoMemory, Shape};
use dp_domain::{Domain, Metric, Value};
use dp_draws::Draws;
use dp_num::Past;
use std::alloc::Global;

/// A private measurement: a function from a value and draws to an answer, with a privacy map, which says by how many
/// units of loss the numbers of draw lists of one answer can differ on values that are so far apart. A unit is one
/// factor of the measurement's ratio. Its law says that the input domain fits and its metric is used with it, that
/// shape and answers keep their limits, and that the privacy map holds.
pub trait Measurement {
    ghost mechanism: { Self → Mechanism };

    /// The input domain.
    fn in_domain(&self) -> Domain
        ensures { let m = mechanism self.now in result ≡ m.input_domain };

    /// The metric of the input domain.
    fn in_metric(&self) -> Metric
        ensures { let m = mechanism self.now in result ≡ m.input_metric };

    /// How many draws one release takes: the length of the shape, at most 2^40.
    fn draws(&self) -> u64
        ensures { let m = mechanism self.now in result ≡ length m.shape };

    /// How many pieces each answer has, at most 2^31.
    fn pieces(&self) -> u64
        ensures { let m = mechanism self.now in result ≡ m.pieces };

    /// The bounds of the draws that one release takes, whatever the value.
    fn shape(&self, alloc: Global) -> Result<Shape, NoMemory>
        ensures { let m = mechanism self.now in IfOk result (λ shape. shape ≡ m.shape) };

    /// The loss, in units, between values within `d`, from 0 to 2^32. `Past` comes exactly where the privacy map has no
    /// number.
    fn loss(&self, d: u64) -> Result<u64, Past>
        requires { d ≤ 2 ^ 32 }
        ensures { let m = mechanism self.now in result_ok result ≡ m.privacy_map d };

    /// An answer on a value of the input domain. `DrawFault` comes exactly where the source fails in taking the shape's
    /// draws.
    fn release<D: Draws>(
        &self,
        alloc: Global,
        v: &Value,
        draws: &mut D,
    ) -> Result<Answer, ReleaseFault>
        requires { let m = mechanism self.now in Has m.input_domain v.now }
        ensures released { let m = mechanism self.now in
            Released D.step m.shape (m.function v.now) (D.state draws.old) result (D.state draws.new) }
        ensures cause { ReleaseCause (D.faults draws.old) (D.faults draws.new) result };

    ghost law: { (m : Self) → IsPrivate (mechanism m) };
}
