ghost use Rattle.dp_domain.specs.Domains.{Has};
ghost use Rattle.dp_domain.specs.declared.domains.Domain.{Domain};
ghost use Rattle.dp_domain.specs.declared.values.Value.{Value};
ghost use Rattle.dp_law.specs.Releasing.{Released, ReleaseCause};

use dp_domain::Value;
use dp_draws::Draws;
use dp_law::{Answer, Measurement, ReleaseFault};
use std::alloc::Global;

/// What a measurement is released on: a value, or what stands for one.
pub trait ReleaseInput<M: Measurement> {
    // The value.
    ghost stands_for: { Self → Value };

    // A measurement of this input domain is released on it.
    ghost takes: { Self → Domain → Type 0 };

    /// The measurement's answer on the value. The draws and the faults are those of `release` on it.
    fn released<D: Draws>(
        &self,
        alloc: Global,
        measurement: &M,
        draws: &mut D,
    ) -> Result<Answer, ReleaseFault>
        requires { let m = M.mechanism measurement.now in takes self.now m.input_domain }
        ensures released { let m = M.mechanism measurement.now in
            Released D.step m.shape (m.function (stands_for self.now)) (D.state draws.old) result (D.state draws.new) }
        ensures cause { ReleaseCause (D.faults draws.old) (D.faults draws.new) result };

    // Such a domain has the value.
    ghost has_value: { (input : Self) (domain : Domain) → takes input domain → Has domain (stands_for input) };
}

impl<M: Measurement> ReleaseInput<M> for Value {
    ghost use Rattle.dp_domain.specs.Domains.{Has};

    ghost stands_for = { λ v. v };

    ghost takes = { λ v domain. Has domain v };

    fn released<D: Draws>(
        &self,
        alloc: Global,
        measurement: &M,
        draws: &mut D,
    ) -> Result<Answer, ReleaseFault> {
        measurement.release(alloc, self, draws)
    }

    ghost has_value = { λ v domain has. has };
}
