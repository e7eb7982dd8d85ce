ghost use Rattle.std.specs.Prelude.{◌≡◌, IfOk};
ghost use Rattle.dp_domain.specs.Domains.{Has};
ghost use Rattle.dp_domain.specs.declared.domains.Domain.{Domain};
ghost use Rattle.dp_domain.specs.declared.values.Value.{Value};

use crate::line::Line;
use dp_count::NoMemory;
use dp_domain::Value;
use dp_law::Transformation;
use std::alloc::Global;

/// A value, or what stands for one, to which lines are applied.
pub trait Input {
    // The value.
    ghost stands_for: { Self → Value };

    // The lines of this input domain are applied to it.
    ghost takes: { Self → Domain → Type 0 };

    /// What a line gives of the value.
    fn through(&self, alloc: Global, line: &Line) -> Result<Value, NoMemory>
        requires { let m = ⟦<Line as Transformation>⟧.mapping line.now in takes self.now m.input_domain }
        ensures { IfOk result (λ w. let m = ⟦<Line as Transformation>⟧.mapping line.now in
            w ≡ m.function (stands_for self.now)) };

    // Such a domain has the value.
    ghost has_value: { (input : Self) (domain : Domain) → takes input domain → Has domain (stands_for input) };
}

impl Input for Value {
    ghost stands_for = { λ v. v };

    ghost takes = { λ v domain. Has domain v };

    fn through(&self, alloc: Global, line: &Line) -> Result<Value, NoMemory> {
        line.apply(alloc, self)
    }

    ghost has_value = { λ v domain has. has };
}
