ghost use Rattle.std.specs.Prelude.{ℕ, List, Some, ◌≡◌, ◌<◌, ◌≤◌, ◌^◌};
ghost use Rattle.std.specs.Result.{result_ok};
ghost use Rattle.dp_count.specs.Faults.{HasCause};
ghost use Rattle.dp_draws.specs.Taking.{Turn};

use dp_count::Failed;

/// A source of draws. Its state is a list of whole numbers, and its step goes from a state and a bound to a draw or
/// a failure, and to the next state. Its count of faults is no part of the state.
pub trait Draws {
    ghost state: { Self → List ℕ };

    ghost step: { List ℕ → ℕ → Turn };

    ghost faults: { Self → ℕ };

    /// A draw from 0 to `m` - 1. `Failed` comes exactly where the step fails, and then the count of faults rose.
    fn below(&mut self, m: u64) -> Result<u64, Failed>
        requires positive { 1 ≤ m }
        requires bounded { m ≤ 2 ^ 62 }
        ensures step { step (state self.old) m ≡ record { draw = result_ok result; next = state self.new } }
        ensures cause { HasCause (faults self.old) (faults self.new) result };

    ghost draw_below: { (s : List ℕ) (m n : ℕ) → 0 < m → (step s m).draw ≡ Some n → n < m };

    ghost few_faults: { (d : Self) → faults d < 2 ^ 64 };
}
