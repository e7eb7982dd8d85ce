ghost use Rattle.std.specs.Prelude.{◌≡◌, ◌≤◌, ◌^◌, replicate, IfOk};
ghost use Rattle.std.specs.Option.{option_map};
ghost use Rattle.std.specs.Result.{result_ok};
ghost use Rattle.dp_count.specs.Faults.{HasCause};
ghost use Rattle.dp_draws.specs.Taking.{take_draws};
ghost use Rattle.dp_geometric.specs.OneCell.{leading_run};

use dp_count::Failed;
use dp_draws::Draws;

/// Takes `turns` draws below `high`, and tells how many stand before the first that is not below `low`.
pub(crate) fn leading_run<D: Draws>(
    draws: &mut D,
    turns: u64,
    low: u64,
    high: u64,
) -> Result<u64, Failed>
    requires positive { 1 ≤ high }
    requires bounded { high ≤ 2 ^ 62 }
    ensures run { result_ok result
        ≡ option_map (leading_run low) (take_draws D.step (D.state draws.old) (replicate turns high)).draws }
    ensures last { D.state draws.new ≡ (take_draws D.step (D.state draws.old) (replicate turns high)).last }
    ensures cause { HasCause (D.faults draws.old) (D.faults draws.new) result }
    ensures few { IfOk result (λ run. run ≤ turns) }
{
    let mut run = 0;
    let mut still = true;
    for _turn in 0..turns {
        still &= draws.below(high)? < low;
        run += u64::from(still);
    }
    Ok(run)
}
