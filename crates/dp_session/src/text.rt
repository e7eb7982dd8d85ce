ghost use Rattle.std.specs.Prelude.{◌≡◌, ◌++◌, ℕ, string_bytes, IfOk, codes};
ghost use Rattle.std.specs.Fmt as fmt;
ghost use Rattle.dp_session.specs.QueryLines.{refusal_text, cost_text, numbered, task_text, admitted_text};
ghost use Rattle.dp_session.specs.Works.{task_of};

use crate::refusal::Refusal;
use crate::task::Task;
use dp_count::NoMemory;
use dp_law::Measurement;
use std::alloc::Global;

/// The line of an accepted query, by what is written of its task.
pub(crate) fn accepted_line(
    alloc: Global,
    number: u32,
    done: &str,
    cost: u64,
    spent: u64,
) -> Result<String, NoMemory>
    ensures { IfOk result (λ line. string_bytes line ≡ numbered number (done.now ++ cost_text cost spent)) }
{
    Ok(format!(in alloc; "{number} {done} cost {cost} spent {spent}\n")?)
}

/// The line of an accepted query where there are no data: how many draws a release takes, or that a child is a node.
pub(crate) fn admitted_line(
    alloc: Global,
    number: u32,
    task: &Task,
    cost: u64,
    spent: u64,
) -> Result<String, NoMemory>
    ensures { (node : ℕ) → IfOk result (λ line. string_bytes line
        ≡ numbered number (task_text admitted_text node (task_of task.now) ++ cost_text cost spent)) }
{
    match task {
        Task::Release(release) => release_line(alloc, number, release.draws(), cost, spent),
        Task::Child(_) => child_line(alloc, number, cost, spent),
    }
}

/// The line of a release that takes so many draws.
fn release_line(
    alloc: Global,
    number: u32,
    draws: u64,
    cost: u64,
    spent: u64,
) -> Result<String, NoMemory>
    ensures { IfOk result (λ line. string_bytes line
        ≡ numbered number ((codes "admitted draws " ++ fmt.decimal draws) ++ cost_text cost spent)) }
{
    Ok(format!(in alloc; "{number} admitted draws {draws} cost {cost} spent {spent}\n")?)
}

/// The line of an opened child.
fn child_line(alloc: Global, number: u32, cost: u64, spent: u64) -> Result<String, NoMemory>
    ensures { IfOk result (λ line. string_bytes line ≡ numbered number (codes "node" ++ cost_text cost spent)) }
{
    Ok(format!(in alloc; "{number} node cost {cost} spent {spent}\n")?)
}

/// The line of a refused query: the number of the refusal, its word, and what it carries.
pub(crate) fn refused_line(
    alloc: Global,
    number: u32,
    refused: &Refusal,
) -> Result<String, NoMemory>
    ensures { IfOk result (λ line. string_bytes line
        ≡ numbered number (codes "refused " ++ (refusal_text refused.now ++ codes "\n"))) }
{
    Ok(match refused {
        Refusal::Malformed => format!(in alloc; "{number} refused 1 malformed\n")?,
        Refusal::NoNode => format!(in alloc; "{number} refused 2 no-node\n")?,
        Refusal::Frozen { ancestor, later } => {
            format!(in alloc; "{number} refused 3 frozen {ancestor} {later}\n")?
        }
        Refusal::Construction(kind) => {
            format!(in alloc; "{number} refused 4 construction {kind}\n")?
        }
        Refusal::Depth => format!(in alloc; "{number} refused 5 depth\n")?,
        Refusal::ChildDistance { mapped } => {
            format!(in alloc; "{number} refused 6 child-distance {mapped}\n")?
        }
        Refusal::Budget(over) => {
            let cost = over.cost;
            let left = over.left;
            format!(in alloc; "{number} refused 7 budget {cost} {left}\n")?
        }
    })
}
