#![tactic(auto)]

// Granting free slots of a wheel of equal slots: the first j in number order, with the smallest j that is firm.
mod marks;
mod offer;

ghost use Rattle.std.specs.Prelude.{◌≡◌, length};
ghost use Rattle.limits.specs.Refusal.{Checks, refusal, given};
ghost use Rattle.limits.specs.Limits.{grid_of, task_of};
ghost use Rattle.grants.specs.Grants.{grant_refusal, GrantCall};

use limits::{Grid, Refusal, Task};
use room::FEW_EDGES;

// The grid and the task, or the first of the refusals 12 and 6 to 10 that applies.
#[tactic(auto, using(limits::proofs::Checks::row, crate::proofs::Bytes::bad_list), unfolding(crate::specs::Grants::grant_refusal, crate::specs::Grants::bad_mark))]
fn check(
    marks: &[u8],
    v: usize,
    loss: usize,
    e: usize,
    d: usize,
    h: usize,
    m: usize,
    k: usize,
) -> Result<(Grid, Task), Refusal>
    ensures { Checks (grant_refusal marks.now v loss e d h m k) (grid_of (length marks.now) v loss, task_of e d h m k) result }
{
    let grid = Grid::new(marks.len(), v, loss)?;
    Refusal::Grid.when(marks::bad(marks))?;
    let task = Task::new(e, d, h, m, k)?;
    Ok((grid, task))
}

// Grants the first free slots to a task: their marks become 2. A refusal moves no mark.
pub fn grant(
    marks: &mut [u8],
    v: u64,
    loss: u64,
    e: u64,
    d: u64,
    h: u64,
    m: u64,
    k: u64,
) -> Result<u32, Refusal>
    ensures { GrantCall marks.old v loss e d h m k (refusal result) (given 0 result) marks.new }
{
    let (grid, task) = check(
        marks,
        v as usize,
        loss as usize,
        e as usize,
        d as usize,
        h as usize,
        m as usize,
        k as usize,
    )?;
    let j = offer::find(marks, grid, task, &mut [0; FEW_EDGES]).ok_or(Refusal::Loose)?;
    marks::give(marks, j);
    Ok(j as u32)
}
