#![tactic(auto)]

// Just yes or no: whether a table is firm for a task, without the worst count. Every byte string gets its reply.
ghost use Rattle.std.specs.Prelude.{false};
ghost use Rattle.limits.specs.Refusal.{refusal, given};
ghost use Rattle.quick.specs.Quick.{Quick};

use jobs::Accepted;
use limits::Refusal;

// Whether the task is firm on the slot buffer.
pub fn quick(task: &[u8], slots: &[u8]) -> Result<bool, Refusal>
    ensures { Quick task.now slots.now (refusal result) (given false result) }
{
    records::sizes(task, slots)?;
    let job = records::check(records::read(task), slots)?;
    let accepted = Accepted { slots, job };
    Ok(accepted.firm())
}
