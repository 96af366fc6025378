// The one gate of the questions at a half tick.
ghost use Rattle.std.specs.Prelude.{◌≡◌};
ghost use Rattle.judge.specs.Points.{Gated};

use jobs::Accepted;
use limits::Refusal;

// The accepted job, or refusal 1, those of the table and the task, and 11, in that order.
#[tactic(auto, using(limits::proofs::Checks::row), unfolding(records::specs::Refusals::point_refusal, records::specs::Refusals::beyond))]
pub fn enter<'a>(task: &[u8], slots: &'a [u8], offset: u64) -> Result<Accepted<'a>, Refusal>
    ensures { Gated task.now slots.now offset result }
{
    records::sizes(task, slots)?;
    let job = records::check(records::read(task), slots)?;
    let turn = 2 * job.wheel.w;
    Refusal::Offset.when(turn as u64 <= offset)?;
    Ok(Accepted { slots, job })
}
