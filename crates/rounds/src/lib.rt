#![tactic(auto)]

// The second engine: counting and judging by whole rounds, for windows of up to a million strips. It has the first one's way from bytes to late
// runs, and nothing of what is behind them.
mod work;

ghost use Rattle.std.specs.Prelude.{◌≡◌};
ghost use Rattle.limits.specs.Refusal.{refusal, given};
ghost use Rattle.judge.specs.Judge.{Outcome};
ghost use Rattle.rounds.specs.Rounds.{one_strip, rounds_body, rounds_point_refusal, RoundsChecked, rounds_counted_at, RoundsJudged};

use limits::{Refusal, Task};
use records::answer::{Answer, Found};
use records::{Job, TaskRecord};

// The record with one strip, which needn't be painted.
fn one_strip(r: TaskRecord) -> TaskRecord
    ensures { result ≡ one_strip r }
{
    TaskRecord { m: 0, k: 1, ..r }
}

// The accepted job, or the first refusal that applies: 9 and 10 are the last.
#[tactic(auto, using(limits::proofs::Checks::row), unfolding(crate::specs::Rounds::rounds_body))]
fn check(r: TaskRecord, slots: &[u8]) -> Result<Job, Refusal>
    ensures { RoundsChecked r slots.now result }
{
    let one = records::check(one_strip(r), slots)?;
    Task::rounds_refusal(r.m, r.k)?;
    let task = Task {
        m: r.m,
        k: r.k,
        ..one.task
    };
    Ok(Job { task, ..one })
}

// What is found for a task record, or the first refusal that applies.
fn outcome(r: TaskRecord, slots: &[u8]) -> Result<Found, Refusal>
    ensures { Outcome r slots.now (rounds_body r slots.now) result }
{
    let job = check(r, slots)?;
    Ok(judge::found(job.task, work::worst(slots, job)))
}

// Judges one task record on a slot buffer and writes the answer record. Refusals 1 and 2 write nothing.
pub fn rounds_judge(task: &[u8], slots: &[u8], reply: &mut [u8]) -> Result<(), Refusal>
    ensures { RoundsJudged task.now slots.now reply.old (refusal result) reply.new }
{
    records::sizes(task, slots)?;
    Refusal::Reply.when(reply.len() < Answer::BYTES)?;
    let r = records::read(task);
    judge::answer(reply, r.id, outcome(r, slots))
}

// The drop count from a half tick.
pub fn rounds_count(task: &[u8], slots: &[u8], offset: u64) -> Result<u32, Refusal>
    ensures { (refusal result ≡ rounds_point_refusal task.now slots.now offset) × (given 0 result ≡ rounds_counted_at task.now slots.now offset) }
{
    records::sizes(task, slots)?;
    let job = check(records::read(task), slots)?;
    let turn = 2 * job.wheel.w;
    Refusal::Offset.when(turn as u64 <= offset)?;
    Ok(work::count(slots, job, offset as usize))
}
