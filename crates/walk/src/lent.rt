// Judging one record in arrays that the caller lends in any state: for many records one after another.
ghost use Rattle.std.specs.Prelude.{◌≡◌, ◌≤◌, length};
ghost use Rattle.limits.specs.Limits.{most_ticks};
ghost use Rattle.limits.specs.Refusal.{refusal};
ghost use Rattle.records.specs.Records.{reply_bytes, task_record};
ghost use Rattle.records.specs.Refusals.{sizes, body_refusal};
ghost use Rattle.judge.specs.Judge.{Outcome, Judged};
ghost use Rattle.jobs.specs.Lent.{Peaked};

use crate::arrays::Arrays;
use jobs::Accepted;
use limits::Refusal;
use records::TaskRecord;
use records::answer::Found;
use room::{MOST_EDGES, Peak};
use runs::Ticks;

// The worst count and offset of an accepted job, and its least margin.
fn worst_in<const N: usize>(
    accepted: Accepted,
    runs: &mut [u16; MOST_EDGES],
    arrays: &mut Arrays<N>,
) -> Peak
    requires { accepted.job.wheel.w ≤ N }
    ensures { Peaked accepted.entry.slots.now accepted.entry.job result }
{
    let n = jobs::laid::lay(accepted, runs);
    let laid = Ticks {
        edges: &runs[..n],
        w: accepted.job.wheel.w,
    };
    let Arrays {
        late,
        map,
        low,
        spare,
        here,
        there,
    } = arrays;
    room::worst_in(laid, accepted.job.task, late, map, low, spare, here, there)
}

// What is found for a task record, or the first refusal that applies.
fn outcome<const N: usize>(
    r: TaskRecord,
    slots: &[u8],
    runs: &mut [u16; MOST_EDGES],
    arrays: &mut Arrays<N>,
) -> Result<Found, Refusal>
    requires { r.w ≤ most_ticks → r.w ≤ N }
    ensures { Outcome r slots.now (body_refusal r slots.now) result }
{
    let job = records::check(r, slots)?;
    let accepted = Accepted { slots, job };
    Ok(judge::found(job.task, worst_in(accepted, runs, arrays)))
}

// Judges a whole record into room for its answer.
pub fn judge_in<const N: usize>(
    task: &[u8],
    slots: &[u8],
    reply: &mut [u8],
    runs: &mut [u16; MOST_EDGES],
    arrays: &mut Arrays<N>,
) -> Result<(), Refusal>
    requires sizes { (sizes task.now slots.now ≡ 0) × (reply_bytes ≤ length reply.old) }
    requires fits { (task_record task.now).w ≤ most_ticks → (task_record task.now).w ≤ N }
    ensures { Judged task.now slots.now reply.old (refusal result) reply.new }
{
    let r = records::read(task);
    judge::answer(reply, r.id, outcome(r, slots, runs, arrays))
}
