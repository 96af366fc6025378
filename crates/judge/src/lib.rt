#![tactic(auto)]

// The public questions of a task record and a slot buffer. Every byte string gets its reply: bad records are refused by number, in the one
// fixed order, and a refusal writes only what docs/RULES.md names.
mod point;

ghost use Rattle.std.specs.Prelude.{◌≡◌, ◌≤◌, length, pos};
ghost use Rattle.octets.specs.Octets.{over};
ghost use Rattle.rules.specs.Worst.{firm_test};
ghost use Rattle.limits.specs.Limits.{asked};
ghost use Rattle.limits.specs.Refusal.{refusal, given};
ghost use Rattle.records.specs.Records.{reply_bytes, answer_bytes};
ghost use Rattle.records.specs.Answers.{answer_of};
ghost use Rattle.records.specs.Refusals.{body_refusal, point_refusal};
ghost use Rattle.judge.specs.Judge.{Outcome, Judged};
ghost use Rattle.judge.specs.Points.{supplied_at, margin_at, counted_at};

use jobs::Accepted;
use limits::{Refusal, Task};
use records::TaskRecord;
use records::answer::{Answer, Found};
use room::Peak;

// What is said of an accepted task: what was found, and rule 7's test of it.
pub fn found(task: Task, p: Peak) -> Found
    requires { task.m ≤ task.k }
    ensures { result ≡ record { firm = firm_test (asked task) p.drops; drops = p.drops; offset = p.offset; margin = p.margin } }
{
    Found {
        firm: p.drops as usize <= task.k - task.m,
        drops: p.drops,
        offset: p.offset,
        margin: p.margin,
    }
}

// What is found for a task record, or the first refusal that applies.
fn outcome(r: TaskRecord, slots: &[u8]) -> Result<Found, Refusal>
    ensures { Outcome r slots.now (body_refusal r slots.now) result }
{
    let job = records::check(r, slots)?;
    let accepted = Accepted { slots, job };
    Ok(found(job.task, accepted.worst()))
}

// Writes a refusal by its number, whatever number it is, and gives that.
pub fn refuse(reply: &mut [u8], id: usize, bad: u32) -> u32
    requires { reply_bytes ≤ length reply.old }
    ensures { (result ≡ bad) × (reply.new ≡ over (answer_bytes id bad 0 0 0 (pos 0)) reply.old) }
{
    octets::put(reply, &records::answer::laid(id, bad, 0, 0, 0, 0));
    bad
}

// Writes what came of judging over the first bytes of the reply, and passes a refusal on. Inlined, for the shortest calls.
#[inline(always)]
pub fn answer(reply: &mut [u8], id: usize, outcome: Result<Found, Refusal>) -> Result<(), Refusal>
    requires { reply_bytes ≤ length reply.old }
    ensures { (refusal result ≡ refusal outcome) × (reply.new ≡ over (answer_of id outcome) reply.old) }
{
    if let Err(bad) = outcome {
        refuse(reply, id, bad.number());
        return Err(bad);
    }
    octets::put(reply, &records::answer::bytes(id, outcome));
    Ok(())
}

// Judges one task record on a slot buffer and writes the answer record. Refusals 1 and 2 write nothing.
pub fn judge(task: &[u8], slots: &[u8], reply: &mut [u8]) -> Result<(), Refusal>
    ensures { Judged task.now slots.now reply.old (refusal result) reply.new }
{
    records::sizes(task, slots)?;
    Refusal::Reply.when(reply.len() < Answer::BYTES)?;
    let r = records::read(task);
    answer(reply, r.id, outcome(r, slots))
}

// The supply at a half tick, in half ticks.
pub fn supply(task: &[u8], slots: &[u8], offset: u64) -> Result<u32, Refusal>
    ensures { (refusal result ≡ point_refusal task.now slots.now offset) × (given 0 result ≡ supplied_at task.now slots.now offset) }
{
    Ok(point::enter(task, slots, offset)?.supply(offset as usize) as u32)
}

// The margin of a strip at a half tick, in half ticks: below zero it is dropped.
pub fn margin(task: &[u8], slots: &[u8], offset: u64) -> Result<i32, Refusal>
    ensures { (refusal result ≡ point_refusal task.now slots.now offset) × (given (pos 0) result ≡ margin_at task.now slots.now offset) }
{
    Ok(point::enter(task, slots, offset)?.margin(offset as usize))
}

// The drop count from a half tick.
pub fn count(task: &[u8], slots: &[u8], offset: u64) -> Result<u32, Refusal>
    ensures { (refusal result ≡ point_refusal task.now slots.now offset) × (given 0 result ≡ counted_at task.now slots.now offset) }
{
    Ok(point::enter(task, slots, offset)?.count(offset as usize))
}
