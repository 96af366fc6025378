#![tactic(auto)]

// Task, slot and answer records: reading them, and refusing them in the one fixed order.
pub mod answer;
pub mod board;

ghost use Rattle.std.specs.Prelude.{◌≡◌, length};
ghost use Rattle.limits.specs.Refusal.{Checks};
ghost use Rattle.records.specs.Records.{task_bytes, task_record};
ghost use Rattle.records.specs.Refusals.{sizes, body_refusal, job_of};

use limits::{Refusal, Task, Wheel};

// The numbers of a task record, as they stand in it.
#[derive(Clone, Copy)]
pub struct TaskRecord {
    pub id: usize,
    pub w: usize,
    pub e: usize,
    pub d: usize,
    pub h: usize,
    pub m: usize,
    pub k: usize,
    pub first: usize,
    pub count: usize,
}

impl TaskRecord {
    pub const BYTES: usize = 32;
}

// The numbers of a slot record: from `start` to `end` the processor is the owner's. Where it changes hands, the first ticks go to the switch: the
// loss.
#[derive(Clone, Copy)]
pub struct Slot {
    pub start: usize,
    pub end: usize,
    pub owner: usize,
    pub loss: usize,
}

impl Slot {
    pub const BYTES: usize = 12;
}

// A task record that was accepted: a good wheel and task, the part of the slot buffer that is its board, and whose slots there are its own.
#[derive(Clone, Copy)]
pub struct Job {
    pub wheel: Wheel,
    pub owner: usize,
    pub first: usize,
    pub count: usize,
    pub task: Task,
}

// Refusal 1.
#[tactic(auto, unfolding(crate::specs::Refusals::sizes))]
pub fn sizes(task: &[u8], slots: &[u8]) -> Result<(), Refusal>
    ensures { Checks (sizes task.now slots.now) tt result }
{
    Refusal::Sizes.when(task.len() != TaskRecord::BYTES || slots.len() % Slot::BYTES != 0)
}

// The numbers of a whole task record.
pub fn read(task: &[u8]) -> TaskRecord
    requires { length task.now ≡ task_bytes }
    ensures { result ≡ task_record task.now }
{
    TaskRecord {
        id: octets::four(task, 0),
        w: octets::four(task, 4),
        e: octets::four(task, 8),
        d: octets::four(task, 12),
        h: octets::four(task, 16),
        m: octets::four(task, 20),
        k: octets::four(task, 24),
        first: octets::two(task, 28),
        count: octets::two(task, 30),
    }
}

// The accepted job, or the first refusal that applies: those of the wheel and its table come before those of the task's own numbers.
#[tactic(auto, using(limits::proofs::Checks::row), unfolding(crate::specs::Refusals::body_refusal))]
pub fn check(r: TaskRecord, slots: &[u8]) -> Result<Job, Refusal>
    ensures { Checks (body_refusal r slots.now) (job_of r) result }
{
    let wheel = board::wheel(r, slots)?;
    let task = Task::new(r.e, r.d, r.h, r.m, r.k)?;
    Ok(Job {
        wheel,
        owner: r.id,
        first: r.first,
        count: r.count,
        task,
    })
}
