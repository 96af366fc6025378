// The steps of the walk, in arrays that are lent from record to record.
ghost use Rattle.std.specs.Prelude.{◌≤◌, ◌<◌};
ghost use Rattle.limits.specs.Limits.{most_ticks};
ghost use Rattle.records.specs.Records.{whole};
ghost use Rattle.walk.specs.Walk.{Roomy, Fitting, Placed, Walked};

use crate::arrays::Arrays;
use crate::lent;
use limits::Wheel;
use records::TaskRecord;
use records::answer::Answer;
use room::MOST_EDGES;

// The largest wheel that a record of the site may be accepted with.
pub fn largest(tasks: &[u8]) -> usize
    ensures { Fitting tasks.now result × (result ≤ most_ticks) }
{
    let mut most: usize = 0;
    for task in tasks.chunks_exact(TaskRecord::BYTES) {
        let w = octets::four(task, 4);
        if w <= Wheel::MOST_TICKS {
            most = most.max(w);
        }
    }
    most
}

// Judges record i into its own place, through the part of the reply that starts there.
fn one<const N: usize>(
    tasks: &[u8],
    slots: &[u8],
    i: usize,
    reply: &mut [u8],
    runs: &mut [u16; MOST_EDGES],
    arrays: &mut Arrays<N>,
)
    requires { (i < whole tasks.now) × Roomy tasks.now slots.now reply.old × Fitting tasks.now N }
    ensures { Placed tasks.now slots.now reply.old i reply.new }
{
    let from = TaskRecord::BYTES * i;
    let to = from + TaskRecord::BYTES;
    let at = Answer::BYTES * i;
    let end = at + Answer::BYTES;
    // A refusal stands in the record's answer.
    let _ = lent::judge_in(&tasks[from..to], slots, &mut reply[at..end], runs, arrays);
}

// Judges all records, one after another. By index: of what chunks_exact_mut leaves in the reply a proof knows nothing.
pub fn each<const N: usize>(
    tasks: &[u8],
    slots: &[u8],
    reply: &mut [u8],
    runs: &mut [u16; MOST_EDGES],
    arrays: &mut Arrays<N>,
)
    requires { Roomy tasks.now slots.now reply.old × Fitting tasks.now N }
    ensures { Walked tasks.now slots.now reply.old (whole tasks.now) reply.new }
{
    for i in 0..tasks.len() / TaskRecord::BYTES {
        one(tasks, slots, i, reply, runs, arrays);
    }
}
