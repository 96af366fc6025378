// The job's own slots become runs, in a buffer that the caller lends in any state.
ghost use Rattle.records.specs.Jobs.{job_ticks};
ghost use Rattle.runs.specs.Runs.{LaidIn};
ghost use Rattle.jobs.specs.Lent.{Holds, Own};

use crate::Accepted;
use runs::Ticks;

// Bytes to runs.
pub fn lay(accepted: Accepted, runs: &mut [u16]) -> usize
    requires { Holds accepted.job runs.old }
    ensures { LaidIn runs.old runs.new result accepted.entry.job.wheel.w (job_ticks accepted.entry.slots.now accepted.entry.job) }
{
    let job = accepted.job;
    let wheel = job.wheel;
    ticks::table(
        accepted.slots,
        job.first,
        job.count,
        job.owner,
        wheel.w,
        runs,
    )
}

// Asks something of the runs.
pub fn asked<R, A: FnOnce(Ticks) -> R>(accepted: Accepted, buffer: &mut [u16], ask: A) -> R
    requires holds { Holds accepted.job buffer.old }
    requires asks { (runs : _) → Own accepted.slots.now accepted.job runs.edges.now runs.w → A.pre ask runs }
    ensures { (runs : _) × A.post ask runs result × Own accepted.entry.slots.now accepted.entry.job runs.edges.now runs.w }
{
    let n = lay(accepted, buffer);
    ask(Ticks {
        edges: &buffer[..n],
        w: accepted.job.wheel.w,
    })
}
