#![tactic(auto)]

// A walk along the task records of a site: each is judged by itself, and its answer goes into its own place of the reply.
mod arrays;
mod lent;
mod steps;

ghost use Rattle.std.specs.Prelude.{◌≤◌};
ghost use Rattle.limits.specs.Limits.{most_ticks};
ghost use Rattle.records.specs.Records.{whole};
ghost use Rattle.walk.specs.Walk.{Roomy, Fitting, Walked};

use crate::arrays::Arrays;
use limits::Wheel;
use room::{LATE_EDGES, MOST_EDGES};

// All records in arrays for N ticks, cleared once for all of them.
fn on<const N: usize>(tasks: &[u8], slots: &[u8], reply: &mut [u8])
    requires { Roomy tasks.now slots.now reply.old × Fitting tasks.now N × (N ≤ most_ticks) }
    ensures { Walked tasks.now slots.now reply.old (whole tasks.now) reply.new }
{
    let mut runs = [0; MOST_EDGES];
    let mut arrays = Arrays {
        late: [0; LATE_EDGES],
        map: [0; N],
        low: [0; N],
        spare: [0; N],
        here: [0; N],
        there: [0; N],
    };
    steps::each(tasks, slots, reply, &mut runs, &mut arrays);
}

// All records, in arrays of the size that the largest wheel asks for.
pub fn walk(tasks: &[u8], slots: &[u8], reply: &mut [u8])
    requires { Roomy tasks.now slots.now reply.old }
    ensures { Walked tasks.now slots.now reply.old (whole tasks.now) reply.new }
{
    if steps::largest(tasks) <= 2048 {
        return on::<2048>(tasks, slots, reply);
    }
    on::<{ Wheel::MOST_TICKS }>(tasks, slots, reply)
}
