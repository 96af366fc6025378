// A map of the wheel, in sizes, for late runs that are laid out already.
ghost use Rattle.std.specs.Prelude.{◌≤◌, length};
ghost use Rattle.limits.specs.Limits.{most_ticks, Within};
ghost use Rattle.room.specs.Room.{Topped};

use crate::{doubled, work};
use limits::{Task, Wheel};
use maps::Crest;
use runs::Ticks;

// Not inlined: what decides without a map takes no frame of one.
#[inline(never)]
fn on<const N: usize>(late: Ticks, task: Task) -> Crest
    requires { (length late.edges.now ≤ late.w) × (late.w ≤ N) × (N ≤ most_ticks) × Within task }
    ensures { Topped late.entry.edges.now late.entry.w task.h task.k result.drops result.at }
{
    work::crest(late, task, &mut [0; N][..late.w], doubled::doubled)
}

// The largest count of k strips along late runs.
pub fn top(late: Ticks, task: Task) -> Crest
    requires { (length late.edges.now ≤ late.w) × Within task }
    ensures { Topped late.entry.edges.now late.entry.w task.h task.k result.drops result.at }
{
    match late.w {
        0..=256 => on::<256>(late, task),
        257..=2048 => on::<2048>(late, task),
        2049..=4096 => on::<4096>(late, task),
        _ => on::<{ Wheel::MOST_TICKS }>(late, task),
    }
}
