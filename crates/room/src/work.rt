// What late runs come to.
ghost use Rattle.std.specs.Prelude.{◌≡◌, ◌-◌, ◌≤◌, min, length};
ghost use Rattle.limits.specs.Limits.{most_ticks, most_strips, Within};
ghost use Rattle.late.specs.Late.{late_room};
ghost use Rattle.room.specs.Room.{Doubling, Outlined, Topped, Bears, Decides};

use crate::drawn;
use excess::Outcome;
use limits::Task;
use maps::Crest;
use runs::Ticks;

// Whether sliding back from each start of a late run is less work than doubling, by what both take on large wheels and small ones. Either way
// the answer is the same.
fn slides(edges: usize, k: usize, w: usize) -> bool
    requires { (edges ≤ w) × (k ≤ most_strips) × (w ≤ most_ticks) }
{
    7 * k * edges <= w + 400
}

// The largest count of k strips along late runs where it is known before any doubling, or else they are drawn to double on. Where there are none
// nothing is drawn.
fn outline(late: Ticks, task: Task, map: &mut [u8]) -> Option<Crest>
    requires { (length late.edges.now ≤ late.w) × Within task × (length map.old ≡ late.w) }
    ensures { Outlined late.entry.edges.now late.entry.w map.new task.h task.k result }
{
    if late.edges.is_empty() {
        return Some(Crest { drops: 0, at: 0 });
    }
    maps::draw(late, map);
    if slides(late.edges.len(), task.k, map.len()) {
        return Some(slide::slide(late.edges, map, task.h, task.k));
    }
    None
}

// The largest count of k strips along late runs. Inlined: judging has its own way through the room, and none that it would share with the verdict.
#[inline(always)]
pub fn crest<D: FnOnce(&[u8], usize, usize) -> Crest>(
    late: Ticks,
    task: Task,
    map: &mut [u8],
    double: D,
) -> Crest
    requires late { (length late.edges.now ≤ late.w) × Within task × (length map.old ≡ late.w) }
    requires doubles { Doubling (D.pre double) (D.post double) late.w task.h task.k }
    ensures { Topped late.entry.edges.now late.entry.w task.h task.k result.drops result.at }
{
    match outline(late, task, map) {
        Some(c) => c,
        None => double(map, task.h, task.k),
    }
}

// Whether along late runs no more than k − m strips drop from any tick: a search tells, or else the largest count.
fn bears(late: Ticks, task: Task) -> bool
    requires { (length late.edges.now ≤ late.w) × Within task }
    ensures { Bears late.entry.edges.now late.entry.w task.h task.k (task.k - task.m) result }
{
    let allowed = task.k - task.m;
    match excess::search(late, task.h, task.k, allowed) {
        Outcome::Passed => false,
        Outcome::Never => true,
        Outcome::Spent => drawn::top(late, task).drops as usize <= allowed,
    }
}

// Whether the runs are firm. Where the least margin isn't below zero no strip drops.
pub fn firm(runs: Ticks, task: Task, late: &mut [u16]) -> bool
    requires { Within task × (min (late_room (length runs.edges.now)) runs.w ≤ length late.old) }
    ensures { Decides runs.entry.edges.now runs.entry.w task result }
{
    let pass = late::late(runs, task, 1, late);
    if counts::dropped(pass.margin) {
        let zones = Ticks {
            edges: &late[..pass.edges],
            w: runs.w,
        };
        return bears(zones, task);
    }
    true
}
