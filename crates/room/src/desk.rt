// The work on one wheel, in buffers that are lent in any state: a size is only who lends them.
ghost use Rattle.std.specs.Prelude.{◌≡◌, ◌+◌, ◌*◌, ◌<◌, length};
ghost use Rattle.limits.specs.Limits.{most_ticks, Within};
ghost use Rattle.room.specs.Room.{Buffers, Doubling, Highest, Foremost, Found, Tallied};

use crate::{Peak, work};
use limits::Task;
use maps::Crest;
use runs::Ticks;

// Runs and a task, with room for late runs and a map of the wheel.
#[derive(Drop)]
pub struct Desk<'a> {
    pub runs: Ticks<'a>,
    pub task: Task,
    pub late: &'a mut [u16],
    pub map: &'a mut [u8],
    pub ghost lent: { Within task × Buffers (length runs.edges.now) runs.w late.now map.now },
}

// Half a tick after a tick, in half ticks.
fn after(at: usize) -> u32
    requires { at < most_ticks }
    ensures { result ≡ 2 * at + 1 }
{
    (2 * at + 1) as u32
}

impl Desk<'_> {
    // How many of the k strips from half tick x are dropped. Where no tick is late nothing is drawn.
    pub fn count(&mut self, x: usize) -> u32
        requires { x < 2 * self.old.runs.w }
        ensures { Tallied self.old.runs.edges.now self.old.runs.w self.old.task x result }
    {
        let pass = late::late(self.runs, self.task, x % 2, self.late);
        if pass.edges == 0 {
            return 0;
        }
        let zones = Ticks {
            edges: &self.late[..pass.edges],
            w: self.runs.w,
        };
        maps::draw(zones, self.map);
        maps::tally(self.map, x / 2, self.task.h, self.task.k) as u32
    }

    // The worst offset, from the largest count half a tick after a tick. Only at half tick 1 is there a half tick before it that may be as bad: 0.
    fn offset(&mut self, top: Crest) -> u32
        requires { Highest self.old.runs.edges.now self.old.runs.w self.old.task top.drops top.at }
        ensures { Foremost self.old.runs.edges.now self.old.runs.w self.old.task top.drops result }
    {
        if top.drops == 0 {
            return 0;
        }
        if top.at != 0 {
            return after(top.at);
        }
        if self.count(0) == top.drops {
            return 0;
        }
        1
    }

    // The worst count and offset, and the least margin: by the largest count half a tick after a tick.
    pub fn worst<D: FnOnce(&[u8], usize, usize) -> Crest>(&mut self, double: D) -> Peak
        requires { Doubling (D.pre double) (D.post double) self.old.runs.w self.old.task.h self.old.task.k }
        ensures { Found self.old.runs.edges.now self.old.runs.w self.old.task result }
    {
        let pass = late::late(self.runs, self.task, 1, self.late);
        let zones = Ticks {
            edges: &self.late[..pass.edges],
            w: self.runs.w,
        };
        let top = work::crest(zones, self.task, self.map, double);
        Peak {
            drops: top.drops,
            offset: self.offset(top),
            margin: pass.margin,
        }
    }
}
