// The smallest number of first free slots that is firm, by halves: more slots never hurt.
ghost use Rattle.std.specs.Prelude.{◌≡◌, length};
ghost use Rattle.limits.specs.Limits.{asked, Within};
ghost use Rattle.grants.specs.Grants.{Gridded, Tries, FirmSays, Halving, Searched};

use limits::{Grid, Task};
use room::FEW_EDGES;
use runs::Ticks;

// Marked slots, `all` of which are free, and the task that asks for some of them.
#[derive(Clone, Copy)]
struct Offer<'a> {
    marks: &'a [u8],
    grid: Grid,
    task: Task,
    all: usize,
    ghost tries: { Tries marks.now grid task all },
}

impl Offer<'_> {
    // Whether the first j free slots are firm: marks to runs, runs to the verdict.
    fn firm(self, j: usize, runs: &mut [u16; FEW_EDGES]) -> bool
        ensures { FirmSays self.entry.marks.now self.entry.grid (asked self.entry.task) j result }
    {
        let n = ticks::grid(self.marks, self.grid, self.all, j, runs);
        let laid = Ticks {
            edges: &runs[..n],
            w: self.marks.len() * self.grid.v,
        };
        room::firm(laid, self.task)
    }

    // Between 1, below which nothing is firm, and all the free ones, which are.
    fn halve(self, runs: &mut [u16; FEW_EDGES]) -> usize
        requires { Halving self.marks.now self.grid (asked self.task) 1 self.all }
        ensures { Halving self.entry.marks.now self.entry.grid (asked self.entry.task) result result }
    {
        let mut below = 1;
        let mut above = self.all;
        // No index that counts: a bisection, whose test lays a wheel out.
        while below < above {
            let middle = (below + above) / 2;
            if self.firm(middle, runs) {
                above = middle;
            } else {
                below = middle + 1;
            }
        }
        above
    }
}

// With m 0 every table is firm. Otherwise no slots drop all strips, and if all the free ones aren't firm nothing is.
pub fn find(marks: &[u8], grid: Grid, task: Task, runs: &mut [u16; FEW_EDGES]) -> Option<usize>
    requires { Gridded marks.now grid × Within task }
    ensures { Searched marks.now grid (asked task) result }
{
    if task.m == 0 {
        return Some(0);
    }
    let all = crate::marks::free(marks);
    let offer = Offer {
        marks,
        grid,
        task,
        all,
    };
    if all == 0 {
        return None;
    }
    if offer.firm(all, runs) {
        return Some(offer.halve(runs));
    }
    None
}
