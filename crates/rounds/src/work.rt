// What an accepted job answers by whole rounds: its slots are laid out as runs, the late ticks as runs and as a map, and the map is asked.
ghost use Rattle.std.specs.Prelude.{◌≡◌, ◌+◌, ◌*◌, ◌<◌, length};
ghost use Rattle.limits.specs.Limits.{most_ticks};
ghost use Rattle.room.specs.Room.{Buffers, Highest, Foremost, Found, Tallied};
ghost use Rattle.jobs.specs.Lent.{Own, Peaked, job_count};
ghost use Rattle.rounds.specs.Long.{single, singly, Long, Ready};

use jobs::Accepted;
use limits::{Task, Wheel};
use maps::Crest;
use records::Job;
use room::{LATE_EDGES, MOST_EDGES, Peak};
use runs::Ticks;

// The task with one strip, which needn't be painted.
fn single(t: Task) -> Task
    ensures { result ≡ single t }
{
    Task { m: 0, k: 1, ..t }
}

// The job with that task: the first engine's bounds hold of it.
fn singly(slots: &[u8], j: Job) -> Accepted<'_>
    requires { Ready slots.now j }
    ensures { (result.slots.now ≡ slots.now) × (result.job ≡ singly j) }
{
    let job = Job {
        task: single(j.task),
        ..j
    };
    Accepted { slots, job }
}

// Half a tick after a tick, in half ticks. The room's own, like its way to the worst offset, isn't shared: each engine is a check of the other.
fn after(at: usize) -> u32
    requires { at < most_ticks }
    ensures { result ≡ 2 * at + 1 }
{
    (2 * at + 1) as u32
}

// Runs and a task of many strips, with room for late runs and a map of the wheel, lent in any state.
#[derive(Drop)]
struct Desk<'r, 'a> {
    runs: Ticks<'r>,
    task: Task,
    late: &'a mut [u16],
    map: &'a mut [u8],
    ghost lent: { Long task × Buffers (length runs.edges.now) runs.w late.now map.now },
}

impl Desk<'_, '_> {
    // How many of the k strips from half tick x are dropped (rule 4).
    fn tally(&mut self, x: usize) -> u32
        requires { x < 2 * self.old.runs.w }
        ensures { Tallied self.old.runs.edges.now self.old.runs.w self.old.task x result }
    {
        let pass = late::late(self.runs, single(self.task), x % 2, self.late);
        let zones = Ticks {
            edges: &self.late[..pass.edges],
            w: self.runs.w,
        };
        orbits::mark(zones, self.map);
        orbits::count(zones.edges, self.map, x / 2, self.task.h, self.task.k) as u32
    }

    // The worst offset, from the largest count half a tick after a tick. Only at half tick 1 is there a half tick before it that may be as bad: 0.
    fn offset(&mut self, top: Crest) -> u32
        requires { Highest self.old.runs.edges.now self.old.runs.w self.old.task top.drops top.at }
        ensures { Foremost self.old.runs.edges.now self.old.runs.w self.old.task top.drops result }
    {
        if top.at != 0 {
            return after(top.at);
        }
        if self.tally(0) == top.drops {
            return 0;
        }
        1
    }

    // The worst count and offset (rule 6), and the least margin. Not inlined: among a caller's values the largest wheel takes a fourteenth more
    // instructions.
    #[inline(never)]
    fn found(&mut self) -> Peak
        ensures { Found self.old.runs.edges.now self.old.runs.w self.old.task result }
    {
        let pass = late::late(self.runs, single(self.task), 1, self.late);
        let zones = Ticks {
            edges: &self.late[..pass.edges],
            w: self.runs.w,
        };
        orbits::mark(zones, self.map);
        let top = orbits::worst(self.map, self.task.h, self.task.k);
        Peak {
            drops: top.drops,
            offset: self.offset(top),
            margin: pass.margin,
        }
    }
}

// Asks something of a desk that the job's runs are laid on, with arrays for the most runs, late runs and ticks that there are: who asks for a
// million strips doesn't mind that a large map is cleared.
fn asked<R, A: FnOnce(&mut Desk) -> R>(slots: &[u8], job: Job, ask: A) -> R
    requires ready { Ready slots.now job }
    requires asks { (desk : _) → Own slots.now job desk.now.runs.edges.now desk.now.runs.w → desk.now.task ≡ job.task → A.pre ask desk }
    ensures { (desk desk' : _) × A.post ask desk result desk' × Own slots.now job desk.now.runs.edges.now desk.now.runs.w × (desk.now.task ≡ job.task) }
{
    let w = job.wheel.w;
    let mut edges = [0; MOST_EDGES];
    let n = jobs::laid::lay(singly(slots, job), &mut edges);
    let runs = Ticks {
        edges: &edges[..n],
        w,
    };
    ask(&mut Desk {
        runs,
        task: job.task,
        late: &mut [0; LATE_EDGES],
        map: &mut [0; Wheel::MOST_TICKS][..w],
    })
}

pub fn worst(slots: &[u8], job: Job) -> Peak
    requires { Ready slots.now job }
    ensures { Peaked slots.now job result }
{
    asked(slots, job, |desk| desk.found())
}

pub fn count(slots: &[u8], job: Job, x: usize) -> u32
    requires { Ready slots.now job × (x < 2 * job.wheel.w) }
    ensures { result ≡ job_count slots.now job x }
{
    asked(slots, job, |desk| desk.tally(x))
}
