// An accepted job on its slot buffer: what it answers. The buffer that its slots are laid out in is lent in two sizes, so that a small board
// doesn't clear a large one's.
ghost use Rattle.std.specs.Prelude.{◌≡◌, ◌*◌, ◌≤◌, ◌<◌};
ghost use Rattle.limits.specs.Limits.{most_period};
ghost use Rattle.records.specs.Jobs.{Good};
ghost use Rattle.jobs.specs.Lent.{Own, Peaked, Decided, job_supply, job_margin, job_count};

use crate::laid;
use records::Job;
use room::{FEW_EDGES, MOST_EDGES, Peak};
use runs::Ticks;

// That the job's checks have passed is shown wherever one is built, and known wherever one is had.
#[derive(Clone, Copy)]
pub struct Accepted<'a> {
    pub slots: &'a [u8],
    pub job: Job,
    pub ghost good: { Good slots.now job },
}

impl Accepted<'_> {
    // Asks something of the runs that the job's slots make.
    fn asked<R, A: FnOnce(Ticks) -> R>(self, ask: A) -> R
        requires { (runs : _) → Own self.slots.now self.job runs.edges.now runs.w → A.pre ask runs }
        ensures { (runs : _) × A.post ask runs result × Own self.entry.slots.now self.entry.job runs.edges.now runs.w }
    {
        if 2 * self.job.count <= FEW_EDGES {
            return laid::asked(self, &mut [0; FEW_EDGES], ask);
        }
        laid::asked(self, &mut [0; MOST_EDGES], ask)
    }

    // The worst count and offset, and the least margin.
    pub fn worst(self) -> Peak
        ensures { Peaked self.entry.slots.now self.entry.job result }
    {
        let task = self.job.task;
        self.asked(|runs| room::worst(runs, task))
    }

    // Whether the job is firm, without the worst count.
    pub fn firm(self) -> bool
        ensures { Decided self.entry.slots.now self.entry.job result }
    {
        let task = self.job.task;
        self.asked(|runs| room::firm(runs, task))
    }

    // The supply at half tick x, in half ticks.
    pub fn supply(self, x: usize) -> usize
        requires { x < 2 * self.job.wheel.w }
        ensures { (result ≡ job_supply self.entry.slots.now self.entry.job x) × (result ≤ 2 * most_period) }
    {
        let task = self.job.task;
        self.asked(|runs| counts::supply(runs, x, task.d))
    }

    // The margin of a strip at half tick x, in half ticks: below zero it is dropped.
    pub fn margin(self, x: usize) -> i32
        requires { x < 2 * self.job.wheel.w }
        ensures { result ≡ job_margin self.entry.slots.now self.entry.job x }
    {
        let task = self.job.task;
        self.asked(|runs| counts::margin(runs, x, task))
    }

    // How many of the k strips from half tick x are dropped.
    pub fn count(self, x: usize) -> u32
        requires { x < 2 * self.job.wheel.w }
        ensures { result ≡ job_count self.entry.slots.now self.entry.job x }
    {
        let task = self.job.task;
        self.asked(|runs| room::count(runs, task, x))
    }
}
