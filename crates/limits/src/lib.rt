#![tactic(auto)]

// The bounds of wheel, task and grant, each a constant of what it limits, with constructors that refuse. A refusal is its number in docs/RULES.md.
ghost use Rattle.std.specs.Prelude.{◌≡◌};
ghost use Rattle.limits.specs.Refusal.{◌when◌, number, Checks};
ghost use Rattle.limits.specs.Limits.{outside, id_refusal, wheel_refusal, task_refusal, task_of, rounds_refusal, grid_refusal, grid_of};

// What a call refuses, by the number that docs/RULES.md gives it.
#[derive(Clone, Copy, Debug, PartialEq, Eq)]
pub enum Refusal {
    Sizes = 1,
    Reply = 2,
    Range = 3,
    Wheel = 4,
    Need = 6,
    Period = 7,
    Deadline = 8,
    Strips = 9,
    Painted = 10,
    Offset = 11,
    Grid = 12,
    Loose = 13,
    Slots = 14,
    Empty = 15,
    Past = 16,
    Early = 17,
    Loss = 18,
    Owner = 19,
}

impl Refusal {
    pub fn number(self) -> u32
        ensures { result ≡ number self }
    {
        self as u32
    }

    // Refuses where the test passes.
    #[tactic(auto, using(crate::proofs::Refusals::when_laws))]
    pub fn when(self, test: bool) -> Result<(), Refusal>
        ensures { Checks (number self when test) tt result }
    {
        if test { Err(self) } else { Ok(()) }
    }
}

// A wheel that was accepted.
#[derive(Clone, Copy)]
pub struct Wheel {
    pub w: usize,
}

// What the art desk asks, accepted: e ticks for each strip within d, a strip every h ticks, at least m of any k painted. What the first engine's
// bounds say of it (`Within`) is no ghost field: the definitions make a task of any numbers, and whole rounds one of a million strips.
#[derive(Clone, Copy)]
pub struct Task {
    pub e: usize,
    pub d: usize,
    pub h: usize,
    pub m: usize,
    pub k: usize,
}

// The n equal slots of v ticks of a grant, accepted. Where the processor changes hands, a slot's first ticks go to the switch: the loss.
#[derive(Clone, Copy)]
pub struct Grid {
    pub n: usize,
    pub v: usize,
    pub loss: usize,
}

// Whether x is 0 or above `most`.
#[tactic(auto, unfolding(crate::specs::Limits::outside))]
fn outside(x: usize, most: usize) -> bool
    ensures { result ≡ outside x most }
{
    x == 0 || most < x
}

impl Wheel {
    pub const MOST_TICKS: usize = 16384;

    // Slot records of a board, whoever owns them.
    pub const MOST_SLOTS: usize = 512;

    // The wheel, or refusal 4.
    #[tactic(auto, unfolding(crate::specs::Limits::wheel_refusal))]
    pub fn new(w: usize) -> Result<Wheel, Refusal>
        ensures { Checks (wheel_refusal w) (record { w = w }) result }
    {
        Refusal::Wheel.when(outside(w, Wheel::MOST_TICKS))?;
        Ok(Wheel { w })
    }
}

impl Task {
    // An owner has two bytes in a slot record.
    pub const MOST_ID: usize = 65535;

    pub const MOST_NEED: usize = 1_000_000;

    pub const MOST_PERIOD: usize = 1_000_000;

    pub const MOST_STRIPS: usize = 1024;

    // For the engine by whole rounds, whose work doesn't grow with them.
    pub const MOST_IN_ROUNDS: usize = 1_000_000;

    // Refusal 19.
    #[tactic(auto, unfolding(crate::specs::Limits::id_refusal))]
    pub fn id_refusal(id: usize) -> Result<(), Refusal>
        ensures { Checks (id_refusal id) tt result }
    {
        Refusal::Owner.when(Task::MOST_ID < id)
    }

    // Refusals 9 and 10 of the engine by whole rounds.
    #[tactic(auto, using(crate::proofs::Checks::row), unfolding(crate::specs::Limits::rounds_refusal))]
    pub fn rounds_refusal(m: usize, k: usize) -> Result<(), Refusal>
        ensures { Checks (rounds_refusal m k) tt result }
    {
        Refusal::Strips.when(outside(k, Task::MOST_IN_ROUNDS))?;
        Refusal::Painted.when(k < m)
    }

    // The task, or the first of the refusals 6 to 10.
    #[tactic(auto, using(crate::proofs::Checks::row), unfolding(crate::specs::Limits::task_refusal))]
    pub fn new(e: usize, d: usize, h: usize, m: usize, k: usize) -> Result<Task, Refusal>
        ensures { Checks (task_refusal e d h m k) (task_of e d h m k) result }
    {
        Refusal::Need.when(outside(e, Task::MOST_NEED))?;
        Refusal::Period.when(outside(h, Task::MOST_PERIOD))?;
        Refusal::Deadline.when(outside(d, h))?;
        Refusal::Strips.when(outside(k, Task::MOST_STRIPS))?;
        Refusal::Painted.when(k < m)?;
        Ok(Task { e, d, h, m, k })
    }
}

impl Grid {
    pub const MOST_SLOTS: usize = 64;

    // The n slots of v ticks, or refusal 12. The product is formed only where it can't wrap: a slot over the wheel's bound is refused before it.
    #[tactic(auto, using(crate::proofs::Checks::grid_row))]
    pub fn new(n: usize, v: usize, loss: usize) -> Result<Grid, Refusal>
        ensures { Checks (grid_refusal n v loss) (grid_of n v loss) result }
    {
        Refusal::Grid.when(outside(n, Grid::MOST_SLOTS))?;
        Refusal::Grid.when(outside(v, Wheel::MOST_TICKS))?;
        Refusal::Grid.when(v < loss)?;
        Refusal::Grid.when(Wheel::MOST_TICKS < n * v)?;
        Ok(Grid { n, v, loss })
    }
}
