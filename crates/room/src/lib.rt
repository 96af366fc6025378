#![tactic(auto)]

// Every array as long as a wheel, in sizes, so that a small wheel doesn't clear a large one's. Whatever is asked of runs and a task is found in
// what the room lends.
mod desk;
mod doubled;
mod drawn;
mod work;

ghost use Rattle.std.specs.Prelude.{◌≡◌, ◌*◌, ◌≤◌, ◌<◌, min, length};
ghost use Rattle.limits.specs.Limits.{most_ticks, Within};
ghost use Rattle.late.specs.Late.{late_room};
ghost use Rattle.maps.specs.Maps.{Sized, Top};
ghost use Rattle.room.specs.Room.{most_edges, Doubles, Lends, Found, Decides, Tallied};

use desk::Desk;
use limits::{Task, Wheel};
use maps::Crest;
use runs::Ticks;

// How many of the k strips are dropped, from which half tick on, and the least margin.
#[derive(Clone, Copy)]
pub struct Peak {
    pub drops: u32,
    pub offset: u32,
    pub margin: i32,
}

// The most edges that runs may have here: two a slot.
pub const MOST_EDGES: usize = 2 * Wheel::MOST_SLOTS;

// Up to so many edges the arrays are smaller: most tasks own a few slots of a board.
pub const FEW_EDGES: usize = 128;

// The most edges that their late runs may have.
pub const LATE_EDGES: usize = 2 * MOST_EDGES + 4;

const FEW_LATE: usize = 2 * FEW_EDGES + 4;

// Asks something of a desk. Each size is called once, so it is inlined: a call less, on which the shortest judging spends a tenth of its time.
fn asked_in<const L: usize, const N: usize, R, A: FnOnce(&mut Desk) -> R>(
    runs: Ticks,
    task: Task,
    ask: A,
) -> R
    requires sizes { Within task × (min (late_room (length runs.edges.now)) runs.w ≤ L) × (runs.w ≤ N) × (L ≤ most_ticks) × (N ≤ most_ticks) }
    requires asks { (desk : _) → desk.now.runs ≡ runs → desk.now.task ≡ task → A.pre ask desk }
    ensures { (desk desk' : _) × A.post ask desk result desk' × (desk.now.runs ≡ runs.entry) × (desk.now.task ≡ task) }
{
    ask(&mut Desk {
        runs,
        task,
        late: &mut [0; L],
        map: &mut [0; N][..runs.w],
    })
}

// Late runs have no more edges than the wheel has ticks. For many edges one size is enough: beside the walk along them a large map is soon cleared.
fn asked<R, A: FnOnce(&mut Desk) -> R>(runs: Ticks, task: Task, ask: A) -> R
    requires most { Within task × (length runs.edges.now ≤ most_edges) }
    requires asks { (desk : _) → desk.now.runs ≡ runs → desk.now.task ≡ task → A.pre ask desk }
    ensures { (desk desk' : _) × A.post ask desk result desk' × (desk.now.runs ≡ runs.entry) × (desk.now.task ≡ task) }
{
    if runs.w <= 256 {
        return asked_in::<256, 256, _, _>(runs, task, ask);
    }
    if FEW_EDGES < runs.edges.len() {
        return asked_in::<LATE_EDGES, { Wheel::MOST_TICKS }, _, _>(runs, task, ask);
    }
    match runs.w {
        0..=2048 => asked_in::<FEW_LATE, 2048, _, _>(runs, task, ask),
        2049..=4096 => asked_in::<FEW_LATE, 4096, _, _>(runs, task, ask),
        _ => asked_in::<FEW_LATE, { Wheel::MOST_TICKS }, _, _>(runs, task, ask),
    }
}

// The worst count and offset (rule 6), and the least margin.
pub fn worst(runs: Ticks, task: Task) -> Peak
    requires { Within task × (length runs.edges.now ≤ most_edges) }
    ensures { Found runs.entry.edges.now runs.entry.w task result }
{
    asked(runs, task, |desk| desk.worst(doubled::doubled))
}

// The same in arrays that the caller lends, in any state: for many tasks one after another. `low` and `spare` hold counts in bytes, `here` and
// `there` in 16 bits.
pub fn worst_in(
    runs: Ticks,
    task: Task,
    late: &mut [u16],
    map: &mut [u8],
    low: &mut [u8],
    spare: &mut [u8],
    here: &mut [u16],
    there: &mut [u16],
) -> Peak
    requires runs { Within task × (length runs.edges.now ≤ most_edges) }
    requires lends { Lends runs.w late.old map.old low.old spare.old here.old there.old }
    ensures { Found runs.entry.edges.now runs.entry.w task result }
{
    let mut desk = Desk {
        runs,
        task,
        late,
        map: &mut map[..runs.w],
    };
    desk.worst(
        |map: &[u8], h: usize, k: usize| -> Crest
            requires { Sized map.now h k × (0 < k) × Doubles (length map.now) low.now spare.now here.now there.now }
            ensures { Top map.now h k result.drops result.at }
        { doubled::lent(map, low, spare, here, there, h, k) },
    )
}

// Whether the runs are firm (rule 7), by as little work as tells: mostly no array as long as the wheel. With m 0 every strip may drop.
pub fn firm(runs: Ticks, task: Task) -> bool
    requires { Within task × (length runs.edges.now ≤ most_edges) }
    ensures { Decides runs.entry.edges.now runs.entry.w task result }
{
    if task.m == 0 {
        return true;
    }
    if runs.edges.len() <= FEW_EDGES {
        return work::firm(runs, task, &mut [0; FEW_LATE]);
    }
    work::firm(runs, task, &mut [0; LATE_EDGES])
}

// How many of the k strips from half tick x are dropped (rule 4).
pub fn count(runs: Ticks, task: Task, x: usize) -> u32
    requires { Within task × (length runs.edges.now ≤ most_edges) × (x < 2 * runs.w) }
    ensures { Tallied runs.entry.edges.now runs.entry.w task x result }
{
    asked(runs, task, |desk| desk.count(x))
}
