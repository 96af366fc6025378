#![tactic(auto)]

// Supply and margin at a half tick, from the runs of usable ticks alone: no buffer, and no walk along the wheel.
ghost use Rattle.std.specs.Prelude.{◌≡◌, ◌*◌, ◌/◌, ◌≤◌, ◌<◌, pos};
ghost use Rattle.std.proofs.Math.IntN.{sub_ℕ};
ghost use Rattle.std.specs.Int.Signed.{lt_z};
ghost use Rattle.limits.specs.Limits.{most_need, most_period, asked, Within};
ghost use Rattle.rules.specs.Sums.{Subset, number};
ghost use Rattle.rules.specs.Supply.{supply, margin};
ghost use Rattle.runs.specs.Runs.{Laid};
ghost use Rattle.counts.specs.Counts.{Counted};

use limits::Task;
use runs::Ticks;

// The usable ticks below tick x of the wheel. Run i isn't usable, the next one is.
pub fn below(runs: Ticks, x: usize) -> usize
    requires { x ≤ runs.w }
    ensures { Counted runs.entry.edges.now runs.entry.w x (λ u. number u x) result }
{
    let mut passed = 0;
    for i in (0..runs.edges.len()).step_by(2) {
        let from = runs.end(i);
        if x <= from {
            return passed;
        }
        let to = runs.end(i + 1);
        if x <= to {
            return passed + (x - from);
        }
        passed += to - from;
    }
    passed
}

// The usable ticks of the whole turns that d ticks take in.
pub fn turned(runs: Ticks, d: usize) -> usize
    requires { d ≤ most_period }
    ensures { Counted runs.entry.edges.now runs.entry.w d (λ u. d / runs.entry.w * number u runs.entry.w) result }
{
    if d < runs.w {
        return 0;
    }
    d / runs.w * below(runs, runs.w)
}

// The usable ticks of r ticks from tick a, less than a turn, which may run over the wheel's end.
fn rest(runs: Ticks, a: usize, r: usize) -> usize
    requires { (a < runs.w) × (r < runs.w) }
    ensures { Counted runs.entry.edges.now runs.entry.w r (λ u. supply 1 u r a) result }
{
    let gone = below(runs, a);
    let end = a + r;
    if end <= runs.w {
        return below(runs, end) - gone;
    }
    below(runs, runs.w) - gone + below(runs, end - runs.w)
}

// The supply of a strip at tick a of the wheel: whole turns, and the rest of the deadline.
fn window(runs: Ticks, a: usize, d: usize) -> usize
    requires { (a < runs.w) × (d ≤ most_period) }
    ensures { Counted runs.entry.edges.now runs.entry.w d (λ u. supply 1 u d a) result }
{
    turned(runs, d) + rest(runs, a, d % runs.w)
}

// The supply at half tick x, in half ticks (rule 2).
pub fn supply(runs: Ticks, x: usize, d: usize) -> usize
    requires { (x < 2 * runs.w) × (d ≤ most_period) }
    ensures { Counted runs.entry.edges.now runs.entry.w (2 * d) (λ u. supply 2 u d x) result }
{
    let a = x / 2;
    let here = window(runs, a, d);
    if x % 2 == 0 {
        return here + here;
    }
    here + window(runs, (a + 1) % runs.w, d)
}

// Supply minus need, with its sign (rule 3).
pub fn over(supply: usize, need: usize) -> i32
    requires { (supply ≤ 2 * most_period) × (need ≤ 2 * most_need) }
    ensures { result ≡ sub_ℕ supply need }
{
    supply as i32 - need as i32
}

// The margin of a strip at half tick x, in half ticks.
pub fn margin(runs: Ticks, x: usize, task: Task) -> i32
    requires { (x < 2 * runs.w) × Within task }
    ensures { (u : Subset) → Laid runs.entry.edges.now runs.entry.w u → result ≡ margin 2 u (asked task) x }
{
    over(supply(runs, x, task.d), 2 * task.e)
}

// Below zero means dropped (rule 3).
pub fn dropped(margin: i32) -> bool
    ensures { result ≡ lt_z margin (pos 0) }
{
    margin < 0
}
