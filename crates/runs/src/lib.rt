#![tactic(auto)]

// Sets of ticks as runs: the waist of the house. Whatever says which ticks are usable ends here, and all that counts starts here.
ghost use Rattle.std.specs.Prelude.{◌≡◌, suc, ◌≤◌, ◌<◌, length};
ghost use Rattle.limits.specs.Limits.{most_ticks};
ghost use Rattle.runs.specs.Runs.{edge, Turn};

mod ticks;

pub use ticks::Ticks;

// Where run i ends. What the list lacks is read as w.
#[tactic(auto, unfolding(crate::specs::Runs::edge))]
pub fn end(runs: &[u16], w: usize, i: usize) -> usize
    ensures { result ≡ edge runs.now w (suc i) }
{
    match runs.get(i) {
        Some(at) => usize::from(*at),
        None => w,
    }
}

// From tick `at` on the ticks are out of the set (step 0) or in it (step 1). The first n edges lay out what is before; an edge is written only
// where they don't leave off so by themselves. The result is how many edges there are now. Buffer and count stay apart: both are the caller's to the
// end, and of a value that held the `&mut` each clause would speak twice, as lent and as left. The step is a number, since it is n's parity.
pub fn turn(runs: &mut [u16], n: usize, at: usize, step: usize) -> usize
    requires { (n < length runs.old) × (at ≤ most_ticks) × (step ≤ 1) }
    ensures { Turn runs.old n at step result runs.new }
{
    if n % 2 == step {
        return n;
    }
    runs[n] = at as u16;
    n + 1
}
