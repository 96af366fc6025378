#![tactic(auto)]

// The usable ticks of a task on its board, or of a grant, as runs. Behind this crate nothing knows of slots, owners, losses or marks.
ghost use Rattle.std.specs.Prelude.{◌≡◌, ◌&&◌, ◌+◌, ◌*◌, ◌/◌, ◌≤◌, ◌<◌, eqb, ltb, length};
ghost use Rattle.rules.specs.Sums.{bit, number};
ghost use Rattle.rules.specs.Usable.{usable, grid};
ghost use Rattle.rules.specs.Grant.{first, grid_ticks};
ghost use Rattle.limits.specs.Limits.{most_ticks};
ghost use Rattle.records.specs.Records.{slot_bytes, board};
ghost use Rattle.runs.specs.Runs.{LaidIn};
ghost use Rattle.ticks.specs.Ticks.{Span, Slotted, met_first, opens_at, Fits, free_of, WholeRow, GridFits};

use limits::Grid;

// The ticks from `from` to `to` are out of the set (step 0) or in it (step 1). Where there are none, no edge comes between their neighbours.
fn span(runs: &mut [u16], n: usize, from: usize, to: usize, step: usize) -> usize
    requires { (n < length runs.old) × (from ≤ to) × (to ≤ most_ticks) × (step ≤ 1) }
    ensures { Span runs.old n from to step result runs.new }
{
    if from < to {
        runs::turn(runs, n, from, step)
    } else {
        n
    }
}

// The first tick of a slot that isn't lost. Where an own slot ends at its start, the processor doesn't change hands.
#[tactic(auto, unfolding(crate::specs::Ticks::opens_at))]
fn opens(start: usize, loss: usize, met: usize) -> usize
    requires { start + loss ≤ most_ticks }
    ensures { result ≡ opens_at start loss met }
{
    if start == met { start } else { start + loss }
}

// How far laying out has come.
#[derive(Clone, Copy)]
struct Reach {
    // The edges so far.
    n: usize,
    // The tick up to which they lay out.
    at: usize,
    // Where the next slot is met.
    met: usize,
}

impl Reach {
    // Nothing is laid out yet.
    fn start(met: usize) -> Reach
        ensures { result ≡ record { n = 0; at = 0; met = met } }
    {
        Reach { n: 0, at: 0, met }
    }

    // A slot more, from its first tick that isn't lost: the ticks before that are out of the set. The next slot is met where this one ends.
    fn slot(self, runs: &mut [u16], start: usize, loss: usize, end: usize) -> Reach
        requires short { start + loss ≤ most_ticks }
        requires room { self.n + 1 < length runs.old }
        requires order { (self.at ≤ opens_at start loss self.met) × (opens_at start loss self.met ≤ end) × (end ≤ most_ticks) }
        ensures laid { Slotted runs.old self.n self.at (opens_at start loss self.met) end result.n runs.new }
        ensures come { (result.at ≡ end) × (result.met ≡ end) }
    {
        let from = opens(start, loss, self.met);
        let n = span(runs, self.n, self.at, from, 0);
        Reach {
            n: span(runs, n, from, end, 1),
            at: end,
            met: end,
        }
    }
}

// Where the board's first slot is met as the wheel turns: by its last one, if that is the owner's and ends with the wheel. No slot starts at w.
fn met_first(slots: &[u8], first: usize, count: usize, owner: usize, w: usize) -> usize
    requires { first + count ≤ length slots.now / slot_bytes }
    ensures { result ≡ met_first w (board slots.now first count owner) count }
{
    if count == 0 {
        return w;
    }
    let last = records::board::slot_at(slots, first, count - 1);
    if last.owner == owner && last.end == w {
        0
    } else {
        w
    }
}

// The usable ticks of the owner's slots on a board as runs. Slots that touch join; another owner's slot is passed by.
pub fn table(
    slots: &[u8],
    first: usize,
    count: usize,
    owner: usize,
    w: usize,
    runs: &mut [u16],
) -> usize
    requires { Fits slots.now first count w runs.old }
    ensures { LaidIn runs.old runs.new result w (usable w (board slots.now first count owner)) }
{
    let mut reach = Reach::start(met_first(slots, first, count, owner, w));
    for i in 0..count {
        let s = records::board::slot_at(slots, first, i);
        if s.owner == owner {
            reach = reach.slot(runs, s.start, s.loss, s.end);
        }
    }
    span(runs, reach.n, reach.at, w, 0)
}

// Whether a mark is free.
pub fn free(mark: u8) -> bool
    ensures { result ≡ eqb mark 1 }
{
    mark == 1
}

// Whether a mark is free and has fewer than j free ones before it.
fn given(mark: u8, seen: usize, j: usize) -> bool
    ensures { result ≡ (eqb mark 1 && ltb seen j) }
{
    free(mark) && seen < j
}

// Where a grant's first slot is met as the wheel turns: by its last one, if that is granted, too. It is where all free ones are and it is free.
fn met_granted(marks: &[u8], g: Grid, all: usize, j: usize) -> usize
    requires wheel { (0 < length marks.now * g.v) × (length marks.now * g.v ≤ most_ticks) }
    requires all_free { all ≡ number (free_of marks.now) (length marks.now) }
    ensures { result ≡ met_first (length marks.now * g.v) (grid (length marks.now) g.v g.loss (first (free_of marks.now) j)) (length marks.now) }
{
    let w = marks.len() * g.v;
    if free(marks[marks.len() - 1]) && all <= j {
        0
    } else {
        w
    }
}

// The end of the slots that are granted one behind the other from slot i on, `seen` before them.
fn row(marks: &[u8], i: usize, seen: usize, j: usize) -> usize
    requires { (i ≤ length marks.now) × (seen ≤ i) }
    ensures { WholeRow marks.now i seen j result }
{
    for k in i..marks.len() {
        if !given(marks[k], seen + (k - i), j) {
            return k;
        }
    }
    marks.len()
}

// The ticks of a grant of the first j free slots, of `all` that are free, as runs. Granted slots that stand one behind the other are laid out as one.
pub fn grid(marks: &[u8], g: Grid, all: usize, j: usize, runs: &mut [u16]) -> usize
    requires { GridFits marks.now g all runs.old }
    ensures { LaidIn runs.old runs.new result (length marks.now * g.v) (grid_ticks (length marks.now) g.v g.loss (first (free_of marks.now) j)) }
{
    let mut reach = Reach::start(met_granted(marks, g, all, j));
    let mut seen = 0;
    let mut i = 0;
    // Row by row, which no `for` goes: slot by slot it takes longer (docs/DECISIONS.md).
    while i < marks.len() {
        if given(marks[i], seen, j) {
            let k = row(marks, i + 1, seen + 1, j);
            reach = reach.slot(runs, i * g.v, g.loss, k * g.v);
            seen += k - i;
            // Behind the row the slot isn't granted, if there is one.
            i = (k + 1).min(marks.len());
        } else {
            i += 1;
        }
    }
    span(runs, reach.n, reach.at, marks.len() * g.v, 0)
}
