#![tactic(auto)]

mod piece;

// Where strips are dropped, as runs, and the least margin: a walk along the straight pieces of supply.
ghost use Rattle.std.specs.Prelude.{◌≡◌, true, ◌+◌, ◌*◌, ◌≤◌, ◌<◌, min, length};
ghost use Rattle.limits.specs.Limits.{most_ticks, Within};
ghost use Rattle.late.specs.Late.{need_in, Cursor, Passed, way_of, Outset, Swept, late_room, Laying, LateIn};

use limits::Task;
use piece::{Leg, Short};
use runs::Ticks;

// What is left of the need after the whole turns: 0 where they are enough, more than the rest window holds where nothing is.
#[tactic(auto, unfolding(crate::specs::Late::need_in))]
fn need(turned: usize, rest: usize, e: usize) -> usize
    requires { rest < most_ticks }
    ensures { result ≡ need_in turned rest e }
{
    if e <= turned {
        return 0;
    }
    (e - turned).min(rest + 1)
}

// The run that tick x lies in, or ends. Edges are sorted, but mostly so few that the library's search by halves takes longer.
fn find(runs: Ticks, x: usize) -> usize
    requires { x ≤ runs.w }
    ensures { Cursor runs.entry.edges.now runs.entry.w result x }
{
    for (i, end) in runs.edges.iter().enumerate() {
        if x <= usize::from(*end) {
            return i;
        }
    }
    runs.edges.len()
}

// A cursor at a tick of a run, or at the run's end.
#[derive(Clone, Copy)]
struct Place {
    at: usize,
    run: usize,
}

impl Place {
    // m ticks on in its run, which ends at `end`: there the next run begins.
    fn on(self, m: usize, end: usize) -> Place
        requires { (self.at + m ≤ end) × (self.run < usize.MAX) }
        ensures { (result.at ≡ self.at + m) × Passed self.run result.at end result.run }
    {
        let at = self.at + m;
        Place {
            at,
            run: if at == end { self.run + 1 } else { self.run },
        }
    }
}

// How far a walk has come: the near cursor and the far one, the supply s between them, the lowest so far, and n edges written.
#[derive(Clone, Copy)]
struct Walk {
    near: Place,
    far: Place,
    s: usize,
    low: usize,
    n: usize,
}

// What a walk goes by: the runs for the near cursor; for the far one, `rest` ticks on, those of them up to `stop`.
#[derive(Clone, Copy)]
struct Course<'a> {
    runs: Ticks<'a>,
    part: &'a [u16],
    stop: usize,
    rest: usize,
    short: Short,
}

impl<'a> Course<'a> {
    // Walks on until the far cursor comes to its end. Each stretch ends where a cursor comes to the end of its run, and supply is lowest at an end
    // of one. A `while`: which cursor goes on to its next run is known only there, so nothing counts the stretches.
    // The course is lent: handed over by value it would cost the shortest walks a twentieth.
    fn sweep(&self, from: Walk, out: &mut [u16]) -> Walk
        requires { Outset (way_of self.now) from out.old }
        ensures { Swept (way_of self.now) from out.old result out.new }
    {
        let mut k = from;
        while k.far.at < self.stop {
            let here = self.runs.end(k.near.run);
            let there = runs::end(self.part, self.stop, k.far.run);
            let m = (here - k.near.at).min(there - k.far.at);
            let leg = Leg {
                s: k.s,
                m,
                near: k.near.run % 2,
                far: k.far.run % 2,
            };
            k.n = leg.stretch(out, k.n, k.near.at, self.short);
            k.s = leg.end();
            k.low = k.low.min(k.s);
            k.near = k.near.on(m, here);
            k.far = k.far.on(m, there);
        }
        k
    }
}

// All around the wheel: from tick 0 on until the far cursor comes to the wheel's end, then with the far cursor from tick 0 on.
fn around(runs: Ticks, rest: usize, short: Short, out: &mut [u16]) -> Walk
    requires { (rest < runs.w) × (min (late_room (length runs.edges.now)) runs.w ≤ length out.old) }
    ensures { Laying runs.entry.edges.now runs.entry.w rest short.need short.side out.old result.n result.low out.new }
{
    let first = Place { at: 0, run: 0 };
    let run = find(runs, rest);
    let s = counts::below(runs, rest);
    let whole = Course {
        runs,
        part: runs.edges,
        stop: runs.w,
        rest,
        short,
    };
    let start = Walk {
        near: first,
        far: Place { at: rest, run },
        s,
        low: s,
        n: 0,
    };
    let half = whole.sweep(start, out);
    let over = Course {
        part: &runs.edges[..run],
        stop: rest,
        ..whole
    };
    over.sweep(Walk { far: first, ..half }, out)
}

// What the walk around a wheel has found: how many edges the late ticks have, and the least margin in whole ticks.
#[derive(Clone, Copy)]
pub struct Pass {
    pub edges: usize,
    pub margin: i32,
}

// The ticks of the wheel at which a strip is dropped that arrives there (side 0), or half a tick after it (side 1), and the least margin, which is
// that of a tick on either side.
pub fn late(runs: Ticks, task: Task, side: usize, out: &mut [u16]) -> Pass
    requires { Within task × (side ≤ 1) × (min (late_room (length runs.edges.now)) runs.w ≤ length out.old) }
    ensures { LateIn runs.entry.edges.now runs.entry.w task side out.old result.edges result.margin out.new }
{
    let rest = task.d % runs.w;
    let turned = counts::turned(runs, task.d);
    let left = need(turned, rest, task.e);
    let end = around(runs, rest, Short { need: left, side }, out);
    Pass {
        edges: end.n,
        margin: counts::over(turned + end.low, task.e),
    }
}
