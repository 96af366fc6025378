#![tactic(auto)]

// The second engine: strips counted by whole rounds, with no code of the first one's behind the late runs. On a wheel of w ticks strips h ticks
// apart come back to their first place after w / g of them, where g is the greatest common divisor of w and h: one round. Their places are the
// ticks that lie as many ticks behind a multiple of g as the first one does, an orbit; there are g of those.
ghost use Rattle.std.specs.Prelude.{◌≡◌, ◌+◌, ◌-◌, ◌*◌, ◌/◌, ◌%◌, ◌≤◌, ◌<◌, length};
ghost use Rattle.std.specs.Int.{◌∣◌};
ghost use Rattle.limits.specs.Limits.{most_ticks, most_in_rounds};
ghost use Rattle.rules.specs.Sums.{Subset};
ghost use Rattle.runs.specs.Runs.{Laid};
ghost use Rattle.maps.specs.Maps.{Drawn, Mapped, Top, fallen};
ghost use Rattle.orbits.specs.Orbits.{Ring, ranked, most_rank, Lapped, members};

use limits::Wheel;
use maps::Crest;
use runs::Ticks;

// Draws runs into the map, run by run: out of the set and in it by turns.
pub fn mark(runs: Ticks, map: &mut [u8])
    requires { length map.old ≡ runs.w }
    ensures { (length map.new ≡ length map.old) × ((z : Subset) → Laid runs.entry.edges.now (length map.old) z → Drawn map.new z) }
{
    let mut at = 0;
    for run in 0..=runs.edges.len() {
        let end = runs.end(run);
        map[at..end].fill((run % 2) as u8);
        at = end;
    }
}

// The place s places further round.
fn on(p: usize, s: usize, w: usize) -> usize
    requires { (p < w) × (s < w) × (w ≤ most_ticks) }
    ensures { (result ≡ (p + s) % w) × (result < w) }
{
    let back = w - s;
    if p < back { p + s } else { p - back }
}

// A count and its tick as one number: larger for the larger count, and of equal ones for the earlier tick.
fn rank(drops: usize, at: usize) -> usize
    requires { (drops ≤ most_in_rounds) × (at < most_ticks) }
    ensures { result ≡ ranked drops at }
{
    drops * Wheel::MOST_TICKS + (Wheel::MOST_TICKS - 1 - at)
}

// What a round along an orbit gives: how many of its strips meet a 1, and the best rank of a window of strips from one of its places.
#[derive(Clone, Copy)]
struct Tour {
    round: usize,
    top: usize,
}

impl Tour {
    // The drops of so many whole rounds on top of the rank.
    fn raised(self, rounds: usize) -> usize
        requires { (rounds * self.round ≤ most_in_rounds) × (self.top ≤ most_rank) }
        ensures { result ≡ rounds * self.round * most_ticks + self.top }
    {
        rounds * self.round * Wheel::MOST_TICKS + self.top
    }
}

// Strips s ticks apart along a map, k of them at most.
#[derive(Clone, Copy)]
struct Strips<'a> {
    map: &'a [u8],
    s: usize,
    k: usize,
    ghost ring: { Ring map.now s k },
    ghost less: { s < length map.now },
}

impl Strips<'_> {
    // How many of n of them from tick p on meet a 1.
    fn walk(self, p: usize, n: usize) -> usize
        requires { (p < length self.map.now) × (n ≤ self.k) }
        ensures { (result ≡ fallen self.entry.map.now self.entry.s n p) × (result ≤ n) }
    {
        let w = self.map.len();
        let mut at = p;
        let mut met = 0;
        for _i in 0..n {
            met += usize::from(self.map[at]);
            at = on(at, self.s, w);
        }
        met
    }

    // One round of r strips from tick c on, and a window of n strips slid along it: a step on takes in the strip behind the last, and takes off the
    // first.
    fn lap(self, c: usize, n: usize, r: usize) -> Tour
        requires { (c < length self.map.now) × (r ≤ length self.map.now) × (n ≤ length self.map.now) × (n ≤ self.k) }
        ensures { Lapped self.entry.map.now self.entry.s n r c result }
    {
        let w = self.map.len();
        let mut drops = self.walk(c, n);
        let mut p = c;
        let mut q = on(c, n * self.s % w, w);
        let mut round = 0;
        let mut top: usize = 0;
        for _i in 0..r {
            top = top.max(rank(drops, p));
            let here = usize::from(self.map[p]);
            round += here;
            drops = drops + usize::from(self.map[q]) - here;
            p = on(p, self.s, w);
            q = on(q, self.s, w);
        }
        Tour { round, top }
    }
}

// How often a round of r strips fits into k.
fn fits(k: usize, r: usize) -> usize
    requires { (0 < r) × (r ≤ most_ticks) }
    ensures { result ≡ k / r }
{
    k / r
}

// The largest count of k strips along the map, and the first tick that has it: along each orbit the drops of a round as often as it fits into k,
// and the best window of the strips that are left over.
pub fn worst(map: &[u8], h: usize, k: usize) -> Crest
    requires { Ring map.now h k }
    ensures { Top map.now h k result.drops result.at }
{
    let w = map.len();
    let s = h % w;
    let orbits = divisor::gcd(w, s);
    let r = w / orbits;
    let rounds = fits(k, r);
    let rest = k % r;
    let strips = Strips { map, s, k };
    let mut best: usize = 0;
    for c in 0..orbits {
        let found = strips.lap(c, rest, r);
        best = best.max(found.raised(rounds));
    }
    Crest {
        drops: (best / Wheel::MOST_TICKS) as u32,
        at: Wheel::MOST_TICKS - 1 - best % Wheel::MOST_TICKS,
    }
}

// How many ticks below x are c more than a multiple of g.
fn below(x: usize, g: usize, c: usize) -> usize
    requires { (x ≤ most_ticks) × (c < g) × (g ≤ most_ticks) }
    ensures { result ≡ (x + (g - 1 - c)) / g }
{
    (x + (g - 1 - c)) / g
}

// How many ticks of the set that the runs lay out are c more than a multiple of g: of each run by its ends.
fn met(runs: Ticks, g: usize, c: usize) -> usize
    requires { (g ∣ runs.w) × (c < g) }
    ensures { (z : Subset) → Laid runs.entry.edges.now runs.entry.w z → result ≡ members z g c (runs.entry.w / g) }
{
    let mut n = 0;
    for i in (0..runs.edges.len()).step_by(2) {
        let start = runs.end(i);
        let end = runs.end(i + 1);
        n = n + below(end, g, c) - below(start, g, c);
    }
    n
}

// How many of k strips from tick p on meet a 1: those of a round as often as it fits into k, and those that are left over. The runs are a bare
// list, since what is known of them is that the map is drawn from them (`Mapped`).
pub fn count(runs: &[u16], map: &[u8], p: usize, h: usize, k: usize) -> usize
    requires { Mapped runs.now map.now × Ring map.now h k × (p < length map.now) }
    ensures { (result ≡ fallen map.now h k p) × (result ≤ k) }
{
    let w = map.len();
    let s = h % w;
    let g = divisor::gcd(w, s);
    let r = w / g;
    let rest = Strips { map, s, k }.walk(p, k % r);
    let ticks = Ticks { edges: runs, w };
    fits(k, r) * met(ticks, g, p % g) + rest
}
