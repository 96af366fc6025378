#![tactic(auto)]

// A wheel drawn into bytes, a byte for each tick, and strips counted along it.
ghost use Rattle.std.specs.Prelude.{◌≡◌, ◌+◌, ◌%◌, ◌≤◌, ◌<◌, length};
ghost use Rattle.limits.specs.Limits.{most_ticks};
ghost use Rattle.rules.specs.Sums.{Subset};
ghost use Rattle.runs.specs.Runs.{Laid};
ghost use Rattle.maps.specs.Maps.{Drawn, Stretched, Sized, fallen};

use runs::Ticks;

// How many of the strips meet a 1 at most, and the first tick from which so many do.
#[derive(Clone, Copy)]
pub struct Crest {
    pub drops: u32,
    pub at: usize,
}

// One value in all ticks from `from` to `to`. As plain a loop as this becomes one call that sets memory; the library's fill takes twice as long where
// runs are short.
fn stretch(map: &mut [u8], from: usize, to: usize, value: u8)
    requires { to ≤ length map.old }
    ensures { Stretched map.old map.new from to value }
{
    for tick in from..to {
        map[tick] = value;
    }
}

// Draws runs into the map: 1 in the ticks of the set, 0 in the others. Run i is out of the set where i is even, in it
// where i is odd; the last one ends at w.
pub fn draw(runs: Ticks, map: &mut [u8])
    requires { length map.old ≡ runs.w }
    ensures { (length map.new ≡ length map.old) × ((z : Subset) → Laid runs.entry.edges.now runs.entry.w z → Drawn map.new z) }
{
    let mut at = 0;
    for (i, edge) in runs.edges.iter().enumerate() {
        let end = usize::from(*edge);
        stretch(map, at, end, (i % 2) as u8);
        at = end;
    }
    stretch(map, at, runs.w, (runs.edges.len() % 2) as u8);
}

// How many of k strips from tick p on meet a 1. Map, period and k stay apart, here and in both engines: each hands on another of the three (k modulo
// w, h modulo w, half of k). From strip to strip the place goes on by what the period leaves beside whole turns. Four
// places go along, since none of them waits for another: those where the next four strips arrive.
fn along(map: &[u8], p: usize, h: usize, k: usize) -> usize
    requires { Sized map.now h k × (p < length map.now) }
    ensures { (result ≡ fallen map.now h k p) × (result ≤ k) }
{
    let w = map.len();
    let s = h % w;
    let two = onward(s, s, w);
    let four = onward(two, two, w);
    let b = onward(p, s, w);
    let mut places = [p, b, onward(p, two, w), onward(b, two, w)];
    let mut met = 0;
    for _ in 0..k / 4 {
        for place in &mut places {
            met += usize::from(map[*place]);
            *place = onward(*place, four, w);
        }
    }
    for last in &places[..k % 4] {
        met += usize::from(map[*last]);
    }
    met
}

// The same, with no more than w strips looked up. After w strips a place comes back: so they are those that are left over beside whole turns,
// and the others of a turn.
pub fn tally(map: &[u8], p: usize, h: usize, k: usize) -> usize
    requires { Sized map.now h k × (p < length map.now) }
    ensures { (result ≡ fallen map.now h k p) × (result ≤ k) }
{
    let w = map.len();
    if k <= w {
        return along(map, p, h, k);
    }
    let over = k % w;
    let left = along(map, p, h, over);
    let others = along(map, (p + over * h) % w, h, w - over);
    k / w * (left + others) + left
}

// A place s places further round.
pub fn onward(p: usize, s: usize, w: usize) -> usize
    requires { (p < w) × (s ≤ w) × (w ≤ most_ticks) }
    ensures { (result ≡ (p + s) % w) × (result < w) }
{
    let back = w - s;
    if p < back {
        return p + s;
    }
    p - back
}

// The place s places back.
pub fn backward(p: usize, s: usize, w: usize) -> usize
    requires { (p < w) × (s < w) × (w ≤ most_ticks) }
    ensures { (result < w) × (p ≡ (result + s) % w) }
{
    if s <= p {
        return p - s;
    }
    p + w - s
}
