#![tactic(auto)]

// The worst of a map of drops, by sliding back from each start of a late run: only from such places does a count rise.
ghost use Rattle.std.specs.Prelude.{◌≡◌, ◌+◌, ◌*◌, ◌%◌, ◌≤◌, ◌<◌, length};
ghost use Rattle.limits.specs.Limits.{most_ticks, most_strips};
ghost use Rattle.maps.specs.Maps.{Mapped, Sized, Top, fallen};
ghost use Rattle.slide.specs.Slides.{Hit, Pick, Ranked, Slid, Round};

use limits::Wheel;
use maps::Crest;

// The better of two counts with their ticks: the larger one, and of equal ones that of the earlier tick. An `Ord` would need its laws, for one call.
fn pick(best: Crest, other: Crest) -> Crest
    ensures { Pick best.drops best.at other.drops other.at result.drops result.at }
{
    if other.drops < best.drops || other.drops == best.drops && best.at <= other.at {
        return best;
    }
    other
}

// A count and its tick as one number: larger for the larger count, and of equal ones for the earlier tick.
fn rank(drops: u32, at: usize) -> usize
    requires { (0 < drops) × (drops ≤ 2 * most_strips + 1) × (at < most_ticks) }
    ensures { Ranked result drops at }
{
    drops as usize * Wheel::MOST_TICKS - at
}

// The count and the tick of a rank.
fn unrank(rank: usize) -> Crest
    requires { rank ≤ (2 * most_strips + 1) * most_ticks }
    ensures { Ranked rank result.drops result.at }
{
    let drops = (rank + (Wheel::MOST_TICKS - 1)) / Wheel::MOST_TICKS;
    Crest {
        drops: drops as u32,
        at: drops * Wheel::MOST_TICKS - rank,
    }
}

// Strips along a map of drops: k of them, s ticks apart. They span so many ticks beside whole turns.
#[derive(Clone, Copy)]
struct Strips<'a> {
    map: &'a [u8],
    s: usize,
    k: usize,
    span: usize,
    ghost round: { Round map.now s k },
    ghost spans: { span ≡ k * s % length map.now },
}

impl Strips<'_> {
    // The best of the best so far and of all ticks from which one of the k strips arrives at tick `start`. A step back takes in the strip in front
    // and takes off the one at the end. So on the way the start's own k strips are taken off: it needn't be counted first. Until they are, it stands
    // for k + 1, and the others are counted beside it. The best on the way is one number, which spares a branch.
    fn back(self, start: usize, best: Crest) -> Crest
        requires { Hit self.map.now self.s self.k best.drops best.at }
        ensures { Slid self.entry.map.now self.entry.s self.entry.k start best.drops best.at result.drops result.at }
    {
        let Strips { map, s, k, span } = self;
        let w = map.len();
        if w <= start {
            return best;
        }
        let own = k as u32 + 1;
        let mut p = start;
        let mut q = maps::onward(start, span, w);
        let mut drops = own;
        let mut gone: u32 = 0;
        let mut top = rank(drops, p);
        for _n in 0..k {
            p = maps::backward(p, s, w);
            q = maps::backward(q, s, w);
            let last = u32::from(map[q]);
            gone += last;
            drops = drops + u32::from(map[p]) - last;
            top = top.max(rank(drops, p));
        }
        let mut found = unrank(top);
        found.drops = found.drops + gone - own;
        pick(best, found)
    }
}

// The largest count of k strips along the map, and the first tick that has it. Late runs start at the entries at even places.
pub fn slide(zones: &[u16], map: &[u8], h: usize, k: usize) -> Crest
    requires { Mapped zones.now map.now × Sized map.now h k × (0 < k) }
    ensures { Top map.now h k result.drops result.at }
{
    let w = map.len();
    let s = h % w;
    let span = k * s % w;
    let strips = Strips { map, s, k, span };
    let drops = maps::tally(map, 0, s, k) as u32;
    let mut best = Crest { drops, at: 0 };
    for entry in (0..zones.len()).step_by(2) {
        let start = runs::end(zones, w, entry);
        best = strips.back(start, best);
    }
    best
}
