#![tactic(auto)]

// Whether from some tick more strips drop than are allowed: the candidate offsets are walked, and strips and offsets are left together as soon as
// one count passes the allowance.
ghost use Rattle.std.specs.Prelude.{◌≡◌, true, ◌*◌, ◌≤◌, ◌<◌, nat_lt, length, position};
ghost use Rattle.limits.specs.Limits.{most_period, most_strips};
ghost use Rattle.excess.specs.Excess.{Lit, start_of, Opens, Crowds, Says};

use runs::Ticks;

// What a search has found: that one count passes the allowance, that none does, or nothing within its budget.
#[derive(Clone, Copy, Debug, PartialEq, Eq)]
pub enum Outcome {
    Passed,
    Never,
    Spent,
}

// The first run that ends behind tick p by an edge: the one that p is in.
fn run_at(zones: Ticks, p: usize) -> Option<usize>
    ensures { result ≡ position (λ end. nat_lt p end) zones.entry.edges.now }
{
    zones.edges.iter().position(|end| p < usize::from(*end))
}

// 1 where tick p is late, else 0: late runs are those at odd places. Behind the last edge one run goes on.
fn late_at(zones: Ticks, p: usize) -> usize
    requires { p < zones.w }
    ensures { Lit zones.entry.edges.now zones.entry.w p result × (result ≤ 1) }
{
    run_at(zones, p).unwrap_or(zones.edges.len()) % 2
}

// Where the late run of an entry starts; one without ticks at the wheel's end stands for tick 0.
fn start(zones: Ticks, entry: usize) -> usize
    ensures { (result ≡ start_of zones.entry.edges.now zones.entry.w entry) × (result < zones.entry.w) }
{
    let at = zones.end(entry);
    if at < zones.w { at } else { 0 }
}

// The entry of the first zone start (rule 8). A late run that comes over the wheel's end doesn't start at tick 0, and is passed by where another
// one starts; where none does, offset 0 alone is tried.
fn opening(zones: Ticks) -> usize
    ensures { Opens zones.entry.edges.now zones.entry.w result }
{
    let n = zones.edges.len();
    if n < 3 || n % 2 == 0 {
        return 0;
    }
    if 0 < zones.edges[0] || zones.w <= zones.end(n - 1) {
        return 0;
    }
    2
}

// How many strips there are, and how many of them may drop.
#[derive(Clone, Copy)]
struct Strips {
    k: usize,
    allowed: usize,
    ghost some: { 0 < k },
    ghost few: { (k ≤ most_strips) × (allowed ≤ most_strips) },
}

impl Strips {
    // Whether the counts from all ticks together, which are k times the late ticks, are more than the allowance for each: then one of them passes it.
    fn crowd(self, zones: Ticks) -> bool
        ensures { result ≡ true → Crowds zones.entry.edges.now zones.entry.w self.k self.allowed }
    {
        self.allowed * zones.w < self.k * counts::below(zones, zones.w)
    }

    // From each start the k strips are counted, then the offset slides back strip by strip: one comes in at p, the one at q goes out.
    fn walk(self, zones: Ticks, s: usize) -> Outcome
        requires { s < zones.w }
        ensures { Says zones.entry.edges.now zones.entry.w s self.k self.allowed result }
    {
        let w = zones.w;
        let mut drops = 0;
        'offsets: for entry in (opening(zones)..zones.edges.len()).step_by(2) {
            let mut p = start(zones, entry);
            let mut q = p;
            drops = 0;
            for _n in 0..self.k {
                drops += late_at(zones, q);
                if self.allowed < drops {
                    break 'offsets; // strips and offsets together
                }
                q = maps::onward(q, s, w);
            }
            for _back in 1..self.k {
                p = maps::backward(p, s, w);
                q = maps::backward(q, s, w);
                drops = drops + late_at(zones, p) - late_at(zones, q);
                if self.allowed < drops {
                    break 'offsets;
                }
            }
        }
        if drops <= self.allowed {
            return Outcome::Never;
        }
        Outcome::Passed
    }

    // The walk's budget: whether all its steps are less work than a map of the wheel and the engine. It makes k steps from each start, and what a
    // look among the edges takes goes by the starts, too; drawing a map goes by the ticks. Either way the answer is the same.
    fn affords(self, zones: Ticks) -> bool
        requires { length zones.edges.now ≤ zones.w }
    {
        let starts = zones.edges.len().div_ceil(2);
        self.k * starts * starts <= zones.w / 128 + 11
    }
}

// Whether more than `allowed` of k strips, h ticks apart, meet a late tick from some tick on.
pub fn search(zones: Ticks, h: usize, k: usize, allowed: usize) -> Outcome
    requires runs { length zones.edges.now ≤ zones.w }
    requires strips { (h ≤ most_period) × (0 < k) × (k ≤ most_strips) × (allowed ≤ most_strips) }
    ensures { Says zones.entry.edges.now zones.entry.w h k allowed result }
{
    let strips = Strips { k, allowed };
    if strips.crowd(zones) {
        return Outcome::Passed;
    }
    if strips.affords(zones) {
        return strips.walk(zones, h % zones.w);
    }
    Outcome::Spent
}
