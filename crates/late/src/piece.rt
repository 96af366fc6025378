// A straight piece of supply against the need, and the edges written for it.
ghost use Rattle.std.specs.Prelude.{◌≡◌, true, ◌+◌, ◌*◌, ◌≤◌, min, length};
ghost use Rattle.limits.specs.Limits.{most_ticks};
ghost use Rattle.late.specs.Pieces.{Slope, Steady, Piece, Split, Stretch};

// What is short: a supply below the need at a tick, or `side` ticks after it.
#[derive(Clone, Copy)]
pub struct Short {
    pub need: usize,
    pub side: usize,
    pub ghost half: { side ≤ 1 },
}

// Where a straight piece of supply crosses the need: the first `gap` of its ticks are short (first 1) or not (first 0), the others the other way.
// `first` is a number, the parity of edges that `runs::turn` takes.
#[derive(Clone, Copy)]
struct Cross {
    first: usize,
    gap: usize,
    ghost one: { first ≤ 1 },
}

impl Cross {
    // The edges of a piece of m ticks from tick `at` on. The buffer and the n edges in it stand side by side, as `runs::turn` takes them.
    fn split(self, out: &mut [u16], n: usize, at: usize, m: usize) -> usize
        requires { (at + m ≤ most_ticks) × (n + min m 2 ≤ length out.old) }
        ensures { Split out.old n at m self.gap self.first result out.new }
    {
        if m == 0 {
            return n;
        }
        if self.gap == 0 {
            return runs::turn(out, n, at, 1 - self.first);
        }
        let k = runs::turn(out, n, at, self.first);
        if m <= self.gap {
            return k;
        }
        runs::turn(out, k, at + self.gap, 1 - self.first)
    }
}

// Whether a piece from s to `end` stays below the need where the edges so far say late (now 1), and never is below it where they say painted.
fn steady(now: usize, s: usize, end: usize, need: usize) -> bool
    ensures { result ≡ true → Steady now s end need }
{
    if now == 1 {
        return s.max(end) < need;
    }
    need <= s.min(end)
}

// A straight piece of supply: m ticks from a supply of s on, up by `far` and down by `near` a tick.
#[derive(Clone, Copy)]
pub struct Leg {
    pub s: usize,
    pub m: usize,
    pub near: usize,
    pub far: usize,
    pub ghost slope: { Slope s m near far },
    pub ghost most: { m ≤ most_ticks },
}

impl Leg {
    // The supply behind it.
    pub fn end(self) -> usize
        ensures { result + self.m * self.near ≡ self.s + self.m * self.far }
    {
        self.s + self.m * self.far - self.m * self.near
    }

    // It crosses the need once at most: from below only where it rises, from above only where it falls.
    fn crossing(self, short: Short) -> Cross
        ensures { Piece self.s short.need short.side self.near self.far self.m result.gap result.first }
    {
        if self.s < short.need {
            if self.near < self.far {
                return Cross {
                    first: 1,
                    gap: short.need - self.s,
                };
            }
            return Cross {
                first: 1,
                gap: self.m,
            };
        }
        if self.far < self.near {
            return Cross {
                first: 0,
                gap: self.s - short.need + (1 - short.side),
            };
        }
        Cross {
            first: 0,
            gap: self.m,
        }
    }

    // Its edges, from tick `at` on. Most pieces don't cross the need, and nothing is written for those.
    pub fn stretch(self, out: &mut [u16], n: usize, at: usize, short: Short) -> usize
        requires { (at + self.m ≤ most_ticks) × (n + min self.m 2 ≤ length out.old) }
        ensures { Stretch out.old n at self.m self.s short.need short.side self.near self.far result out.new }
    {
        if steady(n % 2, self.s, self.end(), short.need) {
            return n;
        }
        self.crossing(short).split(out, n, at, self.m)
    }
}
