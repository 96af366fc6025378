// The largest count, and the first tick that has it.
// Blocks are searched for their largest count by straight loops; only one block is then looked through for the place.
ghost use Rattle.std.specs.Prelude.{◌≡◌, ◌<◌, length, position};
ghost use Rattle.engine.specs.First.{Most, Led, First};

use crate::entry::Entry;
use maps::Crest;

const BLOCK: usize = 256;

fn largest<T: Entry>(block: &[T]) -> T
    requires { 0 < length block.now }
    ensures { Most (T.values block.now) 0 (length block.now) (length block.now) (T.value result) }
{
    let mut m = block[0];
    for v in block {
        m = m.max(*v);
    }
    m
}

// The first place of m.
fn place<T: Entry>(x: &[T], m: T) -> Option<usize>
    ensures { result ≡ position (λ v. T.eq v m) x.now }
{
    x.iter().position(|v| *v == m)
}

// The first place of m, which is known not to stand before place `from`.
fn first<T: Entry>(x: &[T], from: usize, m: T) -> usize
    requires { Led (T.values x.now) (length x.now) (T.value m) from }
    ensures { First (T.values x.now) (T.value m) result }
{
    from + place(&x[from..], m).unwrap()
}

pub fn of<T: Entry>(x: &[T]) -> Crest
    requires { 0 < length x.now }
    ensures { First (T.values x.now) result.drops result.at }
{
    let mut m = x[0];
    let mut at = 0;
    for (i, block) in x.chunks(BLOCK).enumerate() {
        let most = largest(block);
        if m < most {
            m = most;
            at = i * BLOCK;
        }
    }
    Crest {
        drops: m.number(),
        at: first(x, at, m),
    }
}
