// The mark bytes: 0 taken, 1 free, 2 granted now.
ghost use Rattle.std.specs.Prelude.{◌≡◌, ◌≤◌, ltb, length};
ghost use Rattle.std.specs.List.{list_any};
ghost use Rattle.rules.specs.Sums.{number};
ghost use Rattle.ticks.specs.Ticks.{free_of};
ghost use Rattle.grants.specs.Grants.{Marked};

// Whether some mark is neither 0 nor 1.
pub fn bad(marks: &[u8]) -> bool
    ensures { result ≡ list_any (λ mark. ltb 1 mark) marks.now }
{
    marks.iter().any(|mark| 1 < *mark)
}

// How many slots are free. A sum of tests, which the compiler turns into vector instructions: a filter that counts took half as long again.
pub fn free(marks: &[u8]) -> usize
    ensures { (result ≡ number (free_of marks.now) (length marks.now)) × (result ≤ length marks.now) }
{
    let mut n = 0;
    for mark in marks {
        n += usize::from(ticks::free(*mark));
    }
    n
}

// Gives the first j free slots away. Each mark is chosen and none is jumped over: on marks in no pattern the jumps cost a grant with m 0 as much again.
pub fn give(marks: &mut [u8], j: usize)
    ensures { Marked marks.old j marks.new }
{
    let mut seen = 0;
    for mark in marks.iter_mut() {
        let free = ticks::free(*mark);
        *mark = if free && seen < j { 2 } else { *mark };
        seen += usize::from(free);
    }
}
