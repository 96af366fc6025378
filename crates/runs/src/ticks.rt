// Runs of a wheel, as their edges: lent for as long as something counts along them.
ghost use Rattle.std.specs.Prelude.{◌≡◌, suc};
ghost use Rattle.runs.specs.Runs.{edge, Ordered};

// That the edges lay out some set of ticks is so wherever one is built, and known wherever one is had.
#[derive(Clone, Copy)]
pub struct Ticks<'a> {
    pub edges: &'a [u16],
    pub w: usize,
    pub ghost runs: { Ordered edges.now w },
}

impl Ticks<'_> {
    // Where run i ends. What the edges lack is read as w.
    pub fn end(self, i: usize) -> usize
        ensures { result ≡ edge self.entry.edges.now self.entry.w (suc i) }
    {
        crate::end(self.edges, self.w, i)
    }
}
