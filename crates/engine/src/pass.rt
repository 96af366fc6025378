// A pass over a stretch of the wheel: each entry of x and the one of y at its place are added.
// A straight loop: it is what the compiler turns into vector instructions. By place and not by a `zip`, of whose writes a proof knows the length alone.
ghost use Rattle.engine.specs.Turn.{Fit, Added};
ghost use Rattle.engine.specs.Counts.{AsLong};

use crate::entry::{Entry, Widens};

pub fn add<S: Entry, X: Widens<S>, Y: Widens<S>>(sum: &mut [S], x: &[X], y: &[Y])
    requires { AsLong (S.values sum.old) (X.values x.now) (Y.values y.now) × Fit (X.values x.now) (Y.values y.now) S.limit }
    ensures { Added (S.values sum.new) (X.values x.now) (Y.values y.now) }
{
    for (i, entry) in sum.iter_mut().enumerate() {
        *entry = x[i].wide() + y[i].wide();
    }
}
