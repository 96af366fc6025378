// Two lists along the wheel added, the second turned by s places: a stretch up to the end of what is read, and one from
// its start on. The result is the place r places further round than s.
ghost use Rattle.engine.specs.Turn.{Turning, Turned};

use crate::entry::{Entry, Widens};
use crate::pass;

pub fn turned<S: Entry, X: Widens<S>, Y: Widens<S>>(
    sum: &mut [S],
    x: &[X],
    y: &[Y],
    s: usize,
    r: usize,
) -> usize
    requires { Turning (S.values sum.old) (X.values x.now) (Y.values y.now) s r S.limit }
    ensures { Turned (S.values sum.new) (X.values x.now) (Y.values y.now) s r result }
{
    let w = x.len();
    let (near, far) = sum.split_at_mut(w - s);
    let (x_near, x_far) = x.split_at(w - s);
    let (y_far, y_near) = y.split_at(s);
    pass::add(near, x_near, y_near);
    pass::add(far, x_far, y_far);
    maps::onward(s, r, w)
}
