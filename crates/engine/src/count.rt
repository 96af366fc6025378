// The drops of k strips from every tick, by doubling: an even k is twice its half, an odd one its half doubled and one
// strip more. The two buffers change places at each step. The result is how far round the wheel the k strips take.
ghost use Rattle.std.specs.Prelude.{◌≤◌, ◌<◌};
ghost use Rattle.limits.specs.Limits.{most_strips};
ghost use Rattle.engine.specs.Turn.{byte_end};
ghost use Rattle.engine.specs.Counts.{Wheeled, Counted, AsLong};

use crate::{BYTE_END, turn};

pub fn bytes(map: &[u8], here: &mut [u8], there: &mut [u8], h: usize, k: usize) -> usize
    requires { Wheeled map.now h × (2 ≤ k) × (k < byte_end) × AsLong map.now here.old there.old }
    ensures { Counted map.now h k here.new result }
{
    if k == 2 {
        return turn::turned(here, map, map, h, h);
    }
    if k % 2 == 1 {
        let s = bytes(map, there, here, h, k - 1);
        return turn::turned(here, there, map, s, h);
    }
    let s = bytes(map, there, here, h, k / 2);
    turn::turned(here, there, there, s, s)
}

// Bytes as long as the counts fit them, 16 bits after that. It stays beside `bytes`, since the two start differently: from the map, or from counts in bytes.
pub fn words(
    map: &[u8],
    low: &mut [u8],
    spare: &mut [u8],
    here: &mut [u16],
    there: &mut [u16],
    h: usize,
    k: usize,
) -> usize
    requires { Wheeled map.now h × (byte_end ≤ k) × (k ≤ most_strips) × AsLong map.now low.old spare.old × AsLong map.now here.old there.old }
    ensures { Counted map.now h k here.new result }
{
    if k % 2 == 1 {
        let s = words(map, low, spare, there, here, h, k - 1);
        return turn::turned(here, there, map, s, h);
    }
    if k / 2 < BYTE_END {
        let s = bytes(map, low, spare, h, k / 2);
        return turn::turned(here, low, low, s, s);
    }
    let s = words(map, low, spare, there, here, h, k / 2);
    turn::turned(here, there, there, s, s)
}
