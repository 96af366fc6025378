// The arrays that a site's records are judged in.
ghost use Rattle.std.specs.Prelude.{◌≤◌};
ghost use Rattle.limits.specs.Limits.{most_ticks};

use room::LATE_EDGES;

// All arrays for wheels of up to N ticks, in any state: for many tasks one after another. `low` and `spare` hold counts in bytes, `here` and
// `there` in 16 bits.
#[derive(Drop)]
pub struct Arrays<const N: usize> {
    pub late: [u16; LATE_EDGES],
    pub map: [u8; N],
    pub low: [u8; N],
    pub spare: [u8; N],
    pub here: [u16; N],
    pub there: [u16; N],
    pub ghost bound: { N ≤ most_ticks },
}
