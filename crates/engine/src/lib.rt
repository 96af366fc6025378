#![tactic(auto)]

// The worst of a map of drops by doubling: strips from every tick of the wheel are counted at once.
mod count;
mod crest;
mod entry;
mod pass;
mod turn;

ghost use Rattle.std.specs.Prelude.{◌≤◌, ◌<◌};
ghost use Rattle.maps.specs.Maps.{Top, Sized};
ghost use Rattle.engine.specs.Turn.{byte_end};
ghost use Rattle.engine.specs.Counts.{NoShorter};

use maps::Crest;

// Counts below it fit a byte.
pub const BYTE_END: usize = 256;

// The buffers are lent in any state.
pub fn by_bytes(map: &[u8], here: &mut [u8], there: &mut [u8], h: usize, k: usize) -> Crest
    requires { Sized map.now h k × (0 < k) × (k < byte_end) × NoShorter map.now here.old there.old }
    ensures { Top map.now h k result.drops result.at }
{
    if k == 1 {
        return crest::of(map);
    }
    let w = map.len();
    count::bytes(map, &mut here[..w], &mut there[..w], h % w, k);
    crest::of(&here[..w])
}

pub fn by_words(
    map: &[u8],
    low: &mut [u8],
    spare: &mut [u8],
    here: &mut [u16],
    there: &mut [u16],
    h: usize,
    k: usize,
) -> Crest
    requires { Sized map.now h k × (byte_end ≤ k) × NoShorter map.now low.old spare.old × NoShorter map.now here.old there.old }
    ensures { Top map.now h k result.drops result.at }
{
    let w = map.len();
    count::words(
        map,
        &mut low[..w],
        &mut spare[..w],
        &mut here[..w],
        &mut there[..w],
        h % w,
        k,
    );
    crest::of(&here[..w])
}
