// Doubling's arrays, in sizes, so that a small wheel doesn't clear a large one's. Counts that a byte holds go in bytes, larger ones in 16 bits.
ghost use Rattle.std.specs.Prelude.{◌≤◌, ◌<◌, length};
ghost use Rattle.limits.specs.Limits.{most_ticks};
ghost use Rattle.maps.specs.Maps.{Sized, Top};
ghost use Rattle.engine.specs.Turn.{byte_end};
ghost use Rattle.room.specs.Room.{Doubles};

use limits::Wheel;
use maps::Crest;

// Not inlined: a size's frame is taken only where that size is asked for.
#[inline(never)]
fn bytes_in<const N: usize>(map: &[u8], h: usize, k: usize) -> Crest
    requires { Sized map.now h k × (0 < k) × (k < byte_end) × (length map.now ≤ N) × (N ≤ most_ticks) }
    ensures { Top map.now h k result.drops result.at }
{
    engine::by_bytes(map, &mut [0; N], &mut [0; N], h, k)
}

#[inline(never)]
fn words_in<const N: usize>(map: &[u8], h: usize, k: usize) -> Crest
    requires { Sized map.now h k × (byte_end ≤ k) × (length map.now ≤ N) × (N ≤ most_ticks) }
    ensures { Top map.now h k result.drops result.at }
{
    engine::by_words(
        map,
        &mut [0; N],
        &mut [0; N],
        &mut [0; N],
        &mut [0; N],
        h,
        k,
    )
}

fn in_size<const N: usize>(map: &[u8], h: usize, k: usize) -> Crest
    requires { Sized map.now h k × (0 < k) × (length map.now ≤ N) × (N ≤ most_ticks) }
    ensures { Top map.now h k result.drops result.at }
{
    if k < engine::BYTE_END {
        bytes_in::<N>(map, h, k)
    } else {
        words_in::<N>(map, h, k)
    }
}

// The sizes stand here and in `drawn::top`: what is called takes its size as a const argument, and that can't be handed on.
pub fn doubled(map: &[u8], h: usize, k: usize) -> Crest
    requires { Sized map.now h k × (0 < k) }
    ensures { Top map.now h k result.drops result.at }
{
    match map.len() {
        0..=256 => in_size::<256>(map, h, k),
        257..=2048 => in_size::<2048>(map, h, k),
        2049..=4096 => in_size::<4096>(map, h, k),
        _ => in_size::<{ Wheel::MOST_TICKS }>(map, h, k),
    }
}

// Doubling in lent arrays, as long as the map or longer.
pub fn lent(
    map: &[u8],
    low: &mut [u8],
    spare: &mut [u8],
    here: &mut [u16],
    there: &mut [u16],
    h: usize,
    k: usize,
) -> Crest
    requires { Sized map.now h k × (0 < k) × Doubles (length map.now) low.old spare.old here.old there.old }
    ensures { Top map.now h k result.drops result.at }
{
    if k < engine::BYTE_END {
        engine::by_bytes(map, low, spare, h, k)
    } else {
        engine::by_words(map, low, spare, here, there, h, k)
    }
}
