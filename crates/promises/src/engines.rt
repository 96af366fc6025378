// Both engines on one task: wherever the first doesn't refuse the number of strips they reply alike.
ghost use Rattle.std.specs.Prelude.{◌≡◌, ◌/◌};

use crate::Pair;

pub fn judge(task: &[u8], slots: &[u8], one: &mut [u8], other: &mut [u8]) -> Pair<u32>
    requires { one.old ≡ other.old }
    ensures { (result.one ≡ 9 → ⊥) → (result.one ≡ result.other) × (one.new ≡ other.new) }
{
    Pair {
        one: fiddlequill::fiddlequill_judge(task, slots, one),
        other: fiddlequill::fiddlequill_rounds_judge(task, slots, other),
    }
}

// The upper half of a packed number is the refusal.
pub fn count(task: &[u8], slots: &[u8], offset: u64) -> Pair<u64>
    ensures { (result.one / 4294967296 ≡ 9 → ⊥) → result.one ≡ result.other }
{
    Pair {
        one: fiddlequill::fiddlequill_count(task, slots, offset),
        other: fiddlequill::fiddlequill_rounds_count(task, slots, offset),
    }
}
