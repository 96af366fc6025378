// The slot records that a task selects: reading one, and the refusals 3, 19, 4 and 14 to 18.
ghost use Rattle.std.specs.Prelude.{◌≡◌, ◌+◌, ◌*◌, ◌/◌, ◌≤◌, ◌<◌, length, ltb};
ghost use Rattle.limits.specs.Refusal.{◌when◌, Checks};
ghost use Rattle.limits.specs.Limits.{most_slots};
ghost use Rattle.records.specs.Records.{slot_bytes, slot_at};
ghost use Rattle.records.specs.Refusals.{slot_refusal, trouble_at, first_bad, table_refusal, board_refusal};
ghost use Rattle.records.specs.Troubles.{Placed, TroubleOf, trouble_number, trouble_place};

use crate::{Slot, TaskRecord};
use limits::{Refusal, Task, Wheel};

// What is wrong with a table: the refusal, and the place of the slot that it is about, counted from the board's first; 0 where it is about none.
#[derive(Clone, Copy)]
pub struct Trouble {
    pub refusal: Refusal,
    pub place: u32,
}

// A refusal that is about no single slot.
impl From<Refusal> for Trouble {
    ghost from_gives = { λ r t. t ≡ record { refusal = r; place = 0 } };

    fn from(refusal: Refusal) -> Trouble {
        Trouble { refusal, place: 0 }
    }
}

// The refusal alone, for a call that tells no place.
impl From<Trouble> for Refusal {
    ghost from_gives = { λ t r. r ≡ t.refusal };

    fn from(t: Trouble) -> Refusal {
        t.refusal
    }
}

// A number that is about no single slot, whatever number it is: its place is 0.
pub fn nowhere(number: u32) -> (u32, u32)
    ensures { result ≡ (number, 0) }
{
    (number, 0)
}

// Slot record `first` + i.
#[tactic(auto, unfolding(crate::specs::Records::slot_at))]
pub fn slot_at(slots: &[u8], first: usize, i: usize) -> Slot
    requires { first + i < length slots.now / slot_bytes }
    ensures { result ≡ slot_at slots.now first i }
{
    let at = Slot::BYTES * (first + i);
    Slot {
        start: octets::four(slots, at),
        end: octets::four(slots, at + 4),
        owner: octets::two(slots, at + 8),
        loss: octets::two(slots, at + 10),
    }
}

// What is wrong with a slot behind one that ends at `before`.
#[tactic(auto, using(crate::proofs::Walk::slot_row), unfolding(crate::specs::Refusals::slot_refusal))]
fn slot_refusal(w: usize, before: usize, s: Slot) -> Result<(), Refusal>
    ensures { Checks (slot_refusal w before s) tt result }
{
    Refusal::Empty.when(s.end <= s.start)?;
    Refusal::Past.when(w < s.end)?;
    Refusal::Early.when(s.start < before)?;
    Refusal::Loss.when(s.end - s.start < s.loss)
}

// The first bad slot. Buffer, `first` and `count` stay apart: the definitions, and slot_at's callers, go by them.
#[tactic(auto, using(crate::proofs::Walk::walk))]
fn first_bad(slots: &[u8], first: usize, count: usize, w: usize) -> Result<(), Trouble>
    requires { (first + count ≤ length slots.now / slot_bytes) × (count ≤ most_slots) }
    ensures { Placed (first_bad w (slot_at slots.now first) count) (trouble_at w (slot_at slots.now first)) count (trouble_number result) (trouble_place result) }
{
    let mut before = 0;
    for i in 0..count {
        let s = slot_at(slots, first, i);
        slot_refusal(w, before, s).map_err(|refusal| Trouble {
            refusal,
            place: i as u32,
        })?;
        before = s.end;
    }
    Ok(())
}

// Refusal 3: no sum is formed, so none wraps.
fn range(first: usize, count: usize, total: usize) -> Result<(), Refusal>
    ensures { Checks (3 when ltb total (first + count)) tt result }
{
    Refusal::Range.when(total < count || total - count < first)
}

// Refusals 14 to 18.
#[tactic(auto, using(crate::proofs::Walk::table_row))]
fn table(slots: &[u8], first: usize, count: usize, w: usize) -> Result<(), Trouble>
    requires { first + count ≤ length slots.now / slot_bytes }
    ensures { Placed (table_refusal w (slot_at slots.now first) count) (trouble_at w (slot_at slots.now first)) count (trouble_number result) (trouble_place result) }
{
    Refusal::Slots.when(Wheel::MOST_SLOTS < count)?;
    first_bad(slots, first, count, w)
}

// The first of the refusals 3, 19, 4 and 14 to 18 that applies, and the slot that it is about.
#[tactic(auto, using(crate::proofs::Walk::board_row))]
pub fn first_trouble(r: TaskRecord, slots: &[u8]) -> Result<(), Trouble>
    ensures { TroubleOf r slots.now (board_refusal r slots.now) (trouble_number result) (trouble_place result) }
{
    range(r.first, r.count, slots.len() / Slot::BYTES)?;
    Task::id_refusal(r.id)?;
    let wheel = Wheel::new(r.w)?;
    table(slots, r.first, r.count, wheel.w)
}

// The wheel behind its table.
pub fn wheel(r: TaskRecord, slots: &[u8]) -> Result<Wheel, Refusal>
    ensures { Checks (board_refusal r slots.now) (record { w = r.w }) result }
{
    first_trouble(r, slots)?;
    Wheel::new(r.w)
}
