#![tactic(auto)]

// The C boundary: what include/fiddlequill.h declares, each call as its namesake in the library fiddlequill. A slice crosses as a pointer and then its length.
ghost use Rattle.std.specs.Prelude.{◌≡◌};
ghost use Rattle.records.specs.Refusals.{point_refusal};
ghost use Rattle.judge.specs.Judge.{Judged};
ghost use Rattle.octets.specs.Octets.{twos};
ghost use Rattle.judge.specs.Points.{supplied_at, margin_at, counted_at};
ghost use Rattle.rounds.specs.Rounds.{rounds_point_refusal, rounds_counted_at, RoundsJudged};
ghost use Rattle.site.specs.Site.{Sited};
ghost use Rattle.fiddlequill.specs.Packed.{packed, PackedWhich, PackedQuick, PackedGrant};

// Judges a task record on a slot buffer; the result is the refusal number, and the reply gets the answer record.
#[unsafe(no_mangle)]
pub extern "C" fn fiddlequill_judge(task: &[u8], slots: &[u8], reply: &mut [u8]) -> u32
    ensures { Judged task.now slots.now reply.old result reply.new }
{
    fiddlequill::fiddlequill_judge(task, slots, reply)
}

// Judges every task record of a site on one slot buffer; the result is the refusal number, and each answer goes into its own place of the reply.
#[unsafe(no_mangle)]
pub extern "C" fn fiddlequill_site(tasks: &[u8], slots: &[u8], reply: &mut [u8]) -> u32
    ensures { Sited tasks.now slots.now reply.old result reply.new }
{
    fiddlequill::fiddlequill_site(tasks, slots, reply)
}

// Which slot of the task's board is bad, and what about it; the refusal number and the slot's place, packed.
#[unsafe(no_mangle)]
pub extern "C" fn fiddlequill_which_slot(task: &[u8], slots: &[u8]) -> u64
    ensures { PackedWhich task.now slots.now result }
{
    fiddlequill::fiddlequill_which_slot(task, slots)
}

// Counts the drops from a half tick; the refusal number and the count, packed.
#[unsafe(no_mangle)]
pub extern "C" fn fiddlequill_count(task: &[u8], slots: &[u8], offset: u64) -> u64
    ensures { result ≡ packed (point_refusal task.now slots.now offset) (counted_at task.now slots.now offset) }
{
    fiddlequill::fiddlequill_count(task, slots, offset)
}

// The supply at a half tick, in half ticks; the refusal number and the supply, packed.
#[unsafe(no_mangle)]
pub extern "C" fn fiddlequill_supply(task: &[u8], slots: &[u8], offset: u64) -> u64
    ensures { result ≡ packed (point_refusal task.now slots.now offset) (supplied_at task.now slots.now offset) }
{
    fiddlequill::fiddlequill_supply(task, slots, offset)
}

// The margin of a strip at a half tick, in half ticks; the refusal number and the margin's two's complement, packed.
#[unsafe(no_mangle)]
pub extern "C" fn fiddlequill_margin(task: &[u8], slots: &[u8], offset: u64) -> u64
    ensures { result ≡ packed (point_refusal task.now slots.now offset) (twos (margin_at task.now slots.now offset)) }
{
    fiddlequill::fiddlequill_margin(task, slots, offset)
}

// Judges by whole rounds, as `fiddlequill_judge` but for windows of up to a million strips.
#[unsafe(no_mangle)]
pub extern "C" fn fiddlequill_rounds_judge(task: &[u8], slots: &[u8], reply: &mut [u8]) -> u32
    ensures { RoundsJudged task.now slots.now reply.old result reply.new }
{
    fiddlequill::fiddlequill_rounds_judge(task, slots, reply)
}

// Counts the drops from a half tick by whole rounds; the refusal number and the count, packed.
#[unsafe(no_mangle)]
pub extern "C" fn fiddlequill_rounds_count(task: &[u8], slots: &[u8], offset: u64) -> u64
    ensures { result ≡ packed (rounds_point_refusal task.now slots.now offset) (rounds_counted_at task.now slots.now offset) }
{
    fiddlequill::fiddlequill_rounds_count(task, slots, offset)
}

// Whether the task is firm; the refusal number and 1 or 0, packed.
#[unsafe(no_mangle)]
pub extern "C" fn fiddlequill_quick(task: &[u8], slots: &[u8]) -> u64
    ensures { PackedQuick task.now slots.now result }
{
    fiddlequill::fiddlequill_quick(task, slots)
}

// Grants the first free slots; the refusal number and how many were granted, packed. A grant turns their marks into 2.
#[unsafe(no_mangle)]
pub extern "C" fn fiddlequill_grant(
    marks: &mut [u8],
    v: u64,
    loss: u64,
    e: u64,
    d: u64,
    h: u64,
    m: u64,
    k: u64,
) -> u64
    ensures { PackedGrant marks.old v loss e d h m k result marks.new }
{
    fiddlequill::fiddlequill_grant(marks, v, loss, e, d, h, m, k)
}
