#![tactic(auto)]

// What the desk's C program calls; fiddlequill_c exports it. Every call takes any bytes and any 64-bit numbers; a number that doesn't fit is refused
// by its bound.
ghost use Rattle.std.specs.Prelude.{◌≡◌};
ghost use Rattle.limits.specs.Refusal.{refusal, given};
ghost use Rattle.records.specs.Refusals.{point_refusal};
ghost use Rattle.judge.specs.Judge.{Judged};
ghost use Rattle.octets.specs.Octets.{twos};
ghost use Rattle.judge.specs.Points.{supplied_at, margin_at, counted_at};
ghost use Rattle.rounds.specs.Rounds.{rounds_point_refusal, rounds_counted_at, RoundsJudged};
ghost use Rattle.site.specs.Site.{Sited};
ghost use Rattle.fiddlequill.specs.Packed.{packed, PackedWhich, PackedQuick, PackedGrant};

use limits::Refusal;

// The refusal number, 0 for none: what C gets in place of an answer.
fn number(answer: Result<(), Refusal>) -> u32
    ensures { result ≡ refusal answer }
{
    match answer {
        Ok(()) => 0,
        Err(bad) => bad.number(),
    }
}

// The refusal number times 2^32 plus the other number.
#[tactic(auto, unfolding(crate::specs::Packed::packed))]
fn halves(number: u32, value: u32) -> u64
    ensures { result ≡ packed number value }
{
    u64::from(number) * 4294967296 + u64::from(value)
}

// An answer packed: beside a refusal the other number is 0.
fn pack(answer: Result<u32, Refusal>) -> u64
    ensures { result ≡ packed (refusal answer) (given 0 answer) }
{
    match answer {
        Ok(value) => halves(0, value),
        Err(bad) => halves(bad.number(), 0),
    }
}

// Judges a task record on a slot buffer; the result is the refusal number, and the reply gets the answer record.
pub fn fiddlequill_judge(task: &[u8], slots: &[u8], reply: &mut [u8]) -> u32
    ensures { Judged task.now slots.now reply.old result reply.new }
{
    number(judge::judge(task, slots, reply))
}

// Judges every task record of a site on one slot buffer; the result is the refusal number, and each answer goes into its own place of the reply.
pub fn fiddlequill_site(tasks: &[u8], slots: &[u8], reply: &mut [u8]) -> u32
    ensures { Sited tasks.now slots.now reply.old result reply.new }
{
    number(site::site(tasks, slots, reply))
}

// Which slot of the task's board is bad, and what about it; the refusal number and the slot's place, packed.
pub fn fiddlequill_which_slot(task: &[u8], slots: &[u8]) -> u64
    ensures { PackedWhich task.now slots.now result }
{
    let (number, place) = match which::which_slot(task, slots) {
        Ok(()) => records::board::nowhere(0),
        Err(t) => (t.refusal.number(), t.place),
    };
    halves(number, place)
}

// Counts the drops from a half tick; the refusal number and the count, packed.
pub fn fiddlequill_count(task: &[u8], slots: &[u8], offset: u64) -> u64
    ensures { result ≡ packed (point_refusal task.now slots.now offset) (counted_at task.now slots.now offset) }
{
    pack(judge::count(task, slots, offset))
}

// The supply at a half tick, in half ticks; the refusal number and the supply, packed.
pub fn fiddlequill_supply(task: &[u8], slots: &[u8], offset: u64) -> u64
    ensures { result ≡ packed (point_refusal task.now slots.now offset) (supplied_at task.now slots.now offset) }
{
    pack(judge::supply(task, slots, offset))
}

// The margin of a strip at a half tick, in half ticks; the refusal number and the margin's two's complement, packed.
pub fn fiddlequill_margin(task: &[u8], slots: &[u8], offset: u64) -> u64
    ensures { result ≡ packed (point_refusal task.now slots.now offset) (twos (margin_at task.now slots.now offset)) }
{
    pack(judge::margin(task, slots, offset).map(octets::twos))
}

// Judges by whole rounds, as `fiddlequill_judge` but for windows of up to a million strips.
pub fn fiddlequill_rounds_judge(task: &[u8], slots: &[u8], reply: &mut [u8]) -> u32
    ensures { RoundsJudged task.now slots.now reply.old result reply.new }
{
    number(rounds::rounds_judge(task, slots, reply))
}

// Counts the drops from a half tick by whole rounds; the refusal number and the count, packed.
pub fn fiddlequill_rounds_count(task: &[u8], slots: &[u8], offset: u64) -> u64
    ensures { result ≡ packed (rounds_point_refusal task.now slots.now offset) (rounds_counted_at task.now slots.now offset) }
{
    pack(rounds::rounds_count(task, slots, offset))
}

// Whether the task is firm; the refusal number and 1 or 0, packed.
pub fn fiddlequill_quick(task: &[u8], slots: &[u8]) -> u64
    ensures { PackedQuick task.now slots.now result }
{
    pack(quick::quick(task, slots).map(u32::from))
}

// Grants the first free slots; the refusal number and how many were granted, packed. A grant turns their marks into 2.
pub fn fiddlequill_grant(
    marks: &mut [u8],
    v: u64,
    loss: u64,
    e: u64,
    d: u64,
    h: u64,
    m: u64,
    k: u64,
) -> u64
    ensures { PackedGrant marks.old v loss e d h m k result marks.new }
{
    pack(grants::grant(marks, v, loss, e, d, h, m, k))
}
