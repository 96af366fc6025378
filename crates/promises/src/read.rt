// The C calls' answers taken apart as their callers do it: what is read is what the rules say.
ghost use Rattle.std.specs.Prelude.{◌≡◌, ◌+◌, ◌*◌, ◌/◌, ◌%◌, ◌≤◌, ◌<◌, length};
ghost use Rattle.rules.specs.Sums.{bit};
ghost use Rattle.records.specs.Records.{reply_bytes, whole};
ghost use Rattle.records.specs.Refusals.{point_refusal};
ghost use Rattle.which.specs.Which.{Which};
ghost use Rattle.octets.specs.Octets.{le4, signed};
ghost use Rattle.judge.specs.Points.{supplied_at, margin_at, counted_at};
ghost use Rattle.quick.specs.Quick.{Quick};
ghost use Rattle.rounds.specs.Rounds.{rounds_point_refusal, rounds_counted_at};
ghost use Rattle.grants.specs.Grants.{GrantCall};
ghost use Rattle.promises.specs.Answers.{Told, RoundsTold, SiteTold, ReadAt};

// The number that judging gives, and the fields of the answer record: numbers, since C's caller reads these bytes.
#[derive(Drop)]
pub struct Answer {
    pub number: u32,
    pub id: usize,
    pub refusal: usize,
    pub firm: usize,
    pub drops: usize,
    pub offset: usize,
    pub margin: i32,
}

// The halves of a packed result: the refusal number, and what the other number says. C gets both, so both are promised, also beside a refusal.
#[derive(Drop)]
pub struct Halves<T> {
    pub number: u32,
    pub value: T,
}

// What judging and the verdict alone say of one task.
#[derive(Drop)]
pub struct Pairing {
    pub judged: Answer,
    pub verdict: Halves<bool>,
}

fn unpack(packed: u64) -> Halves<u32>
    ensures { (result.number ≡ packed / 4294967296) × (result.value ≡ packed % 4294967296) }
{
    Halves {
        number: (packed / 4294967296) as u32,
        value: (packed % 4294967296) as u32,
    }
}

// The signed number in four bytes.
fn signed_four(s: &[u8], at: usize) -> i32
    requires { at + 4 ≤ length s.now }
    ensures { result ≡ signed (le4 s.now at % 4294967296) }
{
    octets::signed((octets::four(s, at) % 4294967296) as u32)
}

// The number that a call gave, and the fields of the answer record at place `at` of its reply.
fn fields(number: u32, reply: &[u8], at: usize) -> Answer
    requires { at + reply_bytes ≤ length reply.now }
    ensures { ReadAt reply.now at number result }
{
    Answer {
        number,
        id: octets::four(reply, at),
        refusal: octets::two(reply, at + 4),
        firm: octets::two(reply, at + 6),
        drops: octets::four(reply, at + 8),
        offset: octets::four(reply, at + 12),
        margin: signed_four(reply, at + 16),
    }
}

pub fn judge(task: &[u8], slots: &[u8], reply: &mut [u8]) -> Answer
    requires { reply_bytes ≤ length reply.old }
    ensures { Told task.now slots.now reply.old result }
{
    let number = fiddlequill::fiddlequill_judge(task, slots, reply);
    fields(number, reply, 0)
}

pub fn rounds_judge(task: &[u8], slots: &[u8], reply: &mut [u8]) -> Answer
    requires { reply_bytes ≤ length reply.old }
    ensures { RoundsTold task.now slots.now reply.old result }
{
    let number = fiddlequill::fiddlequill_rounds_judge(task, slots, reply);
    fields(number, reply, 0)
}

// The number that a whole site gets, and the fields of record i's answer, from its place in the reply.
pub fn site(tasks: &[u8], slots: &[u8], reply: &mut [u8], i: usize) -> Answer
    requires { (i < whole tasks.now) × (reply_bytes * whole tasks.now ≤ length reply.old) }
    ensures { SiteTold tasks.now slots.now reply.old i result }
{
    let number = fiddlequill::fiddlequill_site(tasks, slots, reply);
    fields(number, reply, records::answer::Answer::BYTES * i)
}

pub fn which_slot(task: &[u8], slots: &[u8]) -> Halves<u32>
    ensures { Which task.now slots.now result.number result.value }
{
    unpack(fiddlequill::fiddlequill_which_slot(task, slots))
}

pub fn supply(task: &[u8], slots: &[u8], offset: u64) -> Halves<u32>
    ensures { (result.number ≡ point_refusal task.now slots.now offset) × (result.value ≡ supplied_at task.now slots.now offset) }
{
    unpack(fiddlequill::fiddlequill_supply(task, slots, offset))
}

pub fn margin(task: &[u8], slots: &[u8], offset: u64) -> Halves<i32>
    ensures { (result.number ≡ point_refusal task.now slots.now offset) × (result.value ≡ margin_at task.now slots.now offset) }
{
    let parts = unpack(fiddlequill::fiddlequill_margin(task, slots, offset));
    Halves {
        number: parts.number,
        value: octets::signed(parts.value),
    }
}

pub fn count(task: &[u8], slots: &[u8], offset: u64) -> Halves<u32>
    ensures { (result.number ≡ point_refusal task.now slots.now offset) × (result.value ≡ counted_at task.now slots.now offset) }
{
    unpack(fiddlequill::fiddlequill_count(task, slots, offset))
}

pub fn rounds_count(task: &[u8], slots: &[u8], offset: u64) -> Halves<u32>
    ensures { (result.number ≡ rounds_point_refusal task.now slots.now offset) × (result.value ≡ rounds_counted_at task.now slots.now offset) }
{
    unpack(fiddlequill::fiddlequill_rounds_count(task, slots, offset))
}

pub fn quick(task: &[u8], slots: &[u8]) -> Halves<bool>
    ensures { Quick task.now slots.now result.number result.value }
{
    let parts = unpack(fiddlequill::fiddlequill_quick(task, slots));
    Halves {
        number: parts.number,
        value: parts.value == 1,
    }
}

// Both calls on one task: the verdict is the bit that judging writes, and the refusals are the same.
pub fn both(task: &[u8], slots: &[u8], reply: &mut [u8]) -> Pairing
    requires { reply_bytes ≤ length reply.old }
    ensures same_number { result.judged.number ≡ result.verdict.number }
    ensures same_verdict { (result.verdict.number ≡ 1 → ⊥) → result.judged.firm ≡ bit result.verdict.value }
{
    let judged = judge(task, slots, reply);
    let verdict = quick(task, slots);
    Pairing { judged, verdict }
}

pub fn grant(
    marks: &mut [u8],
    v: u64,
    loss: u64,
    e: u64,
    d: u64,
    h: u64,
    m: u64,
    k: u64,
) -> Halves<u32>
    ensures { GrantCall marks.old v loss e d h m k result.number result.value marks.new }
{
    unpack(fiddlequill::fiddlequill_grant(marks, v, loss, e, d, h, m, k))
}
