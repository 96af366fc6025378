// Every public function called twice on equal inputs: the results are equal, and so is every lent buffer. One function for each, since each is a
// theorem of that call.
ghost use Rattle.std.specs.Prelude.{◌≡◌};
ghost use Rattle.lookup.specs.Lookup.{looked_up};

use crate::Pair;
use limits::Refusal;
use records::board::Trouble;
use sheets::MOST_TEXT;

pub fn judge(
    task: &[u8],
    slots: &[u8],
    one: &mut [u8],
    other: &mut [u8],
) -> Pair<Result<(), Refusal>>
    requires { one.old ≡ other.old }
    ensures { (result.one ≡ result.other) × (one.new ≡ other.new) }
{
    Pair {
        one: judge::judge(task, slots, one),
        other: judge::judge(task, slots, other),
    }
}

pub fn rounds_judge(
    task: &[u8],
    slots: &[u8],
    one: &mut [u8],
    other: &mut [u8],
) -> Pair<Result<(), Refusal>>
    requires { one.old ≡ other.old }
    ensures { (result.one ≡ result.other) × (one.new ≡ other.new) }
{
    Pair {
        one: rounds::rounds_judge(task, slots, one),
        other: rounds::rounds_judge(task, slots, other),
    }
}

pub fn site(
    tasks: &[u8],
    slots: &[u8],
    one: &mut [u8],
    other: &mut [u8],
) -> Pair<Result<(), Refusal>>
    requires { one.old ≡ other.old }
    ensures { (result.one ≡ result.other) × (one.new ≡ other.new) }
{
    Pair {
        one: site::site(tasks, slots, one),
        other: site::site(tasks, slots, other),
    }
}

pub fn which_slot(task: &[u8], slots: &[u8]) -> Pair<Result<(), Trouble>>
    ensures { result.one ≡ result.other }
{
    Pair {
        one: which::which_slot(task, slots),
        other: which::which_slot(task, slots),
    }
}

pub fn supply(task: &[u8], slots: &[u8], offset: u64) -> Pair<Result<u32, Refusal>>
    ensures { result.one ≡ result.other }
{
    Pair {
        one: judge::supply(task, slots, offset),
        other: judge::supply(task, slots, offset),
    }
}

pub fn margin(task: &[u8], slots: &[u8], offset: u64) -> Pair<Result<i32, Refusal>>
    ensures { result.one ≡ result.other }
{
    Pair {
        one: judge::margin(task, slots, offset),
        other: judge::margin(task, slots, offset),
    }
}

pub fn count(task: &[u8], slots: &[u8], offset: u64) -> Pair<Result<u32, Refusal>>
    ensures { result.one ≡ result.other }
{
    Pair {
        one: judge::count(task, slots, offset),
        other: judge::count(task, slots, offset),
    }
}

pub fn rounds_count(task: &[u8], slots: &[u8], offset: u64) -> Pair<Result<u32, Refusal>>
    ensures { result.one ≡ result.other }
{
    Pair {
        one: rounds::rounds_count(task, slots, offset),
        other: rounds::rounds_count(task, slots, offset),
    }
}

pub fn quick(task: &[u8], slots: &[u8]) -> Pair<Result<bool, Refusal>>
    ensures { result.one ≡ result.other }
{
    Pair {
        one: quick::quick(task, slots),
        other: quick::quick(task, slots),
    }
}

pub fn grant(
    one: &mut [u8],
    other: &mut [u8],
    v: u64,
    loss: u64,
    e: u64,
    d: u64,
    h: u64,
    m: u64,
    k: u64,
) -> Pair<Result<u32, Refusal>>
    requires { one.old ≡ other.old }
    ensures { (result.one ≡ result.other) × (one.new ≡ other.new) }
{
    Pair {
        one: grants::grant(one, v, loss, e, d, h, m, k),
        other: grants::grant(other, v, loss, e, d, h, m, k),
    }
}

// Two parts with the same bytes: callers show that they are.
fn alike(one: &[u8], other: &[u8])
    requires { one.now ≡ other.now }
{}

// The other part stands for both: `alike` has seen that they are the same.
pub fn lookup<'a>(site: &'a [u8], factory: &'a [u8], id: u32) -> &'a [u8]
    ensures { result.now ≡ looked_up site.now factory.now id }
{
    let one = lookup::lookup(site, factory, id);
    let other = lookup::lookup(site, factory, id);
    alike(one, other);
    other
}

pub fn fiddlequill_judge(task: &[u8], slots: &[u8], one: &mut [u8], other: &mut [u8]) -> Pair<u32>
    requires { one.old ≡ other.old }
    ensures { (result.one ≡ result.other) × (one.new ≡ other.new) }
{
    Pair {
        one: fiddlequill::fiddlequill_judge(task, slots, one),
        other: fiddlequill::fiddlequill_judge(task, slots, other),
    }
}

pub fn fiddlequill_rounds_judge(
    task: &[u8],
    slots: &[u8],
    one: &mut [u8],
    other: &mut [u8],
) -> Pair<u32>
    requires { one.old ≡ other.old }
    ensures { (result.one ≡ result.other) × (one.new ≡ other.new) }
{
    Pair {
        one: fiddlequill::fiddlequill_rounds_judge(task, slots, one),
        other: fiddlequill::fiddlequill_rounds_judge(task, slots, other),
    }
}

pub fn fiddlequill_site(tasks: &[u8], slots: &[u8], one: &mut [u8], other: &mut [u8]) -> Pair<u32>
    requires { one.old ≡ other.old }
    ensures { (result.one ≡ result.other) × (one.new ≡ other.new) }
{
    Pair {
        one: fiddlequill::fiddlequill_site(tasks, slots, one),
        other: fiddlequill::fiddlequill_site(tasks, slots, other),
    }
}

pub fn fiddlequill_which_slot(task: &[u8], slots: &[u8]) -> Pair<u64>
    ensures { result.one ≡ result.other }
{
    Pair {
        one: fiddlequill::fiddlequill_which_slot(task, slots),
        other: fiddlequill::fiddlequill_which_slot(task, slots),
    }
}

pub fn fiddlequill_supply(task: &[u8], slots: &[u8], offset: u64) -> Pair<u64>
    ensures { result.one ≡ result.other }
{
    Pair {
        one: fiddlequill::fiddlequill_supply(task, slots, offset),
        other: fiddlequill::fiddlequill_supply(task, slots, offset),
    }
}

pub fn fiddlequill_margin(task: &[u8], slots: &[u8], offset: u64) -> Pair<u64>
    ensures { result.one ≡ result.other }
{
    Pair {
        one: fiddlequill::fiddlequill_margin(task, slots, offset),
        other: fiddlequill::fiddlequill_margin(task, slots, offset),
    }
}

pub fn fiddlequill_count(task: &[u8], slots: &[u8], offset: u64) -> Pair<u64>
    ensures { result.one ≡ result.other }
{
    Pair {
        one: fiddlequill::fiddlequill_count(task, slots, offset),
        other: fiddlequill::fiddlequill_count(task, slots, offset),
    }
}

pub fn fiddlequill_rounds_count(task: &[u8], slots: &[u8], offset: u64) -> Pair<u64>
    ensures { result.one ≡ result.other }
{
    Pair {
        one: fiddlequill::fiddlequill_rounds_count(task, slots, offset),
        other: fiddlequill::fiddlequill_rounds_count(task, slots, offset),
    }
}

pub fn fiddlequill_quick(task: &[u8], slots: &[u8]) -> Pair<u64>
    ensures { result.one ≡ result.other }
{
    Pair {
        one: fiddlequill::fiddlequill_quick(task, slots),
        other: fiddlequill::fiddlequill_quick(task, slots),
    }
}

pub fn fiddlequill_grant(
    one: &mut [u8],
    other: &mut [u8],
    v: u64,
    loss: u64,
    e: u64,
    d: u64,
    h: u64,
    m: u64,
    k: u64,
) -> Pair<u64>
    requires { one.old ≡ other.old }
    ensures { (result.one ≡ result.other) × (one.new ≡ other.new) }
{
    Pair {
        one: fiddlequill::fiddlequill_grant(one, v, loss, e, d, h, m, k),
        other: fiddlequill::fiddlequill_grant(other, v, loss, e, d, h, m, k),
    }
}

pub fn line(answer: &[u8], one: &mut [u8], other: &mut [u8], at: usize) -> Pair<usize>
    requires { one.old ≡ other.old }
    ensures { (result.one ≡ result.other) × (one.new ≡ other.new) }
{
    Pair {
        one: lines::line(answer, one, at),
        other: lines::line(answer, other, at),
    }
}

pub fn refused(one: &mut [u8], other: &mut [u8], at: usize) -> Pair<usize>
    requires { one.old ≡ other.old }
    ensures { (result.one ≡ result.other) × (one.new ≡ other.new) }
{
    Pair {
        one: lines::refused(one, at),
        other: lines::refused(other, at),
    }
}

pub fn sheet(
    tasks: &[u8],
    slots: &[u8],
    one: &mut [u8; MOST_TEXT],
    other: &mut [u8; MOST_TEXT],
) -> Pair<usize>
    requires { one.old ≡ other.old }
    ensures { (result.one ≡ result.other) × (one.new ≡ other.new) }
{
    Pair {
        one: sheets::sheet(tasks, slots, one),
        other: sheets::sheet(tasks, slots, other),
    }
}
