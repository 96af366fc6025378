// Two boards on which a task has the same slots, however the others' differ: every call answers alike on both.
ghost use Rattle.std.specs.Prelude.{◌≡◌};
ghost use Rattle.promises.specs.Boards.{Twins, SameSlots};

use crate::Pair;

// A task record with its board, and one that differs in `first` and `count` only with another.
#[derive(Clone, Copy)]
pub struct Boards<'a> {
    pub task: &'a [u8],
    pub slots: &'a [u8],
    pub there: &'a [u8],
    pub board: &'a [u8],
    pub ghost twins: { Twins task.now slots.now there.now board.now },
    pub ghost same: { SameSlots task.now slots.now there.now board.now },
}

pub fn judge(boards: Boards, one: &mut [u8], other: &mut [u8]) -> Pair<u32>
    requires { one.old ≡ other.old }
    ensures { (result.one ≡ result.other) × (one.new ≡ other.new) }
{
    Pair {
        one: fiddlequill::fiddlequill_judge(boards.task, boards.slots, one),
        other: fiddlequill::fiddlequill_judge(boards.there, boards.board, other),
    }
}

pub fn rounds_judge(boards: Boards, one: &mut [u8], other: &mut [u8]) -> Pair<u32>
    requires { one.old ≡ other.old }
    ensures { (result.one ≡ result.other) × (one.new ≡ other.new) }
{
    Pair {
        one: fiddlequill::fiddlequill_rounds_judge(boards.task, boards.slots, one),
        other: fiddlequill::fiddlequill_rounds_judge(boards.there, boards.board, other),
    }
}

pub fn supply(boards: Boards, offset: u64) -> Pair<u64>
    ensures { result.one ≡ result.other }
{
    Pair {
        one: fiddlequill::fiddlequill_supply(boards.task, boards.slots, offset),
        other: fiddlequill::fiddlequill_supply(boards.there, boards.board, offset),
    }
}

pub fn margin(boards: Boards, offset: u64) -> Pair<u64>
    ensures { result.one ≡ result.other }
{
    Pair {
        one: fiddlequill::fiddlequill_margin(boards.task, boards.slots, offset),
        other: fiddlequill::fiddlequill_margin(boards.there, boards.board, offset),
    }
}

pub fn count(boards: Boards, offset: u64) -> Pair<u64>
    ensures { result.one ≡ result.other }
{
    Pair {
        one: fiddlequill::fiddlequill_count(boards.task, boards.slots, offset),
        other: fiddlequill::fiddlequill_count(boards.there, boards.board, offset),
    }
}

pub fn rounds_count(boards: Boards, offset: u64) -> Pair<u64>
    ensures { result.one ≡ result.other }
{
    Pair {
        one: fiddlequill::fiddlequill_rounds_count(boards.task, boards.slots, offset),
        other: fiddlequill::fiddlequill_rounds_count(boards.there, boards.board, offset),
    }
}

pub fn quick(boards: Boards) -> Pair<u64>
    ensures { result.one ≡ result.other }
{
    Pair {
        one: fiddlequill::fiddlequill_quick(boards.task, boards.slots),
        other: fiddlequill::fiddlequill_quick(boards.there, boards.board),
    }
}
