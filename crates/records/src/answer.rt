// The answer record's bytes.
ghost use Rattle.std.specs.Prelude.{◌≡◌};
ghost use Rattle.rules.specs.Sums.{bit};
ghost use Rattle.records.specs.Records.{answer_bytes};
ghost use Rattle.records.specs.Answers.{answer_of};

use limits::Refusal;

// How long an answer record is.
#[derive(Drop)]
pub struct Answer;

impl Answer {
    pub const BYTES: usize = 20;
}

// What is told of an accepted task: rule 7's verdict, the worst count and its offset in half ticks, the least margin in whole ticks.
#[derive(Clone, Copy)]
pub struct Found {
    pub firm: bool,
    pub drops: u32,
    pub offset: u32,
    pub margin: i32,
}

// The answer record of the task with that id: what was found, or the refusal, behind which all is zero.
#[tactic(auto, unfolding(rules::specs::Sums::bit, octets::specs::Octets::twos))]
pub fn bytes(id: usize, outcome: Result<Found, Refusal>) -> [u8; Answer::BYTES]
    ensures { result ≡ answer_of id outcome }
{
    match outcome {
        Ok(f) => laid(id, 0, u32::from(f.firm), f.drops, f.offset, f.margin),
        Err(refusal) => laid(id, refusal.number(), 0, 0, 0, 0),
    }
}

// The numbers of an answer record one behind another, lowest byte first, whatever they are.
pub fn laid(
    id: usize,
    number: u32,
    firm: u32,
    drops: u32,
    offset: u32,
    margin: i32,
) -> [u8; Answer::BYTES]
    ensures { result ≡ answer_bytes id number firm drops offset margin }
{
    let [i0, i1, i2, i3, ..] = id.to_le_bytes();
    let [n0, n1, ..] = number.to_le_bytes();
    let [f0, f1, ..] = firm.to_le_bytes();
    let [c0, c1, c2, c3] = drops.to_le_bytes();
    let [o0, o1, o2, o3] = offset.to_le_bytes();
    let [g0, g1, g2, g3] = octets::twos(margin).to_le_bytes();
    [
        i0, i1, i2, i3, n0, n1, f0, f1, c0, c1, c2, c3, o0, o1, o2, o3, g0, g1, g2, g3,
    ]
}
