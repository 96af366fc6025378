#![tactic(auto)]

// Which slot of a task's board is bad, and what about it.
ghost use Rattle.which.specs.Which.{Which};
ghost use Rattle.records.specs.Troubles.{trouble_number, trouble_place};

use records::board::Trouble;

// The board's trouble, whatever the task's other numbers are: refusals 1, 3, 19, 4 and 14 to 18, in that order.
#[tactic(auto, using(crate::proofs::Ways::row))]
pub fn which_slot(task: &[u8], slots: &[u8]) -> Result<(), Trouble>
    ensures { Which task.now slots.now (trouble_number result) (trouble_place result) }
{
    records::sizes(task, slots)?;
    records::board::first_trouble(records::read(task), slots)
}
