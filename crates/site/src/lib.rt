#![tactic(auto)]

// A whole site in one call: every task record is judged by itself, and its answer goes into its own place of the reply.
ghost use Rattle.limits.specs.Refusal.{Checks, refusal};
ghost use Rattle.site.specs.Site.{site_sizes, Sited};

use limits::Refusal;
use records::answer::Answer;
use records::{Slot, TaskRecord};

// Refusal 1.
#[tactic(auto, unfolding(crate::specs::Site::site_sizes))]
fn whole(tasks: &[u8], slots: &[u8]) -> Result<(), Refusal>
    ensures { Checks (site_sizes tasks.now slots.now) tt result }
{
    Refusal::Sizes.when(tasks.len() % TaskRecord::BYTES != 0 || slots.len() % Slot::BYTES != 0)
}

// Judges every task record on the slot buffer. Refusals 1 and 2 write nothing; a record that is refused has it in its answer.
pub fn site(tasks: &[u8], slots: &[u8], reply: &mut [u8]) -> Result<(), Refusal>
    ensures { Sited tasks.now slots.now reply.old (refusal result) reply.new }
{
    whole(tasks, slots)?;
    // All answers are shorter than all records, so the product is one that a length can be.
    let room = Answer::BYTES * (tasks.len() / TaskRecord::BYTES);
    Refusal::Reply.when(reply.len() < room)?;
    walk::walk(tasks, slots, reply);
    Ok(())
}
