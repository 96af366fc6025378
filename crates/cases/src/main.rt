#![tactic(auto)]

// The cases of docs/RULES.md through the public calls. Standard input has the cases, and the stored output says what must come back.
//
// A case is a line. It begins with a letter for each question: j judging, c counting, s supply and margin, w which slot is bad, g granting,
// l lookup. Behind a space stands the case's name, and behind a bar the numbers that it doesn't have from the paper's T, each behind a character:
//
//     i w e d h m k f c    the numbers of the task record, in its order
//     x                    the half tick
//     v l                  the ticks of a grant's slots, and their loss
//     t y r                how many bytes of the task, of the slots and of the reply are lent
//     a space              the next number of a slot record, in its order; for a grant, the next mark
mod ask;
mod gifts;
mod lookups;
mod read;
mod told;

use std::io;

fn main(rt: HostRuntime) -> io::Result<()> {
    let mut text = [0u8; 8192];
    let n = sheets::fill(&mut rt.reader(), &mut text)?;
    read::cases(&rt, &text[..n])
}
