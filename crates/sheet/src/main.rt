#![tactic(auto)]

// Prints the sheet of tasks.bin and slots.bin in the current folder.
use std::io;

fn main(rt: HostRuntime) -> io::Result<()> {
    sheets::print(&rt, b"tasks.bin", b"slots.bin")?;
    Ok(())
}
