#![tactic(auto)]

// Prints the sheet of each folder of data/, below its name.
use std::io;
use std::rt::Files;

// The folders' names, each with its two files.
macro_rules! folders {
    ($($name:literal),* $(,)?) => {
        [$(($name, concat!($name, "/tasks.bin"), concat!($name, "/slots.bin"))),*]
    };
}

// Files that are read to their ends.
const GOOD: [(&str, &str, &str); 7] = folders![
    "good-example",
    "good-no-tasks",
    "good-both-empty",
    "good-part-alone",
    "good-part-behind",
    "good-longest-tasks",
    "good-longest-slots",
];

// Folders that give the one line alone. In the last two a folder stands in place of a file: it opens, and reading it fails.
const BAD: [(&str, &str, &str); 8] = folders![
    "bad-tasks-missing",
    "bad-slots-missing",
    "bad-tasks-too-long",
    "bad-slots-too-long",
    "bad-slots-full",
    "bad-slots-part",
    "bad-tasks-folder",
    "bad-slots-folder",
];

// Each folder's name, then its sheet.
fn all(rt: &(impl Files + Print), folders: &[(&str, &str, &str)]) -> io::Result<()> {
    for (name, tasks, slots) in folders {
        println!(rt; "{name}")?;
        sheets::print(rt, tasks.as_bytes(), slots.as_bytes())?;
    }
    Ok(())
}

fn main(rt: HostRuntime) -> io::Result<()> {
    all(&rt, &GOOD)?;
    all(&rt, &BAD)
}
