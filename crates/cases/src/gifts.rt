// Grants: the numbers that came back, and the marks before and after.
use crate::ask::{answered, asked};
use crate::told::{FIRST, Told};
use std::io;

fn marks_are(rt: &impl Print, marks: &[u8]) -> io::Result<()> {
    rt.print("marks ")?;
    for mark in marks {
        rt.print(*mark)?;
    }
    Ok(())
}

// A grant of the slots whose marks are told.
pub fn grant(rt: &impl Print, name: &[u8], told: &Told) -> io::Result<()> {
    let mut marks = told.marks();
    let marks = &mut marks[..told.lent(b' ', FIRST)];
    asked(rt, "grant", name)?;
    rt.print(", ")?;
    marks_are(rt, marks)?;
    let granted = grants::grant(
        marks,
        told.number(b'v'),
        told.number(b'l'),
        told.number(b'e'),
        told.number(b'd'),
        told.number(b'h'),
        told.number(b'm'),
        told.number(b'k'),
    );
    rt.print(": ")?;
    answered(rt, "slots", granted)?;
    rt.print(", ")?;
    marks_are(rt, marks)?;
    rt.print("\n")
}
