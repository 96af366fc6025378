// The questions, and a line with all that came back.
ghost use Rattle.std.specs.Prelude.{◌≤◌};

use crate::told::Told;
use crate::{gifts, lookups};
use limits::Refusal;
use records::answer::Answer;
use std::fmt::Display;
use std::io;

// What stands behind the record in the reply buffer.
const TAIL: usize = 8;

const REPLY: usize = Answer::BYTES + TAIL;

// A case's name and what is lent to its questions.
#[derive(Drop)]
pub struct Case<'a> {
    pub name: &'a [u8],
    pub task: &'a [u8],
    pub slots: &'a [u8],
    pub told: &'a Told,
}

// What was asked, of which task. A name is bytes.
pub fn asked(rt: &impl Print, question: &str, name: &[u8]) -> io::Result<()> {
    rt.print(question)?;
    rt.write_all(name)
}

// The refusal that came back, and the value, 0 beside a refusal.
pub fn answered(
    rt: &impl Print,
    word: &str,
    answer: Result<impl Display + Drop, Refusal>,
) -> io::Result<()> {
    match answer {
        Ok(value) => print!(rt; "refusal 0, {word} {value}"),
        Err(bad) => print!(rt; "refusal {}, {word} 0", bad.number()),
    }
}

// The numbers of an answer record.
fn record(rt: &impl Print, reply: &[u8; REPLY]) -> io::Result<()> {
    let id = octets::four(reply, 0);
    let number = octets::two(reply, 4);
    let firm = octets::two(reply, 6);
    let drops = octets::four(reply, 8);
    let offset = octets::four(reply, 12);
    let margin = i32::from_le_bytes([reply[16], reply[17], reply[18], reply[19]]);
    print!(rt;
        "; id {id}, number {number}, firm {firm}, worst {drops} at {offset}, margin {margin}"
    )
}

impl Case<'_> {
    // From a half tick: the drop count.
    fn count(&self, rt: &impl Print, offset: u64) -> io::Result<()> {
        asked(rt, "count", self.name)?;
        print!(rt; " from {offset}: ")?;
        answered(rt, "count", judge::count(self.task, self.slots, offset))?;
        rt.print("\n")
    }

    // At a half tick: the supply, and the margin.
    fn supply(&self, rt: &impl Print, offset: u64) -> io::Result<()> {
        asked(rt, "supply", self.name)?;
        print!(rt; " from {offset}: ")?;
        answered(rt, "supply", judge::supply(self.task, self.slots, offset))?;
        rt.print("; margin: ")?;
        answered(rt, "margin", judge::margin(self.task, self.slots, offset))?;
        rt.print("\n")
    }

    // Which slot is bad, and what about it.
    fn which(&self, rt: &impl Print) -> io::Result<()> {
        let (refusal, place) = match which::which_slot(self.task, self.slots) {
            Ok(()) => records::board::nowhere(0),
            Err(t) => (t.refusal.number(), t.place),
        };
        asked(rt, "which", self.name)?;
        println!(rt; ": refusal {refusal}, place {place}")
    }

    // Judging, with a reply buffer full of 170.
    fn judge(&self, rt: &impl Print, lent: usize) -> io::Result<()>
        requires { lent ≤ 28 }
    {
        let before = [170u8; REPLY];
        let mut reply = before;
        let refusal = match judge::judge(self.task, self.slots, &mut reply[..lent]) {
            Ok(()) => 0,
            Err(bad) => bad.number(),
        };
        asked(rt, "judge", self.name)?;
        print!(rt; ": refusal {refusal}")?;
        if reply == before {
            return rt.print("; reply kept\n");
        }
        record(rt, &reply)?;
        // Whether the bytes behind the record are those that were there.
        let tail = if reply[Answer::BYTES..] == before[Answer::BYTES..] {
            "kept"
        } else {
            "written"
        };
        println!(rt; ", tail {tail}")
    }

    // One question. A letter that is none asks nothing.
    fn one(&self, rt: &impl Print, letter: u8) -> io::Result<()> {
        let offset = self.told.number(b'x');
        match letter {
            b'j' => self.judge(rt, self.told.lent(b'r', REPLY)),
            b'c' => self.count(rt, offset),
            b's' => self.supply(rt, offset),
            b'w' => self.which(rt),
            b'g' => gifts::grant(rt, self.name, self.told),
            b'l' => lookups::lookup(rt, self.told.number(b'i')),
            _ => Ok(()),
        }
    }

    // Every question, of the same records.
    pub fn ask(&self, rt: &impl Print, letters: &[u8]) -> io::Result<()> {
        for letter in letters {
            self.one(rt, *letter)?;
        }
        Ok(())
    }
}
