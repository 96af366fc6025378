#![tactic(auto)]

// Answers the questions of questions.bin, a line each: the supply, the margin, the count and the lookup of two byte strings and a number.
ghost use Rattle.std.specs.Prelude.{◌≡◌, ◌+◌, ◌≤◌, length, IfSome};

use limits::Refusal;
use std::fmt::Display;
use std::fs::File;
use std::io;
use std::io::Read;

// The lengths of the two strings in four bytes each, and the number in eight.
const HEAD: usize = 16;

// The longest string.
const MOST: usize = 65536;

// Two strings, and the halves of a number.
#[derive(Drop)]
struct Question<'a> {
    one: &'a [u8],
    other: &'a [u8],
    low: u32,
    high: u32,
}

// A refusal's number, 0 for none, then the value, 0 beside a refusal.
fn point(rt: &impl Print, answer: Result<impl Display + Drop, Refusal>) -> io::Result<()> {
    match answer {
        Ok(value) => print!(rt; "0 {value} "),
        Err(bad) => print!(rt; "{} 0 ", bad.number()),
    }
}

fn word(s: &[u8], at: usize) -> u32
    requires { at + 4 ≤ length s.now }
{
    u32::from_le_bytes([s[at], s[at + 1], s[at + 2], s[at + 3]])
}

// The length of what the lookup finds, then all its bytes, as numbers of four bytes.
fn found(rt: &impl Print, part: &[u8]) -> io::Result<()> {
    print!(rt; "{} ", part.len())?;
    for four in part.chunks_exact(4) {
        print!(rt; "{} ", word(four, 0))?;
    }
    Ok(())
}

impl Question<'_> {
    // One line. The number is the offset, and its low half the id.
    fn answer(&self, rt: &impl Print) -> io::Result<()> {
        let offset = (u64::from(self.high) << 32) + u64::from(self.low);
        point(rt, judge::supply(self.one, self.other, offset))?;
        point(rt, judge::margin(self.one, self.other, offset))?;
        point(rt, judge::count(self.one, self.other, offset))?;
        found(rt, lookup::lookup(self.one, self.other, self.low))?;
        rt.print("\n")
    }
}

// Reads n bytes over the start of the buffer: none where the file ends before, or where there is no room.
fn part<'a>(file: &mut File, n: usize, buf: &'a mut [u8]) -> Option<&'a [u8]>
    ensures { IfSome result (λ s. length s.now ≡ n) }
{
    let part = buf.get_mut(..n)?;
    file.read_exact(part).ok()?;
    Some(part)
}

// The next question, if it is there.
fn next<'a>(file: &mut File, a: &'a mut [u8], b: &'a mut [u8]) -> Option<Question<'a>> {
    let mut head = [0u8; HEAD];
    let head = part(file, HEAD, &mut head)?;
    Some(Question {
        one: part(file, octets::four(head, 0), a)?,
        other: part(file, octets::four(head, 4), b)?,
        low: word(head, 8),
        high: word(head, 12),
    })
}

// The file begins with how many questions it has: nothing says that a file ends. A missing one has none.
fn main(rt: HostRuntime) -> io::Result<()> {
    let Ok(mut file) = File::open(&rt, "questions.bin") else {
        return Ok(());
    };
    let mut head = [0u8; 4];
    part(&mut file, 4, &mut head);
    let mut a = [0u8; MOST];
    let mut b = [0u8; MOST];
    for _ in 0..word(&head, 0) {
        let Some(question) = next(&mut file, &mut a, &mut b) else {
            break;
        };
        question.answer(&rt)?;
    }
    Ok(())
}
