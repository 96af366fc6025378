// Reads the cases, line by line.
ghost use Rattle.std.specs.Prelude.{◌≤◌, length};

use crate::ask::Case;
use crate::told::{FIRST, Told};
use std::io;

// A number with one digit more. A number past 64 bits stays.
fn more(value: u64, digit: u8) -> u64 {
    value
        .checked_mul(10)
        .map_or(value, |tens| tens.wrapping_add(u64::from(digit)))
}

// The number in decimal that starts the text, and what stands behind it.
fn number(text: &[u8]) -> (u64, &[u8])
    ensures { length result.1.now ≤ length text.now }
{
    let mut value = 0;
    for (i, b) in text.iter().enumerate() {
        if !b.is_ascii_digit() {
            return (value, &text[i..]);
        }
        value = more(value, *b - b'0');
    }
    (value, &[])
}

// What a text tells: each number behind its character.
fn numbers(text: &[u8], told: &mut Told) {
    let mut n = 0;
    let mut rest = text;
    while let Some((key, behind)) = rest.split_first() {
        let (value, next) = number(behind);
        rest = next;
        if *key != b' ' {
            told.0[usize::from(*key % 128)] = value;
        } else if n < FIRST {
            told.0[n] = value;
            n += 1;
        }
    }
    told.0[32] = n as u64;
}

// One case: what its line tells beside the paper's T with m 1, a grant for it and a reply of 28 bytes, and every question that the line begins with.
fn case(rt: &impl Print, line: &[u8]) -> io::Result<()> {
    let word = line.iter().position(|b| *b == b' ').unwrap_or(line.len());
    let (asks, rest) = line.split_at(word);
    let Some(bar) = rest.iter().position(|b| *b == b'|') else {
        return Ok(());
    };
    let mut told = Told([0; 128]);
    numbers(b"i2w10e4d5h14m1k2f0c1v2l0t32y12r28 0 8 2 0", &mut told);
    numbers(&rest[bar + 1..], &mut told);
    let (task, slots) = (told.task(), told.slots());
    let case = Case {
        name: &rest[..bar],
        task: &task[..told.lent(b't', task.len())],
        slots: &slots[..told.lent(b'y', slots.len())],
        told: &told,
    };
    case.ask(rt, asks)
}

pub fn cases(rt: &impl Print, text: &[u8]) -> io::Result<()> {
    for line in text.split(|b| *b == b'\n') {
        case(rt, line)?;
    }
    Ok(())
}
