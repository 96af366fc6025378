#![tactic(auto)]

// The printed sheet: its text from two byte strings, and from two files to standard output.
ghost use Rattle.std.specs.Prelude.{◌≡◌, ◌+◌, ◌*◌, ◌≤◌, length, IfOk};
ghost use Rattle.io.specs.Counts.{IsPrefixLen};
ghost use Rattle.lines.specs.Lines.{longest_line};
ghost use Rattle.records.specs.Records.{whole};
ghost use Rattle.sheets.specs.Sheets.{most_text, bad, RowPut, RowsPut, Filled};

use records::answer::Answer;
use records::{Slot, TaskRecord};
use std::io::Read;
use std::rt::Files;
use std::{fs, io};

// The longest file.
const MOST_BYTES: usize = 65536;

// The longest lines of as many records as a file may have, and the line for a part record.
pub const MOST_TEXT: usize = lines::LONGEST * (MOST_BYTES / TaskRecord::BYTES) + lines::REFUSED;

// The line of one whole task record, put at place `at`.
fn row(task: &[u8], slots: &[u8], out: &mut [u8], at: usize) -> usize
    requires { at + longest_line ≤ length out.old }
    ensures { RowPut task.now slots.now out.old at result out.new }
{
    let mut reply = [0u8; Answer::BYTES];
    // What is refused stands in the answer.
    let _ = judge::judge(task, slots, &mut reply);
    lines::line(&reply, out, at)
}

// The lines of all whole task records.
fn rows(tasks: &[u8], slots: &[u8], out: &mut [u8]) -> usize
    requires { longest_line * whole tasks.now ≤ length out.old }
    ensures { RowsPut tasks.now slots.now out.old (whole tasks.now) result out.new }
{
    let mut at = 0;
    for task in tasks.chunks_exact(TaskRecord::BYTES) {
        at = row(task, slots, out, at);
    }
    at
}

// Whether "- 1 0 0 0" is the only line.
#[tactic(auto, unfolding(crate::specs::Sheets::bad))]
fn only(tasks: &[u8], slots: &[u8]) -> bool
    ensures { result ≡ bad tasks.now slots.now }
{
    MOST_BYTES < tasks.len() || MOST_BYTES < slots.len() || slots.len() % Slot::BYTES != 0
}

// The whole sheet, put over the start of `out`.
pub fn sheet(tasks: &[u8], slots: &[u8], out: &mut [u8; MOST_TEXT]) -> usize
    ensures filled { Filled tasks.now slots.now out.old result out.new }
    ensures prefix_len { IsPrefixLen result out.new × (result ≤ most_text) }
{
    if only(tasks, slots) {
        return lines::refused(out, 0);
    }
    let at = rows(tasks, slots, out);
    if tasks.len() % TaskRecord::BYTES == 0 {
        return at;
    }
    lines::refused(out, at)
}

// Reads to the end of the input, or until the buffer is full, and answers how many bytes came. One read gives any number of them, so the place
// is kept by hand.
pub fn fill(input: &mut impl Read, buf: &mut [u8]) -> io::Result<usize>
    ensures { IfOk result (λ n. IsPrefixLen n buf.new) }
{
    let mut done = 0;
    while done < buf.len() {
        let n = input.read(&mut buf[done..])?;
        if n == 0 {
            break;
        }
        done += n;
    }
    Ok(done)
}

// Opens a file and reads it.
fn load(rt: &impl Files, path: &str, buf: &mut [u8]) -> io::Result<usize>
    ensures { IfOk result (λ n. IsPrefixLen n buf.new) }
{
    let mut file = fs::open(rt, path)?;
    fill(&mut file, buf)
}

// Reads a file and answers its length. A missing, too long or unreadable one counts as filling the buffer, which has a byte more than a
// file may have, so that each leaves the one line alone. So does a name that isn't text: the library opens no other.
fn read(rt: &impl Files, path: &[u8], buf: &mut [u8]) -> usize
    ensures { IsPrefixLen result buf.new }
{
    let Ok(name) = str::from_utf8(path) else {
        return buf.len();
    };
    load(rt, name, buf).unwrap_or(buf.len())
}

// Prints the sheet of two files, in one write, and answers how many bytes it has.
pub fn print(rt: &(impl Files + Print), tasks: &[u8], slots: &[u8]) -> io::Result<usize>
    ensures { IfOk result (λ n. n ≤ most_text) }
{
    let mut task_file = [0u8; MOST_BYTES + 1];
    let mut slot_file = [0u8; MOST_BYTES + 1];
    let mut out = [0u8; MOST_TEXT];
    let t = read(rt, tasks, &mut task_file);
    let s = read(rt, slots, &mut slot_file);
    let n = sheet(&task_file[..t], &slot_file[..s], &mut out);
    rt.write_all(&out[..n])?;
    Ok(n)
}
