#![tactic(auto)]

// Lines of the printed sheet, put into a buffer at a place. Each function gives the place behind what it put; buffer and place stay apart, since
// the public calls promise (`Put`) what they left of both.
ghost use Rattle.std.specs.Prelude.{◌≡◌, ◌+◌, ◌≤◌, ◌<◌, leb, length};
ghost use Rattle.records.specs.Records.{reply_bytes};
ghost use Rattle.lines.specs.Lines.{longest_line, refused_long};
ghost use Rattle.lines.specs.Lines.{decimal, field, line_of, refused_line, fitting, line_for, Put};

use itoa::Buffer;
use records::answer::Answer;

// Ten digits for four bytes, five for two, and the byte behind each.
const LONGEST_FOUR: usize = 11;

const LONGEST_TWO: usize = 6;

pub const LONGEST: usize = 3 * LONGEST_FOUR + 2 * LONGEST_TWO;

// The line of what isn't a whole record.
pub const REFUSED: usize = 10;

fn put(text: &[u8], out: &mut [u8], at: usize) -> usize
    requires { at + length text.now ≤ length out.old }
    ensures { Put text.now out.old at result out.new }
{
    octets::put(&mut out[at..], text);
    at + text.len()
}

// A number in decimal and the byte behind it.
fn field(n: usize, stop: u8, out: &mut [u8], at: usize) -> usize
    requires { at + length (decimal n) < length out.old }
    ensures { Put (field n stop) out.old at result out.new }
{
    let next = put(Buffer::new().format(n).as_bytes(), out, at);
    put(&[stop], out, next)
}

// The five numbers of an answer record, single spaces between, and the line's end.
fn fields(answer: &[u8], out: &mut [u8], at: usize) -> usize
    requires { (length answer.now ≡ reply_bytes) × (at + longest_line ≤ length out.old) }
    ensures { Put (line_of answer.now) out.old at result out.new × (result ≤ at + longest_line) }
{
    let refusal = field(octets::four(answer, 0), b' ', out, at);
    let firm = field(octets::two(answer, 4), b' ', out, refusal);
    let count = field(octets::two(answer, 6), b' ', out, firm);
    let offset = field(octets::four(answer, 8), b' ', out, count);
    field(octets::four(answer, 12), b'\n', out, offset)
}

// Whether n bytes fit from place `at` on. No sum is formed, so none wraps.
fn fits(n: usize, len: usize, at: usize) -> bool
    ensures { result ≡ leb (at + n) len }
{
    n <= len && at <= len - n
}

// The line of an answer record, or nothing where `answer` isn't one or the longest line wouldn't fit.
pub fn line(answer: &[u8], out: &mut [u8], at: usize) -> usize
    ensures { Put (line_for answer.now out.old at) out.old at result out.new × (result ≤ at + longest_line) }
{
    if answer.len() != Answer::BYTES {
        return at;
    }
    if !fits(LONGEST, out.len(), at) {
        return at;
    }
    fields(answer, out, at)
}

// The line of what isn't a whole record, or nothing where it doesn't fit.
pub fn refused(out: &mut [u8], at: usize) -> usize
    ensures { Put (fitting refused_long refused_line out.old at) out.old at result out.new }
{
    if !fits(REFUSED, out.len(), at) {
        return at;
    }
    put(b"- 1 0 0 0\n", out, at)
}
