// What the questions are asked of: the numbers that a case tells, and records of them.
ghost use Rattle.std.specs.Prelude.{◌+◌, ◌<◌, ◌≤◌};

use records::Slot;

// As many stand behind spaces: the numbers of two slot records.
pub const FIRST: usize = 8;

// Room for one slot record more than a board may have.
pub const ROOM: usize = 513 * Slot::BYTES;

// A letter's number stands at the place that the letter is, and those behind spaces stand first. A space's number is how many these are. One array
// has them all, since any byte may be a letter.
#[derive(Drop)]
pub struct Told(pub [u64; 128]);

// Puts the lowest n bytes of x into the buffer, lowest byte first.
fn put(buffer: &mut [u8; ROOM], at: usize, x: u64, n: usize)
    requires { (at + n ≤ 6156) × (n ≤ 8) }
{
    buffer[at..at + n].copy_from_slice(&x.to_le_bytes()[..n]);
}

impl Told {
    pub fn number(&self, letter: u8) -> u64 {
        self.0[usize::from(letter % 128)]
    }

    // How many are lent: as many as a letter tells, and no more than there are.
    pub fn lent(&self, letter: u8, most: usize) -> usize
        ensures { result ≤ most }
    {
        self.number(letter).min(most as u64) as usize
    }

    pub fn task(&self) -> [u8; ROOM] {
        let mut bytes = [0u8; ROOM];
        for (i, letter) in b"iwedhmk".iter().enumerate() {
            put(&mut bytes, 4 * i, self.number(*letter), 4);
        }
        put(&mut bytes, 28, self.number(b'f'), 2);
        put(&mut bytes, 30, self.number(b'c'), 2);
        bytes
    }

    // Slot record i of two.
    fn slot(&self, records: &mut [u8; ROOM], i: usize)
        requires { i < 2 }
    {
        let at = Slot::BYTES * i;
        put(records, at, self.0[4 * i], 4);
        put(records, at + 4, self.0[4 * i + 1], 4);
        put(records, at + 8, self.0[4 * i + 2], 2);
        put(records, at + 10, self.0[4 * i + 3], 2);
    }

    pub fn slots(&self) -> [u8; ROOM] {
        let mut records = [0u8; ROOM];
        for i in 0..2 {
            self.slot(&mut records, i);
        }
        records
    }

    // The marks of a grant, in a buffer for all.
    pub fn marks(&self) -> [u8; FIRST] {
        let mut marks = [0u8; FIRST];
        for (mark, number) in marks.iter_mut().zip(&self.0) {
            *mark = (*number % 256) as u8;
        }
        marks
    }
}
