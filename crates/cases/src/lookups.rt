// Lookup on records whose bytes behind the id say where they stand.
use records::TaskRecord;
use std::io;

// The site file ends in 20 bytes of a record.
const SITE: &[u8; 2 * TaskRecord::BYTES + 20] =
    b"\x01\0\0\0the site's first record of 1\x01\0\0\0the site's other record of 1\x03\0\0\0in a part record";

const FACTORY: &[u8; 2 * TaskRecord::BYTES] =
    b"\x01\0\0\0the factory's record of id 1\x02\0\0\0the factory's record of id 2";

// Both files have 1, only the factory file has 2, and a part record alone has 3.
pub fn lookup(rt: &impl Print, id: u64) -> io::Result<()> {
    let part = lookup::lookup(SITE, FACTORY, (id % 4294967296) as u32);
    print!(rt; "lookup {id}: {} bytes", part.len())?;
    if part.len() == TaskRecord::BYTES {
        rt.print(", ")?;
        rt.write_all(&part[4..])?;
    }
    rt.print("\n")
}
