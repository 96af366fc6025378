#![tactic(auto)]

// A task record by its id, from the site file or the factory file.
ghost use Rattle.std.specs.Prelude.{◌≡◌, ◌<◌, ◌≤◌, MatchOption};
ghost use Rattle.records.specs.Records.{whole, part};
ghost use Rattle.lookup.specs.Lookup.{place, looked_up};

use records::TaskRecord;

// The bytes of the first record with the id.
fn find(records: &[u8], id: usize) -> Option<&[u8]>
    ensures { MatchOption result (whole records.now ≤ place records.now id) (λ r. (place records.now id < whole records.now) × (r.now ≡ part records.now (place records.now id))) }
{
    records
        .chunks_exact(TaskRecord::BYTES)
        .find(|record| octets::four(record, 0) == id)
}

// The bytes of the first record with the id, from the site file if it has it, else from the factory file. The empty part if neither has,
// as docs/RULES.md has it, and no Option.
pub fn lookup<'a>(site: &'a [u8], factory: &'a [u8], id: u32) -> &'a [u8]
    ensures { result.now ≡ looked_up site.now factory.now id }
{
    let id = id as usize;
    find(site, id)
        .or_else(|| find(factory, id))
        .unwrap_or(&factory[..0])
}
