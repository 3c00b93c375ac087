// Counts of the records of a table, by kind and span and by PCID: document 02, Ask 7.
#![tactic(auto)]

ghost use Rattle.std.specs.Prelude.{◌≡◌, ◌+◌, ◌*◌, ◌<◌, ◌≤◌, true, length, replicate, slice_index};
ghost use Rattle.model.specs.Mappings.{mapping};
ghost use Rattle.model.specs.Layouts.{mapping_kind};
ghost use Rattle.tallies.specs.Tallies.{row_of, cell_of, struck_off, by_pcid, cells_with, cells_without, pcids_with, pcids_without, pcids_struck, Strikable, Countable, Counted};

use mappings::Record;

// How often a record of a kind is counted by PCID: once, and a guest-physical one not at all.
#[tactic(auto, using(laws::specs::Layouts::mapping_kind_le))]
fn times_by_pcid(kind: u64) -> u16
    requires { mapping_kind kind ≡ true }
    ensures { result ≡ by_pcid kind }
{
    u16::from(kinds::is_among(kinds::WITH_VPID, kind))
}

// Five times the row of each kind of mapping, in five bits for each kind, from the lowest, of kind 0, on.
const FIRST_CELLS: u64 = 0x0065_EA06_68F5_1400;

// The first cell of the row of a kind.
#[tactic(auto, using(laws::specs::Layouts::mapping_kind_le))]
fn first_cell(kind: u64) -> usize
    requires { mapping_kind kind ≡ true }
    ensures { result ≡ 5 * row_of kind }
{
    ((FIRST_CELLS >> (5 * kind)) % 32) as usize
}

// The cell of the record.
#[tactic(auto, using(crate::proofs::Laws::Tallied::held_known), unfolding(crate::specs::Tallies::cell_of))]
fn cell(part: Record) -> usize
    requires { cell_of (mapping part.bytes.now) < 30 }
    ensures { result ≡ cell_of (mapping part.entry.bytes.now) }
{
    first_cell(part.kind()) + part.span() as usize
}

// Counts the record.
#[tactic(auto, using(crate::proofs::Laws::Tallied::places))]
pub fn add(part: Record, cells: &mut [u16], pcids: &mut [u16])
    requires { Countable part.bytes.now cells.old pcids.old }
    ensures cells_after { cells.new ≡ cells_with (mapping part.entry.bytes.now) cells.old }
    ensures pcids_after { pcids.new ≡ pcids_with (mapping part.entry.bytes.now) pcids.old }
{
    let at = cell(part);
    let pcid = part.pcid() as usize;
    cells[at] += 1;
    pcids[pcid] += times_by_pcid(part.kind());
}

// Counts the record by kind and span, and strikes it off counts by PCID, which wrap at 2^16. Where its kind has no PCID, 0
// is struck off some count: how many is read by a shift, so that no branch on the kind is mispredicted.
#[tactic(auto, using(crate::proofs::Laws::Struck::struck_places))]
pub fn strike(part: Record, cells: &mut [u16], pcids: &mut [u16])
    requires { Strikable part.bytes.now cells.old pcids.old }
    ensures cells_after { cells.new ≡ cells_with (mapping part.entry.bytes.now) cells.old }
    ensures pcids_after { pcids.new ≡ pcids_struck (mapping part.entry.bytes.now) pcids.old }
{
    let at = cell(part);
    let pcid = (part.pcid_bytes() % model::PCIDS) as usize;
    let times = times_by_pcid(part.kind());
    cells[at] += 1;
    pcids[pcid] = pcids[pcid].wrapping_sub(times);
}

// Takes the record off the counts.
#[tactic(auto, using(crate::proofs::Laws::Tallied::places))]
pub fn take_off(part: Record, cells: &mut [u16], pcids: &mut [u16])
    requires { Counted part.bytes.now cells.old pcids.old }
    ensures cells_after { cells.new ≡ cells_without (mapping part.entry.bytes.now) cells.old }
    ensures pcids_after { pcids.new ≡ pcids_without (mapping part.entry.bytes.now) pcids.old }
{
    let at = cell(part);
    let pcid = part.pcid() as usize;
    cells[at] -= 1;
    pcids[pcid] -= times_by_pcid(part.kind());
}

// Writes how many were struck off counts that were 0, by what is left of them.
#[tactic(auto, using(crate::proofs::Laws::Struck::written))]
pub fn write_struck(left: &[u16], to: &mut [u16])
    requires { length left.now ≡ length to.old }
    ensures { to.new ≡ struck_off left.now }
{
    for (at, count) in to.iter_mut().enumerate() {
        *count = 0u16.wrapping_sub(left[at]);
    }
}

// Makes every count 0.
pub fn clear(cells: &mut [u16], pcids: &mut [u16])
    requires cells_len { length cells.old ≡ 30 }
    requires pcids_len { length pcids.old ≡ 4096 }
    ensures { (cells.new ≡ replicate 30 0) × (pcids.new ≡ replicate 4096 0) }
{
    cells.fill(0);
    pcids.fill(0);
}
