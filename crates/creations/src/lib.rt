// What an event adds to a table: whether it is a creation, room for it, its bytes, and its count.
#![tactic(auto)]

ghost use Rattle.std.specs.Prelude.{◌≡◌, true, cond, ◌+◌, ◌≤◌, length};
ghost use Rattle.model.specs.Buffers.{put};
ghost use Rattle.model.specs.Layouts.{kind_of, mapping_kind};
ghost use Rattle.model.specs.Answers.{created, no_room, creation};
ghost use Rattle.tallies.specs.Tallies.{Countable};
ghost use Rattle.creations.specs.Counts.{cells_with_creation, pcids_with_creation};

use mappings::Record;

// The bytes are a creation's: their kind is a mapping's.
fn is_creation(e: &[u8]) -> bool
    ensures { result ≡ mapping_kind (kind_of e.now) }
{
    kinds::is_mapping(numbers::first_byte(e))
}

// How many bytes an event adds to the table: a creation's own.
#[tactic(auto, unfolding(model::specs::Answers::created))]
fn created_length(e: &[u8]) -> usize
    ensures { result ≡ length (created e.now) }
{
    if is_creation(e) { e.len() } else { 0 }
}

// How many records an event adds to the table: a creation one.
#[tactic(auto, unfolding(model::specs::Answers::creation))]
pub fn created_records(e: &[u8]) -> usize
    ensures { result ≡ length (creation e.now) }
{
    if is_creation(e) { 1 } else { 0 }
}

// 12: the new buffer, or the table limit, is less than the old table with the creation.
#[tactic(auto, using(laws::specs::Steps::length_created, laws::specs::Steps::no_room_either))]
pub fn is_without_room(room: usize, table: &[u8], e: &[u8]) -> bool
    ensures { result ≡ no_room room table.now e.now }
{
    let needed = table.len() + created_length(e);
    (room < needed) | (model::TABLE_LIMIT < needed)
}

// Writes a creation at a position of a buffer, and answers where it ends; another event adds
// nothing.
#[tactic(auto, using(laws::specs::Steps::created_creation, laws::specs::Steps::created_other, laws::specs::Buffers::put_nil))]
pub fn add_creation(raw: &[u8], buffer: &mut [u8], at: usize) -> usize
    requires { at + length (created raw.now) ≤ length buffer.old }
    ensures value { result ≡ at + length (created raw.now) }
    ensures buffer_after { buffer.new ≡ put at (created raw.now) buffer.old }
{
    if !is_creation(raw) {
        return at;
    }
    buffers::put(raw, buffer, at)
}

// Counts a creation, where the records are counted; another event adds nothing.
#[tactic(auto, unfolding(crate::specs::Counts::cells_with_creation, crate::specs::Counts::pcids_with_creation))]
pub fn count_creation(raw: &[u8], counting: bool, cells: &mut [u16], pcids: &mut [u16])
    requires { counting ≡ true → mapping_kind (kind_of raw.now) ≡ true → Countable raw.now cells.old pcids.old }
    ensures cells_after { cells.new ≡ cond counting (cells_with_creation raw.now cells.old) cells.old }
    ensures pcids_after { pcids.new ≡ cond counting (pcids_with_creation raw.now pcids.old) pcids.old }
{
    if !counting {
        return;
    }
    if !is_creation(raw) {
        return;
    }
    tallies::add(Record { bytes: raw }, cells, pcids);
}
