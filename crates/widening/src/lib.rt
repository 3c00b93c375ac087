// The converter of a stored 48-bit table to a 57-bit one: document 02, Ask 12.
#![tactic(auto)]

ghost use Rattle.std.specs.Prelude.{◌≡◌, true, ◌+◌, ◌^◌, ◌≤◌, ◌<◌, length, IfOk};
ghost use Rattle.model.specs.Buffers.{put};
ghost use Rattle.model.specs.Layouts.{kind_of};
ghost use Rattle.model.specs.Mappings.{other_width};
ghost use Rattle.model.specs.Refusals.{answer_of};
ghost use Rattle.model.specs.Tables.{limit, whole};
ghost use Rattle.widening.specs.Widening.{widened_kind, widened_page, rewritten, widened, widened_table, widening_answer, widening, widening_written};

use mappings::Record;
use model::Refusal;
use records::Records;

// The answer, and how long the 57-bit table is; 0 where the answer is not 0.
// Kept: a struct of the C interface.
#[repr(C)]
#[derive(Clone, Copy)]
pub struct Widened {
    pub answer: u64,
    pub length: usize,
}

// The kind in the 57-bit table.
fn widened_kind(kind: u64) -> u64
    ensures { result ≡ widened_kind kind }
{
    match kind {
        1 => 7,
        3 => 8,
        4 => 9,
        6 => 10,
        _ => kind,
    }
}

// The pages of the upper half of the 48-bit addresses start at 2^35, and gain 2^45 - 2^36.
const UPPER_HALF: u64 = 34359738368;

const GAIN: u64 = 35115652612096;

// The page in the 57-bit table: one of the upper half of the addresses gains 2^45 - 2^36.
fn widened_page(page: u64) -> u64
    requires { page < 2 ^ 40 }
    ensures { result ≡ widened_page page }
{
    if UPPER_HALF <= page {
        page + GAIN
    } else {
        page
    }
}

// Writes a linear or combined record of 48 bits as one of 57, and answers where it ends.
#[tactic(auto, using(crate::proofs::Laws::Loops::rewriting), unfolding(model::specs::Mappings::mapping))]
fn put_rewritten(part: Record, new: &mut [u8], at: usize) -> usize
    requires part_value { other_width 57 (kind_of part.bytes.now) ≡ true }
    requires part_in_bounds { at + (length part.bytes.now + 1) ≤ length new.old }
    ensures value { result ≡ at + (length part.entry.bytes.now + 1) }
    ensures after { new.new ≡ put at (rewritten part.entry.bytes.now) new.old }
{
    let bytes = part.bytes;
    let kind = part.kind();
    let place = kinds::place_of_span(kind) + 1;
    let page = numbers::number::<5>(bytes, place);
    let second = buffers::put_number(new, at, 1, widened_kind(kind));
    let third = buffers::put(&bytes[1..place], new, second);
    let fourth = buffers::put_number(new, third, 6, widened_page(page));
    buffers::put(&bytes[place + 5..], new, fourth)
}

// Writes a record as it stands in the 57-bit table, and answers where it ends.
#[tactic(auto, using(crate::proofs::Laws::Loops::rewriting), unfolding(model::specs::Mappings::mapping))]
fn put_widened(part: Record, new: &mut [u8], at: usize) -> usize
    requires { at + length (widened part.bytes.now) ≤ length new.old }
    ensures value { result ≡ at + length (widened part.entry.bytes.now) }
    ensures after { new.new ≡ put at (widened part.entry.bytes.now) new.old }
{
    if kinds::is_of_other_width(model::WIDE_WIDTH, part.kind()) {
        return put_rewritten(part, new, at);
    }
    buffers::put(part.bytes, new, at)
}

// How long a record is in the 57-bit table: a byte more if it is a linear or combined one.
#[tactic(auto, using(crate::proofs::Laws::Loops::rewriting), unfolding(model::specs::Mappings::mapping))]
fn length_of_widened(part: Record) -> usize
    ensures { result ≡ length (widened part.entry.bytes.now) }
{
    if kinds::is_of_other_width(model::WIDE_WIDTH, part.kind()) {
        part.bytes.len() + 1
    } else {
        part.bytes.len()
    }
}

// How long the 57-bit table is.
#[tactic(auto, using(crate::proofs::Laws::Loops::adding_start))]
fn length_widened(table: &[u8]) -> usize
    requires table_value { whole table.now ≡ true }
    requires table_len_bound { length table.now ≤ limit }
    ensures { result ≡ length (widened_table table.now) }
{
    let mut length = 0;
    let records = Records { rest: table };
    for record in records {
        length += length_of_widened(record);
    }
    length
}

// Writes the 57-bit table to the front of the new buffer.
#[tactic(auto, using(laws::specs::Writing::progress_start))]
fn put_table(table: &[u8], new: &mut [u8])
    requires table_value { whole table.now ≡ true }
    requires table_in_bounds { length (widened_table table.now) ≤ length new.old }
    ensures { new.new ≡ put 0 (widened_table table.now) new.old }
{
    let mut to = 0;
    let records = Records { rest: table };
    for record in records {
        to = put_widened(record, new, to);
    }
}

// How long the 57-bit table is, if the table is valid and there is room for it: within the limit and so many bytes.
#[tactic(auto, using(crate::proofs::Laws::Answers::judged))]
fn length_with_room(table: &[u8], room: usize) -> Result<usize, Refusal>
    ensures answer_value { answer_of result ≡ widening_answer table.now room }
    ensures fits { IfOk result (λ n. (whole table.now ≡ true) × ((n ≡ length (widened_table table.now)) × (n ≤ room))) }
{
    tables::judge(model::NARROW_WIDTH, table)?;
    let length = length_widened(table);
    if (room < length) | (model::TABLE_LIMIT < length) {
        return Err(Refusal::NoRoom);
    }
    Ok(length)
}

// Rewrites a 48-bit table as a 57-bit one at the front of the new buffer, whose other bytes stay. The answer is 2 or 3
// for an invalid table, 12 where the result is longer than the limit or the buffer, and then nothing is written.
#[tactic(auto, using(crate::proofs::Laws::Answers::converted))]
pub fn widen(table: &[u8], new: &mut [u8]) -> Widened
    ensures value { result ≡ widening table.now (length new.old) }
    ensures after { new.new ≡ widening_written table.now new.old }
{
    match length_with_room(table, new.len()) {
        Err(refusal) => Widened {
            answer: refusal.number(),
            length: 0,
        },
        Ok(length) => {
            put_table(table, new);
            Widened { answer: 0, length }
        }
    }
}
