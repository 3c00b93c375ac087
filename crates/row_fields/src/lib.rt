// One row of 32 bytes and the record that it names: document 02, Ask 11.
#![tactic(auto)]

ghost use Rattle.std.specs.Prelude.{◌≡◌, true, ◌+◌, ◌≤◌, ◌<◌, ◌++◌, length, IfSome, IfNone};
ghost use Rattle.model.specs.Bits.{bytes};
ghost use Rattle.model.specs.Buffers.{put};
ghost use Rattle.model.specs.Layouts.{Field, mapping_kind, length_of};
ghost use Rattle.row_fields.specs.Rows.{row_of, column, Column, named, named_length, fits, record_of};
ghost use Rattle.kinds.specs.Places.{place_of};
ghost use Rattle.row_fields.specs.Masks.{first_mask_at, page_mask_at, ep4ta_mask_at};
ghost use Rattle.row_fields.specs.Pieces.{Small, tags_number, last_number};

use mappings::Record;
use model::Mapping;

// Writes two numbers one behind the other, each as so many bytes, and answers where they end.
fn put_two(out: &mut [u8], at: usize, size: usize, x: u64, second_size: usize, second: u64) -> usize
    requires { at + (size + second_size) ≤ length out.old }
    ensures value { result ≡ at + (size + second_size) }
    ensures out_after { out.new ≡ put at (bytes size x ++ bytes second_size second) out.old }
{
    let next = buffers::put_number(out, at, size, x);
    buffers::put_number(out, next, second_size, second)
}

// Writes the row of the record at the front, at a position of the rows, and answers where it ends.
pub fn put_row(part: Record, rows: &mut [u8], at: usize) -> usize
    requires { at + 32 ≤ length rows.old }
    ensures value { result ≡ at + 32 }
    ensures rows_after { rows.new ≡ put at (row_of part.entry.bytes.now) rows.old }
{
    let mapping = part.mapping();
    let global = put_two(rows, at, 1, mapping.kind, 1, mapping.span);
    let vpid = put_two(rows, global, 1, mapping.global, 1, 0);
    let page = put_two(rows, vpid, 2, mapping.vpid, 2, mapping.pcid);
    let ep4ta = put_two(rows, page, 8, mapping.page, 8, mapping.frame);
    buffers::put_number(rows, ep4ta, 8, mapping.ep4ta)
}

// The mapping that a row names.
#[tactic(auto, unfolding(crate::specs::Rows::named, crate::specs::Rows::column))]
fn mapping_named(row: &[u8]) -> Mapping
    requires { 32 ≤ length row.now }
    ensures { result ≡ named row.now }
{
    Mapping {
        kind: numbers::number::<1>(row, 0),
        vpid: numbers::number::<2>(row, 4),
        pcid: numbers::number::<2>(row, 6),
        global: numbers::number::<1>(row, 2),
        span: numbers::number::<1>(row, 1),
        page: numbers::number::<8>(row, 8),
        frame: numbers::number::<8>(row, 16),
        ep4ta: numbers::number::<8>(row, 24),
    }
}

// Bits that must be 0 in a row: of its first eight bytes, of its page and of its EP4TA.
#[derive(Clone, Copy)]
struct Mask(u64, u64, u64);

// The masks, five for each kind from 1 on, by span. Where the kind may not have the span, the mask is that of the kind byte,
// which is not 0. The compiler makes a table of the match; an array it would store anew at each call.
// Kept: a table of its own beside that of `valid_records`, since a row has its fields at other places than a record.
#[tactic(auto, unfolding(crate::specs::Masks::first_mask, crate::specs::Masks::page_mask, crate::specs::Masks::ep4ta_mask, model::specs::Mappings::linear, model::specs::Mappings::guest_physical, model::specs::Mappings::combined, model::specs::Mappings::structure_cache, model::specs::Mappings::wide, model::specs::Mappings::global_marked))]
fn mask_at(i: u64) -> Mask
    requires { i < 50 }
    ensures { (result.0 ≡ first_mask_at i) × ((result.1 ≡ page_mask_at i) × (result.2 ≡ ep4ta_mask_at i)) }
{
    match i {
        // Kind 1.
        0 => Mask(0xF0000000FFFE0000, 0xFFFFFFF000000000, 0xFFFFFFFFFFFFFFFF),
        1 => Mask(0xF0000000FFFE0000, 0xFFFFFFF0000001FF, 0xFFFFFFFFFFFFFFFF),
        2 => Mask(0xF0000000FFFE0000, 0xFFFFFFF00003FFFF, 0xFFFFFFFFFFFFFFFF),
        3 => Mask(0xFF, 0, 0),
        4 => Mask(0xFF, 0, 0),
        // Kind 2.
        5 => Mask(0xFFFFFFFFFFFF0000, 0xFFFFFFF000000000, 0xFFFFFF0000000000),
        6 => Mask(0xFFFFFFFFFFFF0000, 0xFFFFFFF0000001FF, 0xFFFFFF0000000000),
        7 => Mask(0xFFFFFFFFFFFF0000, 0xFFFFFFF00003FFFF, 0xFFFFFF0000000000),
        8 => Mask(0xFF, 0, 0),
        9 => Mask(0xFF, 0, 0),
        // Kind 3.
        10 => Mask(0xF0000000FFFE0000, 0xFFFFFFF000000000, 0xFFFFFF0000000000),
        11 => Mask(0xF0000000FFFE0000, 0xFFFFFFF0000001FF, 0xFFFFFF0000000000),
        12 => Mask(0xF0000000FFFE0000, 0xFFFFFFF00003FFFF, 0xFFFFFF0000000000),
        13 => Mask(0xFF, 0, 0),
        14 => Mask(0xFF, 0, 0),
        // Kind 4.
        15 => Mask(0xFF, 0, 0),
        16 => Mask(0xF0000000FFFF0000, 0xFFFFFFF0000001FF, 0xFFFFFFFFFFFFFFFF),
        17 => Mask(0xF0000000FFFF0000, 0xFFFFFFF00003FFFF, 0xFFFFFFFFFFFFFFFF),
        18 => Mask(0xF0000000FFFF0000, 0xFFFFFFF007FFFFFF, 0xFFFFFFFFFFFFFFFF),
        19 => Mask(0xFF, 0, 0),
        // Kind 5.
        20 => Mask(0xFF, 0, 0),
        21 => Mask(0xFFFFFFFFFFFF0000, 0xFFFFFFF0000001FF, 0xFFFFFF0000000000),
        22 => Mask(0xFFFFFFFFFFFF0000, 0xFFFFFFF00003FFFF, 0xFFFFFF0000000000),
        23 => Mask(0xFFFFFFFFFFFF0000, 0xFFFFFFF007FFFFFF, 0xFFFFFF0000000000),
        24 => Mask(0xFF, 0, 0),
        // Kind 6.
        25 => Mask(0xFF, 0, 0),
        26 => Mask(0xF0000000FFFF0000, 0xFFFFFFF0000001FF, 0xFFFFFF0000000000),
        27 => Mask(0xF0000000FFFF0000, 0xFFFFFFF00003FFFF, 0xFFFFFF0000000000),
        28 => Mask(0xF0000000FFFF0000, 0xFFFFFFF007FFFFFF, 0xFFFFFF0000000000),
        29 => Mask(0xFF, 0, 0),
        // Kind 7.
        30 => Mask(0xF0000000FFFE0000, 0xFFFFE00000000000, 0xFFFFFFFFFFFFFFFF),
        31 => Mask(0xF0000000FFFE0000, 0xFFFFE000000001FF, 0xFFFFFFFFFFFFFFFF),
        32 => Mask(0xF0000000FFFE0000, 0xFFFFE0000003FFFF, 0xFFFFFFFFFFFFFFFF),
        33 => Mask(0xFF, 0, 0),
        34 => Mask(0xFF, 0, 0),
        // Kind 8.
        35 => Mask(0xF0000000FFFE0000, 0xFFFFE00000000000, 0xFFFFFF0000000000),
        36 => Mask(0xF0000000FFFE0000, 0xFFFFE000000001FF, 0xFFFFFF0000000000),
        37 => Mask(0xF0000000FFFE0000, 0xFFFFE0000003FFFF, 0xFFFFFF0000000000),
        38 => Mask(0xFF, 0, 0),
        39 => Mask(0xFF, 0, 0),
        // Kind 9.
        40 => Mask(0xFF, 0, 0),
        41 => Mask(0xF0000000FFFF0000, 0xFFFFE000000001FF, 0xFFFFFFFFFFFFFFFF),
        42 => Mask(0xF0000000FFFF0000, 0xFFFFE0000003FFFF, 0xFFFFFFFFFFFFFFFF),
        43 => Mask(0xF0000000FFFF0000, 0xFFFFE00007FFFFFF, 0xFFFFFFFFFFFFFFFF),
        44 => Mask(0xF0000000FFFF0000, 0xFFFFE00FFFFFFFFF, 0xFFFFFFFFFFFFFFFF),
        // Kind 10.
        45 => Mask(0xFF, 0, 0),
        46 => Mask(0xF0000000FFFF0000, 0xFFFFE000000001FF, 0xFFFFFF0000000000),
        47 => Mask(0xF0000000FFFF0000, 0xFFFFE0000003FFFF, 0xFFFFFF0000000000),
        48 => Mask(0xF0000000FFFF0000, 0xFFFFE00007FFFFFF, 0xFFFFFF0000000000),
        49 => Mask(0xF0000000FFFF0000, 0xFFFFE00FFFFFFFFF, 0xFFFFFF0000000000),
        _ => unreachable!(),
    }
}

// The length of the record of a linear width that a row names; none where the row is bad.
// Kept: the row as a slice, and not a struct around one: that its items are bytes a proof knows of a parameter alone.
#[tactic(auto, using(crate::proofs::Laws::Lengths::named_lengths))]
pub fn length_of_named(width: u64, row: &[u8]) -> Option<usize>
    requires { 32 ≤ length row.now }
    ensures none { IfNone result (named_length width row.now ≡ 0) }
    ensures some { IfSome result (λ n. (0 < n) × (n ≡ named_length width row.now)) }
{
    let kind = numbers::number::<1>(row, 0);
    if !kinds::is_mapping_at(width, kind) {
        return None;
    }
    let span = numbers::number::<1>(row, 1);
    if 4 < span {
        return None;
    }
    let mask = mask_at(5 * kind + span - 5);
    if (numbers::number::<8>(row, 0) & mask.0 == 0)
        & (numbers::number::<8>(row, 8) & mask.1 == 0)
        & (numbers::number::<8>(row, 16) & 0xFFFF_FF00_0000_0000 == 0)
        & (numbers::number::<8>(row, 24) & mask.2 == 0)
    {
        return Some(kinds::length_of_mapping(kind));
    }
    None
}

// What stands before the span in a mapping's record, as a number.
fn tags_number(mapping: Mapping) -> u64
    requires { Small mapping }
    ensures { result ≡ tags_number mapping }
{
    if kinds::is_guest_physical(mapping.kind) {
        return mapping.ep4ta;
    }
    mapping.vpid + 65536 * mapping.pcid + 4294967296 * mapping.global
}

// The last five bytes of a mapping's record, as a number.
fn last_number(mapping: Mapping) -> u64
    ensures { result ≡ last_number mapping }
{
    if kinds::is_combined(mapping.kind) {
        mapping.ep4ta
    } else {
        mapping.frame
    }
}

// Where the frame or structure stands in a mapping's record.
#[tactic(auto, using(crate::proofs::Laws::Overlaps::frame_place, crate::proofs::Laws::Overlaps::within))]
fn place_of_frame(kind: u64) -> usize
    requires { mapping_kind kind ≡ true }
    ensures { result ≡ place_of Field.frame kind }
{
    let span = kinds::place_of_span(kind);
    if kinds::is_wide(kind) {
        span + 7
    } else {
        span + 6
    }
}

// Writes a number as eight bytes at a position of the table: a function of its own, of which the compiler makes one store.
fn put_word(table: &mut [u8], at: usize, x: u64)
    requires { at + 8 ≤ length table.old }
    ensures { table.new ≡ put at (bytes 8 x) table.old }
{
    buffers::put_number(table, at, 8, x);
}

// Writes the record of a mapping and three zero bytes, and answers where the record ends. Rows mix their kinds, so it is
// written in six numbers, of one byte or of eight for all kinds; what one writes too much, the next ones write over.
#[tactic(auto, using(crate::proofs::Laws::Overlaps::within))]
fn put_mapping(mapping: Mapping, table: &mut [u8], at: usize) -> usize
    requires kind_value { mapping_kind mapping.kind ≡ true }
    requires small { Small mapping }
    requires kind_in_bounds { at + length_of mapping.kind + 3 ≤ length table.old }
    ensures value { result ≡ at + length_of mapping.kind }
    ensures table_after { table.new ≡ put at (record_of mapping ++ bytes 3 0) table.old }
{
    let length = kinds::length_of_mapping(mapping.kind);
    let span = kinds::place_of_span(mapping.kind);
    let frame = place_of_frame(mapping.kind);
    let tags = buffers::put_number(table, at, 1, mapping.kind);
    put_word(table, tags, tags_number(mapping));
    let page = buffers::put_number(table, at + span, 1, mapping.span);
    put_word(table, page, mapping.page);
    put_word(table, at + frame, mapping.frame);
    put_word(table, at + (length - 5), last_number(mapping));
    at + length
}

// Writes the record that a row names and three zero bytes behind it, at a position of the table, and answers where the
// record ends.
#[tactic(auto, using(crate::proofs::Laws::Overlaps::small_of_fits), unfolding(crate::specs::Rows::named))]
pub fn put_record(row: &[u8], table: &mut [u8], at: usize) -> usize
    requires in_bounds { 32 ≤ length row.now }
    requires row_value { mapping_kind (column Column.kind row.now) ≡ true }
    requires row_value_2 { fits (named row.now) ≡ true }
    requires row_in_bounds { at + length_of (column Column.kind row.now) + 3 ≤ length table.old }
    ensures value { result ≡ at + length_of (column Column.kind row.now) }
    ensures table_after { table.new ≡ put at (record_of (named row.now) ++ bytes 3 0) table.old }
{
    put_mapping(mapping_named(row), table, at)
}
