// The record reader: whether the fields of a record are in their ranges, and the length of a valid record. What may be one
// is handed in as the part of the table that starts at its kind byte; what follows the record is not looked at.
#![tactic(auto)]

ghost use Rattle.std.specs.Prelude.{◌≡◌, ◌/◌, ◌%◌, ◌^◌, ◌<◌, IfNone, IfSome};
ghost use Rattle.model.specs.Mappings.{mapping, Held, fields_in_range};
ghost use Rattle.valid_records.specs.Masks.{mask_at};
ghost use Rattle.valid_records.specs.Lengths.{length_at};

use mappings::Record;

// Bits that must be 0: of a record's first eight bytes, and of its next eight.
#[derive(Clone, Copy)]
struct Mask(u64, u64);

// The masks, five for each kind from 1 on, by span. Where the kind may not have the span, the mask is that of the kind byte,
// which is not 0. The compiler makes a table of the match; an array it would store anew at each call.
#[tactic(auto, unfolding(crate::specs::Masks::mask, kinds::specs::Places::place_of, model::specs::Layouts::body_of, model::specs::Mappings::linear, model::specs::Mappings::guest_physical, model::specs::Mappings::combined, model::specs::Mappings::structure_cache, model::specs::Mappings::wide, model::specs::Mappings::global_marked,),)]
fn mask_at(i: u64) -> Mask
    requires { i < 50 }
    ensures { (result.0 ≡ mask_at i % 2 ^ 64) × (result.1 ≡ mask_at i / 2 ^ 64) }
{
    match i {
        // Kind 1.
        0 => Mask(0xFEF0_0000_0000, 0xF000_0000),
        1 => Mask(0xFF00_FEF0_0000_0000, 0xF000_0001),
        2 => Mask(0xFF00_FEF0_0000_0000, 0xF000_03FF),
        3 => Mask(0xFF, 0),
        4 => Mask(0xFF, 0),
        // Kind 2.
        5 => Mask(0, 0xF000_0000),
        6 => Mask(0xFF00_0000_0000_0000, 0xF000_0001),
        7 => Mask(0xFF00_0000_0000_0000, 0xF000_03FF),
        8 => Mask(0xFF, 0),
        9 => Mask(0xFF, 0),
        // Kind 3.
        10 => Mask(0xFEF0_0000_0000, 0xF000_0000),
        11 => Mask(0xFF00_FEF0_0000_0000, 0xF000_0001),
        12 => Mask(0xFF00_FEF0_0000_0000, 0xF000_03FF),
        13 => Mask(0xFF, 0),
        14 => Mask(0xFF, 0),
        // Kind 4.
        15 => Mask(0xFF, 0),
        16 => Mask(0x01FF_00F0_0000_0000, 0x00F0_0000),
        17 => Mask(0xFFFF_00F0_0000_0000, 0x00F0_0003),
        18 => Mask(0xFFFF_00F0_0000_0000, 0x00F0_07FF),
        19 => Mask(0xFF, 0),
        // Kind 5.
        20 => Mask(0xFF, 0),
        21 => Mask(0xFF00_0000_0000_0000, 0xF000_0001),
        22 => Mask(0xFF00_0000_0000_0000, 0xF000_03FF),
        23 => Mask(0xFF00_0000_0000_0000, 0xF007_FFFF),
        24 => Mask(0xFF, 0),
        // Kind 6.
        25 => Mask(0xFF, 0),
        26 => Mask(0x01FF_00F0_0000_0000, 0x00F0_0000),
        27 => Mask(0xFFFF_00F0_0000_0000, 0x00F0_0003),
        28 => Mask(0xFFFF_00F0_0000_0000, 0x00F0_07FF),
        29 => Mask(0xFF, 0),
        // Kind 7.
        30 => Mask(0xFEF0_0000_0000, 0x00E0_0000_0000),
        31 => Mask(0xFF00_FEF0_0000_0000, 0x00E0_0000_0001),
        32 => Mask(0xFF00_FEF0_0000_0000, 0x00E0_0000_03FF),
        33 => Mask(0xFF, 0),
        34 => Mask(0xFF, 0),
        // Kind 8.
        35 => Mask(0xFEF0_0000_0000, 0x00E0_0000_0000),
        36 => Mask(0xFF00_FEF0_0000_0000, 0x00E0_0000_0001),
        37 => Mask(0xFF00_FEF0_0000_0000, 0x00E0_0000_03FF),
        38 => Mask(0xFF, 0),
        39 => Mask(0xFF, 0),
        // Kind 9.
        40 => Mask(0xFF, 0),
        41 => Mask(0x01FF_00F0_0000_0000, 0xE000_0000),
        42 => Mask(0xFFFF_00F0_0000_0000, 0xE000_0003),
        43 => Mask(0xFFFF_00F0_0000_0000, 0xE000_07FF),
        44 => Mask(0xFFFF_00F0_0000_0000, 0xE00F_FFFF),
        // Kind 10.
        45 => Mask(0xFF, 0),
        46 => Mask(0x01FF_00F0_0000_0000, 0xE000_0000),
        47 => Mask(0xFFFF_00F0_0000_0000, 0xE000_0003),
        48 => Mask(0xFFFF_00F0_0000_0000, 0xE000_07FF),
        49 => Mask(0xFFFF_00F0_0000_0000, 0xE00F_FFFF),
        _ => unreachable!(),
    }
}

// The fields of the record at the front are in their ranges: its first sixteen bytes, which hold all that have one, have
// no bit of the mask of its kind and span.
// Kept: a part, and not a `Record`. A proof knows that the items of a parameter are bytes, but not those of a struct's slice.
#[tactic(auto, using(crate::proofs::Laws::Masks::in_ranges))]
fn is_in_ranges(part: &[u8]) -> bool
    requires { Held part.now }
    ensures { result ≡ fields_in_range (mapping part.now) }
{
    let record = Record { bytes: part };
    let span = record.span();
    if 4 < span {
        return false;
    }
    let i = 5 * record.kind() + span - 5;
    let mask = mask_at(i);
    (numbers::number::<8>(part, 0) & mask.0 == 0) & (numbers::number::<8>(part, 8) & mask.1 == 0)
}

// The length of the valid record of a linear width that starts at the front; none where none starts there. Any width but
// 57 is read as 48.
#[tactic(auto, using(crate::proofs::Laws::Lengths::lengths))]
pub fn length_at(width: u64, part: &[u8]) -> Option<usize>
    ensures none { IfNone result (length_at width part.now ≡ 0) }
    ensures some { IfSome result (λ n. (0 < n) × (n ≡ length_at width part.now)) }
{
    let kind = numbers::first_byte(part);
    if !kinds::is_mapping_at(width, kind) {
        return None;
    }
    let length = kinds::length_of_mapping(kind);
    if part.len() < length {
        return None;
    }
    if is_in_ranges(part) {
        Some(length)
    } else {
        None
    }
}
