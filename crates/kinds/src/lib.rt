// The kinds of mappings and events as data: how long a record or event of a kind is, where a mapping's
// span and EP4TA stand, its sort, whether it is a structure cache, and of which linear width it is. A test takes any
// number and holds of no unknown kind. A table mixes its kinds, so what is asked of a kind is read by shifts and not by
// branches.
#![tactic(auto)]

ghost use Rattle.std.specs.Prelude.{◌≡◌, true, cond, not, ◌&&◌, ◌<◌};
ghost use Rattle.model.specs.Bits.{bit};
ghost use Rattle.model.specs.Layouts.{Field, mapping_kind, event_kind, length_of};
ghost use Rattle.model.specs.Mappings.{linear, guest_physical, combined, structure_cache, wide, other_width, global_marked};
ghost use Rattle.laws.specs.Layouts.{in_set};
ghost use Rattle.kinds.specs.Places.{number_at, place_of};

// Numbers by kind, five bits for each, the first kind's in the lowest: how long a record or event is, of kinds 0 to 11
// and 16 to 27. An unknown kind has 0.
const LENGTHS: u64 = 0x005A_3795_630B_4620;

const LENGTHS_FROM_16: u64 = 0x01E4_2408_4709_2739;

// Where the EP4TA of a mapping's record stands, in five bits for each kind; 0 where it has none.
const EP4TAS: u64 = 0x0044_1204_0208_8400;

// Sets of kinds, bit k for kind k: all mappings; linear, combined and guest-physical ones.
pub const ALL: u64 = 0x7FE;

pub const LINEAR: u64 = 0x292;

pub const COMBINED: u64 = 0x548;

pub const GUEST_PHYSICAL: u64 = 0x24;

// Linear and combined mappings, which carry a VPID and a PCID; guest-physical and combined ones, which carry an EP4TA.
pub const WITH_VPID: u64 = 0x7DA;

pub const WITH_EP4TA: u64 = 0x56C;

// Linear and combined translations, without the structure caches.
pub const LINEAR_TRANSLATIONS: u64 = 0x82;

pub const COMBINED_TRANSLATIONS: u64 = 0x108;

// Those that carry a global mark.
const GLOBAL_MARKED: u64 = 0x18A;

// Those whose span stands at 6; that of the other mappings stands at 5.
const SPAN_AT_6: u64 = 0x1AE;

// Those whose linear addresses have 48 bits, and those of a 57-bit table.
const NARROW: u64 = 0x5A;

const OF_57: u64 = 0x7A4;

// The number at a place among such numbers.
fn number_at(numbers: u64, place: u64) -> usize
    requires { place < 12 }
    ensures { result ≡ number_at numbers place }
{
    ((numbers >> (5 * place)) % 32) as usize
}

// The kind is in a set of kinds.
pub fn is_among(kinds: u64, kind: u64) -> bool
    requires { kind < 64 }
    ensures { result ≡ bit kind kinds }
{
    (kinds >> kind) % 2 == 1
}

// The same of any number; one of 64 or more is in no set.
fn is_in(kinds: u64, kind: u64) -> bool
    ensures { result ≡ in_set kinds kind }
{
    if kind < 64 {
        return is_among(kinds, kind);
    }
    false
}

// The kind is a mapping's.
pub fn is_mapping(kind: u64) -> bool
    ensures { result ≡ mapping_kind kind }
{
    (1 <= kind) & (kind <= 10)
}

// The kind is a linear mapping's.
pub fn is_linear(kind: u64) -> bool
    ensures { result ≡ linear kind }
{
    is_in(LINEAR, kind)
}

// The kind is a guest-physical mapping's.
pub fn is_guest_physical(kind: u64) -> bool
    ensures { result ≡ guest_physical kind }
{
    is_in(GUEST_PHYSICAL, kind)
}

// The kind is a combined mapping's.
pub fn is_combined(kind: u64) -> bool
    ensures { result ≡ combined kind }
{
    is_in(COMBINED, kind)
}

// The kind is a structure cache's.
pub fn is_structure_cache(kind: u64) -> bool
    ensures { result ≡ structure_cache kind }
{
    ((4 <= kind) & (kind <= 6)) | ((9 <= kind) & (kind <= 10))
}

// The kind's mapping carries a global mark.
pub fn is_global_marked(kind: u64) -> bool
    ensures { result ≡ global_marked kind }
{
    is_in(GLOBAL_MARKED, kind)
}

// The kind's linear addresses have 57 bits.
pub fn is_wide(kind: u64) -> bool
    ensures { result ≡ wide kind }
{
    (7 <= kind) & (kind <= 10)
}

// The kind is a mapping's of a linear width; any width but 57 is read as 48.
pub fn is_mapping_at(width: u64, kind: u64) -> bool
    ensures { result ≡ (mapping_kind kind && not (other_width width kind)) }
{
    if width == model::WIDE_WIDTH {
        return is_in(OF_57, kind);
    }
    (1 <= kind) & (kind <= 6)
}

// The kind is one of the other linear width.
pub fn is_of_other_width(width: u64, kind: u64) -> bool
    ensures { result ≡ other_width width kind }
{
    if width == model::WIDE_WIDTH {
        return is_in(NARROW, kind);
    }
    is_wide(kind)
}

// The length of a mapping's record, its kind byte with it.
pub fn length_of_mapping(kind: u64) -> usize
    requires { mapping_kind kind ≡ true }
    ensures { result ≡ length_of kind }
{
    number_at(LENGTHS, kind)
}

// Where the span stands in a mapping's record.
pub fn place_of_span(kind: u64) -> usize
    requires { mapping_kind kind ≡ true }
    ensures { result ≡ place_of Field.span kind }
{
    5 + ((SPAN_AT_6 >> kind) % 2) as usize
}

// Where the EP4TA stands in a mapping's record; 0 where the mapping has none.
pub fn place_of_ep4ta(kind: u64) -> usize
    requires { mapping_kind kind ≡ true }
    ensures { result ≡ place_of Field.ep4ta kind }
{
    number_at(EP4TAS, kind)
}

// The length of a record or event of the kind, its kind byte with it; 0 where the kind is unknown.
pub fn length(kind: u64) -> usize
    ensures { result ≡ cond (event_kind kind) (length_of kind) 0 }
{
    if kind < 12 {
        return number_at(LENGTHS, kind);
    }
    if kind < 16 {
        return 0;
    }
    if kind < 28 {
        return number_at(LENGTHS_FROM_16, kind - 16);
    }
    0
}
