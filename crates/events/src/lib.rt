// The event reader: exactly one valid record, or none.
#![tactic(auto)]

ghost use Rattle.std.specs.Prelude.{◌≡◌, length};
ghost use Rattle.model.specs.Layouts.{kind_of, body_of, length_of};
ghost use Rattle.model.specs.Events.{operands, violation, entry, new_pcid, event, event_in_range, event_reading};

use mappings::Record;
use model::{Entry, Event, NewPcid, Operands, Violation};

// The operands of an INVVPID, INVEPT or INVPCID, whose bodies are alike.
#[tactic(auto, unfolding(model::specs::Events::operands, model::specs::Layouts::field, model::specs::Layouts::body_of))]
fn read_operands(e: &[u8]) -> Operands
    requires { (body_of (kind_of e.now) ≡ body_of 16) × (length e.now ≡ 25) }
    ensures { result ≡ operands e.now }
{
    Operands {
        type_number: numbers::number::<8>(e, 1),
        low: numbers::number::<8>(e, 9),
        high: numbers::number::<8>(e, 17),
    }
}

// The fields of an EPT violation.
#[tactic(auto, unfolding(model::specs::Events::violation, model::specs::Layouts::field, model::specs::Layouts::body_of))]
fn read_violation(e: &[u8]) -> Violation
    requires { (kind_of e.now ≡ 19) × (length e.now ≡ 18) }
    ensures { result ≡ violation e.now }
{
    Violation {
        physical: numbers::number::<8>(e, 1),
        flag: numbers::number::<1>(e, 9),
        linear: numbers::number::<8>(e, 10),
    }
}

// The fields of a VM entry.
#[tactic(auto, unfolding(model::specs::Events::entry, model::specs::Layouts::field, model::specs::Layouts::body_of))]
fn read_entry(e: &[u8]) -> Entry
    requires { (kind_of e.now ≡ 20) × (length e.now ≡ 16) }
    ensures { result ≡ entry e.now }
{
    Entry {
        vpids: numbers::number::<1>(e, 1),
        vpid: numbers::number::<2>(e, 2),
        ept: numbers::number::<1>(e, 4),
        eptp: numbers::number::<8>(e, 5),
        pcid: numbers::number::<2>(e, 13),
        cpl: numbers::number::<1>(e, 15),
    }
}

// The fields of a new PCID and CPL.
#[tactic(auto, unfolding(model::specs::Events::new_pcid, model::specs::Layouts::field, model::specs::Layouts::body_of))]
fn read_new_pcid(e: &[u8]) -> NewPcid
    requires { (kind_of e.now ≡ 24) × (length e.now ≡ 4) }
    ensures { result ≡ new_pcid e.now }
{
    NewPcid {
        pcid: numbers::number::<2>(e, 1),
        cpl: numbers::number::<1>(e, 3),
    }
}

// The event of a kind in bytes of its length. The one known kind left is 25, a reset.
#[tactic(auto, unfolding(model::specs::Events::event, model::specs::Layouts::field, model::specs::Layouts::mapping_kind, model::specs::Layouts::length_of, model::specs::Layouts::body_of))]
fn event_of(e: &[u8], kind: u64) -> Event
    requires { (kind ≡ kind_of e.now) × (length e.now ≡ length_of kind) }
    ensures { result ≡ event e.now }
{
    if kinds::is_mapping(kind) {
        let record = Record { bytes: e };
        return Event::Creation(record.mapping());
    }
    match kind {
        16 => Event::Invvpid(read_operands(e)),
        17 => Event::Invept(read_operands(e)),
        18 => Event::Invlpg(numbers::number::<8>(e, 1)),
        19 => Event::EptViolation(read_violation(e)),
        20 => Event::Entry(read_entry(e)),
        21 => Event::Exit(numbers::number::<2>(e, 1)),
        22 => Event::Vmxon,
        23 => Event::Vmxoff,
        24 => Event::NewPcid(read_new_pcid(e)),
        26 => Event::Invpcid(read_operands(e)),
        27 => Event::MovToCr3(numbers::number::<2>(e, 1)),
        _ => Event::Reset,
    }
}

// The fields of an event are in their ranges, and a creation is of the linear width: its bytes are judged as a table's
// are. With flag 0 an EPT violation's linear address is not looked at, and a disabled VPID or EPT field of a VM entry
// never is.
#[tactic(auto, using(crate::proofs::Laws::creation_exact), unfolding(model::specs::Events::event_in_range))]
fn is_in_range(width: u64, e: &[u8], x: Event) -> bool
    requires e_len { length e.now ≡ length_of (kind_of e.now) }
    requires x_value { x ≡ event e.now }
    ensures { result ≡ event_in_range width x }
{
    match x {
        Event::Creation(_) => tables::is_one_record(width, e),
        Event::EptViolation(v) => {
            (v.physical < model::GUEST_PHYSICAL_LIMIT)
                & (v.flag <= 1)
                & ((v.flag == 0) | addresses::is_canonical(width, v.linear))
        }
        Event::Entry(n) => {
            (n.vpids <= 1) & (n.ept <= 1) & (n.pcid <= model::PCID_MAX) & (n.cpl <= 3)
        }
        Event::Exit(pcid) | Event::MovToCr3(pcid) => pcid <= model::PCID_MAX,
        Event::NewPcid(n) => (n.pcid <= model::PCID_MAX) & (n.cpl <= 3),
        _ => true,
    }
}

// The event that the bytes are at a linear width; none where they are not exactly one valid record: no bytes, an unknown
// kind, a creation of the other width, a byte too few or too many and a field out of its range are all invalid.
#[tactic(auto, using(laws::specs::Events::valid_unsized, laws::specs::Events::valid_sized), unfolding(model::specs::Events::event_reading))]
pub fn read_event(width: u64, e: &[u8]) -> Option<Event>
    ensures { result ≡ event_reading width e.now }
{
    let kind = numbers::first_byte(e);
    let size = e.len();
    if (size == 0) | (size != kinds::length(kind)) {
        return None;
    }
    let x = event_of(e, kind);
    is_in_range(width, e, x).then_some(x)
}
