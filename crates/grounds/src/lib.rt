// Whether an event is refused for its own operands, place, fields or tags: 7 to 11; and which rule of an EPTP is broken.
#![tactic(auto)]

ghost use Rattle.std.specs.Prelude.{cond, ◌≡◌, ◌/◌, ◌^◌, eqb};
ghost use Rattle.model.specs.Context.{in_root};
ghost use Rattle.model.specs.Answers.{eptp_rule, invvpid_supported, bad_invvpid, invept_supported, bad_invept, bad_invpcid, ept_in_use, bad_entry, creatable, own_ground, own_rule};
ghost use Rattle.model.specs.Refusals.{rule_number, refusal_number, refusal_rule, answer_of, rule_of};

use model::{Context, Entry, Ept, EptpRule, Event, Mapping, Operands, Place, Refusal};

// How many numbers bits 63 to 16 of a descriptor, above its VPID, can hold, and bits 63 to 12, above its PCID.
const ABOVE_VPID: u64 = 281474976710656;

const ABOVE_PCID: u64 = 4503599627370496;

// Bits 63 to N of an EPTP are zero.
fn is_within_width(eptp: u64, width: u64) -> bool
    ensures { result ≡ eqb (eptp / 2 ^ width) 0 }
{
    if 64 <= width {
        return true;
    }
    (eptp >> width) == 0
}

// The first rule that an EPTP breaks under the context's capability and width; none if it is good.
pub fn eptp_rule(c: Context, eptp: u64) -> Option<EptpRule>
    ensures { rule_number result ≡ eptp_rule c eptp }
{
    let capability = c.capability;
    let memory_type = eptp % 8;
    if !(((memory_type == 0) & ((capability >> 8) % 2 == 1))
        | ((memory_type == 6) & ((capability >> 14) % 2 == 1)))
    {
        return Some(EptpRule::MemoryType);
    }
    if !(((eptp >> 3) % 8 == 3) & ((capability >> 6) % 2 == 1)) {
        return Some(EptpRule::WalkLength);
    }
    if !(!((eptp >> 6) % 2 == 1) | ((capability >> 21) % 2 == 1)) {
        return Some(EptpRule::DirtyFlag);
    }
    if !((eptp >> 7) % 32 == 0) {
        return Some(EptpRule::ReservedBits);
    }
    if !is_within_width(eptp, c.width) {
        return Some(EptpRule::BeyondWidth);
    }
    None
}

// The capability has this INVVPID type.
fn is_invvpid_supported(capability: u64, type_number: u64) -> bool
    ensures { result ≡ invvpid_supported capability type_number }
{
    match type_number {
        0 => (capability >> 40) % 2 == 1,
        1 => (capability >> 41) % 2 == 1,
        2 => (capability >> 42) % 2 == 1,
        3 => (capability >> 43) % 2 == 1,
        _ => false,
    }
}

// The operands of an INVVPID are invalid.
fn is_bad_invvpid(c: Context, o: Operands) -> bool
    ensures { result ≡ bad_invvpid c o }
{
    let type_number = o.type_number;
    let named = o.low % model::VPIDS;
    let reserved = (o.low >> 16) % ABOVE_VPID;
    !is_invvpid_supported(c.capability, type_number)
        | !(reserved == 0)
        | ((named == 0) & !(type_number == 2))
        | ((type_number == 0) & !addresses::is_canonical(c.linear_width, o.high))
}

// The capability has this INVEPT type.
fn is_invept_supported(capability: u64, type_number: u64) -> bool
    ensures { result ≡ invept_supported capability type_number }
{
    match type_number {
        1 => (capability >> 25) % 2 == 1,
        2 => (capability >> 26) % 2 == 1,
        _ => false,
    }
}

// Refuses the operands of an INVEPT: its type and its descriptor's upper half come before the EPTP.
fn check_invept(c: Context, o: Operands) -> Result<(), Refusal>
    ensures answer { answer_of result ≡ cond (bad_invept c o) 8 0 }
    ensures rule { rule_of result ≡ own_rule c (Event.Invept o) }
{
    if !is_invept_supported(c.capability, o.type_number) {
        return Err(Refusal::InvalidOperand(None));
    }
    if o.high != 0 {
        return Err(Refusal::InvalidOperand(None));
    }
    if o.type_number != 1 {
        return Ok(());
    }
    match eptp_rule(c, o.low) {
        Some(rule) => Err(Refusal::InvalidOperand(Some(rule))),
        None => Ok(()),
    }
}

// The operands of an INVPCID are invalid.
fn is_bad_invpcid(c: Context, o: Operands) -> bool
    ensures { result ≡ bad_invpcid c o }
{
    let type_number = o.type_number;
    let above_pcid = (o.low >> 12) % ABOVE_PCID;
    (3 < type_number)
        | !(above_pcid == 0)
        | ((type_number == 0) & !addresses::is_canonical(c.linear_width, o.high))
}

// Refuses the fields of a VM entry: its VPID comes before the EPTP.
fn check_entry(c: Context, n: Entry) -> Result<(), Refusal>
    ensures answer { answer_of result ≡ cond (bad_entry c n) 10 0 }
    ensures rule { rule_of result ≡ own_rule c (Event.Entry n) }
{
    if (n.vpids == 1) & (n.vpid == 0) {
        return Err(Refusal::EntryFailure(None));
    }
    if n.ept != 1 {
        return Ok(());
    }
    match eptp_rule(c, n.eptp) {
        Some(rule) => Err(Refusal::EntryFailure(Some(rule))),
        None => Ok(()),
    }
}

// The place is VMX root operation.
fn is_in_root(place: Place) -> bool
    ensures { result ≡ in_root place }
{
    place == Place::Root
}

// EPT is in use.
fn is_ept_in_use(ept: Ept) -> bool
    ensures { result ≡ ept_in_use ept }
{
    ept != Ept::Off
}

// The mapping can be created here.
fn is_creatable(c: Context, m: Mapping) -> bool
    ensures { result ≡ creatable c m }
{
    let kind = m.kind;
    let same_pcid = m.pcid == c.pcid;
    let place = c.place;
    let ept = contexts::ept(place);
    let same_vpid = m.vpid == contexts::vpid(place);
    let in_use = is_ept_in_use(ept);
    let current = contexts::is_current_ep4ta(ept, m.ep4ta);
    let linear = kinds::is_linear(kind);
    let guest_physical = kinds::is_guest_physical(kind);
    let combined = kinds::is_combined(kind);
    (linear & !in_use & same_vpid & same_pcid)
        | (guest_physical & current)
        | (combined & current & same_vpid & same_pcid)
}

// Refuses where a ground that names no rule applies.
fn refuse_if(applies: bool, refusal: Refusal) -> Result<(), Refusal>
    ensures answer { answer_of result ≡ cond applies (refusal_number refusal) 0 }
    ensures rule { refusal_rule refusal ≡ 0 → rule_of result ≡ 0 }
{
    if applies { Err(refusal) } else { Ok(()) }
}

// Refuses an event for a ground of its own: 8 for INVVPID and INVEPT, 9 for VMXON, VM exits and EPT violations, 10 for VM
// entries, 11 for creations, 7 for INVPCID; an INVEPT and a VM entry with the rule that the EPTP breaks where it comes to
// that.
pub fn check_event(c: Context, e: Event) -> Result<(), Refusal>
    ensures answer { answer_of result ≡ own_ground c e }
    ensures rule { rule_of result ≡ own_rule c e }
{
    match e {
        Event::Creation(m) => refuse_if(!is_creatable(c, m), Refusal::NotCreatable),
        Event::Invvpid(o) => refuse_if(is_bad_invvpid(c, o), Refusal::InvalidOperand(None)),
        Event::Invept(o) => check_invept(c, o),
        Event::EptViolation(_) => {
            refuse_if(!is_ept_in_use(contexts::ept(c.place)), Refusal::NoPlace)
        }
        Event::Entry(n) => check_entry(c, n),
        Event::Exit(_) => refuse_if(!contexts::is_in_guest(c.place), Refusal::NoPlace),
        Event::Vmxon => refuse_if(is_in_root(c.place), Refusal::NoPlace),
        Event::Invpcid(o) => refuse_if(is_bad_invpcid(c, o), Refusal::GeneralProtection),
        Event::Invlpg(_) | Event::Vmxoff | Event::NewPcid(_) | Event::Reset | Event::MovToCr3(_) =>
            Ok(()),
    }
}
