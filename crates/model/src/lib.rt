// The values that the definitions of document 01 and the code share. The definitions themselves
// stand in specs/, in the order of the document.
#![tactic(auto)]

ghost use Rattle.std.specs.Prelude.{◌≡◌};
ghost use Rattle.model.specs.Refusals.{rule_number, refusal_number, refusal_rule};

// The longest table, in bytes.
pub const TABLE_LIMIT: usize = 47104;

// Guest-physical addresses are below 2^48. The pages of 48-bit addresses are below 2^36, those of 57-bit ones below
// 2^45.
pub const GUEST_PHYSICAL_LIMIT: u64 = 281474976710656;

pub const PAGE_LIMIT: u64 = 68719476736;

pub const WIDE_PAGE_LIMIT: u64 = 35184372088832;

// EP4TAs are below 2^40, PCIDs at most 4,095, and VPIDs at most 65,535.
pub const EP4TA_LIMIT: u64 = 1099511627776;

pub const PCID_MAX: u64 = 4095;

pub const VPID_MAX: u64 = 65535;

// How many PCIDs and VPIDs there are, and so how many counts by PCID a tally has.
pub const PCIDS: u64 = 4096;

pub const VPIDS: u64 = 65536;

pub const PCID_COUNTS: usize = 4096;

// The widths of a linear address, in bits: with 4-level and with 5-level paging.
pub const NARROW_WIDTH: u64 = 48;

pub const WIDE_WIDTH: u64 = 57;

// Document 01, "Context". Every field takes any number: one out of its range is answered 1.
#[derive(Clone, Copy)]
pub struct Context {
    // IA32_VMX_EPT_VPID_CAP
    pub capability: u64,
    // the physical width N
    pub width: u64,
    // how many bits a linear address has: 48, or 57 with 5-level paging (document 02, Ask 12)
    pub linear_width: u64,
    pub pcid: u64,
    pub cpl: u64,
    pub place: Place,
}

#[derive(Clone, Copy, PartialEq, Eq)]
pub enum Place {
    Outside,
    Root,
    Guest(GuestPlace),
}

#[derive(Clone, Copy, PartialEq, Eq)]
pub struct GuestPlace {
    // 0 exactly if VPIDs were not enabled at entry
    pub vpid: u64,
    pub ept: Ept,
}

// EPT is not in use, or in use with an EP4TA: bits 51 to 12 of the EPTP.
// Kept: the requirement fixes this enum (docs/DECISIONS.md, "Forms of document 01").
#[derive(Clone, Copy, PartialEq, Eq)]
pub enum Ept {
    Off,
    On(u64),
}

// Document 01, "Mapping records". A field that the kind does not have is 0.
// Kept: a kind is a number, since the definition `mapping` reads any byte as one.
#[derive(Clone, Copy)]
pub struct Mapping {
    pub kind: u64,
    pub vpid: u64,
    pub pcid: u64,
    pub global: u64,
    pub span: u64,
    pub page: u64,
    // the frame of a translation, the structure of a structure cache
    pub frame: u64,
    pub ep4ta: u64,
}

// Document 01, "Events", and document 02, Ask 5, with the fields of each.
#[derive(Clone, Copy)]
pub enum Event {
    Creation(Mapping),
    Invvpid(Operands),
    Invept(Operands),
    Invlpg(u64),
    EptViolation(Violation),
    Entry(Entry),
    Exit(u64),
    Vmxon,
    Vmxoff,
    NewPcid(NewPcid),
    Reset,
    Invpcid(Operands),
    MovToCr3(u64),
}

// The operands of INVVPID, INVEPT and INVPCID: the type, and the descriptor's two quadwords.
#[derive(Clone, Copy)]
pub struct Operands {
    pub type_number: u64,
    pub low: u64,
    pub high: u64,
}

// An EPT violation: the guest-physical address, and with flag 1 the linear address behind it.
// Kept: the flag is a number: a reading may have another than 0 and 1, which `event_in_range` refuses.
#[derive(Clone, Copy)]
pub struct Violation {
    pub physical: u64,
    pub flag: u64,
    pub linear: u64,
}

// A VM entry: vpids and ept are the two enable flags.
// Kept: the flags are numbers beside their values, as in a violation.
#[derive(Clone, Copy)]
pub struct Entry {
    pub vpids: u64,
    pub vpid: u64,
    pub ept: u64,
    pub eptp: u64,
    pub pcid: u64,
    pub cpl: u64,
}

#[derive(Clone, Copy)]
pub struct NewPcid {
    pub pcid: u64,
    pub cpl: u64,
}

// Document 02, Ask 1: what an accepted event says of a mapping, in the order in which it is asked. The
// mapping is dropped with the last alone.
#[derive(Clone, Copy)]
pub enum Reason {
    NoScope,
    NotCanonical,
    WrongKind,
    WrongVpid,
    WrongPcid,
    WrongEp4ta,
    NotCovering,
    SparedAsGlobal,
    InScope,
}

// The rules of an EPTP, in the order in which they are tested: document 02, Ask 6.
#[derive(Clone, Copy, PartialEq, Eq)]
pub enum EptpRule {
    MemoryType = 1,
    WalkLength,
    DirtyFlag,
    ReservedBits,
    BeyondWidth,
}

// Why an event is refused: document 01, "Numbered answers", and document 02's 13. An invalid operand and a VM entry that
// fails carry the rule that the EPTP breaks, where that is the ground.
#[derive(Clone, Copy, PartialEq, Eq)]
pub enum Refusal {
    ContextOutOfRange,
    TableTooLong,
    TableNotValid,
    EventNotValid,
    UndefinedOpcode,
    VmExit,
    GeneralProtection,
    InvalidOperand(Option<EptpRule>),
    NoPlace,
    EntryFailure(Option<EptpRule>),
    NotCreatable,
    NoRoom,
    WrongTally,
}

// The number of a rule, from 1; 0 where none is broken.
pub fn number_of_rule(rule: Option<EptpRule>) -> u64
    ensures { result ≡ rule_number rule }
{
    rule.map_or(0, |r| r as u64)
}

impl Refusal {
    // The number of the answer.
    pub fn number(self) -> u64
        ensures { result ≡ refusal_number self }
    {
        match self {
            Refusal::ContextOutOfRange => 1,
            Refusal::TableTooLong => 2,
            Refusal::TableNotValid => 3,
            Refusal::EventNotValid => 4,
            Refusal::UndefinedOpcode => 5,
            Refusal::VmExit => 6,
            Refusal::GeneralProtection => 7,
            Refusal::InvalidOperand(_) => 8,
            Refusal::NoPlace => 9,
            Refusal::EntryFailure(_) => 10,
            Refusal::NotCreatable => 11,
            Refusal::NoRoom => 12,
            Refusal::WrongTally => 13,
        }
    }

    // The number of the rule that goes with it; 0 where the EPTP is not the ground.
    pub fn rule(self) -> u64
        ensures { result ≡ refusal_rule self }
    {
        match self {
            Refusal::InvalidOperand(rule) | Refusal::EntryFailure(rule) => number_of_rule(rule),
            _ => 0,
        }
    }
}

// What a lookup asks for.
#[derive(Clone, Copy)]
pub enum Address {
    Linear(u64),
    GuestPhysical(u64),
}

// What a step reports: the answer's number, the rule of the EPTP that is broken where that is the ground of 8 or 10
// (else 0), the context after it, the length of the new table and how many records were dropped.
// Kept: the answer is a number, which the theorems of whole runs (`RentersApart`) name, as the C interface does.
#[derive(Clone, Copy)]
pub struct Step {
    pub answer: u64,
    pub rule: u64,
    pub context: Context,
    pub length: usize,
    pub dropped: usize,
}
