// A mapping record and its single fields.
#![tactic(auto)]

ghost use Rattle.std.specs.Prelude.{false, ◌≡◌, if◌then◌else◌};
ghost use Rattle.model.specs.Bits.{number};
ghost use Rattle.model.specs.Layouts.{kind_of, length_of};
ghost use Rattle.model.specs.Mappings.{mapping, guest_physical, Held, global_translation, covers};
ghost use Rattle.mappings.specs.Spans.{SpanAt};

use model::Mapping;

// What the sixth byte of a number counts.
const SIXTH_BYTE: u64 = 1099511627776;

// A record, as the part of a table that starts at its kind byte. It stands whole at the front; what follows it is not
// looked at.
#[derive(Clone, Copy)]
pub struct Record<'a> {
    pub bytes: &'a [u8],
    pub ghost held: { Held bytes.now },
}

#[tactic(auto, using(crate::proofs::Laws::Places::fields), unfolding(model::specs::Mappings::mapping, model::specs::Layouts::kind_of))]
impl<'a> Record<'a> {
    // The kind.
    pub fn kind(self) -> u64
        ensures { result ≡ (mapping self.entry.bytes.now).kind }
    {
        numbers::number::<1>(self.bytes, 0)
    }

    // Where the span stands, with the page and the frame after it.
    pub fn span_at(self) -> usize
        ensures { SpanAt self.entry.bytes.now result }
    {
        kinds::place_of_span(self.kind())
    }

    // The span.
    pub fn span(self) -> u64
        ensures { result ≡ (mapping self.entry.bytes.now).span }
    {
        numbers::number::<1>(self.bytes, self.span_at())
    }

    // The page: five bytes, and a sixth where the kind is of 57 bits. The sixth is read in any
    // case, so that the compiler needs no branch.
    fn page(self) -> u64
        ensures { result ≡ (mapping self.entry.bytes.now).page }
    {
        let at = self.span_at() + 1;
        let five = numbers::number::<5>(self.bytes, at);
        let sixth = numbers::number::<1>(self.bytes, at + 5);
        if kinds::is_wide(self.kind()) {
            five + SIXTH_BYTE * sixth
        } else {
            five
        }
    }

    // The frame, or the structure.
    fn frame(self) -> u64
        ensures { result ≡ (mapping self.entry.bytes.now).frame }
    {
        let at = self.span_at() + 6;
        if kinds::is_wide(self.kind()) {
            numbers::number::<5>(self.bytes, at + 1)
        } else {
            numbers::number::<5>(self.bytes, at)
        }
    }

    // The length of the record, by its kind.
    pub fn length(self) -> usize
        ensures { result ≡ length_of (kind_of self.entry.bytes.now) }
    {
        kinds::length_of_mapping(self.kind())
    }

    // The two bytes where a VPID stands; of a guest-physical mapping, which has none, they are a part of its EP4TA.
    pub fn vpid_bytes(self) -> u64
        ensures value { result ≡ number 2 1 self.entry.bytes.now }
        ensures value_2 { guest_physical (mapping self.entry.bytes.now).kind ≡ false → result ≡ (mapping self.entry.bytes.now).vpid }
    {
        numbers::number::<2>(self.bytes, 1)
    }

    // A number that every kind but a guest-physical mapping has; 0 where the record is one. Its bytes are read in any case,
    // so that no branch is taken on the kind.
    fn unless_guest_physical(self, number: u64) -> u64
        ensures { result ≡ (if guest_physical (mapping self.entry.bytes.now).kind then 0 else number) }
    {
        if kinds::is_guest_physical(self.kind()) {
            0
        } else {
            number
        }
    }

    // The VPID; 0 where the kind has none.
    fn vpid(self) -> u64
        ensures { result ≡ (mapping self.entry.bytes.now).vpid }
    {
        self.unless_guest_physical(self.vpid_bytes())
    }

    // The two bytes where a PCID stands, in the same way.
    pub fn pcid_bytes(self) -> u64
        ensures value { result ≡ number 2 3 self.entry.bytes.now }
        ensures value_2 { guest_physical (mapping self.entry.bytes.now).kind ≡ false → result ≡ (mapping self.entry.bytes.now).pcid }
    {
        numbers::number::<2>(self.bytes, 3)
    }

    // The PCID; 0 where the kind has none.
    pub fn pcid(self) -> u64
        ensures { result ≡ (mapping self.entry.bytes.now).pcid }
    {
        self.unless_guest_physical(self.pcid_bytes())
    }

    // The global mark; 0 where the kind has none.
    fn global(self) -> u64
        ensures { result ≡ (mapping self.entry.bytes.now).global }
    {
        if kinds::is_global_marked(self.kind()) {
            numbers::number::<1>(self.bytes, 5)
        } else {
            0
        }
    }

    // The EP4TA; 0 where the kind has none. The bytes are read in any case, so that no branch is
    // taken on the kind.
    pub fn ep4ta(self) -> u64
        ensures { result ≡ (mapping self.entry.bytes.now).ep4ta }
    {
        let place = kinds::place_of_ep4ta(self.kind());
        let number = numbers::number::<5>(self.bytes, place);
        if place == 0 { 0 } else { number }
    }

    // The record is a global translation: its kind carries a global mark, and the mark is 1.
    pub fn is_global_translation(self) -> bool
        ensures { result ≡ global_translation (mapping self.entry.bytes.now) }
    {
        let kind = self.kind();
        kinds::is_global_marked(kind) & (numbers::number::<1>(self.bytes, 5) == 1)
    }

    // The record covers a page.
    pub fn is_covering(self, p: u64) -> bool
        ensures { result ≡ covers (mapping self.entry.bytes.now).span (mapping self.entry.bytes.now).page p }
    {
        let span = self.span();
        let page = self.page();
        addresses::is_covered(span, page, p)
    }

    // The mapping that the record says.
    pub fn mapping(self) -> Mapping
        ensures { result ≡ mapping self.entry.bytes.now }
    {
        Mapping {
            kind: self.kind(),
            vpid: self.vpid(),
            pcid: self.pcid(),
            global: self.global(),
            span: self.span(),
            page: self.page(),
            frame: self.frame(),
            ep4ta: self.ep4ta(),
        }
    }
}
