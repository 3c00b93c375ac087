// A walk of the guest's tables through EPT, and the translation that may be cached: document 02, Ask 13.
#![tactic(auto)]

ghost use Rattle.std.specs.Prelude.{◌≡◌, true, min, ◌+◌, ◌-◌, ◌*◌, ◌≤◌, ◌<◌, ◌^◌, IfOk};
ghost use Rattle.walks.specs.Walks.{memory, index, held, guest_present, ept_present, large, in_page, rounded, reached, ept_from, ept_walk, translation, final_from, through_ept, guest_from, walk_in, combined_record, walk_of, ending_values};

use model::Context;

// Where a ground was met: at which level of the guest's tables (4 to 1, 0 for the final address), at which level of the
// EPT tables (4 to 1, 0 for the guest's own entry or address), and the address that it is about.
#[derive(Clone, Copy, PartialEq, Eq)]
pub struct Spot {
    pub guest_level: u64,
    pub ept_level: u64,
    pub address: u64,
}

// What a walk works out: span, page, frame and global mark of the combined translation.
#[derive(Clone, Copy, PartialEq, Eq)]
pub struct Translation {
    pub span: u64,
    pub page: u64,
    pub frame: u64,
    pub global: u64,
}

// Why a walk gives no translation: the first ground met. A bad EPTP has the rule that it breaks, an absent entry and one
// outside the image their physical address, and TooHigh the guest-physical address of 2^48 or more.
// Kept: the rule is a number, since the values of an ending are promised of any.
#[derive(Clone, Copy, PartialEq, Eq)]
pub enum Ground {
    ContextOutOfRange,
    BadEptp(u64),
    NotCanonical,
    Absent(Spot),
    TooHigh(Spot),
    Outside(Spot),
}

// The ground at which a walk has stopped, and how many entries it has read.
#[derive(Clone, Copy)]
pub struct Stopped {
    pub met: Ground,
    pub read: u64,
}

// A physical address in a page of the span, and how many entries were read up to there.
#[derive(Clone, Copy)]
pub struct Physical {
    pub address: u64,
    pub span: u64,
    pub read: u64,
}

// The translation that a walk has found, and how many entries it has read.
#[derive(Clone, Copy)]
pub struct Found {
    pub translation: Translation,
    pub read: u64,
}

// What a walk answers: how it ends, how many entries it read, at most 24, and the kind 3 record, all 0 where it met a
// ground.
// Kept: the record stands beside the ending, where `WalkCacheable` reads it.
#[derive(Clone, Copy)]
pub struct Outcome {
    pub ending: Result<Translation, Ground>,
    pub read: u64,
    pub record: [u8; 22],
}

// The bytes of a page of 4 KBytes.
const PAGE: u64 = 4096;

// How many entries a table has, and how many frames an entry can name.
const ENTRIES: u64 = 512;

const FRAMES: u64 = 1099511627776;

// Which entry of a table the address takes at a level.
fn index(level: u64, address: u64) -> u64
    requires { level ≤ 4 }
    ensures { (result ≡ index level address) × (result < 512) }
{
    (address >> (9 * level + 3)) % ENTRIES
}

// The address that an entry holds.
fn held(entry: u64) -> u64
    ensures { (result ≡ held entry) × (result < 2 ^ 52) }
{
    PAGE * ((entry >> 12) % FRAMES)
}

// The guest's entry is present.
fn is_guest_present(entry: u64) -> bool
    ensures { result ≡ guest_present entry }
{
    entry % 2 == 1
}

// The EPT entry is present.
fn is_ept_present(entry: u64) -> bool
    ensures { result ≡ ept_present entry }
{
    entry % 8 != 0
}

// The entry of this level is a large page.
fn is_large(level: u64, entry: u64) -> bool
    ensures { result ≡ large level entry }
{
    ((level == 2) | (level == 3)) & ((entry >> 7) % 2 == 1)
}

// The page or frame rounded down to the span.
fn rounded(span: u64, x: u64) -> u64
    requires { span ≤ 2 }
    ensures { result ≡ rounded span x }
{
    let shift = 9 * span;
    x >> shift << shift
}

// A page of a span, 0 for 4 KBytes, 1 for 2 MBytes and 2 for 1 GByte, at a base.
#[derive(Clone, Copy)]
struct Page {
    base: u64,
    span: u64,
    ghost span_small: { span ≤ 2 },
}

impl Page {
    // Where the address lies in the page.
    fn place_of(self, address: u64) -> u64
        ensures { result ≡ in_page self.base self.span address }
    {
        let shift = 12 + 9 * self.span;
        (self.base >> shift << shift) + address % (1 << shift)
    }

    // Where EPT puts the address if it finds this page for it.
    fn reached(self, address: u64, read: u64) -> Physical
        ensures { result ≡ reached self.base self.span address read }
    {
        Physical {
            address: self.place_of(address),
            span: self.span,
            read,
        }
    }
}

// The translation of the address, from a guest page of the span and the physical address.
#[tactic(auto, unfolding(crate::specs::Walks::translation))]
fn combine(address: u64, span: u64, global: u64, physical: Physical) -> Translation
    requires { (span ≤ 2) × (physical.span ≤ 2) }
    ensures { result ≡ translation address span global physical }
{
    let span = span.min(physical.span);
    let page = rounded(span, addresses::page(model::NARROW_WIDTH, address));
    let frame = rounded(span, physical.address / PAGE);
    Translation {
        span,
        page,
        frame,
        global,
    }
}

// What a walk goes by: the image, the physical address of the first EPT table, and the linear address.
#[derive(Clone, Copy)]
struct Walker<'a> {
    image: &'a [u8],
    ept: u64,
    address: u64,
    ghost ept_small: { ept < 2 ^ 52 },
}

impl Walker<'_> {
    // The eight bytes at a physical address lie in the image.
    fn is_inside(self, at: u64) -> bool
        ensures { result ≡ (memory self.entry.image.now).inside at }
    {
        let length = self.image.len() as u64;
        if length < 8 {
            return false;
        }
        at <= length - 8
    }

    // The entry at a physical address.
    fn entry_at(self, at: u64) -> u64
        requires { (memory self.image.now).inside at ≡ true }
        ensures { (result ≡ (memory self.entry.image.now).entry at) × (result < 2 ^ 64) }
    {
        numbers::number::<8>(self.image, at as usize)
    }

    // A guest-physical address goes through EPT, with so many levels left from the table at the base, for the guest's
    // level `guest`.
    #[tactic(auto, using(crate::proofs::Laws::Steps::ept_from_level), unfolding(crate::specs::Walks::ept_from, crate::specs::Walks::ept_entry))]
    fn ept_level(
        self,
        guest: u64,
        address: u64,
        level: u64,
        base: u64,
        read: u64,
    ) -> Result<Physical, Stopped>
        requires { (level ≤ 4) × (base < 2 ^ 52) × (read ≤ 20 + (4 - level)) }
        ensures value { result ≡ ept_from (memory self.entry.image.now) guest address level base read }
        ensures bounds { IfOk result (λ p. (p.read ≤ read + level) × (p.span ≤ 2)) }
    {
        if level == 0 {
            return Ok(Page { base, span: 0 }.reached(address, read));
        }
        let at = base + 8 * index(level, address);
        let spot = Spot {
            guest_level: guest,
            ept_level: level,
            address: at,
        };
        if !self.is_inside(at) {
            return Err(Stopped {
                met: Ground::Outside(spot),
                read,
            });
        }
        let entry = self.entry_at(at);
        if !is_ept_present(entry) {
            return Err(Stopped {
                met: Ground::Absent(spot),
                read: read + 1,
            });
        }
        let base = held(entry);
        if is_large(level, entry) {
            let page = Page {
                base,
                span: level - 1,
            };
            return Ok(page.reached(address, read + 1));
        }
        self.ept_level(guest, address, level - 1, base, read + 1)
    }

    // A guest-physical address through EPT, for the guest's level `guest`.
    #[tactic(auto, unfolding(crate::specs::Walks::ept_walk))]
    fn ept_walk(self, guest: u64, address: u64, read: u64) -> Result<Physical, Stopped>
        requires { read ≤ 20 }
        ensures value { result ≡ ept_walk (memory self.entry.image.now) self.entry.ept guest address read }
        ensures bounds { IfOk result (λ p. (p.read ≤ read + 4) × (p.span ≤ 2)) }
    {
        if address < model::GUEST_PHYSICAL_LIMIT {
            return self.ept_level(guest, address, 4, self.ept, read);
        }
        Err(Stopped {
            met: Ground::TooHigh(Spot {
                guest_level: guest,
                ept_level: 0,
                address,
            }),
            read,
        })
    }

    // The final address goes through EPT: one in a guest's page.
    #[tactic(auto, unfolding(crate::specs::Walks::final_from))]
    fn final_address(self, page: Page, global: u64, read: u64) -> Result<Found, Stopped>
        requires { read ≤ 20 }
        ensures { result ≡ final_from (memory self.entry.image.now) self.entry.ept self.entry.address page.base page.span global read }
    {
        let physical = self.ept_walk(0, page.place_of(self.address), read)?;
        Ok(Found {
            translation: combine(self.address, page.span, global, physical),
            read: physical.read,
        })
    }

    // The guest-level step: which guest-physical address the walk needs, with so many levels left from the table at the
    // base.
    #[cycle(guest_level_through_ept)]
    #[tactic(auto, unfolding(crate::specs::Walks::guest_from))]
    fn guest_level(self, level: u64, base: u64, global: u64, read: u64) -> Result<Found, Stopped>
        requires { (level ≤ 4) × (base + 4096 ≤ 2 ^ 64) × (read + 5 * level ≤ 20) }
        ensures { result ≡ guest_from (memory self.entry.image.now) self.entry.ept self.entry.address level base global read }
    {
        if level == 0 {
            return self.final_address(Page { base, span: 0 }, global, read);
        }
        self.through_ept(level, base + 8 * index(level, self.address), read)
    }

    // The through-EPT step: the guest's entry of this level is read where EPT puts it, and the walk goes on from there
    // with a level less.
    #[cycle(guest_level_through_ept)]
    #[tactic(auto, unfolding(crate::specs::Walks::through_ept, crate::specs::Walks::guest_entry))]
    fn through_ept(self, level: u64, at: u64, read: u64) -> Result<Found, Stopped>
        requires { (1 ≤ level) × (level ≤ 4) × (read + 5 * level ≤ 20) }
        ensures { result ≡ through_ept (guest_from (memory self.entry.image.now) self.entry.ept self.entry.address (level - 1)) (memory self.entry.image.now) self.entry.ept self.entry.address level at read }
    {
        let physical = self.ept_walk(level, at, read)?;
        let spot = Spot {
            guest_level: level,
            ept_level: 0,
            address: physical.address,
        };
        if !self.is_inside(physical.address) {
            return Err(Stopped {
                met: Ground::Outside(spot),
                read: physical.read,
            });
        }
        let entry = self.entry_at(physical.address);
        let count = physical.read + 1;
        if !is_guest_present(entry) {
            return Err(Stopped {
                met: Ground::Absent(spot),
                read: count,
            });
        }
        let base = held(entry);
        let global = (entry >> 8) % 2;
        if is_large(level, entry) {
            let page = Page {
                base,
                span: level - 1,
            };
            return self.final_address(page, global, count);
        }
        self.guest_level(level - 1, base, global, count)
    }
}

// The walk, or the ground that is met before it: the context's, the EPTP's or the address's.
#[tactic(auto, unfolding(crate::specs::Walks::walk_in))]
fn walk_in(
    context: Context,
    image: &[u8],
    root: u64,
    eptp: u64,
    address: u64,
) -> Result<Found, Stopped>
    ensures { result ≡ walk_in (memory image.now) context root eptp address }
{
    if !contexts::is_in_range(context) {
        return Err(Stopped {
            met: Ground::ContextOutOfRange,
            read: 0,
        });
    }
    if let Some(rule) = grounds::eptp_rule(context, eptp) {
        return Err(Stopped {
            met: Ground::BadEptp(model::number_of_rule(Some(rule))),
            read: 0,
        });
    }
    if !addresses::is_canonical(model::NARROW_WIDTH, address) {
        return Err(Stopped {
            met: Ground::NotCanonical,
            read: 0,
        });
    }
    let walker = Walker {
        image,
        ept: PAGE * addresses::ep4ta(eptp),
        address,
    };
    walker.guest_level(4, root / PAGE * PAGE, 0, 0)
}

// The bytes of a kind 3 record.
#[tactic(auto, using(crate::proofs::Laws::Records::combined_record_put))]
fn combined_record(vpid: u64, pcid: u64, ep4ta: u64, t: Translation) -> [u8; 22]
    ensures { result ≡ combined_record vpid pcid ep4ta t }
{
    let mut record = [0u8; 22];
    buffers::put_number(&mut record, 0, 1, 3);
    buffers::put_number(&mut record, 1, 2, vpid);
    buffers::put_number(&mut record, 3, 2, pcid);
    buffers::put_number(&mut record, 5, 1, t.global);
    buffers::put_number(&mut record, 6, 1, t.span);
    buffers::put_number(&mut record, 7, 5, t.page);
    buffers::put_number(&mut record, 12, 5, t.frame);
    buffers::put_number(&mut record, 17, 5, ep4ta);
    record
}

// What the processor may cache of the linear address: the combined translation as a kind 3 record of the VPID, the context's
// PCID and the EPTP's EP4TA; or the first ground met. The image starts at physical address 0, the root is a
// guest-physical address whose bits 11:0 are ignored. No byte past the image is read.
#[tactic(auto, unfolding(crate::specs::Walks::record_of, crate::specs::Walks::walk_of))]
pub fn walk(
    context: Context,
    image: &[u8],
    root: u64,
    eptp: u64,
    vpid: u16,
    address: u64,
) -> Outcome
    ensures value { result ≡ walk_of (memory image.now) context root eptp vpid address }
    ensures read_bound { result.read ≤ 24 }
{
    match walk_in(context, image, root, eptp, address) {
        Ok(Found { translation, read }) => Outcome {
            ending: Ok(translation),
            read,
            record: combined_record(
                u64::from(vpid),
                context.pcid,
                addresses::ep4ta(eptp),
                translation,
            ),
        },
        Err(Stopped { met, read }) => Outcome {
            ending: Err(met),
            read,
            record: [0u8; 22],
        },
    }
}

// An ending as numbers: 0 translated, 1 context out of range, 2 bad EPTP, 3 address not canonical, 4 entry absent, 5
// guest-physical address of 2^48 or more, 6 read outside the image; the rule of a bad EPTP, and where a ground was met, 0
// where it has none.
// Kept: a struct of the C interface.
#[repr(C)]
#[derive(Clone, Copy)]
pub struct Values {
    pub number: u64,
    pub rule: u64,
    pub guest_level: u64,
    pub ept_level: u64,
    pub address: u64,
}

impl From<Result<Translation, Ground>> for Values {
    ghost from_gives = { λ ending values. values ≡ ending_values ending };

    fn from(ending: Result<Translation, Ground>) -> Values {
        let nowhere = Spot {
            guest_level: 0,
            ept_level: 0,
            address: 0,
        };
        let (number, rule, at) = match ending {
            Ok(_) => (0, 0, nowhere),
            Err(Ground::ContextOutOfRange) => (1, 0, nowhere),
            Err(Ground::BadEptp(rule)) => (2, rule, nowhere),
            Err(Ground::NotCanonical) => (3, 0, nowhere),
            Err(Ground::Absent(at)) => (4, 0, at),
            Err(Ground::TooHigh(at)) => (5, 0, at),
            Err(Ground::Outside(at)) => (6, 0, at),
        };
        Values {
            number,
            rule,
            guest_level: at.guest_level,
            ept_level: at.ept_level,
            address: at.address,
        }
    }
}
