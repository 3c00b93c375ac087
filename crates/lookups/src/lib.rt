// The lookup of demand 2: the k-th usable record of a table at an address.
#![tactic(auto)]

ghost use Rattle.std.specs.Prelude.{◌≡◌, length, take, drop, Bool, true, ℕ, ◌+◌, ◌-◌, ◌<◌, ◌≤◌, Some, IfSome, IfOk};
ghost use Rattle.model.specs.Mappings.{mapping};
ghost use Rattle.model.specs.Tables.{whole};
ghost use Rattle.model.specs.declared.Address.TheVariants.{Linear, GuestPhysical};
ghost use Rattle.model.specs.declared.Mapping.{Mapping};
ghost use Rattle.model.specs.Lookups.{usable, lookup_answer, lookup, lookup_start};
ghost use Rattle.lookups.specs.Search.{of_pcid_and_ep4ta, seeks, AsksFor, usable_of, Sets, start_in, end_in, found_start, found_end, Searched};
ghost use Rattle.model.specs.Refusals.{answer_of};

use mappings::Record;
use model::{Address, Context, Ept, Refusal};
use queries::KindsByVpid;

// What a lookup asks of each record. A field that the kind does not have is 0.
#[derive(Clone, Copy)]
pub struct Sought {
    // the kinds that are usable beside the VPID, and beside any other
    kinds: KindsByVpid,
    // the PCID, which a global translation need not have
    pcid: u64,
    ep4ta: u64,
    // the page that is to be covered
    page: u64,
}

impl Sought {
    // The record has the PCID or is global, and has the EP4TA.
    #[tactic(auto, unfolding(crate::specs::Search::of_pcid_and_ep4ta))]
    fn is_of_pcid_and_ep4ta(self, part: Record) -> bool
        ensures { result ≡ of_pcid_and_ep4ta self (mapping part.entry.bytes.now) }
    {
        ((part.pcid() == self.pcid) | part.is_global_translation()) & (part.ep4ta() == self.ep4ta)
    }

    // The record is sought. Most are not for their kind and VPID.
    #[tactic(auto, unfolding(crate::specs::Search::seeks))]
    fn is_met(self, part: Record) -> bool
        ensures { result ≡ seeks self part.entry.bytes.now }
    {
        self.kinds.is_of_kind_and_vpid(part)
            && part.is_covering(self.page)
            && self.is_of_pcid_and_ep4ta(part)
    }
}

// What is asked for a linear address: a linear mapping with EPT off, a combined one of its EP4TA with EPT on, of the kinds
// in two sets, bit k for kind k. No record is usable at an address that is not canonical.
pub fn sought_at_linear(c: Context, address: u64, linear: u64, combined: u64) -> Option<Sought>
    ensures { (wanted : ℕ → Bool) → Sets wanted linear combined → AsksFor (usable_of wanted c (Linear address)) result }
{
    let width = c.linear_width;
    if !addresses::is_canonical(width, address) {
        return None;
    }
    let (kinds, ep4ta) = match contexts::ept(c.place) {
        Ept::Off => (linear, 0),
        Ept::On(ep4ta) => (combined, ep4ta),
    };
    Some(Sought {
        kinds: KindsByVpid {
            vpid: contexts::vpid(c.place),
            same: kinds,
            others: 0,
        },
        pcid: c.pcid,
        ep4ta,
        page: addresses::page(width, address),
    })
}

// What is asked for a guest-physical address: a guest-physical mapping of the EP4TA. No record is usable at an address that
// is too high, and none with EPT off.
#[tactic(auto, using(crate::proofs::Laws::Seeking::seeks_nothing, crate::proofs::Laws::Seeking::too_high, crate::proofs::Laws::Seeking::ept_off))]
fn sought_at_guest_physical(c: Context, address: u64) -> Option<Sought>
    ensures { AsksFor (usable c (GuestPhysical address)) result }
{
    if model::GUEST_PHYSICAL_LIMIT <= address {
        return None;
    }
    match contexts::ept(c.place) {
        Ept::Off => None,
        Ept::On(ep4ta) => Some(Sought {
            kinds: KindsByVpid {
                vpid: 0,
                same: kinds::GUEST_PHYSICAL,
                others: kinds::GUEST_PHYSICAL,
            },
            pcid: 0,
            ep4ta,
            page: addresses::guest_physical_page(address),
        }),
    }
}

// What a lookup at the address asks of each record, if any is usable.
#[tactic(auto, using(crate::proofs::Laws::Seeking::every_set, crate::proofs::Laws::Seeking::every_linear))]
fn sought_at(c: Context, a: Address) -> Option<Sought>
    ensures { AsksFor (usable c a) result }
{
    match a {
        Address::Linear(address) => sought_at_linear(c, address, kinds::LINEAR, kinds::COMBINED),
        Address::GuestPhysical(address) => sought_at_guest_physical(c, address),
    }
}

// Where a record starts and ends in a table.
#[derive(Clone, Copy)]
pub struct Part {
    pub start: usize,
    pub end: usize,
}

// Where the k-th record that is asked for starts and ends, if there is one.
pub fn search(asked: Sought, table: &[u8], k: u64) -> Option<Part>
    requires { whole table.now ≡ true }
    ensures searched { (p : Mapping → Bool) → AsksFor p (Some asked) → Searched p table.now k (start_in result) (end_in result) }
    ensures filled { IfSome result (λ part. part.start < part.end) }
{
    let mut at = 0;
    let mut left = k;
    // Kept: the requirement has the loop yield its part by break (docs/DECISIONS.md, "Forms of document 01").
    loop {
        if table.len() <= at {
            break None;
        }
        let record = Record {
            bytes: &table[at..],
        };
        let end = at + record.length();
        if asked.is_met(record) {
            if left == 0 {
                break Some(Part { start: at, end });
            }
            left -= 1;
        }
        at = end;
    }
}

// Judges a table for a lookup: the refusal is 1, 2 or 3.
#[tactic(auto, unfolding(model::specs::Lookups::lookup_answer))]
pub fn answer_to_lookup(c: Context, table: &[u8]) -> Result<(), Refusal>
    ensures { answer_of result ≡ lookup_answer c table.now }
{
    tables::judge_in(c, table)?;
    Ok(())
}

// Where the k-th usable record at the address starts and ends in the table, if there is one; or the refusal is 1, 2 or 3.
pub fn find(c: Context, a: Address, table: &[u8], k: u64) -> Result<Option<Part>, Refusal>
    ensures answer_value { answer_of result ≡ lookup_answer c table.now }
    ensures start_value { (found_start result ≡ lookup_start c a table.now k) × (found_end result ≡ lookup_start c a table.now k + length (lookup c a table.now k)) }
    ensures part_value { (found_end result ≤ length table.now) × (take (found_end result - found_start result) (drop (found_start result) table.now) ≡ lookup c a table.now k) }
    ensures filled { IfOk result (λ found. IfSome found (λ part. part.start < part.end)) }
{
    answer_to_lookup(c, table)?;
    let Some(asked) = sought_at(c, a) else {
        return Ok(None);
    };
    Ok(search(asked, table, k))
}

// The k-th usable record at the address, from 0, as that very part of the table. The part is empty
// exactly if there is no such record or the table is refused.
pub fn look_up<'a>(c: Context, a: Address, table: &'a [u8], k: u64) -> &'a [u8]
    ensures { (result.now ≡ lookup c a table.now k) × (result.ref_ptr ≡ (table.entry.ref_ptr.0, lookup_start c a table.now k + table.entry.ref_ptr.1)) }
{
    match find(c, a, table, k) {
        Ok(Some(part)) => &table[part.start..part.end],
        _ => &table[..0],
    }
}
