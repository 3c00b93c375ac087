// What an event asks of each record of a table, as data that is worked out once, and whether a record passes. Only the
// fields that are asked for are read.
#![tactic(auto)]

ghost use Rattle.std.specs.Prelude.{◌≡◌};
ghost use Rattle.model.specs.Mappings.{mapping};
ghost use Rattle.model.specs.Scopes.{passed};
ghost use Rattle.model.specs.Reasons.{first_failed};
ghost use Rattle.queries.specs.Queries.{touching, any, only, all_but, no_tags, touched, nothing_further, of_pcid, of_ep4ta, covers_asked, at_page, not_spared, further_failed, further_passed, query_tests, guest_physical_of, kinds_where, kinds_with, of_kind_and_vpid, Splits};

use mappings::Record;
use model::Reason;

// The tags that are touched, of VPIDs, PCIDs or EP4TAs: whether one tag is, and whether all others are.
#[derive(Clone, Copy)]
pub struct Tags {
    pub tag: u64,
    pub same: bool,
    pub others: bool,
}

impl Tags {
    // Tags by their parts.
    fn new(tag: u64, same: bool, others: bool) -> Self
        ensures { result ≡ touching tag same others }
    {
        Tags { tag, same, others }
    }

    // Any tag.
    pub fn any() -> Self
        ensures { result ≡ any }
    {
        Tags::new(0, true, true)
    }

    // One tag alone.
    pub fn only(tag: u64) -> Self
        ensures { result ≡ only tag }
    {
        Tags::new(tag, true, false)
    }

    // Any tag but one.
    pub fn all_but(tag: u64) -> Self
        ensures { result ≡ all_but tag }
    {
        Tags::new(tag, false, true)
    }

    // No tag.
    pub fn none() -> Self
        ensures { result ≡ no_tags }
    {
        Tags::new(0, false, false)
    }

    // The tag is touched.
    #[tactic(auto, unfolding(crate::specs::Queries::touched))]
    fn is_touched(self, tag: u64) -> bool
        ensures { result ≡ touched self tag }
    {
        if tag == self.tag {
            self.same
        } else {
            self.others
        }
    }
}

// The guest-physical kinds of a set of kinds.
#[tactic(auto, unfolding(crate::specs::Queries::guest_physical_of))]
fn guest_physical_of(kinds: u64) -> u64
    ensures { result ≡ guest_physical_of kinds }
{
    let translations = if kinds::is_among(kinds, 2) { 4 } else { 0 };
    let structures = if kinds::is_among(kinds, 5) { 32 } else { 0 };
    translations + structures
}

// Those of the kinds that are touched beside a tag that is touched or not: a guest-physical mapping is asked for no VPID
// and no PCID.
#[tactic(auto, unfolding(crate::specs::Queries::kinds_where))]
fn kinds_where(touched: bool, kinds: u64) -> u64
    ensures { result ≡ kinds_where touched kinds }
{
    if touched {
        return kinds;
    }
    guest_physical_of(kinds)
}

// The kinds that are touched beside one VPID, and beside any other; bit k for kind k.
#[derive(Clone, Copy)]
pub struct KindsByVpid {
    pub vpid: u64,
    pub same: u64,
    pub others: u64,
}

impl KindsByVpid {
    // The kinds beside a VPID.
    #[tactic(auto, unfolding(crate::specs::Queries::kinds_with))]
    fn with(self, vpid: u64) -> u64
        ensures { result ≡ kinds_with self vpid }
    {
        if vpid == self.vpid {
            self.same
        } else {
            self.others
        }
    }

    // The record's kind is touched beside its VPID. A table mixes its records: so the two are one test, since
    // a branch for each would be mispredicted.
    #[tactic(auto, using(crate::proofs::Laws::Splitting::kind_below), unfolding(crate::specs::Queries::of_kind_and_vpid))]
    pub fn is_of_kind_and_vpid(self, part: Record) -> bool
        ensures { result ≡ of_kind_and_vpid self part.entry.bytes.now }
    {
        kinds::is_among(self.with(part.vpid_bytes()), part.kind())
    }
}

// The page that has to be covered.
#[derive(Clone, Copy)]
pub struct Pages {
    // of guest-physical mappings, and of others
    pub physical: u64,
    pub linear: u64,
    // whether structure caches too have to cover it
    pub structures: bool,
}

impl Pages {
    // The record covers the page; a structure cache may be asked for none.
    #[tactic(auto, unfolding(crate::specs::Queries::covers_asked))]
    fn is_covered(self, part: Record) -> bool
        ensures { result ≡ covers_asked self (mapping part.entry.bytes.now) }
    {
        let kind = part.kind();
        if !self.structures & kinds::is_structure_cache(kind) {
            return true;
        }
        if kinds::is_guest_physical(kind) {
            return part.is_covering(self.physical);
        }
        part.is_covering(self.linear)
    }
}

// The tests that an event puts to a record whose kind and VPID are touched.
#[derive(Clone, Copy)]
pub struct Further {
    // the PCIDs of linear and combined mappings; with `global` a global translation has any
    pub pcid: Tags,
    pub global: bool,
    pub ep4ta: Tags,
    // the page that has to be covered, if any
    pub page: Option<Pages>,
    // whether global translations are spared
    pub sparing: bool,
}

impl Further {
    // Nothing is asked.
    pub fn nothing() -> Self
        ensures { result ≡ nothing_further }
    {
        Further {
            pcid: Tags::any(),
            global: false,
            ep4ta: Tags::any(),
            page: None,
            sparing: false,
        }
    }

    // The record's PCID is touched; a guest-physical mapping has none to ask for. The kind is asked by a set, since a
    // branch on it would be mispredicted.
    #[tactic(auto, using(crate::proofs::Laws::Splitting::kind_below, crate::proofs::Laws::Splitting::known_kind, crate::proofs::Laws::Splitting::bit_where_all), unfolding(crate::specs::Queries::of_pcid))]
    fn is_of_pcid(self, part: Record) -> bool
        ensures { result ≡ of_pcid self (mapping part.entry.bytes.now) }
    {
        let own = self.pcid.is_touched(part.pcid());
        let kinds = kinds_where(
            own | (self.global & part.is_global_translation()),
            kinds::ALL,
        );
        kinds::is_among(kinds, part.kind())
    }

    // Its EP4TA is touched.
    #[tactic(auto, unfolding(crate::specs::Queries::of_ep4ta))]
    fn is_of_ep4ta(self, part: Record) -> bool
        ensures { result ≡ of_ep4ta self (mapping part.entry.bytes.now) }
    {
        self.ep4ta.is_touched(part.ep4ta())
    }

    // It covers the page, where one is asked for.
    #[tactic(auto, unfolding(crate::specs::Queries::at_page))]
    fn is_at_page(self, part: Record) -> bool
        ensures { result ≡ at_page self (mapping part.entry.bytes.now) }
    {
        match self.page {
            Some(page) => page.is_covered(part),
            None => true,
        }
    }

    // It is not spared as global.
    #[tactic(auto, unfolding(crate::specs::Queries::not_spared))]
    fn is_not_spared(self, part: Record) -> bool
        ensures { result ≡ not_spared self (mapping part.entry.bytes.now) }
    {
        !(self.sparing & part.is_global_translation())
    }

    // The first of these tests that the record fails, or that it passes all.
    #[tactic(auto, unfolding(crate::specs::Queries::further_failed))]
    fn first_failed(self, part: Record) -> Reason
        ensures { result ≡ further_failed self (mapping part.entry.bytes.now) }
    {
        if !self.is_of_pcid(part) {
            return Reason::WrongPcid;
        }
        if !self.is_of_ep4ta(part) {
            return Reason::WrongEp4ta;
        }
        if !self.is_at_page(part) {
            return Reason::NotCovering;
        }
        if !self.is_not_spared(part) {
            return Reason::SparedAsGlobal;
        }
        Reason::InScope
    }

    // The record passes these tests. Where one EP4TA is asked for, most records fail that test: so it comes first.
    #[tactic(auto, unfolding(crate::specs::Queries::further_passed))]
    fn is_passing(self, part: Record) -> bool
        ensures { result ≡ further_passed self (mapping part.entry.bytes.now) }
    {
        self.is_of_ep4ta(part)
            && self.is_of_pcid(part)
            && self.is_at_page(part)
            && self.is_not_spared(part)
    }
}

// The tests that an event puts to a record.
#[derive(Clone, Copy)]
pub struct Query {
    // the kinds that are touched: bit k is set for kind k
    pub kinds: u64,
    // the VPIDs of linear and combined mappings
    pub vpid: Tags,
    // what more is asked, if anything
    pub further: Option<Further>,
}

impl Query {
    // The record's kind is touched.
    #[tactic(auto, using(crate::proofs::Laws::Splitting::kind_below), unfolding(crate::specs::Queries::query_tests))]
    fn is_of_kind(self, part: Record) -> bool
        ensures { result ≡ (query_tests self (mapping part.entry.bytes.now)).kind }
    {
        kinds::is_among(self.kinds, part.kind())
    }

    // Its VPID is touched; a guest-physical mapping has none to ask for.
    #[tactic(auto, unfolding(crate::specs::Queries::query_tests))]
    fn is_of_vpid(self, part: Record) -> bool
        ensures { result ≡ (query_tests self (mapping part.entry.bytes.now)).vpid }
    {
        kinds::is_guest_physical(part.kind()) | self.vpid.is_touched(part.vpid_bytes())
    }

    // The first test that the record fails, or that it passes all.
    #[tactic(auto, unfolding(crate::specs::Queries::query_tests, crate::specs::Queries::further_failed, model::specs::Reasons::first_failed))]
    pub fn first_failed(self, part: Record) -> Reason
        ensures { result ≡ first_failed (query_tests self (mapping part.entry.bytes.now)) }
    {
        if !self.is_of_kind(part) {
            return Reason::WrongKind;
        }
        if !self.is_of_vpid(part) {
            return Reason::WrongVpid;
        }
        match self.further {
            Some(further) => further.first_failed(part),
            None => Reason::InScope,
        }
    }

    // The kinds of the query by VPID, which `is_passing` takes.
    #[tactic(auto, using(crate::proofs::Laws::Splitting::splits))]
    pub fn kinds_by_vpid(self) -> KindsByVpid
        ensures { Splits self result }
    {
        KindsByVpid {
            vpid: self.vpid.tag,
            same: kinds_where(self.vpid.same, self.kinds),
            others: kinds_where(self.vpid.others, self.kinds),
        }
    }

    // The record passes every test. The query's kinds by VPID are worked out once, before all records.
    #[tactic(auto, using(crate::proofs::Laws::Splitting::split), unfolding(crate::specs::Queries::query_tests, crate::specs::Queries::further_passed))]
    pub fn is_passing(self, kinds: KindsByVpid, part: Record) -> bool
        requires { Splits self kinds }
        ensures { result ≡ passed (query_tests self (mapping part.entry.bytes.now)) }
    {
        if !kinds.is_of_kind_and_vpid(part) {
            return false;
        }
        match self.further {
            Some(further) => further.is_passing(part),
            None => true,
        }
    }
}
