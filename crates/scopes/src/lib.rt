// The required scope of each event: whether it has one, and what it asks of a record.
#![tactic(auto)]

ghost use Rattle.std.specs.Prelude.{cond, ◌≡◌, eqb, leb};
ghost use Rattle.model.specs.Mappings.{mapping};
ghost use Rattle.model.specs.Scopes.{vpid_named, no_tests, invvpid_tests, invept_tests, invlpg_tests, violation_tests, transition_tests, pcid_named, invpcid_tests, mov_to_cr3_tests, asked, has_scope};
ghost use Rattle.model.specs.Reasons.{reason};
ghost use Rattle.queries.specs.Queries.{any, only, all_but, Meets};
ghost use Rattle.scopes.specs.Tags.{tags_of_ept};

use mappings::Record;
use model::{Context, Ept, Event, Operands, Reason, Violation};
use queries::{Further, Pages, Query, Tags};

// Nothing is asked of a record.
#[tactic(auto, using(crate::proofs::Laws::Queries::meets_nothing))]
fn no_query() -> Query
    ensures { Meets (λ m. no_tests) result }
{
    Query {
        kinds: kinds::ALL,
        vpid: Tags::any(),
        further: None,
    }
}

// The VPIDs that an INVVPID touches: every one but 0 with type 2, else the named one.
fn vpids_named(o: Operands) -> Tags
    ensures { result ≡ cond (eqb o.type_number 2) (all_but 0) (only (vpid_named o)) }
{
    if o.type_number == 2 {
        return Tags::all_but(0);
    }
    Tags::only(o.low % model::VPIDS)
}

// What an INVVPID asks: types 0 and 3 more than the VPID.
#[tactic(auto, using(crate::proofs::Laws::Queries::meets_invvpid_page, crate::proofs::Laws::Queries::meets_invvpid, crate::proofs::Laws::Queries::meets_invvpid_sparing))]
fn invvpid_query(c: Context, o: Operands) -> Query
    ensures { Meets (invvpid_tests c o) result }
{
    let further = match o.type_number {
        0 => Some(Further {
            page: Some(Pages {
                physical: 0,
                linear: addresses::page(c.linear_width, o.high),
                structures: true,
            }),
            ..Further::nothing()
        }),
        1 | 2 => None,
        _ => Some(Further {
            sparing: true,
            ..Further::nothing()
        }),
    };
    Query {
        kinds: kinds::WITH_VPID,
        vpid: vpids_named(o),
        further,
    }
}

// What an INVEPT asks: type 1 the EP4TA of the EPTP.
#[tactic(auto, using(crate::proofs::Laws::Queries::meets_invept_one, crate::proofs::Laws::Queries::meets_invept))]
fn invept_query(o: Operands) -> Query
    ensures { Meets (invept_tests o) result }
{
    let further = if o.type_number == 1 {
        Some(Further {
            ep4ta: Tags::only(addresses::ep4ta(o.low)),
            ..Further::nothing()
        })
    } else {
        None
    };
    Query {
        kinds: kinds::WITH_EP4TA,
        vpid: Tags::any(),
        further,
    }
}

// What an INVLPG at a canonical address asks.
#[tactic(auto, using(crate::proofs::Laws::Queries::meets_invlpg))]
fn invlpg_query(c: Context, address: u64) -> Query
    ensures { Meets (invlpg_tests c address) result }
{
    Query {
        kinds: kinds::WITH_VPID,
        vpid: Tags::only(contexts::vpid(c.place)),
        further: Some(Further {
            pcid: Tags::only(c.pcid),
            global: true,
            page: Some(Pages {
                physical: 0,
                linear: addresses::page(c.linear_width, address),
                structures: false,
            }),
            ..Further::nothing()
        }),
    }
}

// The EP4TA in use, and none while EPT is off.
fn current_ep4tas(ept: Ept) -> Tags
    ensures { result ≡ tags_of_ept ept }
{
    match ept {
        Ept::Off => Tags::none(),
        Ept::On(ep4ta) => Tags::only(ep4ta),
    }
}

// The kinds that an EPT violation touches: combined mappings with linear flag 1 alone.
fn kinds_of_violation(v: Violation) -> u64
    ensures { result ≡ cond (eqb v.flag 1) 0x56C 0x24 }
{
    if v.flag == 1 {
        kinds::WITH_EP4TA
    } else {
        kinds::GUEST_PHYSICAL
    }
}

// What an EPT violation asks.
#[tactic(auto, using(crate::proofs::Laws::Queries::meets_violation))]
fn violation_query(c: Context, v: Violation) -> Query
    ensures { Meets (violation_tests c v) result }
{
    Query {
        kinds: kinds_of_violation(v),
        vpid: Tags::only(contexts::vpid(c.place)),
        further: Some(Further {
            pcid: Tags::only(c.pcid),
            ep4ta: current_ep4tas(contexts::ept(c.place)),
            page: Some(Pages {
                physical: addresses::guest_physical_page(v.physical),
                linear: addresses::page(c.linear_width, v.linear),
                structures: true,
            }),
            ..Further::nothing()
        }),
    }
}

// What a VM entry or VM exit without VPIDs asks.
#[tactic(auto, using(crate::proofs::Laws::Queries::meets_transition))]
fn transition_query() -> Query
    ensures { Meets transition_tests result }
{
    Query {
        kinds: kinds::WITH_VPID,
        vpid: Tags::only(0),
        further: None,
    }
}

// The PCIDs that an INVPCID touches: the named one with types 0 and 1, else any.
fn pcids_named(o: Operands) -> Tags
    ensures { result ≡ cond (leb o.type_number 1) (only (pcid_named o)) any }
{
    if o.type_number <= 1 {
        return Tags::only(o.low % model::PCIDS);
    }
    Tags::any()
}

// What an INVPCID asks.
#[tactic(auto, using(crate::proofs::Laws::Queries::meets_invpcid_page, crate::proofs::Laws::Queries::meets_invpcid_no_page))]
fn invpcid_query(c: Context, o: Operands) -> Query
    ensures { Meets (invpcid_tests c o) result }
{
    let page = if o.type_number == 0 {
        Some(Pages {
            physical: 0,
            linear: addresses::page(c.linear_width, o.high),
            structures: true,
        })
    } else {
        None
    };
    Query {
        kinds: kinds::WITH_VPID,
        vpid: Tags::only(contexts::vpid(c.place)),
        further: Some(Further {
            pcid: pcids_named(o),
            page,
            sparing: o.type_number != 2,
            ..Further::nothing()
        }),
    }
}

// What a MOV to CR3 without bit 63 asks.
#[tactic(auto, using(crate::proofs::Laws::Queries::meets_mov_to_cr3))]
fn mov_to_cr3_query(c: Context, new: u64) -> Query
    ensures { Meets (mov_to_cr3_tests c new) result }
{
    Query {
        kinds: kinds::WITH_VPID,
        vpid: Tags::only(contexts::vpid(c.place)),
        further: Some(Further {
            pcid: Tags::only(new),
            sparing: true,
            ..Further::nothing()
        }),
    }
}

// The event has a scope.
fn is_scoped(c: Context, e: Event) -> bool
    ensures { result ≡ (asked c e).scoped }
{
    match e {
        Event::Creation(_) | Event::Vmxon | Event::Vmxoff | Event::NewPcid(_) => false,
        Event::Entry(n) => n.vpids != 1,
        Event::Exit(_) => contexts::vpid(c.place) == 0,
        _ => true,
    }
}

// Its address is canonical, which INVLPG alone asks.
fn is_addressed(c: Context, e: Event) -> bool
    ensures { result ≡ (asked c e).addressed }
{
    match e {
        Event::Invlpg(address) => addresses::is_canonical(c.linear_width, address),
        _ => true,
    }
}

// Some record may be in the required scope of the event, judged in the context. Where none may, no table
// loses a record.
#[tactic(auto, unfolding(model::specs::Scopes::has_scope))]
pub fn has_scope(c: Context, e: Event) -> bool
    ensures { result ≡ has_scope c e }
{
    is_scoped(c, e) & is_addressed(c, e)
}

// What an event with a scope asks of each record, judged in the context.
pub fn query(c: Context, e: Event) -> Query
    ensures { Meets (asked c e).tests result }
{
    match e {
        Event::Invvpid(o) => invvpid_query(c, o),
        Event::Invept(o) => invept_query(o),
        Event::Invlpg(address) => invlpg_query(c, address),
        Event::EptViolation(v) => violation_query(c, v),
        Event::Entry(_) | Event::Exit(_) => transition_query(),
        Event::Invpcid(o) => invpcid_query(c, o),
        Event::MovToCr3(pcid) => mov_to_cr3_query(c, pcid),
        _ => no_query(),
    }
}

// Why the record is in the required scope of the event or out of it, judged in the context.
#[tactic(auto, using(crate::proofs::Laws::Queries::first_failed_asked), unfolding(model::specs::Reasons::reason))]
pub fn reason(c: Context, e: Event, part: Record) -> Reason
    ensures { result ≡ reason c e (mapping part.entry.bytes.now) }
{
    if !is_scoped(c, e) {
        return Reason::NoScope;
    }
    if !is_addressed(c, e) {
        return Reason::NotCanonical;
    }
    query(c, e).first_failed(part)
}
