// The context: its ranges, and what is current in it.
#![tactic(auto)]

ghost use Rattle.std.specs.Prelude.{◌≡◌};
ghost use Rattle.model.specs.Context.{in_range, ept_in_range, place_in_range, in_guest, current_vpid, current_ept};
ghost use Rattle.model.specs.Scopes.{is_current_ep4ta};

use model::{Context, Ept, Place};

// The EPT state is off, or an EP4TA below 2^40.
fn is_ept_in_range(ept: Ept) -> bool
    ensures { result ≡ ept_in_range ept }
{
    match ept {
        Ept::Off => true,
        Ept::On(ep4ta) => ep4ta < model::EP4TA_LIMIT,
    }
}

// A guest's VPID and EPT state are in their ranges; the other places have no fields.
fn is_place_in_range(place: Place) -> bool
    ensures { result ≡ place_in_range place }
{
    match place {
        Place::Outside | Place::Root => true,
        Place::Guest(guest) => (guest.vpid <= model::VPID_MAX) & is_ept_in_range(guest.ept),
    }
}

// Every field of the context is in its range.
pub fn is_in_range(c: Context) -> bool
    ensures { result ≡ in_range c }
{
    (36 <= c.width)
        & (c.width <= 52)
        & ((c.linear_width == model::NARROW_WIDTH) | (c.linear_width == model::WIDE_WIDTH))
        & (c.pcid <= model::PCID_MAX)
        & (c.cpl <= 3)
        & is_place_in_range(c.place)
}

// The place is a guest.
pub fn is_in_guest(place: Place) -> bool
    ensures { result ≡ in_guest place }
{
    matches!(place, Place::Guest(_))
}

// The current VPID: the guest's, and 0 outside and in root.
pub fn vpid(place: Place) -> u64
    ensures { result ≡ current_vpid place }
{
    match place {
        Place::Outside | Place::Root => 0,
        Place::Guest(guest) => guest.vpid,
    }
}

// The current EPT state: the guest's, and off outside and in root.
pub fn ept(place: Place) -> Ept
    ensures { result ≡ current_ept place }
{
    match place {
        Place::Outside | Place::Root => Ept::Off,
        Place::Guest(guest) => guest.ept,
    }
}

// The EP4TA is the current one; none is while EPT is off.
pub fn is_current_ep4ta(ept: Ept, ep4ta: u64) -> bool
    ensures { result ≡ is_current_ep4ta ept ep4ta }
{
    ept == Ept::On(ep4ta)
}
