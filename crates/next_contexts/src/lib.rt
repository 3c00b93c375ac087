// The context after an event.
#![tactic(auto)]

ghost use Rattle.std.specs.Prelude.{◌≡◌};
ghost use Rattle.model.specs.Context.{after_reset};
ghost use Rattle.model.specs.Scopes.{entered, next_context};

use model::{Context, Entry, Ept, Event, GuestPlace, Place};

// The guest place that a VM entry gives. A disabled VPID or EPT field is not looked at.
fn place_entered(n: Entry) -> Place
    ensures { result ≡ entered n }
{
    let vpid = if n.vpids == 1 { n.vpid } else { 0 };
    let ept = if n.ept == 1 {
        Ept::On(addresses::ep4ta(n.eptp))
    } else {
        Ept::Off
    };
    Place::Guest(GuestPlace { vpid, ept })
}

// The context after a reset: outside, PCID 0, CPL 0; capability and both widths stay.
pub fn reset(c: Context) -> Context
    ensures { result ≡ after_reset c }
{
    Context {
        pcid: 0,
        cpl: 0,
        place: Place::Outside,
        ..c
    }
}

// The context after an accepted event.
pub fn next_context(c: Context, e: Event) -> Context
    ensures { result ≡ next_context c e }
{
    match e {
        Event::Entry(n) => Context {
            pcid: n.pcid,
            cpl: n.cpl,
            place: place_entered(n),
            ..c
        },
        Event::Exit(pcid) => Context {
            pcid,
            cpl: 0,
            place: Place::Root,
            ..c
        },
        Event::Vmxon => Context {
            place: Place::Root,
            ..c
        },
        Event::Vmxoff => Context {
            place: Place::Outside,
            ..c
        },
        Event::NewPcid(n) => Context {
            pcid: n.pcid,
            cpl: n.cpl,
            ..c
        },
        Event::MovToCr3(pcid) => Context { pcid, ..c },
        Event::Reset => reset(c),
        Event::Creation(_)
        | Event::Invvpid(_)
        | Event::Invept(_)
        | Event::Invlpg(_)
        | Event::EptViolation(_)
        | Event::Invpcid(_) => c,
    }
}
