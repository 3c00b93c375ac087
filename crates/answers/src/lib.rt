// The refusals that a context and an event alone give: 5 to 11. The lowest number that applies is given.
#![tactic(auto)]

ghost use Rattle.std.specs.Prelude.{cond, [], ◌∷◌, ◌≡◌};
ghost use Rattle.model.specs.Context.{outside};
ghost use Rattle.model.specs.Answers.{kind_number, invalid_opcode, exits, general_protection, event_answer, among, own_rule};
ghost use Rattle.model.specs.Refusals.{answer_of, rule_of};

use model::{Context, Event, Place, Refusal};

// The place is outside VMX operation.
fn is_outside(place: Place) -> bool
    ensures { result ≡ outside place }
{
    place == Place::Outside
}

// The kind of an event.
// Kept: the definitions ask its number, and that of a creation may be any.
fn kind_of_event(e: Event) -> u64
    ensures { result ≡ kind_number e }
{
    match e {
        Event::Creation(mapping) => mapping.kind,
        Event::Invvpid(_) => 16,
        Event::Invept(_) => 17,
        Event::Invlpg(_) => 18,
        Event::EptViolation(_) => 19,
        Event::Entry(_) => 20,
        Event::Exit(_) => 21,
        Event::Vmxon => 22,
        Event::Vmxoff => 23,
        Event::NewPcid(_) => 24,
        Event::Reset => 25,
        Event::Invpcid(_) => 26,
        Event::MovToCr3(_) => 27,
    }
}

// 5: the event is an undefined opcode here.
fn is_invalid_opcode(c: Context, e: Event) -> bool
    ensures { result ≡ invalid_opcode c e }
{
    let kind = kind_of_event(e);
    let capability = c.capability;
    let needs_vmx = (kind == 16) | ((kind == 17) | ((kind == 20) | (kind == 23)));
    (needs_vmx & is_outside(c.place))
        | ((kind == 16) & !((capability >> 32) % 2 == 1))
        | ((kind == 17) & !((capability >> 20) % 2 == 1))
}

// 6: the event causes a VM exit here.
fn is_exiting(c: Context, e: Event) -> bool
    ensures { result ≡ exits c e }
{
    let kind = kind_of_event(e);
    ((kind == 16) | ((kind == 17) | ((kind == 20) | ((kind == 22) | (kind == 23)))))
        & contexts::is_in_guest(c.place)
}

// 7: the event is a general-protection fault here.
fn is_general_protection(c: Context, e: Event) -> bool
    ensures { result ≡ general_protection c e }
{
    let kind = kind_of_event(e);
    let privileged = (kind == 16)
        | ((kind == 17)
            | ((kind == 18)
                | ((kind == 20)
                    | ((kind == 22) | ((kind == 23) | ((kind == 26) | (kind == 27)))))));
    privileged & (0 < c.cpl)
}

// Refuses an event with the lowest number of 5 to 11 that applies: behind 5, 6 and 7 a ground of its own. The rule of the
// EPTP goes with 8 and 10 alone.
pub fn check_event(c: Context, e: Event) -> Result<(), Refusal>
    ensures answer { answer_of result ≡ event_answer c e }
    ensures rule { rule_of result ≡ cond (among (event_answer c e) (8 ∷ 10 ∷ [])) (own_rule c e) 0 }
{
    if is_invalid_opcode(c, e) {
        return Err(Refusal::UndefinedOpcode);
    }
    if is_exiting(c, e) {
        return Err(Refusal::VmExit);
    }
    if is_general_protection(c, e) {
        return Err(Refusal::GeneralProtection);
    }
    grounds::check_event(c, e)
}
