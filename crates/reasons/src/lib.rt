// Why an event drops a mapping or leaves it: document 02, Ask 1.
#![tactic(auto)]

ghost use Rattle.std.specs.Prelude.{◌≡◌};
ghost use Rattle.model.specs.Reasons.{explained, explanation, reason_number, explanation_number, explanation_answer, explanation_rule};
ghost use Rattle.reasons.specs.Told.{told};

use mappings::Record;
use model::{Context, Reason, Refusal};

// An explanation in the papers' numbers: a refusal has its answer and the rule of the EPTP that goes with it.
// Kept: `answer` and `rule` promise of any two numbers.
#[derive(Clone, Copy)]
pub enum Explanation {
    Refused(u64, u64),
    Accepted(Reason),
}

impl From<Result<Reason, Refusal>> for Explanation {
    ghost from_gives = { λ x r. told r ≡ explained x };

    fn from(x: Result<Reason, Refusal>) -> Explanation {
        match x {
            Ok(reason) => Explanation::Accepted(reason),
            Err(why) => Explanation::Refused(why.number(), why.rule()),
        }
    }
}

// Why the event drops the record in the bytes or leaves it, judged in the context. The step's refusal goes
// first; bytes that are not exactly one valid record are refused with 3.
pub fn explain(c: Context, bytes: &[u8], event: &[u8]) -> Result<Reason, Refusal>
    ensures { explained result ≡ explanation c bytes.now event.now }
{
    if !contexts::is_in_range(c) {
        return Err(Refusal::ContextOutOfRange);
    }
    if !tables::is_one_record(c.linear_width, bytes) {
        return Err(Refusal::TableNotValid);
    }
    let e = events::read_event(c.linear_width, event).ok_or(Refusal::EventNotValid)?;
    answers::check_event(c, e)?;
    Ok(scopes::reason(c, e, Record { bytes }))
}

// The number of a reason, from 2 in the order in which they are asked.
fn reason_number(r: Reason) -> u64
    ensures { result ≡ reason_number r }
{
    match r {
        Reason::NoScope => 2,
        Reason::NotCanonical => 3,
        Reason::WrongKind => 4,
        Reason::WrongVpid => 5,
        Reason::WrongPcid => 6,
        Reason::WrongEp4ta => 7,
        Reason::NotCovering => 8,
        Reason::SparedAsGlobal => 9,
        Reason::InScope => 10,
    }
}

// The number of an explanation: 1 of a refusal, else that of its reason.
pub fn number(x: Explanation) -> u64
    ensures { result ≡ explanation_number (told x) }
{
    match x {
        Explanation::Refused(_, _) => 1,
        Explanation::Accepted(r) => reason_number(r),
    }
}

// The answer that a refusal carries, and 0 with any reason.
pub fn answer(x: Explanation) -> u64
    ensures { result ≡ explanation_answer (told x) }
{
    match x {
        Explanation::Refused(number, _) => number,
        Explanation::Accepted(_) => 0,
    }
}

// The rule of the EPTP that a refusal carries, and 0 with any reason.
pub fn rule(x: Explanation) -> u64
    ensures { result ≡ explanation_rule (told x) }
{
    match x {
        Explanation::Refused(_, found) => found,
        Explanation::Accepted(_) => 0,
    }
}
