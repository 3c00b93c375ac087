// A claimed table after an event, judged: document 02, Ask 8.
#![tactic(auto)]

ghost use Rattle.std.specs.Prelude.{true, ◌≡◌, ◌≤◌, length, drop};
ghost use Rattle.model.specs.Mappings.{mapping};
ghost use Rattle.model.specs.Tables.{whole, records};
ghost use Rattle.model.specs.Scopes.{scope, has_scope};
ghost use Rattle.model.specs.Events.{event};
ghost use Rattle.model.specs.Answers.{valid_here};
ghost use Rattle.model.specs.Steps.{new_table};
ghost use Rattle.claims.specs.Claims.{matched, judgement, judged, judgement_values};
ghost use Rattle.claims.specs.Matching.{Passes, PassesCreation};

use mappings::Record;
use model::{Context, Event, Reason, Refusal};
use records::Records;

// What a claimed table is judged as: accepted; the event is refused, with its answer and the rule of the EPTP that goes
// with it; the claim is malformed; or the byte position of the first claimed record that cannot be matched.
// Kept: a refusal stands by its numbers, as the theorem `Judges` names them.
#[derive(Clone, Copy)]
pub enum Judgement {
    Accepted,
    Refused(u64, u64),
    Malformed,
    Unmatched(usize),
}

// A judgement as numbers: 0 accepted, 1 refused, 2 malformed, 3 unmatched; and the answer, the rule and the position, 0
// where it has none.
// Kept: a struct of the C interface.
#[repr(C)]
#[derive(Clone, Copy)]
pub struct Values {
    pub number: u64,
    pub answer: u64,
    pub rule: u64,
    pub position: usize,
}

// The record is in the scope of the event. `scoped` says whether any record may be, and is worked out once, before all records.
fn is_in_scope(scoped: bool, c: Context, e: Event, part: Record) -> bool
    requires { scoped ≡ has_scope c e }
    ensures { result ≡ scope c e (mapping part.entry.bytes.now) }
{
    if !scoped {
        return false;
    }
    matches!(scopes::reason(c, e, part), Reason::InScope)
}

// How far the claim is matched by the records of a table that are not in the event's scope, in their order: where the
// claim goes on with such a record, that record is matched.
fn pass_left(c: Context, e: Event, table: &[u8], claim: &[u8]) -> usize
    requires table_value { whole table.now ≡ true }
    requires claim_value { whole claim.now ≡ true }
    ensures { Passes (scope c e) table.now claim.now result }
{
    let scoped = scopes::has_scope(c, e);
    let mut reached = 0;
    let records = Records { rest: table };
    for record in records {
        if !is_in_scope(scoped, c, e, record) && claim[reached..].starts_with(record.bytes) {
            reached += record.bytes.len();
        }
    }
    reached
}

// How far the claim is matched from a position on by what an event adds: a creation.
fn pass_creation(c: Context, raw: &[u8], claim: &[u8], at: usize) -> usize
    requires raw_value { valid_here c raw.now ≡ true }
    requires at_in_bounds { at ≤ length claim.now }
    requires claim_value { whole (drop at claim.now) ≡ true }
    ensures { PassesCreation raw.now claim.now at result }
{
    if creations::created_records(raw) == 0 {
        return at;
    }
    if claim[at..].starts_with(raw) {
        return at + raw.len();
    }
    at
}

// Matches the records of a claim with those that an accepted event leaves of a table. The new table is not built.
fn match_claim(c: Context, e: Event, table: &[u8], raw: &[u8], claim: &[u8]) -> Judgement
    requires raw_value { valid_here c raw.now ≡ true }
    requires e_value { e ≡ event raw.now }
    requires table_value { whole table.now ≡ true }
    requires claim_value { whole claim.now ≡ true }
    ensures { result ≡ matched 0 (records claim.now) (records (new_table c table.now raw.now)) }
{
    let reached = pass_creation(c, raw, claim, pass_left(c, e, table, claim));
    if reached == claim.len() {
        return Judgement::Accepted;
    }
    Judgement::Unmatched(reached)
}

// The judgement of a claimed table, or why the event is refused.
fn try_judge(c: Context, table: &[u8], event: &[u8], claim: &[u8]) -> Result<Judgement, Refusal>
    ensures { judged result ≡ judgement c table.now event.now claim.now }
{
    tables::judge_in(c, table)?;
    let Some(e) = events::read_event(c.linear_width, event) else {
        return Err(Refusal::EventNotValid);
    };
    steps::check_event(c, e, table, event, model::TABLE_LIMIT)?;
    if tables::judge(c.linear_width, claim).is_err() {
        return Ok(Judgement::Malformed);
    }
    Ok(match_claim(c, e, table, event, claim))
}

// Judges a claimed table after an event on a context and a table. A model may drop more than it must: the claim is accepted
// if it is an in-order part of what our step leaves. A refused event goes first, and then a claim that is malformed
// anywhere. The cost is one pass over each table for their validity, and one over both to match them.
pub fn judge(c: Context, table: &[u8], event: &[u8], claim: &[u8]) -> Judgement
    ensures { result ≡ judgement c table.now event.now claim.now }
{
    match try_judge(c, table, event, claim) {
        Ok(judgement) => judgement,
        Err(why) => Judgement::Refused(why.number(), why.rule()),
    }
}

// The values of a judgement: a value that it has not is 0.
impl From<Judgement> for Values {
    ghost from_gives = { λ j r. r ≡ judgement_values j };

    fn from(j: Judgement) -> Values {
        let accepted = Values {
            number: 0,
            answer: 0,
            rule: 0,
            position: 0,
        };
        match j {
            Judgement::Accepted => accepted,
            Judgement::Refused(answer, rule) => Values {
                number: 1,
                answer,
                rule,
                ..accepted
            },
            Judgement::Malformed => Values {
                number: 2,
                ..accepted
            },
            Judgement::Unmatched(position) => Values {
                number: 3,
                position,
                ..accepted
            },
        }
    }
}
