// The context and the table in force, the table in one of two buffers, and one event on them.
#![tactic(auto)]

ghost use Rattle.std.specs.Prelude.{true, ◌≡◌, ◌+◌, ◌≤◌, length, take};
ghost use Rattle.model.specs.Buffers.{put};
ghost use Rattle.model.specs.Context.{in_range};
ghost use Rattle.model.specs.Tables.{limit};
ghost use Rattle.model.specs.Events.{event};
ghost use Rattle.model.specs.Answers.{valid_here, created};
ghost use Rattle.model.specs.Steps.{new_table};
ghost use Rattle.model.specs.Refusals.{refusal_number};
ghost use Rattle.states.specs.States.{Holds, HoldsAt, AppliesTo, Applies};
ghost use Rattle.states.specs.Outcomes.{refused, extended, exchanged};

use model::{Context, Event, Refusal};

// The context in force, and the table: the first bytes of one of the two buffers, and how many records they are.
#[derive(Clone, Copy)]
pub struct State {
    pub context: Context,
    pub length: usize,
    pub records: usize,
    pub first: bool,
}

// The state after an event, and its answer and dropped count.
// Kept: the answer is the number that a row of the replay has, as the definition `Applies` says.
#[derive(Clone, Copy)]
pub struct Applied {
    pub state: State,
    pub answer: u64,
    pub dropped: usize,
}

// A refused event leaves the state as it was.
#[tactic(auto, unfolding(crate::specs::Outcomes::refused))]
fn refuse(state: State, why: Refusal) -> Applied
    ensures { result ≡ refused state (refusal_number why) }
{
    Applied {
        state,
        answer: why.number(),
        dropped: 0,
    }
}

// The table stays in its buffer, with a creation after it.
fn extend(state: State, e: Event, raw: &[u8], buffer: &mut [u8]) -> Applied
    requires e_value { e ≡ event raw.now }
    requires raw_in_bounds { state.length + length (created raw.now) ≤ length buffer.old }
    requires records_le_limit { state.records ≤ limit }
    ensures value { result ≡ extended state raw.now }
    ensures buffer_after { buffer.new ≡ put state.length (created raw.now) buffer.old }
{
    let length = creations::add_creation(raw, buffer, state.length);
    Applied {
        state: State {
            context: next_contexts::next_context(state.context, e),
            length,
            records: state.records + creations::created_records(raw),
            ..state
        },
        answer: 0,
        dropped: 0,
    }
}

// The new table goes into the other buffer.
fn exchange(state: State, e: Event, raw: &[u8], front: &[u8], back: &mut [u8]) -> Applied
    requires holds { Holds state front.now }
    requires context_value { in_range state.context ≡ true }
    requires raw_value { valid_here state.context raw.now ≡ true }
    requires e_value { e ≡ event raw.now }
    requires raw_in_bounds { state.length + length (created raw.now) ≤ length back.old }
    ensures value { result ≡ exchanged state (take state.length front.now) raw.now }
    ensures back_after { back.new ≡ put 0 (new_table state.context (take state.length front.now) raw.now) back.old }
{
    let context = state.context;
    let table = &front[..state.length];
    let mut cells = [0u16; 1];
    let mut pcids = [0u16; 1];
    let performed = steps::perform(
        context,
        e,
        table,
        state.records,
        raw,
        false,
        &mut cells,
        &mut pcids,
        back,
    );
    Applied {
        state: State {
            context: next_contexts::next_context(context, e),
            length: performed.length,
            records: (state.records - performed.dropped) + creations::created_records(raw),
            first: !state.first,
        },
        answer: 0,
        dropped: performed.dropped,
    }
}

// One event on the table in the front buffer. The table is not judged again: it is held, and so valid.
fn apply_to(state: State, event: &[u8], front: &mut [u8], back: &mut [u8]) -> Applied
    requires { Holds state front.old }
    ensures { AppliesTo state event.now front.old back.old result front.new back.new }
{
    let context = state.context;
    if !contexts::is_in_range(context) {
        return refuse(state, Refusal::ContextOutOfRange);
    }
    let Some(e) = events::read_event(context.linear_width, event) else {
        return refuse(state, Refusal::EventNotValid);
    };
    if let Err(why) = steps::check_event(context, e, &front[..state.length], event, back.len()) {
        return refuse(state, why);
    }
    let long = (model::TABLE_LIMIT <= front.len()) & (model::TABLE_LIMIT <= back.len());
    if long & !scopes::has_scope(context, e) {
        return extend(state, e, event, front);
    }
    exchange(state, e, event, front, back)
}

// One event on the table in force, whichever buffer holds it.
pub fn apply(state: State, event: &[u8], first: &mut [u8], second: &mut [u8]) -> Applied
    requires { HoldsAt state first.old second.old }
    ensures { Applies state event.now first.old second.old result first.new second.new }
{
    if state.first {
        return apply_to(state, event, first, second);
    }
    apply_to(state, event, second, first)
}
