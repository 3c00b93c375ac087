// The step: one event on a context and a table, written into a second buffer.
#![tactic(auto)]

ghost use Rattle.std.specs.Prelude.{◌≡◌, true, ◌+◌, ◌≤◌, length};
ghost use Rattle.model.specs.Buffers.{put};
ghost use Rattle.model.specs.Tables.{records};
ghost use Rattle.model.specs.Events.{event};
ghost use Rattle.model.specs.Answers.{first, valid_here, table_grounds, created, answer, rule_with};
ghost use Rattle.model.specs.Steps.{new_table, dropped_count, refusal, stepped, written};
ghost use Rattle.model.specs.Refusals.{refusal_number, refusal_rule, answer_of, rule_of};
ghost use Rattle.tallies.specs.Tallies.{Tallied, Carries};
ghost use Rattle.steps.specs.Counts.{records_after};
ghost use Rattle.steps.specs.Acceptances.{acceptance, reported};

use model::{Context, Event, Refusal, Step};

// What a refused step reports.
pub fn refused(why: Refusal, context: Context) -> Step
    ensures { result ≡ refusal (refusal_number why) (refusal_rule why) context }
{
    Step {
        answer: why.number(),
        rule: why.rule(),
        context,
        length: 0,
        dropped: 0,
    }
}

// How long a new table is, and how many records were dropped.
// Kept: the length is that of the whole new table, and in `Filtered` that of the records left.
#[derive(Clone, Copy)]
pub struct Performed {
    pub length: usize,
    pub dropped: usize,
}

// Writes the new table of an accepted event: the records out of scope, and a creation at the end. How many records the
// table has is known; where they are counted, those of the new table are after it. The context after the event is left
// to the caller, since it would be copied on its way.
pub fn perform(
    c: Context,
    e: Event,
    table: &[u8],
    count: usize,
    raw: &[u8],
    counting: bool,
    cells: &mut [u16],
    pcids: &mut [u16],
    new: &mut [u8],
) -> Performed
    requires table_value { first (table_grounds c table.now) ≡ 0 }
    requires raw_value { valid_here c raw.now ≡ true }
    requires e_value { e ≡ event raw.now }
    requires count_value { count ≡ length (records table.now) }
    requires raw_in_bounds { length table.now + length (created raw.now) ≤ length new.old }
    requires tallied { counting ≡ true → Tallied (records table.now) cells.old pcids.old }
    ensures length_value { (result.length ≡ length (new_table c table.now raw.now)) × (result.dropped ≡ dropped_count c table.now raw.now) }
    ensures after { new.new ≡ put 0 (new_table c table.now raw.now) new.old }
    ensures carries { Carries counting (records (new_table c table.now raw.now)) cells.old pcids.old cells.new pcids.new }
{
    let filtered = filters::filter_event(c, e, table, count, counting, cells, pcids, new);
    creations::count_creation(raw, counting, cells, pcids);
    let length = creations::add_creation(raw, new, filtered.length);
    Performed {
        length,
        dropped: filtered.dropped,
    }
}

// What the step of an event that was performed reports.
pub fn accepted(c: Context, e: Event, performed: Performed) -> Step
    ensures { result ≡ acceptance c e performed.length performed.dropped }
{
    Step {
        answer: 0,
        rule: 0,
        context: next_contexts::next_context(c, e),
        length: performed.length,
        dropped: performed.dropped,
    }
}

// Refuses a valid event on a context and a table to which answers 1 to 4 do not apply, with a new buffer of so many bytes:
// answers 5 to 12.
pub fn check_event(
    c: Context,
    e: Event,
    table: &[u8],
    raw: &[u8],
    room: usize,
) -> Result<(), Refusal>
    requires table_value { first (table_grounds c table.now) ≡ 0 }
    requires raw_value { valid_here c raw.now ≡ true }
    requires e_value { e ≡ event raw.now }
    ensures answer_value { answer_of result ≡ answer c table.now raw.now room }
    ensures rule_value { rule_of result ≡ rule_with c raw.now (answer_of result) }
{
    answers::check_event(c, e)?;
    if creations::is_without_room(room, table, raw) {
        return Err(Refusal::NoRoom);
    }
    Ok(())
}

// One valid event on a context and a table to which answers 1 to 4 do not apply, and whose number of records is known:
// answers 5 to 12, and what `step` writes. Where the records are counted, those of the table after it are;
// else the counts stay.
pub fn step_read(
    c: Context,
    e: Event,
    table: &[u8],
    count: usize,
    raw: &[u8],
    counting: bool,
    cells: &mut [u16],
    pcids: &mut [u16],
    new: &mut [u8],
) -> Step
    requires table_value { first (table_grounds c table.now) ≡ 0 }
    requires raw_value { valid_here c raw.now ≡ true }
    requires e_value { e ≡ event raw.now }
    requires count_value { count ≡ length (records table.now) }
    requires tallied { counting ≡ true → Tallied (records table.now) cells.old pcids.old }
    ensures value { result ≡ stepped c table.now raw.now (length new.old) }
    ensures after { new.new ≡ written c table.now raw.now new.old }
    ensures carries { Carries counting (records_after c table.now raw.now (length new.old)) cells.old pcids.old cells.new pcids.new }
{
    if let Err(why) = check_event(c, e, table, raw, new.len()) {
        return refused(why, c);
    }
    let performed = perform(c, e, table, count, raw, counting, cells, pcids, new);
    accepted(c, e, performed)
}

// The step, or why it is refused.
fn try_step(c: Context, table: &[u8], event: &[u8], new: &mut [u8]) -> Result<Step, Refusal>
    ensures value { reported c result ≡ stepped c table.now event.now (length new.old) }
    ensures after { new.new ≡ written c table.now event.now new.old }
{
    let count = tables::judge_in(c, table)?;
    let Some(e) = events::read_event(c.linear_width, event) else {
        return Err(Refusal::EventNotValid);
    };
    check_event(c, e, table, event, new.len())?;
    let mut cells = [0u16; 1];
    let mut pcids = [0u16; 1];
    let performed = perform(
        c, e, table, count, event, false, &mut cells, &mut pcids, new,
    );
    Ok(accepted(c, e, performed))
}

// One event on a context and a table. An accepted event's new table is written to the front of the new
// buffer, whose other bytes stay; a refused one writes nothing. The answer is a number of document 01,
// whatever the context, the bytes and the lengths are.
pub fn step(c: Context, table: &[u8], event: &[u8], new: &mut [u8]) -> Step
    ensures value { result ≡ stepped c table.now event.now (length new.old) }
    ensures after { new.new ≡ written c table.now event.now new.old }
{
    match try_step(c, table, event, new) {
        Ok(step) => step,
        Err(why) => refused(why, c),
    }
}
