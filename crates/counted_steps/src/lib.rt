// The step beside a tally: document 02, Ask 7. It is the step that users call.
#![tactic(auto)]

ghost use Rattle.std.specs.Prelude.{◌≡◌, true, [], ◌∷◌, ◌++◌, length};
ghost use Rattle.model.specs.Events.{event};
ghost use Rattle.model.specs.Answers.{first, valid_here, table_grounds};
ghost use Rattle.model.specs.Refusals.{refusal_number, refusal_rule};
ghost use Rattle.counted_steps.specs.Steps.{Shows, counted_refusal, counted_stepped, counted_pcids, counted_written};

use model::{Context, Event, Refusal, Step};
use tally_rows::KindCounts;

// What a step beside a tally reports, and the counts by kind and span after it.
#[derive(Clone, Copy)]
pub struct CountedStep {
    pub step: Step,
    pub kinds: [KindCounts; 6],
}

// What the old table of a step shows beside its tally: how many records it has, and their counts by kind and span.
// Kept: the counts are an array of a fixed length, since the library takes no heap.
#[derive(Clone, Copy)]
pub struct Shown {
    pub records: usize,
    pub cells: [u16; 30],
}

// Judges a context, a table beside its tally and a valid event, with a new buffer of so many bytes: every answer but 4.
pub fn judge(
    c: Context,
    e: Event,
    kinds: [KindCounts; 6],
    pcids: &[u16],
    table: &[u8],
    raw: &[u8],
    room: usize,
) -> Result<Shown, Refusal>
    requires raw_value { valid_here c raw.now ≡ true }
    requires e_value { e ≡ event raw.now }
    ensures { Shows c kinds pcids.now table.now raw.now room result }
{
    if !contexts::is_in_range(c) {
        return Err(Refusal::ContextOutOfRange);
    }
    let judged = tables::judge_counted(c.linear_width, table, kinds, pcids)?;
    if !judged.matching {
        return Err(Refusal::WrongTally);
    }
    steps::check_event(c, e, table, raw, room)?;
    let cells = judged.cells;
    Ok(Shown {
        records: judged.records,
        cells,
    })
}

// Why an event that is not valid is refused: 1 to 3, of the context and the table, else 4.
pub fn refuse_invalid(c: Context, table: &[u8]) -> Refusal
    ensures { refusal_number result ≡ first (table_grounds c table.now ++ ((4, true) ∷ [])) }
{
    match tables::judge_in(c, table) {
        Ok(_) => Refusal::EventNotValid,
        Err(why) => why,
    }
}

// Performs an event that is accepted: writes the new table, and counts it.
pub fn perform(
    c: Context,
    e: Event,
    kinds: [KindCounts; 6],
    pcids: &mut [u16],
    table: &[u8],
    raw: &[u8],
    shown: Shown,
    new: &mut [u8],
) -> CountedStep
    requires e_value { e ≡ event raw.now }
    requires shows { Shows c kinds pcids.old table.now raw.now (length new.old) (Ok shown) }
    ensures value { result ≡ counted_stepped c kinds pcids.old table.now raw.now (length new.old) }
    ensures pcids_after { pcids.new ≡ counted_pcids c kinds pcids.old table.now raw.now (length new.old) }
    ensures after { new.new ≡ counted_written c kinds pcids.old table.now raw.now new.old }
{
    let mut cells = shown.cells;
    let performed = steps::perform(
        c,
        e,
        table,
        shown.records,
        raw,
        true,
        &mut cells,
        pcids,
        new,
    );
    CountedStep {
        step: steps::accepted(c, e, performed),
        kinds: tally_rows::update(kinds, &cells),
    }
}

// What a refused step reports, with the counts as they came.
fn refused(why: Refusal, context: Context, kinds: [KindCounts; 6]) -> CountedStep
    ensures { result ≡ counted_refusal (refusal_number why) (refusal_rule why) context kinds }
{
    CountedStep {
        step: steps::refused(why, context),
        kinds,
    }
}

// One event on a context and a table beside a tally. A tally that does not have the counts of the table is refused
// with 13, after 4 and before 5; else all is as of the plain step, and the counts are those of the new table. A refusal
// writes nothing and leaves the tally as it came, right or wrong.
pub fn counted_step(
    c: Context,
    kinds: [KindCounts; 6],
    pcids: &mut [u16],
    table: &[u8],
    event: &[u8],
    new: &mut [u8],
) -> CountedStep
    ensures value { result ≡ counted_stepped c kinds pcids.old table.now event.now (length new.old) }
    ensures pcids_after { pcids.new ≡ counted_pcids c kinds pcids.old table.now event.now (length new.old) }
    ensures after { new.new ≡ counted_written c kinds pcids.old table.now event.now new.old }
{
    let Some(e) = events::read_event(c.linear_width, event) else {
        return refused(refuse_invalid(c, table), c, kinds);
    };
    match judge(c, e, kinds, pcids, table, event, new.len()) {
        Ok(shown) => perform(c, e, kinds, pcids, table, event, shown, new),
        Err(why) => refused(why, c, kinds),
    }
}
