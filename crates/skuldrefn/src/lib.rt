// The model for programs in C and Rust: functions on numbers, byte slices and flat structs. A context
// is handed in as numbers; a place or EPT number that stands for nothing is answered 1.
#![tactic(auto)]

ghost use Rattle.std.specs.Prelude.{◌≤◌, ◌≡◌, length};
ghost use Rattle.widening.specs.Widening.{widening, widening_written};
ghost use Rattle.fixed_rows.specs.FixedRows.{exporting, exporting_written, importing, importing_written};
ghost use Rattle.logs.specs.Logs.{told_length};
ghost use Rattle.tables.specs.Counts.{table_pcid_counts};
ghost use Rattle.level_steps.specs.Levels.{handed};
ghost use Rattle.flat_levels.specs.Flat.{flat_levels_step, flat_first_pcids, flat_first_written, flat_second_pcids, flat_second_written, flat_levels_lookup};
ghost use Rattle.skuldrefn.specs.Flat.{flat_step, flat_written, flat_counted_step, flat_counted_pcids, flat_counted_written, flat_counts, no_part, flat_lookup, flat_explanation, flat_judgement, flat_walk, fresh, FlatReplays};
ghost use Rattle.flat_fragments.specs.Flat.{flat_taken, flat_taken_pcids, flat_taken_written, flat_finished, flat_emptied};

use claims::Judgement;
use fixed_rows::Converted;
use flat_contexts::FlatContext;
use flat_fragments::{FlatFinished, FlatReader, FlatTaken};
use flat_levels::{FlatLevelPart, FlatLevelStep};
use flat_steps::{FlatKinds, FlatStep};
use model::{Address, Context, Place};
use reasons::Explanation;
use walks::Ground;
use widening::Widened;

// What a step beside a tally reports.
// Kept: a struct of the C interface.
#[repr(C)]
#[derive(Clone, Copy)]
pub struct FlatCountedStep {
    pub step: FlatStep,
    pub kinds: FlatKinds,
}

// One step beside a tally: the answer and the rule of the EPTP that goes with it, the context, the length of the new
// table, the dropped count, and the counts of the new table; those by PCID are changed in place. A tally that does not
// match the old table, or has not 4,096 counts by PCID, is refused with 13. A refusal writes nothing and hands back the
// context and the counts as they came.
#[tactic(auto, unfolding(crate::specs::Flat::flat_counted_step, crate::specs::Flat::flat_counted_pcids, crate::specs::Flat::flat_counted_written))]
pub fn skuldrefn_step(
    context: FlatContext,
    kinds: FlatKinds,
    pcids: &mut [u16],
    table: &[u8],
    event: &[u8],
    new: &mut [u8],
) -> FlatCountedStep
    ensures value { result ≡ flat_counted_step context kinds pcids.old table.now event.now (length new.old) }
    ensures pcids_after { pcids.new ≡ flat_counted_pcids context kinds pcids.old table.now event.now (length new.old) }
    ensures after { new.new ≡ flat_counted_written context kinds pcids.old table.now event.now new.old }
{
    if !context.is_known() {
        return FlatCountedStep {
            step: FlatStep::refused(1, 0, context),
            kinds,
        };
    }
    let rows = kinds.rows;
    let counted = counted_steps::counted_step(
        Context::from(context),
        rows,
        pcids,
        table,
        event,
        new,
    );
    let after = counted.kinds;
    FlatCountedStep {
        step: FlatStep::new(context, counted.step),
        kinds: FlatKinds { rows: after },
    }
}

// One step without a tally. A refusal writes nothing and hands back the context as it came.
#[tactic(auto, unfolding(crate::specs::Flat::flat_step, crate::specs::Flat::flat_written))]
pub fn skuldrefn_plain_step(
    context: FlatContext,
    table: &[u8],
    event: &[u8],
    new: &mut [u8],
) -> FlatStep
    ensures value { result ≡ flat_step context table.now event.now (length new.old) }
    ensures after { new.new ≡ flat_written context table.now event.now new.old }
{
    if !context.is_known() {
        return FlatStep::refused(1, 0, context);
    }
    FlatStep::new(
        context,
        steps::step(Context::from(context), table, event, new),
    )
}

// A fresh count of a table: the answer, and the counts by kind and span.
// Kept: a struct of the C interface.
#[repr(C)]
#[derive(Clone, Copy)]
pub struct FlatCounts {
    pub answer: u64,
    pub kinds: FlatKinds,
}

// Counts the records of a table at a linear width; any width but 57 is read as 48. The answer is 2 or 3, of the table,
// or 13, where there are not 4,096 counts for the PCIDs, else 0. A refusal leaves these as they are, and the counts by
// kind and span are 0.
#[tactic(auto, unfolding(crate::specs::Flat::flat_counts))]
pub fn skuldrefn_count(linear_width: u64, table: &[u8], pcids: &mut [u16]) -> FlatCounts
    ensures value { result ≡ flat_counts linear_width table.now (length pcids.old) }
    ensures pcids_after { pcids.new ≡ table_pcid_counts linear_width table.now pcids.old }
{
    match tables::count(linear_width, table, pcids) {
        Ok(rows) => FlatCounts {
            answer: 0,
            kinds: FlatKinds { rows },
        },
        Err(why) => FlatCounts {
            answer: why.number(),
            kinds: FlatKinds {
                rows: tally_rows::no_rows(),
            },
        },
    }
}

// A part of a table, with the answer to the lookup. Start and length are 0 where the part is empty.
// Kept: a struct of the C interface.
#[repr(C)]
#[derive(Clone, Copy)]
pub struct FlatPart {
    pub answer: u64,
    pub start: usize,
    pub length: usize,
}

// No part, with an answer.
fn no_part(answer: u64) -> FlatPart
    ensures { result ≡ no_part answer }
{
    FlatPart {
        answer,
        start: 0,
        length: 0,
    }
}

// The lookup of an address.
#[tactic(auto, unfolding(crate::specs::Flat::flat_lookup))]
fn look_up(context: FlatContext, a: Address, table: &[u8], k: u64) -> FlatPart
    ensures { result ≡ flat_lookup context a table.now k }
{
    if !context.is_known() {
        return no_part(1);
    }
    match lookups::find(Context::from(context), a, table, k) {
        Ok(Some(part)) => FlatPart {
            answer: 0,
            start: part.start,
            length: part.end - part.start,
        },
        Ok(None) => no_part(0),
        Err(why) => no_part(why.number()),
    }
}

// The k-th record, from 0, that is usable at a linear address, as a part of the table.
pub fn skuldrefn_lookup_linear(context: FlatContext, table: &[u8], address: u64, k: u64) -> FlatPart
    ensures { result ≡ flat_lookup context (Address.Linear address) table.now k }
{
    look_up(context, Address::Linear(address), table, k)
}

// The k-th record, from 0, that is usable at a guest-physical address, as a part of the table.
pub fn skuldrefn_lookup_guest_physical(
    context: FlatContext,
    table: &[u8],
    address: u64,
    k: u64,
) -> FlatPart
    ensures { result ≡ flat_lookup context (Address.GuestPhysical address) table.now k }
{
    look_up(context, Address::GuestPhysical(address), table, k)
}

// One step of two tables, a first-level one before a second-level one, each beside its tally and into its own buffer. The
// answer is the first table's, or the second's where that is 0. Where either is refused, nothing is written, and the context
// and the counts come back as they came; else a creation goes into both.
pub fn skuldrefn_step_levels(
    context: FlatContext,
    event: &[u8],
    kinds: FlatKinds,
    pcids: &mut [u16],
    table: &[u8],
    new: &mut [u8],
    second_kinds: FlatKinds,
    second_pcids: &mut [u16],
    second_table: &[u8],
    second_new: &mut [u8],
) -> FlatLevelStep
    ensures value { result ≡ flat_levels_step context event.now (handed kinds.rows pcids.old table.now new.old) (handed second_kinds.rows second_pcids.old second_table.now second_new.old) }
    ensures pcids_after { pcids.new ≡ flat_first_pcids context event.now (handed kinds.rows pcids.old table.now new.old) (handed second_kinds.rows second_pcids.old second_table.now second_new.old) }
    ensures after { new.new ≡ flat_first_written context event.now (handed kinds.rows pcids.old table.now new.old) (handed second_kinds.rows second_pcids.old second_table.now second_new.old) }
    ensures second_pcids_after { second_pcids.new ≡ flat_second_pcids context event.now (handed kinds.rows pcids.old table.now new.old) (handed second_kinds.rows second_pcids.old second_table.now second_new.old) }
    ensures second_new_after { second_new.new ≡ flat_second_written context event.now (handed kinds.rows pcids.old table.now new.old) (handed second_kinds.rows second_pcids.old second_table.now second_new.old) }
{
    let rows = kinds.rows;
    let second_rows = second_kinds.rows;
    flat_levels::step(
        context,
        event,
        rows,
        pcids,
        table,
        new,
        second_rows,
        second_pcids,
        second_table,
        second_new,
    )
}

// The first usable translation at a linear address, as a part of the first-level table if that has one, else of the
// second-level one. The part is empty where there is none or either table is refused.
pub fn skuldrefn_lookup_levels(
    context: FlatContext,
    first: &[u8],
    second: &[u8],
    address: u64,
) -> FlatLevelPart
    ensures { result ≡ flat_levels_lookup context address first.now second.now }
{
    flat_levels::look_up(context, first, second, address)
}

// Why an event drops a mapping or leaves it: the reason's number, and the answer of a refused step with the rule of
// the EPTP that goes with it, else 0.
// 1 refused, 2 no scope, 3 not canonical, 4 wrong kind, 5 wrong VPID, 6 wrong PCID, 7 wrong EP4TA,
// 8 not covering, 9 spared as global, 10 in scope.
// Kept: a struct of the C interface.
#[repr(C)]
#[derive(Clone, Copy)]
pub struct FlatReason {
    pub reason: u64,
    pub answer: u64,
    pub rule: u64,
}

// Why the event drops the record in the bytes or leaves it.
#[tactic(auto, unfolding(crate::specs::Flat::flat_explanation))]
pub fn skuldrefn_explain(context: FlatContext, bytes: &[u8], event: &[u8]) -> FlatReason
    ensures { result ≡ flat_explanation context bytes.now event.now }
{
    if !context.is_known() {
        return FlatReason {
            reason: 1,
            answer: 1,
            rule: 0,
        };
    }
    let x = Explanation::from(reasons::explain(Context::from(context), bytes, event));
    FlatReason {
        reason: reasons::number(x),
        answer: reasons::answer(x),
        rule: reasons::rule(x),
    }
}

// Rewrites a stored 48-bit table as a 57-bit one: the answer, 2, 3 or 12, and the length of the new table. A refusal
// writes nothing.
pub fn skuldrefn_widen(table: &[u8], new: &mut [u8]) -> Widened
    ensures value { result ≡ widening table.now (length new.old) }
    ensures after { new.new ≡ widening_written table.now new.old }
{
    widening::widen(table, new)
}

// Writes the rows of a table, 32 bytes for each record: the answer, 1, 2, 3 or 12, row 0, and how long the rows are. A
// refusal writes nothing.
pub fn skuldrefn_export(linear_width: u64, table: &[u8], rows: &mut [u8]) -> Converted
    ensures value { result ≡ exporting linear_width table.now (length rows.old) }
    ensures rows_after { rows.new ≡ exporting_written linear_width table.now rows.old }
{
    fixed_rows::export(linear_width, table, rows)
}

// Writes the table that rows make: the answer, 1, 4 or 12; the number of the first bad row, from 1, where that is the
// ground, else 0; and the length of the table. A refusal writes nothing.
pub fn skuldrefn_import(linear_width: u64, rows: &[u8], table: &mut [u8]) -> Converted
    ensures value { result ≡ importing linear_width rows.now (length table.old) }
    ensures table_after { table.new ≡ importing_written linear_width rows.now table.old }
{
    fixed_rows::import(linear_width, rows, table)
}

// Judges a claimed table after an event: 0, it is an in-order part of what the step leaves; 1, the step is refused, with
// its answer and the rule of the EPTP that goes with it; 2, the claim is malformed; 3, the record at a byte position of
// it cannot be matched.
#[tactic(auto, unfolding(crate::specs::Flat::flat_judgement))]
pub fn skuldrefn_judge(
    context: FlatContext,
    table: &[u8],
    event: &[u8],
    claim: &[u8],
) -> claims::Values
    ensures { result ≡ flat_judgement context table.now event.now claim.now }
{
    if !context.is_known() {
        return claims::Values::from(Judgement::Refused(1, 0));
    }
    claims::Values::from(claims::judge(Context::from(context), table, event, claim))
}

// What a walk answers: how it ended and where, as numbers; how many entries it read; and the kind 3 record, all 0 where it
// met a ground.
// Kept: a struct of the C interface.
#[repr(C)]
#[derive(Clone, Copy)]
pub struct FlatWalk {
    pub ending: walks::Values,
    pub read: u64,
    pub record: [u8; 22],
}

// Walks the guest's tables in an image of memory, through the EPT of an EPTP, for a linear address.
#[tactic(auto, unfolding(crate::specs::Flat::flat_walk))]
pub fn skuldrefn_walk(
    context: FlatContext,
    image: &[u8],
    root: u64,
    eptp: u64,
    vpid: u16,
    address: u64,
) -> FlatWalk
    ensures value { result ≡ flat_walk context image.now root eptp vpid address }
    ensures read_bound { result.read ≤ 24 }
{
    if !context.is_known() {
        return FlatWalk {
            ending: walks::Values::from(Err(Ground::ContextOutOfRange)),
            read: 0,
            record: [0u8; 22],
        };
    }
    let walked = walks::walk(Context::from(context), image, root, eptp, vpid, address);
    let ending = walked.ending;
    let record = walked.record;
    FlatWalk {
        ending: walks::Values::from(ending),
        read: walked.read,
        record,
    }
}

// How many bytes the first event of a log has by its kind, more than the log where the record is cut; 0
// where the kind is unknown at the linear width or there is no byte. Any width but 57 is read as 48.
pub fn skuldrefn_event_length(linear_width: u64, log: &[u8]) -> usize
    ensures { result ≡ told_length linear_width log.now }
{
    logs::length_of_event(linear_width, log)
}

// What a replay leaves: the context, the length of the table in force, whether the first of the two
// buffers holds it (1) or the second (0), and how many rows were written.
// Kept: a struct of the C interface.
#[repr(C)]
#[derive(Clone, Copy)]
pub struct FlatReplayed {
    pub context: FlatContext,
    pub length: usize,
    pub first: u64,
    pub count: usize,
}

// Replays the events of a log from a reset with a capability and two widths, through two buffers, and
// writes a row of 24 bytes for each event, as many as there is room for.
pub fn skuldrefn_replay(
    capability: u64,
    width: u64,
    linear_width: u64,
    log: &[u8],
    first: &mut [u8],
    second: &mut [u8],
    rows: &mut [u8],
) -> FlatReplayed
    ensures { FlatReplays (fresh capability width linear_width) log.now first.old second.old rows.old result first.new second.new rows.new }
{
    let fresh = Context {
        capability,
        width,
        linear_width,
        pcid: 0,
        cpl: 0,
        place: Place::Outside,
    };
    let r = logs::replay(fresh, log, first, second, rows);
    FlatReplayed {
        context: FlatContext::from(r.context),
        length: r.length,
        first: u64::from(r.first),
        count: r.count,
    }
}

// Takes a fragment of a log up to the end of the first event that it finishes, and tells how many bytes it took. The event is
// one step beside the tally, as of skuldrefn_step; the kinds are those of the context's linear width. Where no event is
// finished, finished is 0, the step's numbers are 0, and its context and the counts are as they came. A reader that ignores
// takes the whole fragment and is handed back as it came.
pub fn skuldrefn_take(
    reader: FlatReader,
    context: FlatContext,
    kinds: FlatKinds,
    pcids: &mut [u16],
    table: &[u8],
    fragment: &[u8],
    new: &mut [u8],
) -> FlatTaken
    ensures value { result ≡ flat_taken reader context kinds pcids.old table.now fragment.now (length new.old) }
    ensures pcids_after { pcids.new ≡ flat_taken_pcids reader context kinds pcids.old table.now fragment.now (length new.old) }
    ensures after { new.new ≡ flat_taken_written reader context kinds pcids.old table.now fragment.now new.old }
{
    flat_fragments::take(reader, context, kinds, pcids, table, fragment, new)
}

// Ends a log that came in fragments: bytes that are held are reported as a cut record, with answer 1, 2 or 3, else 4. The
// reader ignores all later fragments and finish calls.
pub fn skuldrefn_finish(reader: FlatReader, context: FlatContext, table: &[u8]) -> FlatFinished
    ensures { result ≡ flat_finished reader context table.now }
{
    flat_fragments::finish(reader, context, table)
}

// A reset of the reader: it holds nothing and does not ignore. The line number stays.
pub fn skuldrefn_reset_reader(reader: FlatReader) -> FlatReader
    ensures { result ≡ flat_emptied reader }
{
    flat_fragments::reset(reader)
}
