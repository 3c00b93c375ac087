// The static library for programs in C and Rust: each function of the library `skuldrefn` under its own name, with the
// clauses that it has there.
#![tactic(auto)]

ghost use Rattle.std.specs.Prelude.{◌≤◌, ◌≡◌, length};
ghost use Rattle.widening.specs.Widening.{widening, widening_written};
ghost use Rattle.fixed_rows.specs.FixedRows.{exporting, exporting_written, importing, importing_written};
ghost use Rattle.logs.specs.Logs.{told_length};
ghost use Rattle.tables.specs.Counts.{table_pcid_counts};
ghost use Rattle.model.specs.declared.Address.{Address};
ghost use Rattle.level_steps.specs.Levels.{handed};
ghost use Rattle.flat_levels.specs.Flat.{flat_levels_step, flat_first_pcids, flat_first_written, flat_second_pcids, flat_second_written, flat_levels_lookup};
ghost use Rattle.skuldrefn.specs.Flat.{flat_step, flat_written, flat_counted_step, flat_counted_pcids, flat_counted_written, flat_counts, flat_lookup, flat_explanation, flat_judgement, flat_walk, fresh, FlatReplays};
ghost use Rattle.flat_fragments.specs.Flat.{flat_taken, flat_taken_pcids, flat_taken_written, flat_finished, flat_emptied};

use fixed_rows::Converted;
use flat_contexts::FlatContext;
use flat_fragments::{FlatFinished, FlatReader, FlatTaken};
use flat_levels::{FlatLevelPart, FlatLevelStep};
use flat_steps::{FlatKinds, FlatStep};
use skuldrefn::{FlatCountedStep, FlatCounts, FlatPart, FlatReason, FlatReplayed, FlatWalk};
use widening::Widened;

#[unsafe(no_mangle)]
pub extern "C" fn skuldrefn_step(
    context: FlatContext,
    kinds: FlatKinds,
    pcids: &mut [u16],
    table: &[u8],
    event: &[u8],
    new: &mut [u8],
) -> FlatCountedStep
    ensures value { result ≡ flat_counted_step context kinds pcids.old table.now event.now (length new.old) }
    ensures pcids_after { pcids.new ≡ flat_counted_pcids context kinds pcids.old table.now event.now (length new.old) }
    ensures after { new.new ≡ flat_counted_written context kinds pcids.old table.now event.now new.old }
{
    skuldrefn::skuldrefn_step(context, kinds, pcids, table, event, new)
}

#[unsafe(no_mangle)]
pub extern "C" fn skuldrefn_plain_step(
    context: FlatContext,
    table: &[u8],
    event: &[u8],
    new: &mut [u8],
) -> FlatStep
    ensures value { result ≡ flat_step context table.now event.now (length new.old) }
    ensures after { new.new ≡ flat_written context table.now event.now new.old }
{
    skuldrefn::skuldrefn_plain_step(context, table, event, new)
}

#[unsafe(no_mangle)]
pub extern "C" fn skuldrefn_count(linear_width: u64, table: &[u8], pcids: &mut [u16]) -> FlatCounts
    ensures value { result ≡ flat_counts linear_width table.now (length pcids.old) }
    ensures pcids_after { pcids.new ≡ table_pcid_counts linear_width table.now pcids.old }
{
    skuldrefn::skuldrefn_count(linear_width, table, pcids)
}

#[unsafe(no_mangle)]
pub extern "C" fn skuldrefn_lookup_linear(
    context: FlatContext,
    table: &[u8],
    address: u64,
    k: u64,
) -> FlatPart
    ensures { result ≡ flat_lookup context (Address.Linear address) table.now k }
{
    skuldrefn::skuldrefn_lookup_linear(context, table, address, k)
}

#[unsafe(no_mangle)]
pub extern "C" fn skuldrefn_lookup_guest_physical(
    context: FlatContext,
    table: &[u8],
    address: u64,
    k: u64,
) -> FlatPart
    ensures { result ≡ flat_lookup context (Address.GuestPhysical address) table.now k }
{
    skuldrefn::skuldrefn_lookup_guest_physical(context, table, address, k)
}

#[unsafe(no_mangle)]
pub extern "C" fn skuldrefn_step_levels(
    context: FlatContext,
    event: &[u8],
    kinds: FlatKinds,
    pcids: &mut [u16],
    table: &[u8],
    new: &mut [u8],
    second_kinds: FlatKinds,
    second_pcids: &mut [u16],
    second_table: &[u8],
    second_new: &mut [u8],
) -> FlatLevelStep
    ensures value { result ≡ flat_levels_step context event.now (handed kinds.rows pcids.old table.now new.old) (handed second_kinds.rows second_pcids.old second_table.now second_new.old) }
    ensures pcids_after { pcids.new ≡ flat_first_pcids context event.now (handed kinds.rows pcids.old table.now new.old) (handed second_kinds.rows second_pcids.old second_table.now second_new.old) }
    ensures after { new.new ≡ flat_first_written context event.now (handed kinds.rows pcids.old table.now new.old) (handed second_kinds.rows second_pcids.old second_table.now second_new.old) }
    ensures second_pcids_after { second_pcids.new ≡ flat_second_pcids context event.now (handed kinds.rows pcids.old table.now new.old) (handed second_kinds.rows second_pcids.old second_table.now second_new.old) }
    ensures second_new_after { second_new.new ≡ flat_second_written context event.now (handed kinds.rows pcids.old table.now new.old) (handed second_kinds.rows second_pcids.old second_table.now second_new.old) }
{
    skuldrefn::skuldrefn_step_levels(
        context,
        event,
        kinds,
        pcids,
        table,
        new,
        second_kinds,
        second_pcids,
        second_table,
        second_new,
    )
}

#[unsafe(no_mangle)]
pub extern "C" fn skuldrefn_lookup_levels(
    context: FlatContext,
    first: &[u8],
    second: &[u8],
    address: u64,
) -> FlatLevelPart
    ensures { result ≡ flat_levels_lookup context address first.now second.now }
{
    skuldrefn::skuldrefn_lookup_levels(context, first, second, address)
}

#[unsafe(no_mangle)]
pub extern "C" fn skuldrefn_explain(context: FlatContext, bytes: &[u8], event: &[u8]) -> FlatReason
    ensures { result ≡ flat_explanation context bytes.now event.now }
{
    skuldrefn::skuldrefn_explain(context, bytes, event)
}

#[unsafe(no_mangle)]
pub extern "C" fn skuldrefn_widen(table: &[u8], new: &mut [u8]) -> Widened
    ensures value { result ≡ widening table.now (length new.old) }
    ensures after { new.new ≡ widening_written table.now new.old }
{
    skuldrefn::skuldrefn_widen(table, new)
}

#[unsafe(no_mangle)]
pub extern "C" fn skuldrefn_export(linear_width: u64, table: &[u8], rows: &mut [u8]) -> Converted
    ensures value { result ≡ exporting linear_width table.now (length rows.old) }
    ensures rows_after { rows.new ≡ exporting_written linear_width table.now rows.old }
{
    skuldrefn::skuldrefn_export(linear_width, table, rows)
}

#[unsafe(no_mangle)]
pub extern "C" fn skuldrefn_import(linear_width: u64, rows: &[u8], table: &mut [u8]) -> Converted
    ensures value { result ≡ importing linear_width rows.now (length table.old) }
    ensures table_after { table.new ≡ importing_written linear_width rows.now table.old }
{
    skuldrefn::skuldrefn_import(linear_width, rows, table)
}

#[unsafe(no_mangle)]
pub extern "C" fn skuldrefn_judge(
    context: FlatContext,
    table: &[u8],
    event: &[u8],
    claim: &[u8],
) -> claims::Values
    ensures { result ≡ flat_judgement context table.now event.now claim.now }
{
    skuldrefn::skuldrefn_judge(context, table, event, claim)
}

#[unsafe(no_mangle)]
pub extern "C" fn skuldrefn_walk(
    context: FlatContext,
    image: &[u8],
    root: u64,
    eptp: u64,
    vpid: u16,
    address: u64,
) -> FlatWalk
    ensures value { result ≡ flat_walk context image.now root eptp vpid address }
    ensures read_bound { result.read ≤ 24 }
{
    skuldrefn::skuldrefn_walk(context, image, root, eptp, vpid, address)
}

#[unsafe(no_mangle)]
pub extern "C" fn skuldrefn_event_length(linear_width: u64, log: &[u8]) -> usize
    ensures { result ≡ told_length linear_width log.now }
{
    skuldrefn::skuldrefn_event_length(linear_width, log)
}

#[unsafe(no_mangle)]
pub extern "C" fn skuldrefn_replay(
    capability: u64,
    width: u64,
    linear_width: u64,
    log: &[u8],
    first: &mut [u8],
    second: &mut [u8],
    rows: &mut [u8],
) -> FlatReplayed
    ensures { FlatReplays (fresh capability width linear_width) log.now first.old second.old rows.old result first.new second.new rows.new }
{
    skuldrefn::skuldrefn_replay(capability, width, linear_width, log, first, second, rows)
}

#[unsafe(no_mangle)]
pub extern "C" fn skuldrefn_take(
    reader: FlatReader,
    context: FlatContext,
    kinds: FlatKinds,
    pcids: &mut [u16],
    table: &[u8],
    fragment: &[u8],
    new: &mut [u8],
) -> FlatTaken
    ensures value { result ≡ flat_taken reader context kinds pcids.old table.now fragment.now (length new.old) }
    ensures pcids_after { pcids.new ≡ flat_taken_pcids reader context kinds pcids.old table.now fragment.now (length new.old) }
    ensures after { new.new ≡ flat_taken_written reader context kinds pcids.old table.now fragment.now new.old }
{
    skuldrefn::skuldrefn_take(reader, context, kinds, pcids, table, fragment, new)
}

#[unsafe(no_mangle)]
pub extern "C" fn skuldrefn_finish(
    reader: FlatReader,
    context: FlatContext,
    table: &[u8],
) -> FlatFinished
    ensures { result ≡ flat_finished reader context table.now }
{
    skuldrefn::skuldrefn_finish(reader, context, table)
}

#[unsafe(no_mangle)]
pub extern "C" fn skuldrefn_reset_reader(reader: FlatReader) -> FlatReader
    ensures { result ≡ flat_emptied reader }
{
    skuldrefn::skuldrefn_reset_reader(reader)
}
