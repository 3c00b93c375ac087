// The step and the lookup of two levels (document 02, Ask 10) as flat structs of numbers, for callers in other languages.
// A place or EPT number that stands for nothing is answered 1.
#![tactic(auto)]

ghost use Rattle.std.specs.Prelude.{◌≡◌, ◌≤◌, cond, eqb};
ghost use Rattle.flat_contexts.specs.Contexts.{flatten};
ghost use Rattle.level_steps.specs.Levels.{handed};
ghost use Rattle.flat_levels.specs.Flat.{flat_level, flat_levels_refusal, flat_levels_result, flat_levels_step, flat_first_pcids, flat_first_written, flat_second_pcids, flat_second_written, flat_part, flat_levels_lookup};

use flat_contexts::FlatContext;
use level_lookups::FoundInLevels;
use level_steps::{Level, LevelStep};
use lookups::Part;
use model::Context;
use tally_rows::KindCounts;

// What a step reports of one table: its length, its dropped count, and its counts by kind and span.
// Kept: a struct of the C interface.
#[repr(C)]
#[derive(Clone, Copy)]
pub struct FlatLevel {
    pub length: usize,
    pub dropped: usize,
    pub kinds: [KindCounts; 6],
}

// What a step of two tables reports.
// Kept: a struct of the C interface.
#[repr(C)]
#[derive(Clone, Copy)]
pub struct FlatLevelStep {
    pub answer: u64,
    pub rule: u64,
    pub context: FlatContext,
    pub first: FlatLevel,
    pub second: FlatLevel,
}

// The part of a table that a lookup in two tables finds: which table has it, 1 or 2; 0, 0 and 0 where there is none.
// Kept: a struct of the C interface.
#[repr(C)]
#[derive(Clone, Copy)]
pub struct FlatLevelPart {
    pub answer: u64,
    pub level: u64,
    pub start: usize,
    pub length: usize,
}

// What is reported of one table.
fn flat_level(l: Level) -> FlatLevel
    ensures { result ≡ flat_level l }
{
    let kinds = l.kinds;
    FlatLevel {
        length: l.length,
        dropped: l.dropped,
        kinds,
    }
}

// What a step reports where a number stands for nothing: answer 1, with the context and the counts as they came.
fn refused(
    context: FlatContext,
    kinds: [KindCounts; 6],
    second_kinds: [KindCounts; 6],
) -> FlatLevelStep
    ensures { result ≡ flat_levels_refusal context kinds second_kinds }
{
    FlatLevelStep {
        answer: 1,
        rule: 0,
        context,
        first: FlatLevel {
            length: 0,
            dropped: 0,
            kinds,
        },
        second: FlatLevel {
            length: 0,
            dropped: 0,
            kinds: second_kinds,
        },
    }
}

// The context after a step as numbers: as it came where the step is refused.
fn flat_after(context: FlatContext, answer: u64, after: Context) -> FlatContext
    ensures { result ≡ cond (eqb answer 0) (flatten after) context }
{
    if answer != 0 {
        return context;
    }
    FlatContext::from(after)
}

// A step's result, with the context as numbers.
fn flat_result(context: FlatContext, s: LevelStep) -> FlatLevelStep
    ensures { result ≡ flat_levels_result context s }
{
    let after = s.context;
    let first = s.first;
    let second = s.second;
    FlatLevelStep {
        answer: s.answer,
        rule: s.rule,
        context: flat_after(context, s.answer, after),
        first: flat_level(first),
        second: flat_level(second),
    }
}

// One event on a context and two tables, each beside its tally and into its own buffer. Where either table refuses,
// nothing is written, and the context and the counts come back as they came.
#[tactic(auto, unfolding(crate::specs::Flat::flat_levels_step, crate::specs::Flat::flat_first_pcids, crate::specs::Flat::flat_first_written, crate::specs::Flat::flat_second_pcids, crate::specs::Flat::flat_second_written))]
pub fn step(
    context: FlatContext,
    event: &[u8],
    kinds: [KindCounts; 6],
    pcids: &mut [u16],
    table: &[u8],
    new: &mut [u8],
    second_kinds: [KindCounts; 6],
    second_pcids: &mut [u16],
    second_table: &[u8],
    second_new: &mut [u8],
) -> FlatLevelStep
    ensures value { result ≡ flat_levels_step context event.now (handed kinds pcids.old table.now new.old) (handed second_kinds second_pcids.old second_table.now second_new.old) }
    ensures pcids_after { pcids.new ≡ flat_first_pcids context event.now (handed kinds pcids.old table.now new.old) (handed second_kinds second_pcids.old second_table.now second_new.old) }
    ensures after { new.new ≡ flat_first_written context event.now (handed kinds pcids.old table.now new.old) (handed second_kinds second_pcids.old second_table.now second_new.old) }
    ensures second_pcids_after { second_pcids.new ≡ flat_second_pcids context event.now (handed kinds pcids.old table.now new.old) (handed second_kinds second_pcids.old second_table.now second_new.old) }
    ensures second_new_after { second_new.new ≡ flat_second_written context event.now (handed kinds pcids.old table.now new.old) (handed second_kinds second_pcids.old second_table.now second_new.old) }
{
    if !context.is_known() {
        return refused(context, kinds, second_kinds);
    }
    flat_result(
        context,
        level_steps::step(
            Context::from(context),
            event,
            kinds,
            pcids,
            table,
            new,
            second_kinds,
            second_pcids,
            second_table,
            second_new,
        ),
    )
}

// No part, with an answer.
fn no_part(answer: u64) -> FlatLevelPart
    ensures { result ≡ flat_part answer 0 0 0 }
{
    FlatLevelPart {
        answer,
        level: 0,
        start: 0,
        length: 0,
    }
}

// A part of the table of a level.
fn part_of(level: u64, part: Part) -> FlatLevelPart
    requires { part.start ≤ part.end }
    ensures { result ≡ flat_part 0 level part.start part.end }
{
    FlatLevelPart {
        answer: 0,
        level,
        start: part.start,
        length: part.end - part.start,
    }
}

// The first usable translation at a linear address, as a part of the first table if that has one, else of the second.
#[tactic(auto, unfolding(crate::specs::Flat::flat_levels_lookup))]
pub fn look_up(context: FlatContext, first: &[u8], second: &[u8], address: u64) -> FlatLevelPart
    ensures { result ≡ flat_levels_lookup context address first.now second.now }
{
    if !context.is_known() {
        return no_part(1);
    }
    match level_lookups::find(Context::from(context), address, first, second) {
        Ok(Some(FoundInLevels::First(part))) => part_of(1, part),
        Ok(Some(FoundInLevels::Second(part))) => part_of(2, part),
        Ok(None) => no_part(0),
        Err(why) => no_part(why.number()),
    }
}
