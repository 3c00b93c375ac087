// The step of two tables, a small first-level one before a large second-level one: document 02, Ask 10.
#![tactic(auto)]

ghost use Rattle.std.specs.Prelude.{◌≡◌};
ghost use Rattle.model.specs.Refusals.{refusal_number, refusal_rule};
ghost use Rattle.level_steps.specs.Levels.{handed, level_of, levels_refusal, levels_stepped, pcids_of_first, first_written, pcids_of_second, second_written};

use counted_steps::CountedStep;
use model::{Context, Refusal};
use tally_rows::KindCounts;

// What a step reports of one table: its length and its dropped count, and the counts by kind and span after it.
#[derive(Clone, Copy)]
pub struct Level {
    pub length: usize,
    pub dropped: usize,
    pub kinds: [KindCounts; 6],
}

// What a step of two tables reports: the answer and the rule of the EPTP that goes with it, the context, and each table.
// Kept: the answer is a number, which the theorems of `level_runs` name.
#[derive(Clone, Copy)]
pub struct LevelStep {
    pub answer: u64,
    pub rule: u64,
    pub context: Context,
    pub first: Level,
    pub second: Level,
}

// What the step of one table tells of it.
fn level_of(s: CountedStep) -> Level
    ensures { result ≡ level_of s }
{
    let kinds = s.kinds;
    Level {
        length: s.step.length,
        dropped: s.step.dropped,
        kinds,
    }
}

// What a refused step reports, with the counts as they came.
fn refused(
    why: Refusal,
    context: Context,
    kinds: [KindCounts; 6],
    second_kinds: [KindCounts; 6],
) -> LevelStep
    ensures { result ≡ levels_refusal (refusal_number why) (refusal_rule why) context kinds second_kinds }
{
    LevelStep {
        answer: why.number(),
        rule: why.rule(),
        context,
        first: Level {
            length: 0,
            dropped: 0,
            kinds,
        },
        second: Level {
            length: 0,
            dropped: 0,
            kinds: second_kinds,
        },
    }
}

// One event on a context and two tables, each beside its own tally, each into its own buffer. The answer is that of the
// first table's step, or of the second's where that is 0. Where either is refused, nothing is written, the context and both
// tallies stay, and 0 and 0 are reported of both. A creation goes into both.
pub fn step(
    c: Context,
    event: &[u8],
    kinds: [KindCounts; 6],
    pcids: &mut [u16],
    table: &[u8],
    new: &mut [u8],
    second_kinds: [KindCounts; 6],
    second_pcids: &mut [u16],
    second_table: &[u8],
    second_new: &mut [u8],
) -> LevelStep
    ensures value { result ≡ levels_stepped c event.now (handed kinds pcids.old table.now new.old) (handed second_kinds second_pcids.old second_table.now second_new.old) }
    ensures pcids_after { pcids.new ≡ pcids_of_first c event.now (handed kinds pcids.old table.now new.old) (handed second_kinds second_pcids.old second_table.now second_new.old) }
    ensures after { new.new ≡ first_written c event.now (handed kinds pcids.old table.now new.old) (handed second_kinds second_pcids.old second_table.now second_new.old) }
    ensures second_pcids_after { second_pcids.new ≡ pcids_of_second c event.now (handed kinds pcids.old table.now new.old) (handed second_kinds second_pcids.old second_table.now second_new.old) }
    ensures second_new_after { second_new.new ≡ second_written c event.now (handed kinds pcids.old table.now new.old) (handed second_kinds second_pcids.old second_table.now second_new.old) }
{
    let Some(e) = events::read_event(c.linear_width, event) else {
        return refused(
            counted_steps::refuse_invalid(c, table),
            c,
            kinds,
            second_kinds,
        );
    };
    let shown = match counted_steps::judge(c, e, kinds, pcids, table, event, new.len()) {
        Ok(shown) => shown,
        Err(why) => return refused(why, c, kinds, second_kinds),
    };
    let second_shown = match counted_steps::judge(
        c,
        e,
        second_kinds,
        second_pcids,
        second_table,
        event,
        second_new.len(),
    ) {
        Ok(shown) => shown,
        Err(why) => return refused(why, c, kinds, second_kinds),
    };
    let first = counted_steps::perform(c, e, kinds, pcids, table, event, shown, new);
    let second = counted_steps::perform(
        c,
        e,
        second_kinds,
        second_pcids,
        second_table,
        event,
        second_shown,
        second_new,
    );
    LevelStep {
        answer: 0,
        rule: 0,
        context: second.step.context,
        first: level_of(first),
        second: level_of(second),
    }
}
