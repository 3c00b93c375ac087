// The result of a step, and the counts of a tally, as flat structs of numbers, for callers in other languages.
#![tactic(auto)]

ghost use Rattle.std.specs.Prelude.{◌≡◌};
ghost use Rattle.flat_steps.specs.Steps.{refused, flat_result};

use flat_contexts::FlatContext;
use model::Step;
use tally_rows::KindCounts;

// The counts of a tally by kind and span: a row for each of kinds 1 to 6; kinds 7, 8, 9 and 10 are counted in the rows
// of 1, 3, 4 and 6.
// Kept: a struct of the C interface.
#[repr(C)]
#[derive(Clone, Copy)]
pub struct FlatKinds {
    pub rows: [KindCounts; 6],
}

// What a step reports.
// Kept: a struct of the C interface.
#[repr(C)]
#[derive(Clone, Copy)]
pub struct FlatStep {
    pub answer: u64,
    pub rule: u64,
    pub context: FlatContext,
    pub length: usize,
    pub dropped: usize,
}

impl FlatStep {
    // What a refused step reports: the context as it came, 0 and 0.
    pub fn refused(answer: u64, rule: u64, context: FlatContext) -> FlatStep
        ensures { result ≡ refused answer rule context }
    {
        FlatStep {
            answer,
            rule,
            context,
            length: 0,
            dropped: 0,
        }
    }

    // A step's result, with the context as numbers: as it came where the step is refused.
    #[tactic(auto, using(std::proofs::lemmas::Bool::Decides::nat_tests))]
    pub fn new(context: FlatContext, step: Step) -> FlatStep
        ensures { result ≡ flat_result context step }
    {
        if step.answer != 0 {
            return FlatStep::refused(step.answer, step.rule, context);
        }
        FlatStep {
            answer: 0,
            rule: 0,
            context: FlatContext::from(step.context),
            length: step.length,
            dropped: step.dropped,
        }
    }
}
