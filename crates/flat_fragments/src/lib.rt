// Readers and the calls on fragments as flat structs of numbers, for callers in other languages.
#![tactic(auto)]

ghost use Rattle.std.specs.Prelude.{cond, ◌≡◌, eqb, length};
ghost use Rattle.flat_fragments.specs.Flat.{reader_of, flat_reader, as_read, flat_told, taken_as, flat_taken, flat_taken_pcids, flat_taken_written, flat_finished, flat_emptied};

use flat_contexts::FlatContext;
use flat_steps::{FlatKinds, FlatStep};
use fragments::Taken;
use model::{Context, Step};
use readers::Reader;

// A reader as numbers: the number of the last event that was reported; whether fragments are ignored, 0 no and any other
// number yes; how many bytes are held; and the places that hold them.
// Kept: a struct of the C interface.
#[repr(C)]
#[derive(Clone, Copy)]
pub struct FlatReader {
    pub line: u64,
    pub ignoring: u64,
    pub length: u64,
    pub held: [u8; 24],
}

// What a call leaves: the reader, how many bytes of the fragment it took, whether it finished an event (1) or not (0), and
// of this event the step and the counts by kind and span after it.
// Kept: a struct of the C interface.
#[repr(C)]
#[derive(Clone, Copy)]
pub struct FlatTaken {
    pub reader: FlatReader,
    pub taken: usize,
    pub finished: u64,
    pub step: FlatStep,
    pub kinds: FlatKinds,
}

// What a finish call leaves: the reader, whether it reports an event (1) or not (0), and the answer to it.
// Kept: a struct of the C interface.
#[repr(C)]
#[derive(Clone, Copy)]
pub struct FlatFinished {
    pub reader: FlatReader,
    pub finished: u64,
    pub answer: u64,
}

// The reader that the numbers stand for.
impl From<FlatReader> for Reader {
    ghost from_gives = { λ r y. y ≡ reader_of r };

    #[tactic(auto, unfolding(crate::specs::Flat::reader_of))]
    fn from(r: FlatReader) -> Reader {
        let held = r.held;
        Reader {
            line: r.line,
            ignoring: r.ignoring != 0,
            length: r.length as usize,
            held,
        }
    }
}

// A flag as a number: one that stays set keeps its number.
#[tactic(auto, using(std::proofs::lemmas::Bool::Decides::nat_tests))]
fn flag(before: u64, ignoring: bool) -> u64
    ensures { result ≡ cond ignoring (cond (eqb before 0) 1 before) 0 }
{
    if ignoring { before.max(1) } else { 0 }
}

impl FlatReader {
    // A reader after a call on this one, as numbers.
    #[tactic(auto, unfolding(crate::specs::Flat::flat_reader))]
    fn after(self, r: Reader) -> FlatReader
        ensures { result ≡ flat_reader self r }
    {
        let held = r.held;
        FlatReader {
            line: r.line,
            ignoring: flag(self.ignoring, r.ignoring),
            length: r.length as u64,
            held,
        }
    }
}

// The context that the numbers stand for; where they stand for nothing, one that is out of its ranges, CPL 4, so that every
// event is answered 1.
#[tactic(auto, unfolding(crate::specs::Flat::as_read, flat_contexts::specs::Contexts::unflatten))]
fn context_read(c: FlatContext) -> Context
    ensures { result ≡ as_read c }
{
    let context = Context::from(c);
    if c.is_known() {
        context
    } else {
        Context { cpl: 4, ..context }
    }
}

// What is told of a step: numbers 0 and the context as it came, where no event is finished.
#[tactic(auto, unfolding(crate::specs::Flat::flat_told))]
fn flat_told(context: FlatContext, finished: bool, s: Step) -> FlatStep
    ensures { result ≡ flat_told context finished s }
{
    if finished {
        FlatStep::new(context, s)
    } else {
        FlatStep::refused(0, 0, context)
    }
}

// What a call leaves, as numbers.
fn flat_taken(reader: FlatReader, context: FlatContext, taken: Taken) -> FlatTaken
    ensures { result ≡ taken_as reader context taken }
{
    let rows = taken.kinds;
    FlatTaken {
        reader: reader.after(taken.reader),
        taken: taken.taken,
        finished: u64::from(taken.finished),
        step: flat_told(context, taken.finished, taken.step),
        kinds: FlatKinds { rows },
    }
}

// A call with a fragment.
#[tactic(auto, unfolding(crate::specs::Flat::flat_taken, crate::specs::Flat::flat_taken_pcids, crate::specs::Flat::flat_taken_written))]
pub fn take(
    reader: FlatReader,
    context: FlatContext,
    kinds: FlatKinds,
    pcids: &mut [u16],
    table: &[u8],
    fragment: &[u8],
    new: &mut [u8],
) -> FlatTaken
    ensures value { result ≡ flat_taken reader context kinds pcids.old table.now fragment.now (length new.old) }
    ensures pcids_after { pcids.new ≡ flat_taken_pcids reader context kinds pcids.old table.now fragment.now (length new.old) }
    ensures after { new.new ≡ flat_taken_written reader context kinds pcids.old table.now fragment.now new.old }
{
    let taken = fragments::take(
        Reader::from(reader),
        context_read(context),
        kinds.rows,
        pcids,
        table,
        fragment,
        new,
    );
    flat_taken(reader, context, taken)
}

// A finish call.
#[tactic(auto, unfolding(crate::specs::Flat::flat_finished))]
pub fn finish(reader: FlatReader, context: FlatContext, table: &[u8]) -> FlatFinished
    ensures { result ≡ flat_finished reader context table.now }
{
    let finished = fragments::finish(Reader::from(reader), context_read(context), table);
    FlatFinished {
        reader: reader.after(finished.reader),
        finished: u64::from(finished.finished),
        answer: finished.answer,
    }
}

// A reset of the reader.
#[tactic(auto, unfolding(crate::specs::Flat::flat_emptied))]
pub fn reset(reader: FlatReader) -> FlatReader
    ensures { result ≡ flat_emptied reader }
{
    reader.after(fragments::reset(Reader::from(reader)))
}
