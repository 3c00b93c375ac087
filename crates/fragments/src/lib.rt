// The replay of a log in fragments of any length, cut anywhere: document 02, Ask 3.
#![tactic(auto)]

ghost use Rattle.std.specs.Prelude.{◌≡◌, length};
ghost use Rattle.readers.specs.Readers.{emptied};
ghost use Rattle.fragments.specs.Fragments.{untaken, taken_of, taken_pcids, taken_written, finished_of};

use model::{Context, Step};
use readers::Reader;
use tally_rows::KindCounts;

// What a call leaves: the reader, how many bytes of the fragment it took, whether it finished an event, and of this event
// the step and the counts by kind and span after it. Where it finished none, the step's numbers are 0, and its context and
// the counts are as they came.
// Kept: the theorems of `streams` name `finished` and the step beside it.
#[derive(Clone, Copy)]
pub struct Taken {
    pub reader: Reader,
    pub taken: usize,
    pub finished: bool,
    pub step: Step,
    pub kinds: [KindCounts; 6],
}

// What a finish call leaves: the reader, whether it reports an event, and the answer to it, 0 where there is none.
// Kept: the theorems of `streams` name `finished` and the answer beside it.
#[derive(Clone, Copy)]
pub struct Finished {
    pub reader: Reader,
    pub finished: bool,
    pub answer: u64,
}

// A call that takes bytes and finishes no event.
fn unfinished(reader: Reader, c: Context, kinds: [KindCounts; 6], taken: usize) -> Taken
    ensures { result ≡ untaken reader c kinds taken }
{
    Taken {
        reader,
        taken,
        finished: false,
        step: Step {
            answer: 0,
            rule: 0,
            context: c,
            length: 0,
            dropped: 0,
        },
        kinds,
    }
}

// Takes a fragment up to the end of the first event that it finishes, which is one step beside the tally; the kinds are
// those of the context's linear width, any but 57 read as 48. An unknown kind byte is such an event, and the ignoring
// begins with it, as with an answer 2 or 3. The bytes of an event that the fragment does not finish are held. A reader
// that ignores takes the whole fragment and is handed back as it came.
pub fn take(
    reader: Reader,
    c: Context,
    kinds: [KindCounts; 6],
    pcids: &mut [u16],
    table: &[u8],
    fragment: &[u8],
    new: &mut [u8],
) -> Taken
    ensures value { result ≡ taken_of reader c kinds pcids.old table.now fragment.now (length new.old) }
    ensures pcids_after { pcids.new ≡ taken_pcids reader c kinds pcids.old table.now fragment.now (length new.old) }
    ensures after { new.new ≡ taken_written reader c kinds pcids.old table.now fragment.now new.old }
{
    let width = c.linear_width;
    if reader.is_ignoring(width) {
        return unfinished(reader, c, kinds, fragment.len());
    }
    let all = reader.gather(fragment);
    let bytes = all.bytes;
    let count = all.length;
    let first = readers::first_of(width, &bytes[..count]);
    let size = first.unwrap_or(1);
    if count < size {
        return unfinished(reader.hold(fragment), c, kinds, fragment.len());
    }
    let counted = counted_steps::counted_step(c, kinds, pcids, table, &bytes[..size], new);
    let step = counted.step;
    let rows = counted.kinds;
    let ignoring = first.is_none() | ((step.answer == 2) | (step.answer == 3));
    Taken {
        reader: reader.report(ignoring),
        taken: size - reader.length,
        finished: true,
        step,
        kinds: rows,
    }
}

// Ends a log: bytes that are held are reported as a cut record, with 1, 2 or 3, of the context and the table, else 4, and
// the ignoring begins. A reader that ignores is handed back as it came.
pub fn finish(reader: Reader, c: Context, table: &[u8]) -> Finished
    ensures { result ≡ finished_of reader c table.now }
{
    if reader.is_ignoring(c.linear_width) {
        return Finished {
            reader,
            finished: false,
            answer: 0,
        };
    }
    if reader.length == 0 {
        return Finished {
            reader: reader.end(),
            finished: false,
            answer: 0,
        };
    }
    Finished {
        reader: reader.report(true),
        finished: true,
        answer: counted_steps::refuse_invalid(c, table).number(),
    }
}

// A reset of the reader: it holds nothing and does not ignore. The line number stays.
pub fn reset(reader: Reader) -> Reader
    ensures { result ≡ emptied reader }
{
    reader.reset()
}
