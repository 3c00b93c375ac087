// The replay of a log: its events one by one from a reset, the table in one of two buffers.
#![tactic(auto)]

ghost use Rattle.std.specs.Prelude.{◌≡◌, ◌+◌, ◌≤◌, ◌<◌, length};
ghost use Rattle.model.specs.Buffers.{put};
ghost use Rattle.model.specs.Tables.{limit};
ghost use Rattle.logs.specs.Logs.{told_length, event_size};
ghost use Rattle.logs.specs.Replays.{row, Replays, ByTheBook};
ghost use Rattle.logs.specs.Progress.{begun, Ready, Advances};

use model::Context;
use states::State;

// What a replay leaves: the context, the length of the table in force, whether the first of the two
// buffers holds it, and how many lines were reported.
#[derive(Clone, Copy)]
pub struct Replayed {
    pub context: Context,
    pub length: usize,
    pub first: bool,
    pub count: usize,
}

// How far a replay is: the state, the position in the log, and how many events were taken.
#[derive(Clone, Copy)]
pub struct Progress {
    pub state: State,
    pub at: usize,
    pub count: usize,
}

// How far a replay is after an event, and its answer and dropped count.
// Kept: the answer is the number that a row of the replay has.
#[derive(Clone, Copy)]
pub struct Advanced {
    pub progress: Progress,
    pub answer: u64,
    pub dropped: usize,
}

// How many bytes the first event of a log has by its kind, more than the log where the record is cut; 0
// where the kind is unknown at the linear width or there is no byte. Any width but 57 is read as 48.
// Kept: 0 for an unknown kind, as `skuldrefn_event_length` answers in C.
pub fn length_of_event(width: u64, log: &[u8]) -> usize
    ensures { result ≡ told_length width log.now }
{
    let kind = numbers::first_byte(log);
    if kinds::is_of_other_width(width, kind) {
        return 0;
    }
    kinds::length(kind)
}

// How many bytes the first event of a log takes: as many as its kind says, or all that are left where
// the kind is unknown or the record is cut.
fn size_of_event(width: u64, log: &[u8]) -> usize
    ensures { result ≡ event_size width log.now }
{
    let size = log.len();
    let length = length_of_event(width, log);
    if (length == 0) | (size < length) {
        size
    } else {
        length
    }
}

// The start of a replay, from a reset with the capability and widths of a context.
pub fn start(c: Context) -> Progress
    ensures { result ≡ begun c }
{
    let context = next_contexts::reset(c);
    Progress {
        state: State {
            context,
            length: 0,
            records: 0,
            first: true,
        },
        at: 0,
        count: 0,
    }
}

// The next event of a log, read at a linear width, on the table in force.
pub fn advance(width: u64, p: Progress, log: &[u8], first: &mut [u8], second: &mut [u8]) -> Advanced
    requires ready { Ready p log.now first.old second.old }
    requires at_in_bounds { p.at < length log.now }
    ensures { Advances width p log.now first.old second.old result first.new second.new }
{
    let at = p.at;
    let before = p.state;
    let end = at + size_of_event(width, &log[at..]);
    let applied = states::apply(before, &log[at..end], first, second);
    let state = applied.state;
    Advanced {
        progress: Progress {
            state,
            at: end,
            count: p.count + 1,
        },
        answer: applied.answer,
        dropped: applied.dropped,
    }
}

// The bytes of a row.
const ROW: usize = 24;

// Writes a line as the 24 bytes of the buffer at a position.
fn put_row(out: &mut [u8], at: usize, answer: u64, dropped: usize, size: usize)
    requires { at + 24 ≤ length out.old }
    ensures { out.new ≡ put at (row (record { answer = answer; dropped = dropped; length = size })) out.old }
{
    buffers::put_number(out, at, 8, answer);
    buffers::put_number(out, at + 8, 8, dropped as u64);
    buffers::put_number(out, at + 16, 8, size as u64);
}

// Replays the events of a log from a reset, with the capability and widths of a context, through two
// buffers. It writes a row of 24 bytes for each event, and ends after an unknown kind or a cut record, or
// where there is no room for another row.
pub fn replay(
    c: Context,
    log: &[u8],
    first: &mut [u8],
    second: &mut [u8],
    rows: &mut [u8],
) -> Replayed
    ensures replays { Replays c log.now first.old second.old rows.old result first.new second.new rows.new }
    ensures by_the_book { limit ≤ length first.old → limit ≤ length second.old → ByTheBook c log.now rows.old result first.new second.new rows.new }
{
    let width = c.linear_width;
    let most = rows.len() / ROW;
    let mut p = start(c);
    // Kept: the loop carries two buffers, and ends where the log or the room for rows does.
    while (p.at < log.len()) & (p.count < most) {
        let advanced = advance(width, p, log, first, second);
        let at = ROW * p.count;
        p = advanced.progress;
        put_row(rows, at, advanced.answer, advanced.dropped, p.state.length);
    }
    let state = p.state;
    let context = state.context;
    Replayed {
        context,
        length: state.length,
        first: state.first,
        count: p.count,
    }
}
