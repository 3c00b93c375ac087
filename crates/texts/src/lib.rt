// The text that the replay program prints of a log, piece by piece.
#![tactic(auto)]

ghost use Rattle.std.specs.Prelude.{◌≡◌, ◌≤◌, length};
ghost use Rattle.lines.specs.Text.{line_limit};
ghost use Rattle.logs.specs.Progress.{Ready};
ghost use Rattle.texts.specs.Texts.{Starts, TellsTooLong, TellsLines, Continues};

use lines::Line;
use logs::Progress;
use model::{Context, Place};

// The longest log, and the most bytes of a line.
pub const LOG_LIMIT: usize = 65536;

const LINE_LIMIT: usize = 84;

// How far the replay is after a piece of the text, and the length of the piece.
#[derive(Clone, Copy)]
pub struct Piece {
    pub progress: Progress,
    pub length: usize,
}

// The program's context: capability bits 6, 8, 14, 20, 21, 25, 26, 32 and 40 to 43, N = 52, linear width 48, after a
// reset.
const PROGRAM: Context = Context {
    capability: 0x0F01_0630_4140,
    width: 52,
    linear_width: model::NARROW_WIDTH,
    pcid: 0,
    cpl: 0,
    place: Place::Outside,
};

// The start: what is still to come is all of the text.
pub fn start() -> Progress
    ensures { Starts result }
{
    logs::start(PROGRAM)
}

// Writes `too long` and a line end to the front of the buffer, unless that was done.
#[tactic(auto, using(crate::proofs::Laws::Texts::tells_nothing, crate::proofs::Laws::Texts::tells_too_long))]
fn write_too_long(p: Progress, log: &[u8], out: &mut [u8]) -> Piece
    requires { line_limit ≤ length out.old }
    ensures { TellsTooLong p log.now out.old result out.new }
{
    let progress = Progress { at: log.len(), ..p };
    if log.len() <= p.at {
        return Piece {
            progress,
            length: 0,
        };
    }
    let length = buffers::put(b"too long\n", out, 0);
    Piece { progress, length }
}

// Writes the lines of the next events to the front of the buffer, as many as there are and as there is room
// for, at 84 bytes a line.
#[tactic(auto, using(crate::proofs::Laws::Texts::telling_start))]
fn write_lines(
    p: Progress,
    log: &[u8],
    first: &mut [u8],
    second: &mut [u8],
    out: &mut [u8],
) -> Piece
    requires { Ready p log.now first.old second.old }
    ensures { TellsLines p log.now first.old second.old out.old result first.new second.new out.new }
{
    let mut progress = p;
    let mut length = 0;
    for _ in 0..out.len() / LINE_LIMIT {
        if progress.at >= log.len() {
            break;
        }
        let advanced = logs::advance(model::NARROW_WIDTH, progress, log, first, second);
        progress = advanced.progress;
        let line = Line {
            number: progress.count as u64,
            answer: advanced.answer,
            dropped: advanced.dropped as u64,
            size: progress.state.length as u64,
        };
        length = line.put(out, length);
    }
    Piece { progress, length }
}

// Writes the next piece of the text to the front of the buffer: the lines of the next events, or `too long`.
// The piece is empty exactly if nothing is left of the text.
pub fn write_next(
    p: Progress,
    log: &[u8],
    first: &mut [u8],
    second: &mut [u8],
    out: &mut [u8],
) -> Piece
    requires ready { Ready p log.now first.old second.old }
    requires line_limit_in_bounds { line_limit ≤ length out.old }
    ensures { Continues p log.now first.old second.old out.old result first.new second.new out.new }
{
    if log.len() > LOG_LIMIT {
        write_too_long(p, log, out)
    } else {
        write_lines(p, log, first, second, out)
    }
}
