// Replays the log that standard input holds, and writes the text of it (crate texts).
#![tactic(auto)]

ghost use Rattle.std.specs.Prelude.{◌≤◌, length};
ghost use Rattle.lines.specs.Text.{line_limit};

use std::io::ErrorKind;
use std::process::ExitCode;
use std::{fmt, io};

// Writes the text of a log piece by piece, until a piece is empty or a write fails.
fn write_text(
    rt: &impl Print,
    log: &[u8],
    first: &mut [u8],
    second: &mut [u8],
    text: &mut [u8],
) -> io::Result<()>
    requires { line_limit ≤ length text.old }
{
    let mut progress = texts::start();
    // Kept: it goes on until a piece is empty.
    loop {
        let piece = texts::write_next(progress, log, first, second, text);
        if piece.length == 0 {
            return Ok(());
        }
        rt.write_all(&text[..piece.length])?;
        progress = piece.progress;
    }
}

// Why a run ends before its log does.
#[derive(Clone, Copy)]
enum Fault {
    UnknownKind,
    CutRecord,
}

impl fmt::Display for Fault {
    fn fmt<W: fmt::Write>(&self, f: &mut fmt::Formatter<W>) -> fmt::Result {
        match self {
            Fault::UnknownKind => write!(f, "the kind is unknown"),
            Fault::CutRecord => write!(f, "the record is cut"),
        }
    }
}

// Where a run ends before its log does: the number of the event there, from 1, the byte at which it starts, from 0, and
// why.
#[derive(Clone, Copy)]
struct End {
    event: usize,
    at: usize,
    fault: Fault,
}

impl fmt::Display for End {
    fn fmt<W: fmt::Write>(&self, f: &mut fmt::Formatter<W>) -> fmt::Result {
        let End { event, at, fault } = *self;
        write!(f, "the run ended at event {event}, byte {at}: {fault}")
    }
}

// The run ends at the first event whose kind is unknown or whose record is cut; `None` where it ends with the log.
fn end_of_run(log: &[u8]) -> Option<End> {
    let mut event = 1;
    let mut rest = log;
    // Kept: an iterator of events would say the same in more lines.
    while !rest.is_empty() {
        let at = log.len() - rest.len();
        let length = logs::length_of_event(model::NARROW_WIDTH, rest);
        if length == 0 {
            return Some(End {
                event,
                at,
                fault: Fault::UnknownKind,
            });
        }
        let Some(after) = rest.get(length..) else {
            return Some(End {
                event,
                at,
                fault: Fault::CutRecord,
            });
        };
        event += 1;
        rest = after;
    }
    None
}

// Says that the log is too long, or where the run ended, if that is before the log does.
fn say_unreplayed(rt: &impl Eprint, log: &[u8]) {
    if log.len() > texts::LOG_LIMIT {
        let _ = eprintln!(rt; "replay: the log is longer than 65,536 bytes");
    } else if let Some(end) = end_of_run(log) {
        let _ = eprintln!(rt; "replay: {end}");
    }
}

// A buffer for 390 lines.
const TEXT_ROOM: usize = 32760;

// The status where nobody reads the text any more: what a shell reports of a program that SIGPIPE ended. Nothing is said then.
const CUT_OFF: u8 = 141;

// Two buffers for tables, and one for the text. What cannot be said on standard error is lost.
fn replay(rt: &(impl Print + Eprint), log: &[u8]) -> ExitCode {
    let mut first = [0u8; model::TABLE_LIMIT];
    let mut second = [0u8; model::TABLE_LIMIT];
    let mut text = [0u8; TEXT_ROOM];
    if let Err(e) = write_text(rt, log, &mut first, &mut second, &mut text) {
        if e.kind() == ErrorKind::BrokenPipe {
            return ExitCode::from(CUT_OFF);
        }
        let _ = eprintln!(rt; "replay: standard output cannot be written");
    }
    say_unreplayed(rt, log);
    ExitCode::SUCCESS
}

// A buffer that holds one byte more than the longest log, so that a longer one is seen to be longer.
const LOG_ROOM: usize = 65537;

fn main(rt: HostRuntime) -> ExitCode {
    let mut log = [0u8; LOG_ROOM];
    match inputs::read_to_fill(&mut rt.stdin(), &mut log) {
        Ok(size) => replay(&rt, &log[..size]),
        Err(_) => {
            let _ = eprintln!(&rt; "replay: standard input cannot be read");
            ExitCode::SUCCESS
        }
    }
}
