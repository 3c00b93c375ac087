// A table as rows of 32 bytes, and rows as a table: document 02, Ask 11.
#![tactic(auto)]

ghost use Rattle.std.specs.Prelude.{◌≡◌, true, false, ◌+◌, ◌%◌, ◌≤◌, ◌<◌, length, IfOk, IfErr};
ghost use Rattle.model.specs.Buffers.{put};
ghost use Rattle.model.specs.Context.{linear_width_in_range};
ghost use Rattle.model.specs.Tables.{whole};
ghost use Rattle.model.specs.declared.Refusal.TheVariants.{ContextOutOfRange};
ghost use Rattle.fixed_rows.specs.declared.Unconverted.TheVariants.{Refused};
ghost use Rattle.fixed_rows.specs.FixedRows.{converted, exported, exporting, exporting_written, record_named, imported, first_bad, importing, importing_written, Fitting, Named};

use model::Refusal;
use records::Records;

// The answer; the number of the first bad row, from 1, where that is the ground, else 0; and how long the result is, 0
// where the answer is not 0.
// Kept: a struct of the C interface.
#[repr(C)]
#[derive(Clone, Copy)]
pub struct Converted {
    pub answer: u64,
    pub row: u64,
    pub length: usize,
}

// Why a table is not exported, or rows are not imported. Bad rows are answer 4, with the number of the first one, from 1, or
// 0 for a bad length.
#[derive(Clone, Copy, PartialEq, Eq)]
enum Unconverted {
    Refused(Refusal),
    BadRows(u64),
}

impl From<Refusal> for Unconverted {
    ghost from_gives = { λ refusal e. e ≡ Refused refusal };

    fn from(refusal: Refusal) -> Unconverted {
        Unconverted::Refused(refusal)
    }
}

impl From<Result<usize, Unconverted>> for Converted {
    ghost from_gives = { λ length answer. answer ≡ converted length };

    fn from(length: Result<usize, Unconverted>) -> Converted {
        match length {
            Ok(length) => Converted {
                answer: 0,
                row: 0,
                length,
            },
            Err(Unconverted::Refused(refusal)) => Converted {
                answer: refusal.number(),
                row: 0,
                length: 0,
            },
            Err(Unconverted::BadRows(row)) => Converted {
                answer: 4,
                row,
                length: 0,
            },
        }
    }
}

// A linear width other than 48 and 57 is refused.
fn check_width(width: u64) -> Result<(), Refusal>
    ensures in_range { IfOk result (λ _. linear_width_in_range width ≡ true) }
    ensures out_of_range { IfErr result (λ e. (e ≡ ContextOutOfRange) × (linear_width_in_range width ≡ false)) }
{
    if (width != model::NARROW_WIDTH) & (width != model::WIDE_WIDTH) {
        return Err(Refusal::ContextOutOfRange);
    }
    Ok(())
}

// Writes the rows of a table to the front of the buffer.
#[tactic(auto, using(laws::specs::Writing::progress_start))]
fn put_rows(table: &[u8], rows: &mut [u8])
    requires table_value { whole table.now ≡ true }
    requires table_in_bounds { length (exported table.now) ≤ length rows.old }
    ensures { rows.new ≡ put 0 (exported table.now) rows.old }
{
    let mut to = 0;
    let records = Records { rest: table };
    for record in records {
        to = row_fields::put_row(record, rows, to);
    }
}

// How long the rows of a table are, if the table is valid at the linear width and there is room for them.
#[tactic(auto, using(crate::proofs::Laws::Answers::exports))]
fn length_exported(width: u64, table: &[u8], room: usize) -> Result<usize, Unconverted>
    ensures value { converted result ≡ exporting width table.now room }
    ensures fits { IfOk result (λ n. (whole table.now ≡ true) × ((n ≡ length (exported table.now)) × (n ≤ room))) }
{
    check_width(width)?;
    let records = tables::judge(width, table)?;
    let length = 32 * records;
    if room < length {
        return Err(Unconverted::Refused(Refusal::NoRoom));
    }
    Ok(length)
}

// Writes the rows of a table of a linear width, 48 or 57, to the front of the buffer, whose other bytes stay. The answer
// is 1 for any other width, 2 or 3 for an invalid table, and 12 where the buffer is shorter than 32 bytes a record; then
// nothing is written. The row is 0.
#[tactic(auto, using(crate::proofs::Laws::Answers::exported_written, crate::proofs::Laws::Answers::exported_none_written))]
pub fn export(width: u64, table: &[u8], rows: &mut [u8]) -> Converted
    ensures value { result ≡ exporting width table.now (length rows.old) }
    ensures rows_after { rows.new ≡ exporting_written width table.now rows.old }
{
    let length = length_exported(width, table, rows.len());
    if length.is_ok() {
        put_rows(table, rows);
    }
    Converted::from(length)
}

// Judges each row at a linear width: the length of the table that the rows make, or the number of the first bad row, from
// 1.
fn judge_rows(width: u64, rows: &[u8]) -> Result<usize, u64>
    ensures good { IfOk result (λ n. (first_bad width rows.now ≡ 0) × (n ≡ length (imported rows.now))) }
    ensures bad { IfErr result (λ n. (0 < n) × (n ≡ first_bad width rows.now)) }
{
    let mut length = 0;
    for (i, row) in rows.chunks_exact(32).enumerate() {
        length += row_fields::length_of_named(width, row).ok_or(i as u64 + 1)?;
    }
    Ok(length)
}

// Writes the record that a row names, at a position of the table, and nothing behind it.
#[tactic(auto, using(crate::proofs::Laws::Loops::cutting))]
fn put_last_record(row: &[u8], table: &mut [u8], at: usize)
    requires in_bounds { 32 ≤ length row.now }
    requires fitting { Fitting row.now }
    requires row_in_bounds { at + length (record_named row.now) ≤ length table.old }
    ensures { table.new ≡ put at (record_named row.now) table.old }
{
    let mut record = [0u8; 26];
    let length = row_fields::put_record(row, &mut record, 0);
    buffers::put(&record[..length], table, at);
}

// Writes the records that the rows name to the front of the buffer. The zero bytes behind each but the last are written
// over by the next.
fn put_records(rows: &[u8], table: &mut [u8])
    requires rows_len { length rows.now % 32 ≡ 0 }
    requires named { Named rows.now }
    requires rows_in_bounds { length (imported rows.now) ≤ length table.old }
    ensures { table.new ≡ put 0 (imported rows.now) table.old }
{
    let mut front = rows.chunks_exact(32);
    let Some(last) = front.next_back() else {
        return;
    };
    let mut to = 0;
    for row in front {
        to = row_fields::put_record(row, table, to);
    }
    put_last_record(last, table, to);
}

// How long the table is that rows make, if they are good at the linear width and there is room for it: within the limit and
// so many bytes.
#[tactic(auto, using(crate::proofs::Laws::Answers::imports))]
fn length_imported(width: u64, rows: &[u8], room: usize) -> Result<usize, Unconverted>
    ensures value { converted result ≡ importing width rows.now room }
    ensures fits { IfOk result (λ n. (length rows.now % 32 ≡ 0) × ((first_bad width rows.now ≡ 0) × ((n ≡ length (imported rows.now)) × (n ≤ room)))) }
{
    check_width(width)?;
    if rows.len() % 32 != 0 {
        return Err(Unconverted::BadRows(0));
    }
    let length = judge_rows(width, rows).map_err(Unconverted::BadRows)?;
    if (room < length) | (model::TABLE_LIMIT < length) {
        return Err(Unconverted::Refused(Refusal::NoRoom));
    }
    Ok(length)
}

// Writes the table that rows make at a linear width, 48 or 57, to the front of the buffer, whose other bytes stay. The
// answer is 1 for any other width; 4 with row 0 for a length that is no multiple of 32, and with the number of the first
// bad row, from 1; and 12 where the table is longer than the limit or the buffer. Then nothing is written.
#[tactic(auto, using(crate::proofs::Laws::Answers::imported_written, crate::proofs::Laws::Answers::imported_none_written, crate::proofs::Laws::Rows::named_of_good))]
pub fn import(width: u64, rows: &[u8], table: &mut [u8]) -> Converted
    ensures value { result ≡ importing width rows.now (length table.old) }
    ensures table_after { table.new ≡ importing_written width rows.now table.old }
{
    let length = length_imported(width, rows, table.len());
    if length.is_ok() {
        put_records(rows, table);
    }
    Converted::from(length)
}
