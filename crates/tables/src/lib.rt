// The walk over a table: whole, valid records of a linear width or not, and the answers 1 to 3.
#![tactic(auto)]

ghost use Rattle.std.specs.Prelude.{◌≡◌, true, [], ◌≤◌, length, IsOk, IfOk};
ghost use Rattle.model.specs.Tables.{limit, records};
ghost use Rattle.model.specs.Answers.{first, valid_table, stored_grounds, table_grounds};
ghost use Rattle.model.specs.Reasons.{one_record};
ghost use Rattle.model.specs.Refusals.{answer_of};
ghost use Rattle.tallies.specs.Tallies.{PcidCounts, Struck};
ghost use Rattle.tally_rows.specs.Rows.{kind_counts};
ghost use Rattle.tables.specs.Walk.{Tells};
ghost use Rattle.tables.specs.Counts.{counted_table, counted_judged, told_judged, count_answer, table_pcid_counts};

use mappings::Record;
use model::{Context, Refusal};
use tally_rows::KindCounts;

// What a walk over a table passed: bytes, and records.
#[derive(Clone, Copy)]
struct Passed {
    bytes: usize,
    records: usize,
}

// Passes over the whole, valid records of a linear width at the front of the table. Each record is read as the part of the
// table that starts at its kind byte; where that is asked for, it is counted by kind and span, and struck off the counts by PCID.
fn walk(width: u64, table: &[u8], counting: bool, cells: &mut [u16], pcids: &mut [u16]) -> Passed
    requires table_len_bound { length table.now ≤ limit }
    requires struck { counting ≡ true → Struck pcids.old [] cells.old pcids.old }
    ensures tells { Tells width table.now result.bytes result.records }
    ensures struck_2 { counting ≡ true → valid_table width table.now ≡ true → Struck pcids.old (records table.now) cells.new pcids.new }
{
    let mut at = 0;
    let mut records = 0;
    // Kept: the requirement has the walk hand on the part that starts at each record (docs/DECISIONS.md, "Forms of document 01").
    while let Some(length) = valid_records::length_at(width, &table[at..]) {
        if counting {
            tallies::strike(
                Record {
                    bytes: &table[at..],
                },
                cells,
                pcids,
            );
        }
        at += length;
        records += 1;
    }
    Passed { bytes: at, records }
}

// Judges a table alone at a linear width: the number of its records, or 2 or 3. Where that is asked for, the records of an
// accepted table are counted and struck off.
#[tactic(auto, using(crate::proofs::Laws::Judged::judged))]
fn judge_with(
    width: u64,
    table: &[u8],
    counting: bool,
    cells: &mut [u16],
    pcids: &mut [u16],
) -> Result<usize, Refusal>
    requires { counting ≡ true → Struck pcids.old [] cells.old pcids.old }
    ensures answer_value { answer_of result ≡ first (stored_grounds width table.now) }
    ensures number { IfOk result (λ n. n ≡ length (records table.now)) }
    ensures struck { counting ≡ true → IsOk result → Struck pcids.old (records table.now) cells.new pcids.new }
{
    if model::TABLE_LIMIT < table.len() {
        return Err(Refusal::TableTooLong);
    }
    let passed = walk(width, table, counting, cells, pcids);
    if passed.bytes != table.len() {
        return Err(Refusal::TableNotValid);
    }
    Ok(passed.records)
}

// Judges a table alone at a linear width: the number of its records, or 2 or 3.
pub fn judge(width: u64, table: &[u8]) -> Result<usize, Refusal>
    ensures answer_value { answer_of result ≡ first (stored_grounds width table.now) }
    ensures number { IfOk result (λ n. n ≡ length (records table.now)) }
{
    let mut cells = [0u16; 1];
    let mut pcids = [0u16; 1];
    judge_with(width, table, false, &mut cells, &mut pcids)
}

// The bytes are exactly one valid record of a linear width.
#[tactic(auto, using(crate::proofs::Laws::Judged::ones))]
pub fn is_one_record(width: u64, bytes: &[u8]) -> bool
    ensures { result ≡ one_record width bytes.now }
{
    matches!(judge(width, bytes), Ok(1))
}

// What judging an accepted table beside a tally tells: the number of records, whether the tally has the counts of the
// table, and the counts by kind and span.
// Kept: a tally that does not match has records and counts too; the arrays are of a fixed length, since the library takes no heap.
#[derive(Clone, Copy)]
pub struct CountedTable {
    pub records: usize,
    pub matching: bool,
    pub cells: [u16; 30],
}

// Judges a table beside a tally, in one walk: its records are counted by kind and span, and struck off the tally's counts
// by PCID, which are the caller's copy.
fn judge_beside(
    width: u64,
    table: &[u8],
    kinds: [KindCounts; 6],
    pcids: &mut [u16; model::PCID_COUNTS],
) -> Result<CountedTable, Refusal>
    requires { PcidCounts pcids.old }
    ensures answer_value { answer_of result ≡ first (stored_grounds width table.now) }
    ensures counted { IfOk result (λ j. j ≡ counted_table kinds pcids.old table.now) }
{
    let mut cells = [0u16; 30];
    let records = judge_with(width, table, true, &mut cells, pcids)?;
    Ok(CountedTable {
        records,
        matching: tally_rows::is_matching(kinds, &cells, pcids),
        cells,
    })
}

// Judges a table and counts its records, and compares a tally with the counts; or the refusal is 2 or 3. Counts by PCID
// that are not 4,096 match none.
pub fn judge_counted(
    width: u64,
    table: &[u8],
    kinds: [KindCounts; 6],
    pcids: &[u16],
) -> Result<CountedTable, Refusal>
    ensures answer_value { answer_of result ≡ first (stored_grounds width table.now) }
    ensures counted { IfOk result (λ j. j ≡ counted_table kinds pcids.now table.now) }
    ensures told { told_judged result ≡ counted_judged width table.now kinds pcids.now }
{
    let mut left = [0u16; model::PCID_COUNTS];
    if pcids.len() == model::PCID_COUNTS {
        left.copy_from_slice(pcids);
        return judge_beside(width, table, kinds, &mut left);
    }
    let counted = judge_beside(width, table, kinds, &mut left)?;
    Ok(CountedTable {
        matching: false,
        ..counted
    })
}

// Counts the records of a table, by kind and span and by PCID. The refusal is 2 or 3, of the table at a linear width, or
// 13, where there are not 4,096 counts for the PCIDs; it leaves these as they are.
pub fn count(width: u64, table: &[u8], pcids: &mut [u16]) -> Result<[KindCounts; 6], Refusal>
    ensures answer_value { answer_of result ≡ count_answer width table.now (length pcids.old) }
    ensures counted { IfOk result (λ kinds. kinds ≡ kind_counts (records table.now)) }
    ensures pcids_after { pcids.new ≡ table_pcid_counts width table.now pcids.old }
{
    let mut cells = [0u16; 30];
    let mut left = [0u16; model::PCID_COUNTS];
    judge_with(width, table, true, &mut cells, &mut left)?;
    if pcids.len() != model::PCID_COUNTS {
        return Err(Refusal::WrongTally);
    }
    tallies::write_struck(&left, pcids);
    Ok(tally_rows::update(tally_rows::no_rows(), &cells))
}

// Judges a table in a context: the number of its records, or 1, 2 or 3.
pub fn judge_in(c: Context, table: &[u8]) -> Result<usize, Refusal>
    ensures answer_value { answer_of result ≡ first (table_grounds c table.now) }
    ensures number { IfOk result (λ n. n ≡ length (records table.now)) }
{
    if !contexts::is_in_range(c) {
        return Err(Refusal::ContextOutOfRange);
    }
    judge(c.linear_width, table)
}
