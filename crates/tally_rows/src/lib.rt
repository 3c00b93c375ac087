// The six rows of a tally, as users hold it: stored from counts, and compared with them. Document 02, Ask 7.
#![tactic(auto)]

ghost use Rattle.std.specs.Prelude.{◌≡◌, ◌&&◌, [], ◌≤◌, ◌+◌, length};
ghost use Rattle.tally_rows.specs.Rows.{kind_counts, same_kinds, none_left, row_from, rows_of};

// The records of one of the six kinds, by span, 0 to 4.
#[repr(C)]
#[derive(Clone, Copy, PartialEq, Eq)]
pub struct KindCounts {
    pub spans: [u16; 5],
}

// No count is left. All are looked at: a loop without a way out takes many at a time.
#[tactic(auto, using(crate::proofs::Laws::Left::looked))]
fn is_none_left(left: &[u16]) -> bool
    ensures { result ≡ none_left left.now }
{
    let mut all = 0;
    for n in left {
        all |= *n;
    }
    all == 0
}

// The five counts from a place on, as a row.
#[tactic(auto, using(crate::proofs::Laws::Rows::row_made))]
fn row_at(cells: &[u16], at: usize) -> KindCounts
    requires { at + 5 ≤ length cells.now }
    ensures { result ≡ row_from cells.now at }
{
    let mut spans = [0; 5];
    spans.copy_from_slice(&cells[at..at + 5]);
    KindCounts { spans }
}

// The six rows of a tally in which every count is 0.
pub fn no_rows() -> [KindCounts; 6]
    ensures { result ≡ kind_counts [] }
{
    [KindCounts { spans: [0; 5] }; 6]
}

// Stores thirty counts in the six rows of a tally.
#[tactic(auto, using(crate::proofs::Laws::Rows::stored_end))]
pub fn update(mut kinds: [KindCounts; 6], cells: &[u16]) -> [KindCounts; 6]
    requires { length cells.now ≡ 30 }
    ensures { result ≡ rows_of cells.now }
{
    for (at, row) in kinds.iter_mut().enumerate() {
        *row = row_at(cells, 5 * at);
    }
    kinds
}

// The six rows have the thirty counts, and of the counts by PCID none is left.
pub fn is_matching(kinds: [KindCounts; 6], cells: &[u16], left: &[u16]) -> bool
    requires { length cells.now ≡ 30 }
    ensures { result ≡ (same_kinds kinds (rows_of cells.now) && none_left left.now) }
{
    let rows = update(kinds, cells);
    (kinds == rows) & is_none_left(left)
}
