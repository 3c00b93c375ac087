// The pass that writes the records of a table that an event does not drop.
#![tactic(auto)]

ghost use Rattle.std.specs.Prelude.{◌≡◌, true, ◌≤◌, length};
ghost use Rattle.model.specs.Tables.{whole, records};
ghost use Rattle.model.specs.Scopes.{passed, scope};
ghost use Rattle.queries.specs.Queries.{query_tests};
ghost use Rattle.tallies.specs.Tallies.{Tallied, Carries};
ghost use Rattle.filters.specs.Filters.{left, Filters};

use mappings::Record;
use model::{Context, Event};
use queries::Query;

// How long the records left are together, and how many were dropped.
#[derive(Clone, Copy)]
pub struct Filtered {
    pub length: usize,
    pub dropped: usize,
}

// Writes the records that do not pass a query to the front of the new buffer, in order. A run of such records is
// copied whole, when a record that passes or the end of the table ends it. Where the records are counted, those that
// pass are taken off.
fn filter(
    query: Query,
    table: &[u8],
    counting: bool,
    cells: &mut [u16],
    pcids: &mut [u16],
    new: &mut [u8],
) -> Filtered
    requires table_value { whole table.now ≡ true }
    requires table_in_bounds { length table.now ≤ length new.old }
    requires tallied { counting ≡ true → Tallied (records table.now) cells.old pcids.old }
    ensures filters { Filters (λ m. passed (query_tests query m)) table.now new.old result new.new }
    ensures carries { Carries counting (left (λ m. passed (query_tests query m)) table.now) cells.old pcids.old cells.new pcids.new }
{
    let kinds = query.kinds_by_vpid();
    let mut at = 0;
    let mut from = 0;
    let mut to = 0;
    let mut dropped = 0;
    // Kept: a run is cut out by its positions, which a `for` over the records would count too, and more slowly.
    while at < table.len() {
        let record = Record {
            bytes: &table[at..],
        };
        let end = at + record.length();
        if query.is_passing(kinds, record) {
            if counting {
                tallies::take_off(record, cells, pcids);
            }
            to = buffers::put(&table[from..at], new, to);
            from = end;
            dropped += 1;
        }
        at = end;
    }
    to = buffers::put(&table[from..at], new, to);
    Filtered {
        length: to,
        dropped,
    }
}

// Writes the records of a table that are not in the scope of an event, in the same way. How many records there are is
// known: an event with no record in scope takes one copy, and a reset, which drops every record, none. Where the records
// are counted, those in scope are taken off; else the counts stay.
pub fn filter_event(
    c: Context,
    e: Event,
    table: &[u8],
    count: usize,
    counting: bool,
    cells: &mut [u16],
    pcids: &mut [u16],
    new: &mut [u8],
) -> Filtered
    requires table_value { whole table.now ≡ true }
    requires table_in_bounds { length table.now ≤ length new.old }
    requires count_value { count ≡ length (records table.now) }
    requires tallied { counting ≡ true → Tallied (records table.now) cells.old pcids.old }
    ensures filters { Filters (scope c e) table.now new.old result new.new }
    ensures carries { Carries counting (left (scope c e) table.now) cells.old pcids.old cells.new pcids.new }
{
    if !scopes::has_scope(c, e) {
        return Filtered {
            length: buffers::put(table, new, 0),
            dropped: 0,
        };
    }
    match e {
        Event::Reset => {
            if counting {
                tallies::clear(cells, pcids);
            }
            Filtered {
                length: 0,
                dropped: count,
            }
        }
        _ => {
            let query = scopes::query(c, e);
            filter(query, table, counting, cells, pcids, new)
        }
    }
}
