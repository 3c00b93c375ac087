// The lookup in two tables, a small first-level one before a large second-level one: document 02, Ask 10.
#![tactic(auto)]

ghost use Rattle.std.specs.Prelude.{◌≡◌, ◌+◌, cond, eqb};
ghost use Rattle.model.specs.Refusals.{answer_of};
ghost use Rattle.level_lookups.specs.Levels.{lookup_levels_answer, lookup_levels, lookup_levels_level, lookup_levels_start, found_in, in_numbers, Stands};

use lookups::Part;
use model::{Context, Refusal};

// Which of the two tables has a translation, and where it starts and ends there.
#[derive(Clone, Copy)]
pub enum FoundInLevels {
    First(Part),
    Second(Part),
}

// Judges two tables for a lookup: the refusal is the first table's 1, 2 or 3, or the second's where that is accepted.
pub fn answer_to_lookup(c: Context, first: &[u8], second: &[u8]) -> Result<(), Refusal>
    ensures { answer_of result ≡ lookup_levels_answer c first.now second.now }
{
    lookups::answer_to_lookup(c, first)?;
    lookups::answer_to_lookup(c, second)
}

// Where the first usable translation at a linear address stands, if there is one: in the first table if that has one, else
// in the second. Or the refusal is that of either table.
pub fn find(
    c: Context,
    address: u64,
    first: &[u8],
    second: &[u8],
) -> Result<Option<FoundInLevels>, Refusal>
    ensures value { in_numbers result ≡ found_in c address first.now second.now }
    ensures stands { Stands c address first.now second.now (in_numbers result) }
{
    answer_to_lookup(c, first, second)?;
    let Some(asked) = lookups::sought_at_linear(
        c,
        address,
        kinds::LINEAR_TRANSLATIONS,
        kinds::COMBINED_TRANSLATIONS,
    ) else {
        return Ok(None);
    };
    if let Some(part) = lookups::search(asked, first, 0) {
        return Ok(Some(FoundInLevels::First(part)));
    }
    Ok(lookups::search(asked, second, 0).map(FoundInLevels::Second))
}

// The first usable translation at a linear address, from the first table if that has one, else from the second, as that
// very part of it. The part is empty exactly if there is none or either table is refused.
pub fn look_up<'a>(c: Context, address: u64, first: &'a [u8], second: &'a [u8]) -> &'a [u8]
    ensures result_value { result.now ≡ lookup_levels c address first.now second.now }
    ensures ref_ptr_value { result.ref_ptr ≡ cond (eqb (lookup_levels_level c address first.now second.now) 2) (second.entry.ref_ptr.0, lookup_levels_start c address first.now second.now + second.entry.ref_ptr.1) (first.entry.ref_ptr.0, lookup_levels_start c address first.now second.now + first.entry.ref_ptr.1) }
{
    match find(c, address, first, second) {
        Ok(Some(FoundInLevels::First(part))) => &first[part.start..part.end],
        Ok(Some(FoundInLevels::Second(part))) => &second[part.start..part.end],
        Ok(None) => &first[..0],
        Err(_) => &first[..0],
    }
}
