// The records of a whole table, one after the other.
#![tactic(auto)]

ghost use Rattle.std.specs.Prelude.{true, ◌≡◌};
ghost use Rattle.std.specs.Iterator.{YieldsFirstBy, item_count};
ghost use Rattle.model.specs.Tables.{records, whole};

use mappings::Record;

// Goes over the records of a whole table, in order.
#[derive(Drop)]
pub struct Records<'a> {
    pub rest: &'a [u8],
    pub ghost is_whole: { whole rest.now ≡ true },
}

impl<'a> Iterator for Records<'a> {
    type Item = Record<'a>;

    ghost next_gives = { YieldsFirstBy (λ r. r.bytes.now) (λ s. records s.rest.now) };

    ghost remaining = { item_count (λ s. records s.rest.now) };

    #[inline]
    #[tactic(auto, using(crate::proofs::Laws::fronts))]
    fn next(&mut self) -> Option<Record<'a>> {
        if self.rest.is_empty() {
            return None;
        }
        let length = Record { bytes: self.rest }.length();
        let (bytes, rest) = self.rest.split_at(length);
        self.rest = rest;
        Some(Record { bytes })
    }
}
