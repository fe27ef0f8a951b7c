//! Facts that serve a pair.

ghost use Rattle.std.specs.Prelude.{◌≡◌, map, option_map, option_copied};
ghost use Rattle.index_knowledge.specs.Told.{fact_told, pair_told};
ghost use Rattle.certificate_rules.specs.Surveys.{fact_serves};

use crate::knowledge::numbered;
use fl_types::Access;
use index_knowledge::{Fact, Pair, serves};

/// Whether the fact serves the pair, both of a loop with these accesses.
pub fn serves_pair(accesses: &[Access], fact: &Fact, pair: &Pair) -> bool
    ensures { result ≡ fact_serves accesses.now (fact_told fact.now) (pair_told pair.now) }
{
    match numbered(accesses, fact.first) {
        Some(a) => match numbered(accesses, fact.second) {
            Some(b) => match numbered(accesses, pair.first) {
                Some(f) => match numbered(accesses, pair.second) {
                    Some(g) => serves(
                        a.path.as_slice(),
                        b.path.as_slice(),
                        f.path.as_slice(),
                        g.path.as_slice(),
                    ),
                    None => false,
                },
                None => false,
            },
            None => false,
        },
        None => false,
    }
}
