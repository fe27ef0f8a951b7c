//! What is known of the subscripts in a parallel loop.

ghost use Rattle.std.specs.Prelude.{◌≡◌, option_copied};
ghost use Rattle.certificate_rules.specs.Surveys.{numbered as numbered_lem};

use fl_base::Items;
use fl_types::Access;
use index_forms::{Form, Scene};
use index_knowledge::Fact;
use index_ranges::Range;

/// The accesses of a loop with the forms of their subscripts on both sides, its facts, and the ranges of the loops in it. `scene` says which
/// names are index arrays that the loop doesn't assign; `second` is the greatest number of an iteration of the inner one of two collapsed
/// loops, where it is known.
#[derive(Drop)]
pub struct LoopKnowledge {
    pub accesses: Items<Access>,
    pub ones: Items<Items<Form>>,
    pub twos: Items<Items<Form>>,
    pub scene: Scene,
    pub facts: Items<Fact>,
    pub ranges: Items<Range>,
    pub second: Option<u32>,
}

/// The item with a number, from 1.
pub fn numbered<T>(items: &[T], number: u32) -> Option<&T>
    ensures { option_copied result ≡ numbered_lem items.now number }
{
    match number.checked_sub(1) {
        Some(at) => items.get(at as usize),
        None => None,
    }
}
