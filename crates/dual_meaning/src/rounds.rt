ghost use Rattle.std.specs.Prelude.{◌≡◌, ◌<◌, ◌*◌, ◌/◌, ◌%◌, None, slice_set};
ghost use Rattle.dual_evaluation.specs.Assignments.{IsCounted};
ghost use Rattle.dual_meaning.specs.Running.{unset_places, with_round as with_round_lem, round_count as round_count_lem, with_rounds, is_counted_option};

use dual_evaluation::begin_turn;
use meaning::{IterationCount, Value};

/// A loop over iterations: where its variable lives, and its turns.
#[derive(Clone, Copy, Debug)]
pub struct Round {
    pub place: Option<u32>,
    pub turns: IterationCount,
}

/// Unsets the cell at a place, where there is one.
fn unset(cells: &mut Vec<Option<Value>>, place: u32)
    ensures { cells.new.items ≡ slice_set cells.old.items place None }
{
    if (place as usize) < cells.len() {
        cells[place as usize] = None;
    }
}

/// Unsets private scalars.
pub(crate) fn unset_all(cells: &mut Vec<Option<Value>>, places: &[u32])
    ensures { cells.new.items ≡ unset_places places.now cells.old.items }
{
    for place in places {
        unset(cells, *place);
    }
}

/// Sets a loop's variable for its turn k.
fn set_round(cells: &mut Vec<Option<Value>>, round: &Round, k: u64)
    requires counted { IsCounted round.now.turns }
    requires within { k < round.now.turns.count }
    ensures { cells.new.items ≡ with_round_lem round.now k cells.old.items }
{
    begin_turn(cells, round.place, round.turns.first, round.turns.step, k);
}

/// The number of iterations of one loop, or of two that are collapsed.
pub(crate) fn round_count(outer: &Round, inner: &Option<Round>) -> u128
    ensures { result ≡ round_count_lem outer.now inner.now }
{
    let count = u128::from(outer.turns.count);
    match inner {
        None => count,
        Some(inner) => count * u128::from(inner.turns.count),
    }
}

/// The turn of the outer loop in iteration k, where the inner one has `count` turns.
#[tactic(auto, using(crate::proofs::Quotients::quotients))]
fn row(k: u128, rows: u64, count: u64) -> u64
    requires { k < rows * count }
    ensures value { result ≡ k / count }
    ensures below { result < rows }
{
    (k / u128::from(count)) as u64
}

/// And that of the inner loop.
fn column(k: u128, count: u64) -> u64
    requires { 0 < count }
    ensures value { result ≡ k % count }
    ensures below { result < count }
{
    (k % u128::from(count)) as u64
}

/// Sets the variables for iteration k. The inner of two loops runs faster.
pub(crate) fn set_rounds(
    cells: &mut Vec<Option<Value>>,
    outer: &Round,
    inner: &Option<Round>,
    k: u128,
)
    requires outer { IsCounted outer.now.turns }
    requires inner { is_counted_option inner.now }
    requires within { k < round_count_lem outer.now inner.now }
    ensures { cells.new.items ≡ with_rounds outer.now inner.now k cells.old.items }
{
    match inner {
        None => set_round(cells, outer, k as u64),
        Some(inner) => {
            let count = inner.turns.count;
            set_round(cells, outer, row(k, outer.turns.count, count));
            set_round(cells, inner, column(k, count));
        }
    }
}
