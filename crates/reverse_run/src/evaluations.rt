ghost use Rattle.std.specs.Prelude.{◌≡◌};
ghost use Rattle.sweep_trees.specs.Split.{spot_tree, ring_tree, test_tree};
ghost use Rattle.sweep_evaluation.specs.Machine.{spot_place, ring_value, test_value};
ghost use Rattle.reverse_sweep.specs.Reversing.{told};
ghost use Rattle.reverse_state.specs.Holding.{Gives};

use operations::Cells;
use resolved::SlotTable;
use reverse_state::Reverse;
use ring_core::Ring;
use sweep_evaluation::{holds, locate, ring};
use sweep_trees::{RingCode, Spot, TestCode};

/// The place of an occurrence, `None` outside its bounds.
#[inline(always)]
pub(crate) fn place_of<C: Cells>(
    run: &mut Reverse<C>,
    table: &SlotTable,
    spot: &Spot,
) -> Option<u32>
    ensures { Gives run.old run.new result (spot_place (told run.old.shared) table.now (spot_tree spot.now)) }
{
    locate(run, table, spot)
}

/// The value of an expression.
#[inline(always)]
pub(crate) fn value<C: Cells>(run: &mut Reverse<C>, table: &SlotTable, code: &RingCode) -> Ring
    ensures { Gives run.old run.new result (ring_value (told run.old.shared) table.now (ring_tree code.now)) }
{
    ring(run, table, code)
}

/// Whether a condition holds.
#[inline(always)]
pub(crate) fn is_met<C: Cells>(run: &mut Reverse<C>, table: &SlotTable, test: &TestCode) -> bool
    ensures { Gives run.old run.new result (test_value (told run.old.shared) table.now (test_tree test.now)) }
{
    holds(run, table, test)
}
