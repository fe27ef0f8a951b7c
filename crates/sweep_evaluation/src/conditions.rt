ghost use Rattle.std.specs.Prelude.{◌≡◌};
ghost use Rattle.ring_core.specs.Ring.{signed_at};
ghost use Rattle.meaning.specs.Values.{compares as compares_lem};
ghost use Rattle.sweep_trees.specs.Split.{test_tree};
ghost use Rattle.sweep_evaluation.specs.Machine.{Does, test_value};

use crate::access::Access;
use crate::indices::index;
use crate::rings::ring;
use fl_ast::RelOp;
use resolved::SlotTable;
use sweep_trees::TestCode;

fn compares(op: RelOp, left: i64, right: i64) -> bool
    ensures { result ≡ compares_lem op left right }
{
    match op {
        RelOp::Eq => left == right,
        RelOp::Ne => left != right,
        RelOp::Lt => left < right,
        RelOp::Le => left <= right,
        RelOp::Gt => left > right,
        RelOp::Ge => left >= right,
    }
}

/// Whether a condition holds; both sides of `.and.` and `.or.` are evaluated.
pub fn holds<A: Access>(access: &mut A, table: &SlotTable, code: &TestCode) -> bool
    ensures does { Does A.stands A.lost access.old access.new result (test_value A.told table.now (test_tree code.now)) }
    ensures steady { A.steady access.new ≡ A.steady access.old }
{
    match code {
        TestCode::Indices { op, left, right } => {
            let left = index(access, table, left);
            let right = index(access, table, right);
            compares(*op, i64::from(left.value()), i64::from(right.value()))
        }
        TestCode::Rings { op, left, right } => {
            let left = ring(access, table, left);
            let right = ring(access, table, right);
            compares(
                *op,
                left.signed_at(table.width()),
                right.signed_at(table.width()),
            )
        }
        TestCode::Not(inner) => {
            let inner = holds(access, table, inner.get());
            !inner
        }
        TestCode::And(left, right) => {
            let left = holds(access, table, left.get());
            let right = holds(access, table, right.get());
            left && right
        }
        TestCode::Or(left, right) => {
            let left = holds(access, table, left.get());
            let right = holds(access, table, right.get());
            left || right
        }
    }
}
