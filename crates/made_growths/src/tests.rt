//! Tests by which one of two numbers is chosen.

ghost use Rattle.std.specs.Prelude.{◌≡◌, List, Bool, IfOk};
ghost use Rattle.fl_ast.specs.declared.kind.Kind.TheVariants.{Ring as ring_kind};
ghost use Rattle.fl_ast.specs.declared.kind.RelOp.TheVariants.{Lt as less};
ghost use Rattle.fl_ast.specs.Tree.{Expression, literal, relation as relation_tree};
ghost use Rattle.resolved.specs.SlotTables.{Names};
ghost use Rattle.sweep_trees.specs.Split.{test_tree, ring_tree, ring_test};
ghost use Rattle.split_trees.specs.Codes.{code_tree, as_ring as as_ring_lem, StandsFor, RingStandsFor, TestStandsFor};
ghost use Rattle.undo_steps.specs.UndosStand.{unwatched};

use fl_ast::{Memory, RelOp};
use fl_base::Boxed;
use split_trees::Code;
use std::alloc::Global;
use sweep_trees::{RingCode, TestCode};

fn as_ring(code: Code) -> RingCode
    ensures { ring_tree result ≡ as_ring_lem (code_tree code) }
{
    match code {
        Code::Ring(code) => code.into_inner(),
        Code::Index(code) => RingCode::Widened(code.into_inner()),
    }
}

fn ring_relation(
    alloc: Global,
    op: RelOp,
    left: Code,
    right: Code,
) -> Result<Boxed<TestCode>, Memory>
    ensures { IfOk result (λ test. test_tree test ≡ ring_test op (as_ring_lem (code_tree left)) (as_ring_lem (code_tree right))) }
{
    let left = as_ring(left);
    let right = as_ring(right);
    Boxed::new(alloc, TestCode::Rings { op, left, right })
}

/// A relation, between numbers of the index kind where both operands are such.
pub(crate) fn relation(
    alloc: Global,
    op: RelOp,
    left: Code,
    right: Code,
) -> Result<Boxed<TestCode>, Memory>
    ensures { (names : Names) → (flags : List Bool) → (a b : Expression) → StandsFor names flags a (code_tree left) → StandsFor names flags b (code_tree right)
        → IfOk result (λ test. TestStandsFor names flags (relation_tree op a b) (test_tree test)) }
{
    match (left, right) {
        (Code::Index(left), Code::Index(right)) => {
            let left = left.into_inner();
            let right = right.into_inner();
            Boxed::new(alloc, TestCode::Indices { op, left, right })
        }
        (left, right) => ring_relation(alloc, op, left, right),
    }
}

/// Whether a number of the ring kind is below zero.
pub(crate) fn below_zero(alloc: Global, code: Boxed<RingCode>) -> Result<Boxed<TestCode>, Memory>
    ensures { (names : Names) → (e : Expression) → RingStandsFor names unwatched e (ring_tree code)
        → IfOk result (λ test. TestStandsFor names unwatched (relation_tree less e (literal 0 ring_kind)) (test_tree test)) }
{
    Boxed::new(
        alloc,
        TestCode::Rings {
            op: RelOp::Lt,
            left: code.into_inner(),
            right: RingCode::Word(0),
        },
    )
}
