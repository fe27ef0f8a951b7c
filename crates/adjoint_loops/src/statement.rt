//! Single statements of a loop.

ghost use Rattle.std.specs.Prelude.{◌≡◌, IfOk};
ghost use Rattle.fl_ast.specs.Tree.{expr_tree};
ghost use Rattle.fl_ast.specs.AdjointTree.{astmt_tree, push as push_lem, pop as pop_lem, begin_tapes, end_tapes};
ghost use Rattle.adjoint_rules.specs.Bounds.{numbering as numbering_lem};
ghost use Rattle.adjoint_rules.specs.Forward as rules;
ghost use Rattle.adjoint_rules.specs.OwnNames as own;
ghost use Rattle.reversal.specs.Places.{scope_of};
ghost use Rattle.loop_bounds.specs.Heads.{head_of};
ghost use Rattle.adjoint_loops.specs.Further.{heads_of};

use crate::heads::iteration_number;
use fl_ast::{AStmt, Expr, Kind, Name};
use fl_base::{Boxed, Memory};
use loop_bounds::LoopHead;
use reversal::{Scope, in_adjoint, literal, scalar, value};
use std::alloc::Global;

fn kind_in(scope: &Scope<'_>, name: &Name) -> Kind
    ensures { result ≡ rules.kind_in (scope_of scope.now) name.now }
{
    if scope.is_ring(name) {
        Kind::Ring
    } else {
        Kind::Index
    }
}

/// A scalar set to zero.
pub fn zeroed(alloc: Global, scope: &Scope<'_>, line: u32, name: &Name) -> Result<AStmt, Memory>
    ensures { IfOk result (λ s. astmt_tree s ≡ rules.zeroed (scope_of scope.now) line name.now) }
{
    let target = scalar(alloc, name.bytes())?;
    let kind = kind_in(scope, name);
    Ok(AStmt::Assign {
        line,
        atomic: false,
        target,
        value: literal(0, kind),
    })
}

/// The number of an iteration, at its start.
pub fn numbering(
    alloc: Global,
    head: &LoopHead<'_>,
    further: &Option<LoopHead<'_>>,
) -> Result<AStmt, Memory>
    ensures { IfOk result (λ s. astmt_tree s ≡ numbering_lem (head_of head.now) (heads_of further.now)) }
{
    let number = iteration_number(alloc, head, further)?;
    let value = in_adjoint(alloc, number.get())?;
    let target = scalar(alloc, b"formad_k")?;
    Ok(AStmt::Assign {
        line: head.line,
        atomic: false,
        target,
        value: value.into_inner(),
    })
}

/// The push of a scalar at an iteration's end.
pub fn pushed(alloc: Global, line: u32, name: &Name) -> Result<AStmt, Memory>
    ensures { IfOk result (λ s. astmt_tree s ≡ push_lem line (own.value own.k_name) (own.value name.now)) }
{
    let key = Boxed::new(alloc, value(alloc, b"formad_k")?)?;
    let value = value(alloc, name.bytes())?;
    Ok(AStmt::Push {
        line,
        key: key.into_inner(),
        value,
    })
}

/// The pop of a scalar at the start of an iteration's reverse.
pub fn popped(alloc: Global, line: u32, name: &Name) -> Result<AStmt, Memory>
    ensures { IfOk result (λ s. astmt_tree s ≡ pop_lem line (own.value own.k_name) (own.scalar name.now)) }
{
    let target = scalar(alloc, name.bytes())?;
    let key = value(alloc, b"formad_k")?;
    Ok(AStmt::Pop { line, key, target })
}

pub fn opened(line: u32, count: Boxed<Expr>) -> AStmt
    ensures { astmt_tree result ≡ begin_tapes line (expr_tree count) }
{
    AStmt::Open {
        line,
        count: count.into_inner(),
    }
}

pub fn closed(line: u32) -> AStmt
    ensures { astmt_tree result ≡ end_tapes line }
{
    AStmt::Close { line }
}
