//! The heads whose iterations those of a parallel loop are: its own, and that of the loop in it where two are collapsed.

ghost use Rattle.std.specs.Prelude.{◌≡◌, ◌++◌, ◌∷◌, [], IfOk, OnOk, map};
ghost use Rattle.fl_ast.specs.Tree.{expr_tree, stmt_tree, stmt_trees, binary as binary_lem};
ghost use Rattle.fl_ast.specs.AdjointTree.{astmt_tree};
ghost use Rattle.adjoint_rules.specs.Bounds as rules;
ghost use Rattle.loop_bounds.specs.Heads.{head_of};
ghost use Rattle.adjoint_loops.specs.Further.{heads_of};

use fl_ast::{AStmt, BinOp, Directive, Expr, Stmt};
use fl_base::{Boxed, Items, Memory};
use fl_types::is_nest;
use loop_bounds::{LoopHead, count, push_pops, push_pushes, push_settings, turn_number};
use std::alloc::Global;

fn head_in(stmt: &Stmt) -> Option<LoopHead<'_>>
    ensures { heads_of result ≡ rules.inner_loop (stmt_tree stmt.now) }
{
    match stmt {
        Stmt::Do {
            line,
            number,
            var,
            first,
            last,
            step,
            ..
        } => Some(LoopHead {
            line: *line,
            number: *number,
            var,
            first,
            last,
            step,
        }),
        Stmt::Assign { .. } | Stmt::If { .. } => None,
    }
}

fn first_head(stmts: &[Stmt]) -> Option<LoopHead<'_>>
    ensures { heads_of result ≡ rules.inner_loops (stmt_trees stmts.now) }
{
    match stmts {
        [] => None,
        [stmt, ..] => head_in(stmt),
    }
}

/// The head of the loop that is collapsed with a parallel loop with this body (OpenMP 5.2, 4.4.3).
pub fn further<'t>(directive: &Directive, body: &'t [Stmt]) -> Option<LoopHead<'t>>
    ensures { heads_of result ≡ rules.further_loops directive.now (stmt_trees body.now) }
{
    if is_nest(directive, body) {
        first_head(body)
    } else {
        None
    }
}

fn binary(
    alloc: Global,
    op: BinOp,
    left: Boxed<Expr>,
    right: Boxed<Expr>,
) -> Result<Boxed<Expr>, Memory>
    ensures { IfOk result (λ e. expr_tree e ≡ binary_lem op (expr_tree left) (expr_tree right)) }
{
    Boxed::new(alloc, Expr::Bin { op, left, right })
}

/// How many iterations there are.
pub fn total(
    alloc: Global,
    head: &LoopHead<'_>,
    further: &Option<LoopHead<'_>>,
) -> Result<Boxed<Expr>, Memory>
    ensures { IfOk result (λ e. expr_tree e ≡ rules.total (head_of head.now) (heads_of further.now)) }
{
    match further {
        None => count(alloc, head),
        Some(inner) => {
            let outer = count(alloc, head)?;
            let inner = count(alloc, inner)?;
            binary(alloc, BinOp::Mul, outer, inner)
        }
    }
}

/// The number of an iteration of two loops.
fn number_of_two(
    alloc: Global,
    head: &LoopHead<'_>,
    inner: &LoopHead<'_>,
) -> Result<Boxed<Expr>, Memory>
    ensures { IfOk result (λ e. expr_tree e ≡ rules.iteration_number (head_of head.now) (head_of inner.now ∷ [])) }
{
    let turn = turn_number(alloc, head)?;
    let turns = count(alloc, inner)?;
    let before = binary(alloc, BinOp::Mul, turn, turns)?;
    let within = turn_number(alloc, inner)?;
    binary(alloc, BinOp::Add, before, within)
}

/// The number of an iteration.
pub fn iteration_number(
    alloc: Global,
    head: &LoopHead<'_>,
    further: &Option<LoopHead<'_>>,
) -> Result<Boxed<Expr>, Memory>
    ensures { IfOk result (λ e. expr_tree e ≡ rules.iteration_number (head_of head.now) (heads_of further.now)) }
{
    match further {
        None => turn_number(alloc, head),
        Some(inner) => number_of_two(alloc, head, inner),
    }
}

/// Adds the assignments of the bounds, the outer loop's first.
pub fn push_all_settings(
    alloc: Global,
    head: &LoopHead<'_>,
    further: &Option<LoopHead<'_>>,
    statements: &mut Items<AStmt>,
) -> Result<(), Memory>
    ensures { OnOk result (map astmt_tree statements.new ≡ map astmt_tree statements.old ++ rules.all_settings (head_of head.now ∷ heads_of further.now)) }
{
    push_settings(alloc, head, statements)?;
    match further {
        None => Ok(()),
        Some(inner) => push_settings(alloc, inner, statements),
    }
}

/// Adds the pushes of the bounds, the outer loop's first.
pub fn push_all_pushes(
    alloc: Global,
    key: &Expr,
    head: &LoopHead<'_>,
    further: &Option<LoopHead<'_>>,
    statements: &mut Items<AStmt>,
) -> Result<(), Memory>
    ensures { OnOk result (map astmt_tree statements.new ≡ map astmt_tree statements.old ++ rules.all_pushes (expr_tree key.now) (head_of head.now ∷ heads_of further.now)) }
{
    push_pushes(alloc, key, head, statements)?;
    match further {
        None => Ok(()),
        Some(inner) => push_pushes(alloc, key, inner, statements),
    }
}

/// Adds the pops of the bounds, the outer loop's last.
pub fn push_all_pops(
    alloc: Global,
    key: &Expr,
    head: &LoopHead<'_>,
    further: &Option<LoopHead<'_>>,
    statements: &mut Items<AStmt>,
) -> Result<(), Memory>
    ensures { OnOk result (map astmt_tree statements.new ≡ map astmt_tree statements.old ++ rules.all_pops (expr_tree key.now) (head_of head.now ∷ heads_of further.now)) }
{
    match further {
        None => {}
        Some(inner) => push_pops(alloc, key, inner, statements)?,
    }
    push_pops(alloc, key, head, statements)
}
