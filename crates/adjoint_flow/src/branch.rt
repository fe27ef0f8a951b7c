//! Ifs of an adjoint: each arm's number is pushed at its end, and the reverse asks for it.

ghost use Rattle.std.specs.Prelude.{◌≡◌, ◌++◌, ◌∷◌, [], IfOk, IsOkAnd, OnOk, map};
ghost use Rattle.fl_ast.specs.Tree.{cond_tree, expr_tree, literal};
ghost use Rattle.fl_ast.specs.AdjointTree.{astmt_tree, astmt_trees, aarm_tree, aarm_trees, adjoint_branch, adjoint_statements_of, pop as pop_lem};
ghost use Rattle.fl_ast.specs.declared.kind.Kind.TheVariants as kind;
ghost use Rattle.adjoint_rules.specs.OwnNames as own;
ghost use Rattle.adjoint_rules.specs.Forward as forward_rules;
ghost use Rattle.adjoint_rules.specs.Reverse as reverse_rules;
ghost use Rattle.reversal.specs.Places.{scope_of};

use fl_ast::{AArm, AStmt, Cond, Expr, Kind, RelOp};
use fl_base::{Items, Memory};
use reversal::{Scope, scalar, value};
use std::alloc::Global;

fn index_literal(value: u64) -> Expr
    ensures { expr_tree result ≡ literal value kind.Index }
{
    Expr::Lit {
        value,
        kind: Kind::Index,
    }
}

/// The push of an arm's number.
fn arm_number(alloc: Global, scope: &Scope<'_>, line: u32, number: u64) -> Result<AStmt, Memory>
    ensures { IfOk result (λ s. astmt_tree s ≡ forward_rules.arm_number (scope_of scope.now) line number) }
{
    let key = scope.key(alloc)?;
    Ok(AStmt::Push {
        line,
        key,
        value: index_literal(number),
    })
}

/// An arm's statements with its number behind them.
pub fn numbered(
    alloc: Global,
    scope: &Scope<'_>,
    line: u32,
    number: u64,
    body: Result<Items<AStmt>, Memory>,
) -> Result<Items<AStmt>, Memory>
    ensures { IfOk result (λ ss. IsOkAnd body (λ b. map astmt_tree ss ≡ map astmt_tree b ++ forward_rules.arm_number (scope_of scope.now) line number ∷ [])) }
{
    let mut body = body?;
    body.push(arm_number(alloc, scope, line, number)?)?;
    Ok(body)
}

/// The condition that an arm was taken.
fn arm_test(alloc: Global, number: u64) -> Result<Cond, Memory>
    ensures { IfOk result (λ t. cond_tree t ≡ reverse_rules.is_arm number) }
{
    let left = value(alloc, b"formad_w")?;
    Ok(Cond::Rel {
        op: RelOp::Eq,
        left,
        right: index_literal(number),
    })
}

/// An arm of the forward part, under the program's condition.
pub fn forward_arm(
    alloc: Global,
    test: &Cond,
    body: Result<Items<AStmt>, Memory>,
) -> Result<AArm, Memory>
    ensures { IfOk result (λ a. IsOkAnd body (λ b. aarm_tree a ≡ (cond_tree test.now, adjoint_statements_of (map astmt_tree b)))) }
{
    let body = body?;
    let test = test.clone(alloc)?;
    Ok(AArm { test, body })
}

/// An arm of the reverse part.
pub fn backward_arm(
    alloc: Global,
    number: u64,
    body: Result<Items<AStmt>, Memory>,
) -> Result<AArm, Memory>
    ensures { IfOk result (λ a. IsOkAnd body (λ b. aarm_tree a ≡ (reverse_rules.is_arm number, adjoint_statements_of (map astmt_tree b)))) }
{
    let body = body?;
    let test = arm_test(alloc, number)?;
    Ok(AArm { test, body })
}

/// Adds an If.
pub fn push_branch(
    line: u32,
    arms: Result<Items<AArm>, Memory>,
    other: Result<Items<AStmt>, Memory>,
    statements: &mut Items<AStmt>,
) -> Result<(), Memory>
    ensures { OnOk result (IsOkAnd arms (λ a. IsOkAnd other (λ o.
        map astmt_tree statements.new ≡ map astmt_tree statements.old ++ adjoint_branch line (aarm_trees a) (astmt_trees o) ∷ []))) }
{
    let arms = arms?;
    let other = other?;
    statements.push(AStmt::If { line, arms, other })
}

/// The pop of the number of the arm that was taken.
fn popped_number(alloc: Global, scope: &Scope<'_>, line: u32) -> Result<AStmt, Memory>
    ensures { IfOk result (λ s. astmt_tree s ≡ pop_lem line (scope_of scope.now).key (own.scalar own.w_name)) }
{
    let key = scope.key(alloc)?;
    let target = scalar(alloc, b"formad_w")?;
    Ok(AStmt::Pop { line, key, target })
}

/// Adds the pop of the number of the arm that was taken.
pub fn push_popped_number(
    alloc: Global,
    scope: &Scope<'_>,
    line: u32,
    statements: &mut Items<AStmt>,
) -> Result<(), Memory>
    ensures { OnOk result (map astmt_tree statements.new ≡ map astmt_tree statements.old ++ pop_lem line (scope_of scope.now).key (own.scalar own.w_name) ∷ []) }
{
    statements.push(popped_number(alloc, scope, line)?)
}
