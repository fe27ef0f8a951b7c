//! The forward and the reverse of plain assignments.

ghost use Rattle.std.specs.Prelude.{◌≡◌, ◌++◌, ◌∷◌, [], false, None, IfOk, OnOk, map};
ghost use Rattle.fl_ast.specs.Tree.{place_tree, expr_tree};
ghost use Rattle.fl_ast.specs.AdjointTree.{aexpr_tree, astmt_tree, push as push_lem, pop as pop_lem, adjoint_get};
ghost use Rattle.fl_types.specs.Increment.{target_of};
ghost use Rattle.adjoint_rules.specs.Expressions as rules;
ghost use Rattle.adjoint_rules.specs.Forward as forward_rules;
ghost use Rattle.adjoint_rules.specs.Reverse as reverse_rules;
ghost use Rattle.reversal.specs.Places.{scope_of};
ghost use Rattle.reversal.specs.Growth.{growths};

use crate::expression::{get, in_adjoint, literal};
use crate::growth::push_growths;
use crate::name::{adjoint_place, temporary};
use crate::scope::Scope;
use fl_ast::{AStmt, Expr, Kind, Place};
use fl_base::{Items, Memory};
use std::alloc::Global;

/// The push of what a place holds.
fn pushed(alloc: Global, scope: &Scope<'_>, line: u32, place: &Place) -> Result<AStmt, Memory>
    ensures { IfOk result (λ s. astmt_tree s ≡ push_lem line (scope_of scope.now).key (target_of (place_tree place.now))) }
{
    let key = scope.key(alloc)?;
    let value = Expr::Get(place.clone(alloc)?);
    Ok(AStmt::Push { line, key, value })
}

fn popped(alloc: Global, scope: &Scope<'_>, line: u32, place: &Place) -> Result<AStmt, Memory>
    ensures { IfOk result (λ s. astmt_tree s ≡ pop_lem line (scope_of scope.now).key (place_tree place.now)) }
{
    let key = scope.key(alloc)?;
    let target = place.clone(alloc)?;
    Ok(AStmt::Pop { line, key, target })
}

/// The assignment as it stands.
pub fn kept(
    alloc: Global,
    line: u32,
    atomic: bool,
    target: &Place,
    value: &Expr,
) -> Result<AStmt, Memory>
    ensures { IfOk result (λ s. astmt_tree s ≡ forward_rules.kept line atomic (place_tree target.now) (expr_tree value.now)) }
{
    let target = target.clone(alloc)?;
    let value = in_adjoint(alloc, value)?;
    Ok(AStmt::Assign {
        line,
        atomic,
        target,
        value: value.into_inner(),
    })
}

/// Adds the push of what the target holds, where it is needed, and the assignment.
pub fn push_forward_plain(
    alloc: Global,
    scope: &Scope<'_>,
    line: u32,
    atomic: bool,
    target: &Place,
    value: &Expr,
    forward: &mut Items<AStmt>,
) -> Result<(), Memory>
    ensures { OnOk result (map astmt_tree forward.new ≡ map astmt_tree forward.old
        ++ forward_rules.forward_assignment (scope_of scope.now) line atomic (place_tree target.now) (expr_tree value.now) None) }
{
    if scope.is_needed(&target.name) {
        forward.push(pushed(alloc, scope, line, target)?)?;
    }
    forward.push(kept(alloc, line, atomic, target, value)?)
}

pub fn taken(alloc: Global, line: u32, target: &Place) -> Result<AStmt, Memory>
    ensures { IfOk result (λ s. astmt_tree s ≡ rules.taken line (place_tree target.now)) }
{
    let adjoint = adjoint_place(alloc, target)?;
    let value = get(alloc, &adjoint)?;
    Ok(AStmt::Assign {
        line,
        atomic: false,
        target: temporary(alloc)?,
        value: value.into_inner(),
    })
}

/// The adjoint of a place set to zero.
pub fn cleared(alloc: Global, line: u32, target: &Place) -> Result<AStmt, Memory>
    ensures { IfOk result (λ s. astmt_tree s ≡ rules.cleared line (place_tree target.now)) }
{
    Ok(AStmt::Assign {
        line,
        atomic: false,
        target: adjoint_place(alloc, target)?,
        value: literal(0, Kind::Ring),
    })
}

/// Adds the moves of the target's adjoint to the temporary.
fn push_moved(
    alloc: Global,
    line: u32,
    target: &Place,
    reverse: &mut Items<AStmt>,
) -> Result<(), Memory>
    ensures { OnOk result (map astmt_tree reverse.new ≡ map astmt_tree reverse.old ++ rules.moved line (place_tree target.now)) }
{
    reverse.push(taken(alloc, line, target)?)?;
    reverse.push(cleared(alloc, line, target)?)
}

/// Adds the pop of the old value, where it was pushed.
fn push_restored(
    alloc: Global,
    scope: &Scope<'_>,
    line: u32,
    target: &Place,
    reverse: &mut Items<AStmt>,
) -> Result<(), Memory>
    ensures { OnOk result (map astmt_tree reverse.new ≡ map astmt_tree reverse.old ++ reverse_rules.restored (scope_of scope.now) line (place_tree target.now)) }
{
    if scope.is_needed(&target.name) {
        reverse.push(popped(alloc, scope, line, target)?)?;
    }
    Ok(())
}

/// Adds what the operands' adjoints grow by.
fn push_spread(
    alloc: Global,
    scope: &Scope<'_>,
    line: u32,
    value: &Expr,
    reverse: &mut Items<AStmt>,
) -> Result<(), Memory>
    ensures { OnOk result (map astmt_tree reverse.new ≡ map astmt_tree reverse.old ++ reverse_rules.spread (scope_of scope.now) line (expr_tree value.now) None) }
{
    let amount = get(alloc, &temporary(alloc)?)?;
    let growth = scope.growth(line);
    push_growths(alloc, &growth, value, false, amount.get(), reverse)
}

/// Adds the reverse: the target's adjoint is moved, its old value restored, and the adjoint spread.
pub fn push_backward_plain(
    alloc: Global,
    scope: &Scope<'_>,
    line: u32,
    target: &Place,
    value: &Expr,
    reverse: &mut Items<AStmt>,
) -> Result<(), Memory>
    ensures { OnOk result (map astmt_tree reverse.new ≡ map astmt_tree reverse.old
        ++ reverse_rules.backward_plain (scope_of scope.now) line (place_tree target.now) (expr_tree value.now)) }
{
    if !scope.is_active(&target.name) {
        return push_restored(alloc, scope, line, target, reverse);
    }
    push_moved(alloc, line, target, reverse)?;
    push_restored(alloc, scope, line, target, reverse)?;
    push_spread(alloc, scope, line, value, reverse)
}
