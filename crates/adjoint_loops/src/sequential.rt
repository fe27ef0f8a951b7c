//! Loops that aren't parallel.

ghost use Rattle.std.specs.Prelude.{◌≡◌, ◌++◌, OnOk, map};
ghost use Rattle.fl_ast.specs.AdjointTree.{astmt_tree};
ghost use Rattle.adjoint_rules.specs.Bounds as rules;
ghost use Rattle.adjoint_rules.specs.Forward as forward_rules;
ghost use Rattle.adjoint_rules.specs.Reverse as reverse_rules;
ghost use Rattle.reversal.specs.Places.{scope_of};
ghost use Rattle.loop_bounds.specs.Heads.{head_of};

use crate::around::{backward_front, forward_front, push_looped};
use fl_ast::AStmt;
use fl_base::{Boxed, Items, Memory};
use loop_bounds::{LoopHead, push_pops, push_pushes, push_settings};
use reversal::Scope;
use std::alloc::Global;

/// Adds the pushes of a loop's bounds onto the tape of the place.
fn push_pushes_here(
    alloc: Global,
    scope: &Scope<'_>,
    head: &LoopHead<'_>,
    statements: &mut Items<AStmt>,
) -> Result<(), Memory>
    ensures { OnOk result (map astmt_tree statements.new ≡ map astmt_tree statements.old ++ rules.pushes (scope_of scope.now).key (head_of head.now)) }
{
    let key = Boxed::new(alloc, scope.key(alloc)?)?;
    push_pushes(alloc, key.get(), head, statements)
}

fn push_pops_here(
    alloc: Global,
    scope: &Scope<'_>,
    head: &LoopHead<'_>,
    statements: &mut Items<AStmt>,
) -> Result<(), Memory>
    ensures { OnOk result (map astmt_tree statements.new ≡ map astmt_tree statements.old ++ rules.pops (scope_of scope.now).key (head_of head.now)) }
{
    let key = Boxed::new(alloc, scope.key(alloc)?)?;
    push_pops(alloc, key.get(), head, statements)
}

/// Adds the forward of a loop, `made` being what the statements of its body became.
pub fn push_forward_loop(
    alloc: Global,
    scope: &Scope<'_>,
    head: &LoopHead<'_>,
    made: Items<AStmt>,
    statements: &mut Items<AStmt>,
) -> Result<(), Memory>
    ensures { OnOk result (map astmt_tree statements.new ≡ map astmt_tree statements.old
        ++ forward_rules.forward_loop (scope_of scope.now) (head_of head.now) (map astmt_tree made)) }
{
    push_settings(alloc, head, statements)?;
    push_looped(head, forward_front(alloc, head), made, statements)?;
    push_pushes_here(alloc, scope, head, statements)
}

/// Adds the reverse of a loop, from the last turn to the first, `made` being what the statements of its body became.
pub fn push_backward_loop(
    alloc: Global,
    scope: &Scope<'_>,
    head: &LoopHead<'_>,
    made: Items<AStmt>,
    statements: &mut Items<AStmt>,
) -> Result<(), Memory>
    ensures { OnOk result (map astmt_tree statements.new ≡ map astmt_tree statements.old
        ++ reverse_rules.backward_loop (scope_of scope.now) (head_of head.now) (map astmt_tree made)) }
{
    push_pops_here(alloc, scope, head, statements)?;
    push_looped(head, backward_front(alloc, head), made, statements)
}
