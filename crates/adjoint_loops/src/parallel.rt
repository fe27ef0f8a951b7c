//! Parallel loops.

ghost use Rattle.std.specs.Prelude.{◌≡◌, ◌++◌, ◌∷◌, [], Some, OnOk, map};
ghost use Rattle.fl_ast.specs.Tree.{stmt_trees};
ghost use Rattle.fl_ast.specs.AdjointTree.{astmt_tree, begin_tapes, end_tapes};
ghost use Rattle.adjoint_rules.specs.Bounds as rules;
ghost use Rattle.adjoint_rules.specs.Clauses as clause_rules;
ghost use Rattle.adjoint_rules.specs.Forward as forward_rules;
ghost use Rattle.adjoint_rules.specs.Reverse as reverse_rules;
ghost use Rattle.adjoint_rules.specs.OwnNames as own;
ghost use Rattle.reversal.specs.Places.{scope_of};
ghost use Rattle.loop_bounds.specs.Heads.{head_of};
ghost use Rattle.adjoint_loops.specs.Further.{heads_of};
ghost use Rattle.adjoint_loops.specs.Iterations as spec;

use crate::around::push_around;
use crate::heads::{further, push_all_pops, push_all_pushes, push_all_settings, total};
use crate::iteration::{backward_iteration, forward_iteration};
use crate::statement::{closed, opened};
use fl_ast::{AStmt, Directive, Stmt};
use fl_base::{Boxed, Items, Memory};
use loop_bounds::LoopHead;
use loop_names::{backward_clauses, forward_clauses};
use reversal::{Region, Scope, main_tape};
use std::alloc::Global;

/// Adds what comes before the forward loop: its bounds, and a tape for each iteration.
fn push_forward_opening(
    alloc: Global,
    head: &LoopHead<'_>,
    further: &Option<LoopHead<'_>>,
    statements: &mut Items<AStmt>,
) -> Result<(), Memory>
    ensures { OnOk result (map astmt_tree statements.new ≡ map astmt_tree statements.old
        ++ (rules.all_settings (head_of head.now ∷ heads_of further.now) ++ begin_tapes head.now.line (rules.total (head_of head.now) (heads_of further.now)) ∷ [])) }
{
    push_all_settings(alloc, head, further, statements)?;
    let count = total(alloc, head, further)?;
    statements.push(opened(head.line, count))
}

/// Adds what comes after the forward loop: the end of the tapes, and the pushes of the bounds.
fn push_forward_closing(
    alloc: Global,
    head: &LoopHead<'_>,
    further: &Option<LoopHead<'_>>,
    statements: &mut Items<AStmt>,
) -> Result<(), Memory>
    ensures { OnOk result (map astmt_tree statements.new ≡ map astmt_tree statements.old
        ++ (end_tapes head.now.line ∷ rules.all_pushes own.main_tape (head_of head.now ∷ heads_of further.now))) }
{
    statements.push(closed(head.line))?;
    let key = Boxed::new(alloc, main_tape(alloc)?)?;
    push_all_pushes(alloc, key.get(), head, further, statements)
}

/// Adds what comes before the reverse's loop: its bounds, and the tapes of the iterations.
fn push_backward_opening(
    alloc: Global,
    head: &LoopHead<'_>,
    further: &Option<LoopHead<'_>>,
    statements: &mut Items<AStmt>,
) -> Result<(), Memory>
    ensures { OnOk result (map astmt_tree statements.new ≡ map astmt_tree statements.old
        ++ (rules.all_pops own.main_tape (head_of head.now ∷ heads_of further.now) ++ begin_tapes head.now.line own.main_tape ∷ [])) }
{
    let key = Boxed::new(alloc, main_tape(alloc)?)?;
    push_all_pops(alloc, key.get(), head, further, statements)?;
    statements.push(opened(head.line, key))
}

fn push_forward_iterations(
    alloc: Global,
    scope: &Scope<'_>,
    region: &Region<'_>,
    head: &LoopHead<'_>,
    further: &Option<LoopHead<'_>>,
    made: Items<AStmt>,
    statements: &mut Items<AStmt>,
) -> Result<(), Memory>
    ensures { OnOk result (map astmt_tree statements.new ≡ map astmt_tree statements.old
        ++ rules.loops_around (Some (clause_rules.forward_clauses (scope_of scope.now) region.now.var.now region.now.directive.now (stmt_trees region.now.body.now))) (head_of head.now) (heads_of further.now)
        (spec.forward_around (scope_of scope.now) region.now.var.now region.now.directive.now (head_of head.now) (stmt_trees region.now.body.now) (map astmt_tree made)) ∷ []) }
{
    let iteration = forward_iteration(alloc, scope, region, head, made)?;
    let clauses = forward_clauses(alloc, scope, region)?;
    push_around(alloc, clauses, head, further, iteration, statements)
}

fn push_backward_iterations(
    alloc: Global,
    scope: &Scope<'_>,
    region: &Region<'_>,
    head: &LoopHead<'_>,
    further: &Option<LoopHead<'_>>,
    made: Items<AStmt>,
    statements: &mut Items<AStmt>,
) -> Result<(), Memory>
    ensures { OnOk result (map astmt_tree statements.new ≡ map astmt_tree statements.old
        ++ rules.loops_around (Some (clause_rules.backward_clauses (scope_of scope.now) region.now.number region.now.var.now region.now.directive.now (stmt_trees region.now.body.now))) (head_of head.now) (heads_of further.now)
        (spec.backward_around (scope_of scope.now) region.now.var.now region.now.directive.now (head_of head.now) (stmt_trees region.now.body.now) (map astmt_tree made)) ∷ []) }
{
    let iteration = backward_iteration(alloc, scope, region, head, made)?;
    let clauses = backward_clauses(alloc, scope, region)?;
    push_around(alloc, clauses, head, further, iteration, statements)
}

/// Adds the forward of a parallel loop, `made` being what the statements of an iteration became.
pub fn push_forward_parallel(
    alloc: Global,
    scope: &Scope<'_>,
    directive: &Directive,
    head: &LoopHead<'_>,
    body: &[Stmt],
    made: Items<AStmt>,
    statements: &mut Items<AStmt>,
) -> Result<(), Memory>
    ensures { OnOk result (map astmt_tree statements.new ≡ map astmt_tree statements.old
        ++ forward_rules.forward_parallel (scope_of scope.now) directive.now (head_of head.now) (stmt_trees body.now) (map astmt_tree made)) }
{
    let region = Region {
        number: head.number,
        directive,
        var: head.var,
        body,
    };
    let further = further(directive, body);
    push_forward_opening(alloc, head, &further, statements)?;
    push_forward_iterations(alloc, scope, &region, head, &further, made, statements)?;
    push_forward_closing(alloc, head, &further, statements)
}

/// Adds the reverse of a parallel loop, `made` being what the statements of an iteration became. The iterations run from
/// the first to the last, each from its own tape.
pub fn push_backward_parallel(
    alloc: Global,
    scope: &Scope<'_>,
    directive: &Directive,
    head: &LoopHead<'_>,
    body: &[Stmt],
    made: Items<AStmt>,
    statements: &mut Items<AStmt>,
) -> Result<(), Memory>
    ensures { OnOk result (map astmt_tree statements.new ≡ map astmt_tree statements.old
        ++ reverse_rules.backward_parallel (scope_of scope.now) directive.now (head_of head.now) (stmt_trees body.now) (map astmt_tree made)) }
{
    let region = Region {
        number: head.number,
        directive,
        var: head.var,
        body,
    };
    let further = further(directive, body);
    push_backward_opening(alloc, head, &further, statements)?;
    push_backward_iterations(alloc, scope, &region, head, &further, made, statements)?;
    statements.push(closed(head.line))
}
