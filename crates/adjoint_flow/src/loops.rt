//! Loops of an adjoint, from what the statements of their bodies became.

ghost use Rattle.std.specs.Prelude.{◌≡◌, ◌++◌, IsOkAnd, OnOk, map};
ghost use Rattle.fl_ast.specs.Tree.{stmt_trees};
ghost use Rattle.fl_ast.specs.AdjointTree.{astmt_tree};
ghost use Rattle.adjoint_rules.specs.Forward as forward_rules;
ghost use Rattle.adjoint_rules.specs.Reverse as reverse_rules;
ghost use Rattle.adjoint_rules.specs.Scopes.{in_loop};
ghost use Rattle.reversal.specs.Places.{scope_of};
ghost use Rattle.loop_bounds.specs.Heads.{head_of};

use adjoint_loops::{
    push_backward_loop, push_backward_parallel, push_forward_loop, push_forward_parallel,
};
use fl_ast::{AStmt, Directive, Name, Stmt};
use fl_base::{Items, Memory};
use loop_bounds::LoopHead;
use reversal::{Region, Scope};
use std::alloc::Global;

/// The scope of the statements in a parallel loop.
pub fn inside<'a>(
    scope: &'a Scope<'_>,
    number: u32,
    directive: &'a Directive,
    var: &'a Name,
    body: &'a [Stmt],
) -> Scope<'a>
    ensures { scope_of result ≡ in_loop (scope_of scope.now) number directive.now var.now (stmt_trees body.now) }
{
    let region = Region {
        number,
        directive,
        var,
        body,
    };
    Scope {
        decls: scope.decls,
        active: scope.active,
        needed: scope.needed,
        choices: scope.choices,
        region: Some(region),
    }
}

/// Adds the forward of a sequential loop.
pub fn forward_loop(
    alloc: Global,
    scope: &Scope<'_>,
    head: &LoopHead<'_>,
    made: Result<Items<AStmt>, Memory>,
    statements: &mut Items<AStmt>,
) -> Result<(), Memory>
    ensures { OnOk result (IsOkAnd made (λ ss. map astmt_tree statements.new ≡ map astmt_tree statements.old
        ++ forward_rules.forward_loop (scope_of scope.now) (head_of head.now) (map astmt_tree ss))) }
{
    let made = made?;
    push_forward_loop(alloc, scope, head, made, statements)
}

/// Adds the reverse of a sequential loop.
pub fn backward_loop(
    alloc: Global,
    scope: &Scope<'_>,
    head: &LoopHead<'_>,
    made: Result<Items<AStmt>, Memory>,
    statements: &mut Items<AStmt>,
) -> Result<(), Memory>
    ensures { OnOk result (IsOkAnd made (λ ss. map astmt_tree statements.new ≡ map astmt_tree statements.old
        ++ reverse_rules.backward_loop (scope_of scope.now) (head_of head.now) (map astmt_tree ss))) }
{
    let made = made?;
    push_backward_loop(alloc, scope, head, made, statements)
}

/// Adds the forward of a parallel loop, from what the statements of its iterations became.
pub fn forward_parallel(
    alloc: Global,
    scope: &Scope<'_>,
    directive: &Directive,
    head: &LoopHead<'_>,
    body: &[Stmt],
    made: Result<Items<AStmt>, Memory>,
    statements: &mut Items<AStmt>,
) -> Result<(), Memory>
    ensures { OnOk result (IsOkAnd made (λ ss. map astmt_tree statements.new ≡ map astmt_tree statements.old
        ++ forward_rules.forward_parallel (scope_of scope.now) directive.now (head_of head.now) (stmt_trees body.now) (map astmt_tree ss))) }
{
    let made = made?;
    push_forward_parallel(alloc, scope, directive, head, body, made, statements)
}

/// Adds the reverse of a parallel loop, from what the statements of its iterations became.
pub fn backward_parallel(
    alloc: Global,
    scope: &Scope<'_>,
    directive: &Directive,
    head: &LoopHead<'_>,
    body: &[Stmt],
    made: Result<Items<AStmt>, Memory>,
    statements: &mut Items<AStmt>,
) -> Result<(), Memory>
    ensures { OnOk result (IsOkAnd made (λ ss. map astmt_tree statements.new ≡ map astmt_tree statements.old
        ++ reverse_rules.backward_parallel (scope_of scope.now) directive.now (head_of head.now) (stmt_trees body.now) (map astmt_tree ss))) }
{
    let made = made?;
    push_backward_parallel(alloc, scope, directive, head, body, made, statements)
}
