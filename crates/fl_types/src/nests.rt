ghost use Rattle.std.specs.Prelude.{◌≡◌};
ghost use Rattle.fl_ast.specs.Tree.{stmt_tree, stmt_trees};
ghost use Rattle.fl_types.specs.Nests as nests;

use fl_ast::{Directive, Stmt};

fn is_plain_loop(stmt: &Stmt) -> bool
    ensures { result ≡ nests.is_plain_loop (stmt_tree stmt.now) }
{
    match stmt {
        Stmt::Assign { .. } | Stmt::If { .. } => false,
        Stmt::Do { directive, .. } => match directive {
            None => true,
            Some(_) => false,
        },
    }
}

#[tactic(auto, using(crate::proofs::Lists::many_alone))]
fn is_one_loop(stmts: &[Stmt]) -> bool
    ensures { result ≡ nests.is_one_loop (stmt_trees stmts.now) }
{
    match stmts {
        [stmt] => is_plain_loop(stmt),
        _ => false,
    }
}

/// Whether a parallel loop with this body is collapsed with the loop in it (OpenMP 5.2, 4.4.3).
pub fn is_nest(directive: &Directive, body: &[Stmt]) -> bool
    ensures { result ≡ nests.is_nest directive.now (stmt_trees body.now) }
{
    directive.collapse == 2 && is_one_loop(body)
}

fn statements_in(stmt: &Stmt) -> &[Stmt]
    ensures { stmt_trees result.now ≡ nests.statements_in (stmt_tree stmt.now) }
{
    match stmt {
        Stmt::Assign { .. } | Stmt::If { .. } => &[],
        Stmt::Do { body, .. } => body.as_slice(),
    }
}

fn inner_body(stmts: &[Stmt]) -> &[Stmt]
    ensures { stmt_trees result.now ≡ nests.inner_body (stmt_trees stmts.now) }
{
    match stmts {
        [] => &[],
        [stmt, ..] => statements_in(stmt),
    }
}

/// The statements of an iteration of a parallel loop: those of the inner loop where two are collapsed.
pub fn iteration_body<'t>(directive: &Directive, body: &'t [Stmt]) -> &'t [Stmt]
    ensures { stmt_trees result.now ≡ nests.iteration_body directive.now (stmt_trees body.now) }
{
    if is_nest(directive, body) {
        inner_body(body)
    } else {
        body
    }
}
