//! The head of the inner one of two collapsed loops.

ghost use Rattle.std.specs.Prelude.{◌≡◌, option_map};
ghost use Rattle.fl_ast.specs.Tree.{stmt_tree, stmt_trees};
ghost use Rattle.fl_types.specs.Nests as nests;
ghost use Rattle.loop_scenes.specs.Inner.{head_seen};

use fl_ast::{Directive, Expr, Name, Stmt};
use fl_types::is_nest;

/// The head of a loop, at its line.
#[derive(Clone, Copy)]
pub struct InnerHead<'t> {
    pub line: u32,
    pub var: &'t Name,
    pub first: &'t Expr,
    pub last: &'t Expr,
    pub step: &'t Option<Expr>,
}

fn head_of(stmt: &Stmt) -> Option<InnerHead<'_>>
    ensures { option_map head_seen result ≡ nests.head_of (stmt_tree stmt.now) }
{
    match stmt {
        Stmt::Assign { .. } | Stmt::If { .. } => None,
        Stmt::Do {
            line,
            var,
            first,
            last,
            step,
            ..
        } => Some(InnerHead {
            line: *line,
            var,
            first,
            last,
            step,
        }),
    }
}

fn first_head(stmts: &[Stmt]) -> Option<InnerHead<'_>>
    ensures { option_map head_seen result ≡ nests.inner_head (stmt_trees stmts.now) }
{
    match stmts {
        [] => None,
        [stmt, ..] => head_of(stmt),
    }
}

/// The head of the loop that is collapsed with a parallel loop.
pub fn further_head<'t>(directive: &Directive, body: &'t [Stmt]) -> Option<InnerHead<'t>>
    ensures { option_map head_seen result ≡ nests.further_head directive.now (stmt_trees body.now) }
{
    if !is_nest(directive, body) {
        return None;
    }
    first_head(body)
}
