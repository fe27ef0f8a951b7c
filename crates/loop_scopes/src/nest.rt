ghost use Rattle.std.specs.Prelude.{◌≡◌, true, List, length};
ghost use Rattle.fl_types.specs.Nests.{is_plain_loop as is_plain_loop_lem, is_nest as is_nest_lem};
ghost use Rattle.store_core.specs.declared.layout.Shape.{Shape as LaidShape};
ghost use Rattle.resolved.specs.ResolvedStmts.{statement_back, statements_back};

use fl_ast::Directive;
use resolved::ResolvedStmt;

fn is_plain_loop(stmt: &ResolvedStmt) -> bool
    ensures { (shapes : List LaidShape) → result ≡ is_plain_loop_lem (statement_back shapes stmt.now) }
{
    match stmt {
        ResolvedStmt::Assign { .. } => false,
        ResolvedStmt::If { .. } => false,
        ResolvedStmt::Do { directive, .. } => directive.is_none(),
    }
}

/// Whether a parallel loop with this body is collapsed with the loop in it (OpenMP 5.2, 4.4.3).
pub fn is_nest(directive: &Directive, body: &[ResolvedStmt]) -> bool
    ensures value { (shapes : List LaidShape) → result ≡ is_nest_lem directive.now (statements_back shapes body.now) }
    ensures one { result ≡ true → length body.now ≡ 1 }
{
    if directive.collapse != 2 {
        return false;
    }
    if body.len() != 1 {
        return false;
    }
    is_plain_loop(&body[0])
}
