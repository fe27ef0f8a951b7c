ghost use Rattle.std.specs.Prelude.{◌≡◌, bytes_eq};
ghost use Rattle.std.specs.List.{list_any};
ghost use Rattle.fl_ast.specs.Tree.{stmt_tree, stmt_trees, arm_trees};
ghost use Rattle.store_core.specs.Scopes.{is_listed_private, scopes, scopes_in, scopes_in_arms};

use fl_ast::{Arm, Directive, Name, Stmt};

/// Whether a name is the variable of a loop in the statement, or private in one.
#[cycle(scopes)]
fn scopes(stmt: &Stmt, name: &Name) -> bool
    ensures { result ≡ scopes name.now (stmt_tree stmt.now) }
{
    match stmt {
        Stmt::Assign { .. } => false,
        Stmt::If { arms, other, .. } => {
            arms_scope(arms.as_slice(), name) || any_scopes(other.as_slice(), name)
        }
        Stmt::Do {
            directive,
            var,
            body,
            ..
        } => { name.is(var) || lists_private(directive, name) || any_scopes(body.as_slice(), name) }
    }
}

/// The same of some of the statements.
#[cycle(scopes)]
pub(crate) fn any_scopes(stmts: &[Stmt], name: &Name) -> bool
    ensures { result ≡ scopes_in name.now (stmt_trees stmts.now) }
{
    for stmt in stmts {
        if scopes(stmt, name) {
            return true;
        }
    }
    false
}

#[cycle(scopes)]
fn arms_scope(arms: &[Arm], name: &Name) -> bool
    ensures { result ≡ scopes_in_arms name.now (arm_trees arms.now) }
{
    for arm in arms {
        if any_scopes(arm.body.as_slice(), name) {
            return true;
        }
    }
    false
}

fn lists_private(directive: &Option<Directive>, name: &Name) -> bool
    ensures { result ≡ is_listed_private name.now directive.now }
{
    match directive {
        Some(directive) => is_among(directive.privates.as_slice(), name),
        None => false,
    }
}

/// Whether a name is one of the names.
pub(crate) fn is_among(names: &[Name], name: &Name) -> bool
    ensures { result ≡ list_any (λ one. bytes_eq name.now one) names.now }
{
    names.iter().any(|one| name.bytes() == one.bytes())
}
