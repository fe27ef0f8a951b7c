//! Assigned names.

ghost use Rattle.std.specs.Prelude.{◌≡◌};
ghost use Rattle.fl_ast.specs.Tree.{stmt_tree, stmt_trees, arm_trees};
ghost use Rattle.fl_types.specs.Sharing as sharing;

use fl_ast::{Arm, Name, Stmt};

#[cycle(assigns)]
fn assigns(name: &Name, stmt: &Stmt) -> bool
    ensures { result ≡ sharing.assigns name.now (stmt_tree stmt.now) }
{
    match stmt {
        Stmt::Assign { target, .. } => name.is(&target.name),
        Stmt::If { arms, other, .. } => {
            assigns_in_arms(name, arms.as_slice()) || assigns_in(name, other.as_slice())
        }
        Stmt::Do { body, .. } => assigns_in(name, body.as_slice()),
    }
}

/// Whether a name is assigned in these statements. A loop doesn't assign its variable.
#[cycle(assigns)]
pub fn assigns_in(name: &Name, stmts: &[Stmt]) -> bool
    ensures { result ≡ sharing.assigns_in name.now (stmt_trees stmts.now) }
{
    for stmt in stmts {
        if assigns(name, stmt) {
            return true;
        }
    }
    false
}

#[cycle(assigns)]
fn assigns_in_arms(name: &Name, arms: &[Arm]) -> bool
    ensures { result ≡ sharing.assigns_in_arms name.now (arm_trees arms.now) }
{
    for arm in arms {
        if assigns_in(name, arm.body.as_slice()) {
            return true;
        }
    }
    false
}
