//! Names that are private in some loop.

ghost use Rattle.std.specs.Prelude.{◌≡◌, []};
ghost use Rattle.std.specs.List.{list_any};
ghost use Rattle.fl_ast.specs.Tree.{stmt_tree, stmt_trees, arm_trees};
ghost use Rattle.fl_types.specs.Sharing.{is_private as is_private_lem, loops_of_all};
ghost use Rattle.adjoint_rules.specs.Declarations.{is_private_in};
ghost use Rattle.adjoint_unit.specs.Privates as spec;

use fl_ast::{Arm, Name, Stmt};
use fl_types::Sharing;
use reversal::sharing;

fn is_private(sharing: Sharing) -> bool
    ensures { result ≡ is_private_lem sharing }
{
    match sharing {
        Sharing::Private => true,
        Sharing::Shared | Sharing::First | Sharing::Plus | Sharing::LoopVar => false,
    }
}

#[cycle(private)]
fn is_private_within(name: &Name, stmt: &Stmt) -> bool
    ensures { result ≡ spec.is_private_within name.now (stmt_tree stmt.now) }
{
    match stmt {
        Stmt::Assign { .. } => false,
        Stmt::If { arms, other, .. } => {
            if is_private_in_arms(name, arms.as_slice()) {
                return true;
            }
            is_private_in_all(name, other.as_slice())
        }
        Stmt::Do {
            directive,
            var,
            body,
            ..
        } => match directive {
            None => is_private_in_all(name, body.as_slice()),
            Some(directive) => {
                if is_private(sharing(var, directive, body.as_slice(), name)) {
                    return true;
                }
                is_private_in_all(name, body.as_slice())
            }
        },
    }
}

#[cycle(private)]
fn is_private_in_all(name: &Name, stmts: &[Stmt]) -> bool
    ensures { result ≡ spec.is_private_in_all name.now (stmt_trees stmts.now) }
{
    for stmt in stmts {
        if is_private_within(name, stmt) {
            return true;
        }
    }
    false
}

#[cycle(private)]
fn is_private_in_arms(name: &Name, arms: &[Arm]) -> bool
    ensures { result ≡ spec.is_private_in_arms name.now (arm_trees arms.now) }
{
    for arm in arms {
        if is_private_in_all(name, arm.body.as_slice()) {
            return true;
        }
    }
    false
}

/// Whether a name is private in one of the loops of these statements.
#[tactic(auto, using(crate::proofs::Loops::private_in_all_is))]
pub fn is_private_in_some(name: &Name, stmts: &[Stmt]) -> bool
    ensures { result ≡ list_any (is_private_in name.now) (loops_of_all [] (stmt_trees stmts.now)) }
{
    is_private_in_all(name, stmts)
}
