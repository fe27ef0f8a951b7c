//! The head of an adjoint: scalars that are no arguments begin at zero, as Fortran gives them no value.

ghost use Rattle.std.specs.Prelude.{◌≡◌, ◌++◌, OnOk, map, IfOk};
ghost use Rattle.fl_ast.specs.AdjointTree.{astmt_tree};
ghost use Rattle.adjoint_rules.specs.Declarations as rules;
ghost use Rattle.adjoint_rules.specs.OwnNames as own;
ghost use Rattle.adjoint_rules.specs.Expressions.{cleared as cleared_lem};
ghost use Rattle.reversal.specs.Places.{scope_of};

use crate::private::is_private_in_some;
use adjoint_loops::zeroed;
use fl_ast::{AStmt, Decl, Name, Program};
use fl_base::{Items, Memory};
use reversal::{Scope, cleared, has_name, scalar, varies_in};
use std::alloc::Global;

/// Whether a declared name is a scalar that is no argument, and neither private nor a loop's variable.
fn is_local(program: &Program, decl: &Decl) -> bool
    ensures { result ≡ rules.is_local program.now decl.now }
{
    if !decl.dims.is_empty() {
        return false;
    }
    if has_name(&decl.name, program.args.as_slice()) {
        return false;
    }
    if varies_in(&decl.name, program.body.as_slice()) {
        return false;
    }
    !is_private_in_some(&decl.name, program.body.as_slice())
}

fn cleared_scalar(alloc: Global, line: u32, name: &Name) -> Result<AStmt, Memory>
    ensures { IfOk result (λ s. astmt_tree s ≡ cleared_lem line (own.scalar name.now)) }
{
    let target = scalar(alloc, name.bytes())?;
    cleared(alloc, line, &target)
}

/// Adds the beginning of a name: where it is such a scalar, it is set, and then its adjoint.
fn push_beginning(
    alloc: Global,
    scope: &Scope<'_>,
    program: &Program,
    decl: &Decl,
    statements: &mut Items<AStmt>,
) -> Result<(), Memory>
    ensures { OnOk result (map astmt_tree statements.new ≡ map astmt_tree statements.old ++ rules.beginning (scope_of scope.now) program.now.line program.now decl.now) }
{
    if !is_local(program, decl) {
        return Ok(());
    }
    statements.push(zeroed(alloc, scope, program.line, &decl.name)?)?;
    if has_name(&decl.name, scope.active.names.as_slice()) {
        statements.push(cleared_scalar(alloc, program.line, &decl.name)?)?;
    }
    Ok(())
}

/// The head of an adjoint.
pub fn head(alloc: Global, scope: &Scope<'_>, program: &Program) -> Result<Items<AStmt>, Memory>
    ensures { IfOk result (λ ss. map astmt_tree ss ≡ rules.head (scope_of scope.now) program.now) }
{
    let mut statements = Items::new(alloc);
    for decl in program.decls.as_slice() {
        push_beginning(alloc, scope, program, decl, &mut statements)?;
    }
    Ok(statements)
}
