//! The adjoint of a program, made of its parts.

ghost use Rattle.std.specs.Prelude.{◌≡◌, ◌++◌, IfOk, IsOkAnd, map};
ghost use Rattle.fl_ast.specs.Tree.{stmt_trees, program_tree};
ghost use Rattle.fl_ast.specs.AdjointTree.{adjoint_tree, astmt_tree};
ghost use Rattle.fl_types.specs.Sharing.{has_name as has_name_lem};
ghost use Rattle.adjoint_rules.specs.Adjoint.{adjoint_of};
ghost use Rattle.adjoint_rules.specs.Scopes.{outermost};
ghost use Rattle.adjoint_rules.specs.Declarations as rules;
ghost use Rattle.adjoint_rules.specs.Forward as forward_rules;
ghost use Rattle.adjoint_rules.specs.Reverse as reverse_rules;
ghost use Rattle.adjoint_rules.specs.OwnNames.{adjoint_name as adjoint_name_lem};
ghost use Rattle.reversal.specs.Places.{scope_of};
ghost use Rattle.adjoint_unit.specs.Adjoints.{IsAdjointOf};

use crate::declare::declarations;
use crate::head::head;
use adjoint_flow::{backward_all, forward_all};
use fl_ast::{AStmt, Adjoint, Decl, Program};
use fl_base::{Items, Memory, Name};
use fl_types::{Choices, NameSet};
use needed_names::needed;
use reversal::{Scope, adjoint_name, arguments};
use std::alloc::Global;

/// The scope of the statements outside parallel loops.
fn outside<'a>(
    program: &'a Program,
    active: &'a NameSet,
    needed: &'a NameSet,
    choices: &'a Choices,
) -> Scope<'a>
    ensures { scope_of result ≡ outermost program.now (λ x. has_name_lem x active.now.names) (λ x. has_name_lem x needed.now.names) choices.now.entries }
{
    Scope {
        decls: program.decls.as_slice(),
        active,
        needed,
        choices: choices.entries.as_slice(),
        region: None,
    }
}

/// The forward part: the head, and then the program's statements.
fn forward_part(alloc: Global, scope: &Scope<'_>, program: &Program) -> Result<Items<AStmt>, Memory>
    ensures { IfOk result (λ ss. map astmt_tree ss ≡ rules.head (scope_of scope.now) program.now ++ forward_rules.forward_all (stmt_trees program.now.body) (scope_of scope.now)) }
{
    let mut statements = head(alloc, scope, program)?;
    statements.append(forward_all(alloc, program.body.as_slice(), scope)?)?;
    Ok(statements)
}

/// What stands before an adjoint's statements.
#[derive(Drop)]
struct Front {
    name: Name,
    args: Items<Name>,
    decls: Items<Decl>,
}

fn front_of(alloc: Global, program: &Program, active: &NameSet) -> Result<Front, Memory>
    ensures { IfOk result (λ f. f ≡ record {
      name = adjoint_name_lem program.now.name;
      args = rules.arguments (λ x. has_name_lem x active.now.names) program.now.args;
      decls = rules.declarations (λ x. has_name_lem x active.now.names) program.now.line program.now.decls (stmt_trees program.now.body);
    }) }
{
    let name = adjoint_name(alloc, &program.name)?;
    let args = arguments(alloc, active, program.args.as_slice())?;
    let decls = declarations(alloc, active, program)?;
    Ok(Front { name, args, decls })
}

fn adjoint_with(
    front: Result<Front, Memory>,
    forward: Result<Items<AStmt>, Memory>,
    reverse: Result<Items<AStmt>, Memory>,
    primal: Result<Program, Memory>,
) -> Result<Adjoint, Memory>
    ensures { IfOk result (λ a. IsOkAnd front (λ f. IsOkAnd forward (λ fs. IsOkAnd reverse (λ rs. IsOkAnd primal (λ p.
        a ≡ record { name = f.name; args = f.args; decls = f.decls; forward = fs; reverse = rs; primal = p }))))) }
{
    let forward = forward?;
    let reverse = reverse?;
    let primal = primal?;
    let front = front?;
    Ok(Adjoint {
        name: front.name,
        args: front.args,
        decls: front.decls,
        forward,
        reverse,
        primal,
    })
}

/// The adjoint for needed names.
fn with_needed(
    alloc: Global,
    program: &Program,
    active: &NameSet,
    needed: &NameSet,
    choices: &Choices,
) -> Result<Adjoint, Memory>
    ensures { IfOk result (λ a. adjoint_tree a ≡ adjoint_of program.now (λ x. has_name_lem x active.now.names) (λ x. has_name_lem x needed.now.names) choices.now.entries) }
{
    let scope = outside(program, active, needed, choices);
    adjoint_with(
        front_of(alloc, program, active),
        forward_part(alloc, &scope, program),
        backward_all(alloc, program.body.as_slice(), &scope),
        program.clone(alloc),
    )
}

/// The adjoint of a program for its active names and the choices in its parallel loops. It fails only where memory is
/// wanting.
pub fn reverse(
    alloc: Global,
    program: &Program,
    active: &NameSet,
    choices: &Choices,
) -> Result<Adjoint, Memory>
    ensures { IfOk result (λ a. IsAdjointOf program.now (λ x. has_name_lem x active.now.names) choices.now.entries (adjoint_tree a)) }
{
    let needed = needed(alloc, program, active)?;
    with_needed(alloc, program, active, &needed, choices)
}
