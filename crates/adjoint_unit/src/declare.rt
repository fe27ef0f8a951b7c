//! The declarations of an adjoint.

ghost use Rattle.std.specs.Prelude.{◌≡◌, ◌++◌, ◌∷◌, [], IfOk, OnOk, map, flat_map};
ghost use Rattle.fl_ast.specs.Tree.{stmt_trees};
ghost use Rattle.fl_types.specs.Sharing.{has_name as has_name_lem};
ghost use Rattle.adjoint_rules.specs.OwnNames as own;
ghost use Rattle.adjoint_rules.specs.Clauses.{bound_names, loop_numbers_in};
ghost use Rattle.adjoint_rules.specs.Declarations as rules;

use fl_ast::{Decl, Intent, Kind, Name, Program, Stmt, bytes_of};
use fl_base::{Items, Memory};
use fl_types::NameSet;
use loop_names::push_bounds_in;
use reversal::{declared, is_ring_kind};
use std::alloc::Global;

/// The bytes of data: those of the first name of the ring kind, and 8 where there is none.
fn data_bytes(decls: &[Decl]) -> u32
    ensures { result ≡ rules.data_bytes decls.now }
{
    for decl in decls {
        if is_ring_kind(decl.kind) {
            return decl.bytes;
        }
    }
    bytes_of(Kind::Ring)
}

/// The declaration of a scalar of the adjoint's own.
fn own_decl(alloc: Global, line: u32, kind: Kind, bytes: u32, name: &[u8]) -> Result<Decl, Memory>
    ensures { IfOk result (λ d. d ≡ rules.own_decl line kind bytes name.now) }
{
    let name = Name::of(alloc, name)?;
    Ok(Decl {
        line,
        name,
        kind,
        bytes,
        intent: Intent::Unsaid,
        dims: Items::new(alloc),
    })
}

/// The adjoint's own scalars of the index kind: the bounds of all loops, an iteration's number and an arm's.
fn index_names(alloc: Global, body: &[Stmt]) -> Result<Items<Name>, Memory>
    ensures { IfOk result (λ names. names ≡ flat_map bound_names (loop_numbers_in (stmt_trees body.now)) ++ own.k_name ∷ own.w_name ∷ []) }
{
    let mut names = Items::new(alloc);
    push_bounds_in(alloc, body, &mut names)?;
    names.push(Name::of(alloc, b"formad_k")?)?;
    names.push(Name::of(alloc, b"formad_w")?)?;
    Ok(names)
}

fn push_index_decls(
    alloc: Global,
    line: u32,
    names: &[Name],
    decls: &mut Items<Decl>,
) -> Result<(), Memory>
    ensures { OnOk result (decls.new ≡ decls.old ++ map (rules.index_decl line) names.now) }
{
    for name in names {
        let bytes = bytes_of(Kind::Index);
        decls.push(own_decl(alloc, line, Kind::Index, bytes, name.bytes())?)?;
    }
    Ok(())
}

/// The declarations of the adjoint's own scalars.
fn own_decls(alloc: Global, program: &Program) -> Result<Items<Decl>, Memory>
    ensures { IfOk result (λ ds. ds ≡ rules.own_decls program.now.line program.now.decls (stmt_trees program.now.body)) }
{
    let mut decls = Items::new(alloc);
    let names = index_names(alloc, program.body.as_slice())?;
    push_index_decls(alloc, program.line, names.as_slice(), &mut decls)?;
    let bytes = data_bytes(program.decls.as_slice());
    decls.push(own_decl(alloc, program.line, Kind::Ring, bytes, b"formad_t")?)?;
    Ok(decls)
}

/// All declarations: the program's without intents, each active name followed by its adjoint, and the adjoint's own.
pub fn declarations(
    alloc: Global,
    active: &NameSet,
    program: &Program,
) -> Result<Items<Decl>, Memory>
    ensures { IfOk result (λ ds. ds ≡ rules.declarations (λ x. has_name_lem x active.now.names) program.now.line program.now.decls (stmt_trees program.now.body)) }
{
    let mut decls = declared(alloc, active, program.decls.as_slice())?;
    decls.append(own_decls(alloc, program)?)?;
    Ok(decls)
}
