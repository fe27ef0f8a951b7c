//! A program with the names that are looked up in it.

ghost use Rattle.std.specs.Prelude.{◌≡◌, ◌||◌, List, ℕ, true, IfOk, OnOk, IsTrue};
ghost use Rattle.std.specs.Option.{option_copied};
ghost use Rattle.fl_ast.specs.Tree.{stmt_trees};
ghost use Rattle.fl_types.specs.Kinds.{has_declared_rank};
ghost use Rattle.fl_types.specs.Rows.{is_varying as is_varying_lem, is_private_name as is_private_name_lem, is_private_within_all};
ghost use Rattle.fl_types.specs.Sharing as sharing;
ghost use Rattle.fl_types.specs.Declarations.{is_declared as is_declared_lem};
ghost use Rattle.fl_types.specs.WellTyped.{declaration_of};

use crate::declared::Declared;
use crate::keys::Keys;
use crate::marks::{mark_private, mark_varying};
use fl_ast::{Decl, Kind, Name, Program, Stmt};
use fl_base::Memory;
use std::alloc::Global;
use std::marker::Model;

/// A program whose names are found by search. Contracts see the program.
#[derive(Drop)]
pub struct Indexed<'t> {
    program: &'t Program,
    declared: Declared<'t>,
    ring: Keys<'t>,
    args: Keys<'t>,
    varying: Keys<'t>,
    privates: Keys<'t>,
}

impl<'t> Model for Indexed<'t> {
    ghost use Rattle.std.specs.Coded.{codes};
    ghost use Rattle.fl_ast.specs.declared.stmt.Program.{Program};
    ghost use Rattle.fl_ast.specs.contracts.stmt.Stmt as stmt;
    ghost use Rattle.known_names.specs.Found.{AreIndexed};

    ghost Value = { Program };

    ghost coded = { Prim.hlevel (codes, stmt.the_row.coded) };

    ghost view = { λ s. s.program.now };

    ghost invariant = { λ s. AreIndexed s.program.now s.declared s.ring s.args s.varying s.privates };
}

fn is_ring_kind(kind: Kind) -> bool
    ensures { result ≡ sharing.is_ring_kind kind }
{
    match kind {
        Kind::Ring => true,
        Kind::Index => false,
    }
}

/// Adds the names that are declared as data.
fn mark_data<'t>(decls: &'t [Decl], keys: &mut Keys<'t>) -> Result<(), Memory>
    ensures { OnOk result ((x : List ℕ) → sharing.has_name x keys.new ≡ (sharing.is_ring_name decls.now x || sharing.has_name x keys.old)) }
{
    for decl in decls {
        if is_ring_kind(decl.kind) {
            keys.insert(&decl.name)?;
        }
    }
    Ok(())
}

fn data_of<'t>(alloc: Global, decls: &'t [Decl]) -> Result<Keys<'t>, Memory>
    ensures { IfOk result (λ keys. (x : List ℕ) → sharing.has_name x keys ≡ sharing.is_ring_name decls.now x) }
{
    let mut keys = Keys::new(alloc);
    mark_data(decls, &mut keys)?;
    Ok(keys)
}

/// Adds the names.
pub fn mark_names<'t>(names: &'t [Name], keys: &mut Keys<'t>) -> Result<(), Memory>
    ensures { OnOk result ((x : List ℕ) → sharing.has_name x keys.new ≡ (sharing.has_name x names.now || sharing.has_name x keys.old)) }
{
    for name in names {
        keys.insert(name)?;
    }
    Ok(())
}

/// The set of the names.
pub fn keys_of<'t>(alloc: Global, names: &'t [Name]) -> Result<Keys<'t>, Memory>
    ensures { IfOk result (λ keys. (x : List ℕ) → sharing.has_name x keys ≡ sharing.has_name x names.now) }
{
    let mut keys = Keys::new(alloc);
    mark_names(names, &mut keys)?;
    Ok(keys)
}

fn varying_of<'t>(alloc: Global, body: &'t [Stmt]) -> Result<Keys<'t>, Memory>
    ensures { IfOk result (λ keys. (x : List ℕ) → sharing.has_name x keys ≡ sharing.varies_in x (stmt_trees body.now)) }
{
    let mut keys = Keys::new(alloc);
    mark_varying(body, &mut keys)?;
    Ok(keys)
}

fn privates_of<'t>(alloc: Global, body: &'t [Stmt]) -> Result<Keys<'t>, Memory>
    ensures { IfOk result (λ keys. (x : List ℕ) → sharing.has_name x keys ≡ is_private_within_all x (stmt_trees body.now)) }
{
    let mut keys = Keys::new(alloc);
    mark_private(alloc, body, &mut keys)?;
    Ok(keys)
}

fn has_rank_somewhere(decls: &[Decl], name: &Name, count: usize) -> bool
    ensures { result ≡ has_declared_rank decls.now name.now count }
{
    decls
        .iter()
        .any(|decl| name.is(&decl.name) && decl.dims.len() == count)
}

impl<'t> Indexed<'t> {
    pub fn of(alloc: Global, program: &'t Program) -> Result<Indexed<'t>, Memory>
        ensures { IfOk result (λ indexed. indexed ≡ program.now) }
    {
        let decls = program.decls.as_slice();
        let declared = Declared::of(alloc, decls)?;
        let ring = data_of(alloc, decls)?;
        let args = keys_of(alloc, program.args.as_slice())?;
        let varying = varying_of(alloc, program.body.as_slice())?;
        let privates = privates_of(alloc, program.body.as_slice())?;
        Ok(Indexed {
            program,
            declared,
            ring,
            args,
            varying,
            privates,
        })
    }

    pub fn program(&self) -> &'t Program
        ensures { result.now ≡ self.now }
    {
        self.program
    }

    /// The first declaration of the name.
    pub fn declaration(&self, name: &Name) -> Option<&'t Decl>
        ensures { option_copied result ≡ declaration_of self.now.decls name.now }
    {
        self.declared.get(name)
    }

    #[tactic(auto, using(crate::proofs::Found::declared_some, crate::proofs::Found::declared_none))]
    pub fn is_declared(&self, name: &Name) -> bool
        ensures { result ≡ is_declared_lem self.now.decls name.now }
    {
        match self.declared.get(name) {
            Some(_) => true,
            None => false,
        }
    }

    pub fn is_data(&self, name: &Name) -> bool
        ensures { result ≡ sharing.is_ring_name self.now.decls name.now }
    {
        self.ring.has(name)
    }

    pub fn is_argument(&self, name: &Name) -> bool
        ensures { result ≡ sharing.has_name name.now self.now.args }
    {
        self.args.has(name)
    }

    /// Whether the name is the variable of a loop.
    pub fn is_varying(&self, name: &Name) -> bool
        ensures { result ≡ is_varying_lem self.now name.now }
    {
        self.varying.has(name)
    }

    /// Whether the name is private in a loop.
    pub fn is_private(&self, name: &Name) -> bool
        ensures { result ≡ is_private_name_lem self.now name.now }
    {
        self.privates.has(name)
    }

    #[tactic(auto, using(crate::proofs::Found::ranked))]
    fn has_first_rank(&self, name: &Name, count: usize) -> bool
        ensures { IsTrue result → has_declared_rank self.now.decls name.now count ≡ true }
    {
        match self.declared.get(name) {
            Some(decl) => decl.dims.len() == count,
            None => false,
        }
    }

    /// Whether a declaration of the name has so many dimensions.
    pub fn has_rank(&self, name: &Name, count: usize) -> bool
        ensures { result ≡ has_declared_rank self.now.decls name.now count }
    {
        if self.has_first_rank(name, count) {
            return true;
        }
        has_rank_somewhere(self.program.decls.as_slice(), name, count)
    }
}
