//! What the adjoint of a statement depends on besides the statement.

ghost use Rattle.std.specs.Prelude.{◌≡◌, IfOk};
ghost use Rattle.fl_ast.specs.Tree.{expr_tree};
ghost use Rattle.reversal.specs.Places.{scope_of, number_of, key_of};

use crate::class::{is_plus, is_ring, sharing};
use crate::growth::Growth;
use crate::name::{has_name, main_tape, value};
use fl_ast::{Decl, Directive, Expr, Name, Stmt};
use fl_base::Memory;
use fl_types::{Chosen, NameSet};
use std::alloc::Global;

/// A parallel loop around a statement.
#[derive(Clone, Copy, Drop)]
pub struct Region<'a> {
    pub number: u32,
    pub directive: &'a Directive,
    pub var: &'a Name,
    pub body: &'a [Stmt],
}

/// The program's declarations, its active and needed names, the choices, and the parallel loop around.
#[derive(Drop)]
pub struct Scope<'a> {
    pub decls: &'a [Decl],
    pub active: &'a NameSet,
    pub needed: &'a NameSet,
    pub choices: &'a [Chosen],
    pub region: Option<Region<'a>>,
}

impl<'a> Scope<'a> {
    pub fn is_active(&self, name: &Name) -> bool
        ensures { result ≡ (scope_of self.now).active name.now }
    {
        has_name(name, self.active.names.as_slice())
    }

    pub fn is_needed(&self, name: &Name) -> bool
        ensures { result ≡ (scope_of self.now).needed name.now }
    {
        has_name(name, self.needed.names.as_slice())
    }

    pub fn is_ring(&self, name: &Name) -> bool
        ensures { result ≡ (scope_of self.now).ring name.now }
    {
        is_ring(self.decls, name)
    }

    /// Whether the name is a reduction's of the parallel loop around.
    pub fn is_reduced(&self, name: &Name) -> bool
        ensures { result ≡ (scope_of self.now).pluses name.now }
    {
        match &self.region {
            None => false,
            Some(region) => is_plus(sharing(region.var, region.directive, region.body, name)),
        }
    }

    /// The key of the tape: an iteration's number in a parallel loop.
    pub fn key(&self, alloc: Global) -> Result<Expr, Memory>
        ensures { IfOk result (λ key. expr_tree key ≡ (scope_of self.now).key) }
    {
        match &self.region {
            None => main_tape(alloc),
            Some(_) => value(alloc, b"formad_k"),
        }
    }

    fn number(&self) -> Option<u32>
        ensures { result ≡ number_of self.now.region }
    {
        match &self.region {
            None => None,
            Some(region) => Some(region.number),
        }
    }

    /// How increments at a line are made here.
    pub fn growth(&self, line: u32) -> Growth<'_>
        ensures { (result.active.now ≡ self.now.active.now) × (result.choices.now ≡ self.now.choices.now) × (result.number ≡ number_of self.now.region) × (result.line ≡ line) }
    {
        Growth {
            active: self.active,
            choices: self.choices,
            number: self.number(),
            line,
        }
    }
}
