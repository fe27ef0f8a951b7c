ghost use Rattle.std.specs.Prelude.{◌≡◌, ◌||◌, ℕ, List, map, bytes_eq, IfOk, OnOk};
ghost use Rattle.fl_ast.specs.Tree.{stmt_trees};
ghost use Rattle.fl_types.specs.Sharing.{has_name, varies_in, is_accessed as is_accessed_lem, is_plus as is_plus_lem};
ghost use Rattle.fl_types.specs.Accesses.{scope_of};
ghost use Rattle.loop_accesses.specs.Views.{loop_view, referred};
ghost use Rattle.loop_accesses.specs.Classes.{class_by, scope_by};

use crate::view::LoopView;
use fl_ast::{Name, Stmt};
use fl_base::Memory;
use fl_types::Sharing;
use known_names::{Indexed, Keys, keys_of, mark_varying};
use std::alloc::Global;

/// The names of a parallel loop by what they are there, each found by search.
#[derive(Drop)]
pub(crate) struct LoopNames<'i, 't> {
    indexed: &'i Indexed<'t>,
    outer: Keys<'t>,
    variables: Keys<'t>,
    privates: Keys<'t>,
    firsts: Keys<'t>,
    pluses: Keys<'t>,
}

fn is_accessed(class: Sharing) -> bool
    ensures { result ≡ is_accessed_lem class }
{
    match class {
        Sharing::Shared | Sharing::First | Sharing::Plus => true,
        Sharing::Private | Sharing::LoopVar => false,
    }
}

fn is_plus(class: Sharing) -> bool
    ensures { result ≡ is_plus_lem class }
{
    match class {
        Sharing::Plus => true,
        Sharing::Shared | Sharing::First | Sharing::Private | Sharing::LoopVar => false,
    }
}

fn mark_referred<'t>(names: &[&'t Name], keys: &mut Keys<'t>) -> Result<(), Memory>
    ensures { OnOk result ((x : List ℕ) → has_name x keys.new ≡ (has_name x (map referred names.now) || has_name x keys.old)) }
{
    for i in 0..names.len() {
        keys.insert(names[i])?;
    }
    Ok(())
}

fn outer_of<'t>(alloc: Global, names: &[&'t Name]) -> Result<Keys<'t>, Memory>
    ensures { IfOk result (λ keys. (x : List ℕ) → has_name x keys ≡ has_name x (map referred names.now)) }
{
    let mut keys = Keys::new(alloc);
    mark_referred(names, &mut keys)?;
    Ok(keys)
}

/// The variable of a loop and of those in it.
fn variables_of<'t>(alloc: Global, var: &'t Name, body: &'t [Stmt]) -> Result<Keys<'t>, Memory>
    ensures { IfOk result (λ keys. (x : List ℕ) → has_name x keys ≡ (bytes_eq x var.now || varies_in x (stmt_trees body.now))) }
{
    let mut keys = Keys::new(alloc);
    mark_varying(body, &mut keys)?;
    keys.insert(var)?;
    Ok(keys)
}

impl<'i, 't> LoopNames<'i, 't> {
    #[tactic(auto, using(crate::proofs::Scopes::scope_is))]
    pub fn of(
        alloc: Global,
        indexed: &'i Indexed<'t>,
        view: &LoopView<'t>,
    ) -> Result<LoopNames<'i, 't>, Memory>
        ensures { IfOk result (λ names. scope_by names ≡ scope_of indexed.now.decls (loop_view view.now)) }
    {
        let outer = outer_of(alloc, view.outer.as_slice())?;
        let variables = variables_of(alloc, view.var, view.body)?;
        let privates = keys_of(alloc, view.directive.privates.as_slice())?;
        let firsts = keys_of(alloc, view.directive.firsts.as_slice())?;
        let pluses = keys_of(alloc, view.directive.pluses.as_slice())?;
        Ok(LoopNames {
            indexed,
            outer,
            variables,
            privates,
            firsts,
            pluses,
        })
    }

    fn class(&self, name: &Name) -> Sharing
        ensures { result ≡ class_by self.now name.now }
    {
        if self.variables.has(name) {
            return Sharing::LoopVar;
        }
        if self.privates.has(name) {
            return Sharing::Private;
        }
        if self.firsts.has(name) {
            return Sharing::First;
        }
        if self.pluses.has(name) {
            return Sharing::Plus;
        }
        Sharing::Shared
    }

    /// Whether an occurrence of the name is an access.
    pub fn makes_accesses(&self, name: &Name) -> bool
        ensures { result ≡ (scope_by self.now).accessed name.now }
    {
        !self.outer.has(name) && is_accessed(self.class(name))
    }

    /// Whether the name is a reduction's.
    pub fn is_reduced(&self, name: &Name) -> bool
        ensures { result ≡ (scope_by self.now).pluses name.now }
    {
        is_plus(self.class(name))
    }

    pub fn is_data(&self, name: &Name) -> bool
        ensures { result ≡ (scope_by self.now).ring name.now }
    {
        self.indexed.is_data(name)
    }
}
