//! First declarations of names.

ghost use Rattle.std.specs.Prelude.{◌≡◌, [], if◌then◌else◌, IfOk, OnOk, List, ℕ, Some, bytes_eq};
ghost use Rattle.std.specs.Option.{option_copied};
ghost use Rattle.fl_types.specs.WellTyped.{declaration_of};
ghost use Rattle.known_names.specs.Found.{found};

use fl_ast::{Decl, Name};
use fl_base::Memory;
use std::alloc::Global;
use std::collections::BTreeMap;
use std::marker::Model;

/// Declarations, in which names are found by search. Contracts see the declarations.
#[derive(Drop)]
pub struct Declared<'t> {
    decls: &'t [Decl],
    first: BTreeMap<&'t [u8], &'t Decl>,
}

impl<'t> Model for Declared<'t> {
    ghost use Rattle.std.specs.Prelude.{◌≡◌, ℕ, List};
    ghost use Rattle.fl_ast.specs.declared.decl.Decl.{Decl};
    ghost use Rattle.fl_types.specs.WellTyped.{declaration_of};
    ghost use Rattle.known_names.specs.Found.{found};

    ghost Value = { List Decl };

    ghost view = { λ d. d.decls.now };

    ghost invariant = { λ d. (x : List ℕ) → found x d.first ≡ declaration_of d.decls.now x };
}

fn put<'t>(decl: &'t Decl, first: &mut BTreeMap<&'t [u8], &'t Decl>) -> Result<(), Memory>
    ensures { OnOk result ((x : List ℕ) → found x first.new ≡ (if bytes_eq x decl.now.name then Some decl.now else found x first.old)) }
{
    first.insert(decl.name.bytes(), decl)?;
    Ok(())
}

/// Puts the first declaration of each name into an empty map.
fn put_firsts<'t>(decls: &'t [Decl], first: &mut BTreeMap<&'t [u8], &'t Decl>) -> Result<(), Memory>
    requires { first.old.entries ≡ [] }
    ensures { OnOk result ((x : List ℕ) → found x first.new ≡ declaration_of decls.now x) }
{
    for i in (0..decls.len()).rev() {
        put(&decls[i], first)?;
    }
    Ok(())
}

impl<'t> Declared<'t> {
    pub fn of(alloc: Global, decls: &'t [Decl]) -> Result<Declared<'t>, Memory>
        ensures { IfOk result (λ declared. declared ≡ decls.now) }
    {
        let mut first = BTreeMap::new(alloc);
        put_firsts(decls, &mut first)?;
        Ok(Declared { decls, first })
    }

    /// The first declaration of the name.
    pub fn get(&self, name: &Name) -> Option<&'t Decl>
        ensures { option_copied result ≡ declaration_of self.now name.now }
    {
        match self.first.get(name.bytes()) {
            None => None,
            Some(decl) => Some(*decl),
        }
    }
}
