//! Names in the order of their bytes.

ghost use Rattle.std.specs.Prelude.{◌≡◌, ◌≤◌, length, IfOk, OnOk, filter, map, insert};
ghost use Rattle.fl_ast.specs.declared.decl.Decl.{Decl};
ghost use Rattle.fl_types.specs.Sharing.{has_name as has_name_lem};
ghost use Rattle.adjoint_choices.specs.Choosing as rules;

use fl_ast::{Decl, Name};
use fl_base::Memory;
use fl_types::NameSet;
use reversal::has_name;
use std::alloc::Global;
use std::cmp::Ordering;

fn is_before(name: &Name, other: &Name) -> bool
    ensures { result ≡ rules.is_before name.now other.now }
{
    match name.bytes().cmp(other.bytes()) {
        Ordering::Less => true,
        Ordering::Equal | Ordering::Greater => false,
    }
}

/// The place of a name among names that are in order.
fn place_of(name: &Name, names: &[Name]) -> usize
    ensures within { result ≤ length names.now }
    ensures place { insert names.now result name.now ≡ rules.put_in name.now names.now }
{
    for i in 0..names.len() {
        if is_before(name, &names[i]) {
            return i;
        }
    }
    names.len()
}

/// Puts a copy of a name among names that are in order.
fn put_in(alloc: Global, name: &Name, names: &mut Vec<Name>) -> Result<(), Memory>
    ensures { OnOk result (names.new.items ≡ rules.put_in name.now names.old.items) }
{
    let place = place_of(name, names);
    names.insert(place, name.clone(alloc)?)?;
    Ok(())
}

/// The active names among the declared ones, in the order of their bytes.
pub fn active_names(alloc: Global, decls: &[Decl], active: &NameSet) -> Result<Vec<Name>, Memory>
    ensures { IfOk result (λ names. names.items ≡ rules.active_names decls.now (λ x. has_name_lem x active.now.names)) }
{
    let mut names = Vec::new(alloc);
    for i in (0..decls.len()).rev() {
        let name = &decls[i].name;
        if has_name(name, active.names.as_slice()) {
            put_in(alloc, name, &mut names)?;
        }
    }
    Ok(names)
}
