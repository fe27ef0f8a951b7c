//! Names in the order of their bytes.

ghost use Rattle.std.specs.Prelude.{◌≡◌, ◌≤◌, length, true, IfOk, OnOk, IfSome, ℕ, List, []};
ghost use Rattle.fl_types.specs.Sharing.{has_name as has_name_lem};
ghost use Rattle.activity.specs.Order.{are_ordered, placed, put_in as put_in_lem, put_all};

use fl_ast::Name;
use fl_base::{Items, Memory};
use std::alloc::Global;
use std::cmp::Ordering;

/// Where a name goes among names that are ordered, and nowhere where it is one of them.
fn place_of(name: &Name, names: &[Name]) -> Option<usize>
    ensures within { IfSome result (λ at. at ≤ length names.now) }
    ensures place { placed result name.now names.now ≡ put_in_lem name.now names.now }
{
    for i in 0..names.len() {
        match name.bytes().cmp(names[i].bytes()) {
            Ordering::Less => return Some(i),
            Ordering::Equal => return None,
            Ordering::Greater => {}
        }
    }
    Some(names.len())
}

/// Puts a name among names that are ordered.
fn put_in(name: Name, names: &mut Vec<Name>) -> Result<(), Memory>
    ensures { OnOk result (names.new.items ≡ put_in_lem name names.old.items) }
{
    match place_of(&name, names) {
        None => Ok(()),
        Some(place) => {
            names.insert(place, name)?;
            Ok(())
        }
    }
}

fn put_each(alloc: Global, mut names: Items<Name>) -> Result<Vec<Name>, Memory>
    ensures { IfOk result (λ all. all.items ≡ put_all names []) }
{
    let mut all = Vec::new(alloc);
    while let Some(name) = names.pop() {
        put_in(name, &mut all)?;
    }
    Ok(all)
}

/// The same names in the order of their bytes, each once.
pub(crate) fn ordered(alloc: Global, names: Items<Name>) -> Result<Items<Name>, Memory>
    ensures members { IfOk result (λ all. (x : List ℕ) → has_name_lem x all ≡ has_name_lem x names) }
    ensures ordered { IfOk result (λ all. are_ordered all ≡ true) }
{
    let all = put_each(alloc, names)?;
    Ok(Items::from_vec(all))
}
