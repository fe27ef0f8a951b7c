//! Graphs of declared names: a name's node is the position of its declaration.

ghost use Rattle.std.specs.Prelude.{◌≡◌, ◌<◌, ◌↔◌, ◌++◌, List, [], ◌∷◌, ℕ, length, slice_index_or, All, IfOk, OnOk};
ghost use Rattle.reachability.specs.Reached.{Edge, IsAmong, IsMarked, AreWithin};
ghost use Rattle.reachability.specs.Named.{index_in, indexes_of, links_of, IsNameAt, IsReachedName};

use crate::closing::{Link, no_marks, reach};
use fl_ast::{Decl, Name};
use fl_base::{Items, Memory};
use std::alloc::Global;

/// The position of a name's first declaration.
pub fn index_of(decls: &[Decl], name: &Name) -> Option<usize>
    ensures { result ≡ index_in decls.now name.now }
{
    decls.iter().position(|decl| decl.name.is(name))
}

/// Adds a name's position, where it is declared.
pub fn push_index(decls: &[Decl], name: &Name, nodes: &mut Items<usize>) -> Result<(), Memory>
    ensures { OnOk result (nodes.new ≡ nodes.old ++ indexes_of decls.now (name.now ∷ [])) }
{
    match index_of(decls, name) {
        Some(index) => nodes.push(index),
        None => Ok(()),
    }
}

/// Adds the edge from a name to another, where both are declared.
pub fn push_link(
    decls: &[Decl],
    tail: &Name,
    head: &Name,
    links: &mut Items<Link>,
) -> Result<(), Memory>
    ensures { OnOk result (links.new ≡ links.old ++ links_of decls.now (record { tail = tail.now; head = head.now } ∷ [])) }
{
    match (index_of(decls, tail), index_of(decls, head)) {
        (Some(tail), Some(head)) => links.push(Link { tail, head }),
        _ => Ok(()),
    }
}

/// Marks at these nodes.
fn marks_at(alloc: Global, count: usize, nodes: &[usize]) -> Result<Items<bool>, Memory>
    requires { All (λ i. i < count) nodes.now }
    ensures length { IfOk result (λ marks. length marks ≡ count) }
    ensures marked { IfOk result (λ marks. (i : ℕ) → IsMarked marks i ↔ IsAmong nodes.now i) }
{
    let mut marks = no_marks(alloc, count)?;
    for node in nodes {
        marks.set(*node, true);
    }
    Ok(marks)
}

/// The names at the marks, in the order of the declarations.
fn names_at(alloc: Global, decls: &[Decl], marks: &[bool]) -> Result<Items<Name>, Memory>
    requires { length marks.now ≡ length decls.now }
    ensures { IfOk result (λ names. (x : List ℕ) → IsAmong names x ↔ IsNameAt decls.now marks.now x) }
{
    let mut names = Items::new(alloc);
    for i in 0..decls.len() {
        if marks[i] {
            names.push(decls[i].name.clone(alloc)?)?;
        }
    }
    Ok(names)
}

/// The names that edges lead to from the roots.
pub fn reached_names(
    alloc: Global,
    decls: &[Decl],
    roots: &[usize],
    links: &[Link],
) -> Result<Items<Name>, Memory>
    requires roots { All (λ i. i < length decls.now) roots.now }
    requires links { AreWithin (length decls.now) links.now }
    ensures { (rs : List (List ℕ)) → (es : List (Edge (List ℕ))) → roots.now ≡ indexes_of decls.now rs → links.now ≡ links_of decls.now es
        → IfOk result (λ names. (x : List ℕ) → IsAmong names x ↔ IsReachedName decls.now rs es x) }
{
    let mut marks = marks_at(alloc, decls.len(), roots)?;
    reach(alloc, links, &mut marks)?;
    names_at(alloc, decls, marks.as_slice())
}

fn indexes(alloc: Global, decls: &[Decl], names: &[Name]) -> Result<Items<usize>, Memory>
    ensures { IfOk result (λ nodes. nodes ≡ indexes_of decls.now names.now) }
{
    let mut nodes = Items::new(alloc);
    for name in names {
        push_index(decls, name, &mut nodes)?;
    }
    Ok(nodes)
}

/// The names that edges lead to from these names.
#[tactic(auto, using(crate::proofs::Listed::indexes_within))]
pub fn reached_from(
    alloc: Global,
    decls: &[Decl],
    roots: &[Name],
    links: &[Link],
) -> Result<Items<Name>, Memory>
    requires { AreWithin (length decls.now) links.now }
    ensures { (es : List (Edge (List ℕ))) → links.now ≡ links_of decls.now es
        → IfOk result (λ names. (x : List ℕ) → IsAmong names x ↔ IsReachedName decls.now roots.now es x) }
{
    let nodes = indexes(alloc, decls, roots)?;
    reached_names(alloc, decls, nodes.as_slice(), links)
}
