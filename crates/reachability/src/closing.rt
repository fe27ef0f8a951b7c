ghost use Rattle.reachability.specs.declared.closing.Link.{Link};
ghost use Rattle.std.specs.Prelude.{◌≡◌, ◌<◌, ◌⊎◌, ◌↔◌, ℕ, true, false, length, slice_index_or, MatchOption, IfOk, OnOk, replicate};
ghost use Rattle.reachability.specs.Reached.{IsReached, IsMarked, is_marked, Leads, AreWithin};

use fl_base::{Items, Memory};
use std::alloc::Global;

/// An edge between two nodes, which are numbers.
#[derive(Clone, Copy, Debug, PartialEq, Eq)]
pub struct Link {
    pub tail: usize,
    pub head: usize,
}

pub(crate) fn no_marks(alloc: Global, count: usize) -> Result<Items<bool>, Memory>
    ensures { IfOk result (λ marks. marks ≡ replicate count false) }
{
    let marks = vec![in alloc; false; count]?;
    Ok(Items::from_vec(marks))
}

/// A node that is marked and not done.
fn next_waiting(marks: &[bool], done: &[bool]) -> Option<usize>
    requires { length marks.now ≡ length done.now }
    ensures { MatchOption result
        ((i : ℕ) → i < length marks.now → IsMarked marks.now i → IsMarked done.now i)
        (λ i. (i < length marks.now) × IsMarked marks.now i × (is_marked done.now i ≡ false)) }
{
    for i in 0..marks.len() {
        if marks[i] && !done[i] {
            return Some(i);
        }
    }
    None
}

/// Marks the heads of the edges whose tail is a node.
fn mark_heads(links: &[Link], at: usize, marks: &mut Items<bool>)
    requires { AreWithin (length marks.old) links.now }
    ensures length { length marks.new ≡ length marks.old }
    ensures kept { (i : ℕ) → IsMarked marks.old i → IsMarked marks.new i }
    ensures heads { (k : ℕ) → k < length links.now → (d : Link) → (slice_index_or links.now k d).tail ≡ at → IsMarked marks.new (slice_index_or links.now k d).head }
    ensures only { (i : ℕ) → IsMarked marks.new i → IsMarked marks.old i ⊎ Leads links.now at i }
{
    for link in links {
        if link.tail == at {
            marks.set(link.head, true);
        }
    }
}

/// Marks each node that edges lead to from those that are marked.
pub fn reach(alloc: Global, links: &[Link], marks: &mut Items<bool>) -> Result<(), Memory>
    requires { AreWithin (length marks.old) links.now }
    ensures length { length marks.new ≡ length marks.old }
    ensures reached { OnOk result ((i : ℕ) → IsMarked marks.new i ↔ IsReached (IsMarked marks.old) (Leads links.now) i) }
{
    let mut done = no_marks(alloc, marks.len())?;
    while let Some(at) = next_waiting(marks.as_slice(), done.as_slice()) {
        done.set(at, true);
        mark_heads(links, at, marks);
    }
    Ok(())
}
