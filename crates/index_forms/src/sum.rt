//! Sums over sorted terms. A number beyond 127 bits counts as want of memory: with multipliers of 32 bits it takes more than 2^32 terms.

ghost use Rattle.std.specs.Prelude.{◌≡◌, map, take, drop, length, ◌<◌, ◌≤◌, ◌+ℤ◌, ◌*ℤ◌, OnOk, IfOk};
ghost use Rattle.index_forms.specs.Seen.{atom_tree, term_tree, terms_of};
ghost use Rattle.index_forms.specs.Sums.{insert, kept, add_scaled};
ghost use Rattle.index_forms.specs.Places.{PlaceIs, joined, more_of};

use crate::form::Atom;
use crate::row::Row;
use fl_base::Memory;
use std::alloc::Global;
use std::cmp::Ordering;

/// Where an atom stands in sorted terms, or would stand.
pub enum TermPlace {
    At(usize),
    Before(usize),
}

pub fn find_place(terms: &[(Atom, i128)], atom: &Atom) -> TermPlace
    ensures { PlaceIs (atom_tree atom.now) (map term_tree terms.now) result }
{
    for i in 0..terms.len() {
        let (other, _) = &terms[i];
        match atom.order(other) {
            Ordering::Less => {
                return TermPlace::Before(i);
            }
            Ordering::Equal => {
                return TermPlace::At(i);
            }
            Ordering::Greater => {}
        }
    }
    TermPlace::Before(terms.len())
}

/// The sum, where it has no more than 127 bits.
pub fn exact_sum(a: i128, b: i128) -> Result<i128, Memory>
    ensures { IfOk result (λ s. s ≡ a +ℤ b) }
{
    match a.checked_add(b) {
        Some(sum) => Ok(sum),
        None => Err(Memory),
    }
}

/// Adds `k` times the atom to sorted terms.
fn add_term(
    alloc: Global,
    terms: &mut Row<(Atom, i128)>,
    atom: &Atom,
    k: i128,
) -> Result<(), Memory>
    ensures { OnOk result (terms_of (map term_tree terms.new) ≡ insert (atom_tree atom.now) k (terms_of (map term_tree terms.old))) }
{
    match find_place(terms.as_slice(), atom) {
        TermPlace::Before(i) => put_before(alloc, terms, i, atom, k),
        TermPlace::At(i) => more_at(terms, i, k),
    }
}

fn put_before(
    alloc: Global,
    terms: &mut Row<(Atom, i128)>,
    i: usize,
    atom: &Atom,
    k: i128,
) -> Result<(), Memory>
    requires { i ≤ length terms.old }
    ensures { OnOk result (terms_of (map term_tree terms.new) ≡ joined (take i (map term_tree terms.old)) (kept (atom_tree atom.now) k (terms_of (drop i (map term_tree terms.old))))) }
{
    if k != 0 {
        let copy = atom.clone(alloc)?;
        terms.insert(i, (copy, k))?;
    }
    Ok(())
}

fn more_at(terms: &mut Row<(Atom, i128)>, i: usize, k: i128) -> Result<(), Memory>
    requires { i < length terms.old }
    ensures { OnOk result (terms_of (map term_tree terms.new) ≡ joined (take i (map term_tree terms.old)) (more_of k (drop i (map term_tree terms.old)))) }
{
    let (atom, m) = terms.remove(i);
    match exact_sum(k, m) {
        Ok(sum) => {
            if sum != 0 {
                terms.insert(i, (atom, sum))?;
            }
            Ok(())
        }
        Err(Memory) => Err(Memory),
    }
}

/// The same terms, over numbers of 128 bits.
pub fn widened(alloc: Global, terms: &[(Atom, i64)]) -> Result<Row<(Atom, i128)>, Memory>
    ensures { IfOk result (λ l. l ≡ terms.now) }
{
    let mut all = Row::new(alloc);
    for i in 0..terms.len() {
        let (atom, k) = &terms[i];
        let wide = *k as i128;
        let copy = atom.clone(alloc)?;
        all.push((copy, wide))?;
    }
    Ok(all)
}

pub fn product(m: i64, k: i64) -> i128
    ensures { result ≡ m *ℤ k }
{
    (m as i128) * (k as i128)
}

/// Adds `m` times the terms `added` to sorted terms.
pub fn add_terms(
    alloc: Global,
    m: i64,
    added: &[(Atom, i64)],
    terms: &mut Row<(Atom, i128)>,
) -> Result<(), Memory>
    ensures { OnOk result (terms_of (map term_tree terms.new) ≡ add_scaled m (terms_of (map term_tree added.now)) (terms_of (map term_tree terms.old))) }
{
    for i in (0..added.len()).rev() {
        let (atom, k) = &added[i];
        add_term(alloc, terms, atom, product(m, *k))?;
    }
    Ok(())
}
