ghost use Rattle.std.specs.Prelude.{◌≡◌, map};
ghost use Rattle.index_forms.specs.Form.{atom_order, form_order, terms_order, forms_order, then_by, nat_order, int_order, name_order, side_order, rank, against_iter, against_inner, against_inv, against_version, against_opaque, against_iter2};
ghost use Rattle.index_forms.specs.Seen.{atom_tree, form_tree, term_tree, terms_of, forms_of};

use crate::form::{Atom, Form, Side};
use std::cmp::Ordering;

pub fn number_order(m: u32, n: u32) -> Ordering
    ensures { result ≡ nat_order m n }
{
    if m < n {
        Ordering::Less
    } else if n < m {
        Ordering::Greater
    } else {
        Ordering::Equal
    }
}

pub fn int_order(m: i64, n: i64) -> Ordering
    ensures { result ≡ int_order m n }
{
    if m < n {
        Ordering::Less
    } else if n < m {
        Ordering::Greater
    } else {
        Ordering::Equal
    }
}

pub fn side_order(s: Side, t: Side) -> Ordering
    ensures { result ≡ side_order s t }
{
    match s {
        Side::One => match t {
            Side::One => Ordering::Equal,
            Side::Two => Ordering::Less,
        },
        Side::Two => match t {
            Side::One => Ordering::Greater,
            Side::Two => Ordering::Equal,
        },
    }
}

impl Atom {
    pub fn rank(&self) -> u32
        ensures { result ≡ rank (atom_tree self.now) }
    {
        match self {
            Atom::Start => 0,
            Atom::Iter(..) => 1,
            Atom::Inner(..) => 2,
            Atom::Inv(..) => 3,
            Atom::Version(..) => 4,
            Atom::Read(..) => 5,
            Atom::Opaque(..) => 6,
            Atom::Start2 => 7,
            Atom::Iter2(..) => 8,
        }
    }
}

pub fn bytes_order(m: &[u8], n: &[u8]) -> Ordering
    ensures { result ≡ name_order m.now n.now }
{
    for i in 0..m.len() {
        if i >= n.len() {
            return Ordering::Greater;
        }
        if m[i] < n[i] {
            return Ordering::Less;
        }
        if n[i] < m[i] {
            return Ordering::Greater;
        }
    }
    if m.len() < n.len() {
        Ordering::Less
    } else {
        Ordering::Equal
    }
}

/// The first answer, unless it is Equal.
pub fn and_then(first: Ordering, second: Ordering) -> Ordering
    ensures { result ≡ then_by first second }
{
    match first {
        Ordering::Less => Ordering::Less,
        Ordering::Equal => second,
        Ordering::Greater => Ordering::Greater,
    }
}

fn iter_order(s: Side, other: &Atom) -> Ordering
    ensures { result ≡ against_iter s (atom_tree other.now) }
{
    match other {
        Atom::Iter(t) => side_order(s, *t),
        _ => number_order(1, other.rank()),
    }
}

fn inner_order(s: Side, l: u32, other: &Atom) -> Ordering
    ensures { result ≡ against_inner s l (atom_tree other.now) }
{
    match other {
        Atom::Inner(t, m) => and_then(side_order(s, *t), number_order(l, *m)),
        _ => number_order(2, other.rank()),
    }
}

fn inv_order(n: &[u8], other: &Atom) -> Ordering
    ensures { result ≡ against_inv n.now (atom_tree other.now) }
{
    match other {
        Atom::Inv(m) => bytes_order(n, m.bytes()),
        _ => number_order(3, other.rank()),
    }
}

fn version_order(s: Side, l: u32, n: &[u8], other: &Atom) -> Ordering
    ensures { result ≡ against_version s l n.now (atom_tree other.now) }
{
    match other {
        Atom::Version(t, m, k) => and_then(
            side_order(s, *t),
            and_then(number_order(l, *m), bytes_order(n, k.bytes())),
        ),
        _ => number_order(4, other.rank()),
    }
}

fn opaque_order(s: Side, a: u32, n: u32, other: &Atom) -> Ordering
    ensures { result ≡ against_opaque s a n (atom_tree other.now) }
{
    match other {
        Atom::Opaque(t, b, m) => and_then(
            side_order(s, *t),
            and_then(number_order(a, *b), number_order(n, *m)),
        ),
        _ => number_order(6, other.rank()),
    }
}

fn iter2_order(s: Side, other: &Atom) -> Ordering
    ensures { result ≡ against_iter2 s (atom_tree other.now) }
{
    match other {
        Atom::Iter2(t) => side_order(s, *t),
        _ => number_order(8, other.rank()),
    }
}

impl Atom {
    #[cycle(atom_order)]
    pub fn order(&self, other: &Atom) -> Ordering
        ensures { result ≡ atom_order (atom_tree self.now) (atom_tree other.now) }
    {
        match self {
            Atom::Start => number_order(0, other.rank()),
            Atom::Iter(s) => iter_order(*s, other),
            Atom::Inner(s, l) => inner_order(*s, *l, other),
            Atom::Inv(n) => inv_order(n.bytes(), other),
            Atom::Version(s, l, n) => version_order(*s, *l, n.bytes(), other),
            Atom::Read(n, fs) => match other {
                Atom::Read(m, gs) => and_then(
                    bytes_order(n.bytes(), m.bytes()),
                    forms_order(fs.as_slice(), gs.as_slice()),
                ),
                _ => number_order(5, other.rank()),
            },
            Atom::Opaque(s, a, n) => opaque_order(*s, *a, *n, other),
            Atom::Start2 => number_order(7, other.rank()),
            Atom::Iter2(s) => iter2_order(*s, other),
        }
    }
}

impl Form {
    #[cycle(atom_order)]
    pub fn order(&self, other: &Form) -> Ordering
        ensures { result ≡ form_order (form_tree self.now) (form_tree other.now) }
    {
        and_then(
            int_order(self.constant, other.constant),
            terms_order(self.terms.as_slice(), other.terms.as_slice()),
        )
    }
}

#[cycle(atom_order)]
pub fn terms_order(ts: &[(Atom, i64)], us: &[(Atom, i64)]) -> Ordering
    ensures { result ≡ terms_order (terms_of (map term_tree ts.now)) (terms_of (map term_tree us.now)) }
{
    for i in 0..ts.len() {
        if i >= us.len() {
            return Ordering::Greater;
        }
        let (a, k) = &ts[i];
        let (b, m) = &us[i];
        let o = and_then(a.order(b), int_order(*k, *m));
        if o != Ordering::Equal {
            return o;
        }
    }
    if ts.len() < us.len() {
        Ordering::Less
    } else {
        Ordering::Equal
    }
}

#[cycle(atom_order)]
pub fn forms_order(fs: &[Form], gs: &[Form]) -> Ordering
    ensures { result ≡ forms_order (forms_of (map form_tree fs.now)) (forms_of (map form_tree gs.now)) }
{
    for i in 0..fs.len() {
        if i >= gs.len() {
            return Ordering::Greater;
        }
        let o = fs[i].order(&gs[i]);
        if o != Ordering::Equal {
            return o;
        }
    }
    if fs.len() < gs.len() {
        Ordering::Less
    } else {
        Ordering::Equal
    }
}
