//! Lines that show two iterations to be one.

ghost use Rattle.std.specs.Prelude.{◌≡◌, map, option_map, ◌+ℤ◌};
ghost use Rattle.index_forms.specs.declared.form.Side.TheVariants.{One, Two};
ghost use Rattle.index_forms.specs.Seen.{atom_tree, form_tree, term_tree, terms_of};
ghost use Rattle.certificate_rules.specs.Tests.{is_zero as is_zero_lem, same_side, is_iter as is_iter_lem, is_iter2 as is_iter2_lem, is_last, iterations_of, second_iterations_of, is_distinct, is_second_distinct};
ghost use Rattle.acceptance.specs.Pairs.{apart_test, apart_told};

use index_forms::{Atom, Form, Side};

fn is_zero(number: i64) -> bool
    ensures { result ≡ is_zero_lem number }
{
    number == 0
}

fn is_zero_sum(first: i64, second: i64) -> bool
    ensures { result ≡ is_zero_lem (first +ℤ second) }
{
    (first as i128) + (second as i128) == 0
}

fn is_side(side: Side, other: Side) -> bool
    ensures { result ≡ same_side side other }
{
    match side {
        Side::One => match other {
            Side::One => true,
            Side::Two => false,
        },
        Side::Two => match other {
            Side::One => false,
            Side::Two => true,
        },
    }
}

fn is_iter(side: Side, atom: &Atom) -> bool
    ensures { result ≡ is_iter_lem side (atom_tree atom.now) }
{
    match atom {
        Atom::Iter(other) => is_side(side, *other),
        _ => false,
    }
}

fn is_iter2(side: Side, atom: &Atom) -> bool
    ensures { result ≡ is_iter2_lem side (atom_tree atom.now) }
{
    match atom {
        Atom::Iter2(other) => is_side(side, *other),
        _ => false,
    }
}

fn is_apart(first: bool, second: bool, a: i64, b: i64) -> bool
    ensures { result ≡ apart_test first second a b }
{
    if !first {
        return false;
    }
    if is_zero(a) {
        return false;
    }
    second && is_zero_sum(a, b)
}

/// Of terms that begin with a multiple of the iteration's number on side One without that on side Two: the multiplier, and the terms behind.
#[tactic(auto, using(crate::proofs::Pairs::iterations_short))]
pub fn iterations(terms: &[(Atom, i64)]) -> Option<(i64, &[(Atom, i64)])>
    ensures { option_map apart_told result ≡ iterations_of (terms_of (map term_tree terms.now)) }
{
    match terms {
        [first, second, rest @ ..] => {
            let (x, a) = first;
            let (y, b) = second;
            if is_apart(is_iter(Side::One, x), is_iter(Side::Two, y), *a, *b) {
                Some((*a, rest))
            } else {
                None
            }
        }
        _ => None,
    }
}

/// The same for the inner one of two collapsed loops.
#[tactic(auto, using(crate::proofs::Pairs::second_short))]
pub fn second_iterations(terms: &[(Atom, i64)]) -> Option<(i64, &[(Atom, i64)])>
    ensures { option_map apart_told result ≡ second_iterations_of (terms_of (map term_tree terms.now)) }
{
    match terms {
        [first, second, rest @ ..] => {
            let (x, a) = first;
            let (y, b) = second;
            if is_apart(is_iter2(Side::One, x), is_iter2(Side::Two, y), *a, *b) {
                Some((*a, rest))
            } else {
                None
            }
        }
        _ => None,
    }
}

/// Whether these are a multiple of the iteration's number on side One without that on side Two, and nothing else.
fn are_iterations(terms: &[(Atom, i64)]) -> bool
    ensures { result ≡ is_last (iterations_of (terms_of (map term_tree terms.now))) }
{
    if terms.len() != 2 {
        return false;
    }
    let (x, a) = &terms[0];
    let (y, b) = &terms[1];
    is_apart(is_iter(Side::One, x), is_iter(Side::Two, y), *a, *b)
}

/// The same for the inner one of two collapsed loops.
fn are_second_iterations(terms: &[(Atom, i64)]) -> bool
    ensures { result ≡ is_last (second_iterations_of (terms_of (map term_tree terms.now))) }
{
    if terms.len() != 2 {
        return false;
    }
    let (x, a) = &terms[0];
    let (y, b) = &terms[1];
    is_apart(is_iter2(Side::One, x), is_iter2(Side::Two, y), *a, *b)
}

/// Whether the form is 0 only where the two iterations are one.
pub fn is_distinct(form: &Form) -> bool
    ensures { result ≡ is_distinct (form_tree form.now) }
{
    is_zero(form.constant) && are_iterations(form.terms.as_slice())
}

/// The same for the inner one of two collapsed loops.
pub fn is_second_distinct(form: &Form) -> bool
    ensures { result ≡ is_second_distinct (form_tree form.now) }
{
    is_zero(form.constant) && are_second_iterations(form.terms.as_slice())
}
