//! Lines that leave a remainder.

ghost use Rattle.std.specs.Prelude.{◌≡◌, ◌↔◌, IsTrue, map};
ghost use Rattle.std.specs.Int.{IsGcd};
ghost use Rattle.index_forms.specs.Seen.{form_tree, term_tree, terms_of};
ghost use Rattle.certificate_rules.specs.Accepted.{IsGcdOf, HasResidue};

use index_forms::{Atom, Form};

fn gcd(a: u64, b: u64) -> u64
    ensures { IsGcd a b result }
{
    let mut x = a;
    let mut y = b;
    while y != 0 {
        let r = x % y;
        x = y;
        y = r;
    }
    x
}

/// The greatest common divisor of the coefficients, 0 where there is none.
fn common_divisor(terms: &[(Atom, i64)]) -> u64
    ensures { IsGcdOf result (terms_of (map term_tree terms.now)) }
{
    let mut g = 0;
    for i in (0..terms.len()).rev() {
        let (_, k) = &terms[i];
        g = gcd(k.unsigned_abs(), g);
    }
    g
}

/// Whether the greatest common divisor of the coefficients doesn't divide the constant.
pub fn has_residue(form: &Form) -> bool
    ensures { IsTrue result ↔ HasResidue (form_tree form.now) }
{
    let g = common_divisor(form.terms.as_slice());
    let c = form.constant.unsigned_abs();
    if g == 0 { c != 0 } else { c % g != 0 }
}
