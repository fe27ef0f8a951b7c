//! Lines whose remaining terms have a range.

ghost use Rattle.std.specs.Prelude.{◌≡◌, ◌≤◌, ℕ, length, map, pos, neg_ℤ, ◌+ℤ◌, max, unsigned_abs, int_lt, ◌&&◌, option_map, IfOk};
ghost use Rattle.index_forms.specs.Seen.{atom_tree, form_tree, term_tree, terms_of};
ghost use Rattle.index_ranges.specs.Told.{range_told, ranges_told};
ghost use Rattle.certificate_rules.specs.Surveys.{range_of as range_at};
ghost use Rattle.certificate_rules.specs.Accepted.{low_end as low_end_lem, high_end as high_end_lem};
ghost use Rattle.certificate_rules.specs.Tests.{inner_of, interval as interval_lem, ends_between as ends_between_lem, is_range as is_range_lem, is_second_range as is_second_range_lem, second_ends as second_ends_lem};
ghost use Rattle.acceptance.specs.Runs.{run, interval_told, known_range, less_twice, second_told, range_test};

use crate::distinct::{iterations, second_iterations};
use fl_base::Memory;
use index_forms::{Atom, Form, exact_sum, product};
use index_ranges::Range;

/// Of the variable of an inner loop the loop's number.
fn inner_loop(atom: &Atom) -> Option<u32>
    ensures { result ≡ inner_of (atom_tree atom.now) }
{
    match atom {
        Atom::Inner(_, number) => Some(*number),
        _ => None,
    }
}

/// How many terms, from the first on, are multiples of variables of inner loops.
fn inner_run(terms: &[(Atom, i64)]) -> usize
    ensures count { result ≡ run (terms_of (map term_tree terms.now)) }
    ensures within { result ≤ length terms.now }
{
    for i in 0..terms.len() {
        let (atom, _) = &terms[i];
        if inner_loop(atom).is_none() {
            return i;
        }
    }
    terms.len()
}

/// The range of the loop with a number.
fn range_of(ranges: &[Range], number: u32) -> Option<Range>
    ensures { option_map range_told result ≡ range_at (ranges_told ranges.now) number }
{
    for i in 0..ranges.len() {
        let range = ranges[i];
        if range.number == number {
            return Some(range);
        }
    }
    None
}

fn range_of_atom(ranges: &[Range], atom: &Atom) -> Option<Range>
    ensures { option_map range_told result ≡ known_range (ranges_told ranges.now) (inner_of (atom_tree atom.now)) }
{
    match inner_loop(atom) {
        Some(number) => range_of(ranges, number),
        None => None,
    }
}

fn greatest(least: i32, width: u32) -> i64
    ensures { result ≡ (least +ℤ pos width) }
{
    (least as i64) + (width as i64)
}

fn low_end(k: i64, least: i32, width: u32) -> i128
    ensures { (number : ℕ) → result ≡ low_end_lem k (record { number = number; least = least; width = width }) }
{
    if k < 0 {
        product(k, greatest(least, width))
    } else {
        product(k, least as i64)
    }
}

fn high_end(k: i64, least: i32, width: u32) -> i128
    ensures { (number : ℕ) → result ≡ high_end_lem k (record { number = number; least = least; width = width }) }
{
    if k < 0 {
        product(k, least as i64)
    } else {
        product(k, greatest(least, width))
    }
}

/// The least and the greatest value of the first `count` terms, which are multiples of variables of inner loops. A number beyond 127 bits
/// counts as want of memory.
fn interval(
    ranges: &[Range],
    terms: &[(Atom, i64)],
    count: usize,
) -> Result<Option<(i128, i128)>, Memory>
    requires count { count ≡ run (terms_of (map term_tree terms.now)) }
    requires within { count ≤ length terms.now }
    ensures { IfOk result (λ o. option_map (interval_told terms.now) o ≡ interval_lem (ranges_told ranges.now) (terms_of (map term_tree terms.now))) }
{
    let mut low: i128 = 0;
    let mut high: i128 = 0;
    for i in (0..count).rev() {
        let (atom, k) = &terms[i];
        match range_of_atom(ranges, atom) {
            Some(range) => {
                low = exact_sum(low_end(*k, range.least, range.width), low)?;
                high = exact_sum(high_end(*k, range.least, range.width), high)?;
            }
            None => {
                return Ok(None);
            }
        }
    }
    Ok(Some((low, high)))
}

fn lies_between(low: i128, high: i128, a: i64) -> bool
    ensures { result ≡ (int_lt (neg_ℤ (pos (unsigned_abs a))) low && int_lt high (pos (unsigned_abs a))) }
{
    let bound = a.unsigned_abs() as i128;
    -bound < low && high < bound
}

/// Whether the constant with the terms lies strictly between -|a| and |a|.
#[tactic(auto, using(crate::proofs::InnerRuns::ends_none))]
fn ends_between(
    ranges: &[Range],
    constant: i64,
    a: i64,
    terms: &[(Atom, i64)],
) -> Result<bool, Memory>
    ensures { IfOk result (λ b. b ≡ ends_between_lem constant a (interval_lem (ranges_told ranges.now) (terms_of (map term_tree terms.now)))) }
{
    let count = inner_run(terms);
    match interval(ranges, terms, count)? {
        Some((low, high)) => {
            if count < terms.len() {
                return Ok(false);
            }
            let low = exact_sum(constant as i128, low)?;
            let high = exact_sum(constant as i128, high)?;
            Ok(lies_between(low, high, a))
        }
        None => Ok(false),
    }
}

fn is_range(ranges: &[Range], form: &Form) -> Result<bool, Memory>
    ensures { IfOk result (λ b. b ≡ is_range_lem (ranges_told ranges.now) (form_tree form.now)) }
{
    match iterations(form.terms.as_slice()) {
        Some((a, rest)) => Ok(ends_between(ranges, form.constant, a, rest)?),
        None => Ok(false),
    }
}

fn size_of(low: i128, high: i128) -> u128
    ensures { result ≡ max (unsigned_abs low) (unsigned_abs high) }
{
    low.unsigned_abs().max(high.unsigned_abs())
}

/// Whether a number of this size is less than |b|, and with m times |b| less than |a|.
fn is_less_twice(size: u128, a: i64, b: i64, m: u32) -> bool
    ensures { result ≡ less_twice size a b m }
{
    let inner = b.unsigned_abs() as u128;
    if size >= inner {
        return false;
    }
    inner * (m as u128) + size < a.unsigned_abs() as u128
}

fn second_lies(
    size: u128,
    a: i64,
    second: Option<u32>,
    iterations: Option<(i64, &[(Atom, i64)])>,
) -> bool
    ensures { result ≡ second_told size a second iterations.entry }
{
    match iterations {
        Some((b, rest)) => match second {
            Some(m) => rest.is_empty() && is_less_twice(size, a, b, m),
            None => false,
        },
        None => false,
    }
}

#[tactic(auto, using(crate::proofs::InnerRuns::second_none))]
fn second_ends(
    ranges: &[Range],
    second: Option<u32>,
    constant: i64,
    a: i64,
    terms: &[(Atom, i64)],
) -> Result<bool, Memory>
    ensures { IfOk result (λ b. b ≡ second_ends_lem constant a second (interval_lem (ranges_told ranges.now) (terms_of (map term_tree terms.now)))) }
{
    let count = inner_run(terms);
    match interval(ranges, terms, count)? {
        Some((low, high)) => {
            let low = exact_sum(constant as i128, low)?;
            let high = exact_sum(constant as i128, high)?;
            let last = second_iterations(&terms[count..]);
            Ok(second_lies(size_of(low, high), a, second, last))
        }
        None => Ok(false),
    }
}

fn is_second_range(ranges: &[Range], second: Option<u32>, form: &Form) -> Result<bool, Memory>
    ensures { IfOk result (λ b. b ≡ is_second_range_lem (ranges_told ranges.now) second (form_tree form.now)) }
{
    match iterations(form.terms.as_slice()) {
        Some((a, rest)) => Ok(second_ends(ranges, second, form.constant, a, rest)?),
        None => Ok(false),
    }
}

/// Whether the form is 0 only where the two iterations are one, by the ranges of inner loops' variables. A number beyond 127 bits counts as
/// want of memory.
pub fn range_holds(
    nested: bool,
    ranges: &[Range],
    second: Option<u32>,
    form: &Form,
) -> Result<bool, Memory>
    ensures { IfOk result (λ b. b ≡ range_test nested (ranges_told ranges.now) second (form_tree form.now)) }
{
    if nested {
        Ok(is_second_range(ranges, second, form)?)
    } else {
        Ok(is_range(ranges, form)?)
    }
}
