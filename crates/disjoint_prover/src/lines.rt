//! Lines that stand for given forms.

ghost use Rattle.std.specs.Prelude.{◌≡◌, [], ◌∷◌, ◌++◌, map, if◌then◌else◌, option_map, Some, None, IfOk};
ghost use Rattle.index_forms.specs.Formed.{zero_form};
ghost use Rattle.index_forms.specs.Seen.{form_tree};
ghost use Rattle.index_knowledge.specs.Told.{pair_told};
ghost use Rattle.certificate_rules.specs.Derivations.{hyp};
ghost use Rattle.certificate_rules.specs.Tests.{same_form};
ghost use Rattle.certificate_rules.specs.Plain.{numbers_from, line_for as line_for_lem, lines_for};
ghost use Rattle.acceptance.specs.Told.{line_told};
ghost use Rattle.disjoint_prover.specs.Grown.{grown};

use crate::least::{FormTest, least, number_from};
use acceptance::is_same;
use certificate::Line;
use fl_base::{Items, Memory};
use index_forms::{Form, constant_form};
use index_knowledge::Pair;
use std::alloc::Global;

fn is_zero(alloc: Global, form: &Form) -> bool
    ensures { result ≡ same_form (form_tree form.now) zero_form }
{
    let zero = constant_form(alloc, 0);
    is_same(form, &zero)
}

fn hypothesis(number: Option<u32>) -> Option<Line>
    ensures { option_map line_told result ≡ option_map hyp number }
{
    match number {
        Some(number) => Some(Line::Hyp(number)),
        None => None,
    }
}

/// The empty sum where the form is 0, else the least of the pair's differences that is the form.
pub fn line_for(alloc: Global, pair: &Pair, form: &Form) -> Result<Option<Line>, Memory>
    ensures { IfOk result (λ o. option_map line_told o ≡ line_for_lem (pair_told pair.now) (form_tree form.now)) }
{
    if is_zero(alloc, form) {
        return Ok(Some(Line::Comb(Items::new(alloc))));
    }
    let number = least(&FormTest::Same(form), pair.differences.as_slice())?;
    Ok(hypothesis(number))
}

/// Adds a line; answers whether there was one.
fn push_line(line: Option<Line>, lines: &mut Items<Line>) -> Result<bool, Memory>
    ensures { IfOk result (λ found. (if found then Some (map line_told lines.new) else None) ≡ option_map (λ l. map line_told lines.old ++ l ∷ []) (option_map line_told line)) }
{
    match line {
        Some(line) => {
            lines.push(line)?;
            Ok(true)
        }
        None => Ok(false),
    }
}

/// Adds a line for each form; answers whether each has one.
pub fn push_lines(
    alloc: Global,
    pair: &Pair,
    forms: &[Form],
    lines: &mut Items<Line>,
) -> Result<bool, Memory>
    ensures { IfOk result (λ found. (if found then Some (map line_told lines.new) else None) ≡ grown (map line_told lines.old) (lines_for (pair_told pair.now) (map form_tree forms.now))) }
{
    for i in 0..forms.len() {
        let line = line_for(alloc, pair, &forms[i])?;
        if !push_line(line, lines)? {
            return Ok(false);
        }
    }
    Ok(true)
}

/// So many numbers, from one on.
pub fn numbers(alloc: Global, from: u32, count: usize) -> Result<Items<u32>, Memory>
    ensures { IfOk result (λ all. all ≡ numbers_from from count) }
{
    let mut all = Items::new(alloc);
    for i in 0..count {
        all.push(number_from(from, i)?)?;
    }
    Ok(all)
}
