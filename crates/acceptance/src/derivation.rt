//! Derivations, line by line, and their closes.

ghost use Rattle.std.specs.Prelude.{◌≡◌, ◌↔◌, IsTrue, map, option_map, option_copied, [], IfOk, IsOkAnd};
ghost use Rattle.index_forms.specs.Form.{Forms};
ghost use Rattle.index_forms.specs.Seen.{form_tree};
ghost use Rattle.index_knowledge.specs.Told.{facts_told, pair_told};
ghost use Rattle.certificate_rules.specs.Surveys.{numbered as numbered_lem, IsSurvey, IsPairOf};
ghost use Rattle.certificate_rules.specs.Disjoint.{is_nested as is_nested_lem, Disjoint};
ghost use Rattle.certificate_rules.specs.Accepted.{Accepted};
ghost use Rattle.certificate_rules.specs.Tests.{line_form as line_form_lem, all_forms, closes_distinct as closes_distinct_lem, holds_of, has_residue as has_residue_lem, is_distinct as is_distinct_lem, is_second_distinct as is_second_distinct_lem, range_holds as range_holds_lem, fact_closes, closes as closes_lem, accepts};
ghost use Rattle.acceptance.specs.Told.{survey_of, line_told, close_told, derivation_told, seen_in, forms_in};

use crate::combination::combination;
use crate::congruence::{congruence, element_at};
use crate::distinct::{is_distinct, is_second_distinct};
use crate::fact::serves_pair;
use crate::knowledge::{LoopKnowledge, numbered};
use crate::line_form::{LineForm, are_lines, line_at};
use crate::range::range_holds;
use crate::residue::has_residue;
use certificate::{Close, Derivation, Line};
use fl_base::{Boxed, Items, Memory};
use index_forms::Form;
use index_knowledge::Pair;
use std::alloc::Global;

fn given(form: Option<&Form>) -> Option<LineForm<'_>>
    ensures { option_map seen_in result ≡ option_map form_tree (option_copied form.entry) }
{
    match form {
        Some(form) => Some(LineForm::Given(form)),
        None => None,
    }
}

fn made<'a>(
    alloc: Global,
    form: Result<Option<Form>, Memory>,
) -> Result<Option<LineForm<'a>>, Memory>
    ensures { IfOk result (λ o. IsOkAnd form (λ p. option_map seen_in o ≡ option_map form_tree p)) }
{
    match form? {
        Some(form) => Ok(Some(LineForm::Made(Boxed::new(alloc, form)?))),
        None => Ok(None),
    }
}

/// The form of a line behind those above, where it has one.
fn line_form<'a>(
    alloc: Global,
    knowledge: &LoopKnowledge,
    pair: &'a Pair,
    above: &[LineForm<'a>],
    line: &Line,
) -> Result<Option<LineForm<'a>>, Memory>
    ensures { IfOk result (λ o. option_map seen_in o ≡ line_form_lem (survey_of knowledge.now) (pair_told pair.now) (forms_in above.now) (line_told line.now)) }
{
    match line {
        Line::Hyp(number) => Ok(given(numbered(pair.differences.as_slice(), *number))),
        Line::Comb(multiples) => made(alloc, combination(alloc, above, multiples.as_slice())),
        Line::Cong {
            first,
            second,
            lines,
        } => {
            let accesses = knowledge.accesses.as_slice();
            let one = element_at(
                &knowledge.scene,
                accesses,
                knowledge.ones.as_slice(),
                *first,
            );
            let two = element_at(
                &knowledge.scene,
                accesses,
                knowledge.twos.as_slice(),
                *second,
            );
            made(alloc, congruence(alloc, above, lines.as_slice(), one, two))
        }
    }
}

/// The forms of all lines, where each has one.
fn forms_of_lines<'a>(
    alloc: Global,
    knowledge: &LoopKnowledge,
    pair: &'a Pair,
    lines: &[Line],
) -> Result<Option<Items<LineForm<'a>>>, Memory>
    ensures { IfOk result (λ o. option_map forms_in o ≡ all_forms (survey_of knowledge.now) (pair_told pair.now) [] (map line_told lines.now)) }
{
    let mut above = Items::new(alloc);
    for i in 0..lines.len() {
        match line_form(alloc, knowledge, pair, above.as_slice(), &lines[i])? {
            Some(form) => above.push(form)?,
            None => {
                return Ok(None);
            }
        }
    }
    Ok(Some(above))
}

fn is_nested(pair: &Pair) -> bool
    ensures { result ≡ is_nested_lem (pair_told pair.now) }
{
    pair.nest == 2
}

fn is_distinct_at(above: &[LineForm<'_>], line: u32) -> bool
    ensures { result ≡ holds_of is_distinct_lem (numbered_lem (forms_in above.now) line) }
{
    match line_at(above, line) {
        Some(form) => is_distinct(form),
        None => false,
    }
}

fn is_second_distinct_at(above: &[LineForm<'_>], line: u32) -> bool
    ensures { result ≡ holds_of is_second_distinct_lem (numbered_lem (forms_in above.now) line) }
{
    match line_at(above, line) {
        Some(form) => is_second_distinct(form),
        None => false,
    }
}

fn closes_distinct(nested: bool, above: &[LineForm<'_>], line: u32, second: Option<u32>) -> bool
    ensures { result ≡ closes_distinct_lem nested (forms_in above.now) line second }
{
    match second {
        Some(second) => {
            if !nested {
                return false;
            }
            is_distinct_at(above, line) && is_second_distinct_at(above, second)
        }
        None => !nested && is_distinct_at(above, line),
    }
}

fn closes_residue(above: &[LineForm<'_>], line: u32) -> bool
    ensures { result ≡ holds_of has_residue_lem (numbered_lem (forms_in above.now) line) }
{
    match line_at(above, line) {
        Some(form) => has_residue(form),
        None => false,
    }
}

fn closes_range(
    knowledge: &LoopKnowledge,
    nested: bool,
    above: &[LineForm<'_>],
    line: u32,
) -> Result<bool, Memory>
    ensures { IfOk result (λ b. b ≡ holds_of (range_holds_lem nested (survey_of knowledge.now)) (numbered_lem (forms_in above.now) line)) }
{
    match line_at(above, line) {
        Some(form) => {
            let ranges = knowledge.ranges.as_slice();
            Ok(range_holds(nested, ranges, knowledge.second, form)?)
        }
        None => Ok(false),
    }
}

fn closes_fact(
    knowledge: &LoopKnowledge,
    pair: &Pair,
    above: &[LineForm<'_>],
    number: u32,
    lines: &[u32],
) -> bool
    ensures { result ≡ fact_closes (survey_of knowledge.now) (pair_told pair.now) (forms_in above.now) lines.now (numbered_lem (facts_told knowledge.now.facts) number) }
{
    match numbered(knowledge.facts.as_slice(), number) {
        Some(fact) => {
            if !serves_pair(knowledge.accesses.as_slice(), fact, pair) {
                return false;
            }
            are_lines(above, lines, fact.differences.as_slice())
        }
        None => false,
    }
}

fn closes(
    knowledge: &LoopKnowledge,
    pair: &Pair,
    above: &[LineForm<'_>],
    close: &Close,
) -> Result<bool, Memory>
    ensures { IfOk result (λ b. b ≡ closes_lem (survey_of knowledge.now) (pair_told pair.now) (forms_in above.now) (close_told close.now)) }
{
    match close {
        Close::Distinct { line, second } => {
            Ok(closes_distinct(is_nested(pair), above, *line, *second))
        }
        Close::Residue(line) => Ok(closes_residue(above, *line)),
        Close::Range(line) => Ok(closes_range(knowledge, is_nested(pair), above, *line)?),
        Close::Fact { number, lines } => {
            Ok(closes_fact(knowledge, pair, above, *number, lines.as_slice()))
        }
    }
}

fn is_accepted(
    alloc: Global,
    knowledge: &LoopKnowledge,
    pair: &Pair,
    derivation: &Derivation,
) -> Result<bool, Memory>
    ensures { IfOk result (λ b. b ≡ accepts (survey_of knowledge.now) (pair_told pair.now) (derivation_told derivation.now)) }
{
    match forms_of_lines(alloc, knowledge, pair, derivation.lines.as_slice())? {
        Some(above) => Ok(closes(knowledge, pair, above.as_slice(), &derivation.close)?),
        None => Ok(false),
    }
}

/// Whether the derivation is accepted for the pair. A line that has no form refuses it, also where the close doesn't name that line.
pub fn accept(
    alloc: Global,
    knowledge: &LoopKnowledge,
    pair: &Pair,
    derivation: &Derivation,
) -> Result<bool, Memory>
    ensures tests { IfOk result (λ b. b ≡ accepts (survey_of knowledge.now) (pair_told pair.now) (derivation_told derivation.now)) }
    ensures exact { IfOk result (λ b. IsTrue b ↔ Accepted (survey_of knowledge.now) (pair_told pair.now) (derivation_told derivation.now)) }
    ensures disjoint { IfOk result (λ b. IsTrue b → (f g : Forms) → IsSurvey (survey_of knowledge.now) → IsPairOf (survey_of knowledge.now) (pair_told pair.now) f g
        → Disjoint (survey_of knowledge.now) (pair_told pair.now) f g) }
{
    Ok(is_accepted(alloc, knowledge, pair, derivation)?)
}
