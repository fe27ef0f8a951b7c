//! The first case that makes a pair plain.

ghost use Rattle.std.specs.Prelude.{◌≡◌, [], ◌∷◌, map, is_some, option_map, IfOk, IfSome};
ghost use Rattle.index_forms.specs.Seen.{form_tree};
ghost use Rattle.index_knowledge.specs.Told.{fact_told, facts_told, pair_told};
ghost use Rattle.certificate_rules.specs.Accepted.{Accepted};
ghost use Rattle.certificate_rules.specs.Plain.{by_fact as by_fact_lem, by_facts as by_facts_lem, by_elements as by_elements_lem, stated};
ghost use Rattle.acceptance.specs.Told.{survey_of, derivation_told};
ghost use Rattle.disjoint_prover.specs.FactRules.{derive, by_differences as by_differences_lem};
ghost use Rattle.disjoint_prover.specs.Tested.{may_close as may_close_lem, is_closed};

use crate::alone::{by_distinct, by_range, by_residue};
use crate::least::number_at;
use crate::lines::{line_for, numbers, push_lines};
use crate::shown::push_all_shown;
use acceptance::{LoopKnowledge, serves_pair};
use certificate::{Close, Derivation};
use fl_base::{Items, Memory};
use index_forms::Form;
use index_knowledge::{Fact, Pair};
use std::alloc::Global;

/// How a fact's differences are shown to be 0.
#[derive(Clone, Copy)]
pub enum FactRule {
    /// Each is 0 or a difference of the pair.
    Lines,
    /// Or it is that of two elements of an index array, whose subscripts' differences are so.
    Elements,
}

fn has_line(alloc: Global, pair: &Pair, form: &Form) -> Result<bool, Memory>
    ensures { IfOk result (λ b. b ≡ may_close_lem (pair_told pair.now) (form_tree form.now ∷ [])) }
{
    match line_for(alloc, pair, form)? {
        Some(_) => Ok(true),
        None => Ok(false),
    }
}

/// Whether the first of a fact's differences, if there is one, is 0 or a difference of the pair: what most facts fail at once.
fn may_close(alloc: Global, pair: &Pair, forms: &[Form]) -> Result<bool, Memory>
    ensures { IfOk result (λ b. b ≡ may_close_lem (pair_told pair.now) (map form_tree forms.now)) }
{
    match forms {
        [] => Ok(true),
        [first, ..] => Ok(has_line(alloc, pair, first)?),
    }
}

#[tactic(auto, using(crate::proofs::Tested::not_closing))]
fn by_fact(
    alloc: Global,
    knowledge: &LoopKnowledge,
    pair: &Pair,
    number: u32,
    fact: &Fact,
) -> Result<Option<Derivation>, Memory>
    ensures { IfOk result (λ o. option_map derivation_told o ≡ by_fact_lem (survey_of knowledge.now) (pair_told pair.now) number (fact_told fact.now)) }
{
    if !may_close(alloc, pair, fact.differences.as_slice())? {
        return Ok(None);
    }
    if !serves_pair(knowledge.accesses.as_slice(), fact, pair) {
        return Ok(None);
    }
    let mut lines = Items::new(alloc);
    if !push_lines(alloc, pair, fact.differences.as_slice(), &mut lines)? {
        return Ok(None);
    }
    let last = numbers(alloc, 1, lines.len())?;
    Ok(Some(Derivation {
        lines,
        close: Close::Fact {
            number,
            lines: last,
        },
    }))
}

fn by_elements(
    alloc: Global,
    knowledge: &LoopKnowledge,
    pair: &Pair,
    number: u32,
    fact: &Fact,
) -> Result<Option<Derivation>, Memory>
    ensures { IfOk result (λ o. option_map derivation_told o ≡ by_elements_lem (survey_of knowledge.now) (pair_told pair.now) number (fact_told fact.now)) }
{
    if !serves_pair(knowledge.accesses.as_slice(), fact, pair) {
        return Ok(None);
    }
    let mut lines = Items::new(alloc);
    let mut lasts = Items::new(alloc);
    let forms = fact.differences.as_slice();
    if !push_all_shown(alloc, knowledge, pair, forms, &mut lines, &mut lasts)? {
        return Ok(None);
    }
    Ok(Some(Derivation {
        lines,
        close: Close::Fact {
            number,
            lines: lasts,
        },
    }))
}

fn by_rule(
    alloc: Global,
    rule: FactRule,
    knowledge: &LoopKnowledge,
    pair: &Pair,
    number: u32,
    fact: &Fact,
) -> Result<Option<Derivation>, Memory>
    ensures { IfOk result (λ o. option_map derivation_told o ≡ derive rule (survey_of knowledge.now) (pair_told pair.now) number (fact_told fact.now)) }
{
    match rule {
        FactRule::Lines => Ok(by_fact(alloc, knowledge, pair, number, fact)?),
        FactRule::Elements => Ok(by_elements(alloc, knowledge, pair, number, fact)?),
    }
}

/// By the least fact that has a derivation by the rule.
fn by_facts(
    alloc: Global,
    rule: FactRule,
    knowledge: &LoopKnowledge,
    pair: &Pair,
    facts: &[Fact],
) -> Result<Option<Derivation>, Memory>
    ensures { IfOk result (λ o. option_map derivation_told o ≡ by_facts_lem (derive rule (survey_of knowledge.now) (pair_told pair.now)) 1 (facts_told facts.now)) }
{
    for i in 0..facts.len() {
        let number = number_at(i)?;
        match by_rule(alloc, rule, knowledge, pair, number, &facts[i])? {
            Some(derivation) => {
                return Ok(Some(derivation));
            }
            None => {}
        }
    }
    Ok(None)
}

fn by_differences(
    alloc: Global,
    knowledge: &LoopKnowledge,
    pair: &Pair,
) -> Result<Option<Derivation>, Memory>
    ensures { IfOk result (λ o. option_map derivation_told o ≡ by_differences_lem (survey_of knowledge.now) (pair_told pair.now)) }
{
    if let Some(derivation) = by_distinct(alloc, pair.nest == 2, pair)? {
        return Ok(Some(derivation));
    }
    if let Some(derivation) = by_residue(alloc, pair)? {
        return Ok(Some(derivation));
    }
    Ok(by_range(alloc, knowledge, pair)?)
}

fn by_cases(
    alloc: Global,
    knowledge: &LoopKnowledge,
    pair: &Pair,
) -> Result<Option<Derivation>, Memory>
    ensures { IfOk result (λ o. option_map derivation_told o ≡ stated (survey_of knowledge.now) (pair_told pair.now)) }
{
    let facts = knowledge.facts.as_slice();
    if let Some(derivation) = by_facts(alloc, FactRule::Lines, knowledge, pair, facts)? {
        return Ok(Some(derivation));
    }
    if let Some(derivation) = by_differences(alloc, knowledge, pair)? {
        return Ok(Some(derivation));
    }
    Ok(by_facts(alloc, FactRule::Elements, knowledge, pair, facts)?)
}

/// The stated derivation of the first case that makes the pair plain. None exactly where the pair isn't plain.
pub fn prove(
    alloc: Global,
    knowledge: &LoopKnowledge,
    pair: &Pair,
) -> Result<Option<Derivation>, Memory>
    ensures stated { IfOk result (λ o. option_map derivation_told o ≡ stated (survey_of knowledge.now) (pair_told pair.now)) }
    ensures accepted { IfOk result (λ o. IfSome o (λ d. Accepted (survey_of knowledge.now) (pair_told pair.now) (derivation_told d))) }
{
    Ok(by_cases(alloc, knowledge, pair)?)
}

fn closes_alone(alloc: Global, knowledge: &LoopKnowledge, pair: &Pair) -> Result<bool, Memory>
    ensures { IfOk result (λ b. b ≡ is_some (by_differences_lem (survey_of knowledge.now) (pair_told pair.now))) }
{
    match by_differences(alloc, knowledge, pair)? {
        Some(_) => Ok(true),
        None => Ok(false),
    }
}

fn closes_by(
    alloc: Global,
    rule: FactRule,
    knowledge: &LoopKnowledge,
    pair: &Pair,
) -> Result<bool, Memory>
    ensures { IfOk result (λ b. b ≡ is_some (by_facts_lem (derive rule (survey_of knowledge.now) (pair_told pair.now)) 1 (survey_of knowledge.now).facts)) }
{
    match by_facts(alloc, rule, knowledge, pair, knowledge.facts.as_slice())? {
        Some(_) => Ok(true),
        None => Ok(false),
    }
}

fn closes(alloc: Global, knowledge: &LoopKnowledge, pair: &Pair) -> Result<bool, Memory>
    ensures { IfOk result (λ b. b ≡ is_closed (survey_of knowledge.now) (pair_told pair.now)) }
{
    if closes_alone(alloc, knowledge, pair)? {
        return Ok(true);
    }
    if closes_by(alloc, FactRule::Lines, knowledge, pair)? {
        return Ok(true);
    }
    Ok(closes_by(alloc, FactRule::Elements, knowledge, pair)?)
}

/// Whether the pair is plain, by what costs little first.
#[tactic(auto, using(crate::proofs::Tested::closed_is_stated))]
pub fn is_plain(alloc: Global, knowledge: &LoopKnowledge, pair: &Pair) -> Result<bool, Memory>
    ensures plain { IfOk result (λ b. b ≡ is_some (stated (survey_of knowledge.now) (pair_told pair.now))) }
{
    Ok(closes(alloc, knowledge, pair)?)
}
