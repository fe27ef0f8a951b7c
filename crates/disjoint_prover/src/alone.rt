//! Differences of a pair that close by themselves.

ghost use Rattle.std.specs.Prelude.{◌≡◌, [], ◌∷◌, map, option_map, IfOk};
ghost use Rattle.index_knowledge.specs.Told.{pair_told};
ghost use Rattle.certificate_rules.specs.Derivations.{hyp};
ghost use Rattle.certificate_rules.specs.Plain.{alone as alone_lem, two_lines as two_lines_lem, by_distinct as by_distinct_lem, by_residue as by_residue_lem, by_range as by_range_lem};
ghost use Rattle.acceptance.specs.Told.{survey_of, line_told, close_told, derivation_told};

use crate::least::{FormTest, least};
use acceptance::LoopKnowledge;
use certificate::{Close, Derivation, Line};
use fl_base::{Items, Memory};
use index_knowledge::Pair;
use std::alloc::Global;

fn one_line(alloc: Global, number: u32) -> Result<Items<Line>, Memory>
    ensures { IfOk result (λ ls. map line_told ls ≡ hyp number ∷ []) }
{
    let mut lines = Items::new(alloc);
    lines.push(Line::Hyp(number))?;
    Ok(lines)
}

/// The pair's difference with a number, where there is one, with a close of it alone.
fn alone(alloc: Global, number: Option<u32>, close: Close) -> Result<Option<Derivation>, Memory>
    ensures { IfOk result (λ o. option_map derivation_told o ≡ alone_lem (λ l. close_told close) number) }
{
    match number {
        Some(number) => {
            let lines = one_line(alloc, number)?;
            Ok(Some(Derivation { lines, close }))
        }
        None => Ok(None),
    }
}

fn both_lines(alloc: Global, first: u32, second: u32) -> Result<Items<Line>, Memory>
    ensures { IfOk result (λ ls. map line_told ls ≡ hyp first ∷ hyp second ∷ []) }
{
    let mut lines = one_line(alloc, first)?;
    lines.push(Line::Hyp(second))?;
    Ok(lines)
}

fn two_lines(
    alloc: Global,
    first: Option<u32>,
    second: Option<u32>,
) -> Result<Option<Derivation>, Memory>
    ensures { IfOk result (λ o. option_map derivation_told o ≡ two_lines_lem first second) }
{
    match first {
        Some(first) => match second {
            Some(second) => Ok(Some(Derivation {
                lines: both_lines(alloc, first, second)?,
                close: Close::Distinct {
                    line: 1,
                    second: Some(2),
                },
            })),
            None => Ok(None),
        },
        None => Ok(None),
    }
}

pub fn by_distinct(alloc: Global, nested: bool, pair: &Pair) -> Result<Option<Derivation>, Memory>
    ensures { IfOk result (λ o. option_map derivation_told o ≡ by_distinct_lem nested (pair_told pair.now)) }
{
    let number = least(&FormTest::Distinct, pair.differences.as_slice())?;
    if nested {
        let second = least(&FormTest::SecondDistinct, pair.differences.as_slice())?;
        return Ok(two_lines(alloc, number, second)?);
    }
    let close = Close::Distinct {
        line: 1,
        second: None,
    };
    Ok(alone(alloc, number, close)?)
}

pub fn by_residue(alloc: Global, pair: &Pair) -> Result<Option<Derivation>, Memory>
    ensures { IfOk result (λ o. option_map derivation_told o ≡ by_residue_lem (pair_told pair.now)) }
{
    let number = least(&FormTest::Residue, pair.differences.as_slice())?;
    Ok(alone(alloc, number, Close::Residue(1))?)
}

pub fn by_range(
    alloc: Global,
    knowledge: &LoopKnowledge,
    pair: &Pair,
) -> Result<Option<Derivation>, Memory>
    ensures { IfOk result (λ o. option_map derivation_told o ≡ by_range_lem (survey_of knowledge.now) (pair_told pair.now)) }
{
    let nested = pair.nest == 2;
    let test = FormTest::Range { nested, knowledge };
    let number = least(&test, pair.differences.as_slice())?;
    Ok(alone(alloc, number, Close::Range(1))?)
}
