//! Lines that show forms to be 0, elements' differences included.

ghost use Rattle.std.specs.Prelude.{◌≡◌, suc, length, map, if◌then◌else◌, option_map, Some, None, IfOk};
ghost use Rattle.index_forms.specs.Seen.{form_tree};
ghost use Rattle.index_forms.specs.Listed.{forms_seen};
ghost use Rattle.index_forms.specs.Sums.{differences as differences_lem};
ghost use Rattle.index_knowledge.specs.Told.{pair_told};
ghost use Rattle.certificate_rules.specs.Plain.{lines_for, shown_alone, shown_cong, shown_elements, shown as shown_lem, all_shown};
ghost use Rattle.acceptance.specs.Told.{survey_of, line_told};
ghost use Rattle.disjoint_prover.specs.Aparts.{apart_told};
ghost use Rattle.disjoint_prover.specs.Grown.{grown};
ghost use Rattle.disjoint_prover.specs.ShownLines.{with_last, behind, with_lasts, all_behind};

use crate::elements::{Apart, elements_of, least_read};
use crate::least::number_at;
use crate::lines::{line_for, numbers, push_lines};
use acceptance::LoopKnowledge;
use certificate::Line;
use fl_base::{Items, Memory};
use index_forms::Form;
use index_knowledge::{Pair, differences};
use std::alloc::Global;

/// Adds a line for each difference of subscripts; answers whether each has one.
fn push_differences(
    alloc: Global,
    pair: &Pair,
    ones: &[Form],
    twos: &[Form],
    lines: &mut Items<Line>,
) -> Result<bool, Memory>
    ensures { IfOk result (λ found. (if found then Some (map line_told lines.new) else None) ≡ grown (map line_told lines.old) (lines_for (pair_told pair.now) (differences_lem (forms_seen ones.now) (forms_seen twos.now)))) }
{
    let differences = differences(alloc, ones, twos)?;
    Ok(push_lines(alloc, pair, differences.as_slice(), lines)?)
}

fn push_cong(
    alloc: Global,
    pair: &Pair,
    apart: Apart<'_>,
    first: u32,
    second: u32,
    lines: &mut Items<Line>,
) -> Result<Option<u32>, Memory>
    ensures { IfOk result (λ last. with_last (map line_told lines.new) last
        ≡ behind (map line_told lines.old) (shown_cong (suc (length lines.old)) (Some first) (Some second) (lines_for (pair_told pair.now) (differences_lem (forms_seen apart.entry.ones.now) (forms_seen apart.entry.twos.now))))) }
{
    let from = number_at(lines.len())?;
    let before = lines.len();
    if !push_differences(alloc, pair, apart.ones, apart.twos, lines)? {
        return Ok(None);
    }
    let last = number_at(lines.len())?;
    let shown = numbers(alloc, from, lines.len().saturating_sub(before))?;
    lines.push(Line::Cong {
        first,
        second,
        lines: shown,
    })?;
    Ok(Some(last))
}

fn push_cong_of(
    alloc: Global,
    pair: &Pair,
    apart: Apart<'_>,
    first: Option<u32>,
    second: Option<u32>,
    lines: &mut Items<Line>,
) -> Result<Option<u32>, Memory>
    ensures { IfOk result (λ last. with_last (map line_told lines.new) last
        ≡ behind (map line_told lines.old) (shown_cong (suc (length lines.old)) first second (lines_for (pair_told pair.now) (differences_lem (forms_seen apart.entry.ones.now) (forms_seen apart.entry.twos.now))))) }
{
    match first {
        Some(first) => match second {
            Some(second) => Ok(push_cong(alloc, pair, apart, first, second, lines)?),
            None => Ok(None),
        },
        None => Ok(None),
    }
}

fn push_elements(
    alloc: Global,
    knowledge: &LoopKnowledge,
    pair: &Pair,
    apart: Option<Apart<'_>>,
    lines: &mut Items<Line>,
) -> Result<Option<u32>, Memory>
    ensures { IfOk result (λ last. with_last (map line_told lines.new) last
        ≡ behind (map line_told lines.old) (shown_elements (survey_of knowledge.now) (pair_told pair.now) (suc (length lines.old)) (option_map apart_told apart.entry))) }
{
    match apart {
        Some(apart) => {
            let scene = &knowledge.scene;
            let accesses = knowledge.accesses.as_slice();
            let ones = knowledge.ones.as_slice();
            let twos = knowledge.twos.as_slice();
            let first = least_read(scene, accesses, ones, apart.name, apart.ones)?;
            let second = least_read(scene, accesses, twos, apart.name, apart.twos)?;
            Ok(push_cong_of(alloc, pair, apart, first, second, lines)?)
        }
        None => Ok(None),
    }
}

fn push_alone(line: Line, lines: &mut Items<Line>) -> Result<Option<u32>, Memory>
    ensures { IfOk result (λ last. with_last (map line_told lines.new) last ≡ behind (map line_told lines.old) (shown_alone (suc (length lines.old)) (Some (line_told line)))) }
{
    let count = lines.len();
    lines.push(line)?;
    Ok(Some(number_at(count)?))
}

/// Adds lines of which the last one shows the form to be 0; answers that one's number.
fn push_shown(
    alloc: Global,
    knowledge: &LoopKnowledge,
    pair: &Pair,
    form: &Form,
    lines: &mut Items<Line>,
) -> Result<Option<u32>, Memory>
    ensures { IfOk result (λ last. with_last (map line_told lines.new) last ≡ behind (map line_told lines.old) (shown_lem (survey_of knowledge.now) (pair_told pair.now) (suc (length lines.old)) (form_tree form.now))) }
{
    match line_for(alloc, pair, form)? {
        Some(line) => Ok(push_alone(line, lines)?),
        None => {
            let apart = elements_of(alloc, form)?;
            Ok(push_elements(alloc, knowledge, pair, apart, lines)?)
        }
    }
}

/// Adds lines that show all forms to be 0, and the numbers of those for each form; answers whether there are such lines.
pub fn push_all_shown(
    alloc: Global,
    knowledge: &LoopKnowledge,
    pair: &Pair,
    forms: &[Form],
    lines: &mut Items<Line>,
    lasts: &mut Items<u32>,
) -> Result<bool, Memory>
    ensures { IfOk result (λ all. with_lasts all (map line_told lines.new) lasts.new ≡ all_behind (map line_told lines.old) lasts.old (all_shown (survey_of knowledge.now) (pair_told pair.now) (suc (length lines.old)) (map form_tree forms.now))) }
{
    for i in 0..forms.len() {
        let form = &forms[i];
        match push_shown(alloc, knowledge, pair, form, lines)? {
            Some(last) => lasts.push(last)?,
            None => {
                return Ok(false);
            }
        }
    }
    Ok(true)
}
