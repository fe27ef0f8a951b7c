//! The least form that meets a test.

ghost use Rattle.std.specs.Prelude.{◌≡◌, suc, ◌+◌, map, IfOk};
ghost use Rattle.index_forms.specs.Seen.{form_tree};
ghost use Rattle.certificate_rules.specs.Plain.{least as least_lem};
ghost use Rattle.disjoint_prover.specs.FormTests.{test_of};

use acceptance::{
    LoopKnowledge, has_residue, is_distinct, is_same, is_second_distinct, range_holds,
};
use fl_base::Memory;
use index_forms::Form;

/// What is asked of a form.
#[derive(Clone, Copy)]
pub enum FormTest<'a> {
    Same(&'a Form),
    Distinct,
    SecondDistinct,
    Residue,
    Range {
        nested: bool,
        knowledge: &'a LoopKnowledge,
    },
}

#[tactic(auto, using(crate::proofs::LeastForms::residue_is, crate::proofs::LeastForms::range_is))]
fn meets(test: &FormTest<'_>, form: &Form) -> Result<bool, Memory>
    ensures { IfOk result (λ b. b ≡ test_of test.now (form_tree form.now)) }
{
    match test {
        FormTest::Same(other) => Ok(is_same(form, *other)),
        FormTest::Distinct => Ok(is_distinct(form)),
        FormTest::SecondDistinct => Ok(is_second_distinct(form)),
        FormTest::Residue => Ok(has_residue(form)),
        FormTest::Range { nested, knowledge } => {
            let ranges = knowledge.ranges.as_slice();
            Ok(range_holds(*nested, ranges, knowledge.second, form)?)
        }
    }
}

/// A number with so many more. That there are more than 32 bits count is a want of memory.
pub fn number_from(from: u32, more: usize) -> Result<u32, Memory>
    ensures { IfOk result (λ n. n ≡ from + more) }
{
    match u32::try_from(more) {
        Ok(more) => match from.checked_add(more) {
            Some(number) => Ok(number),
            None => Err(Memory),
        },
        Err(_) => Err(Memory),
    }
}

/// The number of what stands at a position.
pub fn number_at(position: usize) -> Result<u32, Memory>
    ensures { IfOk result (λ n. n ≡ suc position) }
{
    Ok(number_from(1, position)?)
}

/// The number of the first form that meets the test.
pub fn least(test: &FormTest<'_>, forms: &[Form]) -> Result<Option<u32>, Memory>
    ensures { IfOk result (λ o. o ≡ least_lem (test_of test.now) (map form_tree forms.now)) }
{
    for i in 0..forms.len() {
        if meets(test, &forms[i])? {
            return Ok(Some(number_at(i)?));
        }
    }
    Ok(None)
}
