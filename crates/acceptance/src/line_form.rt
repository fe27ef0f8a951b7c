//! The forms that the lines of a derivation stand for.

ghost use Rattle.std.specs.Prelude.{◌≡◌, map, option_map, option_copied};
ghost use Rattle.index_forms.specs.Seen.{form_tree};
ghost use Rattle.certificate_rules.specs.Surveys.{numbered as numbered_lem};
ghost use Rattle.certificate_rules.specs.Tests.{matches, lines_are, same_form};
ghost use Rattle.acceptance.specs.Told.{form_in, forms_in};

use crate::knowledge::numbered;
use fl_base::Boxed;
use index_forms::Form;
use std::cmp::Ordering;

/// The form of a line: one that was given, or one that was made.
#[derive(Drop)]
pub enum LineForm<'a> {
    Given(&'a Form),
    Made(Boxed<Form>),
}

impl LineForm<'_> {
    fn form(&self) -> &Form
        ensures { result.now ≡ form_in self.now }
    {
        match self {
            LineForm::Given(form) => *form,
            LineForm::Made(form) => form.get(),
        }
    }
}

/// The form of the line with a number.
#[tactic(auto, using(crate::proofs::Lines::line_some, crate::proofs::Lines::line_none))]
pub fn line_at<'b>(above: &'b [LineForm<'_>], number: u32) -> Option<&'b Form>
    ensures { option_map form_tree (option_copied result) ≡ numbered_lem (forms_in above.now) number }
{
    match numbered(above, number) {
        Some(line) => Some(line.form()),
        None => None,
    }
}

pub fn is_same(form: &Form, other: &Form) -> bool
    ensures { result ≡ same_form (form_tree form.now) (form_tree other.now) }
{
    match form.order(other) {
        Ordering::Equal => true,
        Ordering::Less | Ordering::Greater => false,
    }
}

fn is_line(above: &[LineForm<'_>], number: u32, form: &Form) -> bool
    ensures { result ≡ matches (numbered_lem (forms_in above.now) number) (form_tree form.now) }
{
    match line_at(above, number) {
        Some(line) => is_same(line, form),
        None => false,
    }
}

/// Whether the lines with these numbers stand for these forms.
#[tactic(auto, using(crate::proofs::Lines::lines_unequal))]
pub fn are_lines(above: &[LineForm<'_>], numbers: &[u32], forms: &[Form]) -> bool
    ensures { result ≡ lines_are (forms_in above.now) numbers.now (map form_tree forms.now) }
{
    if numbers.len() != forms.len() {
        return false;
    }
    for i in 0..numbers.len() {
        if !is_line(above, numbers[i], &forms[i]) {
            return false;
        }
    }
    true
}
