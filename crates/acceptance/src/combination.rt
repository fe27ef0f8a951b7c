//! Sums of multiples of lines.

ghost use Rattle.std.specs.Prelude.{◌≡◌, ◌<◌, length, slice_get, map, if◌then◌else◌, option_map, Some, None, IfOk};
ghost use Rattle.index_forms.specs.Seen.{form_tree};
ghost use Rattle.index_forms.specs.Formed.{zero_form};
ghost use Rattle.index_forms.specs.Parts.{sum_seen};
ghost use Rattle.certificate_rules.specs.Surveys.{numbered as numbered_lem};
ghost use Rattle.certificate_rules.specs.Accepted.{added, combined, if_fits};
ghost use Rattle.acceptance.specs.Told.{forms_in, multiple_told};

use crate::line_form::{LineForm, line_at};
use certificate::Multiple;
use fl_base::Memory;
use index_forms::{Extent, Form, FormSum};
use std::alloc::Global;

/// Adds a multiple of a line; answers whether there is such a line.
fn add_multiple(
    alloc: Global,
    above: &[LineForm<'_>],
    multiple: &Multiple,
    sum: &mut FormSum,
) -> Result<bool, Memory>
    ensures { IfOk result (λ found. (if found then Some (sum_seen sum.new) else None) ≡ added multiple.now.multiplier (numbered_lem (forms_in above.now) multiple.now.line) (Some (sum_seen sum.old))) }
{
    match line_at(above, multiple.line) {
        Some(form) => {
            sum.add(alloc, multiple.multiplier as i64, form)?;
            Ok(true)
        }
        None => Ok(false),
    }
}

fn multiple_at(multiples: &[Multiple], at: usize) -> Multiple
    requires { at < length multiples.now }
    ensures { slice_get multiples.now at ≡ Some result }
{
    multiples[at]
}

/// Adds the multiples to an empty sum; answers whether their lines are there.
fn add_multiples(
    alloc: Global,
    above: &[LineForm<'_>],
    multiples: &[Multiple],
    sum: &mut FormSum,
) -> Result<bool, Memory>
    requires { sum_seen sum.old ≡ zero_form }
    ensures { IfOk result (λ found. (if found then Some (sum_seen sum.new) else None) ≡ combined (forms_in above.now) (map multiple_told multiples.now)) }
{
    for i in (0..multiples.len()).rev() {
        let multiple = multiple_at(multiples, i);
        if !add_multiple(alloc, above, &multiple, sum)? {
            return Ok(false);
        }
    }
    Ok(true)
}

/// The sum of multiples of lines, where these are there and its numbers lie in -2^62 .. 2^62.
pub fn combination(
    alloc: Global,
    above: &[LineForm<'_>],
    multiples: &[Multiple],
) -> Result<Option<Form>, Memory>
    ensures { IfOk result (λ o. option_map form_tree o ≡ if_fits (combined (forms_in above.now) (map multiple_told multiples.now))) }
{
    let mut sum = FormSum::new(alloc);
    if !add_multiples(alloc, above, multiples, &mut sum)? {
        return Ok(None);
    }
    sum.narrowed(alloc, Extent::Wide)
}
