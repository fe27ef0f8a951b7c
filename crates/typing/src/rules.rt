//! The first rule that is broken at a name or number.

ghost use Rattle.std.specs.Prelude.{◌≡◌, not, ◌&&◌, ◌||◌};
ghost use Rattle.std.specs.Option.{option_copied};
ghost use Rattle.fl_types.specs.Rows as rows;
ghost use Rattle.typing.specs.Firsts as firsts;
ghost use Rattle.fl_types.specs.Sharing as sharing;
ghost use Rattle.fl_types.specs.WellTyped as typed;
ghost use Rattle.typing.specs.Views.{names_in, around_of, region_of, optional_region};

use crate::around::{Around, Ends, Region};
use crate::loops::{
    is_bad_nest, is_first_in, is_own_in, is_plus_in, is_private_in, is_unlisted_in, varies_in_loop,
};
use crate::names::{
    has_bytes_of_data, has_name, is_argument_if_array, is_declared, is_index_scalar_argument,
    is_local_index_scalar, is_local_scalar, is_read_only_argument, is_reserved, is_ring_scalar,
    is_scalar,
};
use crate::rule::Rule;
use fl_ast::{Decl, Kind, Name};
use known_names::Indexed;

pub(crate) fn unit_rule(name: &Name) -> Option<Rule>
    ensures { result ≡ firsts.unit_rule name.now }
{
    if is_reserved(name) {
        return Some(Rule::ReservedSuffix);
    }
    None
}

pub(crate) fn argument_rule(program: &Indexed<'_>, earlier: &[Name], name: &Name) -> Option<Rule>
    ensures { result ≡ firsts.argument_rule program.now earlier.now name.now }
{
    if !program.is_declared(name) {
        return Some(Rule::Undeclared);
    }
    if has_name(name, earlier) {
        return Some(Rule::Doubled);
    }
    None
}

pub(crate) fn declared_rule(program: &Indexed<'_>, earlier: &[Decl], decl: &Decl) -> Option<Rule>
    ensures { result ≡ firsts.declared_rule program.now earlier.now decl.now }
{
    if is_declared(earlier, &decl.name) {
        return Some(Rule::Doubled);
    }
    if is_reserved(&decl.name) {
        return Some(Rule::ReservedSuffix);
    }
    if !is_argument_if_array(program, decl) {
        return Some(Rule::LocalArray);
    }
    if decl.dims.len() > 7 {
        return Some(Rule::Rank);
    }
    if !has_bytes_of_data(program.program().decls.as_slice(), decl) {
        return Some(Rule::MixedKinds);
    }
    None
}

pub(crate) fn bounding_rule(program: &Indexed<'_>, name: &Name) -> Option<Rule>
    ensures { result ≡ firsts.bounding_rule program.now name.now }
{
    if !program.is_declared(name) {
        return Some(Rule::Undeclared);
    }
    if !is_index_scalar_argument(program, name) {
        return Some(Rule::Rank);
    }
    if program.is_varying(name) {
        return Some(Rule::LoopVarUse);
    }
    if program.is_private(name) {
        return Some(Rule::PrivateUse);
    }
    None
}

fn is_private_and_no_local(program: &Indexed<'_>, region: &Region<'_>, name: &Name) -> bool
    ensures { result ≡ rows.is_private_in (region_of region.now) name.now && not (typed.is_local_scalar program.now name.now) }
{
    is_private_in(region, name) && !is_local_scalar(program, name)
}

fn is_plus_and_no_ring(program: &Indexed<'_>, region: &Region<'_>, name: &Name) -> bool
    ensures { result ≡ sharing.has_name name.now region.now.directive.now.pluses && not (typed.is_ring_scalar program.now name.now) }
{
    has_name(name, region.directive.pluses.as_slice()) && !is_ring_scalar(program, name)
}

fn is_copied(region: &Region<'_>, name: &Name) -> bool
    ensures { result ≡ rows.is_private_in (region_of region.now) name.now || sharing.has_name name.now region.now.directive.now.firsts }
{
    is_private_in(region, name) || has_name(name, region.directive.firsts.as_slice())
}

fn is_copied_array(program: &Indexed<'_>, region: &Region<'_>, name: &Name) -> bool
    ensures { result ≡ firsts.is_copied_array program.now (region_of region.now) name.now }
{
    is_copied(region, name) && !is_scalar(program, name)
}

fn is_wrong_variable(region: &Region<'_>, name: &Name) -> bool
    ensures { result ≡ firsts.is_wrong_variable (region_of region.now) name.now }
{
    varies_in_loop(region, name) && !has_name(name, region.directive.privates.as_slice())
}

fn is_not_shareable(program: &Indexed<'_>, region: &Region<'_>, name: &Name) -> bool
    ensures { result ≡ firsts.is_copied_array program.now (region_of region.now) name.now || firsts.is_wrong_variable (region_of region.now) name.now }
{
    is_copied_array(program, region, name) || is_wrong_variable(region, name)
}

pub(crate) fn listed_rule(program: &Indexed<'_>, region: &Region<'_>, name: &Name) -> Option<Rule>
    ensures { result ≡ firsts.listed_rule program.now (region_of region.now) name.now }
{
    if !program.is_declared(name) {
        return Some(Rule::Undeclared);
    }
    if is_private_and_no_local(program, region, name) {
        return Some(Rule::PrivateUse);
    }
    if is_plus_and_no_ring(program, region, name) {
        return Some(Rule::ReductionUse);
    }
    if is_not_shareable(program, region, name) {
        return Some(Rule::NotShareable);
    }
    None
}

pub(crate) fn directive_rule(region: &Region<'_>) -> Option<Rule>
    ensures { result ≡ firsts.directive_rule (region_of region.now) }
{
    if is_bad_nest(region) {
        return Some(Rule::CollapseForm);
    }
    None
}

fn is_no_variable(program: &Indexed<'_>, around: &Around<'_, '_>, name: &Name) -> bool
    ensures { result ≡ not (typed.is_local_index_scalar program.now name.now) || sharing.has_name name.now (names_in around.now.vars.now) }
{
    !is_local_index_scalar(program, name) || around.vars.has(name)
}

pub(crate) fn variable_rule(
    program: &Indexed<'_>,
    around: &Around<'_, '_>,
    name: &Name,
) -> Option<Rule>
    ensures { result ≡ firsts.variable_rule program.now (around_of around.now) name.now }
{
    if !program.is_declared(name) {
        return Some(Rule::Undeclared);
    }
    if is_no_variable(program, around, name) {
        return Some(Rule::LoopVarUse);
    }
    None
}

fn shape_rule(program: &Indexed<'_>, name: &Name, count: usize) -> Option<Rule>
    ensures { result ≡ firsts.shape_rule program.now name.now count }
{
    if !program.is_declared(name) {
        return Some(Rule::Undeclared);
    }
    if !program.has_rank(name, count) {
        return Some(Rule::Rank);
    }
    None
}

fn is_out(program: &Indexed<'_>, around: &Around<'_, '_>, name: &Name) -> bool
    ensures { result ≡ firsts.is_out program.now (around_of around.now) name.now }
{
    if !program.is_private(name) {
        return false;
    }
    if around.vars.has(name) {
        return false;
    }
    !is_own_in(&around.parallel, name)
}

fn is_out_or_first(program: &Indexed<'_>, around: &Around<'_, '_>, name: &Name) -> bool
    ensures { result ≡ firsts.is_out program.now (around_of around.now) name.now || rows.is_first_in (optional_region around.now.parallel) name.now }
{
    is_out(program, around, name) || is_first_in(&around.parallel, name)
}

fn is_name_of(given: &Option<&Name>, name: &Name) -> bool
    ensures { result ≡ rows.is_name_of (option_copied given.now) name.now }
{
    match given {
        None => false,
        Some(other) => other.is(name),
    }
}

fn is_other_use(around: &Around<'_, '_>, name: &Name) -> bool
    ensures { result ≡ firsts.is_other_use (around_of around.now) name.now }
{
    is_plus_in(&around.parallel, name) && !is_name_of(&around.own, name)
}

fn assigning_rule(program: &Indexed<'_>, around: &Around<'_, '_>, name: &Name) -> Option<Rule>
    ensures { result ≡ firsts.assigning_rule program.now (around_of around.now) name.now }
{
    if is_read_only_argument(program, name) {
        return Some(Rule::IntentIn);
    }
    if program.is_varying(name) {
        return Some(Rule::LoopVarUse);
    }
    if is_out_or_first(program, around, name) {
        return Some(Rule::PrivateUse);
    }
    if is_other_use(around, name) {
        return Some(Rule::ReductionUse);
    }
    if is_unlisted_in(&around.parallel, name) {
        return Some(Rule::Unlisted);
    }
    None
}

pub(crate) fn target_rule(
    program: &Indexed<'_>,
    around: &Around<'_, '_>,
    name: &Name,
    count: usize,
) -> Option<Rule>
    ensures { result ≡ firsts.target_rule program.now (around_of around.now) name.now count }
{
    match shape_rule(program, name, count) {
        Some(rule) => Some(rule),
        None => assigning_rule(program, around, name),
    }
}

fn ends_rule(ends: Ends) -> Option<Rule>
    ensures { result ≡ firsts.ends_rule ends }
{
    if ends.clash {
        return Some(Rule::KindClash);
    }
    if ends.division {
        return Some(Rule::DataDivision);
    }
    if ends.index {
        return Some(Rule::DataToIndex);
    }
    None
}

fn atomic_rule(ends: Ends) -> Option<Rule>
    ensures { result ≡ firsts.atomic_rule ends }
{
    if ends.atomic {
        return Some(Rule::AtomicForm);
    }
    None
}

/// Whether a loop's variable stands outside its loops.
fn is_outside(program: &Indexed<'_>, around: &Around<'_, '_>, name: &Name) -> bool
    ensures { result ≡ rows.is_varying program.now name.now && not (sharing.has_name name.now (names_in around.now.vars.now)) }
{
    program.is_varying(name) && !around.vars.has(name)
}

fn standing_rule(
    program: &Indexed<'_>,
    around: &Around<'_, '_>,
    ends: Ends,
    name: &Name,
) -> Option<Rule>
    ensures { result ≡ firsts.standing_rule program.now (around_of around.now) ends name.now }
{
    if is_name_of(&around.subscript_of, name) {
        return Some(Rule::SelfSubscript);
    }
    if is_outside(program, around, name) {
        return Some(Rule::LoopVarUse);
    }
    if is_out(program, around, name) {
        return Some(Rule::PrivateUse);
    }
    if is_other_use(around, name) {
        return Some(Rule::ReductionUse);
    }
    if ends.atomic {
        return Some(Rule::AtomicForm);
    }
    if is_unlisted_in(&around.parallel, name) {
        return Some(Rule::Unlisted);
    }
    None
}

fn behind_shape(
    program: &Indexed<'_>,
    around: &Around<'_, '_>,
    ends: Ends,
    name: &Name,
) -> Option<Rule>
    ensures { result ≡ firsts.or_later (firsts.ends_rule ends) (firsts.standing_rule program.now (around_of around.now) ends name.now) }
{
    match ends_rule(ends) {
        Some(rule) => Some(rule),
        None => standing_rule(program, around, ends, name),
    }
}

pub(crate) fn use_rule(
    program: &Indexed<'_>,
    around: &Around<'_, '_>,
    ends: Ends,
    name: &Name,
    count: usize,
) -> Option<Rule>
    ensures { result ≡ firsts.use_rule program.now (around_of around.now) ends name.now count }
{
    match shape_rule(program, name, count) {
        Some(rule) => Some(rule),
        None => behind_shape(program, around, ends, name),
    }
}

fn range_rule(value: u64, kind: Kind) -> Option<Rule>
    ensures { result ≡ firsts.range_rule value kind }
{
    match kind {
        Kind::Index => {
            if value > 0x7fff_ffff {
                return Some(Rule::LiteralRange);
            }
            None
        }
        Kind::Ring => None,
    }
}

pub(crate) fn exponent_rule(ends: Ends) -> Option<Rule>
    ensures { result ≡ firsts.exponent_rule ends }
{
    match ends_rule(ends) {
        Some(rule) => Some(rule),
        None => atomic_rule(ends),
    }
}

pub(crate) fn number_rule(ends: Ends, value: u64, kind: Kind) -> Option<Rule>
    ensures { result ≡ firsts.number_rule ends value kind }
{
    match range_rule(value, kind) {
        Some(rule) => Some(rule),
        None => exponent_rule(ends),
    }
}
