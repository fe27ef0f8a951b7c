//! Terms of increments: as they stand in a program, and split.

ghost use Rattle.std.specs.Prelude.{◌≡◌, true, ◌++◌, ◌∷◌, [], length, is_some, List, Some, OnOk, IfOk};
ghost use Rattle.std.specs.List.{list_all};
ghost use Rattle.fl_types.specs.Increment.{Signed, target_of, chain, first_of_sum, increment_terms};
ghost use Rattle.fl_types.specs.Kinds.{is_well_kinded_assignment};
ghost use Rattle.meaning.specs.Fitting.{names_at};
ghost use Rattle.resolved.specs.SlotTables.{table_site, is_ring_in};
ghost use Rattle.resolved.specs.ResolvedExprs.{expression_back, place_back, is_within};
ghost use Rattle.resolved.specs.ResolvedStmts.{form_in};
ghost use Rattle.split_trees.specs.Codes.{is_kinded};
ghost use Rattle.made_steps.specs.Scopes.{is_signed_ready, AreTerms, TermsStand, front_terms, term_trees};

use fl_ast::{BinOp, Memory};
use fl_base::Items;
use fl_types::IncrementForm;
use resolved::{ResolvedExpr, ResolvedPlace, SlotTable};
use split_trees::split_ring;
use std::alloc::Global;
use sweep_steps::Term;

/// A term of an increment as it stands in the program. `minus` tells that it is taken off.
#[derive(Clone, Copy)]
pub struct SignedExpr<'e> {
    pub minus: bool,
    pub expr: &'e ResolvedExpr,
}

fn push_term<'e>(
    table: &SlotTable,
    minus: bool,
    expr: &'e ResolvedExpr,
    terms: &mut Items<SignedExpr<'e>>,
) -> Result<(), Memory>
    requires within { is_within (length table.now.0) expr.now ≡ true }
    requires kinded { is_kinded table.now (expression_back table.now.0 expr.now) ≡ true }
    ensures { OnOk result ((rs : List Signed) → AreTerms table.now rs terms.old
        → AreTerms table.now (rs ++ (minus, expression_back table.now.0 expr.now) ∷ []) terms.new) }
{
    terms.push(SignedExpr { minus, expr })?;
    Ok(())
}

/// The further terms of a chain that begins with the target.
#[cycle(terms)]
fn push_chain<'e>(
    table: &SlotTable,
    value: &'e ResolvedExpr,
    target: &ResolvedPlace,
    terms: &mut Items<SignedExpr<'e>>,
) -> Result<(), Memory>
    requires within { is_within (length table.now.0) value.now ≡ true }
    requires kinded { is_kinded table.now (expression_back table.now.0 value.now) ≡ true }
    requires begins { is_some (chain (target_of (place_back table.now.0 target.now)) (expression_back table.now.0 value.now)) ≡ true }
    requires empty { terms.old ≡ [] }
    ensures { OnOk result ((rs : List Signed) → chain (target_of (place_back table.now.0 target.now)) (expression_back table.now.0 value.now) ≡ Some rs
        → AreTerms table.now rs terms.new) }
{
    match value {
        ResolvedExpr::Bin {
            op: BinOp::Add,
            left,
            right,
        } => {
            push_front(table, left.get(), target, terms)?;
            push_term(table, false, right.get(), terms)?;
            Ok(())
        }
        ResolvedExpr::Bin {
            op: BinOp::Sub,
            left,
            right,
        } => {
            push_front(table, left.get(), target, terms)?;
            push_term(table, true, right.get(), terms)?;
            Ok(())
        }
        _ => unreachable!(),
    }
}

/// The further terms of what stands before a term: of the target itself, or of a chain.
#[cycle(terms)]
fn push_front<'e>(
    table: &SlotTable,
    front: &'e ResolvedExpr,
    target: &ResolvedPlace,
    terms: &mut Items<SignedExpr<'e>>,
) -> Result<(), Memory>
    requires within { is_within (length table.now.0) front.now ≡ true }
    requires kinded { is_kinded table.now (expression_back table.now.0 front.now) ≡ true }
    requires begins { is_some (front_terms (target_of (place_back table.now.0 target.now)) (expression_back table.now.0 front.now)) ≡ true }
    requires empty { terms.old ≡ [] }
    ensures { OnOk result ((rs : List Signed) → front_terms (target_of (place_back table.now.0 target.now)) (expression_back table.now.0 front.now) ≡ Some rs
        → AreTerms table.now rs terms.new) }
{
    match front {
        ResolvedExpr::Get(_) => Ok(()),
        _ => {
            push_chain(table, front, target, terms)?;
            Ok(())
        }
    }
}

/// The further terms of a chain that begins with the target.
fn chain_terms<'e>(
    alloc: Global,
    table: &SlotTable,
    value: &'e ResolvedExpr,
    target: &ResolvedPlace,
) -> Result<Items<SignedExpr<'e>>, Memory>
    requires within { is_within (length table.now.0) value.now ≡ true }
    requires kinded { is_kinded table.now (expression_back table.now.0 value.now) ≡ true }
    requires begins { is_some (chain (target_of (place_back table.now.0 target.now)) (expression_back table.now.0 value.now)) ≡ true }
    ensures { IfOk result (λ terms. (rs : List Signed) → chain (target_of (place_back table.now.0 target.now)) (expression_back table.now.0 value.now) ≡ Some rs
        → AreTerms table.now rs terms) }
{
    let mut terms = Items::new(alloc);
    push_chain(table, value, target, &mut terms)?;
    Ok(terms)
}

/// The term of a sum whose second one is the target.
fn sum_terms<'e>(
    alloc: Global,
    table: &SlotTable,
    value: &'e ResolvedExpr,
    target: &ResolvedPlace,
) -> Result<Items<SignedExpr<'e>>, Memory>
    requires within { is_within (length table.now.0) value.now ≡ true }
    requires kinded { is_kinded table.now (expression_back table.now.0 value.now) ≡ true }
    requires ends { is_some (first_of_sum (target_of (place_back table.now.0 target.now)) (expression_back table.now.0 value.now)) ≡ true }
    ensures { IfOk result (λ terms. (rs : List Signed) → first_of_sum (target_of (place_back table.now.0 target.now)) (expression_back table.now.0 value.now) ≡ Some rs
        → AreTerms table.now rs terms) }
{
    match value {
        ResolvedExpr::Bin {
            op: BinOp::Add,
            left,
            ..
        } => {
            let mut terms = Items::new(alloc);
            push_term(table, false, left.get(), &mut terms)?;
            Ok(terms)
        }
        _ => unreachable!(),
    }
}

/// The further terms of an increment of the form, in their order.
pub fn terms_of<'e>(
    alloc: Global,
    table: &SlotTable,
    form: IncrementForm,
    target: &ResolvedPlace,
    value: &'e ResolvedExpr,
) -> Result<Items<SignedExpr<'e>>, Memory>
    requires within { is_within (length table.now.0) value.now ≡ true }
    requires kinded { is_well_kinded_assignment (names_at (table_site table.now)) (place_back table.now.0 target.now) (expression_back table.now.0 value.now) ≡ true }
    requires formed { Some form ≡ form_in table.now (place_back table.now.0 target.now) (expression_back table.now.0 value.now) }
    ensures { IfOk result (λ terms. (rs : List Signed) → increment_terms (is_ring_in table.now) (place_back table.now.0 target.now) (expression_back table.now.0 value.now) ≡ Some rs
        → AreTerms table.now rs terms) }
{
    match form {
        IncrementForm::Chain => chain_terms(alloc, table, value, target),
        IncrementForm::Sum => sum_terms(alloc, table, value, target),
    }
}

/// Each term in the ring kind.
fn split_each(
    alloc: Global,
    table: &SlotTable,
    accessed: &[bool],
    terms: &[SignedExpr<'_>],
) -> Result<Items<Term>, Memory>
    requires ready { list_all (is_signed_ready table.now) terms.now ≡ true }
    ensures { IfOk result (λ split. (rs : List Signed) → AreTerms table.now rs terms.now → TermsStand table.now accessed.now rs (term_trees split)) }
{
    let mut split = Items::new(alloc);
    for term in terms {
        let value = split_ring(alloc, table, accessed, term.expr)?;
        split.push(Term {
            minus: term.minus,
            value: value.into_inner(),
        })?;
    }
    Ok(split)
}

/// The further terms of an increment of the form, each in the ring kind.
pub fn split_terms(
    alloc: Global,
    table: &SlotTable,
    accessed: &[bool],
    form: IncrementForm,
    target: &ResolvedPlace,
    value: &ResolvedExpr,
) -> Result<Items<Term>, Memory>
    requires within { is_within (length table.now.0) value.now ≡ true }
    requires kinded { is_well_kinded_assignment (names_at (table_site table.now)) (place_back table.now.0 target.now) (expression_back table.now.0 value.now) ≡ true }
    requires formed { Some form ≡ form_in table.now (place_back table.now.0 target.now) (expression_back table.now.0 value.now) }
    ensures { IfOk result (λ split. (rs : List Signed) → increment_terms (is_ring_in table.now) (place_back table.now.0 target.now) (expression_back table.now.0 value.now) ≡ Some rs
        → TermsStand table.now accessed.now rs (term_trees split)) }
{
    let terms = terms_of(alloc, table, form, target, value)?;
    let split = split_each(alloc, table, accessed, terms.as_slice())?;
    Ok(split)
}
