//! What undoes an assignment.

ghost use Rattle.std.specs.Prelude.{◌≡◌, ◌<◌, ◌||◌, true, false, None, Some, ℕ, Bool, List, [], length, map, IfOk};
ghost use Rattle.fl_ast.specs.Tree.{assignment};
ghost use Rattle.fl_types.specs.Increment.{Signed, increment_terms};
ghost use Rattle.fl_types.specs.Kinds.{is_well_kinded_assignment};
ghost use Rattle.meaning.specs.Fitting.{names_at};
ghost use Rattle.store_core.specs.Keys.{HasEachOnce};
ghost use Rattle.resolved.specs.SlotTables.{table_site, is_ring_in};
ghost use Rattle.resolved.specs.ResolvedExprs.{slot_name, expression_back, place_back, is_within, is_place_within};
ghost use Rattle.resolved.specs.ResolvedStmts.{form_in, same_form};
ghost use Rattle.sweep_steps.specs.Steps.{term_tree};
ghost use Rattle.sweep_trees.specs.Standing.{is_accessed_at};
ghost use Rattle.split_trees.specs.Codes.{is_kinded};
ghost use Rattle.transposition.specs.Back.{rest_occurrences};
ghost use Rattle.transposition.specs.Spread.{occurrences};
ghost use Rattle.transposition.specs.Worlds.{World};
ghost use Rattle.undo_steps.specs.UndoSteps.{growth_trees, reversal_tree, undo_store_tree, undo_tree};
ghost use Rattle.undo_steps.specs.UndosStand.{GrowthsStand, TermsStand, ReversalStands, UndoStoreStands, UndoStands};
ghost use Rattle.made_growths.specs.Told.{told, IsGrowing};
ghost use Rattle.made_undos.specs.UndoScopes.{IsUndoScope};

use crate::chains::push_form_growths;
use fl_ast::Memory;
use fl_base::Items;
use fl_types::IncrementForm;
use loop_scopes::Marks;
use made_growths::{UndoNames, is_active, push_growths};
use made_steps::split_terms;
use resolved::{ResolvedExpr, ResolvedPlace, SlotTable};
use split_trees::{is_marked, split_place};
use std::alloc::Global;
use sweep_steps::{Flow, Term};
use undo_steps::{Growth, Undo, UndoStep};

/// The increments of an assignment that is no increment, where its target has an adjoint.
fn plain_growths(
    alloc: Global,
    table: &SlotTable,
    names: &UndoNames<'_>,
    region: Option<u32>,
    slot: usize,
    value: &ResolvedExpr,
) -> Result<Option<Items<Growth>>, Memory>
    requires slot { slot < length table.now.0 }
    requires within { is_within (length table.now.0) value.now ≡ true }
    requires kinded { is_kinded table.now (expression_back table.now.0 value.now) ≡ true }
    ensures { IfOk result (λ growths. (w : World) → IsGrowing table.now (told names.now) region w
        → GrowthsStand table.now w (w.active (slot_name table.now.0 slot)) (occurrences w.active (expression_back table.now.0 value.now) false []) (growth_trees growths)) }
{
    if !is_active(names, slot) {
        return Ok(None);
    }
    let mut growths = Items::new(alloc);
    push_growths(alloc, table, names, region, value, false, &mut growths)?;
    Ok(Some(growths))
}

/// The increments of an increment, where its target has an adjoint.
fn increment_growths(
    alloc: Global,
    table: &SlotTable,
    names: &UndoNames<'_>,
    region: Option<u32>,
    form: IncrementForm,
    target: &ResolvedPlace,
    value: &ResolvedExpr,
) -> Result<Option<Items<Growth>>, Memory>
    requires target_within { is_place_within (length table.now.0) target.now ≡ true }
    requires within { is_within (length table.now.0) value.now ≡ true }
    requires kinded { is_well_kinded_assignment (names_at (table_site table.now)) (place_back table.now.0 target.now) (expression_back table.now.0 value.now) ≡ true }
    requires formed { Some form ≡ form_in table.now (place_back table.now.0 target.now) (expression_back table.now.0 value.now) }
    ensures { IfOk result (λ growths. (w : World) → (rs : List Signed) → IsGrowing table.now (told names.now) region w
        → increment_terms (is_ring_in table.now) (place_back table.now.0 target.now) (expression_back table.now.0 value.now) ≡ Some rs
        → GrowthsStand table.now w (w.active (place_back table.now.0 target.now).name) (rest_occurrences w.active rs) (growth_trees growths)) }
{
    if !is_active(names, target.slot) {
        return Ok(None);
    }
    let mut growths = Items::new(alloc);
    push_form_growths(
        alloc,
        table,
        names,
        region,
        form,
        target,
        value,
        &mut growths,
    )?;
    Ok(Some(growths))
}

/// The terms that are taken back, where the target's value is needed.
fn reversal(
    alloc: Global,
    table: &SlotTable,
    names: &UndoNames<'_>,
    form: IncrementForm,
    target: &ResolvedPlace,
    value: &ResolvedExpr,
) -> Result<Option<Items<Term>>, Memory>
    requires within { is_within (length table.now.0) value.now ≡ true }
    requires kinded { is_well_kinded_assignment (names_at (table_site table.now)) (place_back table.now.0 target.now) (expression_back table.now.0 value.now) ≡ true }
    requires formed { Some form ≡ form_in table.now (place_back table.now.0 target.now) (expression_back table.now.0 value.now) }
    ensures { IfOk result (λ terms. (rs : List Signed) → increment_terms (is_ring_in table.now) (place_back table.now.0 target.now) (expression_back table.now.0 value.now) ≡ Some rs
        → ReversalStands table.now (is_accessed_at (told names.now).pushed target.now.slot) rs (reversal_tree terms)) }
{
    if !is_marked(names.pushed, target.slot) {
        return Ok(None);
    }
    let terms = split_terms(alloc, table, &[], form, target, value)?;
    Ok(Some(terms))
}

/// What undoes an assignment that is no increment.
fn undo_plain(
    alloc: Global,
    table: &SlotTable,
    names: &UndoNames<'_>,
    region: Option<u32>,
    target: &ResolvedPlace,
    value: &ResolvedExpr,
) -> Result<Undo, Memory>
    requires once { HasEachOnce table.now.0 }
    requires target_within { is_place_within (length table.now.0) target.now ≡ true }
    requires within { is_within (length table.now.0) value.now ≡ true }
    requires kinded { is_well_kinded_assignment (names_at (table_site table.now)) (place_back table.now.0 target.now) (expression_back table.now.0 value.now) ≡ true }
    requires plain { increment_terms (is_ring_in table.now) (place_back table.now.0 target.now) (expression_back table.now.0 value.now) ≡ None }
    ensures { (w : World) → (accessed reduced : List Bool) → (outer : List (List ℕ)) → (atomic : Bool) → IsUndoScope table.now (told names.now) accessed reduced region outer w
        → IfOk result (λ undo. UndoStoreStands table.now w (undo_store_tree undo) atomic (place_back table.now.0 target.now) (expression_back table.now.0 value.now)) }
{
    let growths = plain_growths(alloc, table, names, region, target.slot, value)?;
    let spot = split_place(alloc, table, &[], target)?;
    let restores = is_marked(names.pushed, target.slot);
    Ok(Undo::Plain {
        target: spot,
        restores,
        growths,
    })
}

/// Whether an increment is taken back in one step, as it was made.
fn is_one_step(atomic: bool, plus: bool) -> bool
    ensures { result ≡ (atomic || plus) }
{
    atomic || plus
}

/// What undoes an increment of the form.
fn undo_increment(
    alloc: Global,
    table: &SlotTable,
    names: &UndoNames<'_>,
    marks: &Marks,
    region: Option<u32>,
    atomic: bool,
    form: IncrementForm,
    target: &ResolvedPlace,
    value: &ResolvedExpr,
) -> Result<Undo, Memory>
    requires once { HasEachOnce table.now.0 }
    requires target_within { is_place_within (length table.now.0) target.now ≡ true }
    requires within { is_within (length table.now.0) value.now ≡ true }
    requires kinded { is_well_kinded_assignment (names_at (table_site table.now)) (place_back table.now.0 target.now) (expression_back table.now.0 value.now) ≡ true }
    requires formed { Some form ≡ form_in table.now (place_back table.now.0 target.now) (expression_back table.now.0 value.now) }
    ensures { (w : World) → (outer : List (List ℕ)) → IsUndoScope table.now (told names.now) marks.now.accessed marks.now.reduced region outer w
        → IfOk result (λ undo. UndoStoreStands table.now w (undo_store_tree undo) atomic (place_back table.now.0 target.now) (expression_back table.now.0 value.now)) }
{
    let growths = increment_growths(alloc, table, names, region, form, target, value)?;
    let terms = reversal(alloc, table, names, form, target, value)?;
    let spot = split_place(alloc, table, &[], target)?;
    let one_step = is_one_step(atomic, is_marked(marks.reduced.as_slice(), target.slot));
    Ok(Undo::Increment {
        target: spot,
        reversal: terms,
        one_step,
        growths,
    })
}

fn undo_store(
    alloc: Global,
    table: &SlotTable,
    names: &UndoNames<'_>,
    marks: &Marks,
    region: Option<u32>,
    atomic: bool,
    target: &ResolvedPlace,
    value: &ResolvedExpr,
    form: Option<IncrementForm>,
) -> Result<Undo, Memory>
    requires once { HasEachOnce table.now.0 }
    requires target_within { is_place_within (length table.now.0) target.now ≡ true }
    requires within { is_within (length table.now.0) value.now ≡ true }
    requires kinded { is_well_kinded_assignment (names_at (table_site table.now)) (place_back table.now.0 target.now) (expression_back table.now.0 value.now) ≡ true }
    requires formed { same_form form (form_in table.now (place_back table.now.0 target.now) (expression_back table.now.0 value.now)) ≡ true }
    ensures { (w : World) → (outer : List (List ℕ)) → IsUndoScope table.now (told names.now) marks.now.accessed marks.now.reduced region outer w
        → IfOk result (λ undo. UndoStoreStands table.now w (undo_store_tree undo) atomic (place_back table.now.0 target.now) (expression_back table.now.0 value.now)) }
{
    match form {
        None => undo_plain(alloc, table, names, region, target, value),
        Some(form) => undo_increment(
            alloc, table, names, marks, region, atomic, form, target, value,
        ),
    }
}

/// The statement of a reverse sweep that undoes an assignment, or an increment of the form.
pub(crate) fn undo_assignment(
    alloc: Global,
    table: &SlotTable,
    names: &UndoNames<'_>,
    marks: &Marks,
    region: Option<u32>,
    atomic: bool,
    target: &ResolvedPlace,
    value: &ResolvedExpr,
    form: Option<IncrementForm>,
) -> Result<UndoStep, Memory>
    requires once { HasEachOnce table.now.0 }
    requires target_within { is_place_within (length table.now.0) target.now ≡ true }
    requires within { is_within (length table.now.0) value.now ≡ true }
    requires kinded { is_well_kinded_assignment (names_at (table_site table.now)) (place_back table.now.0 target.now) (expression_back table.now.0 value.now) ≡ true }
    requires formed { same_form form (form_in table.now (place_back table.now.0 target.now) (expression_back table.now.0 value.now)) ≡ true }
    ensures { (w : World) → (outer : List (List ℕ)) → (line : ℕ) → IsUndoScope table.now (told names.now) marks.now.accessed marks.now.reduced region outer w
        → IfOk result (λ step. UndoStands table.now w (undo_tree step) (assignment line atomic (place_back table.now.0 target.now) (expression_back table.now.0 value.now))) }
{
    let undo = undo_store(
        alloc, table, names, marks, region, atomic, target, value, form,
    )?;
    Ok(Flow::Store(undo))
}
