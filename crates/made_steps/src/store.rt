ghost use Rattle.std.specs.Prelude.{◌≡◌, true, ℕ, None, length, is_some, Bool, Some, List, IfOk};
ghost use Rattle.fl_ast.specs.Tree.{Expression, assignment};
ghost use Rattle.fl_types.specs.Accesses.{increment_kind as increment_kind_lem};
ghost use Rattle.fl_types.specs.Increment.{Signed, target_of, increment_terms};
ghost use Rattle.fl_types.specs.Kinds.{is_well_kinded_assignment};
ghost use Rattle.meaning.specs.Sites.{Site};
ghost use Rattle.meaning.specs.Fitting.{names_at};
ghost use Rattle.store_core.specs.Keys.{HasEachOnce};
ghost use Rattle.resolved.specs.SlotTables.{table_site, is_ring_in};
ghost use Rattle.resolved.specs.ResolvedExprs.{expression_back, place_back, is_within, is_place_within};
ghost use Rattle.resolved.specs.ResolvedStmts.{form_in, same_form};
ghost use Rattle.split_trees.specs.Codes.{is_kinded};
ghost use Rattle.sweep_steps.specs.Steps.{store_tree, step_tree};
ghost use Rattle.sweep_steps.specs.StepsStand.{StoreStands, Stands};
ghost use Rattle.loop_scopes.specs.Scopes.{IsScope};
ghost use Rattle.made_steps.specs.Scopes.{TermsStand, term_trees};

use crate::terms::split_terms;
use fl_ast::Memory;
use fl_base::Items;
use fl_types::{AccessKind, IncrementForm};
use loop_scopes::Marks;
use resolved::{ResolvedExpr, ResolvedPlace, SlotTable};
use split_trees::{is_marked, split_expression, split_place};
use std::alloc::Global;
use sweep_steps::{Flow, Step, Store, Term};

fn increment_kind(atomic: bool, plus: bool) -> AccessKind
    ensures { result ≡ increment_kind_lem atomic plus }
{
    if atomic || plus {
        AccessKind::Update
    } else {
        AccessKind::Write
    }
}

/// An assignment that is no increment.
fn assign(
    alloc: Global,
    table: &SlotTable,
    pushed: &[bool],
    marks: &Marks,
    line: u32,
    target: &ResolvedPlace,
    value: &ResolvedExpr,
) -> Result<Store, Memory>
    requires once { HasEachOnce table.now.0 }
    requires target_within { is_place_within (length table.now.0) target.now ≡ true }
    requires value_within { is_within (length table.now.0) value.now ≡ true }
    requires kinded { is_well_kinded_assignment (names_at (table_site table.now)) (place_back table.now.0 target.now) (expression_back table.now.0 value.now) ≡ true }
    requires plain { increment_terms (is_ring_in table.now) (place_back table.now.0 target.now) (expression_back table.now.0 value.now) ≡ None }
    ensures { (site : Site) → (outer : List (List ℕ)) → (atomic : Bool) → IsScope table.now pushed.now marks.now.accessed marks.now.reduced outer site
        → IfOk result (λ store. StoreStands table.now site (store_tree store) line atomic (place_back table.now.0 target.now) (expression_back table.now.0 value.now)) }
{
    let value = split_expression(alloc, table, marks.accessed.as_slice(), value)?;
    let spot = split_place(alloc, table, marks.accessed.as_slice(), target)?;
    let pushes = is_marked(pushed, target.slot);
    Ok(Store::Assign {
        line,
        pushes,
        target: spot,
        value,
    })
}

/// An increment by these terms.
fn update(
    alloc: Global,
    table: &SlotTable,
    marks: &Marks,
    line: u32,
    atomic: bool,
    target: &ResolvedPlace,
    terms: Items<Term>,
) -> Result<Store, Memory>
    requires once { HasEachOnce table.now.0 }
    requires target_within { is_place_within (length table.now.0) target.now ≡ true }
    requires kinded { is_kinded table.now (target_of (place_back table.now.0 target.now)) ≡ true }
    ensures { (site : Site) → (pushed : List Bool) → (outer : List (List ℕ)) → (e : Expression) → (rs : List Signed)
        → IsScope table.now pushed marks.now.accessed marks.now.reduced outer site
        → increment_terms (is_ring_in table.now) (place_back table.now.0 target.now) e ≡ Some rs
        → TermsStand table.now marks.now.accessed rs (term_trees terms)
        → IfOk result (λ store. StoreStands table.now site (store_tree store) line atomic (place_back table.now.0 target.now) e) }
{
    let spot = split_place(alloc, table, marks.accessed.as_slice(), target)?;
    let kind = increment_kind(atomic, is_marked(marks.reduced.as_slice(), target.slot));
    Ok(Store::Update {
        line,
        kind,
        target: spot,
        terms,
    })
}

/// An assignment, or an increment of the form.
fn make_store(
    alloc: Global,
    table: &SlotTable,
    pushed: &[bool],
    marks: &Marks,
    line: u32,
    atomic: bool,
    target: &ResolvedPlace,
    value: &ResolvedExpr,
    form: Option<IncrementForm>,
) -> Result<Store, Memory>
    requires once { HasEachOnce table.now.0 }
    requires target_within { is_place_within (length table.now.0) target.now ≡ true }
    requires value_within { is_within (length table.now.0) value.now ≡ true }
    requires kinded { is_well_kinded_assignment (names_at (table_site table.now)) (place_back table.now.0 target.now) (expression_back table.now.0 value.now) ≡ true }
    requires formed { same_form form (form_in table.now (place_back table.now.0 target.now) (expression_back table.now.0 value.now)) ≡ true }
    ensures { (site : Site) → (outer : List (List ℕ)) → IsScope table.now pushed.now marks.now.accessed marks.now.reduced outer site
        → IfOk result (λ store. StoreStands table.now site (store_tree store) line atomic (place_back table.now.0 target.now) (expression_back table.now.0 value.now)) }
{
    match form {
        None => assign(alloc, table, pushed, marks, line, target, value),
        Some(form) => {
            let accessed = marks.accessed.as_slice();
            let terms = split_terms(alloc, table, accessed, form, target, value)?;
            update(alloc, table, marks, line, atomic, target, terms)
        }
    }
}

/// The step of an assignment.
pub(crate) fn store_step(
    alloc: Global,
    table: &SlotTable,
    pushed: &[bool],
    marks: &Marks,
    line: u32,
    atomic: bool,
    target: &ResolvedPlace,
    value: &ResolvedExpr,
    form: Option<IncrementForm>,
) -> Result<Step, Memory>
    requires once { HasEachOnce table.now.0 }
    requires target_within { is_place_within (length table.now.0) target.now ≡ true }
    requires value_within { is_within (length table.now.0) value.now ≡ true }
    requires kinded { is_well_kinded_assignment (names_at (table_site table.now)) (place_back table.now.0 target.now) (expression_back table.now.0 value.now) ≡ true }
    requires formed { same_form form (form_in table.now (place_back table.now.0 target.now) (expression_back table.now.0 value.now)) ≡ true }
    ensures { (site : Site) → (outer : List (List ℕ)) → IsScope table.now pushed.now marks.now.accessed marks.now.reduced outer site
        → IfOk result (λ step. Stands table.now site (step_tree step) (assignment line atomic (place_back table.now.0 target.now) (expression_back table.now.0 value.now))) }
{
    let store = make_store(
        alloc, table, pushed, marks, line, atomic, target, value, form,
    )?;
    Ok(Flow::Store(store))
}
