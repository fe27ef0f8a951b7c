//! The increments of adjoints that the terms of an increment make.

ghost use Rattle.std.specs.Prelude.{◌≡◌, ◌++◌, true, Some, List, length, map, OnOk};
ghost use Rattle.std.specs.List.{list_all};
ghost use Rattle.fl_types.specs.Increment.{Signed, increment_terms};
ghost use Rattle.fl_types.specs.Kinds.{is_well_kinded_assignment};
ghost use Rattle.meaning.specs.Fitting.{names_at};
ghost use Rattle.resolved.specs.SlotTables.{table_site, is_ring_in};
ghost use Rattle.resolved.specs.ResolvedExprs.{expression_back, place_back, is_within};
ghost use Rattle.resolved.specs.ResolvedStmts.{form_in};
ghost use Rattle.transposition.specs.Back.{rest_occurrences};
ghost use Rattle.transposition.specs.Spread.{Occurrence};
ghost use Rattle.transposition.specs.Worlds.{World};
ghost use Rattle.undo_steps.specs.UndoSteps.{growth_tree};
ghost use Rattle.undo_steps.specs.UndosStand.{EachGrowthStands};
ghost use Rattle.made_steps.specs.Scopes.{signed_of, is_signed_ready};
ghost use Rattle.made_growths.specs.Told.{told, IsGrowing};

use fl_ast::Memory;
use fl_base::Items;
use fl_types::IncrementForm;
use made_growths::{UndoNames, push_growths};
use made_steps::{SignedExpr, terms_of};
use resolved::{ResolvedExpr, ResolvedPlace, SlotTable};
use std::alloc::Global;
use undo_steps::Growth;

/// Adds those of each term, in their order.
fn push_each(
    alloc: Global,
    table: &SlotTable,
    names: &UndoNames<'_>,
    region: Option<u32>,
    terms: &[SignedExpr<'_>],
    growths: &mut Items<Growth>,
) -> Result<(), Memory>
    requires ready { list_all (is_signed_ready table.now) terms.now ≡ true }
    ensures { OnOk result ((w : World) → (os : List Occurrence) → IsGrowing table.now (told names.now) region w → EachGrowthStands table.now w os (map growth_tree growths.old)
        → EachGrowthStands table.now w (os ++ rest_occurrences w.active (map (signed_of table.now.0) terms.now)) (map growth_tree growths.new)) }
{
    for term in terms {
        push_growths(alloc, table, names, region, term.expr, term.minus, growths)?;
    }
    Ok(())
}

/// Adds those of the terms of an increment of the form.
pub(crate) fn push_form_growths(
    alloc: Global,
    table: &SlotTable,
    names: &UndoNames<'_>,
    region: Option<u32>,
    form: IncrementForm,
    target: &ResolvedPlace,
    value: &ResolvedExpr,
    growths: &mut Items<Growth>,
) -> Result<(), Memory>
    requires within { is_within (length table.now.0) value.now ≡ true }
    requires kinded { is_well_kinded_assignment (names_at (table_site table.now)) (place_back table.now.0 target.now) (expression_back table.now.0 value.now) ≡ true }
    requires formed { Some form ≡ form_in table.now (place_back table.now.0 target.now) (expression_back table.now.0 value.now) }
    ensures { OnOk result ((w : World) → (os : List Occurrence) → (rs : List Signed) → IsGrowing table.now (told names.now) region w
        → increment_terms (is_ring_in table.now) (place_back table.now.0 target.now) (expression_back table.now.0 value.now) ≡ Some rs
        → EachGrowthStands table.now w os (map growth_tree growths.old) → EachGrowthStands table.now w (os ++ rest_occurrences w.active rs) (map growth_tree growths.new)) }
{
    let terms = terms_of(alloc, table, form, target, value)?;
    push_each(alloc, table, names, region, terms.as_slice(), growths)?;
    Ok(())
}
