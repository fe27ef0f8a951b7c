//! One increment for each occurrence of an active name outside subscripts.

ghost use Rattle.std.specs.Prelude.{◌≡◌, ◌++◌, [], true, List, length, map, OnOk, IfOk};
ghost use Rattle.fl_ast.specs.Tree.{call as call_tree};
ghost use Rattle.fl_types.specs.Increment.{target_of};
ghost use Rattle.resolved.specs.ResolvedExprs.{expression_back, expressions_back, place_back, is_within, are_within, is_place_within};
ghost use Rattle.split_trees.specs.Codes.{is_kinded};
ghost use Rattle.transposition.specs.Spread.{Occurrence, occurrences};
ghost use Rattle.transposition.specs.Worlds.{World};
ghost use Rattle.undo_steps.specs.UndoSteps.{growth_tree};
ghost use Rattle.undo_steps.specs.UndosStand.{GrowthStands, EachGrowthStands};
ghost use Rattle.made_growths.specs.Told.{told, IsGrowing};
ghost use Rattle.made_growths.specs.Factors.{factors_on, is_path_ready, relation_of as relation_of_lem};

use crate::names::{UndoNames, choice_here, is_active};
use crate::path::{Link, Path};
use fl_ast::{BinOp, Fun, Memory, RelOp};
use fl_base::{Boxed, Items};
use fl_types::Choice;
use resolved::{ResolvedExpr, ResolvedPlace, SlotTable};
use split_trees::split_place;
use std::alloc::Global;
use undo_steps::Growth;

fn make_growth(
    alloc: Global,
    table: &SlotTable,
    choice: Choice,
    occurrence: &ResolvedPlace,
    negative: bool,
    path: &Path<'_, '_>,
) -> Result<Boxed<Growth>, Memory>
    requires within { is_place_within (length table.now.0) occurrence.now ≡ true }
    requires kinded { is_kinded table.now (target_of (place_back table.now.0 occurrence.now)) ≡ true }
    requires ready { is_path_ready table.now path.now ≡ true }
    ensures { (w : World) → choice ≡ w.choice (place_back table.now.0 occurrence.now).name
        → IfOk result (λ growth. GrowthStands table.now w (record { place = place_back table.now.0 occurrence.now; negative = negative; factors = factors_on table.now.0 path.now }) (growth_tree growth)) }
{
    let factors = path.factors(alloc, table)?;
    let place = split_place(alloc, table, &[], occurrence)?;
    Boxed::new(
        alloc,
        Growth {
            place,
            negative,
            choice,
            factors,
        },
    )
}

/// Adds the increment of an occurrence, where its name is active.
fn push_growth(
    alloc: Global,
    table: &SlotTable,
    names: &UndoNames<'_>,
    region: Option<u32>,
    occurrence: &ResolvedPlace,
    negative: bool,
    path: &Path<'_, '_>,
    growths: &mut Items<Growth>,
) -> Result<(), Memory>
    requires within { is_place_within (length table.now.0) occurrence.now ≡ true }
    requires kinded { is_kinded table.now (target_of (place_back table.now.0 occurrence.now)) ≡ true }
    requires ready { is_path_ready table.now path.now ≡ true }
    ensures { OnOk result ((w : World) → (os : List Occurrence) → IsGrowing table.now (told names.now) region w → EachGrowthStands table.now w os (map growth_tree growths.old)
        → EachGrowthStands table.now w (os ++ occurrences w.active (target_of (place_back table.now.0 occurrence.now)) negative (factors_on table.now.0 path.now))
        (map growth_tree growths.new)) }
{
    if !is_active(names, occurrence.slot) {
        return Ok(());
    }
    let choice = choice_here(names, region, occurrence.slot);
    let growth = make_growth(alloc, table, choice, occurrence, negative, path)?;
    growths.push(growth.into_inner())?;
    Ok(())
}

/// Adds the increments of an expression at the end of a path, in order of evaluation.
#[cycle(growths)]
fn push_walked<'e>(
    alloc: Global,
    table: &SlotTable,
    names: &UndoNames<'_>,
    region: Option<u32>,
    expr: &'e ResolvedExpr,
    negative: bool,
    path: &Path<'_, 'e>,
    growths: &mut Items<Growth>,
) -> Result<(), Memory>
    requires within { is_within (length table.now.0) expr.now ≡ true }
    requires kinded { is_kinded table.now (expression_back table.now.0 expr.now) ≡ true }
    requires ready { is_path_ready table.now path.now ≡ true }
    ensures { OnOk result ((w : World) → (os : List Occurrence) → IsGrowing table.now (told names.now) region w → EachGrowthStands table.now w os (map growth_tree growths.old)
        → EachGrowthStands table.now w (os ++ occurrences w.active (expression_back table.now.0 expr.now) negative (factors_on table.now.0 path.now))
        (map growth_tree growths.new)) }
{
    match expr {
        ResolvedExpr::Lit { .. } => Ok(()),
        ResolvedExpr::Get(occurrence) => push_growth(
            alloc, table, names, region, occurrence, negative, path, growths,
        ),
        ResolvedExpr::Neg(inner) => push_walked(
            alloc,
            table,
            names,
            region,
            inner.get(),
            !negative,
            path,
            growths,
        ),
        ResolvedExpr::Bin {
            op: BinOp::Add,
            left,
            right,
        } => {
            push_walked(
                alloc,
                table,
                names,
                region,
                left.get(),
                negative,
                path,
                growths,
            )?;
            push_walked(
                alloc,
                table,
                names,
                region,
                right.get(),
                negative,
                path,
                growths,
            )?;
            Ok(())
        }
        ResolvedExpr::Bin {
            op: BinOp::Sub,
            left,
            right,
        } => {
            push_walked(
                alloc,
                table,
                names,
                region,
                left.get(),
                negative,
                path,
                growths,
            )?;
            push_walked(
                alloc,
                table,
                names,
                region,
                right.get(),
                !negative,
                path,
                growths,
            )?;
            Ok(())
        }
        ResolvedExpr::Bin {
            op: BinOp::Mul,
            left,
            right,
        } => {
            let left = left.get();
            let right = right.get();
            let into_left = Path::Then {
                outer: &*path,
                link: Link::Operand(right),
            };
            push_walked(
                alloc, table, names, region, left, negative, &into_left, growths,
            )?;
            let into_right = Path::Then {
                outer: &*path,
                link: Link::Operand(left),
            };
            push_walked(
                alloc,
                table,
                names,
                region,
                right,
                negative,
                &into_right,
                growths,
            )?;
            Ok(())
        }
        ResolvedExpr::Bin { op: BinOp::Div, .. } => Ok(()),
        ResolvedExpr::Pow { base, exponent } => {
            let base = base.get();
            let inner = Path::Then {
                outer: &*path,
                link: Link::Power {
                    base,
                    exponent: *exponent,
                },
            };
            push_walked(alloc, table, names, region, base, negative, &inner, growths)
        }
        ResolvedExpr::Call { fun, args } => push_arguments(
            alloc,
            table,
            names,
            region,
            *fun,
            args.as_slice(),
            negative,
            path,
            growths,
        ),
    }
}

/// By which relation a function's first argument is taken.
fn relation_of(fun: Fun) -> Option<RelOp>
    ensures { result ≡ relation_of_lem fun }
{
    match fun {
        Fun::Max => Some(RelOp::Ge),
        Fun::Min => Some(RelOp::Le),
        Fun::Abs | Fun::Mod => None,
    }
}

/// Adds the increments of a function's arguments.
#[cycle(growths)]
fn push_arguments<'e>(
    alloc: Global,
    table: &SlotTable,
    names: &UndoNames<'_>,
    region: Option<u32>,
    fun: Fun,
    args: &'e [ResolvedExpr],
    negative: bool,
    path: &Path<'_, 'e>,
    growths: &mut Items<Growth>,
) -> Result<(), Memory>
    requires within { are_within (length table.now.0) args.now ≡ true }
    requires kinded { is_kinded table.now (call_tree fun (expressions_back table.now.0 args.now)) ≡ true }
    requires ready { is_path_ready table.now path.now ≡ true }
    ensures { OnOk result ((w : World) → (os : List Occurrence) → IsGrowing table.now (told names.now) region w → EachGrowthStands table.now w os (map growth_tree growths.old)
        → EachGrowthStands table.now w (os ++ occurrences w.active (call_tree fun (expressions_back table.now.0 args.now)) negative (factors_on table.now.0 path.now))
        (map growth_tree growths.new)) }
{
    match args {
        [] => unreachable!(),
        [only] => {
            let inner = Path::Then {
                outer: &*path,
                link: Link::Absolute(only),
            };
            push_walked(alloc, table, names, region, only, negative, &inner, growths)?;
            Ok(())
        }
        [left, right] => {
            let Some(op) = relation_of(fun) else {
                return Ok(());
            };
            let into_left = Path::Then {
                outer: &*path,
                link: Link::Either {
                    one: 1,
                    other: 0,
                    op,
                    left,
                    right,
                },
            };
            push_walked(
                alloc, table, names, region, left, negative, &into_left, growths,
            )?;
            let into_right = Path::Then {
                outer: &*path,
                link: Link::Either {
                    one: 0,
                    other: 1,
                    op,
                    left,
                    right,
                },
            };
            push_walked(
                alloc,
                table,
                names,
                region,
                right,
                negative,
                &into_right,
                growths,
            )?;
            Ok(())
        }
        [_, _, _, ..] => unreachable!(),
    }
}

/// Adds the increments of a right side, one for each occurrence of an active name outside subscripts, in order of
/// evaluation. `region` is the number of the parallel loop around, and `negative` tells that the right side is taken off.
pub fn push_growths(
    alloc: Global,
    table: &SlotTable,
    names: &UndoNames<'_>,
    region: Option<u32>,
    expr: &ResolvedExpr,
    negative: bool,
    growths: &mut Items<Growth>,
) -> Result<(), Memory>
    requires within { is_within (length table.now.0) expr.now ≡ true }
    requires kinded { is_kinded table.now (expression_back table.now.0 expr.now) ≡ true }
    ensures { OnOk result ((w : World) → (os : List Occurrence) → IsGrowing table.now (told names.now) region w → EachGrowthStands table.now w os (map growth_tree growths.old)
        → EachGrowthStands table.now w (os ++ occurrences w.active (expression_back table.now.0 expr.now) negative []) (map growth_tree growths.new)) }
{
    let path = Path::Start;
    push_walked(alloc, table, names, region, expr, negative, &path, growths)?;
    Ok(())
}
