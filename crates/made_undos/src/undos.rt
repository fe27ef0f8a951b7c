//! Statements.

ghost use Rattle.std.specs.Prelude.{◌≡◌, ◌<◌, true, ℕ, Option, None, Some, length, IfOk};
ghost use Rattle.fl_ast.specs.Tree.{Expression, loop};
ghost use Rattle.fl_types.specs.Kinds.{is_well_kinded_statement, are_well_kinded_statements, are_well_kinded_arms};
ghost use Rattle.fl_types.specs.Nests.{iteration_body, statements_in};
ghost use Rattle.meaning.specs.Fitting.{names_at};
ghost use Rattle.store_core.specs.Keys.{HasEachOnce};
ghost use Rattle.resolved.specs.SlotTables.{table_site};
ghost use Rattle.resolved.specs.ResolvedExprs.{slot_name};
ghost use Rattle.resolved.specs.ResolvedStmts.{statement_back, statements_back, arms_back, is_fit, are_fit, are_arms_fit};
ghost use Rattle.transposition.specs.Worlds.{World};
ghost use Rattle.undo_steps.specs.UndoSteps.{undo_tree, undo_trees, undo_arm_trees};
ghost use Rattle.undo_steps.specs.UndosStand.{UndoStands, AllUndoStand, UndoArmsStand};
ghost use Rattle.loop_scopes.specs.Loops.{names_in};
ghost use Rattle.loop_scopes.specs.Scopes.{are_declared_placed};
ghost use Rattle.made_growths.specs.Told.{told};
ghost use Rattle.made_undos.specs.UndoScopes.{IsUndoScope, IsUndoOutside};

use crate::around::{around_of, parallel_undo};
use crate::undo::undo_assignment;
use crate::variables::scalar_place;
use fl_ast::{Directive, Memory};
use fl_base::Items;
use loop_scopes::{Loops, Marks, is_nest, name_of};
use made_growths::UndoNames;
use resolved::{ResolvedArm, ResolvedStmt, SlotTable};
use std::alloc::Global;
use sweep_steps::{Flow, FlowArm};
use undo_steps::{UndoArm, UndoAround, UndoStep};

#[cycle(undos)]
fn make_undo<'t>(
    alloc: Global,
    table: &'t SlotTable,
    names: &UndoNames<'_>,
    marks: &Marks,
    region: Option<u32>,
    loops: &Loops<'_, 't>,
    stmt: &'t ResolvedStmt,
) -> Result<UndoStep, Memory>
    requires once { HasEachOnce table.now.0 }
    requires declared { are_declared_placed table.now ≡ true }
    requires fit { is_fit table.now stmt.now ≡ true }
    requires kinded { is_well_kinded_statement (names_at (table_site table.now)) (statement_back table.now.0 stmt.now) ≡ true }
    ensures { (w : World) → IsUndoScope table.now (told names.now) marks.now.accessed marks.now.reduced region (names_in loops.now) w
        → IfOk result (λ step. UndoStands table.now w (undo_tree step) (statement_back table.now.0 stmt.now)) }
{
    match stmt {
        ResolvedStmt::Assign {
            atomic,
            target,
            value,
            form,
            ..
        } => undo_assignment(
            alloc, table, names, marks, region, *atomic, target, value, *form,
        ),
        ResolvedStmt::If { line, arms, other } => {
            let arms = make_arms(alloc, table, names, marks, region, loops, arms.as_slice())?;
            let other = make_undos(alloc, table, names, marks, region, loops, other.as_slice())?;
            Ok(Flow::If {
                line: *line,
                arms,
                other,
            })
        }
        ResolvedStmt::Do {
            line,
            number,
            directive,
            head,
            body,
        } => match directive {
            None => make_turns(
                alloc,
                table,
                names,
                marks,
                region,
                loops,
                *line,
                head.variable,
                body.as_slice(),
            ),
            Some(directive) => make_iterations(
                alloc,
                table,
                names,
                marks,
                region,
                loops,
                *line,
                *number,
                directive.get(),
                head.variable,
                body.as_slice(),
            ),
        },
    }
}

#[cycle(undos)]
fn make_undos<'t>(
    alloc: Global,
    table: &'t SlotTable,
    names: &UndoNames<'_>,
    marks: &Marks,
    region: Option<u32>,
    loops: &Loops<'_, 't>,
    stmts: &'t [ResolvedStmt],
) -> Result<Items<UndoStep>, Memory>
    requires once { HasEachOnce table.now.0 }
    requires declared { are_declared_placed table.now ≡ true }
    requires fit { are_fit table.now stmts.now ≡ true }
    requires kinded { are_well_kinded_statements (names_at (table_site table.now)) (statements_back table.now.0 stmts.now) ≡ true }
    ensures { (w : World) → IsUndoScope table.now (told names.now) marks.now.accessed marks.now.reduced region (names_in loops.now) w
        → IfOk result (λ undos. AllUndoStand table.now w (undo_trees undos) (statements_back table.now.0 stmts.now)) }
{
    let mut all = Items::new(alloc);
    for stmt in stmts {
        let undo = make_undo(alloc, table, names, marks, region, loops, stmt)?;
        all.push(undo)?;
    }
    Ok(all)
}

#[cycle(undos)]
fn make_arms<'t>(
    alloc: Global,
    table: &'t SlotTable,
    names: &UndoNames<'_>,
    marks: &Marks,
    region: Option<u32>,
    loops: &Loops<'_, 't>,
    arms: &'t [ResolvedArm],
) -> Result<Items<UndoArm>, Memory>
    requires once { HasEachOnce table.now.0 }
    requires declared { are_declared_placed table.now ≡ true }
    requires fit { are_arms_fit table.now arms.now ≡ true }
    requires kinded { are_well_kinded_arms (names_at (table_site table.now)) (arms_back table.now.0 arms.now) ≡ true }
    ensures { (w : World) → IsUndoScope table.now (told names.now) marks.now.accessed marks.now.reduced region (names_in loops.now) w
        → IfOk result (λ made. UndoArmsStand table.now w (undo_arm_trees made) (arms_back table.now.0 arms.now)) }
{
    let mut all = Items::new(alloc);
    for arm in arms {
        let body = make_undos(
            alloc,
            table,
            names,
            marks,
            region,
            loops,
            arm.body.as_slice(),
        )?;
        all.push(FlowArm { test: (), body })?;
    }
    Ok(all)
}

/// A sequential loop.
#[cycle(undos)]
fn make_turns<'t>(
    alloc: Global,
    table: &'t SlotTable,
    names: &UndoNames<'_>,
    marks: &Marks,
    region: Option<u32>,
    loops: &Loops<'_, 't>,
    line: u32,
    variable: usize,
    body: &'t [ResolvedStmt],
) -> Result<UndoStep, Memory>
    requires once { HasEachOnce table.now.0 }
    requires declared { are_declared_placed table.now ≡ true }
    requires variable { variable < length table.now.0 }
    requires fit { are_fit table.now body.now ≡ true }
    requires kinded { are_well_kinded_statements (names_at (table_site table.now)) (statements_back table.now.0 body.now) ≡ true }
    ensures { (w : World) → IsUndoScope table.now (told names.now) marks.now.accessed marks.now.reduced region (names_in loops.now) w
        → (number : ℕ) → (first last : Expression) → (step : Option Expression)
        → IfOk result (λ undo. UndoStands table.now w (undo_tree undo) (loop line number None (slot_name table.now.0 variable) first last step (statements_back table.now.0 body.now))) }
{
    let place = scalar_place(table, variable);
    let var = name_of(table, variable);
    let inner = Loops::Inside {
        var,
        outer: &*loops,
    };
    let body = make_undos(alloc, table, names, marks, region, &inner, body)?;
    Ok(Flow::Loop {
        line,
        head: UndoAround::Turns { place },
        body,
    })
}

/// A parallel loop.
#[cycle(undos)]
fn make_iterations<'t>(
    alloc: Global,
    table: &'t SlotTable,
    names: &UndoNames<'_>,
    marks: &Marks,
    region: Option<u32>,
    loops: &Loops<'_, 't>,
    line: u32,
    number: u32,
    directive: &'t Directive,
    variable: usize,
    body: &'t [ResolvedStmt],
) -> Result<UndoStep, Memory>
    requires once { HasEachOnce table.now.0 }
    requires declared { are_declared_placed table.now ≡ true }
    requires variable { variable < length table.now.0 }
    requires fit { are_fit table.now body.now ≡ true }
    requires kinded { are_well_kinded_statements (names_at (table_site table.now)) (statements_back table.now.0 body.now) ≡ true }
    ensures { (w : World) → IsUndoScope table.now (told names.now) marks.now.accessed marks.now.reduced region (names_in loops.now) w
        → (first last : Expression) → (step : Option Expression)
        → IfOk result (λ undo. UndoStands table.now w (undo_tree undo)
        (loop line number (Some directive.now) (slot_name table.now.0 variable) first last step (statements_back table.now.0 body.now))) }
{
    let made = parallel_undo(
        alloc, table, names, loops, number, directive, variable, body,
    )?;
    let var = name_of(table, variable);
    let inner = Loops::Inside {
        var,
        outer: &*loops,
    };
    let body = make_iteration(
        alloc,
        table,
        names,
        &made.get().marks,
        Some(number),
        &inner,
        directive,
        body,
    )?;
    Ok(Flow::Loop {
        line,
        head: around_of(made),
        body,
    })
}

/// What undoes what an iteration runs.
#[cycle(undos)]
fn make_iteration<'t>(
    alloc: Global,
    table: &'t SlotTable,
    names: &UndoNames<'_>,
    marks: &Marks,
    region: Option<u32>,
    loops: &Loops<'_, 't>,
    directive: &Directive,
    body: &'t [ResolvedStmt],
) -> Result<Items<UndoStep>, Memory>
    requires once { HasEachOnce table.now.0 }
    requires declared { are_declared_placed table.now ≡ true }
    requires fit { are_fit table.now body.now ≡ true }
    requires kinded { are_well_kinded_statements (names_at (table_site table.now)) (statements_back table.now.0 body.now) ≡ true }
    ensures { (w : World) → IsUndoScope table.now (told names.now) marks.now.accessed marks.now.reduced region (names_in loops.now) w
        → IfOk result (λ undos. AllUndoStand table.now w (undo_trees undos) (iteration_body directive.now (statements_back table.now.0 body.now))) }
{
    if is_nest(directive, body) {
        return make_inner(alloc, table, names, marks, region, loops, &body[0]);
    }
    make_undos(alloc, table, names, marks, region, loops, body)
}

/// What undoes the statements in a loop.
#[cycle(undos)]
fn make_inner<'t>(
    alloc: Global,
    table: &'t SlotTable,
    names: &UndoNames<'_>,
    marks: &Marks,
    region: Option<u32>,
    loops: &Loops<'_, 't>,
    stmt: &'t ResolvedStmt,
) -> Result<Items<UndoStep>, Memory>
    requires once { HasEachOnce table.now.0 }
    requires declared { are_declared_placed table.now ≡ true }
    requires fit { is_fit table.now stmt.now ≡ true }
    requires kinded { is_well_kinded_statement (names_at (table_site table.now)) (statement_back table.now.0 stmt.now) ≡ true }
    ensures { (w : World) → IsUndoScope table.now (told names.now) marks.now.accessed marks.now.reduced region (names_in loops.now) w
        → IfOk result (λ undos. AllUndoStand table.now w (undo_trees undos) (statements_in (statement_back table.now.0 stmt.now))) }
{
    match stmt {
        ResolvedStmt::Assign { .. } => Ok(Items::new(alloc)),
        ResolvedStmt::If { .. } => Ok(Items::new(alloc)),
        ResolvedStmt::Do { body, .. } => {
            make_undos(alloc, table, names, marks, region, loops, body.as_slice())
        }
    }
}

/// The statements of a reverse sweep, of which the last is undone first. `names` tells of each slot's name whether its old
/// contents go to the tape, whether it has an adjoint, and how this is incremented in each parallel loop.
pub fn undos_of(
    alloc: Global,
    table: &SlotTable,
    names: &UndoNames<'_>,
    stmts: &[ResolvedStmt],
) -> Result<Items<UndoStep>, Memory>
    requires declared { are_declared_placed table.now ≡ true }
    requires fit { are_fit table.now stmts.now ≡ true }
    requires kinded { are_well_kinded_statements (names_at (table_site table.now)) (statements_back table.now.0 stmts.now) ≡ true }
    ensures { (w : World) → IsUndoOutside table.now (told names.now) w
        → IfOk result (λ undos. AllUndoStand table.now w (undo_trees undos) (statements_back table.now.0 stmts.now)) }
{
    let shapes = table.layout().shapes();
    let marks = Marks::outside(alloc, shapes)?;
    let loops = Loops::Outside;
    let undos = make_undos(alloc, table, names, &marks, None, &loops, stmts)?;
    Ok(undos)
}
