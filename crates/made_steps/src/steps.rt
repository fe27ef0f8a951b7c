ghost use Rattle.std.specs.Prelude.{◌≡◌, ◌<◌, true, ℕ, None, Some, length, IfOk};
ghost use Rattle.fl_ast.specs.Tree.{loop};
ghost use Rattle.fl_types.specs.Kinds.{is_well_kinded_statement, are_well_kinded_statements, are_well_kinded_arms, is_well_kinded_head};
ghost use Rattle.fl_types.specs.Nests.{iteration_body, statements_in};
ghost use Rattle.meaning.specs.Sites.{Site};
ghost use Rattle.meaning.specs.Fitting.{names_at};
ghost use Rattle.store_core.specs.Keys.{HasEachOnce};
ghost use Rattle.resolved.specs.SlotTables.{table_site};
ghost use Rattle.resolved.specs.ResolvedExprs.{slot_name, expression_back, is_within};
ghost use Rattle.resolved.specs.ResolvedStmts.{option_back, is_option_within, statement_back, statements_back, arms_back, is_fit, are_fit, are_arms_fit};
ghost use Rattle.sweep_steps.specs.Steps.{step_tree, step_trees, step_arm_trees};
ghost use Rattle.sweep_steps.specs.StepsStand.{Stands, AllStand, ArmsStand};
ghost use Rattle.loop_scopes.specs.Loops.{names_in};
ghost use Rattle.loop_scopes.specs.Scopes.{IsScope, IsOutside, are_declared_placed};

use crate::heads::make_head;
use crate::parallel::{around_of, parallel_loop};
use crate::store::store_step;
use fl_ast::{Directive, Memory};
use fl_base::{Boxed, Items};
use loop_scopes::{Loops, Marks, is_nest, name_of};
use resolved::{ResolvedArm, ResolvedHead, ResolvedStmt, SlotTable};
use split_trees::split_condition;
use std::alloc::Global;
use sweep_steps::{Around, Flow, FlowArm, Step, StepArm};

#[cycle(steps)]
fn make_step<'t>(
    alloc: Global,
    table: &'t SlotTable,
    pushed: &[bool],
    marks: &Marks,
    loops: &Loops<'_, 't>,
    stmt: &'t ResolvedStmt,
) -> Result<Step, Memory>
    requires once { HasEachOnce table.now.0 }
    requires declared { are_declared_placed table.now ≡ true }
    requires fit { is_fit table.now stmt.now ≡ true }
    requires kinded { is_well_kinded_statement (names_at (table_site table.now)) (statement_back table.now.0 stmt.now) ≡ true }
    ensures { (site : Site) → IsScope table.now pushed.now marks.now.accessed marks.now.reduced (names_in loops.now) site
        → IfOk result (λ step. Stands table.now site (step_tree step) (statement_back table.now.0 stmt.now)) }
{
    match stmt {
        ResolvedStmt::Assign {
            line,
            atomic,
            target,
            value,
            form,
        } => store_step(
            alloc, table, pushed, marks, *line, *atomic, target, value, *form,
        ),
        ResolvedStmt::If { line, arms, other } => {
            let arms = make_arms(alloc, table, pushed, marks, loops, arms.as_slice())?;
            let other = make_steps(alloc, table, pushed, marks, loops, other.as_slice())?;
            Ok(Flow::If {
                line: *line,
                arms,
                other,
            })
        }
        ResolvedStmt::Do {
            line,
            directive,
            head,
            body,
            ..
        } => match directive {
            None => make_turns(
                alloc,
                table,
                pushed,
                marks,
                loops,
                *line,
                head,
                body.as_slice(),
            ),
            Some(directive) => make_iterations(
                alloc,
                table,
                pushed,
                marks,
                loops,
                *line,
                directive.get(),
                head,
                body.as_slice(),
            ),
        },
    }
}

#[cycle(steps)]
fn make_steps<'t>(
    alloc: Global,
    table: &'t SlotTable,
    pushed: &[bool],
    marks: &Marks,
    loops: &Loops<'_, 't>,
    stmts: &'t [ResolvedStmt],
) -> Result<Items<Step>, Memory>
    requires once { HasEachOnce table.now.0 }
    requires declared { are_declared_placed table.now ≡ true }
    requires fit { are_fit table.now stmts.now ≡ true }
    requires kinded { are_well_kinded_statements (names_at (table_site table.now)) (statements_back table.now.0 stmts.now) ≡ true }
    ensures { (site : Site) → IsScope table.now pushed.now marks.now.accessed marks.now.reduced (names_in loops.now) site
        → IfOk result (λ steps. AllStand table.now site (step_trees steps) (statements_back table.now.0 stmts.now)) }
{
    let mut all = Items::new(alloc);
    for stmt in stmts {
        let step = make_step(alloc, table, pushed, marks, loops, stmt)?;
        all.push(step)?;
    }
    Ok(all)
}

#[cycle(steps)]
fn make_arms<'t>(
    alloc: Global,
    table: &'t SlotTable,
    pushed: &[bool],
    marks: &Marks,
    loops: &Loops<'_, 't>,
    arms: &'t [ResolvedArm],
) -> Result<Items<StepArm>, Memory>
    requires once { HasEachOnce table.now.0 }
    requires declared { are_declared_placed table.now ≡ true }
    requires fit { are_arms_fit table.now arms.now ≡ true }
    requires kinded { are_well_kinded_arms (names_at (table_site table.now)) (arms_back table.now.0 arms.now) ≡ true }
    ensures { (site : Site) → IsScope table.now pushed.now marks.now.accessed marks.now.reduced (names_in loops.now) site
        → IfOk result (λ made. ArmsStand table.now site (step_arm_trees made) (arms_back table.now.0 arms.now)) }
{
    let mut all = Items::new(alloc);
    for arm in arms {
        let test = split_condition(alloc, table, marks.accessed.as_slice(), &arm.test)?;
        let body = make_steps(alloc, table, pushed, marks, loops, arm.body.as_slice())?;
        all.push(FlowArm {
            test: test.into_inner(),
            body,
        })?;
    }
    Ok(all)
}

/// A sequential loop.
#[cycle(steps)]
fn make_turns<'t>(
    alloc: Global,
    table: &'t SlotTable,
    pushed: &[bool],
    marks: &Marks,
    loops: &Loops<'_, 't>,
    line: u32,
    head: &ResolvedHead,
    body: &'t [ResolvedStmt],
) -> Result<Step, Memory>
    requires once { HasEachOnce table.now.0 }
    requires declared { are_declared_placed table.now ≡ true }
    requires variable { head.now.variable < length table.now.0 }
    requires first { is_within (length table.now.0) head.now.first ≡ true }
    requires last { is_within (length table.now.0) head.now.last ≡ true }
    requires step { is_option_within (length table.now.0) head.now.step ≡ true }
    requires kinded { is_well_kinded_head (names_at (table_site table.now)) (slot_name table.now.0 head.now.variable) (expression_back table.now.0 head.now.first)
        (expression_back table.now.0 head.now.last) (option_back table.now.0 head.now.step) ≡ true }
    requires body_fit { are_fit table.now body.now ≡ true }
    requires body_kinded { are_well_kinded_statements (names_at (table_site table.now)) (statements_back table.now.0 body.now) ≡ true }
    ensures { (site : Site) → IsScope table.now pushed.now marks.now.accessed marks.now.reduced (names_in loops.now) site → (number : ℕ)
        → IfOk result (λ step. Stands table.now site (step_tree step)
        (loop line number None (slot_name table.now.0 head.now.variable) (expression_back table.now.0 head.now.first) (expression_back table.now.0 head.now.last)
        (option_back table.now.0 head.now.step) (statements_back table.now.0 body.now))) }
{
    let made = make_head(alloc, table, marks.accessed.as_slice(), line, head)?;
    let around = Boxed::new(alloc, Around::Turns { head: made })?;
    let var = name_of(table, head.variable);
    let inner = Loops::Inside {
        var,
        outer: &*loops,
    };
    let body = make_steps(alloc, table, pushed, marks, &inner, body)?;
    Ok(Flow::Loop {
        line,
        head: around.into_inner(),
        body,
    })
}

/// A parallel loop.
#[cycle(steps)]
fn make_iterations<'t>(
    alloc: Global,
    table: &'t SlotTable,
    pushed: &[bool],
    marks: &Marks,
    loops: &Loops<'_, 't>,
    line: u32,
    directive: &'t Directive,
    head: &ResolvedHead,
    body: &'t [ResolvedStmt],
) -> Result<Step, Memory>
    requires once { HasEachOnce table.now.0 }
    requires declared { are_declared_placed table.now ≡ true }
    requires variable { head.now.variable < length table.now.0 }
    requires first { is_within (length table.now.0) head.now.first ≡ true }
    requires last { is_within (length table.now.0) head.now.last ≡ true }
    requires step { is_option_within (length table.now.0) head.now.step ≡ true }
    requires kinded { is_well_kinded_head (names_at (table_site table.now)) (slot_name table.now.0 head.now.variable) (expression_back table.now.0 head.now.first)
        (expression_back table.now.0 head.now.last) (option_back table.now.0 head.now.step) ≡ true }
    requires body_fit { are_fit table.now body.now ≡ true }
    requires body_kinded { are_well_kinded_statements (names_at (table_site table.now)) (statements_back table.now.0 body.now) ≡ true }
    ensures { (site : Site) → IsScope table.now pushed.now marks.now.accessed marks.now.reduced (names_in loops.now) site → (number : ℕ)
        → IfOk result (λ step. Stands table.now site (step_tree step)
        (loop line number (Some directive.now) (slot_name table.now.0 head.now.variable) (expression_back table.now.0 head.now.first) (expression_back table.now.0 head.now.last)
        (option_back table.now.0 head.now.step) (statements_back table.now.0 body.now))) }
{
    let made = parallel_loop(
        alloc,
        table,
        pushed,
        marks.accessed.as_slice(),
        loops,
        line,
        directive,
        head,
        body,
    )?;
    let var = name_of(table, head.variable);
    let inner = Loops::Inside {
        var,
        outer: &*loops,
    };
    let body = make_iteration(
        alloc,
        table,
        pushed,
        &made.get().marks,
        &inner,
        directive,
        body,
    )?;
    Ok(Flow::Loop {
        line,
        head: around_of(made),
        body,
    })
}

/// What an iteration runs.
#[cycle(steps)]
fn make_iteration<'t>(
    alloc: Global,
    table: &'t SlotTable,
    pushed: &[bool],
    marks: &Marks,
    loops: &Loops<'_, 't>,
    directive: &Directive,
    body: &'t [ResolvedStmt],
) -> Result<Items<Step>, Memory>
    requires once { HasEachOnce table.now.0 }
    requires declared { are_declared_placed table.now ≡ true }
    requires fit { are_fit table.now body.now ≡ true }
    requires kinded { are_well_kinded_statements (names_at (table_site table.now)) (statements_back table.now.0 body.now) ≡ true }
    ensures { (site : Site) → IsScope table.now pushed.now marks.now.accessed marks.now.reduced (names_in loops.now) site
        → IfOk result (λ steps. AllStand table.now site (step_trees steps) (iteration_body directive.now (statements_back table.now.0 body.now))) }
{
    if is_nest(directive, body) {
        return make_inner(alloc, table, pushed, marks, loops, &body[0]);
    }
    make_steps(alloc, table, pushed, marks, loops, body)
}

/// The statements in a loop.
#[cycle(steps)]
fn make_inner<'t>(
    alloc: Global,
    table: &'t SlotTable,
    pushed: &[bool],
    marks: &Marks,
    loops: &Loops<'_, 't>,
    stmt: &'t ResolvedStmt,
) -> Result<Items<Step>, Memory>
    requires once { HasEachOnce table.now.0 }
    requires declared { are_declared_placed table.now ≡ true }
    requires fit { is_fit table.now stmt.now ≡ true }
    requires kinded { is_well_kinded_statement (names_at (table_site table.now)) (statement_back table.now.0 stmt.now) ≡ true }
    ensures { (site : Site) → IsScope table.now pushed.now marks.now.accessed marks.now.reduced (names_in loops.now) site
        → IfOk result (λ steps. AllStand table.now site (step_trees steps) (statements_in (statement_back table.now.0 stmt.now))) }
{
    match stmt {
        ResolvedStmt::Assign { .. } => Ok(Items::new(alloc)),
        ResolvedStmt::If { .. } => Ok(Items::new(alloc)),
        ResolvedStmt::Do { body, .. } => {
            make_steps(alloc, table, pushed, marks, loops, body.as_slice())
        }
    }
}

/// The statements of a sweep. `pushed` tells by slot whose old contents go to the tape.
pub fn steps_of(
    alloc: Global,
    table: &SlotTable,
    pushed: &[bool],
    stmts: &[ResolvedStmt],
) -> Result<Items<Step>, Memory>
    requires declared { are_declared_placed table.now ≡ true }
    requires fit { are_fit table.now stmts.now ≡ true }
    requires kinded { are_well_kinded_statements (names_at (table_site table.now)) (statements_back table.now.0 stmts.now) ≡ true }
    ensures { (site : Site) → IsOutside table.now pushed.now site
        → IfOk result (λ steps. AllStand table.now site (step_trees steps) (statements_back table.now.0 stmts.now)) }
{
    let shapes = table.layout().shapes();
    let marks = Marks::outside(alloc, shapes)?;
    let loops = Loops::Outside;
    let steps = make_steps(alloc, table, pushed, &marks, &loops, stmts)?;
    Ok(steps)
}
