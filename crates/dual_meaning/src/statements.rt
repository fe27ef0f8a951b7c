ghost use Rattle.std.specs.Prelude.{◌≡◌, ◌<◌, ◌+◌, ◌*◌, true, [], Some, length, IfOk};
ghost use Rattle.fl_types.specs.Nests.{Head as TreeHead, is_plain_loop, head_of, statements_in, further_head, iteration_body};
ghost use Rattle.meaning.specs.Expressions.{holds as holds_lem};
ghost use Rattle.store_core.specs.Keys.{place_in_slot};
ghost use Rattle.meaning.specs.Sites.{place_of};
ghost use Rattle.meaning.specs.Statements.{private_names, iterations};
ghost use Rattle.resolved.specs.SlotTables.{table_site};
ghost use Rattle.resolved.specs.ResolvedExprs.{expression_back, place_back, condition_back, slot_name, is_within, is_place_within, is_condition_within};
ghost use Rattle.resolved.specs.ResolvedStmts.{statement_back, statements_back, is_option_within, is_fit, are_fit};
ghost use Rattle.dual_evaluation.specs.Answers.{halt_cause};
ghost use Rattle.dual_evaluation.specs.Assignments.{by_form, IsCounted};
ghost use Rattle.dual_meaning.specs.Counted.{followed, ended, lined, turns_at as turns_at_lem, counted_heads, counted_turn, counted_turns, counted_iteration, counted_run, counted_begun, counted_all};
ghost use Rattle.dual_meaning.specs.Running.{StopsAt, AnswersAt, AnswersRound, SetsAt, Begins, Ran, over_by, head_back, round_of, round_count as round_count_lem, counted_round, is_counted_option};
ghost use Rattle.dual_meaning.specs.declared.statements.RunStop.TheVariants.{Memory as memory, Trap as trap};

use crate::privates::{is_nest, private_places};
use crate::rounds::{Round, round_count, set_rounds, unset_all};
use dual_evaluation::{EvalStop, Halt, assign, begin_turn, cause_of, holds, turns_of};
use fl_ast::{Directive, Memory};
use fl_types::IncrementForm;
use meaning::{IterationCount, TrapAt, Value};
use resolved::{
    ResolvedArm, ResolvedCond, ResolvedExpr, ResolvedHead, ResolvedPlace, ResolvedStmt, SlotTable,
};
use ring_core::Steps;
use std::alloc::Global;
use std::sync::ledger::Ledger;
use thiserror::Error;

/// Why a run ended early.
#[derive(Debug, Drop, Error)]
pub enum RunStop {
    #[error("line {}: {}", .0.line, .0.cause)]
    Trap(TrapAt),
    /// One statement instance more than there may be would begin.
    #[error("more than 2^24 statement instances")]
    Statements,
    #[error("not enough memory")]
    Memory,
}

impl From<Memory> for RunStop {
    ghost from_gives = { λ _ e. e ≡ memory };

    fn from(_: Memory) -> RunStop {
        RunStop::Memory
    }
}

/// The cells of a run, and how many statement instances may still begin.
#[derive(Drop)]
pub struct Progress {
    pub cells: Vec<Option<Value>>,
    pub left: u32,
}

/// A statement instance begins, where one may still.
fn begin<L: Ledger>(left: &mut u32, steps: &mut Steps<L>) -> Result<(), RunStop>
    ensures left { Begins result left.old left.new }
    ensures ticks { steps.new + left.new ≡ (steps.old + left.old) + over_by result }
{
    steps.tick();
    if *left == 0 {
        return Err(RunStop::Statements);
    }
    *left -= 1;
    Ok(())
}

/// A trap in a statement at a line.
fn trap_at(alloc: Global, table: &SlotTable, line: u32, halt: Halt) -> Result<RunStop, Memory>
    ensures { IfOk result (λ stop. stop ≡ trap (record { line = line; cause = halt_cause table.now.0 halt })) }
{
    let cause = cause_of(alloc, table, halt)?;
    Ok(RunStop::Trap(TrapAt { line, cause }))
}

/// A stop in a statement at a line.
fn stop_at(alloc: Global, table: &SlotTable, line: u32, stop: EvalStop) -> RunStop
    ensures { StopsAt table.now.0 line stop result }
{
    match stop {
        EvalStop::Trap(halt) => match trap_at(alloc, table, line, halt) {
            Ok(stop) => stop,
            Err(_) => RunStop::Memory,
        },
        EvalStop::Memory => RunStop::Memory,
    }
}

fn test_at(
    alloc: Global,
    table: &SlotTable,
    cells: &[Option<Value>],
    line: u32,
    test: &ResolvedCond,
) -> Result<bool, RunStop>
    requires { is_condition_within (length table.now.0) test.now ≡ true }
    ensures { AnswersAt result (lined line (holds_lem (condition_back table.now.0 test.now) (table_site table.now) cells.now).out) }
{
    match holds(alloc, table, cells, test) {
        Ok(holds) => Ok(holds),
        Err(stop) => Err(stop_at(alloc, table, line, stop)),
    }
}

fn turns_at(
    alloc: Global,
    table: &SlotTable,
    cells: &[Option<Value>],
    line: u32,
    head: &ResolvedHead,
) -> Result<IterationCount, RunStop>
    requires first { is_within (length table.now.0) head.now.first ≡ true }
    requires last { is_within (length table.now.0) head.now.last ≡ true }
    requires step { is_option_within (length table.now.0) head.now.step ≡ true }
    ensures value { AnswersAt result (turns_at_lem (head_back table.now.0 line head.now) (table_site table.now) cells.now) }
    ensures counted { IfOk result IsCounted }
{
    match turns_of(alloc, table, cells, head) {
        Ok(turns) => Ok(turns),
        Err(stop) => Err(stop_at(alloc, table, line, stop)),
    }
}

fn assign_at(
    alloc: Global,
    table: &SlotTable,
    cells: &mut Vec<Option<Value>>,
    line: u32,
    target: &ResolvedPlace,
    value: &ResolvedExpr,
    form: Option<IncrementForm>,
) -> Result<(), RunStop>
    requires target { is_place_within (length table.now.0) target.now ≡ true }
    requires value { is_within (length table.now.0) value.now ≡ true }
    ensures { SetsAt result cells.new.items (lined line (by_form form (table_site table.now) cells.old.items
        (place_back table.now.0 target.now) (expression_back table.now.0 value.now)).out) }
{
    match assign(alloc, table, cells, target, value, form) {
        Ok(()) => Ok(()),
        Err(stop) => Err(stop_at(alloc, table, line, stop)),
    }
}

/// A loop's variable with its turns.
fn round_at(
    alloc: Global,
    table: &SlotTable,
    cells: &[Option<Value>],
    line: u32,
    head: &ResolvedHead,
) -> Result<Round, RunStop>
    requires variable { head.now.variable < length table.now.0 }
    requires first { is_within (length table.now.0) head.now.first ≡ true }
    requires last { is_within (length table.now.0) head.now.last ≡ true }
    requires step { is_option_within (length table.now.0) head.now.step ≡ true }
    ensures value { AnswersRound result (place_in_slot table.now.0 head.now.variable [])
        (turns_at_lem (head_back table.now.0 line head.now) (table_site table.now) cells.now) }
    ensures counted { IfOk result (λ round. IsCounted round.turns) }
{
    let turns = turns_at(alloc, table, cells, line, head)?;
    let place = table.layout().place_in(head.variable, &[]);
    Ok(Round { place, turns })
}

/// Runs a statement.
#[cycle(run)]
fn run_statement<L: Ledger>(
    alloc: Global,
    table: &SlotTable,
    progress: &mut Progress,
    steps: &mut Steps<L>,
    stmt: &ResolvedStmt,
) -> Result<(), RunStop>
    requires fit { is_fit table.now stmt.now ≡ true }
    ensures ran { Ran result progress.new.cells.items progress.new.left
        (counted_run (statement_back table.now.0 stmt.now) (table_site table.now) progress.old.cells.items progress.old.left) }
    ensures ticks { steps.new + progress.new.left ≡ (steps.old + progress.old.left) + over_by result }
{
    begin(&mut progress.left, steps)?;
    run_begun(alloc, table, progress, steps, stmt)
}

/// Runs a statement whose instance has begun.
#[cycle(run)]
fn run_begun<L: Ledger>(
    alloc: Global,
    table: &SlotTable,
    progress: &mut Progress,
    steps: &mut Steps<L>,
    stmt: &ResolvedStmt,
) -> Result<(), RunStop>
    requires fit { is_fit table.now stmt.now ≡ true }
    ensures ran { Ran result progress.new.cells.items progress.new.left
        (counted_begun (statement_back table.now.0 stmt.now) (table_site table.now) progress.old.cells.items progress.old.left) }
    ensures ticks { steps.new + progress.new.left ≡ (steps.old + progress.old.left) + over_by result }
{
    match stmt {
        ResolvedStmt::Assign {
            line,
            target,
            value,
            form,
            ..
        } => assign_at(
            alloc,
            table,
            &mut progress.cells,
            *line,
            target,
            value,
            *form,
        ),
        ResolvedStmt::If { line, arms, other } => {
            for arm in arms.as_slice() {
                if test_at(alloc, table, &progress.cells, *line, &arm.test)? {
                    return run_statements(alloc, table, progress, steps, arm.body.as_slice());
                }
            }
            run_statements(alloc, table, progress, steps, other.as_slice())
        }
        ResolvedStmt::Do {
            line,
            directive,
            head,
            body,
            ..
        } => match directive {
            None => {
                let turns = turns_at(alloc, table, &progress.cells, *line, head)?;
                let variable = head.variable;
                run_turns(
                    alloc,
                    table,
                    progress,
                    steps,
                    variable,
                    turns,
                    body.as_slice(),
                )
            }
            Some(directive) => run_parallel(
                alloc,
                table,
                progress,
                steps,
                *line,
                directive.get(),
                head,
                body.as_slice(),
            ),
        },
    }
}

/// Runs the turns of a sequential loop.
#[cycle(run)]
fn run_turns<L: Ledger>(
    alloc: Global,
    table: &SlotTable,
    progress: &mut Progress,
    steps: &mut Steps<L>,
    variable: usize,
    turns: IterationCount,
    body: &[ResolvedStmt],
) -> Result<(), RunStop>
    requires variable { variable < length table.now.0 }
    requires counted { IsCounted turns }
    requires fit { are_fit table.now body.now ≡ true }
    ensures ran { Ran result progress.new.cells.items progress.new.left
        (counted_turns turns.count (counted_turn (table_site table.now) (slot_name table.now.0 variable) turns
        (counted_all (statements_back table.now.0 body.now) (table_site table.now))) progress.old.cells.items progress.old.left) }
    ensures ticks { steps.new + progress.new.left ≡ (steps.old + progress.old.left) + over_by result }
{
    let place = table.layout().place_in(variable, &[]);
    for turn in 0..turns.count {
        begin(&mut progress.left, steps)?;
        begin_turn(&mut progress.cells, place, turns.first, turns.step, turn);
        run_statements(alloc, table, progress, steps, body)?;
    }
    Ok(())
}

/// Runs a parallel loop, its iterations in order.
#[cycle(run)]
fn run_parallel<L: Ledger>(
    alloc: Global,
    table: &SlotTable,
    progress: &mut Progress,
    steps: &mut Steps<L>,
    line: u32,
    directive: &Directive,
    head: &ResolvedHead,
    body: &[ResolvedStmt],
) -> Result<(), RunStop>
    requires variable { head.now.variable < length table.now.0 }
    requires first { is_within (length table.now.0) head.now.first ≡ true }
    requires last { is_within (length table.now.0) head.now.last ≡ true }
    requires step { is_option_within (length table.now.0) head.now.step ≡ true }
    requires fit { are_fit table.now body.now ≡ true }
    ensures ran { Ran result progress.new.cells.items progress.new.left
        (followed (ended (counted_heads (head_back table.now.0 line head.now) (further_head directive.now (statements_back table.now.0 body.now))
        (table_site table.now) progress.old.cells.items) progress.old.left)
        (λ heads. counted_turns (iterations heads) (counted_iteration (table_site table.now)
        (private_names (table_site table.now) directive.now (slot_name table.now.0 head.now.variable) (statements_back table.now.0 body.now)) heads
        (counted_all (iteration_body directive.now (statements_back table.now.0 body.now)) (table_site table.now))) progress.old.cells.items)) }
    ensures ticks { steps.new + progress.new.left ≡ (steps.old + progress.old.left) + over_by result }
{
    let privates = private_places(alloc, table, directive, head.variable, body)?;
    let outer = round_at(alloc, table, &progress.cells, line, head)?;
    if !is_nest(directive, body) {
        return run_rounds(
            alloc, table, progress, steps, &privates, &outer, &None, body,
        );
    }
    run_nest(alloc, table, progress, steps, &privates, &outer, &body[0])
}

/// Runs the iterations of two loops that are collapsed. The bounds of the inner one are evaluated once.
#[cycle(run)]
fn run_nest<L: Ledger>(
    alloc: Global,
    table: &SlotTable,
    progress: &mut Progress,
    steps: &mut Steps<L>,
    privates: &[u32],
    outer: &Round,
    inner: &ResolvedStmt,
) -> Result<(), RunStop>
    requires fit { is_fit table.now inner.now ≡ true }
    requires plain { is_plain_loop (statement_back table.now.0 inner.now) ≡ true }
    requires counted { IsCounted outer.now.turns }
    ensures ran { (h : TreeHead) → head_of (statement_back table.now.0 inner.now) ≡ Some h → Ran result progress.new.cells.items progress.new.left
        (followed (ended (turns_at_lem h (table_site table.now) progress.old.cells.items) progress.old.left)
        (λ t. counted_turns (outer.now.turns.count * t.count) (counted_round privates.now outer.now (Some (round_of (place_of (table_site table.now) h.var []) t))
        (counted_all (statements_in (statement_back table.now.0 inner.now)) (table_site table.now))) progress.old.cells.items)) }
    ensures ticks { steps.new + progress.new.left ≡ (steps.old + progress.old.left) + over_by result }
{
    match inner {
        ResolvedStmt::Do {
            line,
            head,
            body,
            ..
        } => {
            let inner = round_at(alloc, table, &progress.cells, *line, head)?;
            run_rounds(
                alloc,
                table,
                progress,
                steps,
                privates,
                outer,
                &Some(inner),
                body.as_slice(),
            )
        }
        ResolvedStmt::Assign { .. } => unreachable!(),
        ResolvedStmt::If { .. } => unreachable!(),
    }
}

/// Runs the iterations of a parallel loop, private scalars being unset at the start of each.
#[cycle(run)]
fn run_rounds<L: Ledger>(
    alloc: Global,
    table: &SlotTable,
    progress: &mut Progress,
    steps: &mut Steps<L>,
    privates: &[u32],
    outer: &Round,
    inner: &Option<Round>,
    body: &[ResolvedStmt],
) -> Result<(), RunStop>
    requires outer { IsCounted outer.now.turns }
    requires inner { is_counted_option inner.now }
    requires fit { are_fit table.now body.now ≡ true }
    ensures ran { Ran result progress.new.cells.items progress.new.left
        (counted_turns (round_count_lem outer.now inner.now) (counted_round privates.now outer.now inner.now
        (counted_all (statements_back table.now.0 body.now) (table_site table.now))) progress.old.cells.items progress.old.left) }
    ensures ticks { steps.new + progress.new.left ≡ (steps.old + progress.old.left) + over_by result }
{
    for k in 0..round_count(outer, inner) {
        begin(&mut progress.left, steps)?;
        unset_all(&mut progress.cells, privates);
        set_rounds(&mut progress.cells, outer, inner, k);
        run_statements(alloc, table, progress, steps, body)?;
    }
    Ok(())
}

/// Runs statements in order. It ticks once for each statement instance.
#[cycle(run)]
pub fn run_statements<L: Ledger>(
    alloc: Global,
    table: &SlotTable,
    progress: &mut Progress,
    steps: &mut Steps<L>,
    stmts: &[ResolvedStmt],
) -> Result<(), RunStop>
    requires fit { are_fit table.now stmts.now ≡ true }
    ensures ran { Ran result progress.new.cells.items progress.new.left
        (counted_all (statements_back table.now.0 stmts.now) (table_site table.now) progress.old.cells.items progress.old.left) }
    ensures ticks { steps.new + progress.new.left ≡ (steps.old + progress.old.left) + over_by result }
{
    for stmt in stmts {
        run_statement(alloc, table, progress, steps, stmt)?;
    }
    Ok(())
}
