ghost use Rattle.std.specs.Prelude.{◌≡◌, ◌+◌, ◌++◌, ◌∷◌, [], suc, ℕ, List, length, map, OnOk, IfOk};
ghost use Rattle.fl_ast.specs.Tree.{expr_tree, step_tree, stmt_tree, stmt_trees, arm_trees};
ghost use Rattle.fl_types.specs.declared.access.PathStep.{PathStep};
ghost use Rattle.fl_types.specs.declared.access.PathStep.TheVariants as step;
ghost use Rattle.fl_types.specs.Accesses.{Occurrence, reads, step_reads, test_path as test_path_lem, statement_count, statements_count, arms_count, accesses, accesses_all, arms_accesses};
ghost use Rattle.loop_accesses.specs.Classes.{scope_by};
ghost use Rattle.loop_accesses.specs.Views.{steps_of, occurrence_of};

use crate::assignments::push_assignment;
use crate::classes::LoopNames;
use crate::path::Path;
use crate::reads::{Found, push_condition_reads, push_reads, push_step_reads};
use fl_ast::{Arm, Expr, Stmt};
use fl_base::{Items, Memory};
use fl_types::PathStep;
use std::alloc::Global;

/// The next number. That there are more statements than 32 bits count is a want of memory.
fn after(n: u32) -> Result<u32, Memory>
    ensures { IfOk result (λ m. m ≡ suc n) }
{
    match n.checked_add(1) {
        Some(m) => Ok(m),
        None => Err(Memory),
    }
}

/// The number of an arm.
fn arm_number(i: usize) -> Result<u32, Memory>
    ensures { IfOk result (λ m. m ≡ i) }
{
    match u32::try_from(i) {
        Ok(m) => Ok(m),
        Err(_) => Err(Memory),
    }
}

/// The path of the condition of the arm m of the `if` with number n.
#[tactic(auto, using(crate::proofs::Paths::later_test))]
fn test_path<'a>(path: &'a Path<'a>, n: u32, m: u32) -> Path<'a>
    ensures { steps_of result ≡ test_path_lem (steps_of path.now) n m }
{
    if m == 0 {
        return *path;
    }
    Path::Then {
        outer: path,
        step: PathStep::Test(n, m),
    }
}

/// Adds the accesses in a loop's bounds and step.
#[tactic(auto, using(crate::proofs::Terms::three))]
fn push_bounds_reads<'t>(
    alloc: Global,
    names: &LoopNames<'_, '_>,
    line: u32,
    path: &Path<'_>,
    first: &'t Expr,
    last: &'t Expr,
    step: &'t Option<Expr>,
    found: &mut Items<Found<'t>>,
) -> Result<(), Memory>
    ensures { OnOk result (map occurrence_of found.new ≡ map occurrence_of found.old
        ++ (reads (scope_by names.now) line (steps_of path.now) (expr_tree first.now) ++ (reads (scope_by names.now) line (steps_of path.now) (expr_tree last.now) ++ step_reads (scope_by names.now) line (steps_of path.now) (step_tree step.now)))) }
{
    push_reads(alloc, names, line, path, first, found)?;
    push_reads(alloc, names, line, path, last, found)?;
    push_step_reads(alloc, names, line, path, step, found)?;
    Ok(())
}

/// Adds the accesses of the statement with number n; answers the number of the next statement.
#[cycle(push_statement)]
fn push_statement<'t>(
    alloc: Global,
    names: &LoopNames<'_, '_>,
    n: u32,
    path: &Path<'_>,
    stmt: &'t Stmt,
    found: &mut Items<Found<'t>>,
) -> Result<u32, Memory>
    ensures next { IfOk result (λ m. m ≡ n + statement_count (stmt_tree stmt.now)) }
    ensures found { OnOk result (map occurrence_of found.new ≡ map occurrence_of found.old ++ accesses (scope_by names.now) n (steps_of path.now) (stmt_tree stmt.now)) }
{
    match stmt {
        Stmt::Assign {
            line,
            atomic,
            target,
            value,
        } => {
            push_assignment(alloc, names, *line, path, *atomic, target, value, found)?;
            after(n)
        }
        Stmt::If { line, arms, other } => {
            let first = after(n)?;
            let next = push_arms(alloc, names, *line, n, first, path, arms.as_slice(), found)?;
            let outer = Path::Then {
                outer: &*path,
                step: PathStep::Arm(n, arm_number(arms.len())?),
            };
            let last = push_statements(alloc, names, next, &outer, other.as_slice(), found)?;
            Ok(last)
        }
        Stmt::Do {
            line,
            first,
            last,
            step,
            body,
            ..
        } => {
            push_bounds_reads(alloc, names, *line, path, first, last, step, found)?;
            let inner = Path::Then {
                outer: &*path,
                step: PathStep::Body(n),
            };
            let next = after(n)?;
            let last = push_statements(alloc, names, next, &inner, body.as_slice(), found)?;
            Ok(last)
        }
    }
}

/// Adds the accesses of statements, of which the first has number n; answers the number of the next statement.
#[cycle(push_statement)]
pub(crate) fn push_statements<'t>(
    alloc: Global,
    names: &LoopNames<'_, '_>,
    n: u32,
    path: &Path<'_>,
    stmts: &'t [Stmt],
    found: &mut Items<Found<'t>>,
) -> Result<u32, Memory>
    ensures next { IfOk result (λ m. m ≡ n + statements_count (stmt_trees stmts.now)) }
    ensures found { OnOk result (map occurrence_of found.new ≡ map occurrence_of found.old ++ accesses_all (scope_by names.now) n (steps_of path.now) (stmt_trees stmts.now)) }
{
    let mut next = n;
    for i in 0..stmts.len() {
        next = push_statement(alloc, names, next, path, &stmts[i], found)?;
    }
    Ok(next)
}

/// Adds the accesses of the arms of the `if` with number n, whose first statement has number k; answers the number of the next
/// statement.
#[cycle(push_statement)]
fn push_arms<'t>(
    alloc: Global,
    names: &LoopNames<'_, '_>,
    line: u32,
    n: u32,
    k: u32,
    path: &Path<'_>,
    arms: &'t [Arm],
    found: &mut Items<Found<'t>>,
) -> Result<u32, Memory>
    ensures next { IfOk result (λ m. m ≡ k + arms_count (arm_trees arms.now)) }
    ensures found { IfOk result (λ m. (other : ℕ → List PathStep → List Occurrence) →
        map occurrence_of found.new ++ other m (steps_of path.now ++ step.Arm n (length arms.now) ∷ []) ≡ map occurrence_of found.old ++ arms_accesses (scope_by names.now) line n k 0 (steps_of path.now) (arm_trees arms.now) other) }
{
    let mut next = k;
    for i in 0..arms.len() {
        let arm = &arms[i];
        let m = arm_number(i)?;
        let test = test_path(&*path, n, m);
        push_condition_reads(alloc, names, line, &test, &arm.test, found)?;
        let inside = Path::Then {
            outer: &*path,
            step: PathStep::Arm(n, m),
        };
        next = push_statements(alloc, names, next, &inside, arm.body.as_slice(), found)?;
    }
    Ok(next)
}
