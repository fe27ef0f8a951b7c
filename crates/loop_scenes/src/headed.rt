//! The loops of a program, each parallel one with its head.

ghost use Rattle.std.specs.Prelude.{◌≡◌, ◌++◌, ◌∷◌, [], map, Some, OnOk, IfOk};
ghost use Rattle.fl_ast.specs.Tree.{expr_tree, step_tree, stmt_tree, stmt_trees, arm_trees};
ghost use Rattle.loop_accesses.specs.Views.{referred};
ghost use Rattle.loop_scenes.specs.Views.{names_around, headed_loop, headed_seen};
ghost use Rattle.loop_scenes.specs.Loops.{loops_by, loops_by_all, loops_by_arms};

use fl_ast::{Arm, Directive, Expr, Name, Stmt};
use fl_base::{Items, Memory};
use loop_accesses::LoopView;
use std::alloc::Global;

/// The variables of the loops around a statement, the innermost first.
#[derive(Clone, Copy)]
pub enum Around<'a, 't> {
    Outside,
    Inside {
        var: &'t Name,
        outer: &'a Around<'a, 't>,
    },
}

/// A parallel loop with its bounds and step.
#[derive(Drop)]
pub struct HeadedView<'t> {
    pub view: LoopView<'t>,
    pub first: &'t Expr,
    pub last: &'t Expr,
    pub step: &'t Option<Expr>,
}

impl<'a, 't> Around<'a, 't> {
    fn push_names(&self, names: &mut Items<&'t Name>) -> Result<(), Memory>
        ensures { OnOk result (map referred names.new ≡ map referred names.old ++ names_around self.now) }
    {
        match self {
            Around::Outside => Ok(()),
            Around::Inside { var, outer } => {
                names.push(*var)?;
                outer.push_names(names)?;
                Ok(())
            }
        }
    }

    fn names(&self, alloc: Global) -> Result<Items<&'t Name>, Memory>
        ensures { IfOk result (λ names. map referred names ≡ names_around self.now) }
    {
        let mut names = Items::new(alloc);
        self.push_names(&mut names)?;
        Ok(names)
    }
}

fn inside<'a, 't>(outer: &'a Around<'a, 't>, var: &'t Name) -> Around<'a, 't>
    ensures { names_around result ≡ var.now ∷ names_around outer.now }
{
    Around::Inside { var, outer }
}

fn push_parallel<'t>(
    alloc: Global,
    outer: &Around<'_, 't>,
    line: u32,
    number: u32,
    directive: &'t Directive,
    var: &'t Name,
    first: &'t Expr,
    last: &'t Expr,
    step: &'t Option<Expr>,
    body: &'t [Stmt],
    loops: &mut Items<Option<HeadedView<'t>>>,
) -> Result<(), Memory>
    ensures { OnOk result (map headed_seen loops.new ≡ map headed_seen loops.old
        ++ Some (record {
          head = record { line = line; var = var.now; first = expr_tree first.now; last = expr_tree last.now; step = step_tree step.now };
          loop = record { line = line; number = number; outer = names_around outer.now; directive = directive.now; var = var.now; body = stmt_trees body.now };
        }) ∷ []) }
{
    let outer = outer.names(alloc)?;
    let view = LoopView {
        line,
        number,
        outer,
        directive,
        var,
        body,
    };
    loops.push(Some(HeadedView {
        view,
        first,
        last,
        step,
    }))?;
    Ok(())
}

#[cycle(loops)]
fn push_loops<'t>(
    alloc: Global,
    outer: &Around<'_, 't>,
    stmt: &'t Stmt,
    loops: &mut Items<Option<HeadedView<'t>>>,
) -> Result<(), Memory>
    ensures { OnOk result (map headed_seen loops.new ≡ map headed_seen loops.old ++ loops_by (names_around outer.now) (stmt_tree stmt.now)) }
{
    match stmt {
        Stmt::Assign { .. } => Ok(()),
        Stmt::If { arms, other, .. } => {
            push_loops_of_arms(alloc, outer, arms.as_slice(), loops)?;
            push_loops_of_all(alloc, outer, other.as_slice(), loops)?;
            Ok(())
        }
        Stmt::Do {
            line,
            number,
            directive,
            var,
            first,
            last,
            step,
            body,
        } => {
            let inner = inside(&*outer, var);
            match directive {
                None => {
                    loops.push(None)?;
                    push_loops_of_all(alloc, &inner, body.as_slice(), loops)?;
                    Ok(())
                }
                Some(directive) => {
                    push_parallel(
                        alloc,
                        outer,
                        *line,
                        *number,
                        directive,
                        var,
                        first,
                        last,
                        step,
                        body.as_slice(),
                        loops,
                    )?;
                    push_loops_of_all(alloc, &inner, body.as_slice(), loops)?;
                    Ok(())
                }
            }
        }
    }
}

#[cycle(loops)]
fn push_loops_of_all<'t>(
    alloc: Global,
    outer: &Around<'_, 't>,
    stmts: &'t [Stmt],
    loops: &mut Items<Option<HeadedView<'t>>>,
) -> Result<(), Memory>
    ensures { OnOk result (map headed_seen loops.new ≡ map headed_seen loops.old ++ loops_by_all (names_around outer.now) (stmt_trees stmts.now)) }
{
    for stmt in stmts {
        push_loops(alloc, outer, stmt, loops)?;
    }
    Ok(())
}

#[cycle(loops)]
fn push_loops_of_arms<'t>(
    alloc: Global,
    outer: &Around<'_, 't>,
    arms: &'t [Arm],
    loops: &mut Items<Option<HeadedView<'t>>>,
) -> Result<(), Memory>
    ensures { OnOk result (map headed_seen loops.new ≡ map headed_seen loops.old ++ loops_by_arms (names_around outer.now) (arm_trees arms.now)) }
{
    for arm in arms {
        push_loops_of_all(alloc, outer, arm.body.as_slice(), loops)?;
    }
    Ok(())
}

/// The loops of a program's statements, in textual order: None for a sequential one.
pub fn all_loops<'t>(
    alloc: Global,
    body: &'t [Stmt],
) -> Result<Items<Option<HeadedView<'t>>>, Memory>
    ensures loops { IfOk result (λ loops. map headed_seen loops ≡ loops_by_all [] (stmt_trees body.now)) }
{
    let mut loops = Items::new(alloc);
    push_loops_of_all(alloc, &Around::Outside, body, &mut loops)?;
    Ok(loops)
}
