ghost use Rattle.std.specs.Prelude.{◌≡◌, ◌++◌, ◌∷◌, [], map, OnOk, IfOk};
ghost use Rattle.fl_ast.specs.Tree.{stmt_tree, stmt_trees, arm_trees};
ghost use Rattle.fl_types.specs.Sharing.{loops_of, loops_of_all, loops_of_arms};
ghost use Rattle.loop_accesses.specs.Views.{names_in, loop_view, referred};

use fl_ast::{Arm, Directive, Name, Stmt};
use fl_base::{Items, Memory};
use fl_types::Typed;
use std::alloc::Global;

/// The variables of the loops around a statement, the innermost first.
#[derive(Clone, Copy)]
pub enum Vars<'a, 't> {
    Outside,
    Inside {
        var: &'t Name,
        outer: &'a Vars<'a, 't>,
    },
}

/// A parallel loop of a program, with the variables of the loops around it, the innermost first.
#[derive(Drop)]
pub struct LoopView<'t> {
    pub line: u32,
    pub number: u32,
    pub outer: Items<&'t Name>,
    pub directive: &'t Directive,
    pub var: &'t Name,
    pub body: &'t [Stmt],
}

impl<'a, 't> Vars<'a, 't> {
    fn push_names(&self, names: &mut Items<&'t Name>) -> Result<(), Memory>
        ensures { OnOk result (map referred names.new ≡ map referred names.old ++ names_in self.now) }
    {
        match self {
            Vars::Outside => Ok(()),
            Vars::Inside { var, outer } => {
                names.push(*var)?;
                outer.push_names(names)?;
                Ok(())
            }
        }
    }

    fn names(&self, alloc: Global) -> Result<Items<&'t Name>, Memory>
        ensures { IfOk result (λ names. map referred names ≡ names_in self.now) }
    {
        let mut names = Items::new(alloc);
        self.push_names(&mut names)?;
        Ok(names)
    }
}

fn push_view<'t>(
    alloc: Global,
    outer: &Vars<'_, 't>,
    line: u32,
    number: u32,
    directive: &'t Directive,
    var: &'t Name,
    body: &'t [Stmt],
    loops: &mut Items<LoopView<'t>>,
) -> Result<(), Memory>
    ensures { OnOk result (map loop_view loops.new ≡ map loop_view loops.old
        ++ record { line = line; number = number; outer = names_in outer.now; directive = directive.now; var = var.now; body = stmt_trees body.now } ∷ []) }
{
    let outer = outer.names(alloc)?;
    loops.push(LoopView {
        line,
        number,
        outer,
        directive,
        var,
        body,
    })?;
    Ok(())
}

#[cycle(loops)]
fn push_loops<'t>(
    alloc: Global,
    outer: &Vars<'_, 't>,
    stmt: &'t Stmt,
    loops: &mut Items<LoopView<'t>>,
) -> Result<(), Memory>
    ensures { OnOk result (map loop_view loops.new ≡ map loop_view loops.old ++ loops_of (names_in outer.now) (stmt_tree stmt.now)) }
{
    match stmt {
        Stmt::Assign { .. } => Ok(()),
        Stmt::If { arms, other, .. } => {
            push_loops_of_arms(alloc, outer, arms.as_slice(), loops)?;
            push_loops_of_all(alloc, outer, other.as_slice(), loops)?;
            Ok(())
        }
        Stmt::Do {
            line,
            number,
            directive,
            var,
            body,
            ..
        } => {
            let inner = Vars::Inside {
                var,
                outer: &*outer,
            };
            match directive {
                None => {
                    push_loops_of_all(alloc, &inner, body.as_slice(), loops)?;
                    Ok(())
                }
                Some(directive) => {
                    push_view(
                        alloc,
                        outer,
                        *line,
                        *number,
                        directive,
                        var,
                        body.as_slice(),
                        loops,
                    )?;
                    push_loops_of_all(alloc, &inner, body.as_slice(), loops)?;
                    Ok(())
                }
            }
        }
    }
}

#[cycle(loops)]
fn push_loops_of_all<'t>(
    alloc: Global,
    outer: &Vars<'_, 't>,
    stmts: &'t [Stmt],
    loops: &mut Items<LoopView<'t>>,
) -> Result<(), Memory>
    ensures { OnOk result (map loop_view loops.new ≡ map loop_view loops.old ++ loops_of_all (names_in outer.now) (stmt_trees stmts.now)) }
{
    for stmt in stmts {
        push_loops(alloc, outer, stmt, loops)?;
    }
    Ok(())
}

#[cycle(loops)]
fn push_loops_of_arms<'t>(
    alloc: Global,
    outer: &Vars<'_, 't>,
    arms: &'t [Arm],
    loops: &mut Items<LoopView<'t>>,
) -> Result<(), Memory>
    ensures { OnOk result (map loop_view loops.new ≡ map loop_view loops.old ++ loops_of_arms (names_in outer.now) (arm_trees arms.now)) }
{
    for arm in arms {
        push_loops_of_all(alloc, outer, arm.body.as_slice(), loops)?;
    }
    Ok(())
}

/// The parallel loops of a program, in textual order.
pub fn parallel_loops<'t>(alloc: Global, typed: &'t Typed) -> Result<Items<LoopView<'t>>, Memory>
    ensures { IfOk result (λ loops. map loop_view loops ≡ loops_of_all [] (stmt_trees typed.now.body)) }
{
    let mut loops = Items::new(alloc);
    let body = typed.program().body.as_slice();
    push_loops_of_all(alloc, &Vars::Outside, body, &mut loops)?;
    Ok(loops)
}
