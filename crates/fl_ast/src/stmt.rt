ghost use Rattle.std.specs.Prelude.{◌≡◌, IfOk, IsOkAnd, Ok};

use crate::decl::{Decl, clone_decls};
use crate::directive::{Directive, clone_names};
use crate::expr::{Cond, Expr, Place, in_box};
use fl_base::{Boxed, Items, Memory, Name};
use std::alloc::Global;

/// A statement, at the line of its first word. Loops are numbered from 1 in textual order.
#[cycle(stmt)]
#[derive(Drop)]
pub enum Stmt {
    Assign {
        line: u32,
        atomic: bool,
        target: Place,
        value: Expr,
    },
    If {
        line: u32,
        arms: Items<Arm>,
        other: Items<Stmt>,
    },
    Do {
        line: u32,
        number: u32,
        directive: Option<Directive>,
        var: Name,
        first: Expr,
        last: Expr,
        step: Option<Expr>,
        body: Items<Stmt>,
    },
}

/// A condition and the statements under it.
#[cycle(stmt)]
#[derive(Drop)]
pub struct Arm {
    pub test: Cond,
    pub body: Items<Stmt>,
}

/// One subroutine.
#[derive(Drop)]
pub struct Program {
    pub line: u32,
    pub name: Name,
    pub args: Items<Name>,
    pub decls: Items<Decl>,
    pub body: Items<Stmt>,
}

/// What stands before a loop's body.
#[derive(Drop)]
struct Head {
    directive: Option<Directive>,
    var: Name,
    first: Expr,
    last: Expr,
    step: Option<Expr>,
}

fn clone_step(alloc: Global, step: &Option<Expr>) -> Result<Option<Expr>, Memory>
    ensures { IfOk result (λ x. x ≡ step.now) }
{
    match step {
        None => Ok(None),
        Some(step) => Ok(Some(step.clone(alloc)?)),
    }
}

fn clone_directive(
    alloc: Global,
    directive: &Option<Directive>,
) -> Result<Option<Directive>, Memory>
    ensures { IfOk result (λ x. x ≡ directive.now) }
{
    match directive {
        None => Ok(None),
        Some(directive) => Ok(Some(directive.clone(alloc)?)),
    }
}

fn clone_head(
    alloc: Global,
    directive: &Option<Directive>,
    var: &Name,
    first: &Expr,
    last: &Expr,
    step: &Option<Expr>,
) -> Result<Boxed<Head>, Memory>
    ensures { IfOk result (λ x. x ≡ record { directive = directive.now; var = var.now; first = first.now; last = last.now; step = step.now }) }
{
    let var = var.clone(alloc)?;
    let first = in_box(alloc, first.clone(alloc))?;
    let last = in_box(alloc, last.clone(alloc))?;
    let directive = Boxed::new(alloc, clone_directive(alloc, directive)?)?;
    let step = clone_step(alloc, step)?;
    Boxed::new(
        alloc,
        Head {
            directive: directive.into_inner(),
            var,
            first: first.into_inner(),
            last: last.into_inner(),
            step,
        },
    )
}

fn clone_assignment(
    alloc: Global,
    line: u32,
    atomic: bool,
    target: &Place,
    value: &Expr,
) -> Result<Stmt, Memory>
    ensures { IfOk result (λ x. x ≡ Stmt.Assign line atomic target.now value.now) }
{
    let target = target.clone(alloc)?;
    let value = value.clone(alloc)?;
    Ok(Stmt::Assign {
        line,
        atomic,
        target,
        value,
    })
}

fn branch_of(
    line: u32,
    arms: Result<Items<Arm>, Memory>,
    other: Result<Items<Stmt>, Memory>,
) -> Result<Stmt, Memory>
    ensures { IfOk result (λ x. IsOkAnd arms (λ a. IsOkAnd other (λ o. x ≡ Stmt.If line a o))) }
{
    let arms = arms?;
    let other = other?;
    Ok(Stmt::If { line, arms, other })
}

fn loop_of(
    line: u32,
    number: u32,
    head: Result<Boxed<Head>, Memory>,
    body: Result<Items<Stmt>, Memory>,
) -> Result<Stmt, Memory>
    ensures { IfOk result (λ x. IsOkAnd head (λ h. IsOkAnd body (λ b.
        x ≡ Stmt.Do line number h.directive h.var h.first h.last h.step b))) }
{
    let body = body?;
    let head = head?.into_inner();
    Ok(Stmt::Do {
        line,
        number,
        directive: head.directive,
        var: head.var,
        first: head.first,
        last: head.last,
        step: head.step,
        body,
    })
}

impl Stmt {
    #[cycle(stmt_clone)]
    pub fn clone(&self, alloc: Global) -> Result<Stmt, Memory>
        ensures { IfOk result (λ x. x ≡ self.now) }
    {
        match self {
            Stmt::Assign {
                line,
                atomic,
                target,
                value,
            } => clone_assignment(alloc, *line, *atomic, target, value),
            Stmt::If { line, arms, other } => branch_of(
                *line,
                clone_arms(alloc, arms.as_slice()),
                clone_stmts(alloc, other.as_slice()),
            ),
            Stmt::Do {
                line,
                number,
                directive,
                var,
                first,
                last,
                step,
                body,
            } => loop_of(
                *line,
                *number,
                clone_head(alloc, directive, var, first, last, step),
                clone_stmts(alloc, body.as_slice()),
            ),
        }
    }
}

impl Arm {
    #[cycle(stmt_clone)]
    pub fn clone(&self, alloc: Global) -> Result<Arm, Memory>
        ensures { IfOk result (λ x. x ≡ self.now) }
    {
        let body = clone_stmts(alloc, self.body.as_slice())?;
        let test = self.test.clone(alloc)?;
        Ok(Arm { test, body })
    }
}

#[cycle(stmt_clone)]
fn clone_stmts(alloc: Global, stmts: &[Stmt]) -> Result<Items<Stmt>, Memory>
    ensures { IfOk result (λ x. x ≡ stmts.now) }
{
    let mut all = Items::new(alloc);
    for i in 0..stmts.len() {
        all.push(stmts[i].clone(alloc)?)?;
    }
    Ok(all)
}

#[cycle(stmt_clone)]
fn clone_arms(alloc: Global, arms: &[Arm]) -> Result<Items<Arm>, Memory>
    ensures { IfOk result (λ x. x ≡ arms.now) }
{
    let mut all = Items::new(alloc);
    for i in 0..arms.len() {
        all.push(arms[i].clone(alloc)?)?;
    }
    Ok(all)
}

impl Program {
    pub fn clone(&self, alloc: Global) -> Result<Program, Memory>
        ensures { IfOk result (λ x. x ≡ self.now) }
    {
        let name = self.name.clone(alloc)?;
        let args = clone_names(alloc, self.args.as_slice())?;
        let decls = clone_decls(alloc, self.decls.as_slice())?;
        let body = clone_stmts(alloc, self.body.as_slice())?;
        Ok(Program {
            line: self.line,
            name,
            args,
            decls,
            body,
        })
    }
}
