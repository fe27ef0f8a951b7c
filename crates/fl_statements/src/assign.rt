//! Assignments.

ghost use Rattle.std.specs.Prelude.{◌≡◌, ◌+◌, ◌<◌, ◌≤◌, ◌^◌, IfOk};
ghost use Rattle.parsing.specs.Code.{Reads};
ghost use Rattle.parsing.specs.Limit.{less};
ghost use Rattle.fl_expressions.specs.ExprReading as exprs;
ghost use Rattle.fl_statements.specs.Limits.{limits_of};
ghost use Rattle.fl_statements.specs.StmtReading as spec;

use crate::block::{Block, Target, assigned, element_target, scalar_target};
use crate::limit::Limits;
use fl_expressions::{Measured, expr, subscripts};
use parsing::{Cause, Cursor, Failure, Symbol, Word};
use std::alloc::Global;

/// An expression with all brackets and levels.
pub fn whole_expr(
    alloc: Global,
    tokens: &mut Cursor<'_>,
    limits: Limits,
) -> Result<Measured, Failure>
    requires { limits.depth < 2 ^ 32 }
    ensures { Reads (exprs.expr (limits_of limits).brackets (less (limits_of limits).depth) tokens.old) result tokens.new }
{
    Ok(expr(
        alloc,
        tokens,
        limits.brackets,
        limits.depth.saturating_sub(1),
    )?)
}

#[tactic(auto, unfolding(crate::specs::StmtReading::indexed_target))]
fn indexed_target(
    alloc: Global,
    tokens: &mut Cursor<'_>,
    limits: Limits,
    word: Word,
) -> Result<Target, Failure>
    requires shallow { limits.depth < 2 ^ 32 }
    requires room { 0 < limits.brackets }
    ensures { Reads (spec.indexed_target (limits_of limits) word tokens.old) result tokens.new }
{
    let found = subscripts(
        alloc,
        tokens,
        limits.brackets,
        limits.depth.saturating_sub(1),
    )?;
    Ok(element_target(word, found))
}

/// What is assigned, behind its name.
#[tactic(auto, unfolding(crate::specs::StmtReading::after_target))]
pub fn after_target(
    alloc: Global,
    tokens: &mut Cursor<'_>,
    limits: Limits,
    word: Word,
) -> Result<Target, Failure>
    requires { limits.depth < 2 ^ 32 }
    ensures { Reads (spec.after_target (limits_of limits) word tokens.old) result tokens.new }
{
    if tokens.sees(Symbol::Open) {
        if limits.brackets == 0 {
            return Err(tokens.refuse(Cause::Deep));
        }
        return indexed_target(alloc, tokens, limits, word);
    }
    Ok(scalar_target(alloc, word))
}

#[tactic(auto, unfolding(crate::specs::StmtReading::right_side))]
fn right_side(alloc: Global, tokens: &mut Cursor<'_>, limits: Limits) -> Result<Measured, Failure>
    requires { limits.depth < 2 ^ 32 }
    ensures { Reads (spec.right_side (limits_of limits) tokens.old) result tokens.new }
{
    let _equals = tokens.mark(Symbol::Equals)?;
    let value = whole_expr(alloc, tokens, limits)?;
    let _eol = tokens.mark(Symbol::LineEnd)?;
    Ok(value)
}

/// An assignment to this name.
#[tactic(auto, unfolding(crate::specs::StmtReading::assign_to))]
pub fn assign_to(
    alloc: Global,
    tokens: &mut Cursor<'_>,
    limits: Limits,
    atomic: bool,
    found: Block,
    word: Word,
) -> Result<Block, Failure>
    requires few { found.count + 1 < 2 ^ 64 }
    requires shallow { limits.depth < 2 ^ 32 }
    requires loops { found.loops ≤ found.count }
    ensures reads { Reads (spec.assign_to (limits_of limits) atomic found word tokens.old) result tokens.new }
    ensures few { IfOk result (λ x. x.loops ≤ x.count) }
{
    let target = after_target(alloc, tokens, limits, word)?;
    let value = right_side(alloc, tokens, limits)?;
    Ok(assigned(found, atomic, target, value)?)
}

#[tactic(auto, unfolding(crate::specs::StmtReading::assign))]
pub fn assign(
    alloc: Global,
    tokens: &mut Cursor<'_>,
    limits: Limits,
    atomic: bool,
    found: Block,
) -> Result<Block, Failure>
    requires few { found.count + 1 < 2 ^ 64 }
    requires shallow { limits.depth < 2 ^ 32 }
    requires loops { found.loops ≤ found.count }
    ensures reads { Reads (spec.assign (limits_of limits) atomic found tokens.old) result tokens.new }
    ensures few { IfOk result (λ x. x.loops ≤ x.count) }
{
    let word = tokens.name(alloc)?;
    assign_to(alloc, tokens, limits, atomic, found, word)
}
