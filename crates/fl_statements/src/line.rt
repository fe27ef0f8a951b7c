//! The first and the last lines of loops.

ghost use Rattle.std.specs.Prelude.{◌≡◌, ◌<◌, ◌^◌};
ghost use Rattle.parsing.specs.Code.{Reads};
ghost use Rattle.fl_statements.specs.Limits.{limits_of};
ghost use Rattle.fl_statements.specs.StmtReading as spec;

use crate::assign::whole_expr;
use crate::block::{LoopLine, loop_line_of};
use crate::limit::Limits;
use fl_ast::Expr;
use fl_base::Boxed;
use fl_expressions::Measured;
use parsing::{Cursor, Failure, Symbol, Word};
use std::alloc::Global;

/// The last line of a loop.
#[tactic(auto, unfolding(crate::specs::StmtReading::end_do))]
pub fn end_do(tokens: &mut Cursor<'_>) -> Result<u32, Failure>
    ensures { Reads (spec.end_do tokens.old) result tokens.new }
{
    if tokens.sees(Symbol::EndDo) {
        let _enddo = tokens.mark(Symbol::EndDo)?;
        return tokens.mark(Symbol::LineEnd);
    }
    let _end = tokens.mark(Symbol::End)?;
    let _do = tokens.mark(Symbol::Do)?;
    tokens.mark(Symbol::LineEnd)
}

#[tactic(auto, unfolding(crate::specs::StmtReading::loop_name))]
fn loop_name(alloc: Global, tokens: &mut Cursor<'_>) -> Result<(u32, Word), Failure>
    ensures { Reads (spec.loop_name tokens.old) result tokens.new }
{
    let line = tokens.mark(Symbol::Do)?;
    let word = tokens.name(alloc)?;
    let _equals = tokens.mark(Symbol::Equals)?;
    Ok((line, word))
}

#[tactic(auto, unfolding(crate::specs::StmtReading::first_bound))]
fn first_bound(alloc: Global, tokens: &mut Cursor<'_>, limits: Limits) -> Result<Measured, Failure>
    requires { limits.depth < 2 ^ 32 }
    ensures { Reads (spec.first_bound (limits_of limits) tokens.old) result tokens.new }
{
    let first = whole_expr(alloc, tokens, limits)?;
    let _comma = tokens.mark(Symbol::Comma)?;
    Ok(first)
}

#[tactic(auto, unfolding(crate::specs::StmtReading::loop_step))]
fn loop_step(
    alloc: Global,
    tokens: &mut Cursor<'_>,
    limits: Limits,
) -> Result<Option<Boxed<Expr>>, Failure>
    requires { limits.depth < 2 ^ 32 }
    ensures { Reads (spec.loop_step (limits_of limits) tokens.old) result tokens.new }
{
    if tokens.sees(Symbol::Comma) {
        let _comma = tokens.mark(Symbol::Comma)?;
        let step = whole_expr(alloc, tokens, limits)?;
        return Ok(Some(step.expr));
    }
    Ok(None)
}

/// The first line of a loop.
#[tactic(auto, unfolding(crate::specs::StmtReading::loop_line))]
pub fn loop_line(
    alloc: Global,
    tokens: &mut Cursor<'_>,
    limits: Limits,
) -> Result<LoopLine, Failure>
    requires { limits.depth < 2 ^ 32 }
    ensures { Reads (spec.loop_line (limits_of limits) tokens.old) result tokens.new }
{
    let (line, word) = loop_name(alloc, tokens)?;
    let first = first_bound(alloc, tokens, limits)?;
    let last = whole_expr(alloc, tokens, limits)?;
    let step = loop_step(alloc, tokens, limits)?;
    let _eol = tokens.mark(Symbol::LineEnd)?;
    Ok(loop_line_of(line, word, first, last, step))
}
