//! Directives.

ghost use Rattle.std.specs.Prelude.{◌≡◌, true, IfOk};
ghost use Rattle.parsing.specs.Code.{Reads};
ghost use Rattle.omp_clauses.specs.LineReading as spec;

use crate::clause::clauses;
use crate::state::Clauses;
use fl_ast::Directive;
use parsing::{Cursor, Failure, Symbol};
use std::alloc::Global;

/// What a directive is (OpenMP 5.2, chapters 10, 11 and 15).
#[derive(Drop)]
pub enum DirectiveLine {
    ParallelDo(Directive),
    EndParallelDo,
    Atomic,
    EndAtomic,
}

/// The `parallel do` behind a sentinel in this line, up to the end of its line.
#[tactic(auto, unfolding(crate::specs::LineReading::parallel_do))]
pub fn parallel_do(alloc: Global, tokens: &mut Cursor<'_>, line: u32) -> Result<Directive, Failure>
    ensures { Reads (spec.parallel_do true line tokens.old) result tokens.new }
{
    let _parallel = tokens.mark(Symbol::Parallel)?;
    let _do = tokens.mark(Symbol::Do)?;
    let found = clauses(alloc, tokens, Clauses::new(alloc, line))?;
    let _eol = tokens.mark(Symbol::LineEnd)?;
    Ok(found.into_directive())
}

#[tactic(auto, unfolding(crate::specs::LineReading::loop_line))]
fn loop_line(alloc: Global, tokens: &mut Cursor<'_>, line: u32) -> Result<DirectiveLine, Failure>
    ensures { Reads (spec.loop_line true line tokens.old) result tokens.new }
{
    let directive = parallel_do(alloc, tokens, line)?;
    Ok(DirectiveLine::ParallelDo(directive))
}

#[tactic(auto, unfolding(crate::specs::LineReading::after_atomic))]
fn after_atomic(tokens: &mut Cursor<'_>) -> Result<u32, Failure>
    ensures { Reads (spec.after_atomic tokens.old) result tokens.new }
{
    if tokens.sees(Symbol::Update) {
        let _update = tokens.mark(Symbol::Update)?;
        return tokens.mark(Symbol::LineEnd);
    }
    tokens.mark(Symbol::LineEnd)
}

/// The `atomic` behind a sentinel, up to the end of its line, whose line it gives.
#[tactic(auto, unfolding(crate::specs::LineReading::atomic))]
pub fn atomic(tokens: &mut Cursor<'_>) -> Result<u32, Failure>
    ensures { Reads (spec.atomic tokens.old) result tokens.new }
{
    let _atomic = tokens.mark(Symbol::Atomic)?;
    after_atomic(tokens)
}

#[tactic(auto, unfolding(crate::specs::LineReading::atomic_line))]
fn atomic_line(tokens: &mut Cursor<'_>) -> Result<DirectiveLine, Failure>
    ensures { Reads (spec.atomic_line tokens.old) result tokens.new }
{
    let _eol = atomic(tokens)?;
    Ok(DirectiveLine::Atomic)
}

/// The `parallel do` behind an `end`, up to the end of its line.
#[tactic(auto, unfolding(crate::specs::LineReading::end_parallel_do))]
pub fn end_parallel_do(tokens: &mut Cursor<'_>) -> Result<u32, Failure>
    ensures { Reads (spec.end_parallel_do tokens.old) result tokens.new }
{
    let _parallel = tokens.mark(Symbol::Parallel)?;
    let _do = tokens.mark(Symbol::Do)?;
    tokens.mark(Symbol::LineEnd)
}

/// The `atomic` behind an `end`, up to the end of its line.
#[tactic(auto, unfolding(crate::specs::LineReading::end_atomic))]
pub fn end_atomic(tokens: &mut Cursor<'_>) -> Result<u32, Failure>
    ensures { Reads (spec.end_atomic tokens.old) result tokens.new }
{
    let _atomic = tokens.mark(Symbol::Atomic)?;
    tokens.mark(Symbol::LineEnd)
}

#[tactic(auto, unfolding(crate::specs::LineReading::after_end))]
fn after_end(tokens: &mut Cursor<'_>) -> Result<DirectiveLine, Failure>
    ensures { Reads (spec.after_end tokens.old) result tokens.new }
{
    if tokens.sees(Symbol::Parallel) {
        let _eol = end_parallel_do(tokens)?;
        return Ok(DirectiveLine::EndParallelDo);
    }
    let _eol = end_atomic(tokens)?;
    Ok(DirectiveLine::EndAtomic)
}

#[tactic(auto, unfolding(crate::specs::LineReading::end_line))]
fn end_line(tokens: &mut Cursor<'_>) -> Result<DirectiveLine, Failure>
    ensures { Reads (spec.end_line tokens.old) result tokens.new }
{
    let _end = tokens.mark(Symbol::End)?;
    after_end(tokens)
}

#[tactic(auto, unfolding(crate::specs::LineReading::after_sentinel))]
fn after_sentinel(
    alloc: Global,
    tokens: &mut Cursor<'_>,
    line: u32,
) -> Result<DirectiveLine, Failure>
    ensures { Reads (spec.after_sentinel true line tokens.old) result tokens.new }
{
    if tokens.sees(Symbol::Parallel) {
        return loop_line(alloc, tokens, line);
    }
    if tokens.sees(Symbol::End) {
        return end_line(tokens);
    }
    atomic_line(tokens)
}

/// A directive, from its sentinel to the end of its line.
#[tactic(auto, unfolding(crate::specs::LineReading::directive_line))]
pub fn directive_line(alloc: Global, tokens: &mut Cursor<'_>) -> Result<DirectiveLine, Failure>
    ensures { Reads (spec.directive_line true tokens.old) result tokens.new }
{
    let line = tokens.mark(Symbol::Sentinel)?;
    after_sentinel(alloc, tokens, line)
}
