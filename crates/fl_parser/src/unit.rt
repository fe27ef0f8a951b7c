//! The unit.

ghost use Rattle.std.specs.Prelude.{◌≡◌, ◌<◌, ◌^◌, ◌++◌, ◌∷◌, [], IfOk};
ghost use Rattle.parsing.specs.Code.{Reads};
ghost use Rattle.fl_statements.specs.Limits.{limits_of};
ghost use Rattle.fl_parser.specs.UnitReading as spec;

use crate::decl::decls;
use fl_ast::Program;
use fl_base::{Items, Memory, Name};
use fl_statements::{Block, Limits, block_from, stmts};
use parsing::{Cursor, Failure, Symbol};
use std::alloc::Global;

/// The first line of a unit.
#[derive(Drop)]
pub struct UnitHead {
    pub line: u32,
    pub name: Name,
    pub args: Items<Name>,
}

fn with(mut found: Items<Name>, name: Name) -> Result<Items<Name>, Memory>
    ensures { IfOk result (λ x. x ≡ found ++ name ∷ []) }
{
    found.push(name)?;
    Ok(found)
}

#[tactic(auto, unfolding(crate::specs::UnitReading::another_arg))]
fn another_arg(
    alloc: Global,
    tokens: &mut Cursor<'_>,
    found: Items<Name>,
) -> Result<Items<Name>, Failure>
    ensures { Reads (spec.another_arg found tokens.old) result tokens.new }
{
    let _comma = tokens.mark(Symbol::Comma)?;
    let word = tokens.name(alloc)?;
    Ok(with(found, word.name)?)
}

fn more_args(
    alloc: Global,
    tokens: &mut Cursor<'_>,
    mut found: Items<Name>,
) -> Result<Items<Name>, Failure>
    ensures { Reads (spec.more_args found tokens.old) result tokens.new }
{
    for _turn in 0..tokens.len() {
        if !tokens.sees(Symbol::Comma) {
            return Ok(found);
        }
        found = another_arg(alloc, tokens, found)?;
    }
    Ok(found)
}

#[tactic(auto, unfolding(crate::specs::UnitReading::some_args))]
fn some_args(alloc: Global, tokens: &mut Cursor<'_>) -> Result<Items<Name>, Failure>
    ensures { Reads (spec.some_args tokens.old) result tokens.new }
{
    let word = tokens.name(alloc)?;
    let first = with(Items::new(alloc), word.name)?;
    more_args(alloc, tokens, first)
}

#[tactic(auto, unfolding(crate::specs::UnitReading::listed_args))]
fn listed_args(alloc: Global, tokens: &mut Cursor<'_>) -> Result<Items<Name>, Failure>
    ensures { Reads (spec.listed_args tokens.old) result tokens.new }
{
    if tokens.sees_name() {
        return some_args(alloc, tokens);
    }
    Ok(Items::new(alloc))
}

#[tactic(auto, unfolding(crate::specs::UnitReading::bracketed_args))]
fn bracketed_args(alloc: Global, tokens: &mut Cursor<'_>) -> Result<Items<Name>, Failure>
    ensures { Reads (spec.bracketed_args tokens.old) result tokens.new }
{
    let _open = tokens.mark(Symbol::Open)?;
    let found = listed_args(alloc, tokens)?;
    let _close = tokens.mark(Symbol::Close)?;
    Ok(found)
}

#[tactic(auto, unfolding(crate::specs::UnitReading::args))]
fn args(alloc: Global, tokens: &mut Cursor<'_>) -> Result<Items<Name>, Failure>
    ensures { Reads (spec.args tokens.old) result tokens.new }
{
    if tokens.sees(Symbol::Open) {
        return bracketed_args(alloc, tokens);
    }
    Ok(Items::new(alloc))
}

#[tactic(auto, unfolding(crate::specs::UnitReading::implicit))]
fn implicit(tokens: &mut Cursor<'_>) -> Result<(), Failure>
    ensures { Reads (spec.implicit tokens.old) result tokens.new }
{
    if tokens.sees(Symbol::Implicit) {
        let _implicit = tokens.mark(Symbol::Implicit)?;
        let _none = tokens.mark(Symbol::NoneWord)?;
        let _eol = tokens.mark(Symbol::LineEnd)?;
    }
    Ok(())
}

#[tactic(auto, unfolding(crate::specs::UnitReading::closing))]
fn closing(tokens: &mut Cursor<'_>, name: &Name) -> Result<u32, Failure>
    ensures { Reads (spec.closing name.now tokens.old) result tokens.new }
{
    if tokens.sees_word() {
        tokens.same_word(name)?;
    }
    tokens.mark(Symbol::LineEnd)
}

#[tactic(auto, unfolding(crate::specs::UnitReading::end_word))]
fn end_word(tokens: &mut Cursor<'_>, name: &Name) -> Result<u32, Failure>
    ensures { Reads (spec.end_word name.now tokens.old) result tokens.new }
{
    let _end = tokens.mark(Symbol::End)?;
    if tokens.sees(Symbol::Subroutine) {
        let _subroutine = tokens.mark(Symbol::Subroutine)?;
        return closing(tokens, name);
    }
    tokens.mark(Symbol::LineEnd)
}

/// The last line of the unit of this name.
#[tactic(auto, unfolding(crate::specs::UnitReading::end_unit))]
pub fn end_unit(tokens: &mut Cursor<'_>, name: &Name) -> Result<u32, Failure>
    ensures { Reads (spec.end_unit name.now tokens.old) result tokens.new }
{
    if tokens.sees(Symbol::EndSubroutine) {
        let _end = tokens.mark(Symbol::EndSubroutine)?;
        return closing(tokens, name);
    }
    end_word(tokens, name)
}

/// The lines of a unit before its declarations.
#[tactic(auto, unfolding(crate::specs::UnitReading::unit_head))]
pub fn unit_head(alloc: Global, tokens: &mut Cursor<'_>) -> Result<UnitHead, Failure>
    ensures { Reads (spec.unit_head tokens.old) result tokens.new }
{
    let line = tokens.mark(Symbol::Subroutine)?;
    let name = tokens.word(alloc)?.name;
    let args = args(alloc, tokens)?;
    let _eol = tokens.mark(Symbol::LineEnd)?;
    implicit(tokens)?;
    Ok(UnitHead { line, name, args })
}

/// The statements of a unit.
#[tactic(auto, unfolding(crate::specs::UnitReading::body))]
fn body(alloc: Global, tokens: &mut Cursor<'_>, limits: Limits) -> Result<Block, Failure>
    requires shallow { limits.depth < 2 ^ 32 }
    requires fits { limits.statements < 2 ^ 32 }
    ensures { Reads (spec.body (limits_of limits) tokens.old) result tokens.new }
{
    let start = block_from(alloc, 0, 0);
    Ok(stmts(alloc, tokens, limits, limits.blocks, false, start)?)
}

/// A unit.
#[tactic(auto, unfolding(crate::specs::UnitReading::unit))]
pub fn unit(alloc: Global, tokens: &mut Cursor<'_>, limits: Limits) -> Result<Program, Failure>
    requires shallow { limits.depth < 2 ^ 32 }
    requires fits { limits.statements < 2 ^ 32 }
    ensures { Reads (spec.unit (limits_of limits) tokens.old) result tokens.new }
{
    let head = unit_head(alloc, tokens)?;
    let decls = decls(alloc, tokens, limits)?;
    let body = body(alloc, tokens, limits)?.stmts;
    let _end = end_unit(tokens, &head.name)?;
    Ok(Program {
        line: head.line,
        name: head.name,
        args: head.args,
        decls,
        body,
    })
}
