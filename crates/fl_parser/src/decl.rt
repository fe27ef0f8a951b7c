//! Declarations.

ghost use Rattle.std.specs.Prelude.{◌≡◌, ◌+◌, ◌<◌, ◌≤◌, IfOk, length};
ghost use Rattle.parsing.specs.Code.{Reads};
ghost use Rattle.parsing.specs.Reading as reading;
ghost use Rattle.fl_statements.specs.Limits.{limits_of};
ghost use Rattle.fl_parser.specs.Terminals as terminals;
ghost use Rattle.fl_parser.specs.Trees as trees;
ghost use Rattle.fl_parser.specs.UnitReading as spec;

use crate::dims::shape;
use fl_ast::{Decl, Dim, Intent, Kind};
use fl_base::{Items, Memory};
use fl_statements::{Limits, has_room};
use parsing::{Cause, Cursor, Failure, Symbol, Word};
use std::alloc::Global;

/// What the items of a declaration share.
#[derive(Clone, Copy)]
struct Head {
    line: u32,
    kind: Kind,
    bytes: u32,
    intent: Intent,
}

fn declared(
    mut found: Items<Decl>,
    head: Head,
    word: Word,
    dims: Items<Dim>,
) -> Result<Items<Decl>, Memory>
    ensures { IfOk result (λ x. x ≡ trees.declared found head.line (head.kind, head.bytes) head.intent word dims) }
{
    found.push(Decl {
        line: head.line,
        name: word.name,
        kind: head.kind,
        bytes: head.bytes,
        intent: head.intent,
        dims,
    })?;
    Ok(found)
}

fn kind_number(tokens: &mut Cursor<'_>) -> Result<(Kind, u32), Failure>
    ensures { Reads (reading.token terminals.kind_number tokens.old) result tokens.new }
{
    match tokens.ahead() {
        Some(Symbol::Four) => {
            let _number = tokens.mark(Symbol::Four)?;
            Ok((Kind::Index, 4))
        }
        Some(Symbol::Eight) => {
            let _number = tokens.mark(Symbol::Eight)?;
            Ok((Kind::Ring, 8))
        }
        _ => Err(tokens.refuse(Cause::Expected)),
    }
}

#[tactic(auto, unfolding(crate::specs::UnitReading::one_byte))]
fn one_byte(tokens: &mut Cursor<'_>) -> Result<(Kind, u32), Failure>
    ensures { Reads (spec.one_byte tokens.old) result tokens.new }
{
    tokens.spelled_number(b"1")?;
    Ok((Kind::Ring, 1))
}

#[tactic(auto, unfolding(crate::specs::UnitReading::two_bytes))]
fn two_bytes(tokens: &mut Cursor<'_>) -> Result<(Kind, u32), Failure>
    ensures { Reads (spec.two_bytes tokens.old) result tokens.new }
{
    tokens.spelled_number(b"2")?;
    Ok((Kind::Ring, 2))
}

/// A kind by its bytes, in just this spelling.
#[tactic(auto, unfolding(crate::specs::UnitReading::kind_value))]
fn kind_value(tokens: &mut Cursor<'_>) -> Result<(Kind, u32), Failure>
    ensures { Reads (spec.kind_value tokens.old) result tokens.new }
{
    if tokens.sees_spelled(b"1") {
        return one_byte(tokens);
    }
    if tokens.sees_spelled(b"2") {
        return two_bytes(tokens);
    }
    kind_number(tokens)
}

#[tactic(auto, unfolding(crate::specs::UnitReading::kind_word))]
fn kind_word(tokens: &mut Cursor<'_>) -> Result<(), Failure>
    ensures { Reads (spec.kind_word tokens.old) result tokens.new }
{
    if tokens.sees(Symbol::Kind) {
        let _kind = tokens.mark(Symbol::Kind)?;
        let _equals = tokens.mark(Symbol::Equals)?;
    }
    Ok(())
}

#[tactic(auto, unfolding(crate::specs::UnitReading::kind_brackets))]
fn kind_brackets(tokens: &mut Cursor<'_>) -> Result<(Kind, u32), Failure>
    ensures { Reads (spec.kind_brackets tokens.old) result tokens.new }
{
    let _open = tokens.mark(Symbol::Open)?;
    kind_word(tokens)?;
    let kind = kind_value(tokens)?;
    let _close = tokens.mark(Symbol::Close)?;
    Ok(kind)
}

#[tactic(auto, unfolding(crate::specs::UnitReading::kind))]
fn kind(tokens: &mut Cursor<'_>) -> Result<(Kind, u32), Failure>
    ensures { Reads (spec.kind tokens.old) result tokens.new }
{
    if tokens.sees(Symbol::Open) {
        return kind_brackets(tokens);
    }
    Ok((Kind::Index, 4))
}

#[tactic(auto, unfolding(crate::specs::UnitReading::inward))]
fn inward(tokens: &mut Cursor<'_>) -> Result<Intent, Failure>
    ensures { Reads (spec.inward tokens.old) result tokens.new }
{
    let _in = tokens.mark(Symbol::In)?;
    if tokens.sees(Symbol::Out) {
        let _out = tokens.mark(Symbol::Out)?;
        return Ok(Intent::Both);
    }
    Ok(Intent::ReadOnly)
}

#[tactic(auto, unfolding(crate::specs::UnitReading::outward))]
fn outward(tokens: &mut Cursor<'_>) -> Result<Intent, Failure>
    ensures { Reads (spec.outward tokens.old) result tokens.new }
{
    if tokens.sees(Symbol::Out) {
        let _out = tokens.mark(Symbol::Out)?;
        return Ok(Intent::WriteOnly);
    }
    let _inout = tokens.mark(Symbol::InOut)?;
    Ok(Intent::Both)
}

#[tactic(auto, unfolding(crate::specs::UnitReading::direction))]
fn direction(tokens: &mut Cursor<'_>) -> Result<Intent, Failure>
    ensures { Reads (spec.direction tokens.old) result tokens.new }
{
    if tokens.sees(Symbol::In) {
        return inward(tokens);
    }
    outward(tokens)
}

#[tactic(auto, unfolding(crate::specs::UnitReading::intent_list))]
fn intent_list(tokens: &mut Cursor<'_>) -> Result<Intent, Failure>
    ensures { Reads (spec.intent_list tokens.old) result tokens.new }
{
    let _comma = tokens.mark(Symbol::Comma)?;
    let _intent = tokens.mark(Symbol::Intent)?;
    let _open = tokens.mark(Symbol::Open)?;
    let intent = direction(tokens)?;
    let _close = tokens.mark(Symbol::Close)?;
    let _colons = tokens.mark(Symbol::Colons)?;
    Ok(intent)
}

#[tactic(auto, unfolding(crate::specs::UnitReading::colons))]
fn colons(tokens: &mut Cursor<'_>) -> Result<Intent, Failure>
    ensures { Reads (spec.colons tokens.old) result tokens.new }
{
    if tokens.sees(Symbol::Colons) {
        let _colons = tokens.mark(Symbol::Colons)?;
    }
    Ok(Intent::Unsaid)
}

#[tactic(auto, unfolding(crate::specs::UnitReading::intent))]
fn intent(tokens: &mut Cursor<'_>) -> Result<Intent, Failure>
    ensures { Reads (spec.intent tokens.old) result tokens.new }
{
    if tokens.sees(Symbol::Comma) {
        return intent_list(tokens);
    }
    colons(tokens)
}

#[tactic(auto, unfolding(crate::specs::UnitReading::item))]
fn item(
    alloc: Global,
    tokens: &mut Cursor<'_>,
    head: Head,
    found: Items<Decl>,
) -> Result<Items<Decl>, Failure>
    ensures { Reads (spec.item head.line (head.kind, head.bytes) head.intent found tokens.old) result tokens.new }
{
    let word = tokens.name(alloc)?;
    let dims = shape(alloc, tokens)?;
    Ok(declared(found, head, word, dims)?)
}

#[tactic(auto, unfolding(crate::specs::UnitReading::another_item))]
fn another_item(
    alloc: Global,
    tokens: &mut Cursor<'_>,
    limits: Limits,
    head: Head,
    found: Items<Decl>,
) -> Result<Items<Decl>, Failure>
    ensures { Reads (spec.another_item (limits_of limits) head.line (head.kind, head.bytes) head.intent found tokens.old) result tokens.new }
{
    let _comma = tokens.mark(Symbol::Comma)?;
    item(alloc, tokens, head, found)
}

fn items(
    alloc: Global,
    tokens: &mut Cursor<'_>,
    limits: Limits,
    head: Head,
    mut found: Items<Decl>,
) -> Result<Items<Decl>, Failure>
    ensures { Reads (spec.items (limits_of limits) head.line (head.kind, head.bytes) head.intent found tokens.old) result tokens.new }
{
    for _turn in 0..tokens.len() {
        if !tokens.sees(Symbol::Comma) {
            return Ok(found);
        }
        if !has_room(limits.names, found.len()) {
            return Err(tokens.refuse(Cause::Many));
        }
        found = another_item(alloc, tokens, limits, head, found)?;
    }
    Ok(found)
}

#[tactic(auto, unfolding(crate::specs::UnitReading::decl))]
fn decl(
    alloc: Global,
    tokens: &mut Cursor<'_>,
    limits: Limits,
    found: Items<Decl>,
) -> Result<Items<Decl>, Failure>
    ensures { Reads (spec.decl (limits_of limits) found tokens.old) result tokens.new }
{
    let line = tokens.mark(Symbol::Integer)?;
    let (kind, bytes) = kind(tokens)?;
    let intent = intent(tokens)?;
    let head = Head {
        line,
        kind,
        bytes,
        intent,
    };
    let first = item(alloc, tokens, head, found)?;
    let found = items(alloc, tokens, limits, head, first)?;
    let _eol = tokens.mark(Symbol::LineEnd)?;
    Ok(found)
}

/// The declarations of a unit.
pub fn decls(alloc: Global, tokens: &mut Cursor<'_>, limits: Limits) -> Result<Items<Decl>, Failure>
    ensures { Reads (spec.decls (limits_of limits) tokens.old) result tokens.new }
{
    let mut found = Items::new(alloc);
    for _turn in 0..tokens.len() {
        if !tokens.sees(Symbol::Integer) {
            return Ok(found);
        }
        if !has_room(limits.names, found.len()) {
            return Err(tokens.refuse(Cause::Many));
        }
        found = decl(alloc, tokens, limits, found)?;
    }
    Ok(found)
}
