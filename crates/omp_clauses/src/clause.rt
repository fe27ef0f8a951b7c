//! Clauses.

ghost use Rattle.std.specs.Prelude.{◌≡◌, true, IfOk};
ghost use Rattle.parsing.specs.Code.{Reads};
ghost use Rattle.parsing.specs.Reading as reading;
ghost use Rattle.parsing.specs.Terminal as terminal;
ghost use Rattle.omp_clauses.specs.ClauseReading as spec;
ghost use Rattle.omp_clauses.specs.Terminals as terminals;

use crate::state::{Clauses, Sharing};
use fl_ast::ScheduleKind;
use parsing::{Cause, Cursor, Failure, Fault, Number, Symbol, Word};
use std::alloc::Global;

type Schedule = (ScheduleKind, Option<u32>);

// ---- single tokens

fn sharing(tokens: &mut Cursor<'_>) -> Result<Sharing, Failure>
    ensures { Reads (reading.token (terminal.by terminals.sharing_by) tokens.old) result tokens.new }
{
    match tokens.ahead() {
        Some(Symbol::Private) => {
            let _word = tokens.mark(Symbol::Private)?;
            Ok(Sharing::Private)
        }
        Some(Symbol::FirstPrivate) => {
            let _word = tokens.mark(Symbol::FirstPrivate)?;
            Ok(Sharing::First)
        }
        Some(Symbol::Shared) => {
            let _word = tokens.mark(Symbol::Shared)?;
            Ok(Sharing::Shared)
        }
        _ => Err(tokens.refuse(Cause::Expected)),
    }
}

fn none(tokens: &mut Cursor<'_>) -> Result<bool, Failure>
    ensures { Reads (reading.token (terminal.by terminals.none_by) tokens.old) result tokens.new }
{
    match tokens.ahead() {
        Some(Symbol::NoneWord) => {
            let _word = tokens.mark(Symbol::NoneWord)?;
            Ok(true)
        }
        Some(Symbol::Shared) => {
            let _word = tokens.mark(Symbol::Shared)?;
            Ok(false)
        }
        _ => Err(tokens.refuse(Cause::Expected)),
    }
}

fn chunked_kind(tokens: &mut Cursor<'_>) -> Result<ScheduleKind, Failure>
    ensures { Reads (reading.token (terminal.by terminals.chunked_by) tokens.old) result tokens.new }
{
    match tokens.ahead() {
        Some(Symbol::Static) => {
            let _word = tokens.mark(Symbol::Static)?;
            Ok(ScheduleKind::Static)
        }
        Some(Symbol::Dynamic) => {
            let _word = tokens.mark(Symbol::Dynamic)?;
            Ok(ScheduleKind::Dynamic)
        }
        Some(Symbol::Guided) => {
            let _word = tokens.mark(Symbol::Guided)?;
            Ok(ScheduleKind::Guided)
        }
        _ => Err(tokens.refuse(Cause::Expected)),
    }
}

fn unchunked_kind(tokens: &mut Cursor<'_>) -> Result<ScheduleKind, Failure>
    ensures { Reads (reading.token (terminal.by terminals.unchunked_by) tokens.old) result tokens.new }
{
    match tokens.ahead() {
        Some(Symbol::Auto) => {
            let _word = tokens.mark(Symbol::Auto)?;
            Ok(ScheduleKind::Auto)
        }
        Some(Symbol::Runtime) => {
            let _word = tokens.mark(Symbol::Runtime)?;
            Ok(ScheduleKind::Runtime)
        }
        _ => Err(tokens.refuse(Cause::Expected)),
    }
}

fn sees_chunked(tokens: &Cursor<'_>) -> bool
    ensures { result ≡ reading.sees (terminal.on (terminal.reads terminals.chunked_by)) tokens.now }
{
    matches!(
        tokens.ahead(),
        Some(Symbol::Static | Symbol::Dynamic | Symbol::Guided)
    )
}

fn sees_sharing(tokens: &Cursor<'_>) -> bool
    ensures { result ≡ reading.sees (terminal.on (terminal.reads terminals.sharing_by)) tokens.now }
{
    matches!(
        tokens.ahead(),
        Some(Symbol::Private | Symbol::FirstPrivate | Symbol::Shared)
    )
}

pub fn begins_clause(symbol: Symbol) -> bool
    ensures { result ≡ spec.begins_clause symbol }
{
    matches!(
        symbol,
        Symbol::Default
            | Symbol::Schedule
            | Symbol::Collapse
            | Symbol::Private
            | Symbol::FirstPrivate
            | Symbol::Shared
            | Symbol::Reduction
    )
}

fn goes_on(symbol: Symbol) -> bool
    ensures { result ≡ spec.goes_on symbol }
{
    match symbol {
        Symbol::Comma => true,
        other => begins_clause(other),
    }
}

fn sees_more(tokens: &Cursor<'_>) -> bool
    ensures { result ≡ reading.sees (terminal.on spec.goes_on) tokens.now }
{
    match tokens.ahead() {
        Some(symbol) => goes_on(symbol),
        None => false,
    }
}

// ---- numbers

fn is_loop_count(number: Number) -> bool
    ensures { result ≡ terminals.is_loop_count number }
{
    number.value == 1 || number.value == 2
}

/// How many loops are one.
fn loop_count(tokens: &mut Cursor<'_>) -> Result<u32, Failure>
    ensures { Reads (reading.token terminals.loop_count tokens.old) result tokens.new }
{
    let refusal = Fault {
        cause: Cause::Expected,
        left: tokens.len(),
    };
    let number = tokens.number()?;
    if is_loop_count(number) {
        Ok(number.value as u32)
    } else {
        Err(Failure::Refused(refusal))
    }
}

// ---- clauses that stand once

#[tactic(auto, unfolding(crate::specs::ClauseReading::default_clause))]
fn default_clause(tokens: &mut Cursor<'_>, found: Clauses) -> Result<Clauses, Failure>
    ensures { Reads (spec.default_clause found tokens.old) result tokens.new }
{
    let _word = tokens.mark(Symbol::Default)?;
    let _open = tokens.mark(Symbol::Open)?;
    let none = none(tokens)?;
    let _close = tokens.mark(Symbol::Close)?;
    Ok(found.with_default(none))
}

#[tactic(auto, unfolding(crate::specs::ClauseReading::chunk_size))]
fn chunk_size(tokens: &mut Cursor<'_>) -> Result<Option<u32>, Failure>
    ensures { Reads (spec.chunk_size tokens.old) result tokens.new }
{
    if tokens.sees(Symbol::Comma) {
        let _comma = tokens.mark(Symbol::Comma)?;
        let size = tokens.plain_number(2_147_483_647)?;
        return Ok(Some(size.value as u32));
    }
    Ok(None)
}

#[tactic(auto, unfolding(crate::specs::ClauseReading::chunked))]
fn chunked(tokens: &mut Cursor<'_>) -> Result<Schedule, Failure>
    ensures { Reads (spec.chunked tokens.old) result tokens.new }
{
    let kind = chunked_kind(tokens)?;
    let size = chunk_size(tokens)?;
    Ok((kind, size))
}

#[tactic(auto, unfolding(crate::specs::ClauseReading::unchunked))]
fn unchunked(tokens: &mut Cursor<'_>) -> Result<Schedule, Failure>
    ensures { Reads (spec.unchunked tokens.old) result tokens.new }
{
    let kind = unchunked_kind(tokens)?;
    Ok((kind, None))
}

#[tactic(auto, unfolding(crate::specs::ClauseReading::schedule_kind))]
fn schedule_kind(tokens: &mut Cursor<'_>) -> Result<Schedule, Failure>
    ensures { Reads (spec.schedule_kind tokens.old) result tokens.new }
{
    if sees_chunked(tokens) {
        return chunked(tokens);
    }
    unchunked(tokens)
}

#[tactic(auto, unfolding(crate::specs::ClauseReading::schedule_clause))]
fn schedule_clause(tokens: &mut Cursor<'_>, found: Clauses) -> Result<Clauses, Failure>
    ensures { Reads (spec.schedule_clause found tokens.old) result tokens.new }
{
    let _word = tokens.mark(Symbol::Schedule)?;
    let _open = tokens.mark(Symbol::Open)?;
    let schedule = schedule_kind(tokens)?;
    let _close = tokens.mark(Symbol::Close)?;
    Ok(found.with_schedule(schedule))
}

#[tactic(auto, unfolding(crate::specs::ClauseReading::collapse_clause))]
fn collapse_clause(tokens: &mut Cursor<'_>, found: Clauses) -> Result<Clauses, Failure>
    ensures { Reads (spec.collapse_clause found tokens.old) result tokens.new }
{
    let _word = tokens.mark(Symbol::Collapse)?;
    let _open = tokens.mark(Symbol::Open)?;
    let loops = loop_count(tokens)?;
    let _close = tokens.mark(Symbol::Close)?;
    Ok(found.with_collapse(loops))
}

// ---- lists of names

/// A name, which is refused where a clause lists it already.
#[tactic(auto, using(crate::proofs::Names::refused_too, crate::proofs::Names::listed_name, crate::proofs::Names::unlisted_name))]
fn new_name(alloc: Global, tokens: &mut Cursor<'_>, found: &Clauses) -> Result<Word, Failure>
    ensures { Reads (spec.new_name true found.now tokens.old) result tokens.new }
{
    let refusal = Fault {
        cause: Cause::Twice,
        left: tokens.len(),
    };
    let word = tokens.name(alloc)?;
    if found.lists(&word.name) {
        return Err(Failure::Refused(refusal));
    }
    Ok(word)
}

#[tactic(auto, unfolding(crate::specs::ClauseReading::another_name))]
fn another_name(
    alloc: Global,
    tokens: &mut Cursor<'_>,
    sharing: Sharing,
    found: Clauses,
) -> Result<Clauses, Failure>
    ensures { Reads (spec.another_name true sharing found tokens.old) result tokens.new }
{
    let _comma = tokens.mark(Symbol::Comma)?;
    let word = new_name(alloc, tokens, &found)?;
    Ok(found.with_name(alloc, sharing, word.name)?)
}

fn more_names(
    alloc: Global,
    tokens: &mut Cursor<'_>,
    sharing: Sharing,
    mut found: Clauses,
) -> Result<Clauses, Failure>
    ensures { Reads (spec.more_names true sharing found tokens.old) result tokens.new }
{
    for _turn in 0..tokens.len() {
        if !tokens.sees(Symbol::Comma) {
            return Ok(found);
        }
        found = another_name(alloc, tokens, sharing, found)?;
    }
    Ok(found)
}

#[tactic(auto, unfolding(crate::specs::ClauseReading::names))]
fn names(
    alloc: Global,
    tokens: &mut Cursor<'_>,
    sharing: Sharing,
    found: Clauses,
) -> Result<Clauses, Failure>
    ensures { Reads (spec.names true sharing found tokens.old) result tokens.new }
{
    let word = new_name(alloc, tokens, &found)?;
    let first = found.with_name(alloc, sharing, word.name)?;
    let all = more_names(alloc, tokens, sharing, first)?;
    let _close = tokens.mark(Symbol::Close)?;
    Ok(all)
}

#[tactic(auto, unfolding(crate::specs::ClauseReading::sharing_clause))]
fn sharing_clause(
    alloc: Global,
    tokens: &mut Cursor<'_>,
    found: Clauses,
) -> Result<Clauses, Failure>
    ensures { Reads (spec.sharing_clause true found tokens.old) result tokens.new }
{
    let sharing = sharing(tokens)?;
    let _open = tokens.mark(Symbol::Open)?;
    names(alloc, tokens, sharing, found)
}

#[tactic(auto, unfolding(crate::specs::ClauseReading::reduction_clause))]
fn reduction_clause(
    alloc: Global,
    tokens: &mut Cursor<'_>,
    found: Clauses,
) -> Result<Clauses, Failure>
    ensures { Reads (spec.reduction_clause true found tokens.old) result tokens.new }
{
    let _word = tokens.mark(Symbol::Reduction)?;
    let _open = tokens.mark(Symbol::Open)?;
    let _plus = tokens.mark(Symbol::Plus)?;
    let _colon = tokens.mark(Symbol::Colon)?;
    names(alloc, tokens, Sharing::Plus, found)
}

#[tactic(auto, unfolding(crate::specs::ClauseReading::list_clause))]
fn list_clause(alloc: Global, tokens: &mut Cursor<'_>, found: Clauses) -> Result<Clauses, Failure>
    ensures { Reads (spec.list_clause true found tokens.old) result tokens.new }
{
    if sees_sharing(tokens) {
        return sharing_clause(alloc, tokens, found);
    }
    reduction_clause(alloc, tokens, found)
}

// ---- all clauses

#[tactic(auto, unfolding(crate::specs::ClauseReading::clause))]
fn clause(alloc: Global, tokens: &mut Cursor<'_>, found: Clauses) -> Result<Clauses, Failure>
    ensures { Reads (spec.clause true found tokens.old) result tokens.new }
{
    if tokens.sees(Symbol::Default) {
        if found.has_default() {
            return Err(tokens.refuse(Cause::Twice));
        }
        return default_clause(tokens, found);
    }
    if tokens.sees(Symbol::Schedule) {
        if found.has_schedule() {
            return Err(tokens.refuse(Cause::Twice));
        }
        return schedule_clause(tokens, found);
    }
    if tokens.sees(Symbol::Collapse) {
        if found.has_collapse() {
            return Err(tokens.refuse(Cause::Twice));
        }
        return collapse_clause(tokens, found);
    }
    list_clause(alloc, tokens, found)
}

#[tactic(auto, unfolding(crate::specs::ClauseReading::comma_clause))]
fn comma_clause(alloc: Global, tokens: &mut Cursor<'_>, found: Clauses) -> Result<Clauses, Failure>
    ensures { Reads (spec.comma_clause true found tokens.old) result tokens.new }
{
    let _comma = tokens.mark(Symbol::Comma)?;
    clause(alloc, tokens, found)
}

#[tactic(auto, unfolding(crate::specs::ClauseReading::next_clause))]
fn next_clause(alloc: Global, tokens: &mut Cursor<'_>, found: Clauses) -> Result<Clauses, Failure>
    ensures { Reads (spec.next_clause true found tokens.old) result tokens.new }
{
    if tokens.sees(Symbol::Comma) {
        return comma_clause(alloc, tokens, found);
    }
    clause(alloc, tokens, found)
}

/// All clauses of a directive.
pub fn clauses(
    alloc: Global,
    tokens: &mut Cursor<'_>,
    mut found: Clauses,
) -> Result<Clauses, Failure>
    ensures { Reads (spec.clauses true found tokens.old) result tokens.new }
{
    for _turn in 0..tokens.len() {
        if !sees_more(tokens) {
            return Ok(found);
        }
        found = next_clause(alloc, tokens, found)?;
    }
    Ok(found)
}
