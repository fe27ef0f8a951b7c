//! Clauses of directives as tokens.

ghost use Rattle.std.specs.Prelude.{◌≡◌, ◌++◌, ◌∷◌, [], OnOk, false, true};
ghost use Rattle.fl_printer.specs.Words as spec;

use crate::sign::schedule_text;
use crate::spaced::{Spaced, apart, bracketed_names, joined, names, plain_number};
use fl_ast::{Directive, ScheduleKind};
use fl_base::{Items, Memory, Name};
use std::alloc::Global;

fn default(alloc: Global, line: &mut Items<Spaced>, none: bool) -> Result<(), Memory>
    ensures { OnOk result (line.new ≡ line.old ++ spec.default_words none) }
{
    if !none {
        return Ok(());
    }
    apart(alloc, line, b"default")
        .and(joined(alloc, line, b"("))
        .and(joined(alloc, line, b"none"))
        .and(joined(alloc, line, b")"))
}

fn list(
    alloc: Global,
    line: &mut Items<Spaced>,
    clause: &[u8],
    names: &[Name],
) -> Result<(), Memory>
    ensures { OnOk result (line.new ≡ line.old ++ spec.list_words clause.now names.now) }
{
    if names.is_empty() {
        return Ok(());
    }
    apart(alloc, line, clause).and(bracketed_names(alloc, line, names))
}

fn plus(alloc: Global, line: &mut Items<Spaced>) -> Result<(), Memory>
    ensures { OnOk result (line.new ≡ line.old ++ spec.plus_words) }
{
    apart(alloc, line, b"reduction")?;
    joined(alloc, line, b"(")?;
    joined(alloc, line, b"+")?;
    joined(alloc, line, b":")?;
    Ok(())
}

fn reduction(alloc: Global, line: &mut Items<Spaced>, list: &[Name]) -> Result<(), Memory>
    ensures { OnOk result (line.new ≡ line.old ++ spec.reduction_words list.now) }
{
    if list.is_empty() {
        return Ok(());
    }
    plus(alloc, line)
        .and(names(alloc, line, true, list))
        .and(joined(alloc, line, b")"))
}

fn collapse(alloc: Global, line: &mut Items<Spaced>, loops: u32) -> Result<(), Memory>
    ensures { OnOk result (line.new ≡ line.old ++ spec.collapse_words loops) }
{
    if loops == 0 {
        return Ok(());
    }
    apart(alloc, line, b"collapse")
        .and(joined(alloc, line, b"("))
        .and(plain_number(alloc, line, false, loops))
        .and(joined(alloc, line, b")"))
}

fn chunk(alloc: Global, line: &mut Items<Spaced>, chunk: Option<u32>) -> Result<(), Memory>
    ensures { OnOk result (line.new ≡ line.old ++ spec.chunk_words chunk) }
{
    match chunk {
        None => Ok(()),
        Some(size) => joined(alloc, line, b",").and(plain_number(alloc, line, true, size)),
    }
}

fn schedule(
    alloc: Global,
    line: &mut Items<Spaced>,
    schedule: Option<(ScheduleKind, Option<u32>)>,
) -> Result<(), Memory>
    ensures { OnOk result (line.new ≡ line.old ++ spec.schedule_words schedule) }
{
    match schedule {
        None => Ok(()),
        Some((kind, size)) => apart(alloc, line, b"schedule")
            .and(joined(alloc, line, b"("))
            .and(joined(alloc, line, schedule_text(kind)))
            .and(chunk(alloc, line, size))
            .and(joined(alloc, line, b")")),
    }
}

/// Adds the clauses of a directive, in their order.
pub fn clauses(alloc: Global, line: &mut Items<Spaced>, directive: &Directive) -> Result<(), Memory>
    ensures { OnOk result (line.new ≡ line.old ++ spec.clause_words directive.now) }
{
    default(alloc, line, directive.none)?;
    list(alloc, line, b"private", directive.privates.as_slice())?;
    list(alloc, line, b"firstprivate", directive.firsts.as_slice())?;
    list(alloc, line, b"shared", directive.shareds.as_slice())?;
    reduction(alloc, line, directive.pluses.as_slice())?;
    collapse(alloc, line, directive.collapse)?;
    schedule(alloc, line, directive.schedule)?;
    Ok(())
}
