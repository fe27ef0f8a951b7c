//! Declarations as tokens.

ghost use Rattle.std.specs.Prelude.{◌≡◌, ◌++◌, ◌∷◌, [], OnOk, decimal, false, true};
ghost use Rattle.fl_printer.specs.Words as spec;

use crate::sign::{intent_text, sign_text};
use crate::spaced::{Spaced, apart, comma, joined, plain_number, word};
use fl_ast::{Bound, Decl, Dim, Factor, Intent, Sign, Term};
use fl_base::{Items, Memory};
use std::alloc::Global;

fn factor(
    alloc: Global,
    line: &mut Items<Spaced>,
    blank: bool,
    factor: &Factor,
) -> Result<(), Memory>
    ensures { OnOk result (line.new ≡ line.old ++ spec.factor_words blank factor.now) }
{
    match factor {
        Factor::Lit(value) => plain_number(alloc, line, blank, *value),
        Factor::Minus(value) => {
            word(alloc, line, blank, b"-").and(plain_number(alloc, line, false, *value))
        }
        Factor::Scalar(name) => word(alloc, line, blank, name.bytes()),
    }
}

fn term(alloc: Global, line: &mut Items<Spaced>, blank: bool, term: &Term) -> Result<(), Memory>
    ensures { OnOk result (line.new ≡ line.old ++ spec.term_words blank term.now) }
{
    factor(alloc, line, blank, &term.first)?;
    if let Some(second) = &term.second {
        return joined(alloc, line, b"*").and(factor(alloc, line, false, second));
    }
    Ok(())
}

fn rest(alloc: Global, line: &mut Items<Spaced>, rest: &Option<(Sign, Term)>) -> Result<(), Memory>
    ensures { OnOk result (line.new ≡ line.old ++ spec.rest_words rest.now) }
{
    match rest {
        None => Ok(()),
        Some((sign, second)) => {
            joined(alloc, line, sign_text(*sign)).and(term(alloc, line, false, second))
        }
    }
}

fn bound(alloc: Global, line: &mut Items<Spaced>, blank: bool, bound: &Bound) -> Result<(), Memory>
    ensures { OnOk result (line.new ≡ line.old ++ spec.bound_words blank bound.now) }
{
    term(alloc, line, blank, &bound.first).and(rest(alloc, line, &bound.rest))
}

fn range(alloc: Global, line: &mut Items<Spaced>, blank: bool, dim: &Dim) -> Result<(), Memory>
    ensures { OnOk result (line.new ≡ line.old ++ spec.range_words blank dim.now.lower dim.now.upper) }
{
    match &dim.lower {
        None => bound(alloc, line, blank, &dim.upper),
        Some(lower) => bound(alloc, line, blank, lower)
            .and(joined(alloc, line, b":"))
            .and(bound(alloc, line, false, &dim.upper)),
    }
}

fn dims(alloc: Global, line: &mut Items<Spaced>, all: &[Dim]) -> Result<(), Memory>
    ensures { OnOk result (line.new ≡ line.old ++ spec.dims_from false all.now) }
{
    let mut later = false;
    for dim in all {
        comma(alloc, line, later).and(range(alloc, line, later, dim))?;
        later = true;
    }
    Ok(())
}

fn shape(alloc: Global, line: &mut Items<Spaced>, all: &[Dim]) -> Result<(), Memory>
    ensures { OnOk result (line.new ≡ line.old ++ spec.shape_words all.now) }
{
    if all.is_empty() {
        return Ok(());
    }
    joined(alloc, line, b"(")
        .and(dims(alloc, line, all))
        .and(joined(alloc, line, b")"))
}

fn intent(alloc: Global, line: &mut Items<Spaced>, intent: Intent) -> Result<(), Memory>
    ensures { OnOk result (line.new ≡ line.old ++ spec.intent_words intent) }
{
    if let Intent::Unsaid = intent {
        return Ok(());
    }
    joined(alloc, line, b",")
        .and(apart(alloc, line, b"intent"))
        .and(joined(alloc, line, b"("))
        .and(joined(alloc, line, intent_text(intent)))
        .and(joined(alloc, line, b")"))
}

fn kind(alloc: Global, line: &mut Items<Spaced>, bytes: u32) -> Result<(), Memory>
    ensures { OnOk result (line.new ≡ line.old ++ spec.kind_words bytes) }
{
    joined(alloc, line, b"integer")
        .and(joined(alloc, line, b"("))
        .and(joined(alloc, line, b"kind"))
        .and(joined(alloc, line, b"="))
        .and(plain_number(alloc, line, false, bytes))
        .and(joined(alloc, line, b")"))
}

/// Adds a declaration.
pub fn decl(alloc: Global, line: &mut Items<Spaced>, decl: &Decl) -> Result<(), Memory>
    ensures { OnOk result (line.new ≡ line.old ++ spec.decl_words decl.now) }
{
    kind(alloc, line, decl.bytes)
        .and(intent(alloc, line, decl.intent))
        .and(apart(alloc, line, b"::"))
        .and(apart(alloc, line, decl.name.bytes()))
        .and(shape(alloc, line, decl.dims.as_slice()))
}
