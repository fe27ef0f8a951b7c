ghost use Rattle.std.specs.Prelude.{◌≡◌, ◌<◌, ◌++◌, length, IfOk};
ghost use Rattle.ending.specs.declared.verdict.Verdict.TheVariants.{Trapped, OverLimit, Conflicted};
ghost use Rattle.ending.specs.Stage.{IsSaid, IsSaying};
ghost use Rattle.store_core.specs.Keys.{keys_of};
ghost use Rattle.run_stages.specs.Stops.{cause_text, trap_line, statements_line, place_text as place_text_lem, conflict_line, say_forward};

use ending::{Early, Verdict, said};
use fl_base::{Memory, Name};
use forward_run::ForwardStop;
use itoa::Buffer;
use meaning::{Cause, TrapAt};
use std::alloc::{AllocError, Global};
use store_core::Layout;
use touches::Conflict;

fn trap_text(alloc: Global, line: u32, phrase: &[u8]) -> Result<Vec<u8>, AllocError>
    ensures { IfOk result (λ text. text.items ≡ trap_line line phrase.now) }
{
    let mut buffer = Buffer::new();
    let mut text = Vec::from_slice(alloc, b"trap line ")?;
    text.extend_from_slice(buffer.format(line).as_bytes())?;
    text.extend_from_slice(b" ")?;
    text.extend_from_slice(phrase)?;
    text.extend_from_slice(b"\n")?;
    Ok(text)
}

fn trap_phrased(alloc: Global, line: u32, phrase: &[u8]) -> Early
    ensures { IsSaid Trapped (trap_line line phrase.now) result }
{
    match trap_text(alloc, line, phrase) {
        Ok(text) => Early::Said {
            verdict: Verdict::Trapped,
            text,
        },
        Err(_) => Early::Memory,
    }
}

fn with_name(alloc: Global, phrase: &[u8], name: &Name) -> Result<Vec<u8>, AllocError>
    ensures { IfOk result (λ text. text.items ≡ phrase.now ++ name.now) }
{
    let mut text = Vec::from_slice(alloc, phrase)?;
    text.extend_from_slice(name.bytes())?;
    Ok(text)
}

fn trap_named(alloc: Global, line: u32, phrase: &[u8], name: &Name) -> Early
    ensures { IsSaid Trapped (trap_line line (phrase.now ++ name.now)) result }
{
    match with_name(alloc, phrase, name) {
        Ok(whole) => trap_phrased(alloc, line, &whole),
        Err(_) => Early::Memory,
    }
}

/// A trap at a line of the program.
pub fn trap_said(alloc: Global, trap: TrapAt) -> Early
    ensures { IsSaid Trapped (trap_line trap.line (cause_text trap.cause)) result }
{
    let TrapAt { line, cause } = trap;
    match cause {
        Cause::Range => trap_phrased(alloc, line, b"range"),
        Cause::ZeroDivisor => trap_phrased(alloc, line, b"zero divisor"),
        Cause::Bounds { name } => trap_named(alloc, line, b"bounds ", &name),
        Cause::Unset { name } => trap_named(alloc, line, b"unset ", &name),
    }
}

/// More statement instances than there may be.
pub fn statements_said(alloc: Global) -> Early
    ensures { IsSaid OverLimit statements_line result }
{
    said(alloc, Verdict::OverLimit, b"limit statements 16777216\n")
}

/// The text of a place, nothing where there is none with the number.
fn place_text(alloc: Global, layout: &Layout, place: u32) -> Result<Vec<u8>, Memory>
    ensures { IfOk result (λ text. text.items ≡ place_text_lem layout.now place) }
{
    if place < layout.count() {
        layout.name_of(alloc, place)
    } else {
        Ok(Vec::new(alloc))
    }
}

fn conflict_text(alloc: Global, conflict: Conflict, place: &[u8]) -> Result<Vec<u8>, AllocError>
    ensures { IfOk result (λ text. text.items ≡ conflict_line conflict.line place.now conflict.first conflict.second) }
{
    let mut buffer = Buffer::new();
    let mut text = Vec::from_slice(alloc, b"conflict line ")?;
    text.extend_from_slice(buffer.format(conflict.line).as_bytes())?;
    text.extend_from_slice(b" ")?;
    text.extend_from_slice(place)?;
    text.extend_from_slice(b" iterations ")?;
    text.extend_from_slice(buffer.format(conflict.first).as_bytes())?;
    text.extend_from_slice(b" ")?;
    text.extend_from_slice(buffer.format(conflict.second).as_bytes())?;
    text.extend_from_slice(b"\n")?;
    Ok(text)
}

fn conflict_at(alloc: Global, conflict: Conflict, place: &[u8]) -> Early
    ensures { IsSaid Conflicted (conflict_line conflict.line place.now conflict.first conflict.second) result }
{
    match conflict_text(alloc, conflict, place) {
        Ok(text) => Early::Said {
            verdict: Verdict::Conflicted,
            text,
        },
        Err(_) => Early::Memory,
    }
}

/// Two iterations of a parallel loop that clash.
fn conflict_said(alloc: Global, layout: &Layout, conflict: Conflict) -> Early
    ensures { IsSaid Conflicted (conflict_line conflict.line (place_text_lem layout.now conflict.place) conflict.first conflict.second) result }
{
    match place_text(alloc, layout, conflict.place) {
        Ok(place) => conflict_at(alloc, conflict, &place),
        Err(Memory) => Early::Memory,
    }
}

/// What is said of a forward sweep that ended early.
pub(crate) fn stopped(alloc: Global, layout: &Layout, stop: ForwardStop) -> Early
    ensures { IsSaying (say_forward layout.now stop) result }
{
    match stop {
        ForwardStop::Trap(trap) => trap_said(alloc, trap),
        ForwardStop::Statements => statements_said(alloc),
        ForwardStop::Touches => said(alloc, Verdict::OverLimit, b"limit touches 16777216\n"),
        ForwardStop::Words => said(alloc, Verdict::OverLimit, b"limit tape 8388608\n"),
        ForwardStop::Conflict(conflict) => conflict_said(alloc, layout, conflict),
        ForwardStop::Memory => Early::Memory,
    }
}
