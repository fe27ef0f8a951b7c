ghost use Rattle.std.specs.Prelude.{◌≡◌, Ok, IfOk};
ghost use Rattle.ending.specs.Stage.{IsPart, IsSaying};
ghost use Rattle.fl_ast.specs.Readable.{IsReadable};
ghost use Rattle.fl_types.specs.Rows.{judged};
ghost use Rattle.program_stage.specs.Typing.{say_type, typed_stage};

use crate::line::{refused_line, refused_word};
use ending::Early;
use fl_ast::Program;
use fl_types::{TypeError, Typed};
use std::alloc::Global;
use typing::check;

/// What is said of a program that isn't typed.
fn type_refused(alloc: Global, error: TypeError) -> Early
    ensures { IsSaying (say_type error) result }
{
    match error {
        TypeError::Undeclared { line, name } => refused_word(alloc, line, b"undeclared ", &name),
        TypeError::Doubled { line, name } => refused_word(alloc, line, b"declared twice ", &name),
        TypeError::ReservedSuffix { line, name } => refused_word(
            alloc,
            line,
            b"reserved name ",
            &name,
        ),
        TypeError::LocalArray { line, name } => refused_word(alloc, line, b"local array ", &name),
        TypeError::Rank { line, name } => refused_word(alloc, line, b"rank ", &name),
        TypeError::LiteralRange { line } => refused_line(alloc, line, b"literal out of range"),
        TypeError::KindClash { line } => refused_line(alloc, line, b"kinds differ"),
        TypeError::DataDivision { line } => refused_line(alloc, line, b"division of data"),
        TypeError::DataToIndex { line } => refused_line(alloc, line, b"data as index"),
        TypeError::IntentIn { line, name } => refused_word(alloc, line, b"intent in ", &name),
        TypeError::SelfSubscript { line, name } => refused_word(
            alloc,
            line,
            b"self subscript ",
            &name,
        ),
        TypeError::LoopVarUse { line, name } => refused_word(alloc, line, b"loop variable ", &name),
        TypeError::PrivateUse { line, name } => refused_word(alloc, line, b"private ", &name),
        TypeError::ReductionUse { line, name } => refused_word(alloc, line, b"reduction ", &name),
        TypeError::AtomicForm { line } => refused_line(alloc, line, b"atomic form"),
        TypeError::NotShareable { line, name } => refused_word(
            alloc,
            line,
            b"not shareable ",
            &name,
        ),
        TypeError::Unlisted { line, name } => refused_word(alloc, line, b"unlisted ", &name),
        TypeError::MixedKinds { line, name } => refused_word(
            alloc,
            line,
            b"mixed data kinds ",
            &name,
        ),
        TypeError::CollapseForm { line } => refused_line(alloc, line, b"collapse form"),
        TypeError::Memory => Early::Memory,
    }
}

/// The typed program of a tree.
pub(crate) fn typed_of(alloc: Global, program: Program) -> Result<Typed, Early>
    requires { IsReadable program }
    ensures part { IsPart (λ typed. typed) (typed_stage program) result }
    ensures judged { IfOk result (λ typed. judged typed ≡ Ok typed) }
{
    match check(alloc, program) {
        Ok(typed) => Ok(typed),
        Err(error) => Err(type_refused(alloc, error)),
    }
}
