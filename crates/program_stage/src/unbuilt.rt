ghost use Rattle.ending.specs.Stage.{IsSaid};
ghost use Rattle.ending.specs.declared.verdict.Verdict.TheVariants.{Refused};
ghost use Rattle.program_stage.specs.Lines.{not_built_line};

use ending::{Early, Verdict, said};
use std::alloc::Global;

/// What is said where a program, a file or a command goes beyond what is built so far.
pub fn not_built(alloc: Global) -> Early
    ensures { IsSaid Refused not_built_line result }
{
    said(alloc, Verdict::Refused, b"refused: not built\n")
}
