ghost use Rattle.ending.specs.Stage.{IsSaying};
ghost use Rattle.data_stages.specs.Faults.{say_data};

use crate::line::{file_fault, name_fault, number_fault, shape_fault};
use data_io::DataError;
use ending::{Early, Verdict, said};
use std::alloc::Global;

/// What is said of a data file, a seed file or a direction file, `file` being its word in the text.
pub(crate) fn data_refused(alloc: Global, file: &[u8], error: DataError) -> Early
    ensures { IsSaying (say_data file.now error) result }
{
    match error {
        DataError::NotJson => file_fault(alloc, file, b"not JSON"),
        DataError::NotObject => file_fault(alloc, file, b"not an object"),
        DataError::Missing { name } => name_fault(alloc, file, &name, b"missing"),
        DataError::Extra { name } => name_fault(alloc, file, &name, b"extra"),
        DataError::NotWhole { name, at } => number_fault(alloc, file, &name, b"not whole", at),
        DataError::Shape { name, want, got } => shape_fault(alloc, file, &name, want, got),
        DataError::IndexRange { name, at } => number_fault(alloc, file, &name, b"index range", at),
        DataError::TooManySteps => said(alloc, Verdict::OverLimit, b"limit steps 1048576\n"),
        DataError::Memory => Early::Memory,
    }
}
