//! Whether a program is typed.

ghost use Rattle.std.specs.Prelude.{◌≡◌, IfOk};
ghost use Rattle.fl_base.specs.Finds.{Finds};
ghost use Rattle.fl_ast.specs.Readable.{IsReadable};
ghost use Rattle.fl_types.specs.Rows.{first_fault as first_fault_lem, judged};
ghost use Rattle.fl_types.specs.declared.typed.TypeError.TheVariants.{Memory as memory};

use crate::error::error_of;
use crate::whole::first_fault;
use fl_ast::Program;
use fl_base::Memory;
use fl_types::{TypeError, Typed};
use known_names::Indexed;
use std::alloc::Global;

/// The first fault in textual order.
fn first_error(alloc: Global, program: &Program) -> Result<Option<TypeError>, Memory>
    ensures { IfOk result (λ error. error ≡ first_fault_lem program.now) }
{
    let indexed = Indexed::of(alloc, program)?;
    match first_fault(&indexed) {
        None => Ok(None),
        Some(fault) => Ok(Some(error_of(alloc, fault)?)),
    }
}

/// Types a program, which it uses up, or tells its first fault in textual order.
pub fn check(alloc: Global, program: Program) -> Result<Typed, TypeError>
    requires { IsReadable program }
    ensures { Finds (λ typed. typed) memory (judged program) result }
{
    match first_error(alloc, &program) {
        Ok(None) => Ok(Typed::of(program)),
        Ok(Some(error)) => Err(error),
        Err(_) => Err(TypeError::Memory),
    }
}
