ghost use Rattle.ending.specs.Stage.{IsPart};
ghost use Rattle.program_stage.specs.Names.{names_stage};

use ending::{Early, Verdict, said_name};
use fl_base::Name;
use fl_types::Typed;
use std::alloc::Global;

/// Refuses the first name that is no ring argument.
pub fn check_names(alloc: Global, typed: &Typed, names: &[Name]) -> Result<(), Early>
    ensures { IsPart (λ _. tt {0}) (names_stage typed.now names.now) result }
{
    for name in names {
        if !typed.is_ring_argument(name) {
            return Err(said_name(alloc, Verdict::Refused, b"refused name ", name));
        }
    }
    Ok(())
}
