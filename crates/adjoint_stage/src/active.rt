//! The active names, or the refusal of the first name that is no argument of the ring kind.

ghost use Rattle.std.specs.Prelude.{◌≡◌, None, IfOk};
ghost use Rattle.activity.specs.Active.{AreActive, first_misfit};
ghost use Rattle.ending.specs.Stage.{IsPart, IsSaying};
ghost use Rattle.adjoint_stage.specs.Adjoints.{say_misfit, asked_stage};

use activity::{ActivityError, active};
use ending::{Early, Verdict, said_name};
use fl_base::Name;
use fl_types::{NameSet, Typed};
use std::alloc::Global;

/// What is said where there are no active names.
fn misfit_refused(alloc: Global, error: ActivityError) -> Early
    ensures { IsSaying (say_misfit error) result }
{
    match error {
        ActivityError::NotRing { name } => said_name(
            alloc,
            Verdict::Refused,
            b"refused name ",
            &name,
        ),
        ActivityError::Memory => Early::Memory,
    }
}

/// The active names of a program, or the refusal of the first name that is asked for and is no argument of the ring kind.
pub fn active_of(alloc: Global, typed: &Typed, of: &[Name], wrt: &[Name]) -> Result<NameSet, Early>
    ensures part { IsPart (λ _. tt {0}) (asked_stage typed.now of.now wrt.now) result }
    ensures active { IfOk result (λ set. AreActive typed.now of.now wrt.now set.names) }
    ensures fits { IfOk result (λ _. first_misfit typed.now of.now wrt.now ≡ None) }
{
    match active(alloc, typed, of, wrt) {
        Ok(set) => Ok(set),
        Err(error) => Err(misfit_refused(alloc, error)),
    }
}
