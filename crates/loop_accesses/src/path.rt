ghost use Rattle.std.specs.Prelude.{◌≡◌, ◌++◌, OnOk, IfOk};
ghost use Rattle.loop_accesses.specs.Views.{steps_of};

use fl_base::{Items, Memory};
use fl_types::PathStep;
use std::alloc::Global;

/// The steps from a loop's body to a statement in it.
#[derive(Clone, Copy)]
pub enum Path<'a> {
    Start,
    Then { outer: &'a Path<'a>, step: PathStep },
}

impl<'a> Path<'a> {
    fn push_steps(&self, steps: &mut Items<PathStep>) -> Result<(), Memory>
        ensures { OnOk result (steps.new ≡ steps.old ++ steps_of self.now) }
    {
        match self {
            Path::Start => Ok(()),
            Path::Then { outer, step } => {
                outer.push_steps(steps)?;
                steps.push(*step)?;
                Ok(())
            }
        }
    }

    /// The steps, the outermost first.
    pub fn steps(&self, alloc: Global) -> Result<Items<PathStep>, Memory>
        ensures { IfOk result (λ steps. steps ≡ steps_of self.now) }
    {
        let mut steps = Items::new(alloc);
        self.push_steps(&mut steps)?;
        Ok(steps)
    }
}
