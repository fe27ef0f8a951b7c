ghost use Rattle.std.specs.Prelude.{◌≡◌, ◌≤◌, ◌^◌, [], length};
ghost use Rattle.fl_ast.specs.Tree.{program_tree};
ghost use Rattle.fl_types.specs.Sharing.{has_name};
ghost use Rattle.store_core.specs.Keys.{keys_of};
ghost use Rattle.store_core.specs.Places.{shapes_of};
ghost use Rattle.store_core.specs.Filled.{place_words};
ghost use Rattle.meaning.specs.Stops.{by_conflict};
ghost use Rattle.meaning.specs.Programs.{meaning};
ghost use Rattle.forward_run.specs.Swept.{ForwardsAs};

use crate::opening::open_program;
use crate::stop::ForwardStop;
use crate::sweep::{Forwarded, forward};
use fl_ast::Name;
use fl_types::Typed;
use footprint::Footprint;
use ring_core::Steps;
use std::alloc::Global;
use std::sync::ledger::Ledger;
use store_core::{Args, Layout};

/// Runs a program forward from its arguments, pushing the old contents of `pushed`, while the owner table looks for two
/// iterations of a parallel loop that clash.
pub fn forward_watched<L: Ledger>(
    alloc: Global,
    typed: &Typed,
    layout: &Layout,
    args: &Args,
    pushed: &[Name],
    steps: &mut Steps<L>,
) -> Result<Forwarded<Footprint>, ForwardStop>
    requires laid { layout.now ≡ shapes_of typed.now args.now.entries }
    requires few { length (keys_of layout.now) ≤ 2 ^ 20 }
    ensures { ForwardsAs (λ f. record { cells = f.cells.items; tape = f.tape }) by_conflict
        (meaning (program_tree typed.now) layout.now (λ x. has_name x pushed.now) (place_words layout.now args.now.entries) [])
        result steps.old steps.new }
{
    let opened = open_program(alloc, typed, layout, args, pushed)?;
    let watch = Footprint::new(alloc, opened.table.layout())?;
    forward(alloc, opened, watch, steps)
}
