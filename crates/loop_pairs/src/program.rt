//! What is known of all loops of a program.

ghost use Rattle.std.specs.Prelude.{◌≡◌, ℕ, List, map, option_map, IfOk};
ghost use Rattle.fl_types.specs.Sharing.{has_name};
ghost use Rattle.loop_scenes.specs.Views.{headed_seen};
ghost use Rattle.certificate_check.specs.Pairs.{loop_of};
ghost use Rattle.certificate_check.specs.Flaws.{loops_of};
ghost use Rattle.loop_pairs.specs.Known.{known_loop as known_loop_lem, known_in, known_of, AreSurveys};

use crate::knowledge::loop_pairs;
use certificate_check::LoopPairs;
use fl_base::{Items, Memory};
use fl_types::{NameSet, Typed};
use known_names::Indexed;
use loop_scenes::{HeadedView, all_loops};
use std::alloc::Global;

fn known_loop<'t>(
    alloc: Global,
    indexed: &Indexed<'t>,
    active: &NameSet,
    headed: &Option<HeadedView<'t>>,
) -> Result<Option<LoopPairs>, Memory>
    ensures { IfOk result (λ o. option_map loop_of o ≡ option_map (known_loop_lem indexed.now.decls (λ x. has_name x active.now.names)) (headed_seen headed.now)) }
{
    match headed {
        Some(headed) => Ok(Some(loop_pairs(alloc, indexed, active, headed)?)),
        None => Ok(None),
    }
}

fn known_among<'t>(
    alloc: Global,
    indexed: &Indexed<'t>,
    active: &NameSet,
    loops: &[Option<HeadedView<'t>>],
) -> Result<Items<Option<LoopPairs>>, Memory>
    ensures { IfOk result (λ all. loops_of all ≡ known_in indexed.now.decls (λ x. has_name x active.now.names) (map headed_seen loops.now)) }
{
    let mut all = Items::new(alloc);
    for i in 0..loops.len() {
        all.push(known_loop(alloc, indexed, active, &loops[i])?)?;
    }
    Ok(all)
}

/// For each loop of the program, in textual order, whether it is parallel, and what is known of it then. So a loop stands at its number.
pub fn known_loops(
    alloc: Global,
    typed: &Typed,
    active: &NameSet,
) -> Result<Items<Option<LoopPairs>>, Memory>
    ensures known { IfOk result (λ all. loops_of all ≡ known_of typed.now (λ x. has_name x active.now.names)) }
    ensures surveys { IfOk result (λ all. AreSurveys (loops_of all)) }
{
    let indexed = Indexed::of(alloc, typed.program())?;
    let loops = all_loops(alloc, indexed.program().body.as_slice())?;
    Ok(known_among(alloc, &indexed, active, loops.as_slice())?)
}
