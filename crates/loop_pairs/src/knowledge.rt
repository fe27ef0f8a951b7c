//! What is known of one loop.

ghost use Rattle.std.specs.Prelude.{◌≡◌, ℕ, List, map, IfOk};
ghost use Rattle.fl_types.specs.Sharing.{has_name};
ghost use Rattle.index_forms.specs.Listed.{all_forms_seen};
ghost use Rattle.index_forms.specs.Loops.{forms_scope, inside};
ghost use Rattle.index_forms.specs.Walk.{loop_forms};
ghost use Rattle.loop_scenes.specs.Rights.{rights_in};
ghost use Rattle.loop_accesses.specs.Numbers.{numbered_of};
ghost use Rattle.loop_accesses.specs.Views.{loop_view};
ghost use Rattle.loop_scenes.specs.Views.{headed_loop};
ghost use Rattle.acceptance.specs.Told.{survey_of};
ghost use Rattle.certificate_check.specs.Pairs.{loop_of};
ghost use Rattle.loop_pairs.specs.Known.{nest_of as nest_of_lem, bare, bare_accesses as bare_accesses_lem, survey_by, known_loop};

use acceptance::LoopKnowledge;
use certificate_check::LoopPairs;
use fl_ast::Place;
use fl_base::{Held, Items, Memory};
use fl_types::{Access, NameSet, is_nest, iteration_body};
use index_forms::{Form, Side, forms_of_accesses};
use index_knowledge::facts;
use index_ranges::ranges;
use known_names::Indexed;
use loop_accesses::{LoopView, accesses};
use loop_scenes::{HeadedView, further_head, last_turn_of, rights, scene_of};
use std::alloc::Global;

fn nest_of(view: &LoopView<'_>) -> u32
    ensures { result ≡ nest_of_lem (loop_view view.now) }
{
    if is_nest(view.directive, view.body) {
        2
    } else {
        1
    }
}

/// The forms of the loop's accesses on a side.
#[tactic(auto, using(crate::proofs::Forms::forms_made))]
fn forms_on(
    alloc: Global,
    indexed: &Indexed<'_>,
    headed: &HeadedView<'_>,
    side: Side,
) -> Result<Items<Items<Form>>, Memory>
    ensures { IfOk result (λ all. all_forms_seen all ≡ loop_forms indexed.now.decls (headed_loop headed.now) side) }
{
    let decls = indexed.program().decls.as_slice();
    let scene = scene_of(alloc, side, decls, headed)?;
    let body = iteration_body(headed.view.directive, headed.view.body);
    Ok(forms_of_accesses(alloc, &scene, body)?)
}

/// For each access whether it is in the right side of an assignment to an active name.
fn rights_of(
    alloc: Global,
    indexed: &Indexed<'_>,
    active: &NameSet,
    headed: &HeadedView<'_>,
) -> Result<Items<bool>, Memory>
    ensures { IfOk result (λ rights. rights ≡ rights_in (forms_scope indexed.now.decls (headed_loop headed.now)) (λ x. has_name x active.now.names) (inside (headed_loop headed.now))) }
{
    let decls = indexed.program().decls.as_slice();
    let scene = scene_of(alloc, Side::One, decls, headed)?;
    let body = iteration_body(headed.view.directive, headed.view.body);
    Ok(rights(alloc, &scene, active, body)?)
}

/// An access without its subscripts.
fn bare_access(alloc: Global, access: &Access) -> Result<Access, Memory>
    ensures { IfOk result (λ a. a ≡ bare (numbered_of access.now)) }
{
    let path = Items::from_slice(alloc, access.path.as_slice())?;
    let name = access.place.name.clone(alloc)?;
    Ok(Access {
        number: access.number,
        loop_number: access.loop_number,
        line: access.line,
        place: Place {
            name,
            subscripts: Items::new(alloc),
        },
        path,
        kind: access.kind,
    })
}

fn bare_all(alloc: Global, accesses: &[Access]) -> Result<Items<Access>, Memory>
    ensures { IfOk result (λ all. all ≡ map bare (map numbered_of accesses.now)) }
{
    let mut all = Items::new(alloc);
    for i in 0..accesses.len() {
        all.push(bare_access(alloc, &accesses[i])?)?;
    }
    Ok(all)
}

/// The accesses of a loop. Their subscripts are known by their forms.
fn bare_accesses<'t>(
    alloc: Global,
    indexed: &Indexed<'t>,
    view: &LoopView<'t>,
) -> Result<Items<Access>, Memory>
    ensures { IfOk result (λ all. all ≡ bare_accesses_lem indexed.now.decls (loop_view view.now)) }
{
    let all = accesses(alloc, indexed, view)?;
    Ok(bare_all(alloc, all.as_slice())?)
}

/// The accesses of a loop with what is known of their subscripts.
fn knowledge_of<'t>(
    alloc: Global,
    indexed: &Indexed<'t>,
    headed: &HeadedView<'t>,
) -> Result<LoopKnowledge, Memory>
    ensures { IfOk result (λ k. survey_of k ≡ survey_by indexed.now.decls (headed_loop headed.now)) }
{
    let ones = Held::of(forms_on(alloc, indexed, headed, Side::One)?);
    let twos = Held::of(forms_on(alloc, indexed, headed, Side::Two)?);
    let accesses = Held::of(bare_accesses(alloc, indexed, &headed.view)?);
    let facts = Held::of(facts(
        alloc,
        accesses.get().as_slice(),
        ones.get().as_slice(),
        twos.get().as_slice(),
    )?);
    let scene = Held::of(scene_of(alloc, Side::One, indexed.program().decls.as_slice(), headed)?);
    let ranges = ranges(
        alloc,
        iteration_body(headed.view.directive, headed.view.body),
    )?;
    Ok(LoopKnowledge {
        accesses: accesses.into_inner(),
        ones: ones.into_inner(),
        twos: twos.into_inner(),
        scene: scene.into_inner(),
        facts: facts.into_inner(),
        ranges,
        second: last_turn_of(&further_head(headed.view.directive, headed.view.body)),
    })
}

/// A parallel loop with what is known of it.
pub fn loop_pairs<'t>(
    alloc: Global,
    indexed: &Indexed<'t>,
    active: &NameSet,
    headed: &HeadedView<'t>,
) -> Result<LoopPairs, Memory>
    ensures { IfOk result (λ l. loop_of l ≡ known_loop indexed.now.decls (λ x. has_name x active.now.names) (headed_loop headed.now)) }
{
    let view = &headed.view;
    let rights = rights_of(alloc, indexed, active, headed)?;
    let knowledge = knowledge_of(alloc, indexed, headed)?;
    Ok(LoopPairs {
        number: view.number,
        nest: nest_of(view),
        rights,
        knowledge,
    })
}
