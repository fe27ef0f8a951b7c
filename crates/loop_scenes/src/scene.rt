//! The scene by which the forms of a loop's accesses are made.

ghost use Rattle.std.specs.Prelude.{◌≡◌, ◌++◌, ◌∷◌, false, option_map, OnOk, IfOk};
ghost use Rattle.fl_ast.specs.Tree.{stmt_trees};
ghost use Rattle.fl_types.specs.Nests.{further_head as further_head_lem};
ghost use Rattle.index_forms.specs.Loops.{names_in};
ghost use Rattle.loop_accesses.specs.Views.{loop_view};
ghost use Rattle.loop_scenes.specs.Inner.{head_seen};
ghost use Rattle.loop_scenes.specs.Views.{headed_loop};
ghost use Rattle.loop_scenes.specs.Scened.{unshared_names, counter_of, scene_by};

use crate::headed::HeadedView;
use crate::inner::{InnerHead, further_head};
use crate::literals::counter;
use crate::names::{push_all, push_name, push_names_in, push_referred, ring_names, written_in};
use fl_ast::Decl;
use fl_base::{Items, Memory, Name};
use fl_types::iteration_body;
use index_forms::{Counter, Scene, Side};
use loop_accesses::LoopView;
use std::alloc::Global;

/// The names that make no accesses in a loop.
fn unshared_of(alloc: Global, view: &LoopView<'_>) -> Result<Items<Name>, Memory>
    ensures { IfOk result (λ names. names ≡ unshared_names (loop_view view.now)) }
{
    let mut names = Items::new(alloc);
    push_referred(alloc, view.outer.as_slice(), &mut names)?;
    push_name(alloc, view.var, &mut names)?;
    push_names_in(alloc, false, view.body, &mut names)?;
    push_all(alloc, view.directive.privates.as_slice(), &mut names)?;
    Ok(names)
}

fn further_counter(alloc: Global, inner: Option<InnerHead<'_>>) -> Result<Option<Counter>, Memory>
    ensures { IfOk result (λ c. c ≡ option_map counter_of (option_map head_seen inner.entry)) }
{
    match inner {
        Some(inner) => Ok(Some(counter(alloc, inner.var, inner.first, inner.step)?)),
        None => Ok(None),
    }
}

fn further_of(alloc: Global, view: &LoopView<'_>) -> Result<Option<Counter>, Memory>
    ensures { IfOk result (λ c. c ≡ option_map counter_of (further_head_lem view.now.directive.now (stmt_trees view.now.body.now))) }
{
    further_counter(alloc, further_head(view.directive, view.body))
}

/// The scene of a parallel loop on a side.
pub fn scene_of(
    alloc: Global,
    side: Side,
    decls: &[Decl],
    headed: &HeadedView<'_>,
) -> Result<Scene, Memory>
    ensures scene { IfOk result (λ scene. scene ≡ scene_by side decls.now (headed_loop headed.now)) }
{
    let view = &headed.view;
    let unshared = unshared_of(alloc, view)?;
    let written = written_in(alloc, iteration_body(view.directive, view.body))?;
    let ring = ring_names(alloc, decls)?;
    let counter = counter(alloc, view.var, headed.first, headed.step)?;
    let further = further_of(alloc, view)?;
    Ok(Scene {
        side,
        unshared,
        written,
        ring,
        counter,
        further,
    })
}
