//! What is known behind a statement, and in a loop.

ghost use Rattle.std.specs.Prelude.{◌≡◌, ◌++◌, OnOk, IfOk};
ghost use Rattle.fl_ast.specs.Tree.{expr_trees, place_tree, stmt_tree, stmt_trees};
ghost use Rattle.index_forms.specs.Loops.{written_by};
ghost use Rattle.index_forms.specs.Origins.{unknown_of, assigned_origin as assigned_origin_lem};
ghost use Rattle.index_forms.specs.Scenes.{known_there};
ghost use Rattle.index_forms.specs.Walk.{known_after, known_inside, without, assigned_at, in_turn_of};

use crate::origin::{Entry, Origin};
use crate::scene::Scene;
use crate::written::{push_names_by, written};
use fl_ast::{Expr, Place, Stmt};
use fl_base::{Items, Memory, Name};
use std::alloc::Global;

fn push_unknown(alloc: Global, names: &[Name], entries: &mut Items<Entry>) -> Result<(), Memory>
    ensures { OnOk result (entries.new ≡ entries.old ++ unknown_of names.now) }
{
    for i in 0..names.len() {
        let name = names[i].clone(alloc)?;
        entries.push(Entry {
            name,
            origin: Origin::Unknown,
        })?;
    }
    Ok(())
}

/// From here on nothing is known of these names.
pub fn hide(
    alloc: Global,
    scene: &Scene,
    names: &[Name],
    entries: &mut Items<Entry>,
) -> Result<(), Memory>
    ensures { OnOk result (known_there scene.now entries.new ≡ without names.now (known_there scene.now entries.old)) }
{
    push_unknown(alloc, names, entries)?;
    Ok(())
}

/// A copy of the entries.
pub fn copied(alloc: Global, entries: &[Entry]) -> Result<Items<Entry>, Memory>
    ensures { IfOk result (λ es. es ≡ entries.now) }
{
    let mut all = Items::new(alloc);
    for i in 0..entries.len() {
        let name = entries[i].name.clone(alloc)?;
        all.push(Entry {
            name,
            origin: entries[i].origin,
        })?;
    }
    Ok(all)
}

#[tactic(auto, using(crate::proofs::KnownNames::element_unknown))]
fn assigned_origin(n: u32, subscripts: &[Expr]) -> Origin
    ensures { result ≡ assigned_origin_lem n (expr_trees subscripts.now) }
{
    match subscripts {
        [] => Origin::Assigned(n),
        [_, ..] => Origin::Unknown,
    }
}

/// What an assignment says of its target.
fn push_assigned(
    alloc: Global,
    scene: &Scene,
    n: u32,
    target: &Place,
    entries: &mut Items<Entry>,
) -> Result<(), Memory>
    ensures { OnOk result (known_there scene.now entries.new ≡ assigned_at scene.now.side n (place_tree target.now) (known_there scene.now entries.old)) }
{
    let origin = assigned_origin(n, target.subscripts.as_slice());
    let name = target.name.clone(alloc)?;
    entries.push(Entry { name, origin })?;
    Ok(())
}

/// What is known behind the statement with number n.
#[tactic(auto)]
pub fn push_known_after(
    alloc: Global,
    scene: &Scene,
    n: u32,
    stmt: &Stmt,
    entries: &mut Items<Entry>,
) -> Result<(), Memory>
    ensures { OnOk result (known_there scene.now entries.new ≡ known_after scene.now.side n (stmt_tree stmt.now) (known_there scene.now entries.old)) }
{
    match stmt {
        Stmt::Assign { target, .. } => push_assigned(alloc, scene, n, target, entries),
        Stmt::If { .. } => hide_written(alloc, scene, stmt, entries),
        Stmt::Do { .. } => hide_written(alloc, scene, stmt, entries),
    }
}

fn hide_written(
    alloc: Global,
    scene: &Scene,
    stmt: &Stmt,
    entries: &mut Items<Entry>,
) -> Result<(), Memory>
    ensures { OnOk result (known_there scene.now entries.new ≡ without (written_by (stmt_tree stmt.now)) (known_there scene.now entries.old)) }
{
    let mut names = Items::new(alloc);
    push_names_by(alloc, true, stmt, &mut names)?;
    hide(alloc, scene, names.as_slice(), entries)?;
    Ok(())
}

fn push_turn(
    alloc: Global,
    scene: &Scene,
    number: u32,
    var: &Name,
    entries: &mut Items<Entry>,
) -> Result<(), Memory>
    ensures { OnOk result (known_there scene.now entries.new ≡ in_turn_of scene.now.side number var.now (known_there scene.now entries.old)) }
{
    let name = var.clone(alloc)?;
    entries.push(Entry {
        name,
        origin: Origin::Turn(number),
    })?;
    Ok(())
}

/// What is known at the start of a sequential loop's turns.
pub fn known_in_turns(
    alloc: Global,
    scene: &Scene,
    entries: &[Entry],
    number: u32,
    var: &Name,
    body: &[Stmt],
) -> Result<Items<Entry>, Memory>
    ensures { IfOk result (λ es. known_there scene.now es ≡ known_inside scene.now.side number var.now (stmt_trees body.now) (known_there scene.now entries.now)) }
{
    let mut inside = copied(alloc, entries)?;
    push_turn(alloc, scene, number, var, &mut inside)?;
    let names = written(alloc, body)?;
    hide(alloc, scene, names.as_slice(), &mut inside)?;
    Ok(inside)
}
