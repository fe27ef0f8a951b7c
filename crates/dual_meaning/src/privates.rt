ghost use Rattle.std.specs.Prelude.{◌≡◌, ◌<◌, true, bytes_eq, List, length, IfOk, OnOk};
ghost use Rattle.fl_types.specs.Sharing.{has_name as has_name_lem, varies as varies_lem, varies_in as varies_in_lem, varies_in_arms as varies_in_arms_lem, is_private as is_private_lem, sharing_in};
ghost use Rattle.fl_types.specs.Nests.{is_plain_loop as is_plain_loop_lem, is_nest as is_nest_lem};
ghost use Rattle.store_core.specs.declared.layout.Shape.{Shape as LaidShape};
ghost use Rattle.meaning.specs.Sites.{Cells};
ghost use Rattle.resolved.specs.SlotTables.{table_site};
ghost use Rattle.resolved.specs.ResolvedExprs.{slot_name};
ghost use Rattle.resolved.specs.ResolvedStmts.{statement_back, statements_back, arms_back, is_fit, are_fit, are_arms_fit};
ghost use Rattle.dual_meaning.specs.Running.{unset_places, unset_privates, added, private_place as private_place_lem};

use fl_ast::{Directive, Memory, Name};
use resolved::{ResolvedArm, ResolvedStmt, SlotTable};
use std::alloc::Global;

pub(crate) fn has_name(names: &[Name], name: &Name) -> bool
    ensures { result ≡ has_name_lem name.now names.now }
{
    for other in names {
        if name.is(other) {
            return true;
        }
    }
    false
}

/// Whether a name is the variable of a slot.
fn is_slot(table: &SlotTable, slot: usize, name: &Name) -> bool
    requires { slot < length table.now.0 }
    ensures { result ≡ bytes_eq name.now (slot_name table.now.0 slot) }
{
    name.is(&table.layout().shapes()[slot].name)
}

/// Whether a name is the variable of a loop in a statement.
#[cycle(varies)]
fn varies(table: &SlotTable, name: &Name, stmt: &ResolvedStmt) -> bool
    requires { is_fit table.now stmt.now ≡ true }
    ensures { result ≡ varies_lem name.now (statement_back table.now.0 stmt.now) }
{
    match stmt {
        ResolvedStmt::Assign { .. } => false,
        ResolvedStmt::If { arms, other, .. } => {
            if varies_in_arms(table, name, arms.as_slice()) {
                return true;
            }
            varies_in(table, name, other.as_slice())
        }
        ResolvedStmt::Do { head, body, .. } => {
            if is_slot(table, head.variable, name) {
                return true;
            }
            varies_in(table, name, body.as_slice())
        }
    }
}

#[cycle(varies)]
fn varies_in(table: &SlotTable, name: &Name, stmts: &[ResolvedStmt]) -> bool
    requires { are_fit table.now stmts.now ≡ true }
    ensures { result ≡ varies_in_lem name.now (statements_back table.now.0 stmts.now) }
{
    for stmt in stmts {
        if varies(table, name, stmt) {
            return true;
        }
    }
    false
}

#[cycle(varies)]
fn varies_in_arms(table: &SlotTable, name: &Name, arms: &[ResolvedArm]) -> bool
    requires { are_arms_fit table.now arms.now ≡ true }
    ensures { result ≡ varies_in_arms_lem name.now (arms_back table.now.0 arms.now) }
{
    for arm in arms {
        if varies_in(table, name, arm.body.as_slice()) {
            return true;
        }
    }
    false
}

/// Whether a name is private in a parallel loop (OpenMP 5.2, 5.4.3). Variables of loops aren't, also where they are listed.
fn is_private(
    table: &SlotTable,
    directive: &Directive,
    variable: usize,
    body: &[ResolvedStmt],
    name: &Name,
) -> bool
    requires variable { variable < length table.now.0 }
    requires fit { are_fit table.now body.now ≡ true }
    ensures { result ≡ is_private_lem (sharing_in (slot_name table.now.0 variable) directive.now (statements_back table.now.0 body.now) name.now) }
{
    if is_slot(table, variable, name) {
        return false;
    }
    if varies_in(table, name, body) {
        return false;
    }
    has_name(directive.privates.as_slice(), name)
}

/// Where a name is to be unset at the start of an iteration, if it is private there.
fn private_place(
    table: &SlotTable,
    directive: &Directive,
    variable: usize,
    body: &[ResolvedStmt],
    name: &Name,
) -> Option<u32>
    requires variable { variable < length table.now.0 }
    requires fit { are_fit table.now body.now ≡ true }
    ensures { result ≡ private_place_lem (table_site table.now) directive.now (slot_name table.now.0 variable) (statements_back table.now.0 body.now) name.now }
{
    if is_private(table, directive, variable, body, name) {
        table.layout().place(name, &[])
    } else {
        None
    }
}

fn add(places: &mut Vec<u32>, place: Option<u32>) -> Result<(), Memory>
    ensures { OnOk result (places.new.items ≡ added place places.old.items) }
{
    if let Some(place) = place {
        places.push(place)?;
    }
    Ok(())
}

/// The places of a parallel loop's private scalars, in the order of their declarations.
pub(crate) fn private_places(
    alloc: Global,
    table: &SlotTable,
    directive: &Directive,
    variable: usize,
    body: &[ResolvedStmt],
) -> Result<Vec<u32>, Memory>
    requires variable { variable < length table.now.0 }
    requires fit { are_fit table.now body.now ≡ true }
    ensures { IfOk result (λ places. (cells : Cells) → unset_places places.items cells
        ≡ unset_privates (table_site table.now) directive.now (slot_name table.now.0 variable) (statements_back table.now.0 body.now) table.now.3 cells) }
{
    let mut places = Vec::new(alloc);
    for name in table.declared() {
        let place = private_place(table, directive, variable, body, name);
        add(&mut places, place)?;
    }
    Ok(places)
}

fn is_plain_loop(stmt: &ResolvedStmt) -> bool
    ensures { (shapes : List LaidShape) → result ≡ is_plain_loop_lem (statement_back shapes stmt.now) }
{
    match stmt {
        ResolvedStmt::Assign { .. } => false,
        ResolvedStmt::If { .. } => false,
        ResolvedStmt::Do { directive, .. } => directive.is_none(),
    }
}

/// Whether a parallel loop with this body is collapsed with the loop in it (OpenMP 5.2, 4.4.3).
pub(crate) fn is_nest(directive: &Directive, body: &[ResolvedStmt]) -> bool
    ensures value { (shapes : List LaidShape) → result ≡ is_nest_lem directive.now (statements_back shapes body.now) }
    ensures one { result ≡ true → length body.now ≡ 1 }
{
    if directive.collapse != 2 {
        return false;
    }
    if body.len() != 1 {
        return false;
    }
    is_plain_loop(&body[0])
}
