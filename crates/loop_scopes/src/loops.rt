//! The names of loops: the variables of those around a statement, and what names are in a parallel loop.

ghost use Rattle.std.specs.Prelude.{◌≡◌, ◌<◌, ◌||◌, ℕ, true, not, ◌&&◌, List, length, bytes_eq, IfOk, OnOk};
ghost use Rattle.fl_types.specs.Sharing.{has_name, varies as varies_lem, varies_in, varies_in_arms, assigns, assigns_in, assigns_in_arms, is_accessed as is_accessed_lem, is_plus as is_plus_lem, is_private as is_private_lem};
ghost use Rattle.resolved.specs.ResolvedExprs.{slot_name};
ghost use Rattle.resolved.specs.ResolvedStmts.{statement_back, statements_back, arms_back, is_fit, are_fit, are_arms_fit};
ghost use Rattle.loop_scopes.specs.Loops.{names_in, class_by, AreClauseNames, IsLoopNames};

use fl_ast::{Directive, Memory, Name};
use fl_base::Boxed;
use fl_types::Sharing;
use known_names::{Keys, keys_of};
use resolved::{ResolvedArm, ResolvedStmt, SlotTable};
use std::alloc::Global;

/// The variables of the loops around a statement, the innermost first.
#[derive(Clone, Copy)]
pub enum Loops<'a, 't> {
    Outside,
    Inside {
        var: &'t Name,
        outer: &'a Loops<'a, 't>,
    },
}

impl<'a, 't> Loops<'a, 't> {
    fn mark(&self, keys: &mut Keys<'t>) -> Result<(), Memory>
        ensures { OnOk result ((x : List ℕ) → has_name x keys.new ≡ (has_name x (names_in self.now) || has_name x keys.old)) }
    {
        match self {
            Loops::Outside => Ok(()),
            Loops::Inside { var, outer } => {
                outer.mark(keys)?;
                keys.insert(*var)?;
                Ok(())
            }
        }
    }
}

pub fn name_of(table: &SlotTable, slot: usize) -> &Name
    requires { slot < length table.now.0 }
    ensures { result.now ≡ slot_name table.now.0 slot }
{
    &table.layout().shapes()[slot].name
}

#[cycle(variables)]
fn mark_variables_in<'t>(
    table: &'t SlotTable,
    stmt: &ResolvedStmt,
    keys: &mut Keys<'t>,
) -> Result<(), Memory>
    requires { is_fit table.now stmt.now ≡ true }
    ensures { OnOk result ((x : List ℕ) → has_name x keys.new ≡ (varies_lem x (statement_back table.now.0 stmt.now) || has_name x keys.old)) }
{
    match stmt {
        ResolvedStmt::Assign { .. } => Ok(()),
        ResolvedStmt::If { arms, other, .. } => {
            mark_variables(table, other.as_slice(), keys)?;
            mark_variables_in_arms(table, arms.as_slice(), keys)?;
            Ok(())
        }
        ResolvedStmt::Do { head, body, .. } => {
            let var = name_of(table, head.variable);
            mark_variables(table, body.as_slice(), keys)?;
            keys.insert(var)?;
            Ok(())
        }
    }
}

/// Adds the variables of loops.
#[cycle(variables)]
fn mark_variables<'t>(
    table: &'t SlotTable,
    stmts: &[ResolvedStmt],
    keys: &mut Keys<'t>,
) -> Result<(), Memory>
    requires { are_fit table.now stmts.now ≡ true }
    ensures { OnOk result ((x : List ℕ) → has_name x keys.new ≡ (varies_in x (statements_back table.now.0 stmts.now) || has_name x keys.old)) }
{
    for stmt in stmts {
        mark_variables_in(table, stmt, keys)?;
    }
    Ok(())
}

#[cycle(variables)]
fn mark_variables_in_arms<'t>(
    table: &'t SlotTable,
    arms: &[ResolvedArm],
    keys: &mut Keys<'t>,
) -> Result<(), Memory>
    requires { are_arms_fit table.now arms.now ≡ true }
    ensures { OnOk result ((x : List ℕ) → has_name x keys.new ≡ (varies_in_arms x (arms_back table.now.0 arms.now) || has_name x keys.old)) }
{
    for arm in arms {
        mark_variables(table, arm.body.as_slice(), keys)?;
    }
    Ok(())
}

#[cycle(assigned)]
fn mark_assigned_in<'t>(
    table: &'t SlotTable,
    stmt: &ResolvedStmt,
    keys: &mut Keys<'t>,
) -> Result<(), Memory>
    requires { is_fit table.now stmt.now ≡ true }
    ensures { OnOk result ((x : List ℕ) → has_name x keys.new ≡ (assigns x (statement_back table.now.0 stmt.now) || has_name x keys.old)) }
{
    match stmt {
        ResolvedStmt::Assign { target, .. } => {
            keys.insert(name_of(table, target.slot))?;
            Ok(())
        }
        ResolvedStmt::If { arms, other, .. } => {
            mark_assigned(table, other.as_slice(), keys)?;
            mark_assigned_in_arms(table, arms.as_slice(), keys)?;
            Ok(())
        }
        ResolvedStmt::Do { body, .. } => {
            mark_assigned(table, body.as_slice(), keys)?;
            Ok(())
        }
    }
}

/// Adds the names that are assigned.
#[cycle(assigned)]
fn mark_assigned<'t>(
    table: &'t SlotTable,
    stmts: &[ResolvedStmt],
    keys: &mut Keys<'t>,
) -> Result<(), Memory>
    requires { are_fit table.now stmts.now ≡ true }
    ensures { OnOk result ((x : List ℕ) → has_name x keys.new ≡ (assigns_in x (statements_back table.now.0 stmts.now) || has_name x keys.old)) }
{
    for stmt in stmts {
        mark_assigned_in(table, stmt, keys)?;
    }
    Ok(())
}

#[cycle(assigned)]
fn mark_assigned_in_arms<'t>(
    table: &'t SlotTable,
    arms: &[ResolvedArm],
    keys: &mut Keys<'t>,
) -> Result<(), Memory>
    requires { are_arms_fit table.now arms.now ≡ true }
    ensures { OnOk result ((x : List ℕ) → has_name x keys.new ≡ (assigns_in_arms x (arms_back table.now.0 arms.now) || has_name x keys.old)) }
{
    for arm in arms {
        mark_assigned(table, arm.body.as_slice(), keys)?;
    }
    Ok(())
}

/// The names of a parallel loop by what they are there, each found by search.
#[derive(Drop)]
pub struct LoopNames<'t> {
    outer: Keys<'t>,
    variables: Keys<'t>,
    privates: Keys<'t>,
    firsts: Keys<'t>,
    pluses: Keys<'t>,
    assigned: Keys<'t>,
}

fn is_accessed(class: Sharing) -> bool
    ensures { result ≡ is_accessed_lem class }
{
    match class {
        Sharing::Shared | Sharing::First | Sharing::Plus => true,
        Sharing::Private | Sharing::LoopVar => false,
    }
}

fn outer_of<'t>(alloc: Global, loops: &Loops<'_, 't>) -> Result<Keys<'t>, Memory>
    ensures { IfOk result (λ keys. (x : List ℕ) → has_name x keys ≡ has_name x (names_in loops.now)) }
{
    let mut keys = Keys::new(alloc);
    loops.mark(&mut keys)?;
    Ok(keys)
}

/// The variable of a loop and of those in it.
fn variables_of<'t>(
    alloc: Global,
    table: &'t SlotTable,
    variable: usize,
    body: &[ResolvedStmt],
) -> Result<Keys<'t>, Memory>
    requires variable { variable < length table.now.0 }
    requires fit { are_fit table.now body.now ≡ true }
    ensures { IfOk result (λ keys. (x : List ℕ) → has_name x keys ≡ (bytes_eq x (slot_name table.now.0 variable) || varies_in x (statements_back table.now.0 body.now))) }
{
    let mut keys = Keys::new(alloc);
    mark_variables(table, body, &mut keys)?;
    keys.insert(name_of(table, variable))?;
    Ok(keys)
}

fn assigned_of<'t>(
    alloc: Global,
    table: &'t SlotTable,
    body: &[ResolvedStmt],
) -> Result<Keys<'t>, Memory>
    requires fit { are_fit table.now body.now ≡ true }
    ensures { IfOk result (λ keys. (x : List ℕ) → has_name x keys ≡ assigns_in x (statements_back table.now.0 body.now)) }
{
    let mut keys = Keys::new(alloc);
    mark_assigned(table, body, &mut keys)?;
    Ok(keys)
}

/// The names of a parallel loop's clauses.
#[derive(Drop)]
struct ClauseNames<'t> {
    privates: Keys<'t>,
    firsts: Keys<'t>,
    pluses: Keys<'t>,
}

fn clause_names<'t>(
    alloc: Global,
    directive: &'t Directive,
) -> Result<Boxed<ClauseNames<'t>>, Memory>
    ensures { IfOk result (λ names. AreClauseNames names directive.now) }
{
    let privates = keys_of(alloc, directive.privates.as_slice())?;
    let firsts = keys_of(alloc, directive.firsts.as_slice())?;
    let pluses = keys_of(alloc, directive.pluses.as_slice())?;
    Boxed::new(
        alloc,
        ClauseNames {
            privates,
            firsts,
            pluses,
        },
    )
}

impl<'t> LoopNames<'t> {
    /// The names of a parallel loop with this variable and body, in these loops.
    pub fn of(
        alloc: Global,
        table: &'t SlotTable,
        loops: &Loops<'_, 't>,
        directive: &'t Directive,
        variable: usize,
        body: &[ResolvedStmt],
    ) -> Result<LoopNames<'t>, Memory>
        requires variable { variable < length table.now.0 }
        requires fit { are_fit table.now body.now ≡ true }
        ensures { IfOk result (λ names. IsLoopNames names (names_in loops.now) (slot_name table.now.0 variable) directive.now (statements_back table.now.0 body.now)) }
    {
        let clauses = clause_names(alloc, directive)?;
        let outer = outer_of(alloc, loops)?;
        let variables = variables_of(alloc, table, variable, body)?;
        let assigned = assigned_of(alloc, table, body)?;
        let ClauseNames {
            privates,
            firsts,
            pluses,
        } = clauses.into_inner();
        Ok(LoopNames {
            outer,
            variables,
            privates,
            firsts,
            pluses,
            assigned,
        })
    }

    fn class(&self, name: &Name) -> Sharing
        ensures { result ≡ class_by self.now name.now }
    {
        if self.variables.has(name) {
            return Sharing::LoopVar;
        }
        if self.privates.has(name) {
            return Sharing::Private;
        }
        if self.firsts.has(name) {
            return Sharing::First;
        }
        if self.pluses.has(name) {
            return Sharing::Plus;
        }
        Sharing::Shared
    }

    /// Whether an occurrence of the name is an access.
    pub fn makes_accesses(&self, name: &Name) -> bool
        ensures { result ≡ (not (has_name name.now self.now.outer) && is_accessed_lem (class_by self.now name.now)) }
    {
        !self.outer.has(name) && is_accessed(self.class(name))
    }

    /// Whether the name is a reduction's.
    pub fn is_reduced(&self, name: &Name) -> bool
        ensures { result ≡ is_plus_lem (class_by self.now name.now) }
    {
        match self.class(name) {
            Sharing::Plus => true,
            Sharing::Shared | Sharing::First | Sharing::Private | Sharing::LoopVar => false,
        }
    }

    /// Whether iterations have the name of their own.
    pub fn is_private(&self, name: &Name) -> bool
        ensures { result ≡ is_private_lem (class_by self.now name.now) }
    {
        match self.class(name) {
            Sharing::Private => true,
            Sharing::Shared | Sharing::First | Sharing::Plus | Sharing::LoopVar => false,
        }
    }

    /// Whether the loop assigns the name.
    pub fn is_assigned(&self, name: &Name) -> bool
        ensures { result ≡ has_name name.now self.now.assigned }
    {
        self.assigned.has(name)
    }
}
