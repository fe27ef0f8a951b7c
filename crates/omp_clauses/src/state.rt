//! What the clauses of a directive say.

ghost use Rattle.std.specs.Prelude.{◌≡◌, ℕ, IfOk, Some, true};
ghost use Rattle.omp_clauses.specs.Said as said;

use crate::seen::Seen;
use fl_ast::{Directive, ScheduleKind};
use fl_base::{Items, Memory, Name};
use std::alloc::Global;
use std::marker::Model;

/// How the names of a clause are shared.
#[derive(Clone, Copy, Debug, PartialEq, Eq)]
pub enum Sharing {
    Private,
    First,
    Shared,
    Plus,
}

/// What the clauses say so far.
pub struct Clauses {
    directive: Directive,
    defaulted: bool,
    seen: Seen,
}

// Written out, so that each drop of the clauses is one call.
impl Drop for Clauses {
    fn drop(self) {
        let Clauses {
            directive,
            defaulted: _,
            seen,
        } = self;
        drop(directive);
        drop(seen);
    }
}

impl Model for Clauses {
    ghost use Rattle.std.specs.Prelude.{◌≡◌, ℕ, List, bytes_eq};
    ghost use Rattle.std.specs.List.{list_any};
    ghost use Rattle.fl_ast.specs.Readable.{listed_names};
    ghost use Rattle.omp_clauses.specs.Said.{Said};

    ghost Value = { Said };

    ghost view = { λ c. record { directive = c.directive; defaulted = c.defaulted } };

    ghost invariant = { λ c. (x : List ℕ) → list_any (bytes_eq x) c.seen ≡ list_any (bytes_eq x) (listed_names c.directive) };
}

fn named(sharing: Sharing, mut directive: Directive, name: Name) -> Result<Directive, Memory>
    ensures { IfOk result (λ d. d ≡ said.named sharing directive name) }
{
    match sharing {
        Sharing::Private => directive.privates.push(name)?,
        Sharing::First => directive.firsts.push(name)?,
        Sharing::Shared => directive.shareds.push(name)?,
        Sharing::Plus => directive.pluses.push(name)?,
    }
    Ok(directive)
}

impl Clauses {
    /// None yet, of the directive whose sentinel stands in this line.
    pub fn new(alloc: Global, line: u32) -> Clauses
        ensures { result ≡ said.nothing line }
    {
        Clauses {
            directive: Directive {
                line,
                privates: Items::new(alloc),
                firsts: Items::new(alloc),
                shareds: Items::new(alloc),
                pluses: Items::new(alloc),
                none: false,
                schedule: None,
                collapse: 0,
            },
            defaulted: false,
            seen: Seen::new(alloc),
        }
    }

    /// Whether a clause lists the name.
    pub fn lists(&self, name: &Name) -> bool
        ensures { result ≡ said.lists self.now name.now }
    {
        self.seen.has(name)
    }

    /// With one more name.
    pub fn with_name(self, alloc: Global, sharing: Sharing, name: Name) -> Result<Clauses, Memory>
        ensures { IfOk result (λ c. c ≡ said.with_name sharing self name) }
    {
        let Clauses {
            directive,
            defaulted,
            seen,
        } = self;
        let seen = seen.with(alloc, &name)?;
        let directive = named(sharing, directive, name)?;
        Ok(Clauses {
            directive,
            defaulted,
            seen,
        })
    }

    pub fn has_default(&self) -> bool
        ensures { result ≡ said.has_default self.now }
    {
        self.defaulted
    }

    pub fn has_schedule(&self) -> bool
        ensures { result ≡ said.has_schedule self.now }
    {
        self.directive.schedule.is_some()
    }

    pub fn has_collapse(&self) -> bool
        ensures { result ≡ said.has_collapse self.now }
    {
        self.directive.collapse != 0
    }

    pub fn with_default(mut self, none: bool) -> Clauses
        ensures { result ≡ said.with_default none self }
    {
        self.directive.none = none;
        self.defaulted = true;
        self
    }

    pub fn with_schedule(mut self, schedule: (ScheduleKind, Option<u32>)) -> Clauses
        ensures { result ≡ said.with_schedule schedule self }
    {
        self.directive.schedule = Some(schedule);
        self
    }

    pub fn with_collapse(mut self, loops: u32) -> Clauses
        ensures { result ≡ said.with_collapse loops self }
    {
        self.directive.collapse = loops;
        self
    }

    pub fn into_directive(self) -> Directive
        ensures { result ≡ self.directive }
    {
        let Clauses {
            directive,
            defaulted: _,
            seen: _,
        } = self;
        directive
    }
}
