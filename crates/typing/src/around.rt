ghost use Rattle.std.specs.Prelude.{◌≡◌};
ghost use Rattle.fl_types.specs.Sharing.{has_name};
ghost use Rattle.typing.specs.Views.{names_in};

use crate::rule::Rule;
use fl_ast::{Directive, Stmt};
use fl_base::Name;

/// The variables of the loops around a place, the innermost first.
#[derive(Clone, Copy)]
pub enum Vars<'a> {
    Outside,
    Inside { var: &'a Name, outer: &'a Vars<'a> },
}

impl<'a> Vars<'a> {
    pub fn has(&self, name: &Name) -> bool
        ensures { result ≡ has_name name.now (names_in self.now) }
    {
        match self {
            Vars::Outside => false,
            Vars::Inside { var, outer } => name.is(var) || outer.has(name),
        }
    }
}

/// A parallel loop.
#[derive(Clone, Copy)]
pub struct Region<'a> {
    pub directive: &'a Directive,
    pub var: &'a Name,
    pub body: &'a [Stmt],
}

/// What stands around a name or number of the body.
#[derive(Clone, Copy)]
pub struct Around<'v, 't> {
    /// Of the innermost tree that has a line.
    pub line: u32,
    pub vars: &'v Vars<'v>,
    /// The parallel loop around it.
    pub parallel: Option<Region<'t>>,
    /// Directly in a loop that is collapsed with the loop there.
    pub in_nest: bool,
    /// The name of which the statement is an increment.
    pub own: Option<&'t Name>,
    /// The target in whose subscripts it stands.
    pub subscript_of: Option<&'t Name>,
}

/// What is wrong with the expressions and the assignment that have their last name or number at a place.
#[derive(Clone, Copy)]
pub struct Ends {
    /// `max` or `min` of two kinds.
    pub clash: bool,
    /// `/` or `mod` of data.
    pub division: bool,
    /// Data where an index is due.
    pub index: bool,
    /// An atomic statement that is none.
    pub atomic: bool,
}

/// A broken rule, at a name or number; the name is empty where the rule tells none.
#[derive(Clone, Copy)]
pub struct Fault<'a> {
    pub rule: Rule,
    pub line: u32,
    pub name: &'a [u8],
}
