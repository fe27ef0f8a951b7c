//! What stands around the parts of a loop.

ghost use Rattle.std.specs.Prelude.{◌≡◌};
ghost use Rattle.fl_ast.specs.Tree.{stmt_tree, stmt_trees};
ghost use Rattle.fl_types.specs.Mentions as mentions;
ghost use Rattle.fl_types.specs.Nests as nests;
ghost use Rattle.typing.specs.Firsts as firsts;
ghost use Rattle.typing.specs.Views.{names_in, around_of, optional_region};

use crate::around::{Around, Region, Vars};
use fl_ast::{Directive, Name, Stmt};
use fl_types::is_nest;

pub(crate) fn made_parallel<'t>(
    directive: &'t Option<Directive>,
    var: &'t Name,
    body: &'t [Stmt],
) -> Option<Region<'t>>
    ensures { optional_region result ≡ mentions.made_parallel directive.now var.now (stmt_trees body.now) }
{
    match directive {
        None => None,
        Some(directive) => Some(Region {
            directive,
            var,
            body,
        }),
    }
}

/// Around the bounds and the step of a loop.
pub(crate) fn at_bounds<'v, 't>(around: &Around<'v, 't>, line: u32) -> Around<'v, 't>
    ensures { around_of result ≡ firsts.at_bounds (around_of around.now) line }
{
    if around.in_nest {
        return Around {
            line,
            parallel: None,
            ..*around
        };
    }
    Around { line, ..*around }
}

fn is_nested(parallel: &Option<Region<'_>>) -> bool
    ensures { result ≡ mentions.is_nested (optional_region parallel.now) }
{
    match parallel {
        None => false,
        Some(region) => is_nest(region.directive, region.body),
    }
}

fn innermost<'t>(parallel: Option<Region<'t>>, outer: Option<Region<'t>>) -> Option<Region<'t>>
    ensures { optional_region result ≡ mentions.or_around (optional_region parallel.entry) (optional_region outer.entry) }
{
    match parallel {
        None => outer,
        Some(region) => Some(region),
    }
}

/// Around the statements of a loop, with its variable before those of the loops around it.
pub(crate) fn at_body<'v, 't>(
    around: &Around<'_, 't>,
    vars: &'v Vars<'v>,
    parallel: Option<Region<'t>>,
) -> Around<'v, 't>
    ensures { around_of result ≡ firsts.inside (around_of around.now) (names_in vars.now) (optional_region parallel.entry) }
{
    Around {
        line: around.line,
        vars,
        parallel: innermost(parallel, around.parallel),
        in_nest: is_nested(&parallel),
        own: around.own,
        subscript_of: around.subscript_of,
    }
}
