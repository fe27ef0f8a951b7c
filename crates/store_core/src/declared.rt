ghost use Rattle.std.specs.Prelude.{◌≡◌, ◌≤◌, ◌^◌, length, map};
ghost use Rattle.std.specs.List.{filter_map};
ghost use Rattle.std.specs.Option.{option_copied};
ghost use Rattle.store_core.specs.Values.{value_in};
ghost use Rattle.store_core.specs.Bounds.{shape_of};
ghost use Rattle.store_core.specs.Keys.{keys_of, laid_all, LaysWithin};
ghost use Rattle.store_core.specs.Places.{declaration_of, local_of, laid_some, shapes_of};

use crate::bound::declared_shape;
use crate::layout::{Layout, LayoutError};
use crate::scope::{any_scopes, is_among};
use crate::values::{Args, Entry};
use fl_ast::{Decl, Name, Program};
use fl_types::Typed;
use std::alloc::Global;

/// The first declaration of a name.
pub fn declaration<'d>(decls: &'d [Decl], name: &Name) -> Option<&'d Decl>
    ensures { option_copied result ≡ declaration_of decls.now name.now }
{
    for decl in decls {
        if name.is(&decl.name) {
            return Some(decl);
        }
    }
    None
}

/// The declaration of a scalar that is no argument and lives not in a loop alone.
fn local<'d>(program: &Program, decl: &'d Decl) -> Option<&'d Decl>
    ensures { option_copied result ≡ local_of program.now decl.now }
{
    if decl.dims.is_empty()
        && !is_among(program.args.as_slice(), &decl.name)
        && !any_scopes(program.body.as_slice(), &decl.name)
    {
        Some(decl)
    } else {
        None
    }
}

impl Layout {
    /// The layout of a program: its arguments in order, and then in the order of their declarations the local scalars
    /// that are neither private nor loop variables. The scalars in bounds have the values that `args` gives them.
    pub fn of(alloc: Global, typed: &Typed, args: &Args) -> Result<Layout, LayoutError>
        ensures { LaysWithin (2 ^ 20) result (shapes_of typed.now args.now.entries) }
    {
        lay(alloc, typed.program(), args)
    }
}

fn lay(alloc: Global, program: &Program, args: &Args) -> Result<Layout, LayoutError>
    ensures { LaysWithin (2 ^ 20) result (shapes_of program.now args.now.entries) }
{
    let values = args.entries.as_slice();
    let layout = Layout::empty(alloc)?;
    let layout = lay_args(alloc, layout, program, values)?;
    lay_locals(alloc, layout, program, values)
}

fn lay_some(
    alloc: Global,
    layout: Layout,
    values: &[Entry],
    decl: Option<&Decl>,
) -> Result<Layout, LayoutError>
    requires { length (keys_of layout) ≤ 2 ^ 20 }
    ensures { LaysWithin (2 ^ 20) result (laid_some values.now layout (option_copied decl.entry)) }
{
    match decl {
        Some(decl) => layout.with(declared_shape(alloc, values, decl)?),
        None => Ok(layout),
    }
}

fn lay_args(
    alloc: Global,
    layout: Layout,
    program: &Program,
    values: &[Entry],
) -> Result<Layout, LayoutError>
    requires { length (keys_of layout) ≤ 2 ^ 20 }
    ensures { LaysWithin (2 ^ 20) result (laid_all layout (map (shape_of (value_in values.now))
        (filter_map (declaration_of program.now.decls) program.now.args))) }
{
    let mut layout = layout;
    let decls = program.decls.as_slice();
    for name in program.args.as_slice() {
        layout = lay_some(alloc, layout, values, declaration(decls, name))?;
    }
    Ok(layout)
}

fn lay_locals(
    alloc: Global,
    layout: Layout,
    program: &Program,
    values: &[Entry],
) -> Result<Layout, LayoutError>
    requires { length (keys_of layout) ≤ 2 ^ 20 }
    ensures { LaysWithin (2 ^ 20) result (laid_all layout (map (shape_of (value_in values.now))
        (filter_map (local_of program.now) program.now.decls))) }
{
    let mut layout = layout;
    for decl in program.decls.as_slice() {
        layout = lay_some(alloc, layout, values, local(program, decl))?;
    }
    Ok(layout)
}
