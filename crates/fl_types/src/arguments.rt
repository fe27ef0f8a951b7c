//! Names in lists, kinds, and arguments of the ring kind: a function for each definition of its name.

ghost use Rattle.std.specs.Prelude.{◌≡◌};
ghost use Rattle.fl_types.specs.Declarations as declarations;
ghost use Rattle.fl_types.specs.Sharing as sharing;

use fl_ast::{Decl, Kind, Name, Program};

pub(crate) fn has_name(name: &Name, names: &[Name]) -> bool
    ensures { result ≡ sharing.has_name name.now names.now }
{
    names.iter().any(|other| name.is(other))
}

pub(crate) fn is_ring_kind(kind: Kind) -> bool
    ensures { result ≡ sharing.is_ring_kind kind }
{
    match kind {
        Kind::Ring => true,
        Kind::Index => false,
    }
}

pub fn is_ring_argument(program: &Program, name: &Name) -> bool
    ensures { result ≡ declarations.is_ring_argument program.now name.now }
{
    has_name(name, program.args.as_slice()) && is_ring_name(program.decls.as_slice(), name)
}

fn is_ring_name(decls: &[Decl], name: &Name) -> bool
    ensures { result ≡ sharing.is_ring_name decls.now name.now }
{
    decls
        .iter()
        .any(|decl| name.is(&decl.name) && is_ring_kind(decl.kind))
}
