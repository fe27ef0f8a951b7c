//! What declarations say of names.

ghost use Rattle.std.specs.Prelude.{◌≡◌};
ghost use Rattle.fl_types.specs.Sharing as sharing;
ghost use Rattle.fl_types.specs.Declarations as declarations;
ghost use Rattle.fl_types.specs.WellTyped as typed;

use fl_ast::{Decl, Intent, Kind, Name};
use known_names::Indexed;

pub(crate) fn has_name(name: &Name, names: &[Name]) -> bool
    ensures { result ≡ sharing.has_name name.now names.now }
{
    names.iter().any(|other| name.is(other))
}

pub(crate) fn is_declared(decls: &[Decl], name: &Name) -> bool
    ensures { result ≡ declarations.is_declared decls.now name.now }
{
    decls.iter().any(|decl| decl.name.is(name))
}

pub(crate) fn is_reserved(name: &Name) -> bool
    ensures { result ≡ declarations.is_reserved name.now }
{
    let bytes = name.bytes();
    bytes.ends_with(b"_b") || bytes.starts_with(b"formad_") || bytes.len() > 61
}

pub(crate) fn is_ring_kind(kind: Kind) -> bool
    ensures { result ≡ sharing.is_ring_kind kind }
{
    match kind {
        Kind::Ring => true,
        Kind::Index => false,
    }
}

fn is_read_only(intent: Intent) -> bool
    ensures { result ≡ declarations.is_read_only intent }
{
    match intent {
        Intent::ReadOnly => true,
        Intent::Unsaid | Intent::WriteOnly | Intent::Both => false,
    }
}

pub(crate) fn is_scalar(program: &Indexed<'_>, name: &Name) -> bool
    ensures { result ≡ typed.is_scalar_declared (typed.declaration_of program.now.decls name.now) }
{
    match program.declaration(name) {
        Some(decl) => decl.dims.is_empty(),
        None => false,
    }
}

fn is_ring(program: &Indexed<'_>, name: &Name) -> bool
    ensures { result ≡ typed.is_ring_declared (typed.declaration_of program.now.decls name.now) }
{
    match program.declaration(name) {
        Some(decl) => is_ring_kind(decl.kind),
        None => false,
    }
}

fn is_index(program: &Indexed<'_>, name: &Name) -> bool
    ensures { result ≡ typed.is_index_declared (typed.declaration_of program.now.decls name.now) }
{
    match program.declaration(name) {
        Some(decl) => !is_ring_kind(decl.kind),
        None => false,
    }
}

fn is_kept(program: &Indexed<'_>, name: &Name) -> bool
    ensures { result ≡ typed.is_read_only_declared (typed.declaration_of program.now.decls name.now) }
{
    match program.declaration(name) {
        Some(decl) => is_read_only(decl.intent),
        None => false,
    }
}

pub(crate) fn is_index_scalar_argument(program: &Indexed<'_>, name: &Name) -> bool
    ensures { result ≡ typed.is_index_scalar_argument program.now name.now }
{
    if !program.is_argument(name) {
        return false;
    }
    is_index(program, name) && is_scalar(program, name)
}

pub(crate) fn is_local_scalar(program: &Indexed<'_>, name: &Name) -> bool
    ensures { result ≡ typed.is_local_scalar program.now name.now }
{
    !program.is_argument(name) && is_scalar(program, name)
}

pub(crate) fn is_local_index_scalar(program: &Indexed<'_>, name: &Name) -> bool
    ensures { result ≡ typed.is_local_index_scalar program.now name.now }
{
    is_index(program, name) && is_local_scalar(program, name)
}

pub(crate) fn is_ring_scalar(program: &Indexed<'_>, name: &Name) -> bool
    ensures { result ≡ typed.is_ring_scalar program.now name.now }
{
    is_ring(program, name) && is_scalar(program, name)
}

pub(crate) fn is_read_only_argument(program: &Indexed<'_>, name: &Name) -> bool
    ensures { result ≡ typed.is_read_only_argument program.now name.now }
{
    program.is_argument(name) && is_kept(program, name)
}

pub(crate) fn is_argument_if_array(program: &Indexed<'_>, decl: &Decl) -> bool
    ensures { result ≡ typed.is_argument_if_array program.now.args decl.now }
{
    decl.dims.is_empty() || program.is_argument(&decl.name)
}

/// The bytes of data: those of the first declaration of data.
fn bytes_of_data(decls: &[Decl]) -> u32
    ensures { result ≡ typed.bytes_of_data decls.now }
{
    for decl in decls {
        if is_ring_kind(decl.kind) {
            return decl.bytes;
        }
    }
    8
}

pub(crate) fn has_bytes_of_data(decls: &[Decl], decl: &Decl) -> bool
    ensures { result ≡ typed.has_bytes (typed.bytes_of_data decls.now) decl.now }
{
    !is_ring_kind(decl.kind) || decl.bytes == bytes_of_data(decls)
}
