//! Names and places of adjoints.

ghost use Rattle.std.specs.Prelude.{◌≡◌, IfOk};
ghost use Rattle.fl_ast.specs.Tree.{place_tree, expr_tree};
ghost use Rattle.fl_types.specs.Sharing.{has_name as has_name_lem};
ghost use Rattle.adjoint_rules.specs.OwnNames as own;
ghost use Rattle.adjoint_rules.specs.Expressions.{temporary as temporary_lem};

use fl_ast::{Expr, Kind, Name, Place};
use fl_base::{Boxed, Items, Memory};
use std::alloc::Global;

pub fn has_name(name: &Name, names: &[Name]) -> bool
    ensures { result ≡ has_name_lem name.now names.now }
{
    names.iter().any(|other| name.is(other))
}

/// The name of a name's adjoint.
pub fn adjoint_name(alloc: Global, name: &Name) -> Result<Name, Memory>
    ensures { IfOk result (λ adjoint. adjoint ≡ own.adjoint_name name.now) }
{
    let mut bytes = Vec::from_slice(alloc, name.bytes())?;
    bytes.extend_from_slice(b"_b")?;
    Ok(Name::from_vec(bytes))
}

pub fn adjoint_place(alloc: Global, place: &Place) -> Result<Place, Memory>
    ensures { IfOk result (λ adjoint. place_tree adjoint ≡ own.adjoint_place (place_tree place.now)) }
{
    let mut adjoint = place.clone(alloc)?;
    adjoint.name = adjoint_name(alloc, &place.name)?;
    Ok(adjoint)
}

/// The place of a scalar.
pub fn scalar(alloc: Global, name: &[u8]) -> Result<Place, Memory>
    ensures { IfOk result (λ place. place_tree place ≡ own.scalar name.now) }
{
    let name = Name::of(alloc, name)?;
    Ok(Place {
        name,
        subscripts: Items::new(alloc),
    })
}

/// A scalar's value.
pub fn value(alloc: Global, name: &[u8]) -> Result<Expr, Memory>
    ensures { IfOk result (λ e. expr_tree e ≡ own.value name.now) }
{
    Ok(Expr::Get(scalar(alloc, name)?))
}

/// The place of the temporary that holds an adjoint.
pub fn temporary(alloc: Global) -> Result<Place, Memory>
    ensures { IfOk result (λ place. place_tree place ≡ temporary_lem) }
{
    scalar(alloc, b"formad_t")
}

/// The key of the main tape.
pub fn main_tape(alloc: Global) -> Result<Expr, Memory>
    ensures { IfOk result (λ key. expr_tree key ≡ own.main_tape) }
{
    let one = Expr::Lit {
        value: 1,
        kind: Kind::Index,
    };
    Ok(Expr::Neg(Boxed::new(alloc, one)?))
}
