//! Names of an adjoint's own that have a loop's number.

ghost use Rattle.std.specs.Prelude.{◌≡◌, ◌++◌, decimal, IfOk};
ghost use Rattle.fl_ast.specs.Tree.{expr_tree, place_tree};
ghost use Rattle.adjoint_rules.specs.OwnNames as own;

use fl_ast::{Expr, Name, Place};
use fl_base::{Boxed, Items, Memory};
use itoa::Buffer;
use std::alloc::Global;

/// A word with a number behind it.
pub fn numbered(alloc: Global, word: &[u8], number: u32) -> Result<Name, Memory>
    ensures { IfOk result (λ name. name ≡ word.now ++ decimal number) }
{
    let mut buffer = Buffer::new();
    let mut bytes = Vec::from_slice(alloc, word)?;
    bytes.extend_from_slice(buffer.format(number).as_bytes())?;
    Ok(Name::from_vec(bytes))
}

pub fn numbered_place(alloc: Global, word: &[u8], number: u32) -> Result<Place, Memory>
    ensures { IfOk result (λ place. place_tree place ≡ own.scalar (word.now ++ decimal number)) }
{
    let name = numbered(alloc, word, number)?;
    Ok(Place {
        name,
        subscripts: Items::new(alloc),
    })
}

pub fn numbered_value(alloc: Global, word: &[u8], number: u32) -> Result<Boxed<Expr>, Memory>
    ensures { IfOk result (λ e. expr_tree e ≡ own.value (word.now ++ decimal number)) }
{
    let place = numbered_place(alloc, word, number)?;
    Boxed::new(alloc, Expr::Get(place))
}
