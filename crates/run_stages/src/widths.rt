ghost use Rattle.std.specs.Prelude.{◌≡◌, map, length, IfOk};
ghost use Rattle.fl_types.specs.Sharing.{is_ring_kind as is_ring_kind_lem};
ghost use Rattle.store_core.specs.Keys.{keys_of};
ghost use Rattle.meaning.specs.Sites.{width_of as width_of_lem, data_width as data_width_lem};
ghost use Rattle.answers.specs.Runs.{shown_word, shown_at};

use fl_ast::{Decl, Kind, Name};
use fl_base::Memory;
use fl_types::Typed;
use ring_core::{Ring, Width};
use std::alloc::Global;
use store_core::{Layout, Weights};

fn is_ring_kind(kind: Kind) -> bool
    ensures { result ≡ is_ring_kind_lem kind }
{
    match kind {
        Kind::Ring => true,
        Kind::Index => false,
    }
}

fn width_of(bytes: u32) -> Width
    ensures { result ≡ width_of_lem bytes }
{
    match bytes {
        1 => Width::Bits8,
        2 => Width::Bits16,
        _ => Width::Bits64,
    }
}

/// The width of data, by the first name of the ring kind.
fn data_width(decls: &[Decl]) -> Width
    ensures { result ≡ data_width_lem decls.now }
{
    for decl in decls {
        if is_ring_kind(decl.kind) {
            return width_of(decl.bytes);
        }
    }
    Width::Bits64
}

/// Words as an answer shows them.
fn shown_words(alloc: Global, width: Width, words: &[u64]) -> Result<Vec<u64>, Memory>
    ensures { IfOk result (λ all. all.items ≡ map (shown_word width) words.now) }
{
    let mut all = Vec::with_capacity(alloc, words.len())?;
    for word in words {
        all.push(Ring::of_word(*word).signed_at(width).cast_unsigned())?;
    }
    Ok(all)
}

/// Names with their words, from the words of all places.
pub fn shown_by_width(
    alloc: Global,
    typed: &Typed,
    layout: &Layout,
    words: &[u64],
    names: &[Name],
) -> Result<Weights, Memory>
    requires { length words.now ≡ length (keys_of layout.now) }
    ensures { IfOk result (λ weights. weights ≡ shown_at typed.now layout.now words.now names.now) }
{
    let width = data_width(typed.program().decls.as_slice());
    let shown = shown_words(alloc, width, words)?;
    let entries = layout.entries(alloc, &shown, names)?;
    Ok(Weights { entries })
}
