ghost use Rattle.std.specs.Prelude.{◌≡◌, ◌++◌, ◌+◌, ◌<◌, ◌≤◌, ◌^◌, ◌≤ℤ◌, ◌+ℤ◌, pos, All, length, IfOk, OnOk};
ghost use Rattle.std.specs.Fmt.{signed_decimal};
ghost use Rattle.store_core.specs.Keys.{keys_of, size_of};
ghost use Rattle.store_core.specs.Bounds.{IsLow};
ghost use Rattle.store_core.specs.Texts.{subscripts_at, brackets, rest_text, text_of, IsTextAt};

use crate::bound::Axis;
use crate::layout::{Layout, Shape};
use fl_base::{Items, Memory};
use std::alloc::Global;

impl Axis {
    /// The subscript that is so far above the lower bound.
    fn above(&self, step: u32) -> i128
        requires { IsLow self.now }
        ensures { result ≡ self.now.lower +ℤ pos step }
    {
        self.lower + i128::from(step)
    }
}

/// The subscripts at a position.
pub(crate) fn subscripts(alloc: Global, axes: &[Axis], at: u32) -> Result<Items<i128>, Memory>
    requires below { at < size_of axes.now }
    requires room { size_of axes.now ≤ 2 ^ 21 }
    requires lows { All IsLow axes.now }
    ensures { IfOk result (λ ss. ss ≡ subscripts_at axes.now at) }
{
    let mut subscripts = Items::new(alloc);
    let mut rest = at;
    for axis in axes {
        let extent = axis.extent as u32;
        let subscript = axis.above(rest % extent);
        subscripts.push(subscript)?;
        rest /= extent;
    }
    Ok(subscripts)
}

/// Adds subscripts in brackets.
pub(crate) fn put_brackets(
    alloc: Global,
    text: &mut Vec<u8>,
    subscripts: &[i128],
) -> Result<(), Memory>
    ensures { OnOk result (text.new.items ≡ text.old.items ++ brackets subscripts.now) }
{
    match subscripts {
        [] => Ok(()),
        [first, rest @ ..] => {
            text.push(b'(')?;
            put_number(alloc, text, *first)?;
            put_rest(alloc, text, rest)
        }
    }
}

fn put_rest(alloc: Global, text: &mut Vec<u8>, subscripts: &[i128]) -> Result<(), Memory>
    ensures { OnOk result (text.new.items ≡ text.old.items ++ rest_text subscripts.now) }
{
    for subscript in subscripts {
        text.push(b',')?;
        put_number(alloc, text, *subscript)?;
    }
    text.push(b')')?;
    Ok(())
}

fn put_number(alloc: Global, text: &mut Vec<u8>, number: i128) -> Result<(), Memory>
    ensures { OnOk result (text.new.items ≡ text.old.items ++ signed_decimal number) }
{
    let digits = format!(in alloc; "{number}")?;
    text.extend_from_slice(digits.as_bytes())?;
    Ok(())
}

impl Layout {
    /// The text of a place, as `y(2,3)`.
    pub fn name_of(&self, alloc: Global, place: u32) -> Result<Vec<u8>, Memory>
        requires { place < length (keys_of self.now) }
        ensures { IfOk result (λ text. IsTextAt (keys_of self.now) place text.items) }
    {
        let shapes = self.shapes();
        for (slot, shape) in shapes.iter().enumerate() {
            if place < self.next(slot) {
                let at = place - self.first(slot);
                return place_text(alloc, shape, at);
            }
        }
        unreachable!()
    }
}

/// The name of a shape with the subscripts at a position.
fn place_text(alloc: Global, shape: &Shape, at: u32) -> Result<Vec<u8>, Memory>
    requires below { at < size_of shape.now.axes }
    requires room { size_of shape.now.axes ≤ 2 ^ 21 }
    requires lows { All IsLow shape.now.axes }
    ensures { IfOk result (λ text. text.items
        ≡ text_of (shape.now.name, subscripts_at shape.now.axes at)) }
{
    let mut text = Vec::from_slice(alloc, shape.name.bytes())?;
    let subscripts = subscripts(alloc, shape.axes.as_slice(), at)?;
    put_brackets(alloc, &mut text, subscripts.as_slice())?;
    Ok(text)
}
