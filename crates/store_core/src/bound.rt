ghost use Rattle.std.specs.Prelude.{◌≡◌, ◌^◌, pos, neg_ℤ, ◌≤ℤ◌, ◌*ℤ◌, min, IfOk, All};
ghost use Rattle.store_core.specs.Values.{value_in};
ghost use Rattle.store_core.specs.Bounds.{factor_of, term_of, bound_of, axis_of, between, shape_of, IsLow};
ghost use Rattle.store_core.specs.Keys.{size_of};

use crate::layout::Shape;
use crate::values::{Entry, value};
use fl_ast::{Bound, Decl, Dim, Factor, Memory, Sign, Term};
use fl_base::Items;
use std::alloc::Global;

/// The bounds of one dimension: its lower bound, and how many numbers it has.
#[derive(Clone, Copy, Debug)]
pub struct Axis {
    pub lower: i128,
    pub extent: u128,
}

fn factor_value(values: &[Entry], factor: &Factor) -> i128
    ensures value { result ≡ factor_of (value_in values.now) factor.now }
    ensures low { neg_ℤ (pos (2 ^ 32)) ≤ℤ result }
    ensures high { result ≤ℤ pos (2 ^ 32) }
{
    match factor {
        Factor::Lit(n) => i128::from(*n),
        Factor::Minus(n) => -i128::from(*n),
        Factor::Scalar(name) => i128::from(value(values, name)),
    }
}

fn term_value(values: &[Entry], term: &Term) -> i128
    ensures value { result ≡ term_of (value_in values.now) term.now }
    ensures low { neg_ℤ (pos (2 ^ 64)) ≤ℤ result }
    ensures high { result ≤ℤ pos (2 ^ 64) }
{
    let first = factor_value(values, &term.first);
    match &term.second {
        Some(second) => times(first, factor_value(values, second)),
        None => first,
    }
}

fn bound_value(values: &[Entry], bound: &Bound) -> i128
    ensures value { result ≡ bound_of (value_in values.now) bound.now }
    ensures low { neg_ℤ (pos (2 ^ 65)) ≤ℤ result }
    ensures high { result ≤ℤ pos (2 ^ 65) }
{
    let first = term_value(values, &bound.first);
    match &bound.rest {
        Some((Sign::Plus, rest)) => first + term_value(values, rest),
        Some((Sign::Minus, rest)) => first - term_value(values, rest),
        None => first,
    }
}

/// The bounds of a dimension as numbers.
fn dim_axis(values: &[Entry], dim: &Dim) -> Axis
    ensures value { result ≡ axis_of (value_in values.now) dim.now }
    ensures low { IsLow result }
{
    let lower = match &dim.lower {
        Some(lower) => bound_value(values, lower),
        None => 1,
    };
    axis_between(lower, bound_value(values, &dim.upper))
}

fn times(a: i128, b: i128) -> i128
    requires a_low { neg_ℤ (pos (2 ^ 32)) ≤ℤ a }
    requires a_high { a ≤ℤ pos (2 ^ 32) }
    requires b_low { neg_ℤ (pos (2 ^ 32)) ≤ℤ b }
    requires b_high { b ≤ℤ pos (2 ^ 32) }
    ensures value { result ≡ a *ℤ b }
    ensures low { neg_ℤ (pos (2 ^ 64)) ≤ℤ result }
    ensures high { result ≤ℤ pos (2 ^ 64) }
{
    a * b
}

fn axis_between(lower: i128, upper: i128) -> Axis
    requires lower_low { neg_ℤ (pos (2 ^ 65)) ≤ℤ lower }
    requires lower_high { lower ≤ℤ pos (2 ^ 65) }
    requires upper_low { neg_ℤ (pos (2 ^ 65)) ≤ℤ upper }
    requires upper_high { upper ≤ℤ pos (2 ^ 65) }
    ensures { result ≡ between lower upper }
{
    let extent = upper - lower + 1;
    Axis {
        lower,
        extent: if 0 <= extent { extent as u128 } else { 0 },
    }
}

const CAP: u128 = 0x100_0000_0000;

/// The number of elements, or 2^40 where there are more.
pub fn size(axes: &[Axis]) -> u64
    ensures { result ≡ min (size_of axes.now) (2 ^ 40) }
{
    let mut size: u128 = 1;
    for axis in axes {
        size = size.saturating_mul(axis.extent).min(CAP);
    }
    size as u64
}

/// A declared name with its bounds, `values` giving the scalars in them.
pub fn declared_shape(alloc: Global, values: &[Entry], decl: &Decl) -> Result<Shape, Memory>
    ensures value { IfOk result (λ s. s ≡ shape_of (value_in values.now) decl.now) }
    ensures low { IfOk result (λ s. All IsLow s.axes) }
{
    let mut axes = Items::new(alloc);
    for dim in decl.dims.as_slice() {
        axes.push(dim_axis(values, dim))?;
    }
    Ok(Shape {
        name: decl.name.clone(alloc)?,
        axes,
    })
}
