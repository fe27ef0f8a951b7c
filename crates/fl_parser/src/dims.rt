//! Dimensions of declarations.

ghost use Rattle.std.specs.Prelude.{◌≡◌, ◌++◌, ◌∷◌, [], IfOk};
ghost use Rattle.parsing.specs.Code.{Reads};
ghost use Rattle.parsing.specs.Reading as reading;
ghost use Rattle.fl_parser.specs.DimReading as spec;
ghost use Rattle.fl_parser.specs.Terminals as terminals;

use fl_ast::{Bound, Dim, Factor, Sign, Term};
use fl_base::{Held, Items, Memory};
use parsing::{Cause, Cursor, Failure, Symbol};
use std::alloc::Global;

/// The greatest number in a bound.
const BOUND_NUMBER: u64 = 4_294_967_295;

fn with_dim(mut found: Items<Dim>, dim: Dim) -> Result<Items<Dim>, Memory>
    ensures { IfOk result (λ x. x ≡ found ++ dim ∷ []) }
{
    found.push(dim)?;
    Ok(found)
}

fn sign(tokens: &mut Cursor<'_>) -> Result<Sign, Failure>
    ensures { Reads (reading.token terminals.bound_sign tokens.old) result tokens.new }
{
    match tokens.ahead() {
        Some(Symbol::Plus) => {
            let _sign = tokens.mark(Symbol::Plus)?;
            Ok(Sign::Plus)
        }
        Some(Symbol::Minus) => {
            let _sign = tokens.mark(Symbol::Minus)?;
            Ok(Sign::Minus)
        }
        _ => Err(tokens.refuse(Cause::Expected)),
    }
}

fn is_sign(tokens: &Cursor<'_>) -> bool
    ensures { result ≡ reading.sees terminals.is_bound_sign tokens.now }
{
    matches!(tokens.ahead(), Some(Symbol::Plus | Symbol::Minus))
}

#[tactic(auto, unfolding(crate::specs::DimReading::name_factor))]
fn name_factor(alloc: Global, tokens: &mut Cursor<'_>) -> Result<Factor, Failure>
    ensures { Reads (spec.name_factor tokens.old) result tokens.new }
{
    let word = tokens.name(alloc)?;
    Ok(Factor::Scalar(word.name))
}

#[tactic(auto, unfolding(crate::specs::DimReading::number_factor))]
fn number_factor(tokens: &mut Cursor<'_>) -> Result<Factor, Failure>
    ensures { Reads (spec.number_factor tokens.old) result tokens.new }
{
    let number = tokens.plain_number(BOUND_NUMBER)?;
    Ok(Factor::Lit(number.value as u32))
}

#[tactic(auto, unfolding(crate::specs::DimReading::bound_factor))]
fn bound_factor(alloc: Global, tokens: &mut Cursor<'_>) -> Result<Factor, Failure>
    ensures { Reads (spec.bound_factor tokens.old) result tokens.new }
{
    if tokens.sees_name() {
        return name_factor(alloc, tokens);
    }
    number_factor(tokens)
}

#[tactic(auto, unfolding(crate::specs::DimReading::second_factor))]
fn second_factor(alloc: Global, tokens: &mut Cursor<'_>) -> Result<Option<Factor>, Failure>
    ensures { Reads (spec.second_factor tokens.old) result tokens.new }
{
    if tokens.sees(Symbol::Star) {
        let _star = tokens.mark(Symbol::Star)?;
        let factor = bound_factor(alloc, tokens)?;
        return Ok(Some(factor));
    }
    Ok(None)
}

#[tactic(auto, unfolding(crate::specs::DimReading::bound_term))]
fn bound_term(alloc: Global, tokens: &mut Cursor<'_>) -> Result<Term, Failure>
    ensures { Reads (spec.bound_term tokens.old) result tokens.new }
{
    let first = bound_factor(alloc, tokens)?;
    let second = second_factor(alloc, tokens)?;
    Ok(Term { first, second })
}

#[tactic(auto, unfolding(crate::specs::DimReading::negative_term))]
fn negative_term(alloc: Global, tokens: &mut Cursor<'_>) -> Result<Term, Failure>
    ensures { Reads (spec.negative_term tokens.old) result tokens.new }
{
    let _minus = tokens.mark(Symbol::Minus)?;
    let number = tokens.plain_number(BOUND_NUMBER)?;
    let second = second_factor(alloc, tokens)?;
    Ok(Term {
        first: Factor::Minus(number.value as u32),
        second,
    })
}

#[tactic(auto, unfolding(crate::specs::DimReading::first_term))]
fn first_term(alloc: Global, tokens: &mut Cursor<'_>) -> Result<Term, Failure>
    ensures { Reads (spec.first_term tokens.old) result tokens.new }
{
    if tokens.sees(Symbol::Minus) {
        return negative_term(alloc, tokens);
    }
    bound_term(alloc, tokens)
}

#[tactic(auto, unfolding(crate::specs::DimReading::other_term))]
fn other_term(alloc: Global, tokens: &mut Cursor<'_>) -> Result<Option<(Sign, Term)>, Failure>
    ensures { Reads (spec.other_term tokens.old) result tokens.new }
{
    if is_sign(tokens) {
        let sign = sign(tokens)?;
        let term = bound_term(alloc, tokens)?;
        return Ok(Some((sign, term)));
    }
    Ok(None)
}

#[tactic(auto, unfolding(crate::specs::DimReading::bound))]
fn bound(alloc: Global, tokens: &mut Cursor<'_>) -> Result<Bound, Failure>
    ensures { Reads (spec.bound tokens.old) result tokens.new }
{
    let first = first_term(alloc, tokens)?;
    let rest = other_term(alloc, tokens)?;
    Ok(Bound { first, rest })
}

#[tactic(auto, unfolding(crate::specs::DimReading::after_bound))]
fn after_bound(alloc: Global, tokens: &mut Cursor<'_>, first: Bound) -> Result<Dim, Failure>
    ensures { Reads (spec.after_bound first tokens.old) result tokens.new }
{
    if tokens.sees(Symbol::Colon) {
        let lower = Held::of(first);
        let _colon = tokens.mark(Symbol::Colon)?;
        let upper = bound(alloc, tokens)?;
        return Ok(Dim {
            lower: Some(lower.into_inner()),
            upper,
        });
    }
    Ok(Dim {
        lower: None,
        upper: first,
    })
}

#[tactic(auto, unfolding(crate::specs::DimReading::dim))]
fn dim(alloc: Global, tokens: &mut Cursor<'_>) -> Result<Dim, Failure>
    ensures { Reads (spec.dim tokens.old) result tokens.new }
{
    let first = bound(alloc, tokens)?;
    after_bound(alloc, tokens, first)
}

#[tactic(auto, unfolding(crate::specs::DimReading::another_dim))]
fn another_dim(
    alloc: Global,
    tokens: &mut Cursor<'_>,
    found: Items<Dim>,
) -> Result<Items<Dim>, Failure>
    ensures { Reads (spec.another_dim found tokens.old) result tokens.new }
{
    let _comma = tokens.mark(Symbol::Comma)?;
    let dim = dim(alloc, tokens)?;
    Ok(with_dim(found, dim)?)
}

fn more_dims(
    alloc: Global,
    tokens: &mut Cursor<'_>,
    mut found: Items<Dim>,
) -> Result<Items<Dim>, Failure>
    ensures { Reads (spec.more_dims found tokens.old) result tokens.new }
{
    for _turn in 0..tokens.len() {
        if !tokens.sees(Symbol::Comma) {
            return Ok(found);
        }
        found = another_dim(alloc, tokens, found)?;
    }
    Ok(found)
}

#[tactic(auto, unfolding(crate::specs::DimReading::dims))]
fn dims(alloc: Global, tokens: &mut Cursor<'_>) -> Result<Items<Dim>, Failure>
    ensures { Reads (spec.dims tokens.old) result tokens.new }
{
    let dim = dim(alloc, tokens)?;
    let first = with_dim(Items::new(alloc), dim)?;
    more_dims(alloc, tokens, first)
}

#[tactic(auto, unfolding(crate::specs::DimReading::bracketed_dims))]
fn bracketed_dims(alloc: Global, tokens: &mut Cursor<'_>) -> Result<Items<Dim>, Failure>
    ensures { Reads (spec.bracketed_dims tokens.old) result tokens.new }
{
    let _open = tokens.mark(Symbol::Open)?;
    let found = dims(alloc, tokens)?;
    let _close = tokens.mark(Symbol::Close)?;
    Ok(found)
}

/// The dimensions of a name, none of a scalar.
#[tactic(auto, unfolding(crate::specs::DimReading::shape))]
pub fn shape(alloc: Global, tokens: &mut Cursor<'_>) -> Result<Items<Dim>, Failure>
    ensures { Reads (spec.shape tokens.old) result tokens.new }
{
    if tokens.sees(Symbol::Open) {
        return bracketed_dims(alloc, tokens);
    }
    Ok(Items::new(alloc))
}
