ghost use Rattle.std.specs.Prelude.{◌≡◌, ◌+◌, ◌<◌, ◌^◌, IfOk, max};
ghost use Rattle.fl_expressions.specs.Trees as trees;

use fl_ast::{BinOp, Expr, Fun, Kind, Place};
use fl_base::{Boxed, Items, Memory};
use parsing::{Number, Word};
use std::alloc::Global;

/// An expression and the depth of its tree.
#[derive(Drop)]
pub struct Measured {
    pub expr: Boxed<Expr>,
    pub depth: usize,
}

/// Expressions, and the depth of the deepest.
#[derive(Drop)]
pub struct Listed {
    pub exprs: Items<Expr>,
    pub depth: usize,
}

fn deepest(a: usize, b: usize) -> usize
    ensures { result ≡ max a b }
{
    if a < b { b } else { a }
}

/// The kind that the suffix of a number gives it.
pub fn kind_of(suffix: Option<u8>) -> Kind
    ensures { result ≡ trees.kind_of suffix }
{
    if suffix == Some(8) {
        Kind::Ring
    } else {
        Kind::Index
    }
}

pub fn literal(alloc: Global, number: Number) -> Result<Measured, Memory>
    ensures { IfOk result (λ x. x ≡ trees.literal number) }
{
    let expr = Expr::Lit {
        value: number.value,
        kind: kind_of(number.suffix),
    };
    Ok(Measured {
        expr: Boxed::new(alloc, expr)?,
        depth: 1,
    })
}

pub fn scalar(alloc: Global, word: Word) -> Result<Measured, Memory>
    ensures { IfOk result (λ x. x ≡ trees.scalar word) }
{
    let expr = Expr::Get(Place {
        name: word.name,
        subscripts: Items::new(alloc),
    });
    Ok(Measured {
        expr: Boxed::new(alloc, expr)?,
        depth: 1,
    })
}

pub fn negation(alloc: Global, e: Measured) -> Result<Measured, Memory>
    requires { e.depth < 2 ^ 33 }
    ensures { IfOk result (λ x. x ≡ trees.negation e) }
{
    let depth = e.depth + 1;
    Ok(Measured {
        expr: Boxed::new(alloc, Expr::Neg(e.expr))?,
        depth,
    })
}

pub fn binary(alloc: Global, op: BinOp, l: Measured, r: Measured) -> Result<Measured, Memory>
    requires left { l.depth < 2 ^ 33 }
    requires right { r.depth < 2 ^ 33 }
    ensures { IfOk result (λ x. x ≡ trees.binary op l r) }
{
    let depth = deepest(l.depth, r.depth) + 1;
    let expr = Expr::Bin {
        op,
        left: l.expr,
        right: r.expr,
    };
    Ok(Measured {
        expr: Boxed::new(alloc, expr)?,
        depth,
    })
}

pub fn power(alloc: Global, e: Measured, n: Number) -> Result<Measured, Memory>
    requires depth { e.depth < 2 ^ 33 }
    requires exponent { n.value < 2 ^ 32 }
    ensures { IfOk result (λ x. x ≡ trees.power e n) }
{
    let depth = e.depth + 1;
    let expr = Expr::Pow {
        base: e.expr,
        exponent: n.value as u32,
    };
    Ok(Measured {
        expr: Boxed::new(alloc, expr)?,
        depth,
    })
}

pub fn no_exprs(alloc: Global) -> Listed
    ensures { result ≡ trees.no_exprs }
{
    Listed {
        exprs: Items::new(alloc),
        depth: 0,
    }
}

pub fn one_more(list: Listed, e: Measured) -> Result<Listed, Memory>
    ensures { IfOk result (λ x. x ≡ trees.one_more list e) }
{
    let depth = deepest(list.depth, e.depth);
    let mut exprs = list.exprs;
    exprs.push(e.expr.into_inner())?;
    Ok(Listed { exprs, depth })
}

pub fn two_exprs(alloc: Global, a: Measured, b: Measured) -> Result<Listed, Memory>
    ensures { IfOk result (λ x. x ≡ trees.one_more (trees.one_more trees.no_exprs a) b) }
{
    let first = one_more(no_exprs(alloc), a)?;
    Ok(one_more(first, b)?)
}

pub fn element(alloc: Global, word: Word, list: Listed) -> Result<Measured, Memory>
    requires { list.depth < 2 ^ 33 }
    ensures { IfOk result (λ x. x ≡ trees.element word list) }
{
    let depth = list.depth + 1;
    let expr = Expr::Get(Place {
        name: word.name,
        subscripts: list.exprs,
    });
    Ok(Measured {
        expr: Boxed::new(alloc, expr)?,
        depth,
    })
}

pub fn call(alloc: Global, fun: Fun, list: Listed) -> Result<Measured, Memory>
    requires { list.depth < 2 ^ 33 }
    ensures { IfOk result (λ x. x ≡ trees.call_of fun list) }
{
    let depth = list.depth + 1;
    let expr = Expr::Call {
        fun,
        args: list.exprs,
    };
    Ok(Measured {
        expr: Boxed::new(alloc, expr)?,
        depth,
    })
}
