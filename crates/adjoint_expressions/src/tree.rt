ghost use Rattle.std.specs.Prelude.{◌≡◌, ◌+◌, ◌<◌, ◌^◌, IfOk, max};
ghost use Rattle.adjoint_expressions.specs.Trees as trees;

use fl_ast::{AExpr, BinOp, Fun, Place};
use fl_base::{Boxed, Items, Memory};
use fl_conditions::Judged;
use fl_expressions::{Listed, kind_of};
use parsing::{Number, Word};
use std::alloc::Global;

/// An expression and the depth of its tree.
#[derive(Drop)]
pub struct AMeasured {
    pub expr: Boxed<AExpr>,
    pub depth: usize,
}

/// Expressions, and the depth of the deepest.
#[derive(Drop)]
pub struct AListed {
    pub exprs: Items<AExpr>,
    pub depth: usize,
}

fn deepest(a: usize, b: usize) -> usize
    ensures { result ≡ max a b }
{
    if a < b { b } else { a }
}

pub fn literal(alloc: Global, number: Number) -> Result<AMeasured, Memory>
    ensures { IfOk result (λ x. x ≡ trees.literal number) }
{
    let expr = AExpr::Lit {
        value: number.value,
        kind: kind_of(number.suffix),
    };
    Ok(AMeasured {
        expr: Boxed::new(alloc, expr)?,
        depth: 1,
    })
}

pub fn scalar(alloc: Global, word: Word) -> Result<AMeasured, Memory>
    ensures { IfOk result (λ x. x ≡ trees.scalar word) }
{
    let expr = AExpr::Get(Place {
        name: word.name,
        subscripts: Items::new(alloc),
    });
    Ok(AMeasured {
        expr: Boxed::new(alloc, expr)?,
        depth: 1,
    })
}

pub fn negation(alloc: Global, e: AMeasured) -> Result<AMeasured, Memory>
    requires { e.depth < 2 ^ 33 }
    ensures { IfOk result (λ x. x ≡ trees.negation e) }
{
    let depth = e.depth + 1;
    Ok(AMeasured {
        expr: Boxed::new(alloc, AExpr::Neg(e.expr))?,
        depth,
    })
}

pub fn binary(alloc: Global, op: BinOp, l: AMeasured, r: AMeasured) -> Result<AMeasured, Memory>
    requires left { l.depth < 2 ^ 33 }
    requires right { r.depth < 2 ^ 33 }
    ensures { IfOk result (λ x. x ≡ trees.binary op l r) }
{
    let depth = deepest(l.depth, r.depth) + 1;
    let expr = AExpr::Bin {
        op,
        left: l.expr,
        right: r.expr,
    };
    Ok(AMeasured {
        expr: Boxed::new(alloc, expr)?,
        depth,
    })
}

pub fn power(alloc: Global, e: AMeasured, n: Number) -> Result<AMeasured, Memory>
    requires depth { e.depth < 2 ^ 33 }
    requires exponent { n.value < 2 ^ 32 }
    ensures { IfOk result (λ x. x ≡ trees.power e n) }
{
    let depth = e.depth + 1;
    let expr = AExpr::Pow {
        base: e.expr,
        exponent: n.value as u32,
    };
    Ok(AMeasured {
        expr: Boxed::new(alloc, expr)?,
        depth,
    })
}

pub fn no_exprs(alloc: Global) -> AListed
    ensures { result ≡ trees.no_exprs }
{
    AListed {
        exprs: Items::new(alloc),
        depth: 0,
    }
}

pub fn one_more(list: AListed, e: AMeasured) -> Result<AListed, Memory>
    ensures { IfOk result (λ x. x ≡ trees.one_more list e) }
{
    let depth = deepest(list.depth, e.depth);
    let mut exprs = list.exprs;
    exprs.push(e.expr.into_inner())?;
    Ok(AListed { exprs, depth })
}

pub fn two_exprs(alloc: Global, a: AMeasured, b: AMeasured) -> Result<AListed, Memory>
    ensures { IfOk result (λ x. x ≡ trees.one_more (trees.one_more trees.no_exprs a) b) }
{
    let first = one_more(no_exprs(alloc), a)?;
    Ok(one_more(first, b)?)
}

pub fn element(alloc: Global, word: Word, list: Listed) -> Result<AMeasured, Memory>
    requires { list.depth < 2 ^ 33 }
    ensures { IfOk result (λ x. x ≡ trees.element word list) }
{
    let depth = list.depth + 1;
    let expr = AExpr::Get(Place {
        name: word.name,
        subscripts: list.exprs,
    });
    Ok(AMeasured {
        expr: Boxed::new(alloc, expr)?,
        depth,
    })
}

pub fn call(alloc: Global, fun: Fun, list: AListed) -> Result<AMeasured, Memory>
    requires { list.depth < 2 ^ 33 }
    ensures { IfOk result (λ x. x ≡ trees.call_of fun list) }
{
    let depth = list.depth + 1;
    let expr = AExpr::Call {
        fun,
        args: list.exprs,
    };
    Ok(AMeasured {
        expr: Boxed::new(alloc, expr)?,
        depth,
    })
}

pub fn merged(
    alloc: Global,
    first: AMeasured,
    second: AMeasured,
    test: Judged,
) -> Result<AMeasured, Memory>
    requires first { first.depth < 2 ^ 33 }
    requires second { second.depth < 2 ^ 33 }
    requires test { test.levels < 2 ^ 33 }
    ensures { IfOk result (λ x. x ≡ trees.merged first second test) }
{
    let depth = deepest(deepest(first.depth, second.depth), test.levels + 1) + 1;
    let expr = AExpr::Merge {
        first: first.expr,
        second: second.expr,
        test: test.cond.into_inner(),
    };
    Ok(AMeasured {
        expr: Boxed::new(alloc, expr)?,
        depth,
    })
}
