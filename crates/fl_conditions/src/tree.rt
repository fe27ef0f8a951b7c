ghost use Rattle.std.specs.Prelude.{◌≡◌, ◌+◌, ◌<◌, ◌^◌, IfOk, max};
ghost use Rattle.fl_conditions.specs.Trees as trees;

use fl_ast::{Cond, RelOp};
use fl_base::{Boxed, Memory};
use fl_expressions::Measured;
use std::alloc::Global;

/// A condition, and how many levels its tree has beneath its root.
#[derive(Drop)]
pub struct Judged {
    pub cond: Boxed<Cond>,
    pub levels: usize,
}

/// What stands in a bracket of a condition: an expression or a condition.
#[derive(Drop)]
pub enum Mixed {
    Value(Measured),
    Test(Judged),
}

fn deepest(a: usize, b: usize) -> usize
    ensures { result ≡ max a b }
{
    if a < b { b } else { a }
}

pub fn related(alloc: Global, op: RelOp, l: Measured, r: Measured) -> Result<Judged, Memory>
    ensures { IfOk result (λ x. x ≡ trees.related op l r) }
{
    let levels = deepest(l.depth, r.depth);
    let cond = Cond::Rel {
        op,
        left: l.expr.into_inner(),
        right: r.expr.into_inner(),
    };
    Ok(Judged {
        cond: Boxed::new(alloc, cond)?,
        levels,
    })
}

pub fn denial(alloc: Global, c: Judged) -> Result<Judged, Memory>
    requires { c.levels < 2 ^ 33 }
    ensures { IfOk result (λ x. x ≡ trees.denial c) }
{
    let levels = c.levels + 1;
    Ok(Judged {
        cond: Boxed::new(alloc, Cond::Not(c.cond))?,
        levels,
    })
}

pub fn both(alloc: Global, l: Judged, r: Judged) -> Result<Judged, Memory>
    requires left { l.levels < 2 ^ 33 }
    requires right { r.levels < 2 ^ 33 }
    ensures { IfOk result (λ x. x ≡ trees.both tt l r) }
{
    let levels = deepest(l.levels, r.levels) + 1;
    Ok(Judged {
        cond: Boxed::new(alloc, Cond::And(l.cond, r.cond))?,
        levels,
    })
}

pub fn one_of(alloc: Global, l: Judged, r: Judged) -> Result<Judged, Memory>
    requires left { l.levels < 2 ^ 33 }
    requires right { r.levels < 2 ^ 33 }
    ensures { IfOk result (λ x. x ≡ trees.one_of tt l r) }
{
    let levels = deepest(l.levels, r.levels) + 1;
    Ok(Judged {
        cond: Boxed::new(alloc, Cond::Or(l.cond, r.cond))?,
        levels,
    })
}
