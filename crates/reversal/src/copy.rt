//! Copies of an adjoint's expressions.

ghost use Rattle.std.specs.Prelude.{◌≡◌, IfOk, IsOkAnd, Ok};
ghost use Rattle.fl_ast.specs.declared.adjoint.AExpr.TheVariants as AExpr;

use fl_ast::{AExpr, BinOp, Cond, Fun, Place};
use fl_base::{Boxed, Items, Memory};
use std::alloc::Global;

/// What was made, in a box.
fn in_box(alloc: Global, made: Result<AExpr, Memory>) -> Result<Boxed<AExpr>, Memory>
    ensures { IfOk result (λ x. made ≡ Ok x) }
{
    match made {
        Ok(expr) => Boxed::new(alloc, expr),
        Err(memory) => Err(memory),
    }
}

fn get_of(place: Result<Place, Memory>) -> Result<AExpr, Memory>
    ensures { IfOk result (λ x. IsOkAnd place (λ p. x ≡ AExpr.Get p)) }
{
    Ok(AExpr::Get(place?))
}

fn neg_of(inner: Result<Boxed<AExpr>, Memory>) -> Result<AExpr, Memory>
    ensures { IfOk result (λ x. IsOkAnd inner (λ e. x ≡ AExpr.Neg e)) }
{
    Ok(AExpr::Neg(inner?))
}

fn bin_of(
    op: BinOp,
    left: Result<Boxed<AExpr>, Memory>,
    right: Result<Boxed<AExpr>, Memory>,
) -> Result<AExpr, Memory>
    ensures { IfOk result (λ x. IsOkAnd left (λ l. IsOkAnd right (λ r. x ≡ AExpr.Bin op l r))) }
{
    let left = left?;
    let right = right?;
    Ok(AExpr::Bin { op, left, right })
}

fn pow_of(base: Result<Boxed<AExpr>, Memory>, exponent: u32) -> Result<AExpr, Memory>
    ensures { IfOk result (λ x. IsOkAnd base (λ b. x ≡ AExpr.Pow b exponent)) }
{
    let base = base?;
    Ok(AExpr::Pow { base, exponent })
}

fn call_of(fun: Fun, args: Result<Items<AExpr>, Memory>) -> Result<AExpr, Memory>
    ensures { IfOk result (λ x. IsOkAnd args (λ a. x ≡ AExpr.Call fun a)) }
{
    let args = args?;
    Ok(AExpr::Call { fun, args })
}

fn merge_of(
    alloc: Global,
    first: Result<Boxed<AExpr>, Memory>,
    second: Result<Boxed<AExpr>, Memory>,
    test: &Cond,
) -> Result<AExpr, Memory>
    ensures { IfOk result (λ x. IsOkAnd first (λ f. IsOkAnd second (λ s. x ≡ AExpr.Merge f s test.now))) }
{
    let first = first?;
    let second = second?;
    let test = test.clone(alloc)?;
    Ok(AExpr::Merge {
        first,
        second,
        test,
    })
}

/// A copy of an expression.
#[cycle(copy)]
pub fn copy(alloc: Global, expr: &AExpr) -> Result<AExpr, Memory>
    ensures { IfOk result (λ x. x ≡ expr.now) }
{
    match expr {
        AExpr::Lit { value, kind } => Ok(AExpr::Lit {
            value: *value,
            kind: *kind,
        }),
        AExpr::Get(place) => get_of(place.clone(alloc)),
        AExpr::Neg(inner) => neg_of(in_box(alloc, copy(alloc, inner.get()))),
        AExpr::Bin { op, left, right } => bin_of(
            *op,
            in_box(alloc, copy(alloc, left.get())),
            in_box(alloc, copy(alloc, right.get())),
        ),
        AExpr::Pow { base, exponent } => {
            pow_of(in_box(alloc, copy(alloc, base.get())), *exponent)
        }
        AExpr::Call { fun, args } => call_of(*fun, copies(alloc, args.as_slice())),
        AExpr::Merge {
            first,
            second,
            test,
        } => merge_of(
            alloc,
            in_box(alloc, copy(alloc, first.get())),
            in_box(alloc, copy(alloc, second.get())),
            test,
        ),
    }
}

#[cycle(copy)]
fn copies(alloc: Global, exprs: &[AExpr]) -> Result<Items<AExpr>, Memory>
    ensures { IfOk result (λ x. x ≡ exprs.now) }
{
    let mut all = Items::new(alloc);
    for i in 0..exprs.len() {
        all.push(copy(alloc, &exprs[i])?)?;
    }
    Ok(all)
}
