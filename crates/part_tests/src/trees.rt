//! Trees that no text has yet.

use fl_ast::{Expr, Fun, Name, Place};
use fl_base::{Boxed, Items, Memory};
use std::alloc::Global;
use std::test::Fail;

fn scalar(alloc: Global, name: &[u8]) -> Result<Place, Memory> {
    Ok(Place {
        name: Name::of(alloc, name)?,
        subscripts: Items::new(alloc),
    })
}

fn get(alloc: Global, name: &[u8]) -> Result<Boxed<Expr>, Memory> {
    Boxed::new(alloc, Expr::Get(scalar(alloc, name)?))
}

/// `max(x**exponent, y)`
fn larger(alloc: Global, exponent: u32) -> Result<Boxed<Expr>, Memory> {
    let base = get(alloc, b"x")?;
    let mut args = Items::new(alloc);
    args.push(Expr::Pow { base, exponent })?;
    args.push(get(alloc, b"y")?.into_inner())?;
    let fun = Fun::Max;
    Boxed::new(alloc, Expr::Call { fun, args })
}

#[test]
fn copies_are_the_same_and_other_trees_are_not(rt: HostRuntime) -> Result<(), Fail> {
    let one = larger(rt.alloc(), 3)?;
    let copy = Boxed::new(rt.alloc(), one.get().clone(rt.alloc())?)?;
    let other = larger(rt.alloc(), 2)?;
    assert!(rt; one.get().same(copy.get()));
    assert!(rt; !one.get().same(other.get()));
    Ok(())
}

#[test]
fn names_occur_where_they_stand(rt: HostRuntime) -> Result<(), Fail> {
    let one = larger(rt.alloc(), 3)?;
    assert!(rt; one.get().mentions(b"y"));
    assert!(rt; !one.get().mentions(b"z"));
    Ok(())
}
