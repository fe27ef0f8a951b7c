ghost use Rattle.std.specs.Prelude.{◌≡◌};
ghost use Rattle.fl_ast.specs.Tree.{expr_tree, place_tree, expr_trees, cond_tree};
ghost use Rattle.fl_ast.specs.Occurs.{occurs, occurs_in_any, occurs_in_designator, occurs_in_condition};

use crate::expr::{Cond, Expr, Place};

impl Expr {
    /// Whether a name occurs in it, in subscripts too.
    #[cycle(expr_mentions)]
    pub fn mentions(&self, name: &[u8]) -> bool
        ensures { result ≡ occurs name.now (expr_tree self.now) }
    {
        match self {
            Expr::Lit { .. } => false,
            Expr::Get(place) => place.mentions(name),
            Expr::Neg(inner) => inner.get().mentions(name),
            Expr::Bin { left, right, .. } => left.get().mentions(name)
                || right.get().mentions(name),
            Expr::Pow { base, .. } => base.get().mentions(name),
            Expr::Call { args, .. } => any_mentions(args.as_slice(), name),
        }
    }
}

impl Place {
    /// Whether a name is its name or occurs in a subscript.
    #[cycle(expr_mentions)]
    pub fn mentions(&self, name: &[u8]) -> bool
        ensures { result ≡ occurs_in_designator name.now (place_tree self.now) }
    {
        self.name.bytes() == name || any_mentions(self.subscripts.as_slice(), name)
    }
}

#[cycle(expr_mentions)]
fn any_mentions(exprs: &[Expr], name: &[u8]) -> bool
    ensures { result ≡ occurs_in_any name.now (expr_trees exprs.now) }
{
    for expr in exprs {
        if expr.mentions(name) {
            return true;
        }
    }
    false
}

impl Cond {
    /// Whether a name occurs in it.
    pub fn mentions(&self, name: &[u8]) -> bool
        ensures { result ≡ occurs_in_condition name.now (cond_tree self.now) }
    {
        match self {
            Cond::Rel { left, right, .. } => left.mentions(name) || right.mentions(name),
            Cond::Not(inner) => inner.get().mentions(name),
            Cond::And(left, right) => left.get().mentions(name) || right.get().mentions(name),
            Cond::Or(left, right) => left.get().mentions(name) || right.get().mentions(name),
        }
    }
}
