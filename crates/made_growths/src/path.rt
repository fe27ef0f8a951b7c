//! The way from a right side to an occurrence in it.

ghost use Rattle.std.specs.Prelude.{◌≡◌, ◌++◌, true, List, map, OnOk, IfOk};
ghost use Rattle.transposition.specs.Spread.{Factor as FactorOf};
ghost use Rattle.undo_steps.specs.UndoSteps.{factor_tree};
ghost use Rattle.made_growths.specs.Factors.{factors_on, is_path_ready, FactorsStand};

use crate::factors::push_factors_at;
use fl_ast::{Memory, RelOp};
use fl_base::Items;
use resolved::{ResolvedExpr, SlotTable};
use std::alloc::Global;
use undo_steps::Factor;

/// What an adjoint is multiplied by on the way into one operand of a node.
#[derive(Clone, Copy)]
pub(crate) enum Link<'e> {
    /// The other operand of a product.
    Operand(&'e ResolvedExpr),
    /// The derivative of a power.
    Power {
        base: &'e ResolvedExpr,
        exponent: u32,
    },
    /// One number where the relation holds, else the other.
    Either {
        one: u64,
        other: u64,
        op: RelOp,
        left: &'e ResolvedExpr,
        right: &'e ResolvedExpr,
    },
    /// The sign of the operand of `abs`.
    Absolute(&'e ResolvedExpr),
}

/// The links from a right side on.
#[derive(Clone, Copy)]
pub(crate) enum Path<'a, 'e> {
    Start,
    Then {
        outer: &'a Path<'a, 'e>,
        link: Link<'e>,
    },
}

impl<'a, 'e> Path<'a, 'e> {
    fn push_factors(
        &self,
        alloc: Global,
        table: &SlotTable,
        factors: &mut Items<Factor>,
    ) -> Result<(), Memory>
        requires ready { is_path_ready table.now self.now ≡ true }
        ensures { OnOk result ((fs : List FactorOf) → FactorsStand table.now fs (map factor_tree factors.old)
            → FactorsStand table.now (fs ++ factors_on table.now.0 self.now) (map factor_tree factors.new)) }
    {
        match self {
            Path::Start => Ok(()),
            Path::Then { outer, link } => {
                outer.push_factors(alloc, table, factors)?;
                push_factors_at(alloc, table, link, factors)?;
                Ok(())
            }
        }
    }

    /// The factors of an occurrence at the end of the path.
    pub(crate) fn factors(&self, alloc: Global, table: &SlotTable) -> Result<Items<Factor>, Memory>
        requires ready { is_path_ready table.now self.now ≡ true }
        ensures { IfOk result (λ factors. FactorsStand table.now (factors_on table.now.0 self.now) (map factor_tree factors)) }
    {
        let mut factors = Items::new(alloc);
        self.push_factors(alloc, table, &mut factors)?;
        Ok(factors)
    }
}
