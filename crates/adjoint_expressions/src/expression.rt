//! An adjoint's expressions. The rules take the reader of those in brackets as a parameter, so that each is proved by itself.

ghost use Rattle.std.specs.Prelude.{◌≡◌, ◌-◌, ◌+◌, ◌<◌, ◌≤◌, ◌^◌, IfOk, Some};
ghost use Rattle.parsing.specs.Code.{Reads};
ghost use Rattle.parsing.specs.Reading as reading;
ghost use Rattle.adjoint_expressions.specs.AdjointReading as spec;
ghost use Rattle.fl_expressions.specs.Terminals as terminals;
ghost use Rattle.adjoint_expressions.specs.Trees as trees;
ghost use Rattle.adjoint_expressions.specs.NestsAdjoint.{NestsAdjoint};

use crate::tree::{AMeasured, binary, negation};
use fl_expressions::{is_product_op, is_sum_op, product_op, sum_op};
use parsing::{Cause, Cursor, Failure, Symbol};
use std::alloc::Global;

#[derive(Clone, Copy)]
pub struct Rules<F> {
    pub alloc: Global,
    /// How many brackets may still open.
    pub brackets: usize,
    pub expr: F,
}

impl<F: Fn(Global, &mut Cursor<'_>, usize, usize) -> Result<AMeasured, Failure>> Rules<F> {
    fn times_one(
        &self,
        tokens: &mut Cursor<'_>,
        d: usize,
        l: AMeasured,
    ) -> Result<AMeasured, Failure>
        requires nests { NestsAdjoint self.now.brackets (F.pre self.now.expr) (F.post self.now.expr) }
        requires few { d < 2 ^ 32 }
        requires shallow { l.depth ≤ d }
        requires some { 0 < d }
        ensures reads { Reads (reading.grouped terminals.product_op trees.binary (spec.factor self.now.brackets (spec.adjoint_below self.now.brackets)) (Some d) l tokens.old) result tokens.new }
        ensures depth { IfOk result (λ x. (0 < x.depth) × (x.depth ≤ d + 1)) }
    {
        let op = product_op(tokens)?;
        let r = self.factor(tokens, d - 1)?;
        Ok(binary(self.alloc, op, l, r)?)
    }

    fn factors_from(
        &self,
        tokens: &mut Cursor<'_>,
        d: usize,
        mut left: AMeasured,
    ) -> Result<AMeasured, Failure>
        requires nests { NestsAdjoint self.now.brackets (F.pre self.now.expr) (F.post self.now.expr) }
        requires few { d < 2 ^ 32 }
        requires shallow { left.depth ≤ d + 1 }
        requires real { 0 < left.depth }
        ensures reads { Reads (spec.factors_from self.now.brackets (spec.adjoint_below self.now.brackets) (Some d) left tokens.old) result tokens.new }
        ensures depth { IfOk result (λ x. (0 < x.depth) × (x.depth ≤ d + 1)) }
    {
        for _turn in 0..tokens.len() {
            if !is_product_op(tokens) {
                return Ok(left);
            }
            if left.depth > d {
                return Err(tokens.refuse(Cause::Deep));
            }
            left = self.times_one(tokens, d, left)?;
        }
        Ok(left)
    }

    #[tactic(auto, unfolding(crate::specs::AdjointReading::term))]
    fn term(&self, tokens: &mut Cursor<'_>, d: usize) -> Result<AMeasured, Failure>
        requires nests { NestsAdjoint self.now.brackets (F.pre self.now.expr) (F.post self.now.expr) }
        requires few { d < 2 ^ 32 }
        ensures reads { Reads (spec.term self.now.brackets (spec.adjoint_below self.now.brackets) (Some d) tokens.old) result tokens.new }
        ensures depth { IfOk result (λ x. (0 < x.depth) × (x.depth ≤ d + 1)) }
    {
        let first = self.factor(tokens, d)?;
        self.factors_from(tokens, d, first)
    }

    fn plus_one(
        &self,
        tokens: &mut Cursor<'_>,
        d: usize,
        l: AMeasured,
    ) -> Result<AMeasured, Failure>
        requires nests { NestsAdjoint self.now.brackets (F.pre self.now.expr) (F.post self.now.expr) }
        requires few { d < 2 ^ 32 }
        requires shallow { l.depth ≤ d }
        requires some { 0 < d }
        ensures reads { Reads (reading.grouped terminals.sum_op trees.binary (spec.term self.now.brackets (spec.adjoint_below self.now.brackets)) (Some d) l tokens.old) result tokens.new }
        ensures depth { IfOk result (λ x. (0 < x.depth) × (x.depth ≤ d + 1)) }
    {
        let op = sum_op(tokens)?;
        let r = self.term(tokens, d - 1)?;
        Ok(binary(self.alloc, op, l, r)?)
    }

    fn terms_from(
        &self,
        tokens: &mut Cursor<'_>,
        d: usize,
        mut left: AMeasured,
    ) -> Result<AMeasured, Failure>
        requires nests { NestsAdjoint self.now.brackets (F.pre self.now.expr) (F.post self.now.expr) }
        requires few { d < 2 ^ 32 }
        requires shallow { left.depth ≤ d + 1 }
        requires real { 0 < left.depth }
        ensures reads { Reads (spec.terms_from self.now.brackets (spec.adjoint_below self.now.brackets) (Some d) left tokens.old) result tokens.new }
        ensures depth { IfOk result (λ x. (0 < x.depth) × (x.depth ≤ d + 1)) }
    {
        for _turn in 0..tokens.len() {
            if !is_sum_op(tokens) {
                return Ok(left);
            }
            if left.depth > d {
                return Err(tokens.refuse(Cause::Deep));
            }
            left = self.plus_one(tokens, d, left)?;
        }
        Ok(left)
    }

    #[tactic(auto, unfolding(crate::specs::AdjointReading::negated))]
    fn negated(&self, tokens: &mut Cursor<'_>, d: usize) -> Result<AMeasured, Failure>
        requires nests { NestsAdjoint self.now.brackets (F.pre self.now.expr) (F.post self.now.expr) }
        requires few { d < 2 ^ 32 }
        requires some { 0 < d }
        ensures reads { Reads (spec.negated self.now.brackets (spec.adjoint_below self.now.brackets) (Some d) tokens.old) result tokens.new }
        ensures depth { IfOk result (λ x. (0 < x.depth) × (x.depth ≤ d + 1)) }
    {
        let _sign = tokens.mark(Symbol::Minus)?;
        let e = self.term(tokens, d - 1)?;
        let first = negation(self.alloc, e)?;
        self.terms_from(tokens, d, first)
    }

    #[tactic(auto, unfolding(crate::specs::AdjointReading::unsigned))]
    fn unsigned(&self, tokens: &mut Cursor<'_>, d: usize) -> Result<AMeasured, Failure>
        requires nests { NestsAdjoint self.now.brackets (F.pre self.now.expr) (F.post self.now.expr) }
        requires few { d < 2 ^ 32 }
        ensures reads { Reads (spec.unsigned self.now.brackets (spec.adjoint_below self.now.brackets) (Some d) tokens.old) result tokens.new }
        ensures depth { IfOk result (λ x. (0 < x.depth) × (x.depth ≤ d + 1)) }
    {
        let first = self.term(tokens, d)?;
        self.terms_from(tokens, d, first)
    }

    #[tactic(auto, unfolding(crate::specs::AdjointReading::plain))]
    fn plain(&self, tokens: &mut Cursor<'_>, d: usize) -> Result<AMeasured, Failure>
        requires nests { NestsAdjoint self.now.brackets (F.pre self.now.expr) (F.post self.now.expr) }
        requires few { d < 2 ^ 32 }
        ensures reads { Reads (spec.plain self.now.brackets (spec.adjoint_below self.now.brackets) (Some d) tokens.old) result tokens.new }
        ensures depth { IfOk result (λ x. (0 < x.depth) × (x.depth ≤ d + 1)) }
    {
        let _sign = tokens.mark(Symbol::Plus)?;
        self.unsigned(tokens, d)
    }

    #[tactic(auto, unfolding(crate::specs::AdjointReading::sum))]
    fn sum(&self, tokens: &mut Cursor<'_>, d: usize) -> Result<AMeasured, Failure>
        requires nests { NestsAdjoint self.now.brackets (F.pre self.now.expr) (F.post self.now.expr) }
        requires few { d < 2 ^ 32 }
        ensures reads { Reads (spec.sum self.now.brackets (spec.adjoint_below self.now.brackets) (Some d) tokens.old) result tokens.new }
        ensures depth { IfOk result (λ x. (0 < x.depth) × (x.depth ≤ d + 1)) }
    {
        if tokens.sees(Symbol::Minus) {
            if d == 0 {
                return Err(tokens.refuse(Cause::Deep));
            }
            return self.negated(tokens, d);
        }
        if tokens.sees(Symbol::Plus) {
            return self.plain(tokens, d);
        }
        self.unsigned(tokens, d)
    }
}

/// An expression of an adjoint with so many brackets to open and so many levels beneath its root.
pub fn adjoint_expr(
    alloc: Global,
    tokens: &mut Cursor<'_>,
    brackets: usize,
    d: usize,
) -> Result<AMeasured, Failure>
    requires { d < 2 ^ 32 }
    ensures reads { Reads (spec.adjoint_expr brackets (Some d) tokens.old) result tokens.new }
    ensures depth { IfOk result (λ x. (0 < x.depth) × (x.depth ≤ d + 1)) }
{
    Rules {
        alloc,
        brackets,
        expr: adjoint_expr,
    }
    .sum(tokens, d)
}
