//! Expressions. The rules take the reader of those in brackets as a parameter, so that each is proved by itself.

ghost use Rattle.std.specs.Prelude.{◌≡◌, ◌-◌, ◌+◌, ◌<◌, ◌≤◌, ◌^◌, nat_lt, IfOk, Some};
ghost use Rattle.parsing.specs.Code.{Reads};
ghost use Rattle.parsing.specs.Reading as reading;
ghost use Rattle.fl_expressions.specs.ExprReading as spec;
ghost use Rattle.fl_expressions.specs.Terminals as terminals;
ghost use Rattle.fl_expressions.specs.Trees as trees;
ghost use Rattle.fl_expressions.specs.Nests.{Nests};

use crate::tree::{Listed, Measured, binary, negation};
use fl_ast::BinOp;
use parsing::{Cause, Cursor, Failure, Symbol};
use std::alloc::Global;

pub fn is_sum_op(tokens: &Cursor<'_>) -> bool
    ensures { result ≡ reading.sees terminals.is_sum_op tokens.now }
{
    matches!(tokens.ahead(), Some(Symbol::Plus | Symbol::Minus))
}

pub fn is_product_op(tokens: &Cursor<'_>) -> bool
    ensures { result ≡ reading.sees terminals.is_product_op tokens.now }
{
    matches!(tokens.ahead(), Some(Symbol::Star | Symbol::Slash))
}

pub fn sum_op(tokens: &mut Cursor<'_>) -> Result<BinOp, Failure>
    ensures { Reads (reading.token terminals.sum_op tokens.old) result tokens.new }
{
    match tokens.ahead() {
        Some(Symbol::Plus) => {
            let _sign = tokens.mark(Symbol::Plus)?;
            Ok(BinOp::Add)
        }
        Some(Symbol::Minus) => {
            let _sign = tokens.mark(Symbol::Minus)?;
            Ok(BinOp::Sub)
        }
        _ => Err(tokens.refuse(Cause::Expected)),
    }
}

pub fn product_op(tokens: &mut Cursor<'_>) -> Result<BinOp, Failure>
    ensures { Reads (reading.token terminals.product_op tokens.old) result tokens.new }
{
    match tokens.ahead() {
        Some(Symbol::Star) => {
            let _sign = tokens.mark(Symbol::Star)?;
            Ok(BinOp::Mul)
        }
        Some(Symbol::Slash) => {
            let _sign = tokens.mark(Symbol::Slash)?;
            Ok(BinOp::Div)
        }
        _ => Err(tokens.refuse(Cause::Expected)),
    }
}

#[derive(Clone, Copy)]
pub struct Rules<F> {
    pub alloc: Global,
    /// How many brackets may still open.
    pub brackets: usize,
    pub expr: F,
}

impl<F: Fn(Global, &mut Cursor<'_>, usize, usize) -> Result<Measured, Failure>> Rules<F> {
    fn times_one(&self, tokens: &mut Cursor<'_>, d: usize, l: Measured) -> Result<Measured, Failure>
        requires nests { Nests self.now.brackets (F.pre self.now.expr) (F.post self.now.expr) }
        requires few { d < 2 ^ 32 }
        requires shallow { l.depth ≤ d }
        requires some { 0 < d }
        ensures reads { Reads (reading.grouped terminals.product_op trees.binary (spec.factor (nat_lt 0 self.now.brackets) (spec.below self.now.brackets)) (Some d) l tokens.old) result tokens.new }
        ensures depth { IfOk result (λ x. (0 < x.depth) × (x.depth ≤ d + 1)) }
    {
        let op = product_op(tokens)?;
        let r = self.factor(tokens, d - 1)?;
        Ok(binary(self.alloc, op, l, r)?)
    }

    fn factors_from(
        &self,
        tokens: &mut Cursor<'_>,
        d: usize,
        mut left: Measured,
    ) -> Result<Measured, Failure>
        requires nests { Nests self.now.brackets (F.pre self.now.expr) (F.post self.now.expr) }
        requires few { d < 2 ^ 32 }
        requires shallow { left.depth ≤ d + 1 }
        requires real { 0 < left.depth }
        ensures reads { Reads (spec.factors_from (nat_lt 0 self.now.brackets) (spec.below self.now.brackets) (Some d) left tokens.old) result tokens.new }
        ensures depth { IfOk result (λ x. (0 < x.depth) × (x.depth ≤ d + 1)) }
    {
        for _turn in 0..tokens.len() {
            if !is_product_op(tokens) {
                return Ok(left);
            }
            if left.depth > d {
                return Err(tokens.refuse(Cause::Deep));
            }
            left = self.times_one(tokens, d, left)?;
        }
        Ok(left)
    }

    #[tactic(auto, unfolding(crate::specs::ExprReading::term))]
    fn term(&self, tokens: &mut Cursor<'_>, d: usize) -> Result<Measured, Failure>
        requires nests { Nests self.now.brackets (F.pre self.now.expr) (F.post self.now.expr) }
        requires few { d < 2 ^ 32 }
        ensures reads { Reads (spec.term (nat_lt 0 self.now.brackets) (spec.below self.now.brackets) (Some d) tokens.old) result tokens.new }
        ensures depth { IfOk result (λ x. (0 < x.depth) × (x.depth ≤ d + 1)) }
    {
        let first = self.factor(tokens, d)?;
        self.factors_from(tokens, d, first)
    }

    fn plus_one(&self, tokens: &mut Cursor<'_>, d: usize, l: Measured) -> Result<Measured, Failure>
        requires nests { Nests self.now.brackets (F.pre self.now.expr) (F.post self.now.expr) }
        requires few { d < 2 ^ 32 }
        requires shallow { l.depth ≤ d }
        requires some { 0 < d }
        ensures reads { Reads (reading.grouped terminals.sum_op trees.binary (spec.term (nat_lt 0 self.now.brackets) (spec.below self.now.brackets)) (Some d) l tokens.old) result tokens.new }
        ensures depth { IfOk result (λ x. (0 < x.depth) × (x.depth ≤ d + 1)) }
    {
        let op = sum_op(tokens)?;
        let r = self.term(tokens, d - 1)?;
        Ok(binary(self.alloc, op, l, r)?)
    }

    fn terms_from(
        &self,
        tokens: &mut Cursor<'_>,
        d: usize,
        mut left: Measured,
    ) -> Result<Measured, Failure>
        requires nests { Nests self.now.brackets (F.pre self.now.expr) (F.post self.now.expr) }
        requires few { d < 2 ^ 32 }
        requires shallow { left.depth ≤ d + 1 }
        requires real { 0 < left.depth }
        ensures reads { Reads (spec.terms_from (nat_lt 0 self.now.brackets) (spec.below self.now.brackets) (Some d) left tokens.old) result tokens.new }
        ensures depth { IfOk result (λ x. (0 < x.depth) × (x.depth ≤ d + 1)) }
    {
        for _turn in 0..tokens.len() {
            if !is_sum_op(tokens) {
                return Ok(left);
            }
            if left.depth > d {
                return Err(tokens.refuse(Cause::Deep));
            }
            left = self.plus_one(tokens, d, left)?;
        }
        Ok(left)
    }

    #[tactic(auto, unfolding(crate::specs::ExprReading::negated))]
    fn negated(&self, tokens: &mut Cursor<'_>, d: usize) -> Result<Measured, Failure>
        requires nests { Nests self.now.brackets (F.pre self.now.expr) (F.post self.now.expr) }
        requires few { d < 2 ^ 32 }
        requires some { 0 < d }
        ensures reads { Reads (spec.negated (nat_lt 0 self.now.brackets) (spec.below self.now.brackets) (Some d) tokens.old) result tokens.new }
        ensures depth { IfOk result (λ x. (0 < x.depth) × (x.depth ≤ d + 1)) }
    {
        let _sign = tokens.mark(Symbol::Minus)?;
        let e = self.term(tokens, d - 1)?;
        let first = negation(self.alloc, e)?;
        self.terms_from(tokens, d, first)
    }

    #[tactic(auto, unfolding(crate::specs::ExprReading::unsigned))]
    fn unsigned(&self, tokens: &mut Cursor<'_>, d: usize) -> Result<Measured, Failure>
        requires nests { Nests self.now.brackets (F.pre self.now.expr) (F.post self.now.expr) }
        requires few { d < 2 ^ 32 }
        ensures reads { Reads (spec.unsigned (nat_lt 0 self.now.brackets) (spec.below self.now.brackets) (Some d) tokens.old) result tokens.new }
        ensures depth { IfOk result (λ x. (0 < x.depth) × (x.depth ≤ d + 1)) }
    {
        let first = self.term(tokens, d)?;
        self.terms_from(tokens, d, first)
    }

    #[tactic(auto, unfolding(crate::specs::ExprReading::plain))]
    fn plain(&self, tokens: &mut Cursor<'_>, d: usize) -> Result<Measured, Failure>
        requires nests { Nests self.now.brackets (F.pre self.now.expr) (F.post self.now.expr) }
        requires few { d < 2 ^ 32 }
        ensures reads { Reads (spec.plain (nat_lt 0 self.now.brackets) (spec.below self.now.brackets) (Some d) tokens.old) result tokens.new }
        ensures depth { IfOk result (λ x. (0 < x.depth) × (x.depth ≤ d + 1)) }
    {
        let _sign = tokens.mark(Symbol::Plus)?;
        self.unsigned(tokens, d)
    }

    #[tactic(auto, unfolding(crate::specs::ExprReading::sum))]
    fn sum(&self, tokens: &mut Cursor<'_>, d: usize) -> Result<Measured, Failure>
        requires nests { Nests self.now.brackets (F.pre self.now.expr) (F.post self.now.expr) }
        requires few { d < 2 ^ 32 }
        ensures reads { Reads (spec.sum (nat_lt 0 self.now.brackets) (spec.below self.now.brackets) (Some d) tokens.old) result tokens.new }
        ensures depth { IfOk result (λ x. (0 < x.depth) × (x.depth ≤ d + 1)) }
    {
        if tokens.sees(Symbol::Minus) {
            if d == 0 {
                return Err(tokens.refuse(Cause::Deep));
            }
            return self.negated(tokens, d);
        }
        if tokens.sees(Symbol::Plus) {
            return self.plain(tokens, d);
        }
        self.unsigned(tokens, d)
    }

    /// What goes on behind a first operand.
    #[tactic(auto, unfolding(crate::specs::ExprReading::rest_of))]
    fn rest_of(
        &self,
        tokens: &mut Cursor<'_>,
        d: usize,
        first: Measured,
    ) -> Result<Measured, Failure>
        requires nests { Nests self.now.brackets (F.pre self.now.expr) (F.post self.now.expr) }
        requires few { d < 2 ^ 32 }
        requires shallow { first.depth ≤ d + 1 }
        requires real { 0 < first.depth }
        ensures reads { Reads (spec.rest_of (nat_lt 0 self.now.brackets) (spec.below self.now.brackets) (Some d) first tokens.old) result tokens.new }
        ensures depth { IfOk result (λ x. (0 < x.depth) × (x.depth ≤ d + 1)) }
    {
        let factor = self.raised(tokens, d, first)?;
        let term = self.factors_from(tokens, d, factor)?;
        self.terms_from(tokens, d, term)
    }

    #[tactic(auto, unfolding(crate::specs::ExprReading::started))]
    fn started(&self, tokens: &mut Cursor<'_>, d: usize) -> Result<Measured, Failure>
        requires nests { Nests self.now.brackets (F.pre self.now.expr) (F.post self.now.expr) }
        requires few { d < 2 ^ 32 }
        ensures reads { Reads (spec.started (nat_lt 0 self.now.brackets) (spec.below self.now.brackets) (Some d) tokens.old) result tokens.new }
        ensures depth { IfOk result (λ x. (0 < x.depth) × (x.depth ≤ d + 1)) }
    {
        let first = self.named(tokens, d)?;
        self.rest_of(tokens, d, first)
    }

    #[tactic(auto, unfolding(crate::specs::ExprReading::unopened))]
    fn unopened(&self, tokens: &mut Cursor<'_>, d: usize) -> Result<Measured, Failure>
        requires nests { Nests self.now.brackets (F.pre self.now.expr) (F.post self.now.expr) }
        requires few { d < 2 ^ 32 }
        ensures reads { Reads (spec.unopened (nat_lt 0 self.now.brackets) (spec.below self.now.brackets) (Some d) tokens.old) result tokens.new }
        ensures depth { IfOk result (λ x. (0 < x.depth) × (x.depth ≤ d + 1)) }
    {
        if tokens.sees(Symbol::Minus) {
            if d == 0 {
                return Err(tokens.refuse(Cause::Deep));
            }
            return self.negated(tokens, d);
        }
        if tokens.sees(Symbol::Plus) {
            return self.plain(tokens, d);
        }
        self.started(tokens, d)
    }
}

/// A list of expressions in brackets, with so many brackets to open and so many levels beneath each root.
pub fn subscripts(
    alloc: Global,
    tokens: &mut Cursor<'_>,
    brackets: usize,
    d: usize,
) -> Result<Listed, Failure>
    requires few { d < 2 ^ 32 }
    requires room { 0 < brackets }
    ensures reads { Reads (spec.subscripts (nat_lt 0 brackets) (spec.below brackets) (Some d) tokens.old) result tokens.new }
    ensures depth { IfOk result (λ x. x.depth ≤ d + 1) }
{
    Rules {
        alloc,
        brackets,
        expr,
    }
    .subscripts(tokens, d)
}

/// What goes on behind the first operand of an expression, as `subscripts` and `expr` read on.
pub fn rest_of(
    alloc: Global,
    tokens: &mut Cursor<'_>,
    brackets: usize,
    d: usize,
    first: Measured,
) -> Result<Measured, Failure>
    requires few { d < 2 ^ 32 }
    requires shallow { first.depth ≤ d + 1 }
    requires real { 0 < first.depth }
    ensures reads { Reads (spec.rest_of (nat_lt 0 brackets) (spec.below brackets) (Some d) first tokens.old) result tokens.new }
    ensures depth { IfOk result (λ x. (0 < x.depth) × (x.depth ≤ d + 1)) }
{
    Rules {
        alloc,
        brackets,
        expr,
    }
    .rest_of(tokens, d, first)
}

/// An expression that begins with no bracket. One that does may turn out to be a condition.
pub fn unopened(
    alloc: Global,
    tokens: &mut Cursor<'_>,
    brackets: usize,
    d: usize,
) -> Result<Measured, Failure>
    requires { d < 2 ^ 32 }
    ensures reads { Reads (spec.unopened (nat_lt 0 brackets) (spec.below brackets) (Some d) tokens.old) result tokens.new }
    ensures depth { IfOk result (λ x. (0 < x.depth) × (x.depth ≤ d + 1)) }
{
    Rules {
        alloc,
        brackets,
        expr,
    }
    .unopened(tokens, d)
}

/// An expression with so many brackets to open and so many levels beneath its root.
pub fn expr(
    alloc: Global,
    tokens: &mut Cursor<'_>,
    brackets: usize,
    d: usize,
) -> Result<Measured, Failure>
    requires { d < 2 ^ 32 }
    ensures reads { Reads (spec.expr brackets (Some d) tokens.old) result tokens.new }
    ensures depth { IfOk result (λ x. (0 < x.depth) × (x.depth ≤ d + 1)) }
{
    Rules {
        alloc,
        brackets,
        expr,
    }
    .sum(tokens, d)
}
