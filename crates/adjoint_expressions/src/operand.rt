//! Operands: what stands between operators.

ghost use Rattle.std.specs.Prelude.{◌≡◌, ◌-◌, ◌+◌, ◌<◌, ◌≤◌, ◌^◌, nat_lt, IsTrue, IfOk, Some};
ghost use Rattle.parsing.specs.Code.{Reads};
ghost use Rattle.adjoint_expressions.specs.AdjointReading as spec;
ghost use Rattle.adjoint_expressions.specs.NestsAdjoint.{NestsAdjoint};

use crate::expression::Rules;
use crate::tree::{
    AMeasured, call, element, literal, merged, no_exprs, one_more, power, scalar, two_exprs,
};
use fl_conditions::{Judged, cond};
use fl_expressions::{is_pairing, is_single, pairing, single, subscripts};
use parsing::{Cause, Cursor, Failure, Symbol, Word};
use std::alloc::Global;

/// The greatest exponent.
const EXPONENT: u64 = 2_147_483_647;

#[tactic(auto, unfolding(crate::specs::AdjointReading::power_of))]
fn power_of(alloc: Global, tokens: &mut Cursor<'_>, e: AMeasured) -> Result<AMeasured, Failure>
    requires { e.depth < 2 ^ 33 }
    ensures reads { Reads (spec.power_of e tokens.old) result tokens.new }
    ensures depth { IfOk result (λ x. x.depth ≡ e.depth + 1) }
{
    let _sign = tokens.mark(Symbol::Power)?;
    let number = tokens.small_number(EXPONENT)?;
    Ok(power(alloc, e, number)?)
}

impl<F: Fn(Global, &mut Cursor<'_>, usize, usize) -> Result<AMeasured, Failure>> Rules<F> {
    /// An expression in one bracket more.
    fn inner(&self, tokens: &mut Cursor<'_>, d: usize) -> Result<AMeasured, Failure>
        requires nests { NestsAdjoint self.now.brackets (F.pre self.now.expr) (F.post self.now.expr) }
        requires few { d < 2 ^ 32 }
        requires room { 0 < self.now.brackets }
        ensures reads { Reads (spec.adjoint_below self.now.brackets (Some d) tokens.old) result tokens.new }
        ensures depth { IfOk result (λ x. (0 < x.depth) × (x.depth ≤ d + 1)) }
    {
        (self.expr)(self.alloc, tokens, self.brackets - 1, d)
    }

    #[tactic(auto, unfolding(crate::specs::AdjointReading::bracketed))]
    fn bracketed(&self, tokens: &mut Cursor<'_>, d: usize) -> Result<AMeasured, Failure>
        requires nests { NestsAdjoint self.now.brackets (F.pre self.now.expr) (F.post self.now.expr) }
        requires few { d < 2 ^ 32 }
        requires room { 0 < self.now.brackets }
        ensures reads { Reads (spec.bracketed self.now.brackets (spec.adjoint_below self.now.brackets) (Some d) tokens.old) result tokens.new }
        ensures depth { IfOk result (λ x. (0 < x.depth) × (x.depth ≤ d + 1)) }
    {
        let _open = tokens.mark(Symbol::Open)?;
        let e = self.inner(tokens, d)?;
        let _close = tokens.mark(Symbol::Close)?;
        Ok(e)
    }

    #[tactic(auto, unfolding(crate::specs::AdjointReading::literal))]
    fn literal(&self, tokens: &mut Cursor<'_>) -> Result<AMeasured, Failure>
        ensures reads { Reads (spec.literal self.now.brackets (spec.adjoint_below self.now.brackets) tokens.old) result tokens.new }
        ensures depth { IfOk result (λ x. x.depth ≡ 1) }
    {
        let number = tokens.number()?;
        Ok(literal(self.alloc, number)?)
    }

    /// Whether subscripts or arguments may follow.
    fn may_hold(&self, d: usize) -> bool
        ensures is { result ≡ spec.may_hold self.now.brackets (spec.adjoint_below self.now.brackets) (Some d) }
        ensures room { IsTrue result → (0 < self.now.brackets) × (0 < d) }
    {
        self.brackets > 0 && d > 0
    }

    #[tactic(auto, unfolding(crate::specs::AdjointReading::indexed))]
    fn indexed(&self, tokens: &mut Cursor<'_>, d: usize, word: Word) -> Result<AMeasured, Failure>
        requires nests { NestsAdjoint self.now.brackets (F.pre self.now.expr) (F.post self.now.expr) }
        requires few { d < 2 ^ 32 }
        requires room { 0 < self.now.brackets }
        requires deep { 0 < d }
        ensures reads { Reads (spec.indexed self.now.brackets (spec.adjoint_below self.now.brackets) (Some d) word tokens.old) result tokens.new }
        ensures depth { IfOk result (λ x. (0 < x.depth) × (x.depth ≤ d + 1)) }
    {
        let found = subscripts(self.alloc, tokens, self.brackets, d - 1)?;
        Ok(element(self.alloc, word, found)?)
    }

    #[tactic(auto, unfolding(crate::specs::AdjointReading::after_name))]
    fn after_name(
        &self,
        tokens: &mut Cursor<'_>,
        d: usize,
        word: Word,
    ) -> Result<AMeasured, Failure>
        requires nests { NestsAdjoint self.now.brackets (F.pre self.now.expr) (F.post self.now.expr) }
        requires few { d < 2 ^ 32 }
        ensures reads { Reads (spec.after_name self.now.brackets (spec.adjoint_below self.now.brackets) (Some d) word tokens.old) result tokens.new }
        ensures depth { IfOk result (λ x. (0 < x.depth) × (x.depth ≤ d + 1)) }
    {
        if tokens.sees(Symbol::Open) {
            if !self.may_hold(d) {
                return Err(tokens.refuse(Cause::Deep));
            }
            return self.indexed(tokens, d, word);
        }
        Ok(scalar(self.alloc, word)?)
    }

    #[tactic(auto, unfolding(crate::specs::AdjointReading::place))]
    fn place(&self, tokens: &mut Cursor<'_>, d: usize) -> Result<AMeasured, Failure>
        requires nests { NestsAdjoint self.now.brackets (F.pre self.now.expr) (F.post self.now.expr) }
        requires few { d < 2 ^ 32 }
        ensures reads { Reads (spec.place self.now.brackets (spec.adjoint_below self.now.brackets) (Some d) tokens.old) result tokens.new }
        ensures depth { IfOk result (λ x. (0 < x.depth) × (x.depth ≤ d + 1)) }
    {
        let word = tokens.name(self.alloc)?;
        self.after_name(tokens, d, word)
    }

    #[tactic(auto, unfolding(crate::specs::AdjointReading::first_argument))]
    fn first_argument(&self, tokens: &mut Cursor<'_>, d: usize) -> Result<AMeasured, Failure>
        requires nests { NestsAdjoint self.now.brackets (F.pre self.now.expr) (F.post self.now.expr) }
        requires few { d < 2 ^ 32 }
        requires room { 0 < self.now.brackets }
        ensures reads { Reads (spec.first_argument self.now.brackets (spec.adjoint_below self.now.brackets) (Some d) tokens.old) result tokens.new }
        ensures depth { IfOk result (λ x. (0 < x.depth) × (x.depth ≤ d + 1)) }
    {
        let _open = tokens.mark(Symbol::Open)?;
        let e = self.inner(tokens, d)?;
        let _comma = tokens.mark(Symbol::Comma)?;
        Ok(e)
    }

    #[tactic(auto, unfolding(crate::specs::AdjointReading::second_argument))]
    fn second_argument(&self, tokens: &mut Cursor<'_>, d: usize) -> Result<AMeasured, Failure>
        requires nests { NestsAdjoint self.now.brackets (F.pre self.now.expr) (F.post self.now.expr) }
        requires few { d < 2 ^ 32 }
        requires room { 0 < self.now.brackets }
        ensures reads { Reads (spec.second_argument self.now.brackets (spec.adjoint_below self.now.brackets) (Some d) tokens.old) result tokens.new }
        ensures depth { IfOk result (λ x. (0 < x.depth) × (x.depth ≤ d + 1)) }
    {
        let e = self.inner(tokens, d)?;
        let _close = tokens.mark(Symbol::Close)?;
        Ok(e)
    }

    #[tactic(auto, unfolding(crate::specs::AdjointReading::call_of_two))]
    fn call_of_two(&self, tokens: &mut Cursor<'_>, d: usize) -> Result<AMeasured, Failure>
        requires nests { NestsAdjoint self.now.brackets (F.pre self.now.expr) (F.post self.now.expr) }
        requires few { d < 2 ^ 32 }
        requires room { 0 < self.now.brackets }
        requires deep { 0 < d }
        ensures reads { Reads (spec.call_of_two self.now.brackets (spec.adjoint_below self.now.brackets) (Some d) tokens.old) result tokens.new }
        ensures depth { IfOk result (λ x. (0 < x.depth) × (x.depth ≤ d + 1)) }
    {
        let fun = pairing(tokens)?;
        let a = self.first_argument(tokens, d - 1)?;
        let b = self.second_argument(tokens, d - 1)?;
        let args = two_exprs(self.alloc, a, b)?;
        Ok(call(self.alloc, fun, args)?)
    }

    #[tactic(auto, unfolding(crate::specs::AdjointReading::call_of_one))]
    fn call_of_one(&self, tokens: &mut Cursor<'_>, d: usize) -> Result<AMeasured, Failure>
        requires nests { NestsAdjoint self.now.brackets (F.pre self.now.expr) (F.post self.now.expr) }
        requires few { d < 2 ^ 32 }
        requires room { 0 < self.now.brackets }
        requires deep { 0 < d }
        ensures reads { Reads (spec.call_of_one self.now.brackets (spec.adjoint_below self.now.brackets) (Some d) tokens.old) result tokens.new }
        ensures depth { IfOk result (λ x. (0 < x.depth) × (x.depth ≤ d + 1)) }
    {
        let fun = single(tokens)?;
        let a = self.bracketed(tokens, d - 1)?;
        let args = one_more(no_exprs(self.alloc), a)?;
        Ok(call(self.alloc, fun, args)?)
    }

    /// Whether the arguments of a merge may follow.
    fn may_merge(&self, d: usize) -> bool
        ensures is { result ≡ spec.may_merge self.now.brackets (spec.adjoint_below self.now.brackets) (Some d) }
        ensures room { IsTrue result → (0 < self.now.brackets) × (1 < d) }
    {
        self.brackets > 0 && d > 1
    }

    #[tactic(auto, unfolding(crate::specs::AdjointReading::merge_head))]
    fn merge_head(&self, tokens: &mut Cursor<'_>, d: usize) -> Result<AMeasured, Failure>
        requires nests { NestsAdjoint self.now.brackets (F.pre self.now.expr) (F.post self.now.expr) }
        requires few { d < 2 ^ 32 }
        requires room { 0 < self.now.brackets }
        ensures reads { Reads (spec.merge_head self.now.brackets (spec.adjoint_below self.now.brackets) (Some d) tokens.old) result tokens.new }
        ensures depth { IfOk result (λ x. (0 < x.depth) × (x.depth ≤ d + 1)) }
    {
        let _word = tokens.mark(Symbol::Merge)?;
        self.first_argument(tokens, d)
    }

    #[tactic(auto, unfolding(crate::specs::AdjointReading::middle_argument))]
    fn middle_argument(&self, tokens: &mut Cursor<'_>, d: usize) -> Result<AMeasured, Failure>
        requires nests { NestsAdjoint self.now.brackets (F.pre self.now.expr) (F.post self.now.expr) }
        requires few { d < 2 ^ 32 }
        requires room { 0 < self.now.brackets }
        ensures reads { Reads (spec.middle_argument self.now.brackets (spec.adjoint_below self.now.brackets) (Some d) tokens.old) result tokens.new }
        ensures depth { IfOk result (λ x. (0 < x.depth) × (x.depth ≤ d + 1)) }
    {
        let e = self.inner(tokens, d)?;
        let _comma = tokens.mark(Symbol::Comma)?;
        Ok(e)
    }

    #[tactic(auto, unfolding(crate::specs::AdjointReading::last_condition))]
    fn last_condition(&self, tokens: &mut Cursor<'_>, d: usize) -> Result<Judged, Failure>
        requires nests { NestsAdjoint self.now.brackets (F.pre self.now.expr) (F.post self.now.expr) }
        requires few { d < 2 ^ 32 }
        requires room { 0 < self.now.brackets }
        ensures reads { Reads (spec.last_condition self.now.brackets (spec.adjoint_below self.now.brackets) (Some d) tokens.old) result tokens.new }
        ensures depth { IfOk result (λ x. x.levels ≤ d + 1) }
    {
        let c = cond(self.alloc, tokens, self.brackets - 1, d)?;
        let _close = tokens.mark(Symbol::Close)?;
        Ok(c)
    }

    #[tactic(auto, unfolding(crate::specs::AdjointReading::merge_of))]
    fn merge_of(&self, tokens: &mut Cursor<'_>, d: usize) -> Result<AMeasured, Failure>
        requires nests { NestsAdjoint self.now.brackets (F.pre self.now.expr) (F.post self.now.expr) }
        requires few { d < 2 ^ 32 }
        requires room { 0 < self.now.brackets }
        requires deep { 1 < d }
        ensures reads { Reads (spec.merge_of self.now.brackets (spec.adjoint_below self.now.brackets) (Some d) tokens.old) result tokens.new }
        ensures depth { IfOk result (λ x. (0 < x.depth) × (x.depth ≤ d + 1)) }
    {
        let x = self.merge_head(tokens, d - 1)?;
        let y = self.middle_argument(tokens, d - 1)?;
        let c = self.last_condition(tokens, d - 2)?;
        Ok(merged(self.alloc, x, y, c)?)
    }

    #[tactic(auto, unfolding(crate::specs::AdjointReading::plain_operand))]
    fn plain_operand(&self, tokens: &mut Cursor<'_>, d: usize) -> Result<AMeasured, Failure>
        requires nests { NestsAdjoint self.now.brackets (F.pre self.now.expr) (F.post self.now.expr) }
        requires few { d < 2 ^ 32 }
        ensures reads { Reads (spec.plain_operand self.now.brackets (spec.adjoint_below self.now.brackets) (Some d) tokens.old) result tokens.new }
        ensures depth { IfOk result (λ x. (0 < x.depth) × (x.depth ≤ d + 1)) }
    {
        if tokens.sees(Symbol::Merge) {
            if !self.may_merge(d) {
                return Err(tokens.refuse(Cause::Deep));
            }
            return self.merge_of(tokens, d);
        }
        if tokens.sees_name() {
            return self.place(tokens, d);
        }
        self.literal(tokens)
    }

    #[tactic(auto, unfolding(crate::specs::AdjointReading::named))]
    fn named(&self, tokens: &mut Cursor<'_>, d: usize) -> Result<AMeasured, Failure>
        requires nests { NestsAdjoint self.now.brackets (F.pre self.now.expr) (F.post self.now.expr) }
        requires few { d < 2 ^ 32 }
        ensures reads { Reads (spec.named self.now.brackets (spec.adjoint_below self.now.brackets) (Some d) tokens.old) result tokens.new }
        ensures depth { IfOk result (λ x. (0 < x.depth) × (x.depth ≤ d + 1)) }
    {
        if is_pairing(tokens) {
            if !self.may_hold(d) {
                return Err(tokens.refuse(Cause::Deep));
            }
            return self.call_of_two(tokens, d);
        }
        if is_single(tokens) {
            if !self.may_hold(d) {
                return Err(tokens.refuse(Cause::Deep));
            }
            return self.call_of_one(tokens, d);
        }
        self.plain_operand(tokens, d)
    }

    #[tactic(auto, unfolding(crate::specs::AdjointReading::primary))]
    fn primary(&self, tokens: &mut Cursor<'_>, d: usize) -> Result<AMeasured, Failure>
        requires nests { NestsAdjoint self.now.brackets (F.pre self.now.expr) (F.post self.now.expr) }
        requires few { d < 2 ^ 32 }
        ensures reads { Reads (spec.primary self.now.brackets (spec.adjoint_below self.now.brackets) (Some d) tokens.old) result tokens.new }
        ensures depth { IfOk result (λ x. (0 < x.depth) × (x.depth ≤ d + 1)) }
    {
        if tokens.sees(Symbol::Open) {
            if self.brackets == 0 {
                return Err(tokens.refuse(Cause::Deep));
            }
            return self.bracketed(tokens, d);
        }
        self.named(tokens, d)
    }

    #[tactic(auto, unfolding(crate::specs::AdjointReading::raised))]
    fn raised(&self, tokens: &mut Cursor<'_>, d: usize, e: AMeasured) -> Result<AMeasured, Failure>
        requires few { d < 2 ^ 32 }
        requires some { 0 < e.depth }
        requires shallow { e.depth ≤ d + 1 }
        ensures reads { Reads (spec.raised (Some d) e tokens.old) result tokens.new }
        ensures depth { IfOk result (λ x. (0 < x.depth) × (x.depth ≤ d + 1)) }
    {
        if tokens.sees(Symbol::Power) {
            if e.depth > d {
                return Err(tokens.refuse(Cause::Deep));
            }
            return power_of(self.alloc, tokens, e);
        }
        Ok(e)
    }

    #[tactic(auto, unfolding(crate::specs::AdjointReading::factor))]
    pub fn factor(&self, tokens: &mut Cursor<'_>, d: usize) -> Result<AMeasured, Failure>
        requires nests { NestsAdjoint self.now.brackets (F.pre self.now.expr) (F.post self.now.expr) }
        requires few { d < 2 ^ 32 }
        ensures reads { Reads (spec.factor self.now.brackets (spec.adjoint_below self.now.brackets) (Some d) tokens.old) result tokens.new }
        ensures depth { IfOk result (λ x. (0 < x.depth) × (x.depth ≤ d + 1)) }
    {
        let e = self.primary(tokens, d)?;
        self.raised(tokens, d, e)
    }
}
