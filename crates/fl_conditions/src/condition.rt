//! Conditions. The rules take the reader of what stands in brackets as a parameter, so that each is proved by itself.

ghost use Rattle.std.specs.Prelude.{◌≡◌, ◌-◌, ◌+◌, ◌<◌, ◌≤◌, ◌^◌, nat_lt, IfOk, Some};
ghost use Rattle.parsing.specs.Code.{Reads};
ghost use Rattle.parsing.specs.Reading as reading;
ghost use Rattle.fl_conditions.specs.CondReading as spec;
ghost use Rattle.fl_conditions.specs.Terminals as terminals;
ghost use Rattle.fl_conditions.specs.Trees as trees;
ghost use Rattle.fl_conditions.specs.NestsConditions.{NestsConditions, IsShallow};

use crate::tree::{Judged, Mixed, both, denial, one_of, related};
use fl_ast::RelOp;
use fl_expressions::{Measured, expr, rest_of, unopened};
use parsing::{Cause, Cursor, Failure, Symbol};
use std::alloc::Global;

fn is_rel_op(tokens: &Cursor<'_>) -> bool
    ensures { result ≡ reading.sees terminals.is_rel_op tokens.now }
{
    matches!(
        tokens.ahead(),
        Some(
            Symbol::Equal
                | Symbol::Unequal
                | Symbol::Less
                | Symbol::AtMost
                | Symbol::Greater
                | Symbol::AtLeast
        )
    )
}

fn rel_op(tokens: &mut Cursor<'_>) -> Result<RelOp, Failure>
    ensures { Reads (reading.token terminals.rel_op tokens.old) result tokens.new }
{
    match tokens.ahead() {
        Some(Symbol::Equal) => {
            let _mark = tokens.mark(Symbol::Equal)?;
            Ok(RelOp::Eq)
        }
        Some(Symbol::Unequal) => {
            let _mark = tokens.mark(Symbol::Unequal)?;
            Ok(RelOp::Ne)
        }
        Some(Symbol::Less) => {
            let _mark = tokens.mark(Symbol::Less)?;
            Ok(RelOp::Lt)
        }
        Some(Symbol::AtMost) => {
            let _mark = tokens.mark(Symbol::AtMost)?;
            Ok(RelOp::Le)
        }
        Some(Symbol::Greater) => {
            let _mark = tokens.mark(Symbol::Greater)?;
            Ok(RelOp::Gt)
        }
        Some(Symbol::AtLeast) => {
            let _mark = tokens.mark(Symbol::AtLeast)?;
            Ok(RelOp::Ge)
        }
        _ => Err(tokens.refuse(Cause::Expected)),
    }
}

fn and_op(tokens: &mut Cursor<'_>) -> Result<(), Failure>
    ensures { Reads (reading.token terminals.and_op tokens.old) result tokens.new }
{
    let _mark = tokens.mark(Symbol::And)?;
    Ok(())
}

fn or_op(tokens: &mut Cursor<'_>) -> Result<(), Failure>
    ensures { Reads (reading.token terminals.or_op tokens.old) result tokens.new }
{
    let _mark = tokens.mark(Symbol::Or)?;
    Ok(())
}

fn is_and_op(tokens: &Cursor<'_>) -> bool
    ensures { result ≡ reading.sees terminals.is_and_op tokens.now }
{
    matches!(tokens.ahead(), Some(Symbol::And))
}

fn is_or_op(tokens: &Cursor<'_>) -> bool
    ensures { result ≡ reading.sees terminals.is_or_op tokens.now }
{
    matches!(tokens.ahead(), Some(Symbol::Or))
}

/// A relation whose left side has been read.
#[tactic(auto, unfolding(crate::specs::CondReading::comparing))]
fn comparing(
    alloc: Global,
    tokens: &mut Cursor<'_>,
    brackets: usize,
    d: usize,
    l: Measured,
) -> Result<Mixed, Failure>
    requires few { d < 2 ^ 32 }
    requires shallow { l.depth ≤ d + 1 }
    requires real { 0 < l.depth }
    ensures reads { Reads (spec.comparing brackets (Some d) l tokens.old) result tokens.new }
    ensures depth { IfOk result (IsShallow d) }
{
    let op = rel_op(tokens)?;
    let r = expr(alloc, tokens, brackets, d)?;
    Ok(Mixed::Test(related(alloc, op, l, r)?))
}

#[tactic(auto, unfolding(crate::specs::CondReading::compared))]
fn compared(
    alloc: Global,
    tokens: &mut Cursor<'_>,
    brackets: usize,
    d: usize,
    l: Measured,
) -> Result<Mixed, Failure>
    requires few { d < 2 ^ 32 }
    requires shallow { l.depth ≤ d + 1 }
    requires real { 0 < l.depth }
    ensures reads { Reads (spec.compared brackets (Some d) l tokens.old) result tokens.new }
    ensures depth { IfOk result (IsShallow d) }
{
    if is_rel_op(tokens) {
        return comparing(alloc, tokens, brackets, d, l);
    }
    Ok(Mixed::Value(l))
}

#[tactic(auto, unfolding(crate::specs::CondReading::after_value))]
fn after_value(
    alloc: Global,
    tokens: &mut Cursor<'_>,
    brackets: usize,
    d: usize,
    e: Measured,
) -> Result<Mixed, Failure>
    requires few { d < 2 ^ 32 }
    requires shallow { e.depth ≤ d + 1 }
    requires real { 0 < e.depth }
    ensures reads { Reads (spec.after_value brackets (Some d) e tokens.old) result tokens.new }
    ensures depth { IfOk result (IsShallow d) }
{
    let whole = rest_of(alloc, tokens, brackets, d, e)?;
    compared(alloc, tokens, brackets, d, whole)
}

/// What goes on behind a bracket that held this.
fn after(
    alloc: Global,
    tokens: &mut Cursor<'_>,
    brackets: usize,
    d: usize,
    held: Mixed,
) -> Result<Mixed, Failure>
    requires few { d < 2 ^ 32 }
    requires shallow { IsShallow d held }
    ensures reads { Reads (spec.after brackets (Some d) held tokens.old) result tokens.new }
    ensures depth { IfOk result (IsShallow d) }
{
    match held {
        Mixed::Value(e) => after_value(alloc, tokens, brackets, d, e),
        Mixed::Test(c) => Ok(Mixed::Test(c)),
    }
}

#[tactic(auto, unfolding(crate::specs::CondReading::begun))]
fn begun(
    alloc: Global,
    tokens: &mut Cursor<'_>,
    brackets: usize,
    d: usize,
) -> Result<Mixed, Failure>
    requires { d < 2 ^ 32 }
    ensures reads { Reads (spec.begun brackets (Some d) tokens.old) result tokens.new }
    ensures depth { IfOk result (IsShallow d) }
{
    let e = unopened(alloc, tokens, brackets, d)?;
    compared(alloc, tokens, brackets, d, e)
}

#[derive(Clone, Copy)]
struct Rules<F> {
    alloc: Global,
    /// How many brackets may still open.
    brackets: usize,
    mixed: F,
}

impl<F: Fn(Global, &mut Cursor<'_>, usize, usize) -> Result<Mixed, Failure>> Rules<F> {
    /// What stands in one bracket more.
    fn inner(&self, tokens: &mut Cursor<'_>, d: usize) -> Result<Mixed, Failure>
        requires nests { NestsConditions self.now.brackets (F.pre self.now.mixed) (F.post self.now.mixed) }
        requires few { d < 2 ^ 32 }
        requires room { 0 < self.now.brackets }
        ensures reads { Reads (spec.below_mixed self.now.brackets (Some d) tokens.old) result tokens.new }
        ensures depth { IfOk result (IsShallow d) }
    {
        (self.mixed)(self.alloc, tokens, self.brackets - 1, d)
    }

    #[tactic(auto, unfolding(crate::specs::CondReading::bracketed))]
    fn bracketed(&self, tokens: &mut Cursor<'_>, d: usize) -> Result<Mixed, Failure>
        requires nests { NestsConditions self.now.brackets (F.pre self.now.mixed) (F.post self.now.mixed) }
        requires few { d < 2 ^ 32 }
        requires room { 0 < self.now.brackets }
        ensures reads { Reads (spec.bracketed self.now.brackets (spec.below_mixed self.now.brackets) (Some d) tokens.old) result tokens.new }
        ensures depth { IfOk result (IsShallow d) }
    {
        let _open = tokens.mark(Symbol::Open)?;
        let held = self.inner(tokens, d)?;
        let _close = tokens.mark(Symbol::Close)?;
        after(self.alloc, tokens, self.brackets, d, held)
    }

    #[tactic(auto, unfolding(crate::specs::CondReading::operand))]
    fn operand(&self, tokens: &mut Cursor<'_>, d: usize) -> Result<Mixed, Failure>
        requires nests { NestsConditions self.now.brackets (F.pre self.now.mixed) (F.post self.now.mixed) }
        requires few { d < 2 ^ 32 }
        ensures reads { Reads (spec.operand self.now.brackets (spec.below_mixed self.now.brackets) (Some d) tokens.old) result tokens.new }
        ensures depth { IfOk result (IsShallow d) }
    {
        if tokens.sees(Symbol::Open) {
            if self.brackets == 0 {
                return Err(tokens.refuse(Cause::Deep));
            }
            return self.bracketed(tokens, d);
        }
        begun(self.alloc, tokens, self.brackets, d)
    }

    #[tactic(auto, unfolding(crate::specs::CondReading::simple))]
    fn simple(&self, tokens: &mut Cursor<'_>, d: usize) -> Result<Judged, Failure>
        requires nests { NestsConditions self.now.brackets (F.pre self.now.mixed) (F.post self.now.mixed) }
        requires few { d < 2 ^ 32 }
        ensures reads { Reads (spec.simple self.now.brackets (spec.below_mixed self.now.brackets) (Some d) tokens.old) result tokens.new }
        ensures depth { IfOk result (λ x. (0 < x.levels) × (x.levels ≤ d + 1)) }
    {
        match self.operand(tokens, d)? {
            Mixed::Test(c) => Ok(c),
            Mixed::Value(_) => Err(tokens.refuse(Cause::Expected)),
        }
    }

    #[tactic(auto, unfolding(crate::specs::CondReading::denied))]
    fn denied(&self, tokens: &mut Cursor<'_>, d: usize) -> Result<Mixed, Failure>
        requires nests { NestsConditions self.now.brackets (F.pre self.now.mixed) (F.post self.now.mixed) }
        requires few { d < 2 ^ 32 }
        requires some { 0 < d }
        ensures reads { Reads (spec.denied self.now.brackets (spec.below_mixed self.now.brackets) (Some d) tokens.old) result tokens.new }
        ensures depth { IfOk result (IsShallow d) }
    {
        let _not = tokens.mark(Symbol::Not)?;
        let c = self.simple(tokens, d - 1)?;
        Ok(Mixed::Test(denial(self.alloc, c)?))
    }

    #[tactic(auto, unfolding(crate::specs::CondReading::first))]
    fn first(&self, tokens: &mut Cursor<'_>, d: usize) -> Result<Mixed, Failure>
        requires nests { NestsConditions self.now.brackets (F.pre self.now.mixed) (F.post self.now.mixed) }
        requires few { d < 2 ^ 32 }
        ensures reads { Reads (spec.first self.now.brackets (spec.below_mixed self.now.brackets) (Some d) tokens.old) result tokens.new }
        ensures depth { IfOk result (IsShallow d) }
    {
        if tokens.sees(Symbol::Not) {
            if d == 0 {
                return Err(tokens.refuse(Cause::Deep));
            }
            return self.denied(tokens, d);
        }
        self.operand(tokens, d)
    }

    #[tactic(auto, unfolding(crate::specs::CondReading::negation))]
    fn negation(&self, tokens: &mut Cursor<'_>, d: usize) -> Result<Judged, Failure>
        requires nests { NestsConditions self.now.brackets (F.pre self.now.mixed) (F.post self.now.mixed) }
        requires few { d < 2 ^ 32 }
        ensures reads { Reads (spec.negation self.now.brackets (spec.below_mixed self.now.brackets) (Some d) tokens.old) result tokens.new }
        ensures depth { IfOk result (λ x. (0 < x.levels) × (x.levels ≤ d + 1)) }
    {
        match self.first(tokens, d)? {
            Mixed::Test(c) => Ok(c),
            Mixed::Value(_) => Err(tokens.refuse(Cause::Expected)),
        }
    }

    fn and_one(&self, tokens: &mut Cursor<'_>, d: usize, l: Judged) -> Result<Judged, Failure>
        requires nests { NestsConditions self.now.brackets (F.pre self.now.mixed) (F.post self.now.mixed) }
        requires few { d < 2 ^ 32 }
        requires shallow { l.levels ≤ d }
        requires some { 0 < d }
        ensures reads { Reads (reading.grouped terminals.and_op trees.both (spec.negation self.now.brackets (spec.below_mixed self.now.brackets)) (Some d) l tokens.old) result tokens.new }
        ensures depth { IfOk result (λ x. (0 < x.levels) × (x.levels ≤ d + 1)) }
    {
        and_op(tokens)?;
        let r = self.negation(tokens, d - 1)?;
        Ok(both(self.alloc, l, r)?)
    }

    fn ands_from(
        &self,
        tokens: &mut Cursor<'_>,
        d: usize,
        mut left: Judged,
    ) -> Result<Judged, Failure>
        requires nests { NestsConditions self.now.brackets (F.pre self.now.mixed) (F.post self.now.mixed) }
        requires few { d < 2 ^ 32 }
        requires shallow { left.levels ≤ d + 1 }
        requires real { 0 < left.levels }
        ensures reads { Reads (spec.ands_from self.now.brackets (spec.below_mixed self.now.brackets) (Some d) left tokens.old) result tokens.new }
        ensures depth { IfOk result (λ x. (0 < x.levels) × (x.levels ≤ d + 1)) }
    {
        for _turn in 0..tokens.len() {
            if !is_and_op(tokens) {
                return Ok(left);
            }
            if left.levels > d {
                return Err(tokens.refuse(Cause::Deep));
            }
            left = self.and_one(tokens, d, left)?;
        }
        Ok(left)
    }

    #[tactic(auto, unfolding(crate::specs::CondReading::conjunction))]
    fn conjunction(&self, tokens: &mut Cursor<'_>, d: usize) -> Result<Judged, Failure>
        requires nests { NestsConditions self.now.brackets (F.pre self.now.mixed) (F.post self.now.mixed) }
        requires few { d < 2 ^ 32 }
        ensures reads { Reads (spec.conjunction self.now.brackets (spec.below_mixed self.now.brackets) (Some d) tokens.old) result tokens.new }
        ensures depth { IfOk result (λ x. (0 < x.levels) × (x.levels ≤ d + 1)) }
    {
        let left = self.negation(tokens, d)?;
        self.ands_from(tokens, d, left)
    }

    fn or_one(&self, tokens: &mut Cursor<'_>, d: usize, l: Judged) -> Result<Judged, Failure>
        requires nests { NestsConditions self.now.brackets (F.pre self.now.mixed) (F.post self.now.mixed) }
        requires few { d < 2 ^ 32 }
        requires shallow { l.levels ≤ d }
        requires some { 0 < d }
        ensures reads { Reads (reading.grouped terminals.or_op trees.one_of (spec.conjunction self.now.brackets (spec.below_mixed self.now.brackets)) (Some d) l tokens.old) result tokens.new }
        ensures depth { IfOk result (λ x. (0 < x.levels) × (x.levels ≤ d + 1)) }
    {
        or_op(tokens)?;
        let r = self.conjunction(tokens, d - 1)?;
        Ok(one_of(self.alloc, l, r)?)
    }

    fn ors_from(
        &self,
        tokens: &mut Cursor<'_>,
        d: usize,
        mut left: Judged,
    ) -> Result<Judged, Failure>
        requires nests { NestsConditions self.now.brackets (F.pre self.now.mixed) (F.post self.now.mixed) }
        requires few { d < 2 ^ 32 }
        requires shallow { left.levels ≤ d + 1 }
        requires real { 0 < left.levels }
        ensures reads { Reads (spec.ors_from self.now.brackets (spec.below_mixed self.now.brackets) (Some d) left tokens.old) result tokens.new }
        ensures depth { IfOk result (λ x. (0 < x.levels) × (x.levels ≤ d + 1)) }
    {
        for _turn in 0..tokens.len() {
            if !is_or_op(tokens) {
                return Ok(left);
            }
            if left.levels > d {
                return Err(tokens.refuse(Cause::Deep));
            }
            left = self.or_one(tokens, d, left)?;
        }
        Ok(left)
    }

    #[tactic(auto, unfolding(crate::specs::CondReading::joining))]
    fn joining(&self, tokens: &mut Cursor<'_>, d: usize, left: Judged) -> Result<Judged, Failure>
        requires nests { NestsConditions self.now.brackets (F.pre self.now.mixed) (F.post self.now.mixed) }
        requires few { d < 2 ^ 32 }
        requires shallow { left.levels ≤ d + 1 }
        requires real { 0 < left.levels }
        ensures reads { Reads (spec.joining self.now.brackets (spec.below_mixed self.now.brackets) (Some d) left tokens.old) result tokens.new }
        ensures depth { IfOk result (λ x. (0 < x.levels) × (x.levels ≤ d + 1)) }
    {
        let conjunction = self.ands_from(tokens, d, left)?;
        self.ors_from(tokens, d, conjunction)
    }

    fn joined(&self, tokens: &mut Cursor<'_>, d: usize, first: Mixed) -> Result<Mixed, Failure>
        requires nests { NestsConditions self.now.brackets (F.pre self.now.mixed) (F.post self.now.mixed) }
        requires few { d < 2 ^ 32 }
        requires shallow { IsShallow d first }
        ensures reads { Reads (spec.joined self.now.brackets (spec.below_mixed self.now.brackets) (Some d) first tokens.old) result tokens.new }
        ensures depth { IfOk result (IsShallow d) }
    {
        match first {
            Mixed::Value(e) => Ok(Mixed::Value(e)),
            Mixed::Test(c) => Ok(Mixed::Test(self.joining(tokens, d, c)?)),
        }
    }

    #[tactic(auto, unfolding(crate::specs::CondReading::mixture))]
    fn mixture(&self, tokens: &mut Cursor<'_>, d: usize) -> Result<Mixed, Failure>
        requires nests { NestsConditions self.now.brackets (F.pre self.now.mixed) (F.post self.now.mixed) }
        requires few { d < 2 ^ 32 }
        ensures reads { Reads (spec.mixture self.now.brackets (spec.below_mixed self.now.brackets) (Some d) tokens.old) result tokens.new }
        ensures depth { IfOk result (IsShallow d) }
    {
        let first = self.first(tokens, d)?;
        self.joined(tokens, d, first)
    }
}

/// An expression or a condition, whichever comes.
fn mixed(
    alloc: Global,
    tokens: &mut Cursor<'_>,
    brackets: usize,
    d: usize,
) -> Result<Mixed, Failure>
    requires { d < 2 ^ 32 }
    ensures reads { Reads (spec.mixed brackets (Some d) tokens.old) result tokens.new }
    ensures depth { IfOk result (IsShallow d) }
{
    Rules {
        alloc,
        brackets,
        mixed,
    }
    .mixture(tokens, d)
}

/// A condition with so many brackets to open; `d` is how many levels an operand of a relation may have beneath its root.
#[tactic(auto, unfolding(crate::specs::CondReading::cond))]
pub fn cond(
    alloc: Global,
    tokens: &mut Cursor<'_>,
    brackets: usize,
    d: usize,
) -> Result<Judged, Failure>
    requires { d < 2 ^ 32 }
    ensures reads { Reads (spec.cond brackets (Some d) tokens.old) result tokens.new }
    ensures depth { IfOk result (λ x. (0 < x.levels) × (x.levels ≤ d + 1)) }
{
    match mixed(alloc, tokens, brackets, d)? {
        Mixed::Test(c) => Ok(c),
        Mixed::Value(_) => Err(tokens.refuse(Cause::Expected)),
    }
}
