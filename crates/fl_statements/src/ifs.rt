//! Ifs.

ghost use Rattle.std.specs.Prelude.{◌≡◌, ◌-◌, ◌+◌, ◌<◌, ◌≤◌, ◌^◌, nat_lt, not, IfOk};
ghost use Rattle.parsing.specs.Code.{Reads};
ghost use Rattle.parsing.specs.Reading as reading;
ghost use Rattle.parsing.specs.Limit.{allows};
ghost use Rattle.parsing.specs.Terminal.{on};
ghost use Rattle.fl_statements.specs.Limits.{limits_of};
ghost use Rattle.fl_statements.specs.Terminals as terminals;
ghost use Rattle.fl_statements.specs.StmtReading as spec;
ghost use Rattle.fl_statements.specs.Branches as branches;
ghost use Rattle.fl_statements.specs.Inner.{ReadsInner};

use crate::assign::assign_to;
use crate::block::{Block, block_from};
use crate::branch::{Branch, branched, first_branch, with_arm, with_other};
use crate::limit::Limits;
use crate::rules::Rules;
use fl_base::Memory;
use fl_conditions::{Judged, cond};
use parsing::{Cause, Cursor, Failure, Symbol, Word};
use std::alloc::Global;

fn is_construct(tokens: &Cursor<'_>) -> bool
    ensures { result ≡ reading.sees (on terminals.is_construct) tokens.now }
{
    matches!(tokens.ahead(), Some(Symbol::Construct | Symbol::Call))
}

/// Whether a name comes that isn't `then`.
pub fn sees_plain_name(tokens: &Cursor<'_>) -> bool
    ensures { result ≡ reading.sees (on terminals.plain_names) tokens.now }
{
    match tokens.ahead() {
        Some(symbol) => symbol.names() && !Symbol::Then.is(symbol),
        None => false,
    }
}

/// Whether what stands behind a target's name comes.
pub fn begins_rest(tokens: &Cursor<'_>) -> bool
    ensures { result ≡ reading.sees (on terminals.begins_rest) tokens.now }
{
    matches!(tokens.ahead(), Some(Symbol::Open | Symbol::Equals))
}

/// Whether one more part of an If comes.
pub fn begins_part(tokens: &Cursor<'_>) -> bool
    ensures { result ≡ reading.sees (on terminals.begins_part) tokens.now }
{
    matches!(tokens.ahead(), Some(Symbol::ElseIf | Symbol::Else))
}

/// A name that isn't `then`.
pub fn plain_name(alloc: Global, tokens: &mut Cursor<'_>) -> Result<Word, Failure>
    ensures { Reads (reading.token terminals.plain_name tokens.old) result tokens.new }
{
    if tokens.sees(Symbol::Then) {
        return Err(tokens.refuse(Cause::Expected));
    }
    tokens.name(alloc)
}

/// The word `then`, which may be a name.
pub fn then_word(alloc: Global, tokens: &mut Cursor<'_>) -> Result<Word, Failure>
    ensures { Reads (reading.token terminals.then_word tokens.old) result tokens.new }
{
    if !tokens.sees(Symbol::Then) {
        return Err(tokens.refuse(Cause::Expected));
    }
    tokens.name(alloc)
}

/// The last line of an If.
#[tactic(auto, unfolding(crate::specs::StmtReading::end_if))]
pub fn end_if(tokens: &mut Cursor<'_>) -> Result<u32, Failure>
    ensures { Reads (spec.end_if tokens.old) result tokens.new }
{
    if tokens.sees(Symbol::EndIf) {
        let _endif = tokens.mark(Symbol::EndIf)?;
        return tokens.mark(Symbol::LineEnd);
    }
    let _end = tokens.mark(Symbol::End)?;
    let _if = tokens.mark(Symbol::If)?;
    tokens.mark(Symbol::LineEnd)
}

/// A condition in brackets.
#[tactic(auto, unfolding(crate::specs::StmtReading::guard))]
pub fn guard(alloc: Global, tokens: &mut Cursor<'_>, limits: Limits) -> Result<Judged, Failure>
    requires { limits.depth < 2 ^ 32 }
    ensures { Reads (spec.guard (limits_of limits) tokens.old) result tokens.new }
{
    let _open = tokens.mark(Symbol::Open)?;
    let test = cond(
        alloc,
        tokens,
        limits.brackets.saturating_sub(1),
        limits.depth.saturating_sub(1).saturating_sub(1),
    )?;
    let _close = tokens.mark(Symbol::Close)?;
    Ok(test)
}

/// Whether two more statements than so many are within the limits.
fn two_fit(limits: Limits, count: usize) -> bool
    ensures { result ≡ allows (limits_of limits).statements (count + 2) }
{
    if count < limits.statements {
        limits.statements - count > 1
    } else {
        false
    }
}

fn guarded(
    alloc: Global,
    found: Block,
    line: u32,
    test: Judged,
    body: Block,
) -> Result<Block, Memory>
    ensures { IfOk result (λ x. x ≡ branches.branched found (branches.first_branch line test.cond body)) }
{
    let branch = first_branch(alloc, line, test.cond, body)?;
    branched(found, branch)
}

/// An assignment to this name under a one-line `if`.
#[tactic(auto, unfolding(crate::specs::StmtReading::conditional))]
fn conditional(
    alloc: Global,
    tokens: &mut Cursor<'_>,
    limits: Limits,
    found: Block,
    line: u32,
    test: Judged,
    word: Word,
) -> Result<Block, Failure>
    requires shallow { limits.depth < 2 ^ 32 }
    requires few { found.loops ≤ found.count }
    requires fits { found.count + 2 < 2 ^ 33 }
    ensures reads { Reads (spec.conditional (limits_of limits) found line test word tokens.old) result tokens.new }
    ensures few { IfOk result (λ x. x.loops ≤ x.count) }
{
    let start = block_from(alloc, found.count + 1, found.loops);
    let body = assign_to(alloc, tokens, limits, false, start, word)?;
    Ok(guarded(alloc, found, line, test, body)?)
}

#[tactic(auto, unfolding(crate::specs::StmtReading::one_line))]
fn one_line(
    alloc: Global,
    tokens: &mut Cursor<'_>,
    limits: Limits,
    found: Block,
    line: u32,
    test: Judged,
) -> Result<Block, Failure>
    requires shallow { limits.depth < 2 ^ 32 }
    requires few { found.loops ≤ found.count }
    requires fits { found.count + 2 < 2 ^ 33 }
    ensures reads { Reads (spec.one_line (limits_of limits) found line test tokens.old) result tokens.new }
    ensures few { IfOk result (λ x. x.loops ≤ x.count) }
{
    let word = plain_name(alloc, tokens)?;
    conditional(alloc, tokens, limits, found, line, test, word)
}

impl<F: Fn(Global, &mut Cursor<'_>, Limits, usize, bool, Block) -> Result<Block, Failure>> Rules<
    F,
> {
    #[tactic(auto, unfolding(crate::specs::StmtReading::first_arm))]
    fn first_arm(
        &self,
        tokens: &mut Cursor<'_>,
        count: usize,
        loops: u32,
        line: u32,
        test: Judged,
    ) -> Result<Branch, Failure>
        requires inner { ReadsInner self.now.limits self.now.blocks (F.pre self.now.inner) (F.post self.now.inner) }
        requires shallow { self.now.limits.depth < 2 ^ 32 }
        requires room { 0 < self.now.blocks }
        requires few { loops ≤ count }
        requires fits { count + 1 < 2 ^ 32 }
        ensures reads { Reads (spec.first_arm (limits_of self.now.limits) (nat_lt 0 self.now.blocks) (spec.nested (limits_of self.now.limits) self.now.blocks) self.now.inside count loops line test tokens.old) result tokens.new }
        ensures few { IfOk result (λ x. x.loops ≤ x.count) }
    {
        let _eol = tokens.mark(Symbol::LineEnd)?;
        let body = self.inner_block(tokens, self.inside, count + 1, loops)?;
        Ok(first_branch(self.alloc, line, test.cond, body)?)
    }

    #[tactic(auto, unfolding(crate::specs::StmtReading::another_arm))]
    fn another_arm(&self, tokens: &mut Cursor<'_>, found: Branch) -> Result<Branch, Failure>
        requires inner { ReadsInner self.now.limits self.now.blocks (F.pre self.now.inner) (F.post self.now.inner) }
        requires shallow { self.now.limits.depth < 2 ^ 32 }
        requires room { 0 < self.now.blocks }
        requires few { found.loops ≤ found.count }
        ensures reads { Reads (spec.another_arm (limits_of self.now.limits) (nat_lt 0 self.now.blocks) (spec.nested (limits_of self.now.limits) self.now.blocks) self.now.inside found tokens.old) result tokens.new }
        ensures few { IfOk result (λ x. x.loops ≤ x.count) }
    {
        let test = guard(self.alloc, tokens, self.limits)?;
        let _then = tokens.mark(Symbol::Then)?;
        let _eol = tokens.mark(Symbol::LineEnd)?;
        let body = self.inner_block(tokens, self.inside, found.count, found.loops)?;
        Ok(with_arm(found, test.cond, body)?)
    }

    #[tactic(auto, unfolding(crate::specs::StmtReading::last_part))]
    fn last_part(&self, tokens: &mut Cursor<'_>, found: Branch) -> Result<Branch, Failure>
        requires inner { ReadsInner self.now.limits self.now.blocks (F.pre self.now.inner) (F.post self.now.inner) }
        requires shallow { self.now.limits.depth < 2 ^ 32 }
        requires room { 0 < self.now.blocks }
        requires few { found.loops ≤ found.count }
        ensures reads { Reads (spec.last_part (limits_of self.now.limits) (nat_lt 0 self.now.blocks) (spec.nested (limits_of self.now.limits) self.now.blocks) self.now.inside found tokens.old) result tokens.new }
        ensures few { IfOk result (λ x. x.loops ≤ x.count) }
    {
        let _eol = tokens.mark(Symbol::LineEnd)?;
        let body = self.inner_block(tokens, self.inside, found.count, found.loops)?;
        Ok(with_other(found, body))
    }

    #[tactic(auto, unfolding(crate::specs::StmtReading::after_else))]
    fn after_else(&self, tokens: &mut Cursor<'_>, found: Branch) -> Result<Branch, Failure>
        requires inner { ReadsInner self.now.limits self.now.blocks (F.pre self.now.inner) (F.post self.now.inner) }
        requires shallow { self.now.limits.depth < 2 ^ 32 }
        requires room { 0 < self.now.blocks }
        requires few { found.loops ≤ found.count }
        ensures reads { Reads (spec.after_else (limits_of self.now.limits) (nat_lt 0 self.now.blocks) (spec.nested (limits_of self.now.limits) self.now.blocks) self.now.inside found tokens.old) result tokens.new }
        ensures few { IfOk result (λ x. x.loops ≤ x.count) }
    {
        if tokens.sees(Symbol::If) {
            let _if = tokens.mark(Symbol::If)?;
            return self.another_arm(tokens, found);
        }
        self.last_part(tokens, found)
    }

    #[tactic(auto, unfolding(crate::specs::StmtReading::part))]
    fn part(&self, tokens: &mut Cursor<'_>, found: Branch) -> Result<Branch, Failure>
        requires inner { ReadsInner self.now.limits self.now.blocks (F.pre self.now.inner) (F.post self.now.inner) }
        requires shallow { self.now.limits.depth < 2 ^ 32 }
        requires room { 0 < self.now.blocks }
        requires few { found.loops ≤ found.count }
        ensures reads { Reads (spec.part (limits_of self.now.limits) (nat_lt 0 self.now.blocks) (spec.nested (limits_of self.now.limits) self.now.blocks) self.now.inside found tokens.old) result tokens.new }
        ensures few { IfOk result (λ x. x.loops ≤ x.count) }
    {
        if tokens.sees(Symbol::ElseIf) {
            let _elseif = tokens.mark(Symbol::ElseIf)?;
            return self.another_arm(tokens, found);
        }
        let _else = tokens.mark(Symbol::Else)?;
        self.after_else(tokens, found)
    }

    fn parts(&self, tokens: &mut Cursor<'_>, mut found: Branch) -> Result<Branch, Failure>
        requires inner { ReadsInner self.now.limits self.now.blocks (F.pre self.now.inner) (F.post self.now.inner) }
        requires shallow { self.now.limits.depth < 2 ^ 32 }
        requires room { 0 < self.now.blocks }
        requires few { found.loops ≤ found.count }
        ensures reads { Reads (spec.parts (limits_of self.now.limits) (nat_lt 0 self.now.blocks) (spec.nested (limits_of self.now.limits) self.now.blocks) self.now.inside found tokens.old) result tokens.new }
        ensures few { IfOk result (λ x. x.loops ≤ x.count) }
    {
        for _turn in 0..tokens.len() {
            if !begins_part(tokens) {
                return Ok(found);
            }
            if found.closed {
                return Err(tokens.refuse(Cause::Expected));
            }
            found = self.part(tokens, found)?;
        }
        Ok(found)
    }

    #[tactic(auto, unfolding(crate::specs::StmtReading::block_if))]
    fn block_if(
        &self,
        tokens: &mut Cursor<'_>,
        found: Block,
        line: u32,
        test: Judged,
    ) -> Result<Block, Failure>
        requires inner { ReadsInner self.now.limits self.now.blocks (F.pre self.now.inner) (F.post self.now.inner) }
        requires shallow { self.now.limits.depth < 2 ^ 32 }
        requires room { 0 < self.now.blocks }
        requires few { found.loops ≤ found.count }
        requires fits { found.count + 1 < 2 ^ 32 }
        ensures reads { Reads (spec.block_if (limits_of self.now.limits) (nat_lt 0 self.now.blocks) (spec.nested (limits_of self.now.limits) self.now.blocks) self.now.inside found line test tokens.old) result tokens.new }
        ensures few { IfOk result (λ x. x.loops ≤ x.count) }
    {
        let first = self.first_arm(tokens, found.count, found.loops, line, test)?;
        let branch = self.parts(tokens, first)?;
        let _end = end_if(tokens)?;
        Ok(branched(found, branch)?)
    }

    /// Behind a `then`, which is a name or begins a block.
    #[tactic(auto, unfolding(crate::specs::StmtReading::after_then))]
    fn after_then(
        &self,
        tokens: &mut Cursor<'_>,
        found: Block,
        line: u32,
        test: Judged,
        word: Word,
    ) -> Result<Block, Failure>
        requires inner { ReadsInner self.now.limits self.now.blocks (F.pre self.now.inner) (F.post self.now.inner) }
        requires shallow { self.now.limits.depth < 2 ^ 32 }
        requires room { 0 < self.now.blocks }
        requires few { found.loops ≤ found.count }
        requires fits { found.count + 1 < 2 ^ 32 }
        ensures reads { Reads (spec.after_then (limits_of self.now.limits) (nat_lt 0 self.now.blocks) (spec.nested (limits_of self.now.limits) self.now.blocks) self.now.inside found line test word tokens.old) result tokens.new }
        ensures few { IfOk result (λ x. x.loops ≤ x.count) }
    {
        if begins_rest(tokens) {
            if !two_fit(self.limits, found.count) {
                return Err(tokens.refuse(Cause::Many));
            }
            return conditional(self.alloc, tokens, self.limits, found, line, test, word);
        }
        self.block_if(tokens, found, line, test)
    }

    #[tactic(auto, unfolding(crate::specs::StmtReading::then_part))]
    fn then_part(
        &self,
        tokens: &mut Cursor<'_>,
        found: Block,
        line: u32,
        test: Judged,
    ) -> Result<Block, Failure>
        requires inner { ReadsInner self.now.limits self.now.blocks (F.pre self.now.inner) (F.post self.now.inner) }
        requires shallow { self.now.limits.depth < 2 ^ 32 }
        requires room { 0 < self.now.blocks }
        requires few { found.loops ≤ found.count }
        requires fits { found.count + 1 < 2 ^ 32 }
        ensures reads { Reads (spec.then_part (limits_of self.now.limits) (nat_lt 0 self.now.blocks) (spec.nested (limits_of self.now.limits) self.now.blocks) self.now.inside found line test tokens.old) result tokens.new }
        ensures few { IfOk result (λ x. x.loops ≤ x.count) }
    {
        let word = then_word(self.alloc, tokens)?;
        self.after_then(tokens, found, line, test, word)
    }

    /// Behind the bracket that closes the condition.
    #[tactic(auto, unfolding(crate::specs::StmtReading::after_guard))]
    fn after_guard(
        &self,
        tokens: &mut Cursor<'_>,
        found: Block,
        line: u32,
        test: Judged,
    ) -> Result<Block, Failure>
        requires inner { ReadsInner self.now.limits self.now.blocks (F.pre self.now.inner) (F.post self.now.inner) }
        requires shallow { self.now.limits.depth < 2 ^ 32 }
        requires room { 0 < self.now.blocks }
        requires few { found.loops ≤ found.count }
        requires fits { found.count + 1 < 2 ^ 32 }
        ensures reads { Reads (spec.after_guard (limits_of self.now.limits) (nat_lt 0 self.now.blocks) (spec.nested (limits_of self.now.limits) self.now.blocks) self.now.inside found line test tokens.old) result tokens.new }
        ensures few { IfOk result (λ x. x.loops ≤ x.count) }
    {
        if is_construct(tokens) {
            return Err(tokens.refuse(Cause::Construct));
        }
        if sees_plain_name(tokens) {
            if !two_fit(self.limits, found.count) {
                return Err(tokens.refuse(Cause::Many));
            }
            return one_line(self.alloc, tokens, self.limits, found, line, test);
        }
        self.then_part(tokens, found, line, test)
    }

    #[tactic(auto, unfolding(crate::specs::StmtReading::if_stmt))]
    pub fn if_stmt(&self, tokens: &mut Cursor<'_>, found: Block) -> Result<Block, Failure>
        requires inner { ReadsInner self.now.limits self.now.blocks (F.pre self.now.inner) (F.post self.now.inner) }
        requires shallow { self.now.limits.depth < 2 ^ 32 }
        requires room { 0 < self.now.blocks }
        requires few { found.loops ≤ found.count }
        requires fits { found.count + 1 < 2 ^ 32 }
        ensures reads { Reads (spec.if_stmt (limits_of self.now.limits) (nat_lt 0 self.now.blocks) (spec.nested (limits_of self.now.limits) self.now.blocks) self.now.inside found tokens.old) result tokens.new }
        ensures few { IfOk result (λ x. x.loops ≤ x.count) }
    {
        let line = tokens.mark(Symbol::If)?;
        let test = guard(self.alloc, tokens, self.limits)?;
        self.after_guard(tokens, found, line, test)
    }
}
