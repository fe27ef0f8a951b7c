//! Loops, directives and lists of statements. The rules take the reader of the blocks in a block as a parameter, so that
//! each is proved by itself.

ghost use Rattle.std.specs.Prelude.{◌≡◌, ◌-◌, ◌+◌, ◌<◌, ◌≤◌, ◌^◌, nat_lt, not, false, IsTrue, IfOk};
ghost use Rattle.parsing.specs.Code.{Reads};
ghost use Rattle.parsing.specs.Reading as reading;
ghost use Rattle.parsing.specs.Terminal.{on};
ghost use Rattle.fl_statements.specs.Limits.{limits_of};
ghost use Rattle.fl_statements.specs.StmtReading as spec;
ghost use Rattle.fl_statements.specs.Trees.{is_awaited as is_awaited_lem, block_from as from};
ghost use Rattle.fl_statements.specs.Inner.{ReadsInner};

use crate::assign::assign;
use crate::block::{Awaited, Block, LoopParts, block_from, ended, looped};
use crate::limit::{Limits, fits};
use crate::line::{end_do, loop_line};
use fl_base::Held;
use parsing::{Cause, Cursor, Failure, Symbol};
use std::alloc::Global;

/// How a block is read, in a parallel loop or not.
#[derive(Clone, Copy)]
pub struct Rules<F> {
    pub alloc: Global,
    pub limits: Limits,
    /// How many blocks may still stand in each other.
    pub blocks: usize,
    pub inside: bool,
    pub inner: F,
}

fn begins_stmt(tokens: &Cursor<'_>) -> bool
    ensures { result ≡ reading.sees (on spec.begins_stmt) tokens.now }
{
    match tokens.ahead() {
        Some(symbol) => symbol.names()
            || matches!(symbol, Symbol::Do | Symbol::If | Symbol::Sentinel),
        None => false,
    }
}

fn is_awaited(awaited: Awaited) -> bool
    ensures { result ≡ is_awaited_lem awaited }
{
    match awaited {
        Awaited::Nothing => false,
        Awaited::LoopEnd => true,
        Awaited::AtomicEnd => true,
    }
}

impl<F: Fn(Global, &mut Cursor<'_>, Limits, usize, bool, Block) -> Result<Block, Failure>> Rules<
    F,
> {
    /// The statements of a block in this one.
    pub fn inner_block(
        &self,
        tokens: &mut Cursor<'_>,
        inside: bool,
        count: usize,
        loops: u32,
    ) -> Result<Block, Failure>
        requires inner { ReadsInner self.now.limits self.now.blocks (F.pre self.now.inner) (F.post self.now.inner) }
        requires room { 0 < self.now.blocks }
        requires few { loops ≤ count }
        ensures reads { Reads (spec.nested (limits_of self.now.limits) self.now.blocks inside (from count loops) tokens.old) result tokens.new }
        ensures few { IfOk result (λ x. x.loops ≤ x.count) }
    {
        let start = block_from(self.alloc, count, loops);
        (self.inner)(
            self.alloc,
            tokens,
            self.limits,
            self.blocks - 1,
            inside,
            start,
        )
    }

    #[tactic(auto, unfolding(crate::specs::StmtReading::loop_parts))]
    fn loop_parts(
        &self,
        tokens: &mut Cursor<'_>,
        inside: bool,
        count: usize,
        loops: u32,
    ) -> Result<LoopParts, Failure>
        requires inner { ReadsInner self.now.limits self.now.blocks (F.pre self.now.inner) (F.post self.now.inner) }
        requires shallow { self.now.limits.depth < 2 ^ 32 }
        requires room { 0 < self.now.blocks }
        requires few { loops ≤ count }
        requires fits { count + 1 < 2 ^ 32 }
        ensures reads { Reads (spec.loop_parts (limits_of self.now.limits) (nat_lt 0 self.now.blocks) (spec.nested (limits_of self.now.limits) self.now.blocks) self.now.inside inside count loops tokens.old) result tokens.new }
        ensures few { IfOk result (λ x. x.body.loops ≤ x.body.count) }
    {
        let head = loop_line(self.alloc, tokens, self.limits)?;
        let body = self.inner_block(tokens, inside, count + 1, loops + 1)?;
        let _end = end_do(tokens)?;
        Ok(LoopParts { head, body })
    }

    #[tactic(auto, unfolding(crate::specs::StmtReading::do_stmt))]
    fn do_stmt(&self, tokens: &mut Cursor<'_>, found: Block) -> Result<Block, Failure>
        requires inner { ReadsInner self.now.limits self.now.blocks (F.pre self.now.inner) (F.post self.now.inner) }
        requires shallow { self.now.limits.depth < 2 ^ 32 }
        requires room { 0 < self.now.blocks }
        requires few { found.loops ≤ found.count }
        requires fits { found.count + 1 < 2 ^ 32 }
        ensures reads { Reads (spec.do_stmt (limits_of self.now.limits) (nat_lt 0 self.now.blocks) (spec.nested (limits_of self.now.limits) self.now.blocks) self.now.inside found tokens.old) result tokens.new }
        ensures few { IfOk result (λ x. x.loops ≤ x.count) }
    {
        let parts = self.loop_parts(tokens, self.inside, found.count, found.loops)?;
        Ok(looped(found, None, parts)?)
    }

    #[tactic(auto, unfolding(crate::specs::StmtReading::parallel))]
    fn parallel(&self, tokens: &mut Cursor<'_>, found: Block, line: u32) -> Result<Block, Failure>
        requires inner { ReadsInner self.now.limits self.now.blocks (F.pre self.now.inner) (F.post self.now.inner) }
        requires shallow { self.now.limits.depth < 2 ^ 32 }
        requires room { 0 < self.now.blocks }
        requires few { found.loops ≤ found.count }
        requires fits { found.count + 1 < 2 ^ 32 }
        ensures reads { Reads (spec.parallel (limits_of self.now.limits) (nat_lt 0 self.now.blocks) (spec.nested (limits_of self.now.limits) self.now.blocks) self.now.inside found line tokens.old) result tokens.new }
        ensures few { IfOk result (λ x. x.loops ≤ x.count) }
    {
        let directive = Held::of(omp_clauses::parallel_do(self.alloc, tokens, line)?);
        let parts = self.loop_parts(tokens, true, found.count, found.loops)?;
        Ok(looped(found, Some(directive.into_inner()), parts)?)
    }

    #[tactic(auto, unfolding(crate::specs::StmtReading::atomic))]
    fn atomic(&self, tokens: &mut Cursor<'_>, found: Block) -> Result<Block, Failure>
        requires shallow { self.now.limits.depth < 2 ^ 32 }
        requires few { found.loops ≤ found.count }
        requires fits { found.count + 1 < 2 ^ 32 }
        ensures reads { Reads (spec.atomic (limits_of self.now.limits) (nat_lt 0 self.now.blocks) (spec.nested (limits_of self.now.limits) self.now.blocks) self.now.inside found tokens.old) result tokens.new }
        ensures few { IfOk result (λ x. x.loops ≤ x.count) }
    {
        let _eol = omp_clauses::atomic(tokens)?;
        assign(self.alloc, tokens, self.limits, true, found)
    }

    #[tactic(auto, unfolding(crate::specs::StmtReading::end_loop))]
    fn end_loop(&self, tokens: &mut Cursor<'_>, found: Block) -> Result<Block, Failure>
        requires few { found.loops ≤ found.count }
        ensures reads { Reads (spec.end_loop (limits_of self.now.limits) (nat_lt 0 self.now.blocks) (spec.nested (limits_of self.now.limits) self.now.blocks) self.now.inside found tokens.old) result tokens.new }
        ensures few { IfOk result (λ x. x.loops ≤ x.count) }
    {
        let _end = tokens.mark(Symbol::End)?;
        let _eol = omp_clauses::end_parallel_do(tokens)?;
        Ok(ended(found))
    }

    #[tactic(auto, unfolding(crate::specs::StmtReading::end_atomic))]
    fn end_atomic(&self, tokens: &mut Cursor<'_>, found: Block) -> Result<Block, Failure>
        requires few { found.loops ≤ found.count }
        ensures reads { Reads (spec.end_atomic (limits_of self.now.limits) (nat_lt 0 self.now.blocks) (spec.nested (limits_of self.now.limits) self.now.blocks) self.now.inside found tokens.old) result tokens.new }
        ensures few { IfOk result (λ x. x.loops ≤ x.count) }
    {
        let _end = tokens.mark(Symbol::End)?;
        let _eol = omp_clauses::end_atomic(tokens)?;
        Ok(ended(found))
    }

    /// An atomic statement, where one more fits.
    fn atomic_within(&self, tokens: &mut Cursor<'_>, found: Block) -> Result<Block, Failure>
        requires shallow { self.now.limits.depth < 2 ^ 32 }
        requires few { found.loops ≤ found.count }
        requires fits { self.now.limits.statements < 2 ^ 32 }
        ensures reads { Reads (reading.within (spec.has_room (limits_of self.now.limits) found) Cause.Many (spec.atomic (limits_of self.now.limits) (nat_lt 0 self.now.blocks) (spec.nested (limits_of self.now.limits) self.now.blocks) self.now.inside found) tokens.old) result tokens.new }
        ensures few { IfOk result (λ x. x.loops ≤ x.count) }
    {
        if !fits(self.limits, found.count) {
            return Err(tokens.refuse(Cause::Many));
        }
        self.atomic(tokens, found)
    }

    /// An atomic statement or an end directive, behind a sentinel.
    fn lesser(&self, tokens: &mut Cursor<'_>, found: Block) -> Result<Block, Failure>
        requires shallow { self.now.limits.depth < 2 ^ 32 }
        requires few { found.loops ≤ found.count }
        requires fits { self.now.limits.statements < 2 ^ 32 }
        requires may { IsTrue (spec.may_direct (limits_of self.now.limits) found) }
        ensures reads { Reads (spec.lesser (limits_of self.now.limits) (nat_lt 0 self.now.blocks) (spec.nested (limits_of self.now.limits) self.now.blocks) self.now.inside found.awaited found tokens.old) result tokens.new }
        ensures few { IfOk result (λ x. x.loops ≤ x.count) }
    {
        match found.awaited {
            Awaited::Nothing => self.atomic(tokens, found),
            Awaited::LoopEnd => {
                if tokens.sees(Symbol::Atomic) {
                    return self.atomic_within(tokens, found);
                }
                self.end_loop(tokens, found)
            }
            Awaited::AtomicEnd => {
                if tokens.sees(Symbol::Atomic) {
                    return self.atomic_within(tokens, found);
                }
                self.end_atomic(tokens, found)
            }
        }
    }

    /// A parallel loop, where the limits have room and no other is around.
    fn parallel_within(
        &self,
        tokens: &mut Cursor<'_>,
        found: Block,
        line: u32,
    ) -> Result<Block, Failure>
        requires inner { ReadsInner self.now.limits self.now.blocks (F.pre self.now.inner) (F.post self.now.inner) }
        requires shallow { self.now.limits.depth < 2 ^ 32 }
        requires few { found.loops ≤ found.count }
        requires fits { self.now.limits.statements < 2 ^ 32 }
        ensures reads { Reads (reading.within (not self.now.inside) Cause.Construct (reading.within (nat_lt 0 self.now.blocks) Cause.Deep (reading.within (spec.has_room (limits_of self.now.limits) found) Cause.Many (spec.parallel (limits_of self.now.limits) (nat_lt 0 self.now.blocks) (spec.nested (limits_of self.now.limits) self.now.blocks) self.now.inside found line))) tokens.old) result tokens.new }
        ensures few { IfOk result (λ x. x.loops ≤ x.count) }
    {
        if self.inside {
            return Err(tokens.refuse(Cause::Construct));
        }
        if self.blocks == 0 {
            return Err(tokens.refuse(Cause::Deep));
        }
        if !fits(self.limits, found.count) {
            return Err(tokens.refuse(Cause::Many));
        }
        self.parallel(tokens, found, line)
    }

    #[tactic(auto, unfolding(crate::specs::StmtReading::directive, crate::specs::StmtReading::after_sentinel))]
    fn directive(&self, tokens: &mut Cursor<'_>, found: Block) -> Result<Block, Failure>
        requires inner { ReadsInner self.now.limits self.now.blocks (F.pre self.now.inner) (F.post self.now.inner) }
        requires shallow { self.now.limits.depth < 2 ^ 32 }
        requires few { found.loops ≤ found.count }
        requires fits { self.now.limits.statements < 2 ^ 32 }
        requires may { IsTrue (spec.may_direct (limits_of self.now.limits) found) }
        ensures reads { Reads (spec.directive (limits_of self.now.limits) (nat_lt 0 self.now.blocks) (spec.nested (limits_of self.now.limits) self.now.blocks) self.now.inside found tokens.old) result tokens.new }
        ensures few { IfOk result (λ x. x.loops ≤ x.count) }
    {
        let line = tokens.mark(Symbol::Sentinel)?;
        if tokens.sees(Symbol::Parallel) {
            return self.parallel_within(tokens, found, line);
        }
        self.lesser(tokens, found)
    }

    fn assign_within(&self, tokens: &mut Cursor<'_>, found: Block) -> Result<Block, Failure>
        requires shallow { self.now.limits.depth < 2 ^ 32 }
        requires few { found.loops ≤ found.count }
        requires fits { self.now.limits.statements < 2 ^ 32 }
        ensures reads { Reads (reading.within (spec.has_room (limits_of self.now.limits) found) Cause.Many (spec.assign (limits_of self.now.limits) false found) tokens.old) result tokens.new }
        ensures few { IfOk result (λ x. x.loops ≤ x.count) }
    {
        if !fits(self.limits, found.count) {
            return Err(tokens.refuse(Cause::Many));
        }
        assign(self.alloc, tokens, self.limits, false, found)
    }

    fn do_within(&self, tokens: &mut Cursor<'_>, found: Block) -> Result<Block, Failure>
        requires inner { ReadsInner self.now.limits self.now.blocks (F.pre self.now.inner) (F.post self.now.inner) }
        requires shallow { self.now.limits.depth < 2 ^ 32 }
        requires few { found.loops ≤ found.count }
        requires fits { self.now.limits.statements < 2 ^ 32 }
        ensures reads { Reads (reading.within (nat_lt 0 self.now.blocks) Cause.Deep (reading.within (spec.has_room (limits_of self.now.limits) found) Cause.Many (spec.do_stmt (limits_of self.now.limits) (nat_lt 0 self.now.blocks) (spec.nested (limits_of self.now.limits) self.now.blocks) self.now.inside found)) tokens.old) result tokens.new }
        ensures few { IfOk result (λ x. x.loops ≤ x.count) }
    {
        if self.blocks == 0 {
            return Err(tokens.refuse(Cause::Deep));
        }
        if !fits(self.limits, found.count) {
            return Err(tokens.refuse(Cause::Many));
        }
        self.do_stmt(tokens, found)
    }

    fn if_within(&self, tokens: &mut Cursor<'_>, found: Block) -> Result<Block, Failure>
        requires inner { ReadsInner self.now.limits self.now.blocks (F.pre self.now.inner) (F.post self.now.inner) }
        requires shallow { self.now.limits.depth < 2 ^ 32 }
        requires few { found.loops ≤ found.count }
        requires fits { self.now.limits.statements < 2 ^ 32 }
        ensures reads { Reads (reading.within (nat_lt 0 self.now.blocks) Cause.Deep (reading.within (spec.has_room (limits_of self.now.limits) found) Cause.Many (spec.if_stmt (limits_of self.now.limits) (nat_lt 0 self.now.blocks) (spec.nested (limits_of self.now.limits) self.now.blocks) self.now.inside found)) tokens.old) result tokens.new }
        ensures few { IfOk result (λ x. x.loops ≤ x.count) }
    {
        if self.blocks == 0 {
            return Err(tokens.refuse(Cause::Deep));
        }
        if !fits(self.limits, found.count) {
            return Err(tokens.refuse(Cause::Many));
        }
        self.if_stmt(tokens, found)
    }

    fn may_direct(&self, found: &Block) -> bool
        ensures { result ≡ spec.may_direct (limits_of self.now.limits) found.now }
    {
        fits(self.limits, found.count) || is_awaited(found.awaited)
    }

    #[tactic(auto, unfolding(crate::specs::StmtReading::stmt))]
    fn stmt(&self, tokens: &mut Cursor<'_>, found: Block) -> Result<Block, Failure>
        requires inner { ReadsInner self.now.limits self.now.blocks (F.pre self.now.inner) (F.post self.now.inner) }
        requires shallow { self.now.limits.depth < 2 ^ 32 }
        requires few { found.loops ≤ found.count }
        requires fits { self.now.limits.statements < 2 ^ 32 }
        ensures reads { Reads (spec.stmt (limits_of self.now.limits) (nat_lt 0 self.now.blocks) (spec.nested (limits_of self.now.limits) self.now.blocks) self.now.inside found tokens.old) result tokens.new }
        ensures few { IfOk result (λ x. x.loops ≤ x.count) }
    {
        if tokens.sees_name() {
            return self.assign_within(tokens, found);
        }
        if tokens.sees(Symbol::Do) {
            return self.do_within(tokens, found);
        }
        if tokens.sees(Symbol::If) {
            return self.if_within(tokens, found);
        }
        if !self.may_direct(&found) {
            return Err(tokens.refuse(Cause::Many));
        }
        self.directive(tokens, found)
    }

    fn block(&self, tokens: &mut Cursor<'_>, mut found: Block) -> Result<Block, Failure>
        requires inner { ReadsInner self.now.limits self.now.blocks (F.pre self.now.inner) (F.post self.now.inner) }
        requires shallow { self.now.limits.depth < 2 ^ 32 }
        requires few { found.loops ≤ found.count }
        requires fits { self.now.limits.statements < 2 ^ 32 }
        ensures reads { Reads (spec.block (limits_of self.now.limits) (nat_lt 0 self.now.blocks) (spec.nested (limits_of self.now.limits) self.now.blocks) self.now.inside found tokens.old) result tokens.new }
        ensures few { IfOk result (λ x. x.loops ≤ x.count) }
    {
        for _turn in 0..tokens.len() {
            if !begins_stmt(tokens) {
                return Ok(found);
            }
            found = self.stmt(tokens, found)?;
        }
        Ok(found)
    }
}

/// The statements of a block, in which so many blocks may stand in each other.
pub fn stmts(
    alloc: Global,
    tokens: &mut Cursor<'_>,
    limits: Limits,
    blocks: usize,
    inside: bool,
    found: Block,
) -> Result<Block, Failure>
    requires shallow { limits.depth < 2 ^ 32 }
    requires fits { limits.statements < 2 ^ 32 }
    requires few { found.loops ≤ found.count }
    ensures reads { Reads (spec.stmts (limits_of limits) blocks inside found tokens.old) result tokens.new }
    ensures few { IfOk result (λ x. x.loops ≤ x.count) }
{
    Rules {
        alloc,
        limits,
        blocks,
        inside,
        inner: stmts,
    }
    .block(tokens, found)
}
