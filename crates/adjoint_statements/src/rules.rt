//! Loops, directives and lists of statements. The rules take the reader of the blocks in a block as a parameter, so that
//! each is proved by itself.

ghost use Rattle.std.specs.Prelude.{◌≡◌, ◌<◌, ◌^◌, nat_lt, not};
ghost use Rattle.parsing.specs.Code.{Reads};
ghost use Rattle.parsing.specs.Reading as reading;
ghost use Rattle.parsing.specs.Terminal.{on};
ghost use Rattle.adjoint_statements.specs.Rooms.{limits_of};
ghost use Rattle.adjoint_statements.specs.AdjointStmtReading as spec;
ghost use Rattle.adjoint_statements.specs.Trees.{block_from as from};
ghost use Rattle.adjoint_statements.specs.Inner.{ReadsInner};

use crate::assign::assign;
use crate::block::{Block, LoopParts, block_from, ended, looped, next_loop};
use crate::line::loop_line;
use crate::room::Room;
use crate::tape::call;
use fl_base::Held;
use fl_statements::{Awaited, end_do};
use parsing::{Cause, Cursor, Failure, Symbol};
use std::alloc::Global;

/// How a block is read, in a parallel loop or not.
#[derive(Clone, Copy)]
pub struct Rules<F> {
    pub alloc: Global,
    pub room: Room,
    /// How many blocks may still stand in each other.
    pub blocks: usize,
    pub inside: bool,
    pub inner: F,
}

fn begins_stmt(tokens: &Cursor<'_>) -> bool
    ensures { result ≡ reading.sees (on spec.begins_stmt) tokens.now }
{
    match tokens.ahead() {
        Some(symbol) => symbol.names()
            || matches!(
                symbol,
                Symbol::Do | Symbol::If | Symbol::Call | Symbol::Sentinel
            ),
        None => false,
    }
}

impl<F: Fn(Global, &mut Cursor<'_>, Room, usize, bool, Block) -> Result<Block, Failure>> Rules<F> {
    /// The statements of a block in this one.
    pub fn inner_block(
        &self,
        tokens: &mut Cursor<'_>,
        inside: bool,
        loops: u32,
    ) -> Result<Block, Failure>
        requires inner { ReadsInner self.now.room self.now.blocks (F.pre self.now.inner) (F.post self.now.inner) }
        requires some { 0 < self.now.blocks }
        ensures { Reads (spec.nested (limits_of self.now.room) self.now.blocks inside (from loops) tokens.old) result tokens.new }
    {
        let start = block_from(self.alloc, loops);
        (self.inner)(
            self.alloc,
            tokens,
            self.room,
            self.blocks - 1,
            inside,
            start,
        )
    }

    #[tactic(auto, unfolding(crate::specs::AdjointStmtReading::loop_parts))]
    fn loop_parts(
        &self,
        tokens: &mut Cursor<'_>,
        inside: bool,
        loops: u32,
    ) -> Result<LoopParts, Failure>
        requires inner { ReadsInner self.now.room self.now.blocks (F.pre self.now.inner) (F.post self.now.inner) }
        requires shallow { self.now.room.depth < 2 ^ 32 }
        requires some { 0 < self.now.blocks }
        ensures { Reads (spec.loop_parts (limits_of self.now.room) (nat_lt 0 self.now.blocks) (spec.nested (limits_of self.now.room) self.now.blocks) self.now.inside inside loops tokens.old) result tokens.new }
    {
        let head = loop_line(self.alloc, tokens, self.room)?;
        let body = self.inner_block(tokens, inside, next_loop(loops))?;
        let _end = end_do(tokens)?;
        Ok(LoopParts { head, body })
    }

    #[tactic(auto, unfolding(crate::specs::AdjointStmtReading::do_stmt))]
    fn do_stmt(&self, tokens: &mut Cursor<'_>, found: Block) -> Result<Block, Failure>
        requires inner { ReadsInner self.now.room self.now.blocks (F.pre self.now.inner) (F.post self.now.inner) }
        requires shallow { self.now.room.depth < 2 ^ 32 }
        requires some { 0 < self.now.blocks }
        ensures { Reads (spec.do_stmt (limits_of self.now.room) (nat_lt 0 self.now.blocks) (spec.nested (limits_of self.now.room) self.now.blocks) self.now.inside found tokens.old) result tokens.new }
    {
        let parts = self.loop_parts(tokens, self.inside, found.loops)?;
        Ok(looped(found, None, parts)?)
    }

    #[tactic(auto, unfolding(crate::specs::AdjointStmtReading::parallel))]
    fn parallel(&self, tokens: &mut Cursor<'_>, found: Block, line: u32) -> Result<Block, Failure>
        requires inner { ReadsInner self.now.room self.now.blocks (F.pre self.now.inner) (F.post self.now.inner) }
        requires shallow { self.now.room.depth < 2 ^ 32 }
        requires some { 0 < self.now.blocks }
        ensures { Reads (spec.parallel (limits_of self.now.room) (nat_lt 0 self.now.blocks) (spec.nested (limits_of self.now.room) self.now.blocks) self.now.inside found line tokens.old) result tokens.new }
    {
        let directive = Held::of(omp_clauses::parallel_do(self.alloc, tokens, line)?);
        let parts = self.loop_parts(tokens, true, found.loops)?;
        Ok(looped(found, Some(directive.into_inner()), parts)?)
    }

    #[tactic(auto, unfolding(crate::specs::AdjointStmtReading::atomic))]
    fn atomic(&self, tokens: &mut Cursor<'_>, found: Block) -> Result<Block, Failure>
        requires shallow { self.now.room.depth < 2 ^ 32 }
        ensures { Reads (spec.atomic (limits_of self.now.room) (nat_lt 0 self.now.blocks) (spec.nested (limits_of self.now.room) self.now.blocks) self.now.inside found tokens.old) result tokens.new }
    {
        let _eol = omp_clauses::atomic(tokens)?;
        assign(self.alloc, tokens, self.room, true, found)
    }

    #[tactic(auto, unfolding(crate::specs::AdjointStmtReading::end_loop))]
    fn end_loop(&self, tokens: &mut Cursor<'_>, found: Block) -> Result<Block, Failure>
        ensures { Reads (spec.end_loop (limits_of self.now.room) (nat_lt 0 self.now.blocks) (spec.nested (limits_of self.now.room) self.now.blocks) self.now.inside found tokens.old) result tokens.new }
    {
        let _end = tokens.mark(Symbol::End)?;
        let _eol = omp_clauses::end_parallel_do(tokens)?;
        Ok(ended(found))
    }

    #[tactic(auto, unfolding(crate::specs::AdjointStmtReading::end_atomic))]
    fn end_atomic(&self, tokens: &mut Cursor<'_>, found: Block) -> Result<Block, Failure>
        ensures { Reads (spec.end_atomic (limits_of self.now.room) (nat_lt 0 self.now.blocks) (spec.nested (limits_of self.now.room) self.now.blocks) self.now.inside found tokens.old) result tokens.new }
    {
        let _end = tokens.mark(Symbol::End)?;
        let _eol = omp_clauses::end_atomic(tokens)?;
        Ok(ended(found))
    }

    /// An atomic statement or an end directive, behind a sentinel.
    fn lesser(&self, tokens: &mut Cursor<'_>, found: Block) -> Result<Block, Failure>
        requires shallow { self.now.room.depth < 2 ^ 32 }
        ensures { Reads (spec.lesser (limits_of self.now.room) (nat_lt 0 self.now.blocks) (spec.nested (limits_of self.now.room) self.now.blocks) self.now.inside found.awaited found tokens.old) result tokens.new }
    {
        match found.awaited {
            Awaited::Nothing => self.atomic(tokens, found),
            Awaited::LoopEnd => {
                if tokens.sees(Symbol::Atomic) {
                    return self.atomic(tokens, found);
                }
                self.end_loop(tokens, found)
            }
            Awaited::AtomicEnd => {
                if tokens.sees(Symbol::Atomic) {
                    return self.atomic(tokens, found);
                }
                self.end_atomic(tokens, found)
            }
        }
    }

    /// A parallel loop, where the limits have room and no other is around.
    fn parallel_within(
        &self,
        tokens: &mut Cursor<'_>,
        found: Block,
        line: u32,
    ) -> Result<Block, Failure>
        requires inner { ReadsInner self.now.room self.now.blocks (F.pre self.now.inner) (F.post self.now.inner) }
        requires shallow { self.now.room.depth < 2 ^ 32 }
        ensures { Reads (reading.within (not self.now.inside) Cause.Construct (reading.within (nat_lt 0 self.now.blocks) Cause.Deep (spec.parallel (limits_of self.now.room) (nat_lt 0 self.now.blocks) (spec.nested (limits_of self.now.room) self.now.blocks) self.now.inside found line)) tokens.old) result tokens.new }
    {
        if self.inside {
            return Err(tokens.refuse(Cause::Construct));
        }
        if self.blocks == 0 {
            return Err(tokens.refuse(Cause::Deep));
        }
        self.parallel(tokens, found, line)
    }

    #[tactic(auto, unfolding(crate::specs::AdjointStmtReading::directive, crate::specs::AdjointStmtReading::after_sentinel))]
    fn directive(&self, tokens: &mut Cursor<'_>, found: Block) -> Result<Block, Failure>
        requires inner { ReadsInner self.now.room self.now.blocks (F.pre self.now.inner) (F.post self.now.inner) }
        requires shallow { self.now.room.depth < 2 ^ 32 }
        ensures { Reads (spec.directive (limits_of self.now.room) (nat_lt 0 self.now.blocks) (spec.nested (limits_of self.now.room) self.now.blocks) self.now.inside found tokens.old) result tokens.new }
    {
        let line = tokens.mark(Symbol::Sentinel)?;
        if tokens.sees(Symbol::Parallel) {
            return self.parallel_within(tokens, found, line);
        }
        self.lesser(tokens, found)
    }

    fn do_within(&self, tokens: &mut Cursor<'_>, found: Block) -> Result<Block, Failure>
        requires inner { ReadsInner self.now.room self.now.blocks (F.pre self.now.inner) (F.post self.now.inner) }
        requires shallow { self.now.room.depth < 2 ^ 32 }
        ensures { Reads (reading.within (nat_lt 0 self.now.blocks) Cause.Deep (spec.do_stmt (limits_of self.now.room) (nat_lt 0 self.now.blocks) (spec.nested (limits_of self.now.room) self.now.blocks) self.now.inside found) tokens.old) result tokens.new }
    {
        if self.blocks == 0 {
            return Err(tokens.refuse(Cause::Deep));
        }
        self.do_stmt(tokens, found)
    }

    fn if_within(&self, tokens: &mut Cursor<'_>, found: Block) -> Result<Block, Failure>
        requires inner { ReadsInner self.now.room self.now.blocks (F.pre self.now.inner) (F.post self.now.inner) }
        requires shallow { self.now.room.depth < 2 ^ 32 }
        ensures { Reads (reading.within (nat_lt 0 self.now.blocks) Cause.Deep (spec.if_stmt (limits_of self.now.room) (nat_lt 0 self.now.blocks) (spec.nested (limits_of self.now.room) self.now.blocks) self.now.inside found) tokens.old) result tokens.new }
    {
        if self.blocks == 0 {
            return Err(tokens.refuse(Cause::Deep));
        }
        self.if_stmt(tokens, found)
    }

    #[tactic(auto, unfolding(crate::specs::AdjointStmtReading::stmt))]
    fn stmt(&self, tokens: &mut Cursor<'_>, found: Block) -> Result<Block, Failure>
        requires inner { ReadsInner self.now.room self.now.blocks (F.pre self.now.inner) (F.post self.now.inner) }
        requires shallow { self.now.room.depth < 2 ^ 32 }
        ensures { Reads (spec.stmt (limits_of self.now.room) (nat_lt 0 self.now.blocks) (spec.nested (limits_of self.now.room) self.now.blocks) self.now.inside found tokens.old) result tokens.new }
    {
        if tokens.sees_name() {
            return assign(self.alloc, tokens, self.room, false, found);
        }
        if tokens.sees(Symbol::Do) {
            return self.do_within(tokens, found);
        }
        if tokens.sees(Symbol::If) {
            return self.if_within(tokens, found);
        }
        if tokens.sees(Symbol::Call) {
            return call(self.alloc, tokens, self.room, found);
        }
        self.directive(tokens, found)
    }

    fn block(&self, tokens: &mut Cursor<'_>, mut found: Block) -> Result<Block, Failure>
        requires inner { ReadsInner self.now.room self.now.blocks (F.pre self.now.inner) (F.post self.now.inner) }
        requires shallow { self.now.room.depth < 2 ^ 32 }
        ensures { Reads (spec.block (limits_of self.now.room) (nat_lt 0 self.now.blocks) (spec.nested (limits_of self.now.room) self.now.blocks) self.now.inside found tokens.old) result tokens.new }
    {
        for _turn in 0..tokens.len() {
            if !begins_stmt(tokens) {
                return Ok(found);
            }
            found = self.stmt(tokens, found)?;
        }
        Ok(found)
    }
}

/// The statements of a block, in which so many blocks may stand in each other.
pub fn stmts(
    alloc: Global,
    tokens: &mut Cursor<'_>,
    room: Room,
    blocks: usize,
    inside: bool,
    found: Block,
) -> Result<Block, Failure>
    requires shallow { room.depth < 2 ^ 32 }
    ensures { Reads (spec.stmts (limits_of room) blocks inside found tokens.old) result tokens.new }
{
    Rules {
        alloc,
        room,
        blocks,
        inside,
        inner: stmts,
    }
    .block(tokens, found)
}
