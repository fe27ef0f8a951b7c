//! Ifs.

ghost use Rattle.std.specs.Prelude.{◌≡◌, ◌<◌, ◌^◌, nat_lt, IfOk};
ghost use Rattle.parsing.specs.Code.{Reads};
ghost use Rattle.adjoint_statements.specs.Rooms.{limits_of};
ghost use Rattle.adjoint_statements.specs.AdjointStmtReading as spec;
ghost use Rattle.adjoint_statements.specs.Trees as trees;
ghost use Rattle.adjoint_statements.specs.Inner.{ReadsInner};

use crate::assign::assign_to;
use crate::block::{Block, block_from};
use crate::branch::{Branch, branched, first_branch, with_arm, with_other};
use crate::line::guard;
use crate::room::Room;
use crate::rules::Rules;
use fl_base::Memory;
use fl_conditions::Judged;
use fl_statements::{begins_part, begins_rest, end_if, plain_name, sees_plain_name, then_word};
use parsing::{Cause, Cursor, Failure, Symbol, Word};
use std::alloc::Global;

fn guarded(
    alloc: Global,
    found: Block,
    line: u32,
    test: Judged,
    body: Block,
) -> Result<Block, Memory>
    ensures { IfOk result (λ x. x ≡ trees.branched found (trees.first_branch line test.cond body)) }
{
    let branch = first_branch(alloc, line, test.cond, body)?;
    branched(found, branch)
}

/// An assignment to this name under a one-line `if`.
#[tactic(auto, unfolding(crate::specs::AdjointStmtReading::conditional))]
fn conditional(
    alloc: Global,
    tokens: &mut Cursor<'_>,
    room: Room,
    found: Block,
    line: u32,
    test: Judged,
    word: Word,
) -> Result<Block, Failure>
    requires shallow { room.depth < 2 ^ 32 }
    ensures { Reads (spec.conditional (limits_of room) found line test word tokens.old) result tokens.new }
{
    let start = block_from(alloc, found.loops);
    let body = assign_to(alloc, tokens, room, false, start, word)?;
    Ok(guarded(alloc, found, line, test, body)?)
}

#[tactic(auto, unfolding(crate::specs::AdjointStmtReading::one_line))]
fn one_line(
    alloc: Global,
    tokens: &mut Cursor<'_>,
    room: Room,
    found: Block,
    line: u32,
    test: Judged,
) -> Result<Block, Failure>
    requires shallow { room.depth < 2 ^ 32 }
    ensures { Reads (spec.one_line (limits_of room) found line test tokens.old) result tokens.new }
{
    let word = plain_name(alloc, tokens)?;
    conditional(alloc, tokens, room, found, line, test, word)
}

impl<F: Fn(Global, &mut Cursor<'_>, Room, usize, bool, Block) -> Result<Block, Failure>> Rules<F> {
    #[tactic(auto, unfolding(crate::specs::AdjointStmtReading::first_arm))]
    fn first_arm(
        &self,
        tokens: &mut Cursor<'_>,
        loops: u32,
        line: u32,
        test: Judged,
    ) -> Result<Branch, Failure>
        requires inner { ReadsInner self.now.room self.now.blocks (F.pre self.now.inner) (F.post self.now.inner) }
        requires shallow { self.now.room.depth < 2 ^ 32 }
        requires some { 0 < self.now.blocks }
        ensures { Reads (spec.first_arm (limits_of self.now.room) (nat_lt 0 self.now.blocks) (spec.nested (limits_of self.now.room) self.now.blocks) self.now.inside loops line test tokens.old) result tokens.new }
    {
        let _eol = tokens.mark(Symbol::LineEnd)?;
        let body = self.inner_block(tokens, self.inside, loops)?;
        Ok(first_branch(self.alloc, line, test.cond, body)?)
    }

    #[tactic(auto, unfolding(crate::specs::AdjointStmtReading::another_arm))]
    fn another_arm(&self, tokens: &mut Cursor<'_>, found: Branch) -> Result<Branch, Failure>
        requires inner { ReadsInner self.now.room self.now.blocks (F.pre self.now.inner) (F.post self.now.inner) }
        requires shallow { self.now.room.depth < 2 ^ 32 }
        requires some { 0 < self.now.blocks }
        ensures { Reads (spec.another_arm (limits_of self.now.room) (nat_lt 0 self.now.blocks) (spec.nested (limits_of self.now.room) self.now.blocks) self.now.inside found tokens.old) result tokens.new }
    {
        let test = guard(self.alloc, tokens, self.room)?;
        let _then = tokens.mark(Symbol::Then)?;
        let _eol = tokens.mark(Symbol::LineEnd)?;
        let body = self.inner_block(tokens, self.inside, found.loops)?;
        Ok(with_arm(found, test.cond, body)?)
    }

    #[tactic(auto, unfolding(crate::specs::AdjointStmtReading::last_part))]
    fn last_part(&self, tokens: &mut Cursor<'_>, found: Branch) -> Result<Branch, Failure>
        requires inner { ReadsInner self.now.room self.now.blocks (F.pre self.now.inner) (F.post self.now.inner) }
        requires shallow { self.now.room.depth < 2 ^ 32 }
        requires some { 0 < self.now.blocks }
        ensures { Reads (spec.last_part (limits_of self.now.room) (nat_lt 0 self.now.blocks) (spec.nested (limits_of self.now.room) self.now.blocks) self.now.inside found tokens.old) result tokens.new }
    {
        let _eol = tokens.mark(Symbol::LineEnd)?;
        let body = self.inner_block(tokens, self.inside, found.loops)?;
        Ok(with_other(found, body))
    }

    #[tactic(auto, unfolding(crate::specs::AdjointStmtReading::after_else))]
    fn after_else(&self, tokens: &mut Cursor<'_>, found: Branch) -> Result<Branch, Failure>
        requires inner { ReadsInner self.now.room self.now.blocks (F.pre self.now.inner) (F.post self.now.inner) }
        requires shallow { self.now.room.depth < 2 ^ 32 }
        requires some { 0 < self.now.blocks }
        ensures { Reads (spec.after_else (limits_of self.now.room) (nat_lt 0 self.now.blocks) (spec.nested (limits_of self.now.room) self.now.blocks) self.now.inside found tokens.old) result tokens.new }
    {
        if tokens.sees(Symbol::If) {
            let _if = tokens.mark(Symbol::If)?;
            return self.another_arm(tokens, found);
        }
        self.last_part(tokens, found)
    }

    #[tactic(auto, unfolding(crate::specs::AdjointStmtReading::part))]
    fn part(&self, tokens: &mut Cursor<'_>, found: Branch) -> Result<Branch, Failure>
        requires inner { ReadsInner self.now.room self.now.blocks (F.pre self.now.inner) (F.post self.now.inner) }
        requires shallow { self.now.room.depth < 2 ^ 32 }
        requires some { 0 < self.now.blocks }
        ensures { Reads (spec.part (limits_of self.now.room) (nat_lt 0 self.now.blocks) (spec.nested (limits_of self.now.room) self.now.blocks) self.now.inside found tokens.old) result tokens.new }
    {
        if tokens.sees(Symbol::ElseIf) {
            let _elseif = tokens.mark(Symbol::ElseIf)?;
            return self.another_arm(tokens, found);
        }
        let _else = tokens.mark(Symbol::Else)?;
        self.after_else(tokens, found)
    }

    fn parts(&self, tokens: &mut Cursor<'_>, mut found: Branch) -> Result<Branch, Failure>
        requires inner { ReadsInner self.now.room self.now.blocks (F.pre self.now.inner) (F.post self.now.inner) }
        requires shallow { self.now.room.depth < 2 ^ 32 }
        requires some { 0 < self.now.blocks }
        ensures { Reads (spec.parts (limits_of self.now.room) (nat_lt 0 self.now.blocks) (spec.nested (limits_of self.now.room) self.now.blocks) self.now.inside found tokens.old) result tokens.new }
    {
        for _turn in 0..tokens.len() {
            if !begins_part(tokens) {
                return Ok(found);
            }
            if found.closed {
                return Err(tokens.refuse(Cause::Expected));
            }
            found = self.part(tokens, found)?;
        }
        Ok(found)
    }

    #[tactic(auto, unfolding(crate::specs::AdjointStmtReading::block_if))]
    fn block_if(
        &self,
        tokens: &mut Cursor<'_>,
        found: Block,
        line: u32,
        test: Judged,
    ) -> Result<Block, Failure>
        requires inner { ReadsInner self.now.room self.now.blocks (F.pre self.now.inner) (F.post self.now.inner) }
        requires shallow { self.now.room.depth < 2 ^ 32 }
        requires some { 0 < self.now.blocks }
        ensures { Reads (spec.block_if (limits_of self.now.room) (nat_lt 0 self.now.blocks) (spec.nested (limits_of self.now.room) self.now.blocks) self.now.inside found line test tokens.old) result tokens.new }
    {
        let first = self.first_arm(tokens, found.loops, line, test)?;
        let branch = self.parts(tokens, first)?;
        let _end = end_if(tokens)?;
        Ok(branched(found, branch)?)
    }

    /// Behind a `then`, which is a name or begins a block.
    #[tactic(auto, unfolding(crate::specs::AdjointStmtReading::after_then))]
    fn after_then(
        &self,
        tokens: &mut Cursor<'_>,
        found: Block,
        line: u32,
        test: Judged,
        word: Word,
    ) -> Result<Block, Failure>
        requires inner { ReadsInner self.now.room self.now.blocks (F.pre self.now.inner) (F.post self.now.inner) }
        requires shallow { self.now.room.depth < 2 ^ 32 }
        requires some { 0 < self.now.blocks }
        ensures { Reads (spec.after_then (limits_of self.now.room) (nat_lt 0 self.now.blocks) (spec.nested (limits_of self.now.room) self.now.blocks) self.now.inside found line test word tokens.old) result tokens.new }
    {
        if begins_rest(tokens) {
            return conditional(self.alloc, tokens, self.room, found, line, test, word);
        }
        self.block_if(tokens, found, line, test)
    }

    #[tactic(auto, unfolding(crate::specs::AdjointStmtReading::then_part))]
    fn then_part(
        &self,
        tokens: &mut Cursor<'_>,
        found: Block,
        line: u32,
        test: Judged,
    ) -> Result<Block, Failure>
        requires inner { ReadsInner self.now.room self.now.blocks (F.pre self.now.inner) (F.post self.now.inner) }
        requires shallow { self.now.room.depth < 2 ^ 32 }
        requires some { 0 < self.now.blocks }
        ensures { Reads (spec.then_part (limits_of self.now.room) (nat_lt 0 self.now.blocks) (spec.nested (limits_of self.now.room) self.now.blocks) self.now.inside found line test tokens.old) result tokens.new }
    {
        let word = then_word(self.alloc, tokens)?;
        self.after_then(tokens, found, line, test, word)
    }

    /// Behind the bracket that closes the condition.
    #[tactic(auto, unfolding(crate::specs::AdjointStmtReading::after_guard))]
    fn after_guard(
        &self,
        tokens: &mut Cursor<'_>,
        found: Block,
        line: u32,
        test: Judged,
    ) -> Result<Block, Failure>
        requires inner { ReadsInner self.now.room self.now.blocks (F.pre self.now.inner) (F.post self.now.inner) }
        requires shallow { self.now.room.depth < 2 ^ 32 }
        requires some { 0 < self.now.blocks }
        ensures { Reads (spec.after_guard (limits_of self.now.room) (nat_lt 0 self.now.blocks) (spec.nested (limits_of self.now.room) self.now.blocks) self.now.inside found line test tokens.old) result tokens.new }
    {
        if tokens.sees(Symbol::Construct) {
            return Err(tokens.refuse(Cause::Construct));
        }
        if sees_plain_name(tokens) {
            return one_line(self.alloc, tokens, self.room, found, line, test);
        }
        self.then_part(tokens, found, line, test)
    }

    #[tactic(auto, unfolding(crate::specs::AdjointStmtReading::if_stmt))]
    pub fn if_stmt(&self, tokens: &mut Cursor<'_>, found: Block) -> Result<Block, Failure>
        requires inner { ReadsInner self.now.room self.now.blocks (F.pre self.now.inner) (F.post self.now.inner) }
        requires shallow { self.now.room.depth < 2 ^ 32 }
        requires some { 0 < self.now.blocks }
        ensures { Reads (spec.if_stmt (limits_of self.now.room) (nat_lt 0 self.now.blocks) (spec.nested (limits_of self.now.room) self.now.blocks) self.now.inside found tokens.old) result tokens.new }
    {
        let line = tokens.mark(Symbol::If)?;
        let test = guard(self.alloc, tokens, self.room)?;
        self.after_guard(tokens, found, line, test)
    }
}
