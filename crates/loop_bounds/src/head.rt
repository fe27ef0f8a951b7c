//! Heads of loops.

ghost use Rattle.std.specs.Prelude.{◌≡◌, IfOk};
ghost use Rattle.fl_ast.specs.Tree.{expr_tree};
ghost use Rattle.adjoint_rules.specs.Bounds as rules;
ghost use Rattle.loop_bounds.specs.Heads.{head_of};

use crate::own::numbered_value;
use fl_ast::{Expr, Name};
use fl_base::{Boxed, Memory};
use std::alloc::Global;

/// The head of a `do`, with the loop's number.
#[derive(Clone, Copy, Drop)]
pub struct LoopHead<'a> {
    pub line: u32,
    pub number: u32,
    pub var: &'a Name,
    pub first: &'a Expr,
    pub last: &'a Expr,
    pub step: &'a Option<Expr>,
}

pub fn lo(alloc: Global, head: &LoopHead<'_>) -> Result<Boxed<Expr>, Memory>
    ensures { IfOk result (λ e. expr_tree e ≡ rules.lo (head_of head.now)) }
{
    numbered_value(alloc, b"formad_lo", head.number)
}

pub fn hi(alloc: Global, head: &LoopHead<'_>) -> Result<Boxed<Expr>, Memory>
    ensures { IfOk result (λ e. expr_tree e ≡ rules.hi (head_of head.now)) }
{
    numbered_value(alloc, b"formad_hi", head.number)
}

pub fn by(alloc: Global, head: &LoopHead<'_>) -> Result<Boxed<Expr>, Memory>
    ensures { IfOk result (λ e. expr_tree e ≡ rules.by (head_of head.now)) }
{
    numbered_value(alloc, b"formad_by", head.number)
}
