//! The trees of the language: programs, their adjoints, and what both are made of.
#![tactic(auto)]

mod adjoint;
mod decl;
mod directive;
mod expr;
mod kind;
mod occurs;
mod same;
mod stmt;

pub use adjoint::{AArm, AExpr, AStmt, Adjoint, AdjointText};
pub use decl::{Bound, Decl, Dim, Factor, Sign, Term, bytes_of};
pub use directive::{Directive, Schedule, ScheduleKind};
pub use expr::{Cond, Expr, Place};
pub use fl_base::{Memory, Name};
pub use kind::{BinOp, Fun, Intent, Kind, RelOp};
pub use same::same_is_equal;
pub use stmt::{Arm, Program, Stmt};
