//! Statements: from tokens to trees.
#![tactic(auto)]

mod assign;
mod block;
mod branch;
mod ifs;
mod limit;
mod line;
mod rules;

pub use assign::{after_target, whole_expr};
pub use block::{Awaited, Block, LoopLine, Target, block_from};
pub use ifs::{begins_part, begins_rest, end_if, guard, plain_name, sees_plain_name, then_word};
pub use limit::{Limits, PROGRAM, has_room};
pub use line::{end_do, loop_line};
pub use rules::stmts;
