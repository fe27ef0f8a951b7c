//! Trees whose names are slots of a layout, and the trees that they stand for.
#![tactic(auto)]

mod resolve;
mod resolve_stmts;
mod resolved;
mod slot_table;

pub use resolve::{ResolveError, resolve_condition, resolve_expression, resolve_place};
pub use resolve_stmts::{resolve_statement, resolve_statements};
pub use resolved::{
    ResolvedArm, ResolvedCond, ResolvedExpr, ResolvedHead, ResolvedPlace, ResolvedStmt,
};
pub use slot_table::SlotTable;
