//! One table of cells that several workers step on: each operation of a chunk is one atomic step, and after all chunks the
//! cells are what the operations make one after another. Nothing here knows of the language, and nothing starts a thread.
#![tactic(auto)]

mod by_ops;
pub mod laws;
mod plan;
mod seat_cells;
mod table;
mod view;
mod worker;

pub use by_ops::ByOps;
pub use plan::{Key, Plan};
pub use seat_cells::SeatCells;
pub use table::OpTable;
pub use view::View;
pub use worker::Worker;
