//! What a run reads from, writes to and stops by at.
#![tactic(auto)]

mod folder;
mod gate;
mod mem_folder;
mod mem_sink;
mod sink;
mod system;

pub use folder::{Folder, TakeError};
pub use gate::{Gate, OpenGate};
pub use mem_folder::MemFolder;
pub use mem_sink::MemSink;
pub use sink::{Failed, Sink};
pub use system::{FileFolder, StdSink};
