//! Traits for files, outputs and sockets, with implementations in memory.
#![tactic(auto)]

mod asked;
mod calls;
mod files;
mod link;
mod memory_door;
mod memory_files;
mod memory_link;
mod memory_sink;
mod named_files;
mod pieces;
mod sink;

pub use calls::Calls;
pub use files::{FileFault, Files};
pub use link::{Door, Link};
pub use memory_door::{Links, MemoryDoor};
pub use memory_files::MemoryFiles;
pub use memory_link::MemoryLink;
pub use memory_sink::MemorySink;
pub use named_files::NamedFiles;
pub use pieces::Pieces;
pub use sink::{AuditSink, Failed, Sink};
