//! Floor: base. The outside of the program: files, a source of bytes, a sink of lines, and a gate that workers pass.
//!
//! Each is a trait whose ghost members tell what it holds, where it can tell, and how often it has failed; what stands
//! in memory tells all, what stands over the system tells nothing. It stands on no other crate. The crates above use
//! one contract: what is told moves as each call says, and an answer that tells a fault shows that the count rose.
#![tactic(auto)]

mod edges;
mod halting;
mod lines;
mod mem_files;
mod mem_sink;
mod mem_source;
mod traits;

pub use edges::{OpenGate, StdFiles, StdSink, StdSource};
pub use halting::Halt;
pub use lines::{put_line, put_lines};
pub use mem_files::MemFiles;
pub use mem_sink::{MemSink, Refusal, SteadySink};
pub use mem_source::{MemSource, SteadySource};
pub use traits::{Failed, FileErr, Files, Gate, Got, PutErr, Sink, Source, Spot};
