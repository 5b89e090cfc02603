//! Where bytes come from and where they go: sources and sinks, whole reading and whole writing, and
//! a buffer in front of a sink. All of it is the bench's own rule.
#![tactic(auto)]

mod buffer;
mod count;
mod history;
mod mem;
mod standard;
mod traits;
mod whole;

pub use buffer::{Buffer, CAPACITY};
pub use history::History;
pub use mem::{MemSink, MemSource, NullSink, SureSource};
pub use standard::{StdSink, StdSource};
pub use traits::{ReadStep, Sink, Source, WriteStep};
pub use whole::{TakeFault, WriteFault, put_all, take_all};
