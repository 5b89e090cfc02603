//! The text of a trace: the line of each event, and the recorders that note events. Other printed
//! lines are made of the same words.
#![tactic(auto)]

mod buffer_lines;
mod discard;
mod event_line;
mod line;
mod line_buffer;
mod list_recorder;
mod notes;
mod recorder;
mod sink_recorder;
mod stamp;

pub use discard::Discard;
pub use event_line::line_of;
pub use line::Line;
pub use list_recorder::ListRecorder;
pub use notes::{note_all, note_one};
pub use recorder::{Failed, Noted, Recorder};
pub use sink_recorder::SinkRecorder;
