//! The commands of the bench: what is written for the words of a command line and a document, and
//! the status.
#![tactic(auto)]

mod answer;
mod bulk;
mod check;
mod command;
mod document;
mod load;
mod load_lines;
mod refusal;
mod status;
mod table;
mod table_lines;
mod text;
mod trace;
mod words;

pub use bulk::bulk_document;
pub use command::{MOST_BYTES, serve};
pub use status::Status;
pub use words::{Command, Words};
