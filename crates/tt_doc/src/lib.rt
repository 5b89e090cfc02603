//! The lines, words and numbers of a document.
#![tactic(auto)]

pub mod laws;
mod line_words;
mod lines;
mod next_word;
mod numbers;

pub use line_words::words;
pub use lines::{LineKind, LineStep, Span, next_line};
pub use next_word::LineWords;
pub use numbers::{integer, number};
