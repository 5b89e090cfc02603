//! The rows of a document: how each is spelled, and which are sound.
#![tactic(auto)]

mod row;

pub use row::{NumberedRow, Row, Rows, Term, Terms};
