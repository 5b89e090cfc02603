//! The configuration and the script that the rows of a document give, where they break no rule.
#![tactic(auto)]

mod acceptance;
mod config;
mod document;
mod few_rows;
mod laws;
mod lists;
mod owners;
mod script;
mod tables;

pub use acceptance::{AcceptFault, Accepted, accept};
pub use laws::bodies_are_sound;
pub use tt_rows::{NumberedRow, Row, Rows, Term, Terms};
pub use tt_rules::Broken;
