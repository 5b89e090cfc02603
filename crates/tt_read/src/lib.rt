//! Reading and showing documents.
#![tactic(auto)]

mod cursor;
mod document;
mod expression;
mod fields;
mod form;
mod keyword;
pub mod laws;
mod showing;

pub use document::read;
pub use form::{FormFault, FormKind};
pub use showing::show;
