//! The parts that the rows of a document say, each with its line: names, bodies, rows of tables,
//! and what comes from outside. The only rule asked here is that no kind has too many names.
#![tactic(auto)]

mod bodies;
mod declared_parts;
mod entries;
mod expressions;
mod front_list;
mod located;
mod naming;
mod said;
mod structure;

pub use bodies::{BodyPart, Owner, bodies_of};
pub use declared_parts::{Declarations, declarations_of};
pub use entries::{Arrival, Entry, Value};
pub use front_list::FrontList;
pub use located::At;
pub use naming::{names_of, number_named};
pub use said::{Said, said_in};
pub use structure::{Open, Standing, standing_of};
