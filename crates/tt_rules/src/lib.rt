//! The rules of the bench on the rows of a document and their parts, by topic. Each rule answers
//! the least line that breaks it.
#![tactic(auto)]

mod bodies;
mod broken;
mod declarations;
mod inputs;
mod laws;
mod least;
mod names;
mod overtaken;
mod round;
mod shapes;
mod structure;
mod tables;

pub use bodies::bodies_broken;
pub use broken::Broken;
pub use declarations::declarations_broken;
pub use inputs::inputs_broken;
pub use laws::{bodies_are_sound, declarations_are_sound, tables_are_sound};
pub use names::names_broken;
pub use round::{adjust_of, first_or_zero, limit_of, round_broken, round_of};
pub use structure::structure_broken;
pub use tables::tables_broken;
