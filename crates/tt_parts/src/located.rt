//! Parts of a document, each with the line that says it.

ghost use Rattle.std.specs.Prelude.{◌≡◌, ◌++◌, [], OnOk};
ghost use Rattle.tt_parts.specs.Located.{at_then};

use tt_base::{Memory, Series};

/// A part of a document, and the line that says it.
#[derive(Drop)]
pub struct At<T> {
    pub line: u32,
    pub part: T,
}

/// Appends the part that a row gives, if it gives one.
pub(crate) fn put<T: Drop>(
    parts: &mut Series<At<T>>,
    line: u32,
    part: Option<T>,
) -> Result<(), Memory>
    ensures { OnOk result (parts.new ≡ parts.old ++ at_then line part []) }
{
    match part {
        None => Ok(()),
        Some(part) => parts.push(At { line, part }),
    }
}
