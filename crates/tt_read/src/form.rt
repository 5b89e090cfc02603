//! What can be wrong with the form of a document.

ghost use Rattle.std.specs.Prelude.{◌≡◌};
ghost use Rattle.tt_read.specs.declared.form.FormFault.TheVariants.{Memory as memory_fault};
ghost use Rattle.tt_read.specs.FormKind.{kind_of};

use thiserror::Error;
use tt_base::Memory;
use tt_doc::LineKind;

/// What can be wrong with a line. Of several faults, the first in this order counts.
#[derive(Clone, Copy, Debug, PartialEq, Eq)]
pub enum FormKind {
    /// A byte outside 0x20 to 0x7E.
    Byte,
    /// More than 200 bytes.
    Long,
    /// No LF at its end.
    Cut,
    /// Words that are no row of the language.
    Row,
}

/// Why a document was not read.
#[derive(Clone, Copy, Debug, PartialEq, Eq, Error)]
pub enum FormFault {
    /// Out of memory.
    #[error("out of memory")]
    Memory,
    /// The first line that has a fault, counted from 1, and its least kind.
    #[error("line {line} is not of the form")]
    Form { line: u32, kind: FormKind },
}

impl From<Memory> for FormFault {
    ghost from_gives = { λ _ fault. fault ≡ memory_fault };

    fn from(_memory: Memory) -> FormFault {
        FormFault::Memory
    }
}

impl From<LineKind> for FormKind {
    ghost from_gives = { λ kind result. result ≡ kind_of kind };

    fn from(kind: LineKind) -> FormKind {
        match kind {
            LineKind::Byte => FormKind::Byte,
            LineKind::Long => FormKind::Long,
            LineKind::Cut => FormKind::Cut,
        }
    }
}
