//! The place of each row of a document among bodies and blocks.

ghost use Rattle.std.specs.Prelude.{◌≡◌};
ghost use Rattle.tt_parts.specs.Structure.{standing_of};

use task_lang::OwnerKind;
use tt_rows::Row;

/// The place of a row among bodies and blocks.
#[derive(Clone, Copy)]
pub enum Standing {
    /// Outside of bodies.
    Top,
    /// Before a body of an owner of this kind.
    Opener(OwnerKind),
    /// In a body, as a statement.
    Plain,
    /// In a body, as an `if`.
    OfIf,
    /// In a body, as an `else`.
    OfElse,
    /// In a body, as a `repeat`.
    OfRepeat,
    /// In a body, as an `end`.
    OfEnd,
}

/// Something that is open.
#[derive(Clone, Copy, PartialEq, Eq)]
pub enum Open {
    /// A body of an owner of this kind.
    Body(OwnerKind),
    /// An `if` before its `else`.
    If,
    /// An `if` after its `else`.
    Else,
    /// A `repeat`.
    Repeat,
}

/// The place of a row among bodies and blocks.
pub fn standing_of(row: &Row) -> Standing
    ensures { result ≡ standing_of row.now }
{
    match row {
        Row::Task(_, _) => Standing::Opener(OwnerKind::Task),
        Row::Isr(_, _, _) | Row::IsrFar(_, _, _, _) => Standing::Opener(OwnerKind::Isr),
        Row::Osek(_, _) | Row::OsekAuto(_, _) => Standing::Opener(OwnerKind::Osek),
        Row::Oisr(_, _) => Standing::Opener(OwnerKind::Oisr),
        Row::HookError | Row::HookShutdown => Standing::Opener(OwnerKind::Hook),
        Row::Work(_)
        | Row::Take(_)
        | Row::Set(_, _)
        | Row::Out(_)
        | Row::Switch(_)
        | Row::Sync
        | Row::Shutdown
        | Row::Activate(_)
        | Row::Chain(_)
        | Row::Terminate => Standing::Plain,
        Row::If(_) => Standing::OfIf,
        Row::Else => Standing::OfElse,
        Row::Repeat(_) => Standing::OfRepeat,
        Row::End => Standing::OfEnd,
        _ => Standing::Top,
    }
}
