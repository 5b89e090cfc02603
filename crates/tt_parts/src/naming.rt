//! The names that rows declare, and the numbers of what they name.

ghost use Rattle.std.specs.Prelude.{◌≡◌, ◌≤◌, IfOk};
ghost use Rattle.tt_base.specs.declared.names.NameKind.{NameKind};
ghost use Rattle.tt_base.specs.Names.{count_of};
ghost use Rattle.tt_parts.specs.Located.{parts};
ghost use Rattle.tt_parts.specs.Names.{declared_in, entry, number_named};

use crate::located::At;
use std::alloc::Global;
use tt_base::{Declared, Memory, Name, NameEntry, NameKind, Names};
use tt_rows::Row;

/// The name that a row declares, with its kind.
pub(crate) fn declared_in(row: &Row) -> Option<NameEntry>
    ensures { result ≡ declared_in row.now }
{
    match row {
        Row::Mode(name) => Some(entry(NameKind::Mode, name)),
        Row::Var(name, _) => Some(entry(NameKind::Var, name)),
        Row::Demand(name, _, _) => Some(entry(NameKind::Demand, name)),
        Row::Task(name, _) => Some(entry(NameKind::Task, name)),
        Row::Isr(name, _, _) | Row::IsrFar(name, _, _, _) => Some(entry(NameKind::Isr, name)),
        Row::Osek(name, _) | Row::OsekAuto(name, _) => Some(entry(NameKind::Osek, name)),
        Row::Oisr(name, _) => Some(entry(NameKind::Oisr, name)),
        _ => None,
    }
}

fn entry(kind: NameKind, name: &Name) -> NameEntry
    ensures { result ≡ entry kind name.now }
{
    NameEntry { kind, name: *name }
}

/// Declared names with their numbers, in the order of the rows. No kind has more than 1,024.
pub fn names_of(alloc: Global, entries: &[At<NameEntry>]) -> Result<Names, Memory>
    requires { (kind : NameKind) → count_of kind (parts entries.now) ≤ 1024 }
    ensures { IfOk result (λ names. names ≡ parts entries.now) }
{
    let mut names = Names::new(alloc);
    for at in entries {
        names.add(at.part.kind, at.part.name)?;
    }
    Ok(names)
}

/// The number of a name among those of its kind; 0 where it is not declared.
pub fn number_named(names: &Names, name: Name) -> u16
    ensures { result ≡ number_named names.now name }
{
    names.find(name).map_or(0, Declared::number)
}
