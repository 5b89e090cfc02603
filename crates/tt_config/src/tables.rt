//! Dispatcher tables: the rows of each mode, in ascending order.

ghost use Rattle.std.specs.Prelude.{◌≡◌, IfOk, OnOk, map};
ghost use Rattle.tt_config.specs.Tables.{activation_of, enable_of, entry_place, mode_of_entries};
ghost use Rattle.tt_parts.specs.Located.{parts};
ghost use Rattle.tt_rules.specs.Order.{ascending, below};
ghost use Rattle.tt_rules.specs.Tables.{is_earlier, is_enabled_earlier, mode_with};

use crate::lists::{Lists, by_number};
use std::alloc::Global;
use tt_base::{Memory, Series};
use tt_parts::{At, Entry};
use tt_world::{Activation, Enable, ModeDef};

/// The mode of an entry, and the entry.
fn entry_place(entry: &Entry) -> Option<(u16, Entry)>
    ensures { result ≡ entry_place entry.now }
{
    match entry {
        Entry::Activates(mode, _) | Entry::Enables(mode, _) => Some((mode.0, *entry)),
    }
}

/// The dispatcher table of each mode, in time that is n log n in the entries.
pub(crate) fn modes_of(
    alloc: Global,
    modes: usize,
    entries: &[At<Entry>],
) -> Result<Series<ModeDef>, Memory>
    ensures { IfOk result (λ tables. tables ≡ map (mode_with (parts entries.now)) (below modes)) }
{
    let lists = by_number(alloc, modes, entries, |entry| entry_place(entry))?;
    let tables = tables_of(alloc, lists)?;
    Ok(tables)
}

/// The tables of the entries of each mode.
fn tables_of(alloc: Global, lists: Lists<Entry>) -> Result<Series<ModeDef>, Memory>
    ensures { IfOk result (λ tables. tables ≡ map mode_of_entries lists) }
{
    let mut tables = Series::new(alloc);
    for entries in lists.into_series().into_vec() {
        tables.push(mode_of_entries(alloc, entries.as_slice())?)?;
    }
    Ok(tables)
}

/// The table of the entries of a mode.
fn mode_of_entries(alloc: Global, entries: &[Entry]) -> Result<ModeDef, Memory>
    ensures { IfOk result (λ mode. mode ≡ mode_of_entries entries.now) }
{
    let mut activations = Vec::new(alloc);
    let mut enables = Vec::new(alloc);
    for entry in entries {
        match entry {
            Entry::Activates(_, activation) => activations.push(*activation)?,
            Entry::Enables(_, enable) => enables.push(*enable)?,
        }
    }
    sort_activations(&mut activations)?;
    sort_enables(&mut enables)?;
    Ok(ModeDef {
        activations: Series::from_vec(activations),
        enables: Series::from_vec(enables),
    })
}

/// Puts activations in ascending order of offset.
fn sort_activations(rows: &mut Vec<Activation>) -> Result<(), Memory>
    ensures { OnOk result (rows.new.items ≡ ascending is_earlier rows.old.items) }
{
    match rows.sort_by_key(|row| row.offset) {
        Ok(()) => Ok(()),
        Err(_) => Err(Memory),
    }
}

/// Puts enables in ascending order of offset, and then of the routine's number.
fn sort_enables(rows: &mut Vec<Enable>) -> Result<(), Memory>
    ensures { OnOk result (rows.new.items ≡ ascending is_enabled_earlier rows.old.items) }
{
    match rows.sort_by_key(|row| (row.offset, row.isr.0)) {
        Ok(()) => Ok(()),
        Err(_) => Err(Memory),
    }
}
