//! Rules 18 to 24: dispatcher tables.

ghost use Rattle.std.specs.Prelude.{◌≡◌, IfOk};
ghost use Rattle.tt_base.specs.declared.names.NameKind.TheVariants as Kind;
ghost use Rattle.tt_base.specs.Names.{count_of};
ghost use Rattle.tt_rules.specs.Document.{Document, limit_of, names_of};
ghost use Rattle.tt_rules.specs.Lines.{least_line};
ghost use Rattle.tt_rules.specs.Table.{first_broken, table_rules};
ghost use Rattle.tt_rules.specs.TableRules.{has_deadline, is_activation_early, is_enable_early, is_of, lines_18, lines_19, lines_20, lines_21, lines_22, lines_24, lines_of_mode, place_of, source_of};

use crate::broken::{Broken, first_some};
use crate::least::lesser;
use crate::overtaken::rule_23;
use crate::shapes::{failing, past_of, repeating};
use std::alloc::Global;
use tt_base::Memory;
use tt_parts::{At, Entry};

/// Whether the offset of an activation is below this limit: the round's length minus the greatest
/// correction, in ticks.
fn is_activation_early(limit: u64, entry: &Entry) -> bool
    ensures { result ≡ is_activation_early limit entry.now }
{
    match entry {
        Entry::Activates(_, activation) => activation.offset < limit,
        Entry::Enables(_, _) => true,
    }
}

/// Rule 18. An activation's offset is below the limit.
fn rule_18(limit: u64, entries: &[At<Entry>]) -> Option<u32>
    ensures { result ≡ least_line (lines_18 limit entries.now) }
{
    failing(entries, |entry| is_activation_early(limit, entry))
}

fn is_enable_early(limit: u64, entry: &Entry) -> bool
    ensures { result ≡ is_enable_early limit entry.now }
{
    match entry {
        Entry::Activates(_, _) => true,
        Entry::Enables(_, enable) => enable.offset < limit,
    }
}

/// Rule 19. An enable's offset is below the limit.
fn rule_19(limit: u64, entries: &[At<Entry>]) -> Option<u32>
    ensures { result ≡ least_line (lines_19 limit entries.now) }
{
    failing(entries, |entry| is_enable_early(limit, entry))
}

fn has_deadline(limit: u64, entry: &Entry) -> bool
    ensures { result ≡ has_deadline limit entry.now }
{
    match entry {
        Entry::Activates(_, activation) => {
            activation.offset < activation.deadline && activation.deadline <= limit
        }
        Entry::Enables(_, _) => true,
    }
}

/// Rule 20. A deadline is above the offset and at most the limit.
fn rule_20(limit: u64, entries: &[At<Entry>]) -> Option<u32>
    ensures { result ≡ least_line (lines_20 limit entries.now) }
{
    failing(entries, |entry| has_deadline(limit, entry))
}

/// The mode and the offset of an activation.
fn place_of(entry: &Entry) -> Option<(u16, u64)>
    ensures { result ≡ place_of entry.now }
{
    match entry {
        Entry::Activates(mode, activation) => Some((mode.0, activation.offset)),
        Entry::Enables(_, _) => None,
    }
}

/// Rule 21. A mode has at most one activation at an offset.
fn rule_21(alloc: Global, entries: &[At<Entry>]) -> Result<Option<u32>, Memory>
    ensures { IfOk result (λ line. line ≡ least_line (lines_21 entries.now)) }
{
    let line = repeating(alloc, entries, |entry| place_of(entry))?;
    Ok(line)
}

/// The mode, the offset and the source of an enable.
fn source_of(entry: &Entry) -> Option<(u16, u64, u16)>
    ensures { result ≡ source_of entry.now }
{
    match entry {
        Entry::Activates(_, _) => None,
        Entry::Enables(mode, enable) => Some((mode.0, enable.offset, enable.isr.0)),
    }
}

/// Rule 22. A mode has at most one enable of a source at an offset.
fn rule_22(alloc: Global, entries: &[At<Entry>]) -> Result<Option<u32>, Memory>
    ensures { IfOk result (λ line. line ≡ least_line (lines_22 entries.now)) }
{
    let line = repeating(alloc, entries, |entry| source_of(entry))?;
    Ok(line)
}

/// How many rows the dispatcher table of a mode has at most.
const TABLE_ROWS: usize = 4096;

fn is_of(mode: u16, entry: &Entry) -> bool
    ensures { result ≡ is_of mode entry.now }
{
    match entry {
        Entry::Activates(other, _) | Entry::Enables(other, _) => other.0 == mode,
    }
}

fn past_rows(entries: &[At<Entry>], mode: u16) -> Option<u32>
    ensures { result ≡ least_line (lines_of_mode entries.now mode) }
{
    past_of(entries, TABLE_ROWS, |entry| is_of(mode, entry))
}

/// Rule 24. A mode has at most 4,096 rows. The entries are read once for each mode, and there are
/// at most 16 modes.
fn rule_24(modes: u16, entries: &[At<Entry>]) -> Option<u32>
    ensures { result ≡ least_line (lines_24 modes entries.now) }
{
    let mut found = None;
    for mode in 0..modes {
        found = lesser(found, past_rows(entries, mode));
    }
    found
}

/// The first of rules 18 to 24 that is broken. The limit is the round's length minus the greatest
/// correction, in ticks.
pub fn tables_broken(
    alloc: Global,
    limit: u64,
    modes: u16,
    entries: &[At<Entry>],
) -> Result<Option<Broken>, Memory>
    ensures { IfOk result (λ broken. (d : Document) → limit_of d.declared ≡ limit
        → count_of Kind.Mode (names_of d) ≡ modes → d.said.entries ≡ entries.now
        → broken ≡ first_broken 18 table_rules d) }
{
    let places = rule_21(alloc, entries)?;
    let sources = rule_22(alloc, entries)?;
    let apart = rule_23(alloc, entries)?;
    Ok(first_some(
        18,
        &[
            rule_18(limit, entries),
            rule_19(limit, entries),
            rule_20(limit, entries),
            places,
            sources,
            apart,
            rule_24(modes, entries),
        ],
    ))
}
