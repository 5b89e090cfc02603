//! Rule 23: the deadlines of activations.

ghost use Rattle.std.specs.Prelude.{◌≡◌, ◌||◌, IfOk, OnOk};
ghost use Rattle.std.specs.BTreeSet.{contains};
ghost use Rattle.std.specs.List.{list_any};
ghost use Rattle.std.specs.Ordering.{eq_by_cmp};
ghost use Rattle.tt_rules.specs.ActivationKeys.{HasKeys, comes_between_key, is_apart, key_cmp, key_of};
ghost use Rattle.tt_rules.specs.Lines.{least_line};
ghost use Rattle.tt_rules.specs.Shapes.{is_key};
ghost use Rattle.tt_rules.specs.TableRules.{lines_23};

use crate::shapes::failing;
use std::alloc::Global;
use std::collections::BTreeSet;
use tt_base::Memory;
use tt_parts::{At, Entry};

/// The mode, the task and the offset of an activation.
type Key = (u16, u16, u64);

fn key_of(entry: &Entry) -> Option<Key>
    ensures { result ≡ key_of entry.now }
{
    match entry {
        Entry::Activates(mode, activation) => Some((mode.0, activation.task.0, activation.offset)),
        Entry::Enables(_, _) => None,
    }
}

/// Puts a key into a set, if there is one.
fn put_key(keys: &mut BTreeSet<Key>, key: Option<Key>) -> Result<(), Memory>
    ensures { OnOk result ((q : _)
        → contains key_cmp keys.new q ≡ is_key (eq_by_cmp key_cmp) q key
        || contains key_cmp keys.old q) }
{
    match key {
        None => Ok(()),
        Some(key) => match keys.insert(key) {
            Ok(_) => Ok(()),
            Err(_) => Err(Memory),
        },
    }
}

/// The keys of the activations of tables.
fn keys_in(alloc: Global, entries: &[At<Entry>]) -> Result<BTreeSet<Key>, Memory>
    ensures { IfOk result (λ keys. HasKeys keys entries.now) }
{
    let mut keys = BTreeSet::new(alloc);
    for at in entries {
        put_key(&mut keys, key_of(&at.part))?;
    }
    Ok(keys)
}

/// Whether an activation of a mode and a task has an offset above one and below a deadline.
fn comes_between(keys: &BTreeSet<Key>, mode: u16, task: u16, offset: u64, deadline: u64) -> bool
    ensures { result ≡ list_any (comes_between_key (mode, task, offset) deadline) keys.now.keys }
{
    if deadline <= offset {
        return false;
    }
    let mut between = keys.range((mode, task, offset + 1)..(mode, task, deadline));
    between.next().is_some()
}

fn is_apart(keys: &BTreeSet<Key>, entry: &Entry) -> bool
    ensures { result ≡ is_apart keys.now.keys entry.now }
{
    match entry {
        Entry::Activates(mode, activation) => {
            let task = activation.task.0;
            !comes_between(keys, mode.0, task, activation.offset, activation.deadline)
        }
        Entry::Enables(_, _) => true,
    }
}

/// Rule 23. No other activation of the same mode and task has an offset above the offset of one and
/// below its deadline.
pub(crate) fn rule_23(alloc: Global, entries: &[At<Entry>]) -> Result<Option<u32>, Memory>
    ensures { IfOk result (λ line. line ≡ least_line (lines_23 entries.now)) }
{
    let keys = keys_in(alloc, entries)?;
    Ok(failing(entries, |entry| is_apart(&keys, entry)))
}
