//! The least line that breaks a rule of each shape. Lines need not ascend.

ghost use Rattle.std.specs.Prelude.{◌≡◌, ◌||◌, Bool, not, [], drop, IfOk, OnOk, Option, Some};
ghost use Rattle.std.specs.HashSet.{contains};
ghost use Rattle.tt_rows.specs.declared.row.Row.{Row};
ghost use Rattle.tt_rules.specs.Document.{rows_at};
ghost use Rattle.tt_rules.specs.Lines.{least_line};
ghost use Rattle.tt_rules.specs.Shapes.{Answers, failing, filter_at, lines, missing, passes_key, repeating, same_by, same_keys};

use crate::least::{lesser, with_line_unless};
use std::alloc::Global;
use std::collections::HashSet;
use std::hash::Hash;
use tt_base::Memory;
use tt_parts::At;
use tt_rows::{NumberedRow, Row};

/// The least line of the parts that fail a test.
pub(crate) fn failing<T, F: Fn(&T) -> bool>(parts: &[At<T>], test: F) -> Option<u32>
    requires callable { F.IsAlwaysCallable test }
    ensures { (passes : T → Bool) → Answers F.Fn test passes
        → result ≡ least_line (failing passes parts.now) }
{
    let mut least = None;
    for at in parts {
        least = with_line_unless(test(&at.part), at.line, least);
    }
    least
}

/// The least line of the rows that fail a test.
pub(crate) fn failing_row<F: Fn(&Row) -> bool>(rows: &[NumberedRow], test: F) -> Option<u32>
    requires callable { F.IsAlwaysCallable test }
    ensures { (passes : Row → Bool) → Answers F.Fn test passes
        → result ≡ least_line (failing passes (rows_at rows.now)) }
{
    let mut least = None;
    for row in rows {
        least = with_line_unless(test(&row.row), row.line, least);
    }
    least
}

/// The least line of the parts after the first n.
pub(crate) fn past<T>(parts: &[At<T>], most: usize) -> Option<u32>
    ensures { result ≡ least_line (drop most (lines parts.now)) }
{
    let mut least = None;
    let mut left = most;
    for at in parts {
        if left > 0 {
            left -= 1;
        } else {
            least = lesser(least, Some(at.line));
        }
    }
    least
}

/// The least line of the parts that pass a test, after the first n of them.
pub(crate) fn past_of<T, F: Fn(&T) -> bool>(parts: &[At<T>], most: usize, test: F) -> Option<u32>
    requires callable { F.IsAlwaysCallable test }
    ensures { (passes : T → Bool) → Answers F.Fn test passes
        → result ≡ least_line (drop most (lines (filter_at passes parts.now))) }
{
    let mut least = None;
    let mut left = most;
    for at in parts {
        if test(&at.part) {
            if left > 0 {
                left -= 1;
            } else {
                least = lesser(least, Some(at.line));
            }
        }
    }
    least
}

/// The first line of the document where there is no part.
pub(crate) fn missing<T>(parts: &[At<T>], first: u32) -> Option<u32>
    ensures { result ≡ least_line (missing first parts.now) }
{
    if parts.is_empty() { Some(first) } else { None }
}

/// The first line of the document where no part passes a test.
pub(crate) fn missing_of<T, F: Fn(&T) -> bool>(parts: &[At<T>], first: u32, test: F) -> Option<u32>
    requires callable { F.IsAlwaysCallable test }
    ensures { (passes : T → Bool) → Answers F.Fn test passes
        → result ≡ least_line (missing first (filter_at passes parts.now)) }
{
    for at in parts {
        if test(&at.part) {
            return None;
        }
    }
    Some(first)
}

/// Puts a key into a set, and answers whether it is new. No key counts as new.
fn note<K: Eq + Hash + Drop>(seen: &mut HashSet<K>, key: Option<K>) -> Result<bool, Memory>
    ensures new { IfOk result (λ is_new. is_new ≡ not (passes_key (contains K.eq seen.old) key)) }
    ensures seen { OnOk result ((q : _)
        → contains K.eq seen.new q ≡ same_keys K.eq key (Some q) || contains K.eq seen.old q) }
{
    match key {
        None => Ok(true),
        Some(key) => match seen.insert(key) {
            Ok(is_new) => Ok(is_new),
            Err(_) => Err(Memory),
        },
    }
}

/// The least line of the parts whose key is that of a part above.
pub(crate) fn repeating<T, K: Eq + Hash + Drop, F: Fn(&T) -> Option<K>>(
    alloc: Global,
    parts: &[At<T>],
    key_of: F,
) -> Result<Option<u32>, Memory>
    requires callable { F.IsAlwaysCallable key_of }
    ensures { IfOk result (λ line. (key : T → Option K) → Answers F.Fn key_of key
        → line ≡ least_line (repeating (same_by K.eq key) [] parts.now)) }
{
    let mut seen = HashSet::new(alloc);
    let mut least = None;
    for at in parts {
        let is_new = note(&mut seen, key_of(&at.part))?;
        least = with_line_unless(is_new, at.line, least);
    }
    Ok(least)
}
