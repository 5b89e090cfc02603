//! Rules 7 and 8: declared names.

ghost use Rattle.std.specs.Prelude.{◌≡◌, IfOk, Some};
ghost use Rattle.tt_rules.specs.Document.{Document};
ghost use Rattle.tt_rules.specs.Lines.{least_line};
ghost use Rattle.tt_rules.specs.NameRules.{is_of_kind, lines_7, lines_8, lines_past, most_of};
ghost use Rattle.tt_rules.specs.Table.{first_broken, name_rules};
ghost use Rattle.tt_world.specs.ConfigRules.{is_reserved};

use crate::broken::{Broken, first_some};
use crate::least::{least, lesser};
use crate::shapes::{failing, missing_of, past_of, repeating};
use std::alloc::Global;
use tt_base::{Memory, Name, NameEntry, NameKind};
use tt_parts::Declarations;

fn is_reserved(name: &Name) -> bool
    ensures { result ≡ is_reserved name.now }
{
    let text = name.as_bytes();
    text == b"idle".as_slice()
        || text == b"ttErrorHook".as_slice()
        || text == b"ttShutdownHook".as_slice()
}

/// Rule 7. Declared names differ, and none is reserved.
fn rule_7(alloc: Global, declared: &Declarations) -> Result<Option<u32>, Memory>
    ensures { IfOk result (λ line. line ≡ least_line (lines_7 declared.now)) }
{
    let names = declared.names.as_slice();
    let free = failing(names, |entry| !is_reserved(&entry.name));
    let repeated = repeating(alloc, names, |entry| Some(entry.name))?;
    Ok(least(&[free, repeated]))
}

/// How many of a kind there may be.
fn most_of(kind: NameKind) -> usize
    ensures { result ≡ most_of kind }
{
    match kind {
        NameKind::Mode | NameKind::Isr | NameKind::Oisr => 16,
        NameKind::Var | NameKind::Demand => 256,
        NameKind::Task => 64,
        NameKind::Osek => 32,
    }
}

fn is_of_kind(kind: NameKind, entry: &NameEntry) -> bool
    ensures { result ≡ is_of_kind kind entry.now }
{
    kind.index() == entry.kind.index()
}

fn past_most(declared: &Declarations, kind: NameKind) -> Option<u32>
    ensures { result ≡ least_line (lines_past declared.now kind) }
{
    past_of(
        declared.names.as_slice(),
        most_of(kind),
        |entry| is_of_kind(kind, entry),
    )
}

/// Rule 8. There is a mode, and no kind has more names than its limit.
fn rule_8(declared: &Declarations) -> Option<u32>
    ensures { result ≡ least_line (lines_8 declared.now) }
{
    let names = declared.names.as_slice();
    let mut found = missing_of(
        names,
        declared.first,
        |entry| is_of_kind(NameKind::Mode, entry),
    );
    for kind in NameKind::ALL {
        found = lesser(found, past_most(declared, kind));
    }
    found
}

/// The first of rules 7 and 8 that is broken.
pub fn names_broken(alloc: Global, declared: &Declarations) -> Result<Option<Broken>, Memory>
    ensures { IfOk result (λ broken. (d : Document) → d.declared ≡ declared.now
        → broken ≡ first_broken 7 name_rules d) }
{
    let first = rule_7(alloc, declared)?;
    Ok(first_some(7, &[first, rule_8(declared)]))
}
