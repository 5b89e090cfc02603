//! Rules 9 to 13: the numbers of declarations, levels, priorities and hooks.

ghost use Rattle.std.specs.Prelude.{◌≡◌, IfOk};
ghost use Rattle.tt_rules.specs.DeclarationRules.{has_numbers_in_range, is_error_hook, is_shutdown_hook, level_of, lines_10, lines_11, lines_12, lines_13, lines_9, oisr_priority_of, osek_priority_of};
ghost use Rattle.tt_rules.specs.Document.{Document};
ghost use Rattle.tt_rules.specs.Lines.{least_line};
ghost use Rattle.tt_rules.specs.Table.{declaration_rules, first_broken};

use crate::broken::{Broken, first_some};
use crate::least::lesser;
use crate::round::is_within;
use crate::shapes::{failing_row, past_of, repeating};
use std::alloc::Global;
use tt_base::Memory;
use tt_parts::{At, BodyPart, Owner};
use tt_rows::{NumberedRow, Row};

fn has_numbers_in_range(row: &Row) -> bool
    ensures { result ≡ has_numbers_in_range row.now }
{
    match row {
        Row::Task(_, stack) => *stack <= 65535,
        Row::Demand(_, most, usual) => *most <= 10_000_000 && *usual <= *most,
        Row::Isr(_, level, stack) => is_within(1, 255, *level) && *stack <= 65535,
        Row::IsrFar(_, level, stack, distance) => {
            is_within(1, 255, *level) && (*stack <= 65535 && is_within(1, 1_000_000_000, *distance))
        }
        Row::Osek(_, priority) | Row::OsekAuto(_, priority) | Row::Oisr(_, priority) => {
            is_within(1, 255, *priority)
        }
        Row::Work(ticks) => is_within(1, 10_000_000, *ticks),
        Row::Repeat(turns) => is_within(1, 65535, *turns),
        _ => true,
    }
}

/// Rule 9. The numbers of declarations, of `work` and of `repeat` are in range.
fn rule_9(rows: &[NumberedRow]) -> Option<u32>
    ensures { result ≡ least_line (lines_9 rows.now) }
{
    failing_row(rows, |row| has_numbers_in_range(row))
}

fn level_of(owner: Owner) -> Option<u64>
    ensures { result ≡ level_of owner }
{
    match owner {
        Owner::Isr(level, _, _) => Some(level),
        _ => None,
    }
}

fn osek_priority_of(owner: Owner) -> Option<u64>
    ensures { result ≡ osek_priority_of owner }
{
    match owner {
        Owner::Osek(priority, _) => Some(priority),
        _ => None,
    }
}

fn oisr_priority_of(owner: Owner) -> Option<u64>
    ensures { result ≡ oisr_priority_of owner }
{
    match owner {
        Owner::Oisr(priority) => Some(priority),
        _ => None,
    }
}

/// Rule 10. Levels of interrupt service routines differ.
fn rule_10(alloc: Global, bodies: &[At<BodyPart>]) -> Result<Option<u32>, Memory>
    ensures { IfOk result (λ line. line ≡ least_line (lines_10 bodies.now)) }
{
    let line = repeating(alloc, bodies, |body| level_of(body.owner))?;
    Ok(line)
}

/// Rule 11. Priorities of OSEK tasks differ.
fn rule_11(alloc: Global, bodies: &[At<BodyPart>]) -> Result<Option<u32>, Memory>
    ensures { IfOk result (λ line. line ≡ least_line (lines_11 bodies.now)) }
{
    let line = repeating(alloc, bodies, |body| osek_priority_of(body.owner))?;
    Ok(line)
}

/// Rule 12. Priorities of OSEK interrupt service routines differ.
fn rule_12(alloc: Global, bodies: &[At<BodyPart>]) -> Result<Option<u32>, Memory>
    ensures { IfOk result (λ line. line ≡ least_line (lines_12 bodies.now)) }
{
    let line = repeating(alloc, bodies, |body| oisr_priority_of(body.owner))?;
    Ok(line)
}

fn is_error_hook(owner: Owner) -> bool
    ensures { result ≡ is_error_hook owner }
{
    matches!(owner, Owner::ErrorHook)
}

fn is_shutdown_hook(owner: Owner) -> bool
    ensures { result ≡ is_shutdown_hook owner }
{
    matches!(owner, Owner::ShutdownHook)
}

/// Rule 13. Each of the two hooks has at most one body.
fn rule_13(bodies: &[At<BodyPart>]) -> Option<u32>
    ensures { result ≡ least_line (lines_13 bodies.now) }
{
    let errors = past_of(bodies, 1, |body| is_error_hook(body.owner));
    lesser(
        errors,
        past_of(bodies, 1, |body| is_shutdown_hook(body.owner)),
    )
}

/// The first of rules 9 to 13 that is broken.
pub fn declarations_broken(
    alloc: Global,
    rows: &[NumberedRow],
    bodies: &[At<BodyPart>],
) -> Result<Option<Broken>, Memory>
    ensures { IfOk result (λ broken. (d : Document) → d.rows ≡ rows.now
        → d.bodies ≡ bodies.now → broken ≡ first_broken 9 declaration_rules d) }
{
    let levels = rule_10(alloc, bodies)?;
    let priorities = rule_11(alloc, bodies)?;
    let others = rule_12(alloc, bodies)?;
    Ok(first_some(
        9,
        &[rule_9(rows), levels, priorities, others, rule_13(bodies)],
    ))
}
