//! The fields of a row after its first word.
#![tactic(auto, unfolding(crate::specs::Reading::one, crate::specs::Reading::fail, crate::specs::Reading::stop, crate::specs::Reading::stop_or, crate::specs::Reading::expression))]

ghost use Rattle.std.specs.Prelude.{◌≡◌, ◌≤◌, false, length, IfOk};
ghost use Rattle.tt_read.specs.Reading.{begins_short_row, row_of_number, row_of_name, row_of_name_and_number, finish, stop, plain_after, after_first, after_one, after_priority, after_hook, after_mode, after_deadline, row_by_words};

use crate::cursor::Cursor;
use crate::expression::expression;
use crate::keyword::Keyword;
use std::alloc::Global;
use tt_base::{Memory, Name};
use tt_rows::Row;

/// The row of a first word and a number, if they make one.
fn numbered_row(first: Keyword, number: u64) -> Option<Row>
    ensures { result ≡ row_of_number first number }
{
    match first {
        Keyword::Round => Some(Row::Round(number)),
        Keyword::Adjust => Some(Row::Adjust(number)),
        Keyword::Rounds => Some(Row::Rounds(number)),
        Keyword::Time => Some(Row::Time(number)),
        Keyword::Work => Some(Row::Work(number)),
        Keyword::Repeat => Some(Row::Repeat(number)),
        _ => None,
    }
}

/// The row of a first word and a name, if they make one.
fn named_row(first: Keyword, name: Name) -> Option<Row>
    ensures { result ≡ row_of_name first name }
{
    match first {
        Keyword::Mode => Some(Row::Mode(name)),
        Keyword::Start => Some(Row::Start(name)),
        Keyword::Take => Some(Row::Take(name)),
        Keyword::Switch => Some(Row::Switch(name)),
        Keyword::Activate => Some(Row::Activate(name)),
        Keyword::Chain => Some(Row::Chain(name)),
        _ => None,
    }
}

/// The row of a first word, a name and a number, if they make one.
fn counted_row(first: Keyword, name: Name, number: u64) -> Option<Row>
    ensures { result ≡ row_of_name_and_number first name number }
{
    match first {
        Keyword::Task => Some(Row::Task(name, number)),
        Keyword::Oisr => Some(Row::Oisr(name, number)),
        Keyword::Value => Some(Row::Value(name, number)),
        Keyword::Arrive => Some(Row::Arrive(name, number)),
        _ => None,
    }
}

/// The row of a first word and at most one number after it, if they make one. Words may be left
/// after the fields.
fn plain_row(first: Keyword, words: &mut Cursor) -> Option<Row>
    ensures { finish result words.new ≡ plain_after first words.old }
{
    match first {
        Keyword::Round
        | Keyword::Adjust
        | Keyword::Rounds
        | Keyword::Time
        | Keyword::Work
        | Keyword::Repeat => numbered_row(first, words.number()?),
        Keyword::Else => Some(Row::Else),
        Keyword::End => Some(Row::End),
        Keyword::Sync => Some(Row::Sync),
        Keyword::Shutdown => Some(Row::Shutdown),
        Keyword::Terminate => Some(Row::Terminate),
        _ => row_of_fields(first, words),
    }
}

/// The row of a first word and other fields after it, if they make one. Words may be left after
/// the fields. It is no part of its caller, so that a row without a name takes no room for one.
#[inline(never)]
fn row_of_fields(first: Keyword, words: &mut Cursor) -> Option<Row>
    requires { begins_short_row first ≡ false }
    ensures { finish result words.new ≡ plain_after first words.old }
{
    match first {
        Keyword::Mode
        | Keyword::Start
        | Keyword::Take
        | Keyword::Switch
        | Keyword::Activate
        | Keyword::Chain => named_row(first, words.name()?),
        Keyword::Task | Keyword::Oisr | Keyword::Value | Keyword::Arrive => {
            counted_row(first, words.name()?, words.number()?)
        }
        Keyword::Osektime => header(words),
        Keyword::Var => var(words),
        Keyword::Demand => demand(words),
        Keyword::Isr => isr(words),
        Keyword::Osek => osek(words),
        Keyword::Hook => hook(words),
        Keyword::At => at(words),
        _ => None,
    }
}

fn header(words: &mut Cursor) -> Option<Row>
    ensures { finish result words.new ≡ after_first Keyword.Osektime words.old }
{
    match words.keyword()? {
        Keyword::One => Some(Row::Header),
        _ => None,
    }
}

fn var(words: &mut Cursor) -> Option<Row>
    ensures { finish result words.new ≡ after_first Keyword.Var words.old }
{
    Some(Row::Var(words.name()?, words.integer()?))
}

fn demand(words: &mut Cursor) -> Option<Row>
    ensures { finish result words.new ≡ after_first Keyword.Demand words.old }
{
    Some(Row::Demand(words.name()?, words.number()?, words.number()?))
}

fn isr(words: &mut Cursor) -> Option<Row>
    ensures { finish result words.new ≡ after_first Keyword.Isr words.old }
{
    let name = words.name()?;
    let level = words.number()?;
    let stack = words.number()?;
    if words.is_empty() {
        Some(Row::Isr(name, level, stack))
    } else {
        Some(Row::IsrFar(name, level, stack, words.number()?))
    }
}

fn osek(words: &mut Cursor) -> Option<Row>
    ensures { finish result words.new ≡ after_first Keyword.Osek words.old }
{
    let name = words.name()?;
    let priority = words.number()?;
    if words.is_empty() {
        return Some(Row::Osek(name, priority));
    }
    match words.keyword()? {
        Keyword::Auto => Some(Row::OsekAuto(name, priority)),
        _ => None,
    }
}

fn hook(words: &mut Cursor) -> Option<Row>
    ensures { finish result words.new ≡ after_first Keyword.Hook words.old }
{
    match words.keyword()? {
        Keyword::Error => Some(Row::HookError),
        Keyword::Shutdown => Some(Row::HookShutdown),
        _ => None,
    }
}

fn at(words: &mut Cursor) -> Option<Row>
    ensures { finish result words.new ≡ after_first Keyword.At words.old }
{
    let offset = words.number()?;
    let mode = words.name()?;
    match words.keyword()? {
        Keyword::Activate => activation(offset, mode, words),
        Keyword::Enable => Some(Row::AtEnable(offset, mode, words.name()?)),
        _ => None,
    }
}

fn activation(offset: u64, mode: Name, words: &mut Cursor) -> Option<Row>
    ensures { finish result words.new ≡ after_mode offset mode Keyword.Activate words.old }
{
    let task = words.name()?;
    let deadline = words.number()?;
    match words.keyword()? {
        Keyword::Stringent => Some(Row::AtStringent(offset, mode, task, deadline)),
        Keyword::Nonstringent => Some(Row::AtNonstringent(offset, mode, task, deadline)),
        _ => None,
    }
}

fn set(alloc: Global, words: &mut Cursor) -> Result<Option<Row>, Memory>
    requires { length words.old ≤ 100 }
    ensures { IfOk result (λ row. finish row words.new ≡ after_first Keyword.Set words.old) }
{
    let Some(var) = words.name() else {
        return Ok(None);
    };
    let terms = expression(alloc, words)?;
    Ok(terms.map(|terms| Row::Set(var, terms)))
}

/// The row that a first word and the fields after it make, if they make one. Words may be left
/// after the fields.
fn row(alloc: Global, first: Keyword, words: &mut Cursor) -> Result<Option<Row>, Memory>
    requires { length words.old ≤ 100 }
    ensures { IfOk result (λ row. finish row words.new ≡ after_first first words.old) }
{
    match first {
        Keyword::Set => set(alloc, words),
        Keyword::If => Ok(expression(alloc, words)?.map(Row::If)),
        Keyword::Out => Ok(expression(alloc, words)?.map(Row::Out)),
        _ => Ok(plain_row(first, words)),
    }
}

/// Words as a row, if they are one.
pub fn row_of(alloc: Global, words: &mut Cursor) -> Result<Option<Row>, Memory>
    requires { length words.old ≤ 100 }
    ensures { IfOk result (λ row. row ≡ row_by_words words.old) }
{
    let Some(first) = words.keyword() else {
        return Ok(None);
    };
    let row = row(alloc, first, words)?;
    if words.is_empty() { Ok(row) } else { Ok(None) }
}
