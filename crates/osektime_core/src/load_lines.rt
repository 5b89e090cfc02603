//! The lines of the summary of a run.

ghost use Rattle.std.specs.Prelude.{◌≡◌, ◌++◌, [], slice_index_or, OnOk};
ghost use Rattle.tt_world.specs.Status.{status_by};
ghost use Rattle.osektime_core.specs.LoadText.{bounded_line, end_line, number_line};

use crate::text::{put_bytes, put_digits};
use tt_base::{Memory, Name, TaskNo, Tick};
use tt_world::RunEnd;

/// Appends the line of a number.
pub(crate) fn put_number(text: &mut Vec<u8>, word: &[u8], number: u64) -> Result<(), Memory>
    ensures { OnOk result (text.new.items ≡ text.old.items ++ number_line word.now number) }
{
    put_bytes(text, word)?;
    put_bytes(text, b" ")?;
    put_digits(text, number)?;
    put_bytes(text, b"\n")
}

/// Appends the line of a number and its bound.
pub(crate) fn put_bounded(
    text: &mut Vec<u8>,
    word: &[u8],
    number: u64,
    bound: u64,
) -> Result<(), Memory>
    ensures { OnOk result (text.new.items
        ≡ text.old.items ++ bounded_line word.now number bound) }
{
    put_bytes(text, word)?;
    put_bytes(text, b" ")?;
    put_digits(text, number)?;
    put_bytes(text, b" of ")?;
    put_digits(text, bound)?;
    put_bytes(text, b"\n")
}

/// Appends the name of a task, nothing where it has none.
fn put_task(text: &mut Vec<u8>, tasks: &[Name], task: TaskNo) -> Result<(), Memory>
    ensures { OnOk result (text.new.items ≡ text.old.items ++ slice_index_or tasks.now task.0 []) }
{
    match tasks.get(task.0 as usize) {
        Some(name) => put_bytes(text, name.as_bytes()),
        None => Ok(()),
    }
}

/// Appends the line that says how a run ended.
pub(crate) fn put_end(
    text: &mut Vec<u8>,
    tasks: &[Name],
    end: RunEnd,
    tick: Tick,
) -> Result<(), Memory>
    ensures { OnOk result (text.new.items
        ≡ text.old.items ++ end_line tasks.now (status_by end tick)) }
{
    match end {
        RunEnd::LastRound => put_bytes(text, b"end last round\n"),
        RunEnd::Missed(task) => {
            put_bytes(text, b"end missed ")?;
            put_task(text, tasks, task)?;
            put_bytes(text, b"\n")
        }
        RunEnd::Shutdown => put_bytes(text, b"end shutdown\n"),
    }
}
