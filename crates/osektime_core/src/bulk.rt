//! The bulk document: a large one to try the bench on.

ghost use Rattle.std.specs.Prelude.{◌≡◌, ◌++◌, ◌≤◌, ◌^◌, ◌<◌, length, IfOk, OnOk};
ghost use Rattle.osektime_core.specs.BulkText.{activation_row, arrival_row, bulk_text, first_rows, isr_rows, start_rows, task_rows};
ghost use Rattle.osektime_core.specs.TableText.{texts_below};

use crate::text::{put_bytes, put_digits};
use std::alloc::Global;
use tt_base::Memory;

/// How many rounds the document runs.
const ROUNDS: u32 = 10_000;

/// Appends the version, the round and the mode.
fn put_first(text: &mut Vec<u8>, round: u32) -> Result<(), Memory>
    ensures { OnOk result (text.new.items ≡ text.old.items ++ first_rows round) }
{
    put_bytes(text, b"osektime 1\nround ")?;
    put_digits(text, round)?;
    put_bytes(text, b"\nmode m\n")
}

/// Appends a task and its body.
fn put_task(text: &mut Vec<u8>, task: u32) -> Result<(), Memory>
    ensures { OnOk result (text.new.items ≡ text.old.items ++ task_rows task) }
{
    put_bytes(text, b"task T")?;
    put_digits(text, task)?;
    put_bytes(text, b" 16\nwork 15\nend\n")
}

/// Appends the tasks with numbers below this one.
fn put_tasks(text: &mut Vec<u8>, tasks: u32) -> Result<(), Memory>
    ensures { OnOk result (text.new.items ≡ text.old.items ++ texts_below task_rows tasks) }
{
    for task in 0..tasks {
        put_task(text, task)?;
    }
    Ok(())
}

/// Appends the row that activates a task.
fn put_activation(text: &mut Vec<u8>, round: u32, task: u32) -> Result<(), Memory>
    ensures { OnOk result (text.new.items ≡ text.old.items ++ activation_row round task) }
{
    put_bytes(text, b"at ")?;
    put_digits(text, 10 * u64::from(task))?;
    put_bytes(text, b" m activate T")?;
    put_digits(text, task)?;
    put_bytes(text, b" ")?;
    put_digits(text, round)?;
    put_bytes(text, b" stringent\n")
}

/// Appends the rows that activate the tasks with numbers below this one.
fn put_activations(text: &mut Vec<u8>, round: u32, tasks: u32) -> Result<(), Memory>
    ensures { OnOk result (text.new.items
        ≡ text.old.items ++ texts_below (activation_row round) tasks) }
{
    for task in 0..tasks {
        put_activation(text, round, task)?;
    }
    Ok(())
}

/// Appends the arrival in a round, of which the first has the number 0.
fn put_arrival(text: &mut Vec<u8>, round: u32, number: u32) -> Result<(), Memory>
    requires { number < 10000 }
    ensures { OnOk result (text.new.items ≡ text.old.items ++ arrival_row round number) }
{
    put_bytes(text, b"arrive K ")?;
    put_digits(text, u64::from(number) * u64::from(round) + 5)?;
    put_bytes(text, b"\n")
}

/// Appends the arrivals of all rounds.
fn put_arrivals(text: &mut Vec<u8>, round: u32) -> Result<(), Memory>
    ensures { OnOk result (text.new.items
        ≡ text.old.items ++ texts_below (arrival_row round) ROUNDS) }
{
    for number in 0..ROUNDS {
        put_arrival(text, round, number)?;
    }
    Ok(())
}

/// The bulk document of a number. It has `n = 2 + number % 31` tasks, of which each preempts the
/// one before it, and a routine that an arrival in each of 10,000 rounds of `20 n` ticks begins;
/// so there are 31 such documents. Its only error is out of memory.
pub fn bulk_document(alloc: Global, number: u32) -> Result<Vec<u8>, Memory>
    ensures document { IfOk result (λ text. text.items ≡ bulk_text number) }
    ensures short { IfOk result (λ text. length text.items ≤ 2 ^ 20) }
{
    let tasks = 2 + number % 31;
    let round = 20 * tasks;
    let mut text = Vec::new(alloc);
    put_first(&mut text, round)?;
    put_tasks(&mut text, tasks)?;
    put_bytes(&mut text, b"isr K 1 32\nwork 2\nend\n")?;
    put_activations(&mut text, round, tasks)?;
    put_bytes(&mut text, b"at 5 m enable K\nstart m\nrounds 10000\n")?;
    put_arrivals(&mut text, round)?;
    Ok(text)
}
