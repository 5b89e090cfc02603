//! The text of the schedule check, made whole in memory.

ghost use Rattle.std.specs.Prelude.{◌≡◌, ◌++◌, ◌∷◌, ◌<◌, length, IfOk, OnOk};
ghost use Rattle.trace_text.specs.Lines.{spaced};
ghost use Rattle.tt_world.specs.Rows.{mode_at, row_of};
ghost use Rattle.tt_world.specs.ConfigRules.{IsConfig};
ghost use Rattle.tt_world.specs.ScriptRules.{IsScript};
ghost use Rattle.round_table.specs.TableRows.{table_of, tables_of};
ghost use Rattle.schedule_check.specs.Responses.{answer_of};
ghost use Rattle.osektime_core.specs.CheckText.{answer_line, bounds_line, check_text, response_line, response_words, responses_text};

use crate::text::{put_bytes, put_digits, put_name};
use round_table::{Table, Tables};
use schedule_check::{CheckAnswer, demand, kept, response};
use std::alloc::Global;
use tt_base::{Declared, Memory, ModeNo};
use tt_world::{Config, Script};

/// Appends the words on the response end of an activation, each with a space in front of it.
fn put_response(
    text: &mut Vec<u8>,
    config: &Config,
    table: &Table,
    mode: ModeNo,
    entry: usize,
) -> Result<(), Memory>
    requires rules { IsConfig config.now }
    requires table { table.now ≡ table_of config.now (mode_at config.now mode.0) }
    requires mode { mode.0 < length config.now.modes }
    requires entry { entry < length table.now.mode.activations }
    ensures { OnOk result (text.new.items ≡ text.old.items
        ++ spaced (response_words config.now table.now.mode (row_of table.now.mode entry))) }
{
    match response(config, table, entry) {
        Some(end) => {
            put_bytes(text, b" response ")?;
            put_digits(text, end)
        }
        None => {
            let deadline = table.activation(entry).deadline;
            put_bytes(text, b" late ")?;
            put_digits(text, demand(config, table, entry, deadline))
        }
    }
}

/// Appends the line of an activation.
fn put_activation(
    text: &mut Vec<u8>,
    config: &Config,
    table: &Table,
    mode: ModeNo,
    entry: usize,
) -> Result<(), Memory>
    requires table { table.now ≡ table_of config.now (mode_at config.now mode.0) }
    requires mode { mode.0 < length config.now.modes }
    requires entry { entry < length table.now.mode.activations }
    ensures { OnOk result (text.new.items ≡ text.old.items
        ++ response_line config.now mode (row_of table.now.mode entry)) }
{
    let names = &config.parts().names;
    let row = table.activation(entry);
    put_name(text, names, Declared::Mode(mode))?;
    put_bytes(text, b" ")?;
    put_digits(text, row.offset)?;
    put_bytes(text, b" ")?;
    put_name(text, names, Declared::Task(row.task))?;
    put_response(text, config, table, mode, entry)?;
    put_bytes(text, b" deadline ")?;
    put_digits(text, row.deadline)?;
    put_bytes(text, b"\n")
}

/// Appends the lines of a mode.
fn put_mode(text: &mut Vec<u8>, config: &Config, table: &Table, mode: ModeNo) -> Result<(), Memory>
    requires table { table.now ≡ table_of config.now (mode_at config.now mode.0) }
    requires mode { mode.0 < length config.now.modes }
    ensures { OnOk result (text.new.items ≡ text.old.items ++ responses_text config.now mode) }
{
    for entry in 0..table.entries() {
        put_activation(text, config, table, mode, entry)?;
    }
    Ok(())
}

/// The line that says whether the script keeps its declared bounds.
fn bounds_line(kept: bool) -> &'static [u8]
    ensures { result.now ≡ bounds_line kept }
{
    if kept {
        b"bounds kept\n"
    } else {
        b"bounds broken\n"
    }
}

/// The line of the check's answer.
fn answer_line(answer: CheckAnswer) -> &'static [u8]
    ensures { result.now ≡ answer_line answer }
{
    match answer {
        CheckAnswer::Yes => b"check yes\n",
        CheckAnswer::No { mode: _, entry: _ } => b"check no\n",
    }
}

/// The text of the check of a configuration and a script that was made for it.
pub(crate) fn check_text(
    alloc: Global,
    config: &Config,
    script: &Script,
    tables: &Tables,
    answer: CheckAnswer,
) -> Result<Vec<u8>, Memory>
    requires script { IsScript config.now script.now }
    requires tables { tables.now ≡ tables_of config.now }
    requires answer { answer ≡ answer_of config.now }
    ensures { IfOk result (λ text. text.items ≡ check_text config.now script.now) }
{
    let mut text = Vec::new(alloc);
    for number in 0..config.parts().modes.len() {
        let mode = ModeNo(number as u16);
        put_mode(&mut text, config, tables.get(mode), mode)?;
    }
    put_bytes(&mut text, bounds_line(kept(config, script)))?;
    put_bytes(&mut text, answer_line(answer))?;
    Ok(text)
}
