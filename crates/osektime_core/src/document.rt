//! What is written for a document that was taken whole.

ghost use Rattle.std.specs.Io.KnownBytes.{Appends};
ghost use Rattle.std.specs.Prelude.{◌≡◌, ◌≢◌, ◌≤◌, ◌<◌, ◌^◌, length};
ghost use Rattle.tt_io.specs.Count.{Rose};
ghost use Rattle.tt_io.specs.Known.{AppendsPart};
ghost use Rattle.tt_rows.specs.Sound.{AreSound};
ghost use Rattle.tt_read.specs.Document.{document_of, canonical_text};
ghost use Rattle.tt_config.specs.Broken.{broken_rule};
ghost use Rattle.tt_world.specs.ScriptRules.{IsScript};
ghost use Rattle.osektime_core.specs.TableText.{table_text};
ghost use Rattle.osektime_core.specs.Answer.{Responds, check_answer, check_status, checked_answer, document_answer, load_answer, rows_answer, rule_answer, table_answer, trace_answer};
ghost use Rattle.osektime_core.specs.Moves.{CountsMoves, bench_of, document_run, rows_run};
ghost use Rattle.osektime_core.specs.NoMiss.{AreSchedulable, IsSchedulable, NoneIsMissed};

use crate::answer::put_text;
use crate::check::check_text;
use crate::load::write_load;
use crate::refusal::{form_line, rule_line};
use crate::table::table_text;
use crate::trace::write_trace;
use crate::{Command, Status};
use round_table::Tables;
use schedule_check::CheckAnswer;
use std::alloc::Global;
use tt_base::{Ledger, Memory, Steps};
use tt_config::{AcceptFault, Accepted, accept};
use tt_io::Sink;
use tt_read::{FormFault, read, show};
use tt_rows::Rows;
use tt_world::{Config, Script};

/// Writes the line of a broken rule.
fn put_rule<O: Sink>(alloc: Global, number: u8, line: u32, output: &mut O) -> Status
    ensures { Responds (rule_answer number line) result (output.new ≡ output.old)
        (O.written output.old) (O.written output.new) (O.faults output.old) (O.faults output.new) }
{
    match rule_line(alloc, number, line) {
        Ok(text) => put_text(text.as_bytes(), Status::Rule { number, line }, output),
        Err(_) => Status::Memory,
    }
}

/// Runs rows that meet the rules, and writes the text of the schedule. Else says which rule they
/// break.
fn trace<O: Sink, L: Ledger>(
    alloc: Global,
    rows: Rows,
    output: &mut O,
    steps: &mut Steps<L>,
) -> Status
    requires { AreSound rows }
    ensures responds { Responds (trace_answer (broken_rule rows) rows) result
        (output.new ≡ output.old)
        (O.written output.old) (O.written output.new) (O.faults output.old) (O.faults output.new) }
    ensures no_miss { AreSchedulable rows → NoneIsMissed result }
    ensures moves { CountsMoves (bench_of (broken_rule rows) rows) result steps.old steps.new }
{
    match accept(alloc, rows) {
        Ok(Accepted { config, script }) => write_trace(alloc, config, script, output, steps),
        Err(AcceptFault::Memory) => Status::Memory,
        Err(AcceptFault::Rule { number, line }) => put_rule(alloc, number, line, output),
    }
}

/// Runs rows that meet the rules, and writes the summary of the run. Else says which rule they
/// break.
fn load<O: Sink, L: Ledger>(
    alloc: Global,
    rows: Rows,
    output: &mut O,
    steps: &mut Steps<L>,
) -> Status
    requires { AreSound rows }
    ensures responds { Responds (load_answer (broken_rule rows) rows) result
        (output.new ≡ output.old)
        (O.written output.old) (O.written output.new) (O.faults output.old) (O.faults output.new) }
    ensures no_miss { AreSchedulable rows → NoneIsMissed result }
    ensures moves { CountsMoves (bench_of (broken_rule rows) rows) result steps.old steps.new }
{
    match accept(alloc, rows) {
        Ok(Accepted { config, script }) => write_load(alloc, config, script, output, steps),
        Err(AcceptFault::Memory) => Status::Memory,
        Err(AcceptFault::Rule { number, line }) => put_rule(alloc, number, line, output),
    }
}

/// Writes the dispatcher tables of a configuration.
fn write_table<O: Sink>(alloc: Global, config: &Config, output: &mut O) -> Status
    ensures { Responds (record { text = table_text config.now; status = Status.Done }) result
        (output.new ≡ output.old)
        (O.written output.old) (O.written output.new) (O.faults output.old) (O.faults output.new) }
{
    match table_text(alloc, config) {
        Ok(text) => put_text(&text, Status::Done, output),
        Err(_) => Status::Memory,
    }
}

/// Writes the dispatcher tables of rows that meet the rules. Else says which rule they break.
fn table<O: Sink>(alloc: Global, rows: Rows, output: &mut O) -> Status
    requires { AreSound rows }
    ensures { Responds (table_answer (broken_rule rows) rows) result (output.new ≡ output.old)
        (O.written output.old) (O.written output.new) (O.faults output.old) (O.faults output.new) }
{
    match accept(alloc, rows) {
        Ok(accepted) => {
            let status = write_table(alloc, &accepted.config, output);
            drop(accepted);
            status
        }
        Err(AcceptFault::Memory) => Status::Memory,
        Err(AcceptFault::Rule { number, line }) => put_rule(alloc, number, line, output),
    }
}

/// The status of the schedule check by its answer.
fn check_status(answer: CheckAnswer) -> Status
    ensures { result ≡ check_status answer }
{
    match answer {
        CheckAnswer::Yes => Status::Done,
        CheckAnswer::No { mode, entry } => Status::CheckNo { mode, entry },
    }
}

/// Checks the schedule of a configuration, and writes the text of the check.
fn write_check<O: Sink>(alloc: Global, config: &Config, script: &Script, output: &mut O) -> Status
    requires { IsScript config.now script.now }
    ensures { Responds (checked_answer config.now script.now) result (output.new ≡ output.old)
        (O.written output.old) (O.written output.new) (O.faults output.old) (O.faults output.new) }
{
    let Ok(tables) = Tables::build(alloc, config) else {
        return Status::Memory;
    };
    let answer = schedule_check::check(config, &tables);
    match check_text(alloc, config, script, &tables, answer) {
        Ok(text) => put_text(&text, check_status(answer), output),
        Err(_) => Status::Memory,
    }
}

/// Writes the schedule check of rows that meet the rules. Else says which rule they break.
fn check<O: Sink>(alloc: Global, rows: Rows, output: &mut O) -> Status
    requires { AreSound rows }
    ensures { Responds (check_answer (broken_rule rows) rows) result (output.new ≡ output.old)
        (O.written output.old) (O.written output.new) (O.faults output.old) (O.faults output.new) }
{
    match accept(alloc, rows) {
        Ok(accepted) => {
            let status = write_check(alloc, &accepted.config, &accepted.script, output);
            drop(accepted);
            status
        }
        Err(AcceptFault::Memory) => Status::Memory,
        Err(AcceptFault::Rule { number, line }) => put_rule(alloc, number, line, output),
    }
}

/// Writes the canonical text of rows.
fn shown<O: Sink>(rows: &Rows, output: &mut O) -> Status
    ensures { Responds (record { text = canonical_text rows.now; status = Status.Done }) result
        (output.new ≡ output.old)
        (O.written output.old) (O.written output.new) (O.faults output.old) (O.faults output.new) }
{
    match show(rows, output) {
        Ok(()) => Status::Done,
        Err(_) => Status::WriteFault,
    }
}

/// Answers a command for the rows of its document.
fn respond_to_rows<O: Sink, L: Ledger>(
    alloc: Global,
    command: Command,
    rows: Rows,
    output: &mut O,
    steps: &mut Steps<L>,
) -> Status
    requires { AreSound rows }
    ensures responds { Responds (rows_answer command rows) result (output.new ≡ output.old)
        (O.written output.old) (O.written output.new) (O.faults output.old) (O.faults output.new) }
    ensures no_miss { AreSchedulable rows → NoneIsMissed result }
    ensures moves { CountsMoves (rows_run command rows) result steps.old steps.new }
{
    match command {
        Command::Trace => trace(alloc, rows, output, steps),
        Command::Show => shown(&rows, output),
        Command::Table => table(alloc, rows, output),
        Command::Check => check(alloc, rows, output),
        Command::Load | Command::Bulk(_) => load(alloc, rows, output, steps),
    }
}

/// Answers a command for the bytes of its document, which are given up once they are read.
pub(crate) fn respond<O: Sink, L: Ledger>(
    alloc: Global,
    command: Command,
    bytes: Vec<u8>,
    output: &mut O,
    steps: &mut Steps<L>,
) -> Status
    requires { length bytes.items ≤ 2 ^ 20 }
    ensures responds { Responds (document_answer command (document_of bytes.items)) result
        (output.new ≡ output.old)
        (O.written output.old) (O.written output.new) (O.faults output.old) (O.faults output.new) }
    ensures no_miss { IsSchedulable bytes.items → NoneIsMissed result }
    ensures moves { CountsMoves (document_run command (document_of bytes.items)) result
        steps.old steps.new }
{
    let document = read(alloc, &bytes);
    drop(bytes);
    match document {
        Ok(rows) => respond_to_rows(alloc, command, rows, output, steps),
        Err(FormFault::Memory) => Status::Memory,
        Err(FormFault::Form { line, kind }) => match form_line(alloc, line, kind) {
            Ok(text) => put_text(text.as_bytes(), Status::Form { line, kind }, output),
            Err(_) => Status::Memory,
        },
    }
}
