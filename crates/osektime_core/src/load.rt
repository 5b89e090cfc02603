//! The run of a configuration and a script, and its summary.

ghost use Rattle.std.specs.Io.KnownBytes.{Appends};
ghost use Rattle.std.specs.Prelude.{◌≡◌, ◌≢◌, ◌≤◌, ◌+◌, IfOk, OnOk};
ghost use Rattle.tt_io.specs.Count.{Rose};
ghost use Rattle.tt_io.specs.Known.{AppendsPart};
ghost use Rattle.tt_base.specs.declared.names.NameKind.TheVariants as Named;
ghost use Rattle.tt_base.specs.declared.number.TaskNo.{TaskNo};
ghost use Rattle.tt_base.specs.Names.{count_of, names_of};
ghost use Rattle.tt_world.specs.Schedule.{schedule};
ghost use Rattle.tt_world.specs.ScriptRules.{IsScript};
ghost use Rattle.schedule_check.specs.Kept.{KeepsBounds};
ghost use Rattle.schedule_check.specs.Responses.{answer_of};
ghost use Rattle.schedule_check.specs.Windows.{depth_bound, words_bound};
ghost use Rattle.schedule_check.specs.declared.answers.CheckAnswer.TheVariants.{Yes};
ghost use Rattle.stack_dispatch.specs.Counts.{most_moves, runs_in};
ghost use Rattle.stack_dispatch.specs.Reports.{Reports};
ghost use Rattle.osektime_core.specs.Answer.{Responds, loaded_answer};
ghost use Rattle.osektime_core.specs.LoadText.{IsOutline, load_text, summary_by};
ghost use Rattle.osektime_core.specs.Moves.{CountsRun};
ghost use Rattle.osektime_core.specs.NoMiss.{NoneIsMissed};

use crate::Status;
use crate::answer::{put_text, run_status};
use crate::load_lines::{put_bounded, put_end, put_number};
use round_table::Tables;
use schedule_check::{depth_bound, words_bound};
use stack_dispatch::{Bench, Report, Run, RunEnd};
use std::alloc::Global;
use trace_text::Discard;
use tt_base::{Declared, Ledger, Memory, Name, Names, Steps, TaskNo};
use tt_io::Sink;
use tt_world::{Config, Script};

/// What the summary of a run needs of the configuration.
#[derive(Drop)]
struct Outline {
    /// The names of the tasks, by number.
    tasks: Vec<Name>,
    /// How many activations and time-triggered routines are unfinished at once at most, in every
    /// run.
    depth_bound: u64,
    /// How many words of stack these take at most, in every run.
    words_bound: u64,
}

/// The names of the tasks of an application, by number.
fn task_names(alloc: Global, names: &Names, tasks: usize) -> Result<Vec<Name>, Memory>
    requires all { count_of Named.Task names.now ≡ tasks }
    requires few { tasks ≤ 64 }
    ensures { IfOk result (λ list. list.items ≡ names_of Named.Task names.now) }
{
    let mut list = Vec::new(alloc);
    for number in 0..tasks {
        if let Some(name) = names.get(Declared::Task(TaskNo(number as u16))) {
            list.push(name)?;
        }
    }
    Ok(list)
}

/// The outline of a configuration.
fn outline_of(alloc: Global, config: &Config) -> Result<Outline, Memory>
    ensures { IfOk result (IsOutline config.now) }
{
    let parts = config.parts();
    let tables = Tables::build(alloc, config)?;
    Ok(Outline {
        tasks: task_names(alloc, &parts.names, parts.tasks.len())?,
        depth_bound: depth_bound(config, &tables),
        words_bound: words_bound(config, &tables),
    })
}

/// The summary of a run.
fn load_text(alloc: Global, outline: &Outline, report: &Report) -> Result<Vec<u8>, Memory>
    ensures { IfOk result (λ text. text.items ≡ load_text outline.now.tasks.items
        (summary_by report.now outline.now.depth_bound outline.now.words_bound)) }
{
    let mut text = Vec::new(alloc);
    put_number(&mut text, b"ticks", report.ticks)?;
    put_number(&mut text, b"rounds", u64::from(report.rounds))?;
    put_number(&mut text, b"events", report.events)?;
    put_number(&mut text, b"activations", report.activations)?;
    put_bounded(&mut text, b"depth", report.deepest, outline.depth_bound)?;
    put_bounded(&mut text, b"words", report.words, outline.words_bound)?;
    put_end(
        &mut text,
        outline.tasks.as_slice(),
        report.end,
        report.ticks,
    )?;
    Ok(text)
}

/// Runs a configuration with a script that was made for it. The events are not kept.
fn run_report<L: Ledger>(
    alloc: Global,
    config: Config,
    script: Script,
    steps: &mut Steps<L>,
) -> Result<Report, Memory>
    requires { IsScript config script }
    ensures reports { IfOk result (Reports config script) }
    ensures no_miss { answer_of config ≡ Yes → KeepsBounds config script
        → IfOk result (λ report. (task : TaskNo) → report.end ≢ RunEnd.Missed task) }
    ensures few { steps.new ≤ steps.old + most_moves config script }
    ensures enough { OnOk result (steps.old + runs_in (schedule config script) ≤ steps.new) }
{
    let bench = Bench::new(alloc, config, script)?;
    let mut recorder = Discard::new();
    match bench.run_trace(&mut recorder, steps) {
        Run::Ended(report) => Ok(report),
        Run::Failed => unreachable!(),
    }
}

/// Runs a configuration with a script that was made for it, and writes its summary.
pub(crate) fn write_load<O: Sink, L: Ledger>(
    alloc: Global,
    config: Config,
    script: Script,
    output: &mut O,
    steps: &mut Steps<L>,
) -> Status
    requires { IsScript config script }
    ensures responds { Responds (loaded_answer config script) result (output.new ≡ output.old)
        (O.written output.old) (O.written output.new) (O.faults output.old) (O.faults output.new) }
    ensures no_miss { answer_of config ≡ Yes → KeepsBounds config script → NoneIsMissed result }
    ensures moves { CountsRun (record { config = config; script = script }) result
        steps.old steps.new }
{
    let Ok(outline) = outline_of(alloc, &config) else {
        drop(config);
        drop(script);
        return Status::Memory;
    };
    let Ok(report) = run_report(alloc, config, script, steps) else {
        return Status::Memory;
    };
    match load_text(alloc, &outline, &report) {
        Ok(text) => put_text(&text, run_status(report.end, report.ticks), output),
        Err(_) => Status::Memory,
    }
}
