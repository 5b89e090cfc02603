//! A run that is reported to a recorder.

ghost use Rattle.std.specs.Prelude.{◌≡◌, ◌≤◌, ◌+◌, IsTrue};
ghost use Rattle.tt_world.specs.ConfigRules.{IsConfig};
ghost use Rattle.tt_world.specs.Schedule.{schedule};
ghost use Rattle.stack_dispatch.specs.Counts.{most_moves, runs_in};
ghost use Rattle.stack_dispatch.specs.Reports.{IsMade, OnEnded, Ran, answered};
ghost use Rattle.stack_dispatch.specs.Told.{IsFresh};

use crate::log::Log;
use crate::report::{Report, Run};
use crate::run::{Last, run};
use crate::state::State;
use round_table::Tables;
use trace_text::Recorder;
use tt_base::{Ledger, Steps};
use tt_world::{ConfigParts, ScriptParts};

/// The answer of a run with this end, if it ended, and with this log.
fn answer<R: Recorder>(last: Option<Last>, log: &Log<R>) -> Run
    ensures value { result ≡ answered last log.now }
    ensures ready { OnEnded result (λ _. IsTrue (R.ready log.now.recorder.now)) }
{
    let Some(last) = last else {
        return Run::Failed;
    };
    if log.failed() {
        return Run::Failed;
    }
    Run::Ended(Report {
        ticks: last.tick,
        rounds: last.rounds,
        events: log.events(),
        activations: log.activations(),
        deepest: last.peaks.deepest,
        words: last.peaks.words,
        end: last.end,
    })
}

/// A run of parts that meet the rules, from the state before tick 0 on, reported to a log that has
/// no events yet.
fn run_logged<R: Recorder, L: Ledger>(
    config: &ConfigParts,
    script: &ScriptParts,
    tables: &Tables,
    state: &mut State,
    log: &mut Log<R>,
    steps: &mut Steps<L>,
) -> Run
    requires rules { IsConfig config.now }
    requires made { IsMade config.now script.now tables.now state.old }
    requires fresh { IsFresh config.now.names log.old }
    ensures same_recorder { log.new.recorder.ghost_name ≡ log.old.recorder.ghost_name }
    ensures ran { Ran R.Recorder (record { config = config.now; script = script.now })
        log.old.recorder.now log.new.recorder.now result }
    ensures few { steps.new ≤ steps.old + most_moves config.now script.now }
    ensures enough { OnEnded result
        (λ _. steps.old + runs_in (schedule config.now script.now) ≤ steps.new) }
{
    let last = run(config, script, tables, state, log, steps);
    answer(last, log)
}

/// A run of parts that meet the rules, from the state before tick 0 on, reported to a recorder. The
/// log is taken apart at the end, so that contracts see that the recorder is given back.
pub(crate) fn run_told<R: Recorder, L: Ledger>(
    config: &ConfigParts,
    script: &ScriptParts,
    tables: &Tables,
    mut state: State,
    recorder: &mut R,
    steps: &mut Steps<L>,
) -> Run
    requires rules { IsConfig config.now }
    requires made { IsMade config.now script.now tables.now state }
    requires ready { IsTrue (R.ready recorder.old) }
    ensures ran { Ran R.Recorder (record { config = config.now; script = script.now })
        recorder.old recorder.new result }
    ensures few { steps.new ≤ steps.old + most_moves config.now script.now }
    ensures enough { OnEnded result
        (λ _. steps.old + runs_in (schedule config.now script.now) ≤ steps.new) }
{
    let mut log = Log::new(recorder, &config.names);
    let answer = run_logged(config, script, tables, &mut state, &mut log, steps);
    let Log {
        recorder: _recorder,
        names: _,
        failed: _,
        events: _,
        activations: _,
    } = log;
    drop(state);
    answer
}
