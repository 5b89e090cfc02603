//! The run of a configuration and a script, and its trace.

ghost use Rattle.std.specs.Io.KnownBytes.{Appends};
ghost use Rattle.std.specs.Prelude.{◌≡◌, ◌≢◌, ◌≤◌, ◌+◌, IfOk, IsTrue, OnOk, OnErr};
ghost use Rattle.tt_io.specs.Count.{Rose};
ghost use Rattle.tt_io.specs.Known.{AppendsPart};
ghost use Rattle.trace_text.specs.Lines.{text_of};
ghost use Rattle.trace_text.specs.SinkRecorder.{sink_of, takes};
ghost use Rattle.tt_base.specs.declared.number.TaskNo.{TaskNo};
ghost use Rattle.tt_world.specs.Schedule.{schedule};
ghost use Rattle.tt_world.specs.ScriptRules.{IsScript};
ghost use Rattle.schedule_check.specs.Kept.{KeepsBounds};
ghost use Rattle.schedule_check.specs.Responses.{answer_of};
ghost use Rattle.schedule_check.specs.declared.answers.CheckAnswer.TheVariants.{Yes};
ghost use Rattle.stack_dispatch.specs.Counts.{most_moves, runs_in};
ghost use Rattle.stack_dispatch.specs.Reports.{IsNotMissed, OnEnded, Reports};
ghost use Rattle.osektime_core.specs.Answer.{Responds, run_answer};
ghost use Rattle.osektime_core.specs.Moves.{CountsRun};
ghost use Rattle.osektime_core.specs.NoMiss.{NoneIsMissed};
ghost use Rattle.osektime_core.specs.Runs.{PutsRun};

use crate::Status;
use crate::answer::run_status;
use stack_dispatch::{Bench, Report, Run, RunEnd};
use std::alloc::Global;
use trace_text::SinkRecorder;
use tt_base::{Ledger, Steps};
use tt_io::{Sink, WriteFault};
use tt_world::{Config, Script};

/// Runs a bench, and puts the lines of its events, up to a fault.
fn put_run<O: Sink, L: Ledger>(
    bench: Bench,
    recorder: &mut SinkRecorder<'_, O>,
    steps: &mut Steps<L>,
) -> Run
    requires { IsTrue (takes recorder.old) }
    ensures text { PutsRun O.written bench.config bench.script recorder.old recorder.new result }
    ensures cause { result ≡ Run.Failed
        → Rose (O.faults (sink_of recorder.old).now) (O.faults (sink_of recorder.new).now) }
    ensures never_falls { O.faults (sink_of recorder.old).now
        ≤ O.faults (sink_of recorder.new).now }
    ensures no_miss { answer_of bench.config ≡ Yes → KeepsBounds bench.config bench.script
        → IsNotMissed result }
    ensures few { steps.new ≤ steps.old + most_moves bench.config bench.script }
    ensures enough { OnEnded result
        (λ _. steps.old + runs_in (schedule bench.config bench.script) ≤ steps.new) }
{
    bench.run_trace(recorder, steps)
}

/// Runs a bench, and writes the lines of its events. At a fault a proper prefix of them was
/// written.
fn write_run<O: Sink, L: Ledger>(
    bench: Bench,
    output: &mut O,
    steps: &mut Steps<L>,
) -> Result<Report, WriteFault>
    ensures ok { OnOk result (Appends (O.written output.old) (O.written output.new)
        (text_of bench.config.names (schedule bench.config bench.script))) }
    ensures report { IfOk result (Reports bench.config bench.script) }
    ensures no_miss { answer_of bench.config ≡ Yes → KeepsBounds bench.config bench.script
        → IfOk result (λ report. (task : TaskNo) → report.end ≢ RunEnd.Missed task) }
    ensures part { OnErr result (AppendsPart (O.written output.old) (O.written output.new)
        (text_of bench.config.names (schedule bench.config bench.script))) }
    ensures cause { OnErr result (Rose (O.faults output.old) (O.faults output.new)) }
    ensures never_falls { O.faults output.old ≤ O.faults output.new }
    ensures few { steps.new ≤ steps.old + most_moves bench.config bench.script }
    ensures enough { OnOk result
        (steps.old + runs_in (schedule bench.config bench.script) ≤ steps.new) }
{
    let mut recorder = SinkRecorder::new(output);
    let report = match put_run(bench, &mut recorder, steps) {
        Run::Ended(report) => report,
        Run::Failed => return Err(WriteFault),
    };
    match recorder.finish() {
        Ok(()) => Ok(report),
        Err(fault) => Err(fault),
    }
}

/// Runs a configuration with a script that was made for it, and writes the lines of the run.
pub(crate) fn write_trace<O: Sink, L: Ledger>(
    alloc: Global,
    config: Config,
    script: Script,
    output: &mut O,
    steps: &mut Steps<L>,
) -> Status
    requires { IsScript config script }
    ensures responds { Responds (run_answer config script) result (output.new ≡ output.old)
        (O.written output.old) (O.written output.new) (O.faults output.old) (O.faults output.new) }
    ensures no_miss { answer_of config ≡ Yes → KeepsBounds config script → NoneIsMissed result }
    ensures moves { CountsRun (record { config = config; script = script }) result
        steps.old steps.new }
{
    let Ok(bench) = Bench::new(alloc, config, script) else {
        return Status::Memory;
    };
    match write_run(bench, output, steps) {
        Ok(report) => run_status(report.end, report.ticks),
        Err(_) => Status::WriteFault,
    }
}
