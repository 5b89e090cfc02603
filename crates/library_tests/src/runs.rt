//! Whole runs of small documents, reported to a list.

ghost use Rattle.std.specs.Prelude.{◌≡◌, ◌<◌, ◌^◌, length};

use crate::event_lines::example;
use crate::recorders::{RUN, text_of};
use stack_dispatch::{Bench, Report, Run};
use std::alloc::Global;
use std::marker::Brand;
use std::process::Abort;
use std::test::Fail;
use trace_text::ListRecorder;
use tt_base::{Blank, Ledger, Steps, TaskNo};
use tt_config::{Accepted, accept};
use tt_read::read;
use tt_world::RunEnd;

const ONE_TASK: &[u8] = b"osektime 1
round 10
mode m
task A 8
work 3
end
at 0 m activate A 5 stringent
start m
rounds 1
";

const TOO_LONG: &[u8] = b"osektime 1
round 10
mode m
task A 8
work 6
end
at 0 m activate A 5 stringent
start m
rounds 1
";

/// The bench of a document.
fn bench_of(alloc: Global, document: &[u8]) -> Result<Bench, Fail>
    requires { length document.now < 2 ^ 32 }
{
    let rows = read(alloc, document)?;
    let Accepted { config, script } = accept(alloc, rows)?;
    Ok(Bench::new(alloc, config, script)?)
}

/// The report of a run with one activation of 8 words, of eight events in one round.
fn report(ticks: u64, end: RunEnd) -> Report {
    Report {
        ticks,
        rounds: 1,
        events: 8,
        activations: 1,
        deepest: 1,
        words: 8,
        end,
    }
}

/// A run is reported to a list with room for all events, for all but one, and for none.
fn check_one_task<L: Ledger>(
    rt: &impl Abort,
    alloc: Global,
    steps: &mut Steps<L>,
) -> Result<(), Fail> {
    let names = example(alloc)?;
    let whole = Run::Ended(report(10, RunEnd::LastRound));
    for (room, answer) in [(8, whole), (7, Run::Failed), (0, Run::Failed)] {
        let mut list = ListRecorder::new(alloc, room)?;
        let bench = bench_of(alloc, ONE_TASK)?;
        assert_eq!(rt; bench.run_trace(&mut list, steps), answer);
        let noted = text_of(alloc, list.events(), &names)?;
        let first = text_of(alloc, &RUN[..room], &names)?;
        assert_eq!(rt; noted.as_bytes(), first.as_bytes());
    }
    Ok(())
}

/// A missed deadline ends the run.
fn check_too_long<L: Ledger>(
    rt: &impl Abort,
    alloc: Global,
    steps: &mut Steps<L>,
) -> Result<(), Fail> {
    let mut list = ListRecorder::new(alloc, 8)?;
    let run = bench_of(alloc, TOO_LONG)?.run_trace(&mut list, steps);
    assert_eq!(rt; run, Run::Ended(report(5, RunEnd::Missed(TaskNo(0)))));
    assert_eq!(rt; list.events().len(), 8);
    Ok(())
}

fn check_runs<L: Ledger>(rt: &impl Abort, alloc: Global, blank: Blank) -> Result<(), Fail>
    requires name { blank.name ≡ L.name }
    requires parts { blank.parts ≡ L.parts }
    requires whole { 0 < blank.parts }
{
    let mut steps = Steps::<L>::new(blank);
    check_one_task(rt, alloc, &mut steps)?;
    check_too_long(rt, alloc, &mut steps)
}

#[test]
fn runs_are_told_to_a_list(rt: HostRuntime) -> Result<(), Fail> {
    check_runs::<Brand>(&rt, rt.alloc(), Blank::new(1))
}
