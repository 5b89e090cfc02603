//! A run, from one instant at which something may be due to the next.

ghost use Rattle.std.specs.Prelude.{◌≡◌, ◌≤◌, ◌+◌, false, true, IfSome, MatchOption};
ghost use Rattle.tt_world.specs.ConfigRules.{IsConfig};
ghost use Rattle.tt_world.specs.ScriptRules.{IsScript};
ghost use Rattle.tt_world.specs.Schedule.{schedule};
ghost use Rattle.tt_world.specs.Status.{last_stamp, status_by, status_of};
ghost use Rattle.round_table.specs.TableRows.{tables_of};
ghost use Rattle.stack_dispatch.specs.Counts.{most_moves, runs_in};
ghost use Rattle.stack_dispatch.specs.First.{first_state};
ghost use Rattle.stack_dispatch.specs.Reports.{EndsAll, FailsWithin};
ghost use Rattle.stack_dispatch.specs.Told.{Tells};

use crate::ahead::Ahead;
use crate::log::Log;
use crate::peaks::Peaks;
use crate::state::State;
use round_table::Tables;
use trace_text::Recorder;
use tt_base::{Ledger, Steps, Tick};
use tt_world::{ConfigParts, RunEnd, ScriptParts};

/// How a run ended, and its results besides its events.
#[derive(Clone, Copy)]
pub(crate) struct Last {
    pub(crate) end: RunEnd,
    /// The tick of the last event.
    pub(crate) tick: Tick,
    /// The number of the last round that began.
    pub(crate) rounds: u32,
    pub(crate) peaks: Peaks,
}

/// A run of parts that meet the rules, from the state before tick 0 on: how it ended, or None where
/// the log failed first.
pub(crate) fn run<R: Recorder, L: Ledger>(
    config: &ConfigParts,
    script: &ScriptParts,
    tables: &Tables,
    state: &mut State,
    log: &mut Log<R>,
    steps: &mut Steps<L>,
) -> Option<Last>
    requires config { IsConfig config.now }
    requires script { IsScript config.now script.now }
    requires tables { tables.now ≡ tables_of config.now }
    requires state { state.old ≡ first_state config.now script.now }
    ensures same_recorder { log.new.recorder.ghost_name ≡ log.old.recorder.ghost_name }
    ensures ran { MatchOption result
        (FailsWithin R.Recorder log.old (schedule config.now script.now) log.new)
        (λ last. EndsAll R.Recorder config.now script.now log.old log.new last) }
    ensures few { steps.new ≤ steps.old + most_moves config.now script.now }
    ensures enough { IfSome result
        (λ _. steps.old + runs_in (schedule config.now script.now) ≤ steps.new) }
{
    let mut ahead = Ahead {
        next: 0,
        ended: true,
    };
    let mut peaks = Peaks {
        deepest: 0,
        words: 0,
    };
    'instants: loop {
        let passed = state.pass(config, script, tables, &mut ahead, &mut peaks, log, steps);
        if let Some(end) = passed.end {
            return Some(Last {
                end,
                tick: passed.last,
                rounds: state.round_number(),
                peaks,
            });
        }
        if log.failed() {
            return None;
        }
    }
}
