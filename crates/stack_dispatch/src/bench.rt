//! The bench: an application with its script, whose run is reported to a recorder.

ghost use Rattle.std.specs.Prelude.{◌≡◌, ◌≤◌, ◌+◌, IfOk, IsTrue};
ghost use Rattle.tt_world.specs.ScriptRules.{IsScript};
ghost use Rattle.stack_dispatch.specs.Reports.{IsMade};

use crate::report::Run;
use crate::state::State;
use crate::told::run_told;
use round_table::Tables;
use std::alloc::Global;
use std::marker::Model;
use trace_text::Recorder;
use tt_base::{Ledger, Memory, Steps};
use tt_world::{Config, Script};

/// An application with its script, and all that its run needs. Contracts see the configuration and
/// the script.
#[derive(Drop)]
pub struct Bench {
    config: Config,
    script: Script,
    tables: Tables,
    state: State,
}

impl Model for Bench {
    ghost use Rattle.std.specs.Coded.{codes};
    ghost use Rattle.task_lang.specs.contracts.syntax.Stmt as stmt;
    ghost use Rattle.stack_dispatch.specs.Reports.{Benched, IsMade};

    ghost Value = { Benched };

    ghost coded = { Prim.hlevel (codes, stmt.the_row.coded) };

    ghost view = { λ b. record { config = b.config; script = b.script } };

    ghost invariant = { λ b. IsMade b.config b.script b.tables b.state };
}

/// The tables of a configuration, and the state before tick 0 of a run with a script.
fn tables_and_state(
    alloc: Global,
    config: &Config,
    script: &Script,
) -> Result<(Tables, State), Memory>
    requires { IsScript config.now script.now }
    ensures { IfOk result (λ made. IsMade config.now script.now made.0 made.1) }
{
    let tables = Tables::build(alloc, config)?;
    let state = State::new(alloc, config, script.parts())?;
    Ok((tables, state))
}

impl Bench {
    ghost use Rattle.tt_world.specs.Schedule.{schedule};
    ghost use Rattle.schedule_check.specs.declared.answers.CheckAnswer.TheVariants.{Yes};
    ghost use Rattle.schedule_check.specs.DeadlineLaws.{NoneMissed};
    ghost use Rattle.schedule_check.specs.Kept.{KeepsBounds};
    ghost use Rattle.schedule_check.specs.Responses.{answer_of};
    ghost use Rattle.stack_dispatch.specs.Counts.{most_moves, runs_in};
    ghost use Rattle.stack_dispatch.specs.Reports.{IsNotMissed, IsWithinBounds, KeepsLaws, OnEnded, Ran};

    /// A configuration on the bench, with a script that was made for it. The call makes all codes,
    /// tables and counters. Its only error is out of memory.
    pub fn new(alloc: Global, config: Config, script: Script) -> Result<Bench, Memory>
        requires { IsScript config script }
        ensures { IfOk result (λ bench. bench ≡ record { config = config; script = script }) }
    {
        match tables_and_state(alloc, &config, &script) {
            Ok((tables, state)) => Ok(Bench {
                config,
                script,
                tables,
                state,
            }),
            Err(Memory) => {
                drop(config);
                drop(script);
                Err(Memory)
            }
        }
    }

    /// Runs up to the first missed deadline, the call of ttShutdownOS or the last round, and
    /// reports each event to the recorder. It takes no memory. After an event that the recorder did
    /// not keep, it goes on to the next instant at which something may happen, and ends there. A
    /// step is counted for each move, that is, for the ticks that the one who runs takes at once.
    pub fn run_trace<R: Recorder, L: Ledger>(self, recorder: &mut R, steps: &mut Steps<L>) -> Run
        requires { IsTrue (R.ready recorder.old) }
        ensures ran { Ran R.Recorder self recorder.old recorder.new result }

        // The laws of the events of a run, which are read from the events alone.
        ensures laws { KeepsLaws self.config (schedule self.config self.script) }

        // Where the check of the configuration says yes and the script keeps its bounds, no
        // deadline is missed.
        ensures no_miss { answer_of self.config ≡ Yes → KeepsBounds self.config self.script
            → NoneMissed self.config (schedule self.config self.script) }
        ensures not_missed { answer_of self.config ≡ Yes → KeepsBounds self.config self.script
            → IsNotMissed result }

        // The stack is never deeper than the bound of the configuration, and never has more words.
        ensures bounded { OnEnded result (IsWithinBounds self.config) }

        // The moves that are counted are at most the statements that are begun, plus the instants
        // at which something is due, plus one.
        ensures few { steps.new ≤ steps.old + most_moves self.config self.script }

        // And they are at least the changes of the owner, where the run has ended.
        ensures enough { OnEnded result (λ _. steps.old
            + runs_in (schedule self.config self.script) ≤ steps.new) }
    {
        let Bench {
            config,
            script,
            tables,
            state,
        } = self;
        let run = run_told(
            config.parts(),
            script.parts(),
            &tables,
            state,
            recorder,
            steps,
        );
        drop(config);
        drop(script);
        drop(tables);
        run
    }
}
