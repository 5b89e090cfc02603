//! Who runs.

ghost use Rattle.std.specs.Prelude.{◌≡◌};
ghost use Rattle.tt_world.specs.Rows.{HasMode};
ghost use Rattle.tt_world.specs.declared.script.ScriptParts.{ScriptParts};
ghost use Rattle.tt_world.specs.Runners.{runner_of, owner_of, ran_before};
ghost use Rattle.stack_dispatch.specs.State.{IsFor};
ghost use Rattle.osek_idle.specs.Laws.{runner_in};

use crate::state::{State, row};
use tt_base::Owner;
use tt_world::{ConfigParts, Runner};

/// Whether the tick before had this owner.
pub(crate) fn ran_before(last: Option<Owner>, who: Owner) -> bool
    ensures { result ≡ ran_before last who }
{
    match (last, who) {
        (Some(Owner::Task(a)), Owner::Task(b)) => a.0 == b.0,
        (Some(Owner::Isr(a)), Owner::Isr(b)) => a.0 == b.0,
        (Some(Owner::Osek(a)), Owner::Osek(b)) => a.0 == b.0,
        (Some(Owner::Oisr(a)), Owner::Oisr(b)) => a.0 == b.0,
        (Some(Owner::ErrorHook), Owner::ErrorHook) => true,
        (Some(Owner::ShutdownHook), Owner::ShutdownHook) => true,
        (Some(Owner::Idle), Owner::Idle) => true,
        _ => false,
    }
}

/// The runner of an owner in idle time.
fn in_idle_time(owner: Option<Owner>) -> Runner
    ensures { result ≡ runner_in owner }
{
    match owner {
        Some(Owner::Osek(task)) => Runner::Osek(task),
        Some(Owner::Oisr(oisr)) => Runner::Oisr(oisr),
        _ => Runner::Nobody,
    }
}

impl State {
    /// Who runs: a time-triggered routine before an activation, an activation before the OSEK
    /// subsystem, and there a routine before a task; else nobody.
    pub(crate) fn runner(&self, config: &ConfigParts) -> Runner
        ensures { (s : ScriptParts) → IsFor config.now s self.now.beside
            → result ≡ runner_of config.now self.now.world }
    {
        match self.stack.runner() {
            Some(runner) => runner,
            None => in_idle_time(self.osek.picks()),
        }
    }

    /// The owner of a tick that a runner takes.
    pub(crate) fn owner(&self, config: &ConfigParts, runner: Runner) -> Owner
        requires { HasMode config.now self.now.world }
        ensures { result ≡ owner_of config.now self.now.world runner }
    {
        match runner {
            Runner::Isr(isr) => Owner::Isr(isr),
            Runner::Job(place) => Owner::Task(
                row(self.mode_of(config), self.stack.entry_at(place)).task,
            ),
            Runner::Oisr(oisr) => Owner::Oisr(oisr),
            Runner::Osek(task) => Owner::Osek(task),
            Runner::Nobody => Owner::Idle,
        }
    }
}
