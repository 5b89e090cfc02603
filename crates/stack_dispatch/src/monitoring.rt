//! Deadline monitoring: the checks of the activations of a round.

ghost use Rattle.std.specs.Prelude.{◌≡◌, ◌≤◌, length, slice_range};
ghost use Rattle.tt_world.specs.ConfigRules.{IsConfig};
ghost use Rattle.tt_world.specs.Moved.{Gives};
ghost use Rattle.round_table.specs.DueRows.{checks_of};
ghost use Rattle.stack_dispatch.specs.Checking.{Checks, checked_entries, monitored_entries};
ghost use Rattle.stack_dispatch.specs.Told.{Tells};

use crate::log::Log;
use crate::state::State;
use round_table::Table;
use trace_text::Recorder;
use tt_base::{Event, TaskNo, Tick};
use tt_stack::TtStack;
use tt_world::{ConfigParts, RunEnd};

/// Checks, at a tick, the activations of the entries in this half-open range of places of the
/// table's list of checks, up to the first that is missed, and answers its task. The activation of
/// an entry is at the place of its number.
#[tactic(auto, using(crate::proofs::Checking::entries_end), unfolding(crate::specs::Checking::checked_entries))]
fn check<R: Recorder>(
    at: Tick,
    stack: &TtStack,
    table: &Table,
    from: usize,
    to: usize,
    log: &mut Log<R>,
) -> Option<TaskNo>
    requires { to ≤ length (checks_of table.now) }
    ensures { Checks (Tells R.Recorder) log.old log.new result
        (checked_entries at table.now.mode stack.now.jobs
        (slice_range (checks_of table.now) from to)) }
{
    for place in from..to {
        let entry = table.check_at(place);
        let task = table.activation(entry).task;
        let met = stack.is_job_done(entry);
        log.tell(Event::Check { at, task, met });
        if !met {
            return Some(task);
        }
    }
    None
}

impl State {
    /// Checks the activations of the entries in this half-open range of places of the table's list
    /// of checks. After a missed check the hooks are called, and the run ends.
    pub(crate) fn monitor<R: Recorder>(
        &mut self,
        config: &ConfigParts,
        table: &Table,
        from: usize,
        to: usize,
        log: &mut Log<R>,
    ) -> Option<RunEnd>
        requires rules { IsConfig config.now }
        requires within { to ≤ length (checks_of table.now) }
        ensures gives { Gives (Tells R.Recorder) log.old log.new self.new.world result
            (monitored_entries config.now table.now.mode
            (slice_range (checks_of table.now) from to) self.old.world) }
        ensures beside { self.new.beside ≡ self.old.beside }
    {
        let task = check(self.tick, &self.stack, table, from, to, log)?;
        Some(self.miss(config, task, log))
    }
}
