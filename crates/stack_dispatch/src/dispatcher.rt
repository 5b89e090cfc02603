//! The opening of an instant, and the instants that are passed at once.

ghost use Rattle.std.specs.Prelude.{◌≡◌, ◌+◌, ◌<◌, ◌≤◌, ◌⊎◌, ◌^◌, length, None};
ghost use Rattle.tt_world.specs.Moved.{Gives, chain};
ghost use Rattle.tt_world.specs.Opening.{due as due_parts, later_parts, opening};
ghost use Rattle.tt_world.specs.Rows.{offset_of};
ghost use Rattle.tt_world.proofs.Late.{Late};
ghost use Rattle.tt_world.proofs.Openings.{activated_in};
ghost use Rattle.tt_world.proofs.Parts.{Before, Begun};
ghost use Rattle.tt_world.proofs.Time.{Timed};
ghost use Rattle.round_table.specs.TableRows.{tables_of};
ghost use Rattle.stack_dispatch.specs.Counts.{Counted, FewMoves, IsDueAt};
ghost use Rattle.stack_dispatch.specs.Jumps.{IsOnSchedule, Passes};
ghost use Rattle.stack_dispatch.specs.Peaks.{peaks_before};
ghost use Rattle.stack_dispatch.specs.State.{IsFor, fixed_in};
ghost use Rattle.stack_dispatch.specs.Served.{AreRowsFree, CanActivate, CanPass, Foresees, HasSources, IsAhead, IsOpened, IsServed, IsTableOf, StandsAt};
ghost use Rattle.stack_dispatch.specs.Told.{Tells};

use crate::ahead::Ahead;
use crate::log::Log;
use crate::peaks::Peaks;
use crate::state::State;
use crate::took::Passed;
use round_table::{Due, Table, Tables};
use trace_text::Recorder;
use tt_base::{Event, Ledger, Steps, Tick};
use tt_world::{ConfigParts, RunEnd, ScriptParts};

impl State {
    /// The table of the present mode.
    fn table<'a>(&self, config: &ConfigParts, tables: &'a Tables) -> &'a Table
        requires modes { self.now.beside.modes ≡ length config.now.modes }
        requires tables { tables.now ≡ tables_of config.now }
        ensures { IsTableOf config.now result.now self.now.world }
    {
        tables.get(self.round.mode())
    }

    /// Activates the task of an entry of the table, if there is one.
    fn activate_entry<R: Recorder>(
        &mut self,
        config: &ConfigParts,
        table: &Table,
        entry: Option<usize>,
        log: &mut Log<R>,
    )
        requires { CanActivate config.now table.now entry self.old }
        ensures gives { Gives (Tells R.Recorder) log.old log.new self.new.world None
            (activated_in config.now table.now.mode entry self.old.world) }
        ensures beside { self.new.beside ≡ self.old.beside }
    {
        let Some(entry) = entry else {
            return;
        };
        let task = table.activation(entry).task;
        self.stack.activate(task);
        log.tell(Event::Activate {
            at: self.tick,
            task,
        });
    }

    /// What is due at the present offset and tick: the checks, the enables, the arrivals, the
    /// acceptances and the activation.
    fn do_due<R: Recorder>(
        &mut self,
        config: &ConfigParts,
        script: &ScriptParts,
        table: &Table,
        due: Due,
        log: &mut Log<R>,
    ) -> Option<RunEnd>
        requires served { IsServed Begun config.now script.now self.old.world }
        requires fixed { IsFor config.now script.now self.old.beside }
        requires table { IsTableOf config.now table.now self.old.world }
        requires stands { StandsAt table.now (offset_of self.old.world) due }
        requires sources { HasSources config.now script.now self.old.world.tick self.old }
        ensures gives { Gives (Tells R.Recorder) log.old log.new self.new.world result
            (chain (due_parts config.now script.now) self.old.world) }
        ensures fixed { fixed_in self.new.beside ≡ fixed_in self.old.beside }
        ensures opened { None ≡ result
            → IsOpened config.now script.now self.old.world.tick self.new }
    {
        if let Some(end) = self.monitor(config, table, due.checks_from, due.checks_to, log) {
            return Some(end);
        }
        self.enable_all(table, due.enables_from, due.enables_to, log);
        self.arrive_all(config, script, log);
        self.accept_all(config, script, log);
        self.activate_entry(config, table, due.activation, log);
        None
    }

    /// What is due at the present offset and tick, by the table of the present mode.
    fn open_due<R: Recorder>(
        &mut self,
        config: &ConfigParts,
        script: &ScriptParts,
        tables: &Tables,
        log: &mut Log<R>,
    ) -> Option<RunEnd>
        requires served { IsServed Begun config.now script.now self.old.world }
        requires fixed { IsFor config.now script.now self.old.beside }
        requires tables { tables.now ≡ tables_of config.now }
        requires sources { HasSources config.now script.now self.old.world.tick self.old }
        ensures gives { Gives (Tells R.Recorder) log.old log.new self.new.world result
            (chain (due_parts config.now script.now) self.old.world) }
        ensures fixed { fixed_in self.new.beside ≡ fixed_in self.old.beside }
        ensures opened { None ≡ result
            → IsOpened config.now script.now self.old.world.tick self.new }
    {
        let table = self.table(config, tables);
        let due = table.due(self.offset());
        self.do_due(config, script, table, due, log)
    }

    /// The opening of an instant after tick 0.
    fn open_later<R: Recorder>(
        &mut self,
        config: &ConfigParts,
        script: &ScriptParts,
        tables: &Tables,
        log: &mut Log<R>,
    ) -> Option<RunEnd>
        requires served { IsServed Before config.now script.now self.old.world }
        requires late { Late 0 config.now self.old.world }
        requires fixed { IsFor config.now script.now self.old.beside }
        requires tables { tables.now ≡ tables_of config.now }
        requires sources { HasSources config.now script.now self.old.world.tick self.old }
        ensures gives { Gives (Tells R.Recorder) log.old log.new self.new.world result
            (chain (later_parts config.now script.now) self.old.world) }
        ensures fixed { fixed_in self.new.beside ≡ fixed_in self.old.beside }
        ensures opened { None ≡ result
            → IsOpened config.now script.now self.old.world.tick self.new }
    {
        self.latch(config, log);
        let table = self.table(config, tables);
        if let Some(end) = self.end_round(config, script, table, log) {
            return Some(end);
        }
        self.open_due(config, script, tables, log)
    }

    /// The opening of an instant.
    fn open<R: Recorder>(
        &mut self,
        config: &ConfigParts,
        script: &ScriptParts,
        tables: &Tables,
        log: &mut Log<R>,
    ) -> Option<RunEnd>
        requires served { IsServed Before config.now script.now self.old.world }
        requires late { Late 0 config.now self.old.world }
        requires fixed { IsFor config.now script.now self.old.beside }
        requires tables { tables.now ≡ tables_of config.now }
        requires sources { HasSources config.now script.now self.old.world.tick self.old }
        ensures gives { Gives (Tells R.Recorder) log.old log.new self.new.world result
            (opening config.now script.now self.old.world) }
        ensures fixed { fixed_in self.new.beside ≡ fixed_in self.old.beside }
        ensures opened { None ≡ result
            → IsOpened config.now script.now self.old.world.tick self.new }
    {
        if self.tick != 0 {
            return self.open_later(config, script, tables, log);
        }
        self.begin(script, log);
        self.open_due(config, script, tables, log)
    }

    /// The tick of the next expiry point of the round; where there is none, the greatest tick.
    fn next_row(&self, config: &ConfigParts, tables: &Tables) -> Tick
        requires modes { self.now.beside.modes ≡ length config.now.modes }
        requires tables { tables.now ≡ tables_of config.now }
        requires started { self.now.world.start ≤ self.now.world.tick }
        requires number { self.now.world.tick + 1 < 2 ^ 64 }
        ensures free { AreRowsFree config.now self.now.world result }
        ensures later { self.now.world.tick < result }
        ensures due { (s : ScriptParts)
            → IsDueAt config.now s self.now.world result ⊎ (u64.MAX ≤ result) }
    {
        let table = self.table(config, tables);
        match table.next_after(self.offset()) {
            Some(offset) => self.round.start().saturating_add(offset),
            None => Tick::MAX,
        }
    }

    /// The next tick after the present one at which something is due.
    fn next_due(&self, config: &ConfigParts, script: &ScriptParts, tables: &Tables) -> Tick
        requires fixed { IsFor config.now script.now self.now.beside }
        requires timed { Timed Begun config.now script.now self.now.world }
        requires sources { HasSources config.now script.now (self.now.world.tick + 1) self.now }
        requires number { self.now.world.tick + 1 < 2 ^ 64 }
        requires tables { tables.now ≡ tables_of config.now }
        ensures ahead { IsAhead config.now 1 self.now result }
        ensures later { self.now.world.tick < result }
        ensures due { IsDueAt config.now script.now self.now.world result }
    {
        let own = self.next_row(config, tables).min(self.round.next_own());
        match self.gates.next_arrival() {
            Some(tick) => own.min(tick),
            None => own,
        }
    }

    /// The opening of an instant at which nothing is due: the acceptances, where an owner has
    /// ended.
    fn open_idle<R: Recorder>(
        &mut self,
        config: &ConfigParts,
        script: &ScriptParts,
        ahead: Ahead,
        log: &mut Log<R>,
    )
        requires can { CanPass config.now script.now self.old }
        requires foresees { Foresees config.now script.now self.old ahead }
        requires idle { self.old.world.tick < ahead.next }
        ensures gives { Gives (Tells R.Recorder) log.old log.new self.new.world None
            (opening config.now script.now self.old.world) }
        ensures beside { self.new.beside ≡ self.old.beside }
        ensures opened { IsOpened config.now script.now self.old.world.tick self.new }
        ensures ahead { IsAhead config.now 1 self.new ahead.next }
        ensures later { self.new.world.tick < ahead.next }
        ensures due { IsDueAt config.now script.now self.new.world ahead.next }
    {
        if ahead.ended {
            self.accept_all(config, script, log);
        }
    }

    /// The opening of an instant, which looks at nothing where nothing is due.
    fn open_ahead<R: Recorder>(
        &mut self,
        config: &ConfigParts,
        script: &ScriptParts,
        tables: &Tables,
        ahead: &mut Ahead,
        log: &mut Log<R>,
    ) -> Option<RunEnd>
        requires can { CanPass config.now script.now self.old }
        requires tables { tables.now ≡ tables_of config.now }
        requires foresees { Foresees config.now script.now self.old ahead.old }
        ensures gives { Gives (Tells R.Recorder) log.old log.new self.new.world result
            (opening config.now script.now self.old.world) }
        ensures fixed { fixed_in self.new.beside ≡ fixed_in self.old.beside }
        ensures opened { None ≡ result
            → IsOpened config.now script.now self.old.world.tick self.new }
        ensures ahead { None ≡ result → IsAhead config.now 1 self.new ahead.new.next }
        ensures later { None ≡ result → self.new.world.tick < ahead.new.next }
        ensures due { None ≡ result
            → IsDueAt config.now script.now self.new.world ahead.new.next }
    {
        if self.tick < ahead.next {
            self.open_idle(config, script, *ahead, log);
            return None;
        }
        if let Some(end) = self.open(config, script, tables, log) {
            return Some(end);
        }
        ahead.next = self.next_due(config, script, tables);
        None
    }

    /// Passes the instants from the present one on: until something is due, or until the `work` at
    /// the front of the one who runs ends; one instant where another statement is there.
    pub(crate) fn pass<R: Recorder, L: Ledger>(
        &mut self,
        config: &ConfigParts,
        script: &ScriptParts,
        tables: &Tables,
        ahead: &mut Ahead,
        peaks: &mut Peaks,
        log: &mut Log<R>,
        steps: &mut Steps<L>,
    ) -> Passed
        requires can { CanPass config.now script.now self.old }
        requires on_schedule { IsOnSchedule config.now script.now self.old.world }
        requires tables { tables.now ≡ tables_of config.now }
        requires foresees { Foresees config.now script.now self.old ahead.old }
        ensures passes { Passes (Tells R.Recorder) config.now script.now self.old.world.tick
            result.last log.old log.new self.new.world result.end }
        ensures fixed { fixed_in self.new.beside ≡ fixed_in self.old.beside }
        ensures sources { None ≡ result.end
            → HasSources config.now script.now (result.last + 1) self.new }
        ensures foresees { None ≡ result.end → Foresees config.now script.now self.new ahead.new }
        ensures peaks { peaks.old ≡ peaks_before config.now script.now self.old.world.tick
            → peaks.new ≡ peaks_before config.now script.now (result.last + 1) }
        ensures few { FewMoves config.now script.now self.old.world.tick result.last steps.old
            steps.new }
        ensures enough { Passes Counted config.now script.now self.old.world.tick result.last
            steps.old steps.new self.new.world result.end }
    {
        let first = self.tick();
        if let Some(end) = self.open_ahead(config, script, tables, ahead, log) {
            return Passed {
                end: Some(end),
                last: first,
            };
        }
        peaks.raise(config, self);
        let runner = self.runner(config);
        let k = self.jump_to(config, script, runner, ahead.next);
        let ticked = self.step(config, script, runner, k, log, steps);
        ahead.ended = ticked.ended;
        Passed {
            end: ticked.end,
            last: ticked.last,
        }
    }
}
