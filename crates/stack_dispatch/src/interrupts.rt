//! Interrupts at an instant: enables, arrivals and acceptances.

ghost use Rattle.std.specs.Prelude.{◌≡◌, ◌+◌, ◌≤◌, ◌<◌, List, [], ◌∷◌, None, false, length, option_map, replicate, slice_range};
ghost use Rattle.std.specs.Option.{ForSome};
ghost use Rattle.task_lang.specs.declared.syntax.Stmt.{Stmt};
ghost use Rattle.tt_base.specs.declared.event.Event.TheVariants as event;
ghost use Rattle.tt_world.specs.ConfigRules.{IsConfig};
ghost use Rattle.tt_world.specs.Gates.{enable, acceptances, arrivals, source_owner};
ghost use Rattle.tt_world.specs.Moved.{Gives};
ghost use Rattle.tt_world.specs.ScriptRules.{IsScript};
ghost use Rattle.isr_window.specs.Arrived.{arrived_at};
ghost use Rattle.isr_window.specs.Window.{first_due, next_tick, taking, first_ready, accepting};
ghost use Rattle.isr_window.specs.Played.{arrival_event, begun, AreLeftFrom, AreSourcesOf, AreUnfinished};
ghost use Rattle.osek_idle.specs.Subsystem.{lefts, IsSettled};
ghost use Rattle.osek_idle.specs.Standing.{subsystem_of};
ghost use Rattle.round_table.specs.DueRows.{enables_of};
ghost use Rattle.stack_dispatch.specs.Due.{enables_by, AreMarked, CanBegin, NoneAccepted};
ghost use Rattle.stack_dispatch.specs.State.{IsFor, fixed_in, window_in, with_sources};
ghost use Rattle.stack_dispatch.specs.Told.{Tells};

use crate::log::Log;
use crate::state::State;
use isr_window::{Arrived, Busy};
use osek_idle::Osek;
use round_table::Table;
use trace_text::Recorder;
use tt_base::{Event, IsrNo, OisrNo, Owner, Tick};
use tt_stack::TtStack;
use tt_world::{ConfigParts, ScriptParts};

/// The event of an arrival.
fn arrival(at: Tick, arrived: Arrived) -> Event
    ensures { result ≡ arrival_event at arrived }
{
    let source = arrived.source;
    if arrived.merged {
        Event::Merge { at, source }
    } else {
        Event::Arrive { at, source }
    }
}

/// Marks those of the first `count` time-triggered sources whose routine is unfinished. At the call
/// none is marked.
fn mark_isrs(stack: &TtStack, count: usize, busy: &mut Busy)
    requires few { count ≤ 16 }
    requires none { busy.old.isrs ≡ replicate 16 false }
    ensures isrs { AreMarked count stack.now.isrs busy.new.isrs }
    ensures oisrs { busy.new.oisrs ≡ busy.old.oisrs }
{
    for number in 0..count {
        let isr = IsrNo(number as u16);
        if !stack.is_isr_done(isr) {
            busy.mark(Owner::Isr(isr));
        }
    }
}

/// Marks those of the first `count` sources of the OSEK subsystem whose routine is unfinished. At
/// the call none is marked.
fn mark_oisrs(osek: &Osek, count: usize, busy: &mut Busy)
    requires few { count ≤ 16 }
    requires none { busy.old.oisrs ≡ replicate 16 false }
    ensures isrs { busy.new.isrs ≡ busy.old.isrs }
    ensures oisrs { (codes : List (List Stmt)) → IsSettled (subsystem_of codes osek.now)
        → AreMarked count (lefts (subsystem_of codes osek.now).routines) busy.new.oisrs }
{
    for number in 0..count {
        let oisr = OisrNo(number as u16);
        if osek.unfinished(oisr) {
            busy.mark(Owner::Oisr(oisr));
        }
    }
}

impl State {
    /// Enables a time-triggered source.
    #[tactic(auto, unfolding(tt_world::specs::Gates::enable))]
    fn enable<R: Recorder>(&mut self, isr: IsrNo, log: &mut Log<R>)
        ensures gives { Gives (Tells R.Recorder) log.old log.new self.new.world None
            (enable (record { offset = 0; isr = isr }) self.old.world) }
        ensures beside { self.new.beside ≡ self.old.beside }
    {
        self.gates.enable(isr);
        log.tell(Event::Enable { at: self.tick, isr });
    }

    /// The enables in this half-open range of places of the table's list of enables.
    pub(crate) fn enable_all<R: Recorder>(
        &mut self,
        table: &Table,
        from: usize,
        to: usize,
        log: &mut Log<R>,
    )
        requires { to ≤ length (enables_of table.now) }
        ensures gives { Gives (Tells R.Recorder) log.old log.new self.new.world None
            (enables_by (slice_range (enables_of table.now) from to) self.old.world) }
        ensures beside { self.new.beside ≡ self.old.beside }
    {
        for place in from..to {
            self.enable(table.enable_at(place), log);
        }
    }

    /// Takes the first arrival of the tick, if there is one.
    fn take_arrival(&mut self) -> Option<Arrived>
        requires { ForSome (next_tick (window_in self.old)) (λ tick. self.old.world.tick ≤ tick) }
        ensures value { result ≡ option_map (arrived_at (window_in self.old))
            (first_due self.old.world.tick (window_in self.old)) }
        ensures state { self.new ≡ with_sources
            (taking (first_due self.old.world.tick (window_in self.old)) (window_in self.old))
            self.old }
    {
        self.gates.arrive(self.tick)
    }

    /// The arrivals of the tick.
    pub(crate) fn arrive_all<R: Recorder>(
        &mut self,
        config: &ConfigParts,
        script: &ScriptParts,
        log: &mut Log<R>,
    )
        requires script { IsScript config.now script.now }
        requires sources { AreSourcesOf config.now (window_in self.old) }
        requires left { AreLeftFrom config.now script.now self.old.world.tick (window_in self.old) }
        ensures gives { Gives (Tells R.Recorder) log.old log.new self.new.world None
            (arrivals config.now script.now self.old.world) }
        ensures fixed { fixed_in self.new.beside ≡ fixed_in self.old.beside }
        ensures sources { AreSourcesOf config.now (window_in self.new) }
        ensures left { AreLeftFrom config.now script.now (self.old.world.tick + 1)
            (window_in self.new) }
    {
        let at = self.tick;
        'sources: while let Some(arrived) = self.take_arrival() {
            log.tell(arrival(at, arrived));
        }
    }

    /// The sources whose routine is unfinished.
    fn busy(&self, config: &ConfigParts) -> Busy
        requires { IsConfig config.now }
        ensures { AreUnfinished config.now result self.now.world (window_in self.now) }
    {
        let mut busy = Busy::new();
        mark_isrs(&self.stack, config.isrs.as_slice().len(), &mut busy);
        mark_oisrs(&self.osek, config.oisrs.as_slice().len(), &mut busy);
        busy
    }

    /// The routine of a source begins.
    fn begin_routine(&mut self, config: &ConfigParts, script: &ScriptParts, source: Owner)
        requires rules { IsConfig config.now }
        requires fixed { IsFor config.now script.now self.old.beside }
        requires can { CanBegin config.now source self.old.world }
        ensures world { self.new.world ≡ begun config.now source self.old.world }
        ensures beside { self.new.beside ≡ self.old.beside }
    {
        match source {
            Owner::Isr(isr) => self.stack.accept(isr),
            Owner::Oisr(oisr) => self.osek.accept(self.stack.codes(), oisr),
            _ => {}
        }
    }

    /// The interrupt of a source is accepted.
    fn accept<R: Recorder>(
        &mut self,
        config: &ConfigParts,
        script: &ScriptParts,
        source: Owner,
        log: &mut Log<R>,
    )
        requires rules { IsConfig config.now }
        requires fixed { IsFor config.now script.now self.old.beside }
        requires can { CanBegin config.now source self.old.world }
        ensures world { self.new.world ≡ begun config.now source self.old.world }
        ensures told { Tells R.Recorder log.old
            (event.Accept self.old.world.tick source ∷ []) log.new }
        ensures beside { self.new.beside ≡ self.old.beside }
    {
        let at = self.tick;
        self.begin_routine(config, script, source);
        log.tell(Event::Accept { at, source });
    }

    /// Takes the first interrupt that can be accepted, if there is one.
    fn take_held(&mut self, busy: &Busy) -> Option<Owner>
        ensures value { result ≡ option_map source_owner
            (first_ready busy.now (window_in self.old)) }
        ensures state { self.new ≡ with_sources
            (accepting (first_ready busy.now (window_in self.old)) (window_in self.old)) self.old }
    {
        self.gates.accept_next(busy)
    }

    /// The acceptances, in the order of the sources. An interrupt that is accepted is no longer
    /// held, so that its source is not asked again.
    pub(crate) fn accept_all<R: Recorder>(
        &mut self,
        config: &ConfigParts,
        script: &ScriptParts,
        log: &mut Log<R>,
    )
        requires rules { IsConfig config.now }
        requires fixed { IsFor config.now script.now self.old.beside }
        requires sources { AreSourcesOf config.now (window_in self.old) }
        ensures gives { Gives (Tells R.Recorder) log.old log.new self.new.world None
            (acceptances config.now self.old.world) }
        ensures beside { self.new.beside ≡ self.old.beside }
        ensures sources { AreSourcesOf config.now (window_in self.new) }
        ensures none { NoneAccepted config.now self.new.world }
    {
        let busy = self.busy(config);
        'sources: while let Some(source) = self.take_held(&busy) {
            self.accept(config, script, source, log);
        }
    }
}
