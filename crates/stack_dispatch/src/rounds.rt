//! The rounds of a run: its head, the latch of a round's length, and the round's end.

ghost use Rattle.std.specs.Prelude.{◌≡◌, ◌-◌, ◌≤◌, true, None, Some};
ghost use Rattle.tt_world.specs.Correction.{is_length};
ghost use Rattle.tt_world.specs.Moved.{Gives};
ghost use Rattle.tt_world.specs.Monitoring.{is_at_end, monitored};
ghost use Rattle.tt_world.specs.Rounds.{head, latch, next_round, round_end};
ghost use Rattle.tt_world.specs.Rows.{offset_of};
ghost use Rattle.tt_world.proofs.Late.{Late};
ghost use Rattle.tt_world.proofs.Parts.{Latched};
ghost use Rattle.stack_dispatch.specs.State.{IsFor};
ghost use Rattle.stack_dispatch.specs.Served.{IsServed, IsTableOf};
ghost use Rattle.stack_dispatch.specs.Told.{Tells};

use crate::log::Log;
use crate::state::State;
use round_end::RoundStep;
use round_table::Table;
use trace_text::Recorder;
use tt_base::Event;
use tt_world::{ConfigParts, RunEnd, ScriptParts};

impl State {
    /// Reports the head of the run.
    #[tactic(auto, using(crate::proofs::Chains::tells_two), unfolding(tt_world::specs::Rounds::head))]
    pub(crate) fn begin<R: Recorder>(&self, script: &ScriptParts, log: &mut Log<R>)
        ensures { Gives (Tells R.Recorder) log.old log.new self.now.world None
            (head script.now self.now.world) }
    {
        log.tell(Event::OsStart {
            at: self.tick,
            mode: script.start,
        });
        log.tell(Event::Round {
            at: self.tick,
            number: 1,
            mode: script.start,
        });
    }

    /// The latch of the round's length, where the offset is that of the latch.
    #[tactic(auto, using(crate::proofs::Served::no_change, crate::proofs::Telling::tells_none), unfolding(tt_world::specs::Rounds::latch))]
    pub(crate) fn latch<R: Recorder>(&mut self, config: &ConfigParts, log: &mut Log<R>)
        requires round { self.old.beside.round ≡ config.now.round }
        requires adjust { self.old.beside.adjust ≡ config.now.adjust }
        requires late { Late 0 config.now self.old.world }
        ensures gives { Gives (Tells R.Recorder) log.old log.new self.new.world None
            (latch config.now self.old.world) }
        ensures beside { self.new.beside ≡ self.old.beside }
    {
        if self.offset() != config.round.saturating_sub(config.adjust) {
            return;
        }
        let by = self.round.latch();
        if by == 0 {
            return;
        }
        log.tell(Event::Correct { at: self.tick, by });
    }

    /// Whether the offset is the length of the round.
    fn is_over(&self) -> bool
        ensures { result ≡ is_length self.now.world.latched (offset_of self.now.world) }
    {
        match self.round.length() {
            None => false,
            Some(length) => length == self.offset(),
        }
    }

    /// The checks at the end of a round.
    fn check_end<R: Recorder>(
        &mut self,
        config: &ConfigParts,
        script: &ScriptParts,
        table: &Table,
        log: &mut Log<R>,
    ) -> Option<RunEnd>
        requires served { IsServed Latched config.now script.now self.old.world }
        requires table { IsTableOf config.now table.now self.old.world }
        requires over { is_length self.old.world.latched (offset_of self.old.world) ≡ true }
        ensures gives { Gives (Tells R.Recorder) log.old log.new self.new.world result
            (monitored config.now (is_at_end (offset_of self.old.world)) self.old.world) }
        ensures beside { self.new.beside ≡ self.old.beside }
    {
        let (from, to) = table.end_checks(self.offset());
        self.monitor(config, table, from, to, log)
    }

    /// After the last round the run stops, else the next round begins.
    #[tactic(auto, unfolding(tt_world::specs::Rounds::next_round))]
    fn next_round<R: Recorder>(&mut self, script: &ScriptParts, log: &mut Log<R>) -> Option<RunEnd>
        requires rounds { self.old.beside.rounds ≡ script.now.rounds }
        requires over { is_length self.old.world.latched (offset_of self.old.world) ≡ true }
        ensures gives { Gives (Tells R.Recorder) log.old log.new self.new.world result
            (next_round script.now self.old.world) }
        ensures beside { self.new.beside ≡ self.old.beside }
    {
        let at = self.tick;
        match self.round.end_round(at) {
            RoundStep::Last => {
                log.tell(Event::Stop { at });
                Some(RunEnd::LastRound)
            }
            RoundStep::Next(number, mode) => {
                self.stack.clear_jobs(mode);
                log.tell(Event::Round { at, number, mode });
                None
            }
        }
    }

    /// The round's end, where the offset is the round's length.
    #[tactic(auto, using(crate::proofs::Telling::tells_none), unfolding(tt_world::specs::Rounds::round_end))]
    pub(crate) fn end_round<R: Recorder>(
        &mut self,
        config: &ConfigParts,
        script: &ScriptParts,
        table: &Table,
        log: &mut Log<R>,
    ) -> Option<RunEnd>
        requires served { IsServed Latched config.now script.now self.old.world }
        requires table { IsTableOf config.now table.now self.old.world }
        requires fixed { IsFor config.now script.now self.old.beside }
        ensures gives { Gives (Tells R.Recorder) log.old log.new self.new.world result
            (round_end config.now script.now self.old.world) }
        ensures beside { self.new.beside ≡ self.old.beside }
    {
        if !self.is_over() {
            return None;
        }
        match self.check_end(config, script, table, log) {
            None => self.next_round(script, log),
            end => end,
        }
    }
}
