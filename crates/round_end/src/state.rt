//! The state of the dispatcher round.

ghost use Rattle.std.specs.Prelude.{◌≡◌, ◌-◌, ◌^◌, ◌<◌, ◌≤◌, length, None, Some};
ghost use Rattle.round_end.specs.Round.{IsSound, first_round, latched, next_own, next_time, sync_result, synced, wanting, ended};
ghost use Rattle.round_end.specs.Step.{step_after};

use crate::correction::{corrected, correction};
use std::marker::Model;
use tt_base::{ModeNo, Series, Tick};
use tt_world::Config;

/// What comes after a round.
#[derive(Clone, Copy, Debug, PartialEq, Eq)]
pub enum RoundStep {
    /// Nothing: it was the last one.
    Last,
    /// The round of this number, counted from 1, in this application mode.
    Next(u32, ModeNo),
}

/// The present round, and what the next one will be. Contracts see it as a record of these fields.
#[derive(Drop)]
pub struct RoundState {
    round: u64,
    adjust: u64,
    modes: usize,
    rounds: u32,
    times: Series<u64>,
    start: Tick,
    number: u32,
    mode: ModeNo,
    wanted: ModeNo,
    pending: i64,
    latched: Option<u64>,
    times_used: usize,
}

impl Model for RoundState {
    ghost use Rattle.round_end.specs.Round.{Round, IsSound};

    ghost Value = { Round };

    ghost use Rattle.round_end.specs.State.{round_of};

    ghost view = { round_of };

    ghost invariant = { λ r. IsSound (round_of r) };
}

impl RoundState {
    /// Round 1 of a run of this many rounds, with these global times in ticks: it begins at tick 0
    /// in the start mode.
    pub fn new(config: &Config, start: ModeNo, rounds: u32, times: Series<u64>) -> RoundState
        requires mode { start.0 < length config.now.modes }
        requires rounds { 1 ≤ rounds }
        ensures { result ≡ first_round config.now start rounds times }
    {
        let parts = config.parts();
        RoundState {
            round: parts.round,
            adjust: parts.adjust,
            modes: parts.modes.as_slice().len(),
            rounds,
            times,
            start: 0,
            number: 1,
            mode: start,
            wanted: start,
            pending: 0,
            latched: None,
            times_used: 0,
        }
    }

    /// The tick at which the round began.
    pub fn start(&self) -> Tick
        ensures value { result ≡ self.now.start }
        ensures sound { IsSound self.now }
    {
        self.start
    }

    /// The offset of a tick in the round.
    pub fn offset(&self, now: Tick) -> u64
        requires { self.now.start ≤ now }
        ensures { result ≡ now - self.now.start }
    {
        now - self.start
    }

    /// The application mode of the round.
    pub fn mode(&self) -> ModeNo
        ensures value { result ≡ self.now.mode }
        ensures sound { IsSound self.now }
    {
        self.mode
    }

    /// The number of the round, counted from 1.
    pub fn number(&self) -> u32
        ensures value { result ≡ self.now.number }
        ensures sound { IsSound self.now }
    {
        self.number
    }

    /// The tick of the latch; once the length is latched, the tick of the round's end.
    pub fn next_own(&self) -> Tick
        ensures value { result ≡ next_own self.now }
        ensures sound { IsSound self.now }
    {
        match self.latched {
            None => self.start + (self.round - self.adjust),
            Some(length) => self.start + length,
        }
    }

    /// The length of the round in ticks, once it is latched.
    pub fn length(&self) -> Option<u64>
        ensures value { result ≡ self.now.latched }
        ensures sound { IsSound self.now }
    {
        self.latched
    }

    /// The next round has this application mode, unless another is wanted before it begins. The
    /// OSEK/VDX standard: ttSwitchAppMode.
    pub fn want_mode(&mut self, mode: ModeNo)
        requires { mode.0 < self.old.modes }
        ensures { self.new ≡ wanting mode self.old }
    {
        self.wanted = mode;
    }

    /// A call at a tick answers 0, and the next global time asks for a correction of the next round
    /// whose length is latched; or it answers 1 where no global time is left, and then nothing has
    /// changed. The OSEK/VDX standard: ttSyncTimes.
    pub fn sync(&mut self, now: Tick) -> u8
        requires { self.old.start ≤ now }
        ensures value { result ≡ sync_result (next_time self.old) }
        ensures state { self.new ≡ synced now (next_time self.old) self.old }
    {
        match self.times.as_slice().get(self.times_used) {
            None => 1,
            Some(global) => {
                self.pending = correction(self.round, self.adjust, now - self.start, *global);
                self.times_used += 1;
                0
            }
        }
    }

    /// The latch, which fixes the length of the round: it answers the correction that the round
    /// takes, in ticks. The latch is the bench's own.
    pub fn latch(&mut self) -> i64
        requires { self.old.latched ≡ None }
        ensures value { result ≡ self.old.pending }
        ensures state { self.new ≡ latched self.old }
    {
        let correction = self.pending;
        self.latched = Some(corrected(self.round, correction));
        self.pending = 0;
        correction
    }

    /// The round's end, at the offset that is its length: the next round begins, where there is
    /// one. The OSEK/VDX standard: dispatcher rounds.
    pub fn end_round(&mut self, now: Tick) -> RoundStep
        requires { self.old.latched ≡ Some (now - self.old.start) }
        ensures value { result ≡ step_after self.old }
        ensures state { self.new ≡ ended now self.old }
    {
        if self.number == self.rounds {
            return RoundStep::Last;
        }
        self.start = now;
        self.number += 1;
        self.mode = self.wanted;
        self.latched = None;
        RoundStep::Next(self.number, self.mode)
    }
}
