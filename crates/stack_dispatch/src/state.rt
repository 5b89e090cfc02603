//! The state of a run.

ghost use Rattle.std.specs.Prelude.{◌≡◌};
ghost use Rattle.tt_world.specs.Load.{depth_of, words_of};
ghost use Rattle.tt_world.specs.Rows.{HasMode, offset_of, mode_of, row_of};
ghost use Rattle.stack_dispatch.specs.Served.{IsWeighed};

use isr_window::Gates;
use osek_idle::Osek;
use round_end::RoundState;
use std::marker::Model;
use task_machine::Env;
use tt_base::{Owner, TaskNo, Tick};
use tt_stack::TtStack;
use tt_world::{Activation, ConfigParts, ModeDef};

/// The state of a run. Contracts see it as the world, and what the runner keeps beside it.
#[derive(Drop)]
pub(crate) struct State {
    pub(crate) tick: Tick,
    pub(crate) round: RoundState,
    /// The variables, the demands and their values.
    pub(crate) env: Env,
    /// The activations of the round, and the time-triggered routines.
    pub(crate) stack: TtStack,
    /// The sources of interrupts.
    pub(crate) gates: Gates,
    /// The OSEK tasks and routines.
    pub(crate) osek: Osek,
    /// The owner of the tick before.
    pub(crate) last: Option<Owner>,
}

impl Model for State {
    ghost use Rattle.std.specs.Prelude.{◌≡◌};
    ghost use Rattle.std.specs.Coded.{codes};
    ghost use Rattle.task_lang.specs.contracts.syntax.Stmt as stmt;
    ghost use Rattle.stack_dispatch.specs.State.{RunState};
    ghost use Rattle.osek_idle.specs.Subsystem.{lefts, IsSettled};
    ghost use Rattle.osek_idle.specs.Standing.{IsSound, setup_of, subsystem_of};

    ghost Value = { RunState };

    ghost coded = { Prim.hlevel (codes, stmt.the_row.coded) };

    ghost view = { λ s. record {
      world = record {
        tick = s.tick;
        start = s.round.start;
        number = s.round.number;
        mode = s.round.mode;
        wanted = s.round.wanted;
        pending = s.round.pending;
        latched = s.round.latched;
        times_used = s.round.times_used;
        vars = s.env.vars;
        cursors = s.env.cursors;
        jobs = s.stack.jobs;
        isrs_enabled = s.gates.isrs_enabled;
        isrs_held = s.gates.isrs_held;
        isrs = s.stack.isrs;
        oisrs_held = s.gates.oisrs_held;
        oisrs = lefts (subsystem_of s.stack.codes s.osek).routines;
        oseks = lefts (subsystem_of s.stack.codes s.osek).tasks;
        last = s.last;
      };
      beside = record {
        round = s.round.round;
        adjust = s.round.adjust;
        modes = s.round.modes;
        rounds = s.round.rounds;
        times = s.round.times;
        demands = s.env.demands;
        values = s.env.values;
        codes = s.stack.codes;
        first = s.stack.first;
        levels = s.stack.levels;
        isr_words = s.stack.words.isrs;
        row_words = s.stack.words.rows;
        setup = setup_of s.osek;
        isrs_ticks = s.gates.isrs_left;
        oisrs_ticks = s.gates.oisrs_left;
      };
    } };

    ghost invariant = { λ s. IsSound s.stack.codes s.osek
        × IsSettled (subsystem_of s.stack.codes s.osek)
        × (s.stack.words.mode ≡ s.round.mode) };
}

/// The row of an entry number.
pub(crate) fn row(mode: &ModeDef, entry: usize) -> Activation
    ensures { result ≡ row_of mode.now entry }
{
    match mode.activations.as_slice().get(entry) {
        Some(row) => *row,
        None => Activation {
            offset: 0,
            task: TaskNo(0),
            deadline: 0,
            stringent: true,
        },
    }
}

impl State {
    /// The present tick.
    pub(crate) fn tick(&self) -> Tick
        ensures { result ≡ self.now.world.tick }
    {
        self.tick
    }

    /// The number of the present round.
    pub(crate) fn round_number(&self) -> u32
        ensures { result ≡ self.now.world.number }
    {
        self.round.number()
    }

    /// How many activations and time-triggered routines are unfinished.
    pub(crate) fn depth(&self) -> u64
        ensures { result ≡ depth_of self.now.world }
    {
        self.stack.depth() as u64
    }

    /// How many words of stack the unfinished ones take.
    pub(crate) fn words(&self, config: &ConfigParts) -> u64
        requires { IsWeighed config.now self.now }
        ensures { result ≡ words_of config.now self.now.world }
    {
        self.stack.words()
    }

    /// The offset of the instant in the present round.
    pub(crate) fn offset(&self) -> u64
        ensures { result ≡ offset_of self.now.world }
    {
        self.tick.saturating_sub(self.round.start())
    }

    /// The present mode.
    pub(crate) fn mode_of<'a>(&self, config: &'a ConfigParts) -> &'a ModeDef
        requires { HasMode config.now self.now.world }
        ensures { result.now ≡ mode_of config.now self.now.world }
    {
        &config.modes.as_slice()[usize::from(self.round.mode().0)]
    }
}
