//! The script of a run: what comes from outside.

use crate::config::Config;
use std::marker::Model;
use task_lang::Values;
use tt_base::{ModeNo, Series, Tick};

/// When interrupts occur: a list of ticks for each time-triggered routine, and one for each of the
/// OSEK subsystem.
#[derive(Drop)]
pub struct Arrivals {
    pub isrs: Series<Series<Tick>>,
    pub oisrs: Series<Series<Tick>>,
}

/// The parts of a script.
#[derive(Drop)]
pub struct ScriptParts {
    /// The application mode at tick 0.
    pub start: ModeNo,
    /// The number of dispatcher rounds.
    pub rounds: u32,
    /// The values of each demand, in ticks.
    pub values: Values,
    pub arrivals: Arrivals,
    /// The global times that ttSyncTimes gets, in ticks.
    pub times: Series<u64>,
}

/// A script that by itself meets the rules of a script. Contracts see it as its parts. Whether it
/// fits a configuration is said where both are used.
#[derive(Drop)]
pub struct Script {
    parts: ScriptParts,
}

impl Model for Script {
    ghost use Rattle.tt_world.specs.declared.script.ScriptParts.{ScriptParts};
    ghost use Rattle.tt_world.specs.ScriptRules.{IsInput};

    ghost Value = { ScriptParts };

    ghost view = { λ s. s.parts };

    ghost invariant = { λ s. IsInput s.parts };
}

impl Script {
    ghost use Rattle.std.specs.Prelude.{◌≡◌};
    ghost use Rattle.tt_world.specs.ScriptRules.{IsInput, IsScript};

    /// A script of parts that meet the rules of a configuration.
    pub fn new(parts: ScriptParts, config: &Config) -> Script
        requires { IsScript config.now parts }
        ensures { result ≡ parts }
    {
        Script { parts }
    }

    /// Its parts.
    pub fn parts(&self) -> &ScriptParts
        ensures same { result.now ≡ self.now }
        ensures rules { IsInput self.now }
    {
        &self.parts
    }

    /// Its parts by value.
    pub fn into_parts(self) -> ScriptParts
        ensures same { result ≡ self }
        ensures rules { IsInput result }
    {
        let Script { parts } = self;
        parts
    }
}
