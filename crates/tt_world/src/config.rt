//! The configuration of a node: what is fixed before a run.

use std::marker::Model;
use task_lang::{Body, Demands, Vars};
use tt_base::{IsrNo, Names, Series, TaskNo};

/// A time-triggered task.
#[derive(Drop)]
pub struct TaskDef {
    /// The stack words that it takes while it is unfinished.
    pub stack: u32,
    pub body: Body,
    /// The worst case of the body, in ticks.
    pub budget: u64,
}

/// A time-triggered interrupt service routine.
#[derive(Drop)]
pub struct IsrDef {
    /// Routines are nested by level: one of a higher level interrupts one of a lower.
    pub level: u8,
    /// The stack words that it takes while it is unfinished.
    pub stack: u32,
    /// The least distance of two of its interrupts, in ticks, where one is declared.
    pub distance: Option<u64>,
    pub body: Body,
    /// The worst case of the body, in ticks.
    pub budget: u64,
}

/// A basic task of the OSEK subsystem.
#[derive(Drop)]
pub struct OsekDef {
    /// A larger number is a higher priority.
    pub priority: u8,
    /// Whether it is ready at tick 0.
    pub auto: bool,
    pub body: Body,
    /// The worst case of the body, in ticks.
    pub budget: u64,
}

/// An interrupt service routine of the OSEK subsystem.
#[derive(Drop)]
pub struct OisrDef {
    /// A larger number is a higher priority.
    pub priority: u8,
    pub body: Body,
    /// The worst case of the body, in ticks.
    pub budget: u64,
}

/// A row of a dispatcher table that activates a task. Offsets and deadlines are offsets of the
/// round, in ticks.
#[derive(Clone, Copy)]
pub struct Activation {
    pub offset: u64,
    pub task: TaskNo,
    pub deadline: u64,
    /// Whether deadline monitoring looks at the deadline itself or at a later point.
    pub stringent: bool,
}

/// A row of a dispatcher table that enables an interrupt source again, at an offset of the round in
/// ticks.
#[derive(Clone, Copy)]
pub struct Enable {
    pub offset: u64,
    pub isr: IsrNo,
}

/// An application mode: the rows of its dispatcher table. The place of an activation in the list is
/// its entry number.
#[derive(Drop)]
pub struct ModeDef {
    /// In ascending order of offset.
    pub activations: Series<Activation>,
    /// In ascending order of offset, and then of the routine's number.
    pub enables: Series<Enable>,
}

/// The parts of a configuration.
#[derive(Drop)]
pub struct ConfigParts {
    pub names: Names,
    /// The length of a dispatcher round, in ticks.
    pub round: u64,
    /// The greatest correction of a round by global time, in ticks.
    pub adjust: u64,
    /// The initial values of the variables.
    pub vars: Vars,
    pub demands: Demands,
    pub tasks: Series<TaskDef>,
    pub isrs: Series<IsrDef>,
    pub oseks: Series<OsekDef>,
    pub oisrs: Series<OisrDef>,
    /// The body of ttErrorHook, empty where it is not declared.
    pub error_hook: Body,
    /// The body of ttShutdownHook, empty where it is not declared.
    pub shutdown_hook: Body,
    pub modes: Series<ModeDef>,
}

/// A configuration that meets the rules. Contracts see it as its parts.
#[derive(Drop)]
pub struct Config {
    parts: ConfigParts,
}

impl Model for Config {
    ghost use Rattle.tt_world.specs.declared.config.ConfigParts.{ConfigParts};
    ghost use Rattle.tt_world.specs.ConfigRules.{IsConfig};
    ghost use Rattle.std.specs.Coded.{codes};
    ghost use Rattle.task_lang.specs.contracts.syntax.Stmt as stmt;

    ghost Value = { ConfigParts };

    ghost coded = { Prim.hlevel (codes, stmt.the_row.coded) };

    ghost view = { λ c. c.parts };

    ghost invariant = { λ c. IsConfig c.parts };
}

impl Config {
    ghost use Rattle.std.specs.Prelude.{◌≡◌};
    ghost use Rattle.tt_world.specs.ConfigRules.{IsConfig};

    /// A configuration of parts that meet the rules.
    pub fn new(parts: ConfigParts) -> Config
        requires { IsConfig parts }
        ensures { result ≡ parts }
    {
        Config { parts }
    }

    /// Its parts.
    pub fn parts(&self) -> &ConfigParts
        ensures same { result.now ≡ self.now }
        ensures rules { IsConfig self.now }
    {
        &self.parts
    }
}
