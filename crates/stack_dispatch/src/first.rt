//! The state before tick 0.

ghost use Rattle.std.specs.Prelude.{◌≡◌, IfOk};
ghost use Rattle.tt_world.specs.ScriptRules.{IsScript};
ghost use Rattle.stack_dispatch.specs.First.{first_state};

use crate::programs::codes_of;
use crate::state::State;
use isr_window::Gates;
use osek_idle::Osek;
use round_end::RoundState;
use std::alloc::Global;
use task_machine::Env;
use tt_base::{Memory, Series, copy_lists};
use tt_stack::{DeclaredWords, TtStack};
use tt_world::{Arrivals, Config, ScriptParts};

/// The same arrivals.
fn copy_arrivals(alloc: Global, arrivals: &Arrivals) -> Result<Arrivals, Memory>
    ensures { IfOk result (λ copy. copy ≡ arrivals.now) }
{
    let isrs = copy_lists(alloc, arrivals.isrs.as_slice())?;
    let oisrs = copy_lists(alloc, arrivals.oisrs.as_slice())?;
    Ok(Arrivals { isrs, oisrs })
}

impl State {
    /// Before tick 0.
    pub(crate) fn new(alloc: Global, config: &Config, script: &ScriptParts) -> Result<State, Memory>
        requires { IsScript config.now script.now }
        ensures { IfOk result (λ state. state ≡ first_state config.now script.now) }
    {
        let parts = config.parts();
        let times = Series::copy_of(alloc, script.times.as_slice())?;
        let arrivals = copy_arrivals(alloc, &script.arrivals)?;
        let words = DeclaredWords::new(alloc, parts, script.start)?;
        let codes = codes_of(alloc, parts)?;
        let env = Env::new(alloc, &parts.vars, &parts.demands, &script.values)?;
        let tasks = parts.tasks.as_slice().len() as u16;
        let routines = parts.isrs.as_slice().len() as u16;
        let osek = Osek::new(config, &codes, tasks + routines);
        Ok(State {
            tick: 0,
            round: RoundState::new(config, script.start, script.rounds, times),
            env,
            stack: TtStack::new(codes, words, parts.isrs.as_slice(), tasks),
            gates: Gates::new(arrivals),
            osek,
            last: None,
        })
    }
}
