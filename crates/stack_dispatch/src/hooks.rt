//! The hooks. A hook is played whole at one instant.

ghost use Rattle.std.specs.Prelude.{◌≡◌, true, Some};
ghost use Rattle.task_lang.specs.Limits.{AreExpressionsShort, is_expression_short};
ghost use Rattle.task_lang.specs.declared.syntax.Stmt.{out-Stmt};
ghost use Rattle.tt_world.specs.Hooks.{vars_by, outs_by, vars_after, outs_of, shuts_down, misses};
ghost use Rattle.tt_world.specs.ConfigRules.{IsConfig};
ghost use Rattle.tt_world.specs.Moved.{Gives};
ghost use Rattle.stack_dispatch.specs.Told.{Tells};

use crate::log::Log;
use crate::state::State;
use task_lang::value::value;
use task_lang::{Body, Stmt};
use task_machine::Env;
use trace_text::Recorder;
use tt_base::{Event, Owner, TaskNo, Tick};
use tt_world::{ConfigParts, RunEnd};

/// Plays a statement of a hook. The rules allow no other than `set` and `out`; any other does
/// nothing.
fn play_statement<R: Recorder>(at: Tick, hook: Owner, stmt: &Stmt, env: &mut Env, log: &mut Log<R>)
    requires { is_expression_short (out-Stmt stmt.now) ≡ true }
    ensures env { env.new ≡ record env.old { vars = vars_by env.old.vars (out-Stmt stmt.now) } }
    ensures told { Tells R.Recorder log.old
        (outs_by at hook env.old.vars (out-Stmt stmt.now)) log.new }
{
    match stmt {
        Stmt::Set(var, expr) => {
            let assigned = value(expr, env.vars());
            env.set_var(*var, assigned);
        }
        Stmt::Out(expr) => log.tell(Event::Out {
            at,
            owner: hook,
            value: value(expr, env.vars()),
        }),
        _ => {}
    }
}

/// Plays the body of a hook.
#[tactic(auto, using(crate::proofs::Playing::vars_more, crate::proofs::Playing::outs_more), unfolding(tt_world::specs::Hooks::vars_after, tt_world::specs::Hooks::outs_of))]
fn play<R: Recorder>(at: Tick, hook: Owner, body: &Body, env: &mut Env, log: &mut Log<R>)
    requires { AreExpressionsShort body.now }
    ensures env { env.new ≡ record env.old { vars = vars_after env.old.vars body.now } }
    ensures told { Tells R.Recorder log.old (outs_of at hook env.old.vars body.now) log.new }
{
    for stmt in body.as_slice() {
        play_statement(at, hook, stmt, env, log);
    }
}

impl State {
    /// ttShutdownHook is called, and the run ends by a shutdown, with this end.
    pub(crate) fn shut_down<R: Recorder>(
        &mut self,
        config: &ConfigParts,
        end: RunEnd,
        log: &mut Log<R>,
    ) -> RunEnd
        requires { IsConfig config.now }
        ensures gives { Gives (Tells R.Recorder) log.old log.new self.new.world (Some result)
            (shuts_down config.now (Some end) self.old.world) }
        ensures beside { self.new.beside ≡ self.old.beside }
    {
        let at = self.tick;
        log.tell(Event::ShutdownHook { at });
        play(
            at,
            Owner::ShutdownHook,
            &config.shutdown_hook,
            &mut self.env,
            log,
        );
        log.tell(Event::Shutdown { at });
        end
    }

    /// A task has missed its deadline: ttErrorHook is called with it, and then the run is shut
    /// down.
    pub(crate) fn miss<R: Recorder>(
        &mut self,
        config: &ConfigParts,
        task: TaskNo,
        log: &mut Log<R>,
    ) -> RunEnd
        requires { IsConfig config.now }
        ensures gives { Gives (Tells R.Recorder) log.old log.new self.new.world (Some result)
            (misses config.now task self.old.world) }
        ensures beside { self.new.beside ≡ self.old.beside }
    {
        let at = self.tick;
        log.tell(Event::ErrorHook { at, task });
        play(at, Owner::ErrorHook, &config.error_hook, &mut self.env, log);
        self.shut_down(config, RunEnd::Missed(task), log)
    }
}
