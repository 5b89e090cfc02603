//! The ticks of the one who runs: one, or more at once where it only works.

ghost use Rattle.std.specs.Prelude.{◌≡◌, ◌≢◌, ◌+◌, ◌-◌, ◌^◌, ◌<◌, ◌≤◌, ◌&&◌, ◌||◌, List, [], length, max, None, Some, option_to_list};
ghost use Rattle.task_lang.specs.declared.syntax.Stmt.{Stmt};
ghost use Rattle.osek_idle.specs.Standing.{IsSound, setup_of, subsystem_of, task_body};
ghost use Rattle.osek_idle.specs.Subsystem.{IsSettled, picked, owner_left};
ghost use Rattle.task_machine.specs.Standing.{work_in_front};
ghost use Rattle.tt_world.specs.Moved.{Gives};
ghost use Rattle.tt_world.specs.Runners.{left_of, runner_of, owner_of};
ghost use Rattle.tt_world.specs.Services.{is_shutdown};
ghost use Rattle.tt_world.specs.ConfigRules.{IsConfig};
ghost use Rattle.tt_world.specs.Step.{run_line, is_somebody, tick_over};
ghost use Rattle.tt_world.proofs.Still.{owner_ends};
ghost use Rattle.stack_dispatch.specs.Effects.{MayDo, HaveSome, GaveIdle, effected, finished_at, idle_ticks};
ghost use Rattle.stack_dispatch.specs.Jumps.{CanJump, CanWork, at_work, jump, jump_of, lessened, lessened_in, waited};
ghost use Rattle.stack_dispatch.specs.State.{IsFor};
ghost use Rattle.stack_dispatch.specs.Ticking.{CanTick, IsOnStack, IsInIdleTime, Took, follows};
ghost use Rattle.stack_dispatch.specs.Told.{Tells};

use crate::log::Log;
use crate::runner::ran_before;
use crate::state::State;
use crate::took::{Did, Taken, Ticked};
use osek_idle::Osek;
use round_end::RoundState;
use task_lang::Effect;
use task_machine::{Codes, Env};
use trace_text::Recorder;
use tt_base::{Call, Event, Ledger, Owner, Steps, Tick};
use tt_services::perform;
use tt_world::{ConfigParts, RunEnd, Runner, ScriptParts};

/// Whether a runner is somebody, and has ended.
fn somebody_ended(runner: Runner, ended: bool) -> bool
    ensures { result ≡ (is_somebody runner && ended) }
{
    match runner {
        Runner::Nobody => false,
        _ => ended,
    }
}

/// Whether a service ends the run.
fn is_shutdown(call: Call) -> bool
    ensures { result ≡ is_shutdown call }
{
    call == Call::Shutdown
}

/// What followed from the effect of a tick.
#[derive(Clone, Copy)]
struct Effected {
    did: Did,
    /// Whether a service has ended its caller.
    ends: bool,
}

/// What follows from the effect of a tick in the round and in the OSEK subsystem: a service is
/// performed.
fn do_effect(
    effect: Option<Effect>,
    who: Owner,
    now: Tick,
    round: &mut RoundState,
    osek: &mut Osek,
    codes: &Codes,
) -> Effected
    requires may { MayDo now who (option_to_list effect) round.old (setup_of osek.old) }
    requires sound { IsSound codes.now osek.old }
    ensures did { result.did
        ≡ (effected (task_body codes.now (setup_of osek.old)) now who
        (option_to_list effect) round.old (subsystem_of codes.now osek.old)).did }
    ensures ends { result.ends
        ≡ (effected (task_body codes.now (setup_of osek.old)) now who
        (option_to_list effect) round.old (subsystem_of codes.now osek.old)).ends }
    ensures round { round.new
        ≡ (effected (task_body codes.now (setup_of osek.old)) now who
        (option_to_list effect) round.old (subsystem_of codes.now osek.old)).round }
    ensures state { subsystem_of codes.now osek.new
        ≡ (effected (task_body codes.now (setup_of osek.old)) now who
        (option_to_list effect) round.old (subsystem_of codes.now osek.old)).subsystem }
    ensures setup { setup_of osek.new ≡ setup_of osek.old }
    ensures sound { IsSound codes.now osek.new }
{
    match effect {
        None => Effected {
            did: Did::Nothing,
            ends: false,
        },
        Some(Effect::Out(value)) => Effected {
            did: Did::Out(value),
            ends: false,
        },
        Some(Effect::Service(call)) => {
            let answer = perform(call, who, now, round, osek, codes);
            Effected {
                did: Did::Called(call, answer.result),
                ends: answer.caller_ends,
            }
        }
    }
}

/// The end of an owner that has no statement left, and that no service has ended.
fn finish_at(osek: &mut Osek, who: Owner, ended: bool, ends: bool)
    ensures setup { setup_of osek.new ≡ setup_of osek.old }
    ensures sound { (codes : List (List Stmt)) → IsSound codes osek.old
        → IsSound codes osek.new }
    ensures state { (codes : List (List Stmt)) → subsystem_of codes osek.new
        ≡ finished_at who ended ends (subsystem_of codes osek.old) }
{
    if ends {
        return;
    }
    if ended {
        osek.finish(who);
    }
}

/// k ticks of this owner, which is the one who runs in idle time.
fn tick_in_idle_time<L: Ledger>(
    who: Owner,
    k: u64,
    now: Tick,
    env: &mut Env,
    round: &mut RoundState,
    osek: &mut Osek,
    codes: &Codes,
    steps: &mut Steps<L>,
) -> Taken
    requires sound { IsSound codes.now osek.old }
    requires settled { IsSettled (subsystem_of codes.now osek.old) }
    requires bodies { HaveSome (task_body codes.now (setup_of osek.old))
        (length (setup_of osek.old).tasks) }
    requires picks { picked (setup_of osek.old) (subsystem_of codes.now osek.old) ≡ Some who }
    requires left { owner_left (subsystem_of codes.now osek.old) (Some who) ≢ [] }
    requires some { 1 ≤ k }
    requires within { k ≤ max 1
        (work_in_front (owner_left (subsystem_of codes.now osek.old) (Some who))) }
    requires may { MayDo now who (idle_ticks k who env.old (subsystem_of codes.now osek.old)).effects
        round.old (setup_of osek.old) }
    ensures vars { env.new.vars ≡ (idle_ticks k who env.old (subsystem_of codes.now osek.old)).vars }
    ensures cursors { env.new.cursors
        ≡ (idle_ticks k who env.old (subsystem_of codes.now osek.old)).cursors }
    ensures demands { env.new.demands ≡ env.old.demands }
    ensures values { env.new.values ≡ env.old.values }
    ensures gave { GaveIdle (task_body codes.now (setup_of osek.old)) now who
        (idle_ticks k who env.old (subsystem_of codes.now osek.old)) round.old
        (subsystem_of codes.now osek.old) result round.new (subsystem_of codes.now osek.new) }
    ensures setup { setup_of osek.new ≡ setup_of osek.old }
    ensures sound { IsSound codes.now osek.new }
    ensures settled { IsSettled (subsystem_of codes.now osek.new) }
    ensures counted { steps.new ≡ steps.old + 1 }
{
    let progress = osek.advance(codes, k, env, steps);
    let effected = do_effect(progress.effect, who, now, round, osek, codes);
    finish_at(osek, who, progress.ended, effected.ends);
    Taken {
        did: effected.did,
        ended: either(effected.ends, progress.ended),
    }
}

/// Whether one of the two holds.
fn either(one: bool, other: bool) -> bool
    ensures { result ≡ (one || other) }
{
    one || other
}

impl State {
    /// k ticks of an activation or of a time-triggered routine.
    fn take_on_stack<L: Ledger>(
        &mut self,
        config: &ConfigParts,
        script: &ScriptParts,
        runner: Runner,
        who: Owner,
        k: u64,
        steps: &mut Steps<L>,
    ) -> Taken
        requires some { 1 ≤ k }
        requires within { CanWork k runner (left_of self.old.world runner) }
        requires can { CanTick config.now script.now (lessened_in (k - 1) runner self.old) }
        requires runs { runner ≡ runner_of config.now self.old.world }
        requires owns { who ≡ owner_of config.now self.old.world runner }
        requires on_stack { IsOnStack runner }
        ensures took { Took config.now script.now runner
            (lessened (k - 1) runner self.old.world) result self.new.world }
        ensures beside { self.new.beside ≡ self.old.beside }
        ensures counted { steps.new ≡ steps.old + 1 }
    {
        let progress = self.stack.advance(k, &mut self.env, steps);
        let codes = self.stack.codes();
        let effected = do_effect(
            progress.effect,
            who,
            self.tick,
            &mut self.round,
            &mut self.osek,
            codes,
        );
        Taken {
            did: effected.did,
            ended: progress.ended,
        }
    }

    /// k ticks of an OSEK task or of a routine of the OSEK subsystem.
    fn take_in_idle_time<L: Ledger>(
        &mut self,
        config: &ConfigParts,
        script: &ScriptParts,
        runner: Runner,
        who: Owner,
        k: u64,
        steps: &mut Steps<L>,
    ) -> Taken
        requires some { 1 ≤ k }
        requires within { CanWork k runner (left_of self.old.world runner) }
        requires can { CanTick config.now script.now (lessened_in (k - 1) runner self.old) }
        requires runs { runner ≡ runner_of config.now self.old.world }
        requires owns { who ≡ owner_of config.now self.old.world runner }
        requires in_idle_time { IsInIdleTime runner }
        ensures took { Took config.now script.now runner
            (lessened (k - 1) runner self.old.world) result self.new.world }
        ensures beside { self.new.beside ≡ self.old.beside }
        ensures counted { steps.new ≡ steps.old + 1 }
    {
        let codes = self.stack.codes();
        tick_in_idle_time(
            who,
            k,
            self.tick,
            &mut self.env,
            &mut self.round,
            &mut self.osek,
            codes,
            steps,
        )
    }

    /// k ticks of a runner.
    fn take<L: Ledger>(
        &mut self,
        config: &ConfigParts,
        script: &ScriptParts,
        runner: Runner,
        who: Owner,
        k: u64,
        steps: &mut Steps<L>,
    ) -> Taken
        requires some { 1 ≤ k }
        requires within { CanWork k runner (left_of self.old.world runner) }
        requires can { CanTick config.now script.now (lessened_in (k - 1) runner self.old) }
        requires runs { runner ≡ runner_of config.now self.old.world }
        requires owns { who ≡ owner_of config.now self.old.world runner }
        ensures took { Took config.now script.now runner
            (lessened (k - 1) runner self.old.world) result self.new.world }
        ensures beside { self.new.beside ≡ self.old.beside }
        ensures counted { steps.new ≡ steps.old + 1 }
    {
        match runner {
            Runner::Isr(_) => self.take_on_stack(config, script, runner, who, k, steps),
            Runner::Job(_) => self.take_on_stack(config, script, runner, who, k, steps),
            Runner::Oisr(_) => self.take_in_idle_time(config, script, runner, who, k, steps),
            Runner::Osek(_) => self.take_in_idle_time(config, script, runner, who, k, steps),
            Runner::Nobody => {
                steps.tick();
                Taken {
                    did: Did::Nothing,
                    ended: true,
                }
            }
        }
    }

    /// Reports what a tick did, and does what follows from it.
    fn tell_did<R: Recorder>(
        &mut self,
        config: &ConfigParts,
        who: Owner,
        did: Did,
        log: &mut Log<R>,
    ) -> Option<RunEnd>
        requires { IsConfig config.now }
        ensures gives { Gives (Tells R.Recorder) log.old log.new self.new.world result
            (follows config.now who did self.old.world) }
        ensures beside { self.new.beside ≡ self.old.beside }
    {
        let at = self.tick;
        match did {
            Did::Nothing => None,
            Did::Out(value) => {
                log.tell(Event::Out {
                    at,
                    owner: who,
                    value,
                });
                None
            }
            Did::Called(call, result) => {
                log.tell(Event::Called {
                    at,
                    owner: who,
                    call,
                    result,
                });
                if !is_shutdown(call) {
                    return None;
                }
                Some(self.shut_down(config, RunEnd::Shutdown, log))
            }
        }
    }

    /// The tick is over: the end of the owner is reported, if it has ended, and the tick is raised.
    fn end_tick<R: Recorder>(&mut self, who: Owner, ended: bool, log: &mut Log<R>)
        requires { self.old.world.tick + 1 < 2 ^ 64 }
        ensures gives { Gives (Tells R.Recorder) log.old log.new self.new.world None
            (tick_over who ended self.old.world) }
        ensures beside { self.new.beside ≡ self.old.beside }
    {
        self.tick += 1;
        self.last = Some(who);
        if ended {
            log.tell(Event::End {
                at: self.tick,
                owner: who,
            });
        }
    }

    /// Reports the owner of the tick where it is another than that of the tick before.
    fn tell_run<R: Recorder>(&self, who: Owner, log: &mut Log<R>)
        ensures { Tells R.Recorder log.old (run_line self.now.world who) log.new }
    {
        if !ran_before(self.last, who) {
            log.tell(Event::Run { at: self.tick, who });
        }
    }

    /// Of k ticks of an owner, all but the last are over.
    fn wait(&mut self, who: Owner, k: u64)
        requires some { 1 ≤ k }
        requires number { self.old.world.tick + k < 2 ^ 64 }
        ensures world { self.new.world ≡ waited (k - 1) who self.old.world }
        ensures beside { self.new.beside ≡ self.old.beside }
    {
        if k == 1 {
            return;
        }
        self.tick += k - 1;
        self.last = Some(who);
    }

    /// The ticks left of the `work` at the front of a runner; 0 where another statement is there,
    /// or nobody runs.
    fn work_left(&self, config: &ConfigParts, script: &ScriptParts, runner: Runner) -> u64
        requires kept { IsFor config.now script.now self.now.beside }
        requires runs { runner ≡ runner_of config.now self.now.world }
        ensures { result ≡ work_in_front (left_of self.now.world runner) }
    {
        match runner {
            Runner::Isr(_) => self.stack.work_left(),
            Runner::Job(_) => self.stack.work_left(),
            Runner::Oisr(_) => self.osek.work_left(),
            Runner::Osek(_) => self.osek.work_left(),
            Runner::Nobody => 0,
        }
    }

    /// How many ticks the one who runs takes at once, where nothing is due up to below this tick.
    pub(crate) fn jump_to(
        &self,
        config: &ConfigParts,
        script: &ScriptParts,
        runner: Runner,
        next: Tick,
    ) -> u64
        requires kept { IsFor config.now script.now self.now.beside }
        requires runs { runner ≡ runner_of config.now self.now.world }
        ensures { result ≡ jump_of runner (left_of self.now.world runner)
            (next - self.now.world.tick) }
    {
        let free = next.saturating_sub(self.tick);
        let left = self.work_left(config, script, runner);
        match runner {
            Runner::Nobody => free.max(1),
            _ => free.min(left).max(1),
        }
    }

    /// k ticks of the one who runs, of which all but the last are ticks of work or of idle time.
    pub(crate) fn step<R: Recorder, L: Ledger>(
        &mut self,
        config: &ConfigParts,
        script: &ScriptParts,
        runner: Runner,
        k: u64,
        log: &mut Log<R>,
        steps: &mut Steps<L>,
    ) -> Ticked
        requires some { 1 ≤ k }
        requires can { CanJump config.now script.now k self.old }
        requires runs { runner ≡ runner_of config.now self.old.world }
        ensures gives { Gives (Tells R.Recorder) log.old log.new self.new.world result.end
            (jump config.now script.now (k - 1) self.old.world) }
        ensures ended { result.ended
            ≡ owner_ends config.now script.now (at_work config.now (k - 1) self.old.world) }
        ensures last { result.last ≡ self.old.world.tick + (k - 1) }
        ensures beside { self.new.beside ≡ self.old.beside }
        ensures counted { steps.new ≡ steps.old + 1 }
    {
        let who = self.owner(config, runner);
        self.tell_run(who, log);
        self.wait(who, k);
        let last = self.tick();
        let taken = self.take(config, script, runner, who, k, steps);
        let end = self.tell_did(config, who, taken.did, log);
        let ended = somebody_ended(runner, taken.ended);
        if let Some(_end) = end {
            return Ticked { end, ended, last };
        }
        self.end_tick(who, ended, log);
        Ticked {
            end: None,
            ended,
            last,
        }
    }
}
