//! The subsystem.

ghost use Rattle.std.specs.Prelude.{◌≡◌, ◌≢◌, ◌≤◌, ◌<◌, ◌+◌, ◌↔◌, ℕ, List, [], ◌∷◌, length, map, max, None, Some, IsTrue, IfSome, if◌then◌else◌, option_to_list};
ghost use Rattle.std.specs.Option.{option_map};
ghost use Rattle.task_lang.specs.declared.syntax.Stmt.{Stmt};
ghost use Rattle.tt_world.specs.declared.config.OsekDef.{OsekDef};
ghost use Rattle.tt_world.specs.declared.config.OisrDef.{OisrDef};
ghost use Rattle.task_lang.specs.Tick.{supply_of, state_of, ticks};
ghost use Rattle.task_machine.specs.Standing.{work_in_front, body_of, left_of, IsSound as IsSoundFrame};
ghost use Rattle.osek_idle.specs.Subsystem.{is_ready, first_subsystem, picked, owner_left, owner_leaving, result_of, activated, chained, chain_result, readied, suspended, gone, begun, finished, ready_numbers};
ghost use Rattle.tt_world.specs.Runners.{highest};
ghost use Rattle.osek_idle.specs.Standing.{subsystem_of, setup_of, setup_for, task_body, routine_body, states, AreSound, IsSound, HaveBodies, HaveOsek};
ghost use Rattle.osek_idle.specs.Slots.{priorities, frames};

use crate::slot::Slot;
use crate::slots::Slots;
use arrayvec::ArrayVec;
use task_machine::{Codes, Env, Frame, Progress};
use tt_base::{Ledger, OisrNo, OsekNo, Owner, Steps};
use tt_world::{Config, OisrDef, OsekDef};

/// E_OK.
const OK: u8 = 0;

/// E_OS_LIMIT.
const LIMIT: u8 = 4;

/// The tasks and routines of the OSEK subsystem: at most 32 and 16.
#[derive(Drop)]
pub struct Osek {
    tasks: Slots,
    routines: Slots,
    /// The number of the first task's code. Those of the others follow, and then those of the
    /// routines.
    first: u16,
}

impl Osek {
    /// Before the first tick: the tasks with the auto mark are ready, and all others suspended. It
    /// takes no memory.
    pub fn new(config: &Config, codes: &Codes, first: u16) -> Osek
        requires { HaveOsek codes.now first config.now }
        ensures setup { setup_of result ≡ setup_for config.now first }
        ensures sound { IsSound codes.now result }
        ensures state { subsystem_of codes.now result ≡ first_subsystem config.now }
    {
        let parts = config.parts();
        Osek {
            tasks: first_tasks(parts.oseks.as_slice(), codes, first),
            routines: first_routines(parts.oisrs.as_slice()),
            first,
        }
    }

    /// ActivateTask: 0, and the task is ready with its whole body; or 4 where it is not suspended,
    /// and then nothing has changed.
    pub fn activate(&mut self, codes: &Codes, task: OsekNo) -> u8
        requires sound { IsSound codes.now self.old }
        requires exists { task.0 < length (setup_of self.old).tasks }
        ensures setup { setup_of self.new ≡ setup_of self.old }
        ensures sound { IsSound codes.now self.new }
        ensures result { result ≡ result_of
            (is_ready (subsystem_of codes.now self.old).tasks task.0) }
        ensures state { subsystem_of codes.now self.new
            ≡ activated (task_body codes.now (setup_of self.old) task.0) task.0
            (subsystem_of codes.now self.old) }
    {
        if self.is_ready(task) {
            return LIMIT;
        }
        self.make_ready(codes, task);
        OK
    }

    /// ChainTask: 0, and the caller is suspended and the task ready with its whole body; or 4
    /// where it is another task than the caller and is not suspended, and then nothing has
    /// changed.
    pub fn chain(&mut self, codes: &Codes, caller: OsekNo, task: OsekNo) -> u8
        requires sound { IsSound codes.now self.old }
        requires exists { task.0 < length (setup_of self.old).tasks }
        ensures setup { setup_of self.new ≡ setup_of self.old }
        ensures sound { IsSound codes.now self.new }
        ensures result { result ≡ chain_result caller.0 task.0 (subsystem_of codes.now self.old) }
        ensures state { subsystem_of codes.now self.new
            ≡ chained (task_body codes.now (setup_of self.old) task.0) caller.0 task.0
            (subsystem_of codes.now self.old) }
    {
        if caller.0 == task.0 {
            self.make_ready(codes, task);
            return OK;
        }
        if self.is_ready(task) {
            return LIMIT;
        }
        self.make_ready(codes, task);
        self.suspend(caller);
        OK
    }

    /// TerminateTask: 0, and the caller is suspended.
    pub fn terminate(&mut self, caller: OsekNo) -> u8
        ensures setup { setup_of self.new ≡ setup_of self.old }
        ensures sound { (codes : List (List Stmt)) → IsSound codes self.old
            → IsSound codes self.new }
        ensures result { result ≡ 0 }
        ensures state { (codes : List (List Stmt))
            → subsystem_of codes self.new ≡ suspended caller.0 (subsystem_of codes self.old) }
    {
        self.suspend(caller);
        OK
    }

    /// The routine begins with its whole body.
    pub fn accept(&mut self, codes: &Codes, oisr: OisrNo)
        requires sound { IsSound codes.now self.old }
        requires exists { oisr.0 < length (setup_of self.old).routines }
        ensures setup { setup_of self.new ≡ setup_of self.old }
        ensures sound { IsSound codes.now self.new }
        ensures state { subsystem_of codes.now self.new
            ≡ begun (routine_body codes.now (setup_of self.old) oisr.0) oisr.0
            (subsystem_of codes.now self.old) }
    {
        let first = codes.number_after(self.first, self.tasks.len() as u16);
        let program = codes.number_after(first, oisr.0);
        self.routines.begin(oisr.0, Frame::start(codes, program));
    }

    /// Whether a routine is unfinished.
    pub fn unfinished(&self, oisr: OisrNo) -> bool
        ensures { (codes : List (List Stmt))
            → result ≡ is_ready (subsystem_of codes self.now).routines oisr.0 }
    {
        self.routines.frame(oisr.0).is_some()
    }

    /// Who of the subsystem runs: the unfinished routine of the highest priority, else the ready
    /// task of the highest priority. None exactly where all tasks are suspended and all routines
    /// finished.
    pub fn picks(&self) -> Option<Owner>
        ensures { (codes : List (List Stmt))
            → result ≡ picked (setup_of self.now) (subsystem_of codes self.now) }
    {
        match self.top_routine() {
            Some(number) => Some(Owner::Oisr(OisrNo(number))),
            None => match self.top_task() {
                Some(number) => Some(Owner::Osek(OsekNo(number))),
                None => None,
            },
        }
    }

    /// The ticks left of the `work` at the front of the one that `picks` gives; 0 where another
    /// statement is there.
    pub fn work_left(&self) -> u64
        ensures { (codes : List (List Stmt)) → IsSound codes self.now
            → result ≡ work_in_front (owner_left (subsystem_of codes self.now)
            (picked (setup_of self.now) (subsystem_of codes self.now))) }
    {
        match self.picks() {
            Some(owner) => self.owner_work_left(owner),
            None => 0,
        }
    }

    /// Takes k ticks of the one that `picks` gives: one, or at most the ticks left of the `work` at
    /// its front. It suspends nobody, counts one step and takes no memory.
    pub fn advance<L: Ledger>(
        &mut self,
        codes: &Codes,
        k: u64,
        env: &mut Env,
        steps: &mut Steps<L>,
    ) -> Progress
        requires sound { IsSound codes.now self.old }
        requires left { owner_left (subsystem_of codes.now self.old)
            (picked (setup_of self.old) (subsystem_of codes.now self.old)) ≢ [] }
        requires some { 1 ≤ k }
        requires within { k ≤ max 1
            (work_in_front (owner_left (subsystem_of codes.now self.old)
            (picked (setup_of self.old) (subsystem_of codes.now self.old)))) }
        ensures setup { setup_of self.new ≡ setup_of self.old }
        ensures sound { IsSound codes.now self.new }

        // Only what is left of that owner changes.
        ensures others { let who = picked (setup_of self.old) (subsystem_of codes.now self.old) in
            subsystem_of codes.now self.new
            ≡ owner_leaving who (owner_left (subsystem_of codes.now self.new) who)
            (subsystem_of codes.now self.old) }

        // The list, the variables, the cursors and the effect are those of k ticks of the list.
        ensures ticks { let who = picked (setup_of self.old) (subsystem_of codes.now self.old) in
            state_of (owner_left (subsystem_of codes.now self.new) who) env.new.vars
            env.new.cursors (option_to_list result.effect)
            ≡ ticks (supply_of env.old.demands env.old.values) k
            (state_of (owner_left (subsystem_of codes.now self.old) who) env.old.vars
            env.old.cursors []) }
        ensures demands { env.new.demands ≡ env.old.demands }
        ensures values { env.new.values ≡ env.old.values }
        ensures ended { let who = picked (setup_of self.old) (subsystem_of codes.now self.old) in
            IsTrue result.ended ↔ (owner_left (subsystem_of codes.now self.new) who ≡ []) }
        ensures counted { steps.new ≡ steps.old + 1 }
    {
        match self.picks() {
            Some(owner) => self.advance_owner(owner, codes, k, env, steps),
            None => Progress {
                effect: None,
                ended: true,
            },
        }
    }

    /// The end of an owner: its task is suspended, or its routine is gone.
    pub fn finish(&mut self, owner: Owner)
        ensures setup { setup_of self.new ≡ setup_of self.old }
        ensures sound { (codes : List (List Stmt)) → IsSound codes self.old
            → IsSound codes self.new }
        ensures state { (codes : List (List Stmt))
            → subsystem_of codes self.new ≡ finished owner (subsystem_of codes self.old) }
    {
        match owner {
            Owner::Osek(task) => self.suspend(task),
            Owner::Oisr(oisr) => self.give_up(oisr),
            _ => {}
        }
    }

    /// The unfinished routine of the highest priority, if there is one.
    fn top_routine(&self) -> Option<u16>
        ensures { result
            ≡ highest (priorities self.now.routines)
            (ready_numbers (frames self.now.routines)) }
    {
        self.routines.top()
    }

    /// The ready task of the highest priority, if there is one.
    fn top_task(&self) -> Option<u16>
        ensures { result ≡ highest (priorities self.now.tasks)
            (ready_numbers (frames self.now.tasks)) }
    {
        self.tasks.top()
    }

    /// The ticks left of the `work` at the front of an owner.
    fn owner_work_left(&self, owner: Owner) -> u64
        ensures { (codes : List (List Stmt)) → IsSound codes self.now
            → result ≡ work_in_front (owner_left (subsystem_of codes self.now) (Some owner)) }
    {
        match owner {
            Owner::Oisr(oisr) => self.routines.work_left(oisr.0),
            Owner::Osek(task) => self.tasks.work_left(task.0),
            _ => 0,
        }
    }

    /// k ticks of an owner.
    fn advance_owner<L: Ledger>(
        &mut self,
        owner: Owner,
        codes: &Codes,
        k: u64,
        env: &mut Env,
        steps: &mut Steps<L>,
    ) -> Progress
        requires sound { IsSound codes.now self.old }
        requires left { owner_left (subsystem_of codes.now self.old) (Some owner) ≢ [] }
        requires some { 1 ≤ k }
        requires within { k ≤ max 1
            (work_in_front (owner_left (subsystem_of codes.now self.old) (Some owner))) }
        ensures setup { setup_of self.new ≡ setup_of self.old }
        ensures sound { IsSound codes.now self.new }
        ensures others { subsystem_of codes.now self.new
            ≡ owner_leaving (Some owner)
            (owner_left (subsystem_of codes.now self.new) (Some owner))
            (subsystem_of codes.now self.old) }
        ensures ticks { state_of (owner_left (subsystem_of codes.now self.new) (Some owner))
            env.new.vars env.new.cursors (option_to_list result.effect)
            ≡ ticks (supply_of env.old.demands env.old.values) k
            (state_of (owner_left (subsystem_of codes.now self.old) (Some owner)) env.old.vars
            env.old.cursors []) }
        ensures demands { env.new.demands ≡ env.old.demands }
        ensures values { env.new.values ≡ env.old.values }
        ensures ended { IsTrue result.ended
            ↔ (owner_left (subsystem_of codes.now self.new) (Some owner) ≡ []) }
        ensures counted { steps.new ≡ steps.old + 1 }
    {
        match owner {
            Owner::Oisr(oisr) => self.routines.advance(oisr.0, codes, k, env, steps),
            Owner::Osek(task) => self.tasks.advance(task.0, codes, k, env, steps),
            _ => Progress {
                effect: None,
                ended: true,
            },
        }
    }

    /// The end of a routine.
    fn give_up(&mut self, oisr: OisrNo)
        ensures setup { setup_of self.new ≡ setup_of self.old }
        ensures sound { (codes : List (List Stmt)) → IsSound codes self.old
            → IsSound codes self.new }
        ensures state { (codes : List (List Stmt))
            → subsystem_of codes self.new ≡ gone oisr.0 (subsystem_of codes self.old) }
    {
        self.routines.end(oisr.0);
    }

    /// Whether a task is not suspended.
    fn is_ready(&self, task: OsekNo) -> bool
        ensures { (codes : List (List Stmt))
            → result ≡ is_ready (subsystem_of codes self.now).tasks task.0 }
    {
        self.tasks.frame(task.0).is_some()
    }

    fn make_ready(&mut self, codes: &Codes, task: OsekNo)
        requires sound { IsSound codes.now self.old }
        requires exists { task.0 < length (setup_of self.old).tasks }
        ensures setup { setup_of self.new ≡ setup_of self.old }
        ensures sound { IsSound codes.now self.new }
        ensures state { subsystem_of codes.now self.new
            ≡ readied (task_body codes.now (setup_of self.old) task.0) task.0
            (subsystem_of codes.now self.old) }
    {
        let program = codes.number_after(self.first, task.0);
        self.tasks.begin(task.0, Frame::start(codes, program));
    }

    fn suspend(&mut self, task: OsekNo)
        ensures setup { setup_of self.new ≡ setup_of self.old }
        ensures sound { (codes : List (List Stmt)) → IsSound codes self.old
            → IsSound codes self.new }
        ensures state { (codes : List (List Stmt))
            → subsystem_of codes self.new ≡ suspended task.0 (subsystem_of codes self.old) }
    {
        self.tasks.end(task.0);
    }
}

/// The tasks before the first tick.
fn first_tasks(tasks: &[OsekDef], codes: &Codes, first: u16) -> Slots
    requires few { length tasks.now ≤ 32 }
    requires there { HaveBodies codes.now first (map (λ (task : OsekDef). task.body) tasks.now) }
    ensures priorities { priorities result
        ≡ map (λ (task : OsekDef). task.priority) tasks.now }
    ensures sound { AreSound codes.now (frames result) }
    ensures state { states codes.now (frames result)
        ≡ map (λ (task : OsekDef). if task.auto then Some task.body else None) tasks.now }
{
    let mut slots = ArrayVec::new();
    for (number, task) in tasks.iter().enumerate() {
        slots.push(first_task(task, codes, first, number as u16));
    }
    Slots::new(slots)
}

/// A task before the first tick. Its code is the one at this place after the first.
fn first_task(task: &OsekDef, codes: &Codes, first: u16, number: u16) -> Slot
    requires there { first + number < length codes.now }
    requires body { body_of codes.now (first + number) ≡ task.now.body }
    ensures priority { result.priority ≡ task.now.priority }
    ensures sound { IfSome result.frame (IsSoundFrame codes.now) }
    ensures state { option_map (left_of codes.now) result.frame
        ≡ (if task.now.auto then Some task.now.body else None) }
{
    if !task.auto {
        return Slot {
            priority: task.priority,
            frame: None,
        };
    }
    let program = codes.number_after(first, number);
    Slot {
        priority: task.priority,
        frame: Some(Frame::start(codes, program)),
    }
}

/// The routines before the first tick.
fn first_routines(oisrs: &[OisrDef]) -> Slots
    requires { length oisrs.now ≤ 16 }
    ensures priorities { priorities result
        ≡ map (λ (oisr : OisrDef). oisr.priority) oisrs.now }
    ensures frames { frames result ≡ map (λ (oisr : OisrDef). None) oisrs.now }
{
    let mut slots = ArrayVec::new();
    for oisr in oisrs {
        slots.push(Slot {
            priority: oisr.priority,
            frame: None,
        });
    }
    Slots::new(slots)
}
