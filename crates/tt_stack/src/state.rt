//! The stack with what its frames stand for.

ghost use Rattle.std.specs.Prelude.{◌≡◌, ◌≢◌, ◌≤◌, ◌<◌, ◌+◌, ◌-◌, ◌↔◌, List, [], length, map, max, replicate, true, IfSome, IsSome, IsTrue, option_to_list, slice_get, slice_index_or};
ghost use Rattle.task_lang.specs.Tick.{supply_of, state_of, ticks};
ghost use Rattle.task_machine.specs.Standing.{body_of, left_of, work_in_front, IsSound as IsSoundFrame};
ghost use Rattle.tt_world.specs.declared.config.IsrDef.{IsrDef};
ghost use Rattle.tt_world.specs.ConfigRules.{are_distinct};
ghost use Rattle.tt_world.specs.Load.{count_unfinished};
ghost use Rattle.tt_world.specs.Runners.{is_done, job_at};
ghost use Rattle.tt_stack.specs.Kept.{entries_after, runner_for};
ghost use Rattle.tt_stack.specs.Stacked.{with_job, with_isr, isr_body, runner_in, running, left_in, leaving_in, depth_in, words_in};
ghost use Rattle.tt_stack.specs.Words.{Words, entry_words, routine_words};

use crate::words::DeclaredWords;
use arrayvec::ArrayVec;
use run_stack::RunStack;
use std::marker::Model;
use task_machine::{Codes, Env, Frame, Progress, advance};
use tt_base::{IsrNo, Ledger, ModeNo, Owner, Steps, TaskNo};
use tt_world::{IsrDef, Runner};

/// The unfinished activations of the present round and the unfinished time-triggered routines, as
/// frames on a stack. It takes no memory beside its own. Contracts see the activations of the
/// round and what is left of each, and what is left of each routine.
#[derive(Drop)]
pub struct TtStack {
    codes: Codes,
    /// The program number of the first routine. Those of the others follow.
    first: u16,
    /// The levels of the routines, by number.
    levels: ArrayVec<u8, 16>,
    words: DeclaredWords,
    stack: RunStack,
    /// The entry number of each frame of a task, in the order of the stack.
    entries: ArrayVec<usize, 64>,
    /// How many activations the round has had.
    reached: usize,
}

impl Model for TtStack {
    ghost use Rattle.std.specs.Coded.{codes as code_rules};
    ghost use Rattle.task_lang.specs.contracts.syntax.Stmt as stmt;
    ghost use Rattle.tt_stack.specs.Stacked.{Stacked};
    ghost use Rattle.tt_stack.specs.Kept.{stacked, AreKept};

    ghost Value = { Stacked };

    ghost coded = { Prim.hlevel (code_rules, stmt.the_row.coded) };

    ghost view = { λ s. stacked s.codes s.first s.levels.items s.words s.stack s.entries.items
        s.reached };

    ghost invariant = { λ s. AreKept s.codes s.first s.levels.items s.words s.stack
        s.entries.items s.reached };
}

/// The levels of some routines, by number.
fn levels_of(isrs: &[IsrDef]) -> ArrayVec<u8, 16>
    requires { length isrs.now ≤ 16 }
    ensures { result.items ≡ map (λ (isr : IsrDef). isr.level) isrs.now }
{
    let mut levels = ArrayVec::new();
    for isr in isrs {
        levels.push(isr.level);
    }
    levels
}

/// The last of some entries.
fn last_of(entries: &[usize]) -> Option<usize>
    ensures { result ≡ slice_get entries.now (length entries.now - 1) }
{
    entries.last().copied()
}

/// Who runs, where the frame on top has this owner and the last entry is this one.
fn runner_for(owner: Owner, last: Option<usize>) -> Option<Runner>
    ensures { result ≡ runner_for owner last }
{
    match owner {
        Owner::Isr(isr) => Some(Runner::Isr(isr)),
        _ => last.map(Runner::Job),
    }
}

/// Drops the last entry, unless the frame's owner is a routine.
fn drop_entry(entries: &mut ArrayVec<usize, 64>, owner: Owner)
    ensures { entries.new.items ≡ entries_after owner entries.old.items }
{
    match owner {
        Owner::Isr(_) => {}
        _ => {
            let _entry = entries.pop();
        }
    }
}

impl TtStack {
    /// Before the first round: no activation, and no routine is unfinished. The program of a task
    /// has the number of the task; those of the routines have the numbers from `first` on.
    pub fn new(codes: Codes, words: DeclaredWords, isrs: &[IsrDef], first: u16) -> TtStack
        requires few { length isrs.now ≤ 16 }
        requires distinct { are_distinct (map (λ (isr : IsrDef). isr.level) isrs.now) ≡ true }
        requires enough { first + length isrs.now ≤ length codes }
        ensures { result ≡ record {
          codes = codes;
          first = first;
          levels = map (λ (isr : IsrDef). isr.level) isrs.now;
          words = words;
          jobs = [];
          isrs = replicate (length isrs.now) [];
        } }
    {
        TtStack {
            codes,
            first,
            levels: levels_of(isrs),
            words,
            stack: RunStack::new(),
            entries: ArrayVec::new(),
            reached: 0,
        }
    }

    /// The codes of all programs.
    pub fn codes(&self) -> &Codes
        ensures { result.now ≡ self.now.codes }
    {
        &self.codes
    }

    /// The next activation of the round, of a task, begins with its whole body.
    pub fn activate(&mut self, task: TaskNo)
        requires exists { task.0 < self.old.first }
        requires room { count_unfinished self.old.jobs < 64 }
        requires in_count { length self.old.jobs < usize.MAX }
        ensures { self.new ≡ with_job (body_of self.old.codes task.0) self.old }
    {
        let frame = Frame::start(&self.codes, task.0);
        if frame.ended() {
            self.count();
        } else {
            self.begin_task(task, frame);
        }
    }

    /// A routine begins with its whole body.
    pub fn accept(&mut self, isr: IsrNo)
        requires exists { isr.0 < length self.old.levels }
        requires finished { is_done (slice_index_or self.old.isrs isr.0 []) ≡ true }
        ensures { self.new ≡ with_isr isr.0 (isr_body self.old isr.0) self.old }
    {
        let program = self.codes.number_after(self.first, isr.0);
        let frame = Frame::start(&self.codes, program);
        if frame.ended() {
            return;
        }
        self.begin_isr(isr, frame);
    }

    /// Who runs: the unfinished routine of the highest level, else the last activation that has
    /// statements left. None where nothing is unfinished.
    pub fn runner(&self) -> Option<Runner>
        ensures { result ≡ runner_in self.now }
    {
        match self.stack.top() {
            Some(top) => runner_for(top.owner, last_of(self.entries.as_slice())),
            None => None,
        }
    }

    /// The ticks left of the `work` at the front of the one that runs; 0 where another statement
    /// is there, or nobody runs.
    pub fn work_left(&self) -> u64
        ensures { result ≡ work_in_front (left_in self.now (running self.now)) }
    {
        match self.top() {
            Some(frame) => frame.work_left(),
            None => 0,
        }
    }

    /// Takes k ticks of the one that runs: one, or at most the ticks left of the `work` at its
    /// front. If nothing is left then, it has ended. The call counts one step and takes no memory.
    pub fn advance<L: Ledger>(&mut self, k: u64, env: &mut Env, steps: &mut Steps<L>) -> Progress
        requires runs { IsSome (runner_in self.old) }
        requires some { 1 ≤ k }
        requires within { k ≤ max 1 (work_in_front (left_in self.old (running self.old))) }

        // Only what is left of that one changes.
        ensures others { let who = running self.old in
            self.new ≡ leaving_in self.old who (left_in self.new who) }

        // The list, the variables, the cursors and the effect are those of k ticks of the list.
        ensures ticks { let who = running self.old in
            state_of (left_in self.new who) env.new.vars env.new.cursors
            (option_to_list result.effect)
            ≡ ticks (supply_of env.old.demands env.old.values) k
            (state_of (left_in self.old who) env.old.vars env.old.cursors []) }
        ensures demands { env.new.demands ≡ env.old.demands }
        ensures values { env.new.values ≡ env.old.values }
        ensures ended { IsTrue result.ended ↔ (left_in self.new (running self.old) ≡ []) }
        ensures counted { steps.new ≡ steps.old + 1 }
    {
        match self.top() {
            Some(frame) => {
                let mut frame = frame;
                let progress = advance(&mut frame, &self.codes, k, env, steps);
                self.leave(frame);
                progress
            }
            None => Progress {
                effect: None,
                ended: true,
            },
        }
    }

    /// Whether nothing is left of the activation at a place of the round. Nothing is left of one
    /// that does not exist.
    pub fn is_job_done(&self, place: usize) -> bool
        ensures { result ≡ is_done (job_at self.now.jobs place).left }
    {
        !self.entries.as_slice().contains(&place)
    }

    /// Whether a routine is finished. Nothing is left of one that does not exist.
    pub fn is_isr_done(&self, isr: IsrNo) -> bool
        ensures { result ≡ is_done (slice_index_or self.now.isrs isr.0 []) }
    {
        !self.stack.holds(Owner::Isr(isr))
    }

    /// The entry number of the activation at a place of the round, which is the place itself; 0
    /// where there is none.
    pub fn entry_at(&self, place: usize) -> usize
        ensures { result ≡ (job_at self.now.jobs place).entry }
    {
        if place < self.reached { place } else { 0 }
    }

    /// A round has ended: its activations are gone, also those that are unfinished, and a round of
    /// this mode begins. The routines stay.
    pub fn clear_jobs(&mut self, mode: ModeNo)
        ensures { self.new ≡ record self.old {
          jobs = [];
          words = record self.old.words { mode = mode };
        } }
    {
        self.stack.clear_tasks();
        self.entries.clear();
        self.reached = 0;
        self.words.begin_round(mode);
    }

    /// How many activations and routines are unfinished.
    pub fn depth(&self) -> usize
        ensures { result ≡ depth_in self.now }
    {
        self.stack.depth()
    }

    /// The declared words of stack of the activations and routines that are unfinished.
    pub fn words(&self) -> u64
        ensures { result ≡ words_in self.now }
    {
        self.stack.words()
    }

    /// The frame of the one that runs.
    fn top(&self) -> Option<Frame>
        ensures runs { IsSome result ↔ IsSome (runner_in self.now) }
        ensures sound { IfSome result (IsSoundFrame self.now.codes) }
        ensures left { IfSome result
            (λ frame. left_of self.now.codes frame ≡ left_in self.now (running self.now)) }
        ensures some { IfSome result (λ frame. left_of self.now.codes frame ≢ []) }
    {
        match self.stack.top() {
            Some(top) => Some(top.frame),
            None => None,
        }
    }

    /// An activation of which nothing is left.
    fn count(&mut self)
        requires in_count { length self.old.jobs < usize.MAX }
        ensures { self.new ≡ with_job [] self.old }
    {
        self.reached += 1;
    }

    /// One more activation, with this frame.
    fn begin_task(&mut self, task: TaskNo, frame: Frame)
        requires room { count_unfinished self.old.jobs < 64 }
        requires in_count { length self.old.jobs < usize.MAX }
        requires sound { IsSoundFrame self.old.codes frame }
        requires some { left_of self.old.codes frame ≢ [] }
        ensures { self.new ≡ with_job (left_of self.old.codes frame) self.old }
    {
        let words = self.words.of_entry(self.reached);
        self.stack.push_task(task, frame, words);
        self.entries.push(self.reached);
        self.reached += 1;
    }

    /// A routine begins, with this frame.
    fn begin_isr(&mut self, isr: IsrNo, frame: Frame)
        requires exists { isr.0 < length self.old.levels }
        requires finished { is_done (slice_index_or self.old.isrs isr.0 []) ≡ true }
        requires sound { IsSoundFrame self.old.codes frame }
        requires some { left_of self.old.codes frame ≢ [] }
        ensures { self.new ≡ with_isr isr.0 (left_of self.old.codes frame) self.old }
    {
        let level = self.levels[usize::from(isr.0)];
        let words = self.words.of_isr(isr);
        self.stack.accept_isr(isr, level, frame, words);
    }

    /// The one that runs has this frame now, or has ended.
    fn leave(&mut self, frame: Frame)
        requires runs { IsSome (runner_in self.old) }
        requires sound { IsSoundFrame self.old.codes frame }
        ensures { self.new ≡ leaving_in self.old (running self.old) (left_of self.old.codes frame) }
    {
        if frame.ended() {
            self.take_off();
        } else {
            self.stack.set_top(frame);
        }
    }

    /// Nothing is left of the one that runs.
    fn take_off(&mut self)
        requires runs { IsSome (runner_in self.old) }
        ensures { self.new ≡ leaving_in self.old (running self.old) [] }
    {
        if let Some(top) = self.stack.top() {
            self.stack.pop();
            drop_entry(&mut self.entries, top.owner);
        }
    }
}
