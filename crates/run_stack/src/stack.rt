//! The stack, and its two lists.

ghost use Rattle.std.specs.Prelude.{◌≡◌, ◌≢◌, ◌<◌, ◌≤◌, ◌↔◌, [], All, Any, length, option_map, IsNone, IsTrue, IfSome};
ghost use Rattle.std.specs.List.{prefix_len};
ghost use Rattle.arrayvec.specs.ArrayVec.{array_vec_len};
ghost use Rattle.run_stack.specs.Frames.{Holds, by_level, depth_of, is_lower, last, popped, seen, sum_of_words, task_frame, isr_frame, top_of, with_isr, with_last, with_task, with_top, words_of};

use crate::Top;
use arrayvec::ArrayVec;
use std::marker::Model;
use task_machine::Frame;
use tt_base::{IsrNo, Owner, TaskNo};

/// How many frames of tasks a stack holds at most.
pub const TASKS: usize = 64;

/// How many frames of interrupt service routines a stack holds at most.
pub const ISRS: usize = 16;

/// An unfinished activation on a stack.
#[derive(Clone, Copy, Default)]
pub struct StackFrame {
    /// Whose activation it is.
    pub owner: Owner,
    /// The interrupt level of a routine; 0 for a task.
    pub level: u8,
    /// How many words of stack it takes.
    pub words: u32,
    /// Where it is in its body.
    pub frame: Frame,
}

/// The unfinished activations of tasks, in the order of activation, and the unfinished interrupt
/// service routines by level, the lowest first. It takes no memory besides its own. Contracts see
/// it as these two lists.
#[derive(Drop)]
pub struct RunStack {
    /// The sum of the words of all frames.
    words: u64,
    tasks: ArrayVec<StackFrame, TASKS>,
    isrs: ArrayVec<StackFrame, ISRS>,
}

impl Model for RunStack {
    ghost use Rattle.run_stack.specs.Frames.{Frames, IsStack};

    ghost Value = { Frames };

    ghost view = { λ s. record { tasks = s.tasks.items; isrs = s.isrs.items } };

    ghost invariant = { λ s. IsStack s.tasks.items s.isrs.items s.words };
}

/// Replaces the frame of the last of some entries.
fn set_last(frames: &mut [StackFrame], frame: Frame)
    requires { 0 < length frames.old }
    ensures { frames.new ≡ with_last frame frames.old }
{
    let end = frames.len() - 1;
    frames[end].frame = frame;
}

/// How many frames at the front have a lower level.
fn count_lower(frames: &[StackFrame], level: u8) -> usize
    ensures value { result ≡ prefix_len (is_lower level) frames.now }
    ensures within { result ≤ length frames.now }
{
    frames.iter().take_while(|f| f.level < level).count()
}

/// Puts a frame after those of lower levels.
fn insert_by_level(frames: &mut ArrayVec<StackFrame, ISRS>, new: StackFrame)
    requires { array_vec_len frames.old < ISRS }
    ensures { frames.new.items ≡ by_level new frames.old.items }
{
    let place = count_lower(frames.as_slice(), new.level);
    frames.insert(place, new);
}

/// The sum of the words of some frames.
fn words_in(frames: &[StackFrame]) -> u64
    requires { length frames.now ≤ ISRS }
    ensures { result ≡ sum_of_words frames.now }
{
    let mut words = 0;
    for frame in frames {
        words += u64::from(frame.words);
    }
    words
}

/// Whether one of some frames belongs to an owner.
fn has(frames: &[StackFrame], owner: Owner) -> bool
    ensures { IsTrue result ↔ Any (λ f. f.owner ≡ owner) frames.now }
{
    frames.iter().any(|f| f.owner == owner)
}

impl RunStack {
    /// A stack with no frame.
    pub fn new() -> RunStack
        ensures { result ≡ record { tasks = []; isrs = [] } }
    {
        RunStack {
            words: 0,
            tasks: ArrayVec::new(),
            isrs: ArrayVec::new(),
        }
    }

    /// Puts the frame of an activated task on top of those of the other tasks.
    pub fn push_task(&mut self, task: TaskNo, frame: Frame, words: u32)
        requires { length self.old.tasks < TASKS }
        ensures { self.new ≡ with_task (task_frame task frame words) self.old }
    {
        self.words += u64::from(words);
        self.tasks.push(StackFrame {
            owner: Owner::Task(task),
            level: 0,
            words,
            frame,
        });
    }

    /// Puts the frame of an accepted routine among those of the other routines, by its level.
    pub fn accept_isr(&mut self, isr: IsrNo, level: u8, frame: Frame, words: u32)
        requires room { length self.old.isrs < ISRS }
        requires new { Holds self.old (Owner.Isr isr) → ⊥ }
        requires new_level { All (λ f. f.level ≢ level) self.old.isrs }
        ensures { self.new ≡ with_isr (isr_frame isr level frame words) self.old }
    {
        self.words += u64::from(words);
        let new = StackFrame {
            owner: Owner::Isr(isr),
            level,
            words,
            frame,
        };
        insert_by_level(&mut self.isrs, new);
    }

    /// The frame on top: that of the routine of the highest level, else that of the task activated
    /// last. None exactly where the stack is empty.
    pub fn top(&self) -> Option<Top>
        ensures top { result ≡ option_map seen (top_of self.now) }
        ensures none { IsNone result ↔ (depth_of self.now ≡ 0) }
        ensures highest { IfSome (last self.now.isrs)
            (λ top. All (λ f. f.level ≤ top.level) self.now.isrs) }
    {
        let top = match self.isrs.as_slice().last() {
            Some(top) => top,
            None => self.tasks.as_slice().last()?,
        };
        Some(Top {
            owner: top.owner,
            frame: top.frame,
        })
    }

    /// Replaces the frame of the top entry. Its owner and words stay, and so do all other entries.
    pub fn set_top(&mut self, frame: Frame)
        requires { 0 < depth_of self.old }
        ensures { self.new ≡ with_top frame self.old }
    {
        if self.isrs.is_empty() {
            set_last(self.tasks.as_mut_slice(), frame);
        } else {
            set_last(self.isrs.as_mut_slice(), frame);
        }
    }

    /// Takes the top entry away.
    pub fn pop(&mut self)
        requires { 0 < depth_of self.old }
        ensures { self.new ≡ popped self.old }
    {
        if let Some(gone) = self.isrs.pop() {
            self.words -= u64::from(gone.words);
            return;
        }
        if let Some(gone) = self.tasks.pop() {
            self.words -= u64::from(gone.words);
        }
    }

    /// Takes the frames of all tasks away. The routines stay.
    pub fn clear_tasks(&mut self)
        ensures { self.new ≡ record { tasks = []; isrs = self.old.isrs } }
    {
        self.tasks.clear();
        self.words = words_in(self.isrs.as_slice());
    }

    /// Whether there is a frame of an owner.
    pub fn holds(&self, owner: Owner) -> bool
        ensures { IsTrue result ↔ Holds self.now owner }
    {
        if has(self.tasks.as_slice(), owner) {
            return true;
        }
        has(self.isrs.as_slice(), owner)
    }

    /// How many frames there are.
    pub fn depth(&self) -> usize
        ensures value { result ≡ depth_of self.now }
        ensures few { result ≤ 80 }
    {
        self.tasks.len() + self.isrs.len()
    }

    /// The sum of the words of all frames.
    pub fn words(&self) -> u64
        ensures { result ≡ words_of self.now }
    {
        self.words
    }
}

impl Default for RunStack {
    ghost is_default = { λ s. s ≡ record { tasks = []; isrs = [] } };

    fn default() -> RunStack {
        RunStack::new()
    }
}
