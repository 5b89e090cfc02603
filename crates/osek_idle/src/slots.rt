//! The tasks or the routines of the subsystem, and which of them runs.

ghost use Rattle.std.specs.Prelude.{◌≡◌, ◌≢◌, ◌<◌, ◌≤◌, ◌+◌, ◌↔◌, List, [], length, max, None, Some, IsTrue, option_to_list, slice_index_or, slice_set};
ghost use Rattle.task_lang.specs.declared.syntax.Stmt.{Stmt};
ghost use Rattle.task_lang.specs.Tick.{supply_of, state_of, ticks};
ghost use Rattle.task_machine.specs.Standing.{work_in_front};
ghost use Rattle.osek_idle.specs.Slots.{priorities, frames, top_of};
ghost use Rattle.osek_idle.specs.Standing.{AreSound, states, slot_left};

use crate::slot::{
    Slot, advance_slot, first_of, frame_at, highest, is_number, set_frame, slot_work_left,
};
use arrayvec::ArrayVec;
use std::marker::Model;
use task_machine::{Codes, Env, Frame, Progress};
use tt_base::{Ledger, Steps};

/// Tasks or routines by number, at most 32, and which of them runs before the others. Contracts
/// see the tasks or routines.
#[derive(Drop)]
pub(crate) struct Slots {
    slots: ArrayVec<Slot, 32>,
    /// Of those that have a frame, the one of the highest priority. All are searched for it only
    /// where its own frame goes.
    top: Option<u16>,
}

impl Model for Slots {
    ghost use Rattle.std.specs.Prelude.{◌≡◌, List};
    ghost use Rattle.osek_idle.specs.Slots.{top_of};
    ghost use Rattle.osek_idle.specs.declared.slot.Slot.{Slot};

    ghost Value = { List Slot };

    ghost view = { λ s. s.slots.items };

    ghost invariant = { λ s. s.top ≡ top_of s.slots.items };
}

impl Slots {
    pub(crate) fn new(slots: ArrayVec<Slot, 32>) -> Slots
        ensures { result ≡ slots.items }
    {
        let top = highest(slots.as_slice());
        Slots { slots, top }
    }

    /// Of those that have a frame, the number of the one of the highest priority; of equals, the
    /// least number.
    pub(crate) fn top(&self) -> Option<u16>
        ensures { result ≡ top_of self.now }
    {
        self.top
    }

    /// How many there are.
    pub(crate) fn len(&self) -> usize
        ensures value { result ≡ length self.now }
        ensures few { result ≤ 32 }
    {
        self.slots.len()
    }

    /// The frame of a number, if it has one.
    pub(crate) fn frame(&self, number: u16) -> Option<Frame>
        ensures { result ≡ slice_index_or (frames self.now) number None }
    {
        frame_at(self.slots.as_slice(), number)
    }

    /// Gives a number a frame. All others keep theirs.
    pub(crate) fn begin(&mut self, number: u16, frame: Frame)
        requires { number < length self.old }
        ensures priorities { priorities self.new ≡ priorities self.old }
        ensures frames { frames self.new ≡ slice_set (frames self.old) number (Some frame) }
    {
        set_frame(self.slots.as_mut_slice(), number, Some(frame));
        self.top = Some(first_of(self.slots.as_slice(), number, self.top));
    }

    /// Takes the frame of a number, if it has one. All others keep theirs.
    pub(crate) fn end(&mut self, number: u16)
        ensures priorities { priorities self.new ≡ priorities self.old }
        ensures frames { frames self.new ≡ slice_set (frames self.old) number None }
    {
        set_frame(self.slots.as_mut_slice(), number, None);
        if is_number(self.top, number) {
            self.top = highest(self.slots.as_slice());
        }
    }

    /// The ticks left of the `work` at the front of the frame of a number; 0 where there is none.
    pub(crate) fn work_left(&self, number: u16) -> u64
        ensures { (codes : List (List Stmt)) → AreSound codes (frames self.now)
            → result ≡ work_in_front (slot_left codes self.now number) }
    {
        slot_work_left(self.slots.as_slice(), number)
    }

    /// Takes k ticks of the frame of a number. All others keep theirs.
    pub(crate) fn advance<L: Ledger>(
        &mut self,
        number: u16,
        codes: &Codes,
        k: u64,
        env: &mut Env,
        steps: &mut Steps<L>,
    ) -> Progress
        requires sound { AreSound codes.now (frames self.old) }
        requires left { slot_left codes.now self.old number ≢ [] }
        requires some { 1 ≤ k }
        requires within { k ≤ max 1 (work_in_front (slot_left codes.now self.old number)) }
        ensures priorities { priorities self.new ≡ priorities self.old }
        ensures sound { AreSound codes.now (frames self.new) }
        ensures others { states codes.now (frames self.new)
            ≡ slice_set (states codes.now (frames self.old)) number
            (Some (slot_left codes.now self.new number)) }
        ensures ticks { state_of (slot_left codes.now self.new number) env.new.vars
            env.new.cursors (option_to_list result.effect)
            ≡ ticks (supply_of env.old.demands env.old.values) k
            (state_of (slot_left codes.now self.old number) env.old.vars env.old.cursors []) }
        ensures demands { env.new.demands ≡ env.old.demands }
        ensures values { env.new.values ≡ env.old.values }
        ensures ended { IsTrue result.ended ↔ (slot_left codes.now self.new number ≡ []) }
        ensures counted { steps.new ≡ steps.old + 1 }
    {
        advance_slot(self.slots.as_mut_slice(), number, codes, k, env, steps)
    }
}
