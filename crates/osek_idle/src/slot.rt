//! A task or a routine of the subsystem.

ghost use Rattle.std.specs.Prelude.{◌≡◌, ◌≢◌, ◌≤◌, ◌<◌, ◌+◌, ◌^◌, ◌↔◌, ℕ, List, [], ◌∷◌, length, map, max, None, Some, IsTrue, option_to_list, slice_index_or, slice_set};
ghost use Rattle.std.specs.Option.{is_some, option_map};
ghost use Rattle.std.specs.List.{All};
ghost use Rattle.task_lang.specs.declared.syntax.Stmt.{Stmt};
ghost use Rattle.task_lang.specs.Tick.{supply_of, state_of, ticks};
ghost use Rattle.task_machine.specs.Standing.{work_in_front};
ghost use Rattle.tt_world.specs.Runners.{higher};
ghost use Rattle.osek_idle.specs.Subsystem.{ready_numbers, left_in};
ghost use Rattle.osek_idle.specs.Standing.{AreSound, states, slot_left};
ghost use Rattle.osek_idle.specs.Slots.{first_of, priorities, frames, top_of};

use task_machine::{Codes, Env, Frame, Progress, advance};
use tt_base::{Ledger, Steps};

/// A task or a routine: its priority (a larger number is a higher one) and its frame. A suspended
/// task has no frame, and neither has a finished routine.
#[derive(Clone, Copy, Default)]
pub(crate) struct Slot {
    pub(crate) priority: u8,
    pub(crate) frame: Option<Frame>,
}

/// The frame of a number, if it has one.
pub(crate) fn frame_at(slots: &[Slot], number: u16) -> Option<Frame>
    ensures { result ≡ slice_index_or (frames slots.now) number None }
{
    match slots.get(usize::from(number)) {
        Some(slot) => slot.frame,
        None => None,
    }
}

/// Gives a number a frame, or none. All others keep theirs.
pub(crate) fn set_frame(slots: &mut [Slot], number: u16, frame: Option<Frame>)
    ensures priorities { priorities slots.new ≡ priorities slots.old }
    ensures frames { frames slots.new ≡ slice_set (frames slots.old) number frame }
{
    let place = usize::from(number);
    if place < slots.len() {
        slots[place].frame = frame;
    }
}

/// Of those that have a frame, the number of the one of the highest priority; of equals, the least
/// number.
#[tactic(auto, using(crate::proofs::Highest::none_yet, crate::proofs::Highest::all_seen, crate::proofs::Highest::one_more, crate::proofs::Highest::none_more))]
pub(crate) fn highest(slots: &[Slot]) -> Option<u16>
    requires { length slots.now ≤ 32 }
    ensures { result ≡ top_of slots.now }
{
    let mut best = None;
    for number in (0..slots.len()).rev() {
        if frame_at(slots, number as u16).is_some() {
            best = Some(higher(slots, number as u16, best));
        }
    }
    best
}

/// The one of two numbers that has the higher priority.
fn higher(slots: &[Slot], number: u16, other: Option<u16>) -> u16
    ensures { result ≡ higher (priorities slots.now) number other }
{
    match other {
        None => number,
        Some(other) => {
            if priority_at(slots, number) < priority_at(slots, other) {
                other
            } else {
                number
            }
        }
    }
}

/// The one of two numbers that runs before the other: that of the higher priority, of equals the
/// lesser.
pub(crate) fn first_of(slots: &[Slot], number: u16, other: Option<u16>) -> u16
    ensures { result ≡ first_of (priorities slots.now) number other }
{
    match other {
        None => number,
        Some(other) => {
            if other < number {
                higher(slots, other, Some(number))
            } else {
                higher(slots, number, Some(other))
            }
        }
    }
}

/// Whether there is a number, and it is this one.
pub(crate) fn is_number(number: Option<u16>, this: u16) -> bool
    ensures { IsTrue result ↔ (number ≡ Some this) }
{
    match number {
        None => false,
        Some(number) => number == this,
    }
}

/// The priority of a number; that of one that is not there is 0.
fn priority_at(slots: &[Slot], number: u16) -> u8
    ensures { result ≡ slice_index_or (priorities slots.now) number 0 }
{
    match slots.get(usize::from(number)) {
        Some(slot) => slot.priority,
        None => 0,
    }
}

/// Takes k ticks of the frame of a number. All others keep theirs, and who has a frame stays.
pub(crate) fn advance_slot<L: Ledger>(
    slots: &mut [Slot],
    number: u16,
    codes: &Codes,
    k: u64,
    env: &mut Env,
    steps: &mut Steps<L>,
) -> Progress
    requires sound { AreSound codes.now (frames slots.old) }
    requires left { slot_left codes.now slots.old number ≢ [] }
    requires some { 1 ≤ k }
    requires within { k ≤ max 1 (work_in_front (slot_left codes.now slots.old number)) }
    ensures priorities { priorities slots.new ≡ priorities slots.old }
    ensures ready { ready_numbers (frames slots.new) ≡ ready_numbers (frames slots.old) }
    ensures sound { AreSound codes.now (frames slots.new) }
    ensures others { states codes.now (frames slots.new)
        ≡ slice_set (states codes.now (frames slots.old)) number
        (Some (slot_left codes.now slots.new number)) }
    ensures ticks { state_of (slot_left codes.now slots.new number) env.new.vars
        env.new.cursors (option_to_list result.effect)
        ≡ ticks (supply_of env.old.demands env.old.values) k
        (state_of (slot_left codes.now slots.old number) env.old.vars env.old.cursors []) }
    ensures demands { env.new.demands ≡ env.old.demands }
    ensures values { env.new.values ≡ env.old.values }
    ensures ended { IsTrue result.ended ↔ (slot_left codes.now slots.new number ≡ []) }
    ensures counted { steps.new ≡ steps.old + 1 }
{
    match frame_at(slots, number) {
        None => Progress {
            effect: None,
            ended: true,
        },
        Some(frame) => {
            let mut frame = frame;
            let progress = advance(&mut frame, codes, k, env, steps);
            set_frame(slots, number, Some(frame));
            progress
        }
    }
}

/// The ticks left of the `work` at the front of the frame of a number; 0 where there is none.
pub(crate) fn slot_work_left(slots: &[Slot], number: u16) -> u64
    ensures { (codes : List (List Stmt)) → AreSound codes (frames slots.now)
        → result ≡ work_in_front (slot_left codes slots.now number) }
{
    match frame_at(slots, number) {
        None => 0,
        Some(frame) => frame.work_left(),
    }
}
