//! The gates of the interrupt sources.

ghost use Rattle.std.specs.Prelude.{◌≡◌, ◌<◌, ◌≤◌, true, false, length, option_map, slice_index_or, IfSome};
ghost use Rattle.std.specs.Option.{ForSome};
ghost use Rattle.tt_world.specs.Gates.{source_owner};
ghost use Rattle.isr_window.specs.Window.{IsSourceOf, first_due, first_ready, least_next, lesser, new_window, next_tick, taking, accepting, enabling};
ghost use Rattle.isr_window.specs.Numbers.{first_at, first_ready_in, is_ready_in, with_flag, without_next};
ghost use Rattle.isr_window.specs.Arrived.{arrived_at};

use crate::busy::Busy;
use crate::flags::Flags;
use crate::queues::{Queues, is_at, lesser};
use std::marker::Model;
use tt_base::{IsrNo, OisrNo, Owner, Tick};
use tt_world::Arrivals;

/// An arrival that was taken: its source, and whether it was merged with an interrupt that is held
/// there.
#[derive(Clone, Copy, Debug, PartialEq, Eq)]
pub struct Arrived {
    pub source: Owner,
    pub merged: bool,
}

/// The interrupt sources of a run. Contracts see them as a record of these fields, without `next`.
#[derive(Drop)]
pub struct Gates {
    isrs_enabled: Flags,
    isrs_held: Flags,
    isrs_left: Queues,
    oisrs_held: Flags,
    oisrs_left: Queues,
    /// The least tick that is not taken.
    next: Option<Tick>,
}

impl Model for Gates {
    ghost use Rattle.isr_window.specs.Window.{Window};

    ghost Value = { Window };

    ghost use Rattle.isr_window.specs.Inside.{window_of, IsWindow};

    ghost view = { window_of };

    ghost invariant = { IsWindow };
}

/// The least tick that is not taken, if there is one.
fn least_of(isrs: &Queues, oisrs: &Queues) -> Option<Tick>
    ensures { result ≡ lesser (least_next isrs.now) (least_next oisrs.now) }
{
    lesser(isrs.least(), oisrs.least())
}

/// Takes the first arrival at a tick among sources of one kind: its number, and whether an
/// interrupt was held there.
fn take_first(left: &mut Queues, held: &mut Flags, now: Tick) -> Option<(usize, bool)>
    requires { length held.old ≡ length left.old }
    ensures value { result
        ≡ option_map (λ number. record { 0 = number; 1 = slice_index_or held.old number false })
        (first_at now left.old) }
    ensures left { left.new ≡ without_next (first_at now left.old) left.old }
    ensures held { held.new ≡ with_flag (first_at now left.old) true held.old }
{
    let number = left.first_at(now)?;
    let merged = held.is(number);
    left.take(number);
    held.put(number, true);
    Some((number, merged))
}

/// Whether an interrupt of a source can be accepted: it is held, and the source is enabled and not
/// busy.
fn is_ready(held: &Flags, enabled: &Flags, busy: &Flags, number: usize) -> bool
    ensures { result ≡ is_ready_in held.now enabled.now busy.now number }
{
    held.is(number) && (enabled.is(number) && !busy.is(number))
}

/// The number of the first source of one kind of which an interrupt can be accepted. Where none is
/// held, it is one step.
fn first_ready(held: &Flags, enabled: &Flags, busy: &Flags) -> Option<usize>
    ensures { result ≡ first_ready_in held.now enabled.now busy.now }
{
    if held.are_clear() {
        return None;
    }
    for number in 0..held.len() {
        if is_ready(held, enabled, busy, number) {
            return Some(number);
        }
    }
    None
}

impl Gates {
    /// Sources with these arrivals: all enabled, and nothing held. There are at most 16 of each
    /// kind.
    pub fn new(arrivals: Arrivals) -> Gates
        requires isrs { length arrivals.isrs ≤ 16 }
        requires oisrs { length arrivals.oisrs ≤ 16 }
        ensures { result ≡ new_window arrivals }
    {
        let isrs_left = Queues::new(arrivals.isrs);
        let oisrs_left = Queues::new(arrivals.oisrs);
        let next = least_of(&isrs_left, &oisrs_left);
        Gates {
            isrs_enabled: Flags::new(isrs_left.len(), true),
            isrs_held: Flags::new(isrs_left.len(), false),
            isrs_left,
            oisrs_held: Flags::new(oisrs_left.len(), false),
            oisrs_left,
            next,
        }
    }

    /// The least tick of an arrival that is not taken, if there is one: the ticks of each source
    /// ascend. It is kept, and costs one step.
    pub fn next_arrival(&self) -> Option<Tick>
        ensures { result ≡ next_tick self.now }
    {
        self.next
    }

    /// Takes the first arrival at a tick, if there is one: time-triggered sources by number, then
    /// those of the OSEK subsystem by number. No arrival before the tick is left.
    pub fn arrive(&mut self, now: Tick) -> Option<Arrived>
        requires { ForSome (next_tick self.old) (λ tick. now ≤ tick) }
        ensures value { result ≡ option_map (arrived_at self.old) (first_due now self.old) }
        ensures state { self.new ≡ taking (first_due now self.old) self.old }
    {
        if !is_at(self.next, now) {
            return None;
        }
        if let Some((number, merged)) = take_first(&mut self.isrs_left, &mut self.isrs_held, now) {
            self.next = least_of(&self.isrs_left, &self.oisrs_left);
            let source = Owner::Isr(IsrNo(number as u16));
            return Some(Arrived { source, merged });
        }
        let (number, merged) = take_first(&mut self.oisrs_left, &mut self.oisrs_held, now)?;
        self.next = least_of(&self.isrs_left, &self.oisrs_left);
        let source = Owner::Oisr(OisrNo(number as u16));
        Some(Arrived { source, merged })
    }

    /// Enables the time-triggered source of this number, if there is one.
    pub fn enable(&mut self, isr: IsrNo)
        ensures { self.new ≡ enabling isr self.old }
    {
        let number = usize::from(isr.0);
        if number < self.isrs_enabled.len() {
            self.isrs_enabled.put(number, true);
        }
    }

    /// Accepts the interrupt of the first source that holds one, is enabled and is not busy, if
    /// there is one: it is no longer held, and a time-triggered source is disabled. The order of
    /// the sources is that of `arrive`.
    pub fn accept_next(&mut self, busy: &Busy) -> Option<Owner>
        ensures value { result ≡ option_map source_owner (first_ready busy.now self.old) }
        ensures state { self.new ≡ accepting (first_ready busy.now self.old) self.old }
        ensures source { IfSome result (IsSourceOf self.old) }
    {
        if let Some(number) = first_ready(&self.isrs_held, &self.isrs_enabled, busy.isrs()) {
            self.isrs_held.put(number, false);
            self.isrs_enabled.put(number, false);
            return Some(Owner::Isr(IsrNo(number as u16)));
        }
        // A source of the OSEK subsystem is always enabled: here, wherever an interrupt is held.
        let number = first_ready(&self.oisrs_held, &self.oisrs_held, busy.oisrs())?;
        self.oisrs_held.put(number, false);
        Some(Owner::Oisr(OisrNo(number as u16)))
    }
}
