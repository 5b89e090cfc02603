//! A recorder that keeps events.

ghost use Rattle.std.specs.Prelude.{◌≡◌, ◌≢◌, ◌≤◌, ◌↔◌, ◌∷◌, ◌++◌, [], length, vec_len, vec_capacity, IfOk};
ghost use Rattle.tt_io.specs.Count.{Rose, counted};
ghost use Rattle.trace_text.specs.Noted.{OnFailed, OnKept};

use crate::{Noted, Recorder};
use std::alloc::Global;
use tt_base::{Event, Memory, Names};

/// Keeps the events that it notes, as long as it has room. A note fails exactly where no room is
/// left.
#[derive(Drop)]
pub struct ListRecorder {
    events: Vec<Event>,
    room: usize,
    faults: u64,
    ghost fits: { vec_len events ≤ room },
    ghost reserved: { room ≤ vec_capacity events },
}

impl ListRecorder {
    ghost use Rattle.trace_text.specs.ListRecorder.{events_in, faults_in, room_in};

    /// A recorder with room for this many events, which it reserves.
    pub fn new(alloc: Global, room: usize) -> Result<ListRecorder, Memory>
        ensures events { IfOk result (λ r. events_in r ≡ []) }
        ensures room { IfOk result (λ r. room_in r ≡ room) }
        ensures faults { IfOk result (λ r. faults_in r ≡ 0) }
    {
        let Ok(events) = Vec::with_capacity(alloc, room) else {
            return Err(Memory);
        };
        Ok(ListRecorder {
            events,
            room,
            faults: 0,
        })
    }

    /// The events that were kept, in order.
    pub fn events(&self) -> &[Event]
        ensures { result.now ≡ events_in self.now }
    {
        &self.events
    }
}

impl Recorder for ListRecorder {
    ghost use Rattle.std.specs.Prelude.{true};
    ghost use Rattle.trace_text.specs.ListRecorder.{Lists, Refuses, events_in, faults_in, room_in};

    ghost ready = { λ _. true };

    ghost kept = { λ s event _ t. Lists s event t };

    ghost cut = { λ s _ _ t. Refuses s t };

    ghost faults = { faults_in };

    fn note(&mut self, event: &Event, _names: &Names) -> Noted
        ensures fails { (result ≡ Noted.Failed)
            ↔ (length (events_in self.old) ≡ room_in self.old) }

        ensures kept { OnKept result (Lists self.old event.now self.new) }
        ensures cut { OnFailed result (Refuses self.old self.new) }

        ensures fault { OnFailed result (faults_in self.new ≡ counted (faults_in self.old) 1) }
        ensures cause { OnFailed result (Rose (faults_in self.old) (faults_in self.new)) }
        ensures never_falls { faults_in self.old ≤ faults_in self.new }
    {
        if self.events.len() == self.room {
            self.faults = self.faults.saturating_add(1);
            return Noted::Failed;
        }
        // The room was reserved.
        if self.events.push(*event).is_err() {
            unreachable!()
        }
        Noted::Kept
    }
}
