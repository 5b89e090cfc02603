//! The log of a run: each event is reported to a recorder, up to the first that it does not keep.

ghost use Rattle.std.specs.Prelude.{◌≡◌, [], ◌∷◌, false, IsTrue};
ghost use Rattle.tt_io.specs.Count.{counted};
ghost use Rattle.tt_world.specs.Load.{activations_in};
ghost use Rattle.stack_dispatch.specs.Told.{IsFresh, Tells};

use std::marker::Model;
use trace_text::{Noted, Recorder};
use tt_base::{Event, Names};

/// Reports events to a recorder, up to the first that it does not keep, and counts all of them.
#[derive(Drop)]
pub(crate) struct Log<'a, R: Recorder> {
    pub(crate) recorder: &'a mut R,
    pub(crate) names: &'a Names,
    /// Whether the recorder did not keep an event.
    pub(crate) failed: bool,
    /// How many events were reported. The count stays at its greatest value.
    pub(crate) events: u64,
    /// How many of them were activations. The count stays at its greatest value.
    pub(crate) activations: u64,
}

impl<'a, R: Recorder> Model for Log<'a, R> {
    ghost use Rattle.std.specs.Prelude.{IsTrue, ◌≡◌, false};
    ghost use Rattle.stack_dispatch.specs.Told.{Logged};

    ghost Value = { Logged R };

    ghost view = { λ l. record {
      recorder = l.recorder;
      names = l.names.now;
      failed = l.failed;
      events = l.events;
      activations = l.activations;
    } };

    ghost invariant = { λ l. l.failed ≡ false → IsTrue (R.ready l.recorder.now) };
}

/// A count of activations, after one more event.
fn count_activation(count: u64, event: &Event) -> u64
    ensures { result ≡ counted count (activations_in (event.now ∷ [])) }
{
    match event {
        Event::Activate { .. } => count.saturating_add(1),
        _ => count,
    }
}

impl<'a, R: Recorder> Log<'a, R> {
    /// A log that borrows this recorder, and has no events yet.
    pub(crate) fn new(recorder: &'a mut R, names: &'a Names) -> Log<'a, R>
        requires { IsTrue (R.ready recorder.old) }
        ensures same_recorder { result.recorder.ghost_name ≡ recorder.entry.ghost_name }
        ensures recorder { result.recorder.now ≡ recorder.old }
        ensures fresh { IsFresh names.now result }
    {
        Log {
            recorder,
            names,
            failed: false,
            events: 0,
            activations: 0,
        }
    }

    /// Reports an event.
    #[tactic(auto, using(trace_text::proofs::Recording::cut_event))]
    pub(crate) fn tell(&mut self, event: Event)
        ensures { Tells R.Recorder self.old (event ∷ []) self.new }
    {
        self.events = self.events.saturating_add(1);
        self.activations = count_activation(self.activations, &event);
        if self.failed {
            return;
        }
        if let Noted::Failed = self.recorder.note(&event, self.names) {
            self.failed = true;
        }
    }

    /// Whether the recorder did not keep an event.
    pub(crate) fn failed(&self) -> bool
        ensures value { result ≡ self.now.failed }
        ensures ready { result ≡ false → IsTrue (R.ready self.now.recorder.now) }
    {
        self.failed
    }

    /// How many events were reported.
    pub(crate) fn events(&self) -> u64
        ensures { result ≡ self.now.events }
    {
        self.events
    }

    /// How many activations were reported.
    pub(crate) fn activations(&self) -> u64
        ensures { result ≡ self.now.activations }
    {
        self.activations
    }
}
