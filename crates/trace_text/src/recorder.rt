//! Who notes the events of a run.

ghost use Rattle.std.specs.Prelude.{◌≤◌, IsTrue};
ghost use Rattle.tt_io.specs.Count.{Rose};
ghost use Rattle.trace_text.specs.Noted.{OnFailed, OnKept};

use tt_base::{Event, Names};

/// The answer of one note.
#[derive(Clone, Copy)]
pub enum Noted {
    /// The event was kept.
    Kept,
    /// The event was not kept.
    Failed,
}

/// A note failed.
#[derive(Clone, Copy, Debug, PartialEq, Eq)]
pub struct Failed;

/// What a run reports its events to, one after another.
pub trait Recorder {
    ghost use Rattle.std.specs.Prelude.{Bool, List, ℕ};
    ghost use Rattle.tt_base.specs.declared.event.Event.{Event};
    ghost use Rattle.tt_base.specs.declared.names.NameEntry.{NameEntry};

    /// Whether it takes an event.
    ghost ready: { Self → Bool };

    /// What a note that succeeds does: the recorder before, the event, the names, the recorder
    /// after.
    ghost kept: { Self → Event → List NameEntry → Self → Type 0 };

    /// What a note that fails does, of the same four.
    ghost cut: { Self → Event → List NameEntry → Self → Type 0 };

    /// How many faults there were. The count stays at its last value, 2^64 - 1.
    ghost faults: { Self → ℕ };

    /// Notes an event. The things in it have these names.
    fn note(&mut self, event: &Event, names: &Names) -> Noted
        requires { IsTrue (ready self.old) }

        ensures kept { OnKept result (kept self.old event.now names.now self.new) }
        ensures ready { OnKept result (IsTrue (ready self.new)) }

        ensures cut { OnFailed result (cut self.old event.now names.now self.new) }
        ensures cause { OnFailed result (Rose (faults self.old) (faults self.new)) }

        ensures never_falls { faults self.old ≤ faults self.new };
}
