//! A recorder that keeps nothing.

ghost use Rattle.std.specs.Prelude.{◌≡◌};

use crate::{Noted, Recorder};
use tt_base::{Event, Names};

/// Takes every event, and keeps none.
#[derive(Clone, Copy, Default)]
pub struct Discard;

impl Discard {
    /// The recorder.
    pub fn new() -> Discard {
        Discard
    }
}

impl Recorder for Discard {
    ghost use Rattle.std.specs.Prelude.{true, ⊤};

    ghost ready = { λ _. true };

    ghost kept = { λ _ _ _ _. ⊤ };

    ghost cut = { λ _ _ _ _. ⊥ };

    ghost faults = { λ _. 0 };

    #[inline(always)]
    fn note(&mut self, _event: &Event, _names: &Names) -> Noted
        ensures { result ≡ Noted.Kept }
    {
        Noted::Kept
    }
}
