//! The greatest depth and the most words of stack of a run.

ghost use Rattle.std.specs.Prelude.{◌≡◌, max};
ghost use Rattle.tt_world.specs.Load.{depth_of, words_of};
ghost use Rattle.stack_dispatch.specs.Served.{IsWeighed};

use crate::state::State;
use tt_world::ConfigParts;

/// The greatest depth and the most words of stack of the instants so far that took a tick.
#[derive(Clone, Copy)]
pub(crate) struct Peaks {
    /// How many activations and time-triggered routines were unfinished at once.
    pub(crate) deepest: u64,
    /// How many words of stack they took at once.
    pub(crate) words: u64,
}

impl Peaks {
    /// Counts in an instant that takes a tick, after its opening.
    pub(crate) fn raise(&mut self, config: &ConfigParts, state: &State)
        requires { IsWeighed config.now state.now }
        ensures { self.new ≡ record {
          deepest = max self.old.deepest (depth_of state.now.world);
          words = max self.old.words (words_of config.now state.now.world);
        } }
    {
        self.deepest = self.deepest.max(state.depth());
        self.words = self.words.max(state.words(config));
    }
}
