//! At most 16 flags, without memory of their own.

ghost use Rattle.std.specs.Prelude.{◌≡◌, ◌<◌, ◌≤◌, true, false, length, replicate, slice_index_or, slice_set};
ghost use Rattle.isr_window.specs.Window.{AreClear};

use std::marker::Model;

/// The greatest number of sources of one kind.
pub(crate) const MOST: usize = 16;

/// Flags. Contracts see them as a list.
#[derive(Drop)]
pub(crate) struct Flags {
    flags: [bool; MOST],
    len: usize,
    /// How many of them are set.
    set: usize,
}

impl Model for Flags {
    ghost use Rattle.std.specs.Prelude.{Bool, List, take};

    ghost Value = { List Bool };

    ghost use Rattle.isr_window.specs.Inside.{AreCounted};

    ghost view = { λ f. take f.len f.flags };

    ghost invariant = { AreCounted };
}

impl Flags {
    /// This many flags of one value.
    pub(crate) fn new(len: usize, value: bool) -> Flags
        requires { len ≤ 16 }
        ensures { result ≡ replicate len value }
    {
        Flags {
            flags: [value; MOST],
            len,
            set: len * usize::from(value),
        }
    }

    /// How many flags there are.
    pub(crate) fn len(&self) -> usize
        ensures { result ≡ length self.now }
    {
        self.len
    }

    /// Whether none is set, in one step.
    pub(crate) fn are_clear(&self) -> bool
        ensures { result ≡ true → AreClear self.now }
    {
        self.set == 0
    }

    /// Whether the flag of a number is there and set.
    pub(crate) fn is(&self, number: usize) -> bool
        ensures { result ≡ slice_index_or self.now number false }
    {
        number < self.len && self.flags[number]
    }

    /// Gives a flag a value.
    pub(crate) fn put(&mut self, number: usize, value: bool)
        requires { number < length self.old }
        ensures { self.new ≡ slice_set self.old number value }
    {
        self.set = self.set + usize::from(value) - usize::from(self.flags[number]);
        self.flags[number] = value;
    }
}
