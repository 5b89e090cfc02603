//! The sources whose routines are unfinished.

ghost use Rattle.std.specs.Prelude.{◌≡◌};
ghost use Rattle.isr_window.specs.Busy.{IsNumbered, is_busy, marked, none_busy};

use crate::flags::{Flags, MOST};
use std::marker::Model;
use tt_base::Owner;

/// A set of sources. Contracts see it as a record of two lists of flags, by the numbers of the
/// time-triggered sources and of those of the OSEK subsystem.
#[derive(Drop)]
pub struct Busy {
    isrs: Flags,
    oisrs: Flags,
}

impl Model for Busy {
    ghost use Rattle.isr_window.specs.Busy.{BusySources};

    ghost Value = { BusySources };

    ghost view = { λ b. record { isrs = b.isrs; oisrs = b.oisrs } };

    ghost use Rattle.isr_window.specs.Inside.{AreSixteen};

    ghost invariant = { AreSixteen };
}

impl Busy {
    /// No source.
    pub fn new() -> Busy
        ensures { result ≡ none_busy }
    {
        Busy {
            isrs: Flags::new(MOST, false),
            oisrs: Flags::new(MOST, false),
        }
    }

    /// Puts a source into the set: a routine of either kind, of a number below 16.
    pub fn mark(&mut self, source: Owner)
        requires { IsNumbered source }
        ensures { self.new ≡ marked source self.old }
    {
        match source {
            Owner::Isr(isr) => self.isrs.put(usize::from(isr.0), true),
            Owner::Oisr(oisr) => self.oisrs.put(usize::from(oisr.0), true),
            _ => unreachable!(),
        }
    }

    /// Whether a source is in the set.
    pub fn is(&self, source: Owner) -> bool
        requires { IsNumbered source }
        ensures { result ≡ is_busy self.now source }
    {
        match source {
            Owner::Isr(isr) => self.isrs.is(usize::from(isr.0)),
            Owner::Oisr(oisr) => self.oisrs.is(usize::from(oisr.0)),
            _ => unreachable!(),
        }
    }

    /// The flags of the time-triggered sources.
    pub(crate) fn isrs(&self) -> &Flags
        ensures { result.now ≡ self.now.isrs }
    {
        &self.isrs
    }

    /// The flags of the sources of the OSEK subsystem.
    pub(crate) fn oisrs(&self) -> &Flags
        ensures { result.now ≡ self.now.oisrs }
    {
        &self.oisrs
    }
}
