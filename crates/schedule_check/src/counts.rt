//! The rows of a mode that a window of the round covers, counted as the window grows.

ghost use Rattle.std.specs.Prelude.{◌≡◌, ◌<◌, ◌≤◌, nat_lt, length, replicate};
ghost use Rattle.std.specs.List.{All};
ghost use Rattle.std.specs.List.Sorted.{IsNonDecreasingBy};
ghost use Rattle.tt_world.specs.ConfigRules.{IsConfig};
ghost use Rattle.tt_world.specs.Rows.{no_row};
ghost use Rattle.round_table.specs.Cuts.{IsCut};
ghost use Rattle.schedule_check.specs.Counts.{AreBefore, AreBegun, AreEnabled, is_before, no_enable};

use tt_world::{Activation, ConfigParts, Enable};

/// The greatest number of time-triggered routines.
pub(crate) const MOST: usize = 16;

/// Activations that follow one another.
#[derive(Clone, Copy)]
pub(crate) struct Begun {
    /// The place of the first.
    pub(crate) first: usize,
    /// The place after the last.
    pub(crate) end: usize,
    /// The sum of their budgets.
    pub(crate) budgets: u64,
}

/// Enables that follow one another.
#[derive(Clone, Copy)]
pub(crate) struct Enabled {
    /// The place of the first.
    pub(crate) first: usize,
    /// The place after the last.
    pub(crate) end: usize,
    /// How many there are of each routine, by its number.
    pub(crate) counts: [u64; MOST],
}

/// Whether a row that activates is at this place, with an offset below this one.
fn is_activation_before(rows: &[Activation], place: usize, to: u64) -> bool
    ensures { result ≡ is_before (λ (row : Activation). row.offset) no_row rows.now to place }
{
    place < rows.len() && rows[place].offset < to
}

/// Whether a row that enables is at this place, with an offset below this one.
fn is_enable_before(rows: &[Enable], place: usize, to: u64) -> bool
    ensures { result ≡ is_before (λ (row : Enable). row.offset) no_enable rows.now to place }
{
    place < rows.len() && rows[place].offset < to
}

impl Begun {
    /// No activation yet, at a place.
    pub(crate) fn none(first: usize) -> Begun
        ensures { result ≡ record { first = first; end = first; budgets = 0 } }
    {
        Begun {
            first,
            end: first,
            budgets: 0,
        }
    }

    /// Adds the activations after them that have offsets below this one.
    pub(crate) fn extend(&mut self, parts: &ConfigParts, rows: &[Activation], to: u64)
        requires rules { IsConfig parts.now }
        requires few { length rows.now ≤ 4096 }
        requires tasks { All (λ (row : Activation). row.task.0 < length parts.now.tasks) rows.now }
        requires ascending { IsNonDecreasingBy (λ (row : Activation). row.offset) rows.now }
        requires begun { AreBegun parts.now rows.now self.old }
        requires before { AreBefore (λ (row : Activation). row.offset) rows.now to self.old.end }
        ensures begun { AreBegun parts.now rows.now self.new }
        ensures first { self.new.first ≡ self.old.first }
        ensures end { IsCut (λ (row : Activation). nat_lt row.offset to) rows.now self.new.end }
    {
        let tasks = parts.tasks.as_slice();
        while is_activation_before(rows, self.end, to) {
            self.budgets += tasks[usize::from(rows[self.end].task.0)].budget;
            self.end += 1;
        }
    }
}

impl Enabled {
    /// No enable yet, at a place.
    pub(crate) fn none(first: usize) -> Enabled
        ensures { result ≡ record { first = first; end = first; counts = replicate 16 0 } }
    {
        Enabled {
            first,
            end: first,
            counts: [0; MOST],
        }
    }

    /// Adds the enables after them that have offsets below this one.
    pub(crate) fn extend(&mut self, rows: &[Enable], to: u64)
        requires isrs { All (λ (row : Enable). row.isr.0 < 16) rows.now }
        requires ascending { IsNonDecreasingBy (λ (row : Enable). row.offset) rows.now }
        requires enabled { AreEnabled rows.now self.old }
        requires before { AreBefore (λ (row : Enable). row.offset) rows.now to self.old.end }
        ensures enabled { AreEnabled rows.now self.new }
        ensures first { self.new.first ≡ self.old.first }
        ensures end { IsCut (λ (row : Enable). nat_lt row.offset to) rows.now self.new.end }
    {
        while is_enable_before(rows, self.end, to) {
            self.counts[usize::from(rows[self.end].isr.0)] += 1;
            self.end += 1;
        }
    }
}
