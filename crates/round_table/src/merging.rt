//! The expiry points of a mode, merged from its rows and its checks.

ghost use Rattle.std.specs.Prelude.{◌≡◌, ℕ, suc, IfOk};
ghost use Rattle.round_table.specs.ExpiryPoints.{expiry_points};
ghost use Rattle.round_table.specs.Inside.{IsWithin};
ghost use Rattle.round_table.specs.Merged.{AreInOrder, ArePlaces, due_between, earlier, next_offset};

use crate::checks::Check;
use crate::due::{Due, ExpiryPoint};
use crate::rows::{offset_at, up_to};
use std::alloc::Global;
use std::marker::Model;
use tt_base::Memory;
use tt_world::ModeDef;

/// A mode with its checks at offsets of the round, in order of offset and then of entry number.
#[derive(Drop)]
pub(crate) struct CheckedMode<'a> {
    pub(crate) mode: &'a ModeDef,
    pub(crate) checks: &'a [Check],
}

impl<'a> Model for CheckedMode<'a> {
    ghost use Rattle.round_table.specs.Merged.{AreInOrder, ModeRows};

    ghost Value = { ModeRows };

    ghost view = { λ m. record { mode = m.mode.now; checks = m.checks.now } };

    ghost invariant = { λ m. AreInOrder (record { mode = m.mode.now; checks = m.checks.now }) };
}

/// How many activations, enables and checks come before an offset.
#[derive(Clone, Copy)]
pub(crate) struct Places {
    pub(crate) activations: usize,
    pub(crate) enables: usize,
    pub(crate) checks: usize,
}

/// The lesser of two offsets, where there are any.
fn earlier(offset: Option<u64>, other: Option<u64>) -> Option<u64>
    ensures { result ≡ earlier offset other }
{
    match (offset, other) {
        (Some(offset), Some(other)) => Some(offset.min(other)),
        (offset, None) => offset,
        (None, other) => other,
    }
}

/// What is due between places.
fn due_between(from: Places, to: Places) -> Due
    ensures { result ≡ due_between from to }
{
    let activation = if from.activations < to.activations {
        Some(from.activations)
    } else {
        None
    };
    Due {
        checks_from: from.checks,
        checks_to: to.checks,
        enables_from: from.enables,
        enables_to: to.enables,
        activation,
    }
}

impl CheckedMode<'_> {
    /// The least offset of the rows and the checks from these places on, if there is one.
    fn next_offset(&self, places: Places) -> Option<u64>
        ensures next { result ≡ next_offset self.now places }
        ensures order { AreInOrder self.now }
    {
        let activation = offset_at(self.mode.activations.as_slice(), places.activations);
        let enable = offset_at(self.mode.enables.as_slice(), places.enables);
        let check = offset_at(self.checks, places.checks);
        earlier(activation, earlier(enable, check))
    }

    /// The places after the rows and the checks at an offset or before it.
    fn places_after(&self, offset: u64) -> Places
        ensures { ArePlaces self.now (suc offset) result }
    {
        Places {
            activations: up_to(self.mode.activations.as_slice(), offset),
            enables: up_to(self.mode.enables.as_slice(), offset),
            checks: up_to(self.checks, offset),
        }
    }

    /// The expiry points of the mode, in ascending order, in one walk along its rows and checks.
    pub(crate) fn expiry_points(&self, alloc: Global) -> Result<Vec<ExpiryPoint>, Memory>
        ensures { IfOk result (λ points. (limit : ℕ) → IsWithin limit self.now.mode
            → points.items ≡ expiry_points (record { mode = self.now.mode; limit = limit })) }
    {
        let mut points = Vec::new(alloc);
        let mut places = Places {
            activations: 0,
            enables: 0,
            checks: 0,
        };
        while let Some(offset) = self.next_offset(places) {
            let after = self.places_after(offset);
            let due = due_between(places, after);
            points.push(ExpiryPoint { offset, due })?;
            places = after;
        }
        Ok(points)
    }
}
