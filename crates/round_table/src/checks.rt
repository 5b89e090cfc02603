//! The monitoring points of a mode, and its checks at them.

ghost use Rattle.std.specs.Prelude.{◌≡◌, ◌∷◌, [], ◌++◌, ◌<◌, map, cond, IfOk, OnOk, length};
ghost use Rattle.tt_world.specs.Points.{least_from, offsets_in, point_of, stringent_deadlines};
ghost use Rattle.round_table.specs.CheckLists.{AreChecks, check_if, checks_among, ends_among};
ghost use Rattle.round_table.specs.DueRows.{entries_due, is_round_end};

use crate::rows::{Row, before, offset_at};
use std::alloc::Global;
use std::marker::Model;
use tt_base::Memory;
use tt_world::{Activation, ModeDef, Point};

/// A check at an offset of the round: it looks at the activation of an entry number.
#[derive(Clone, Copy)]
pub(crate) struct Check {
    pub(crate) offset: u64,
    pub(crate) entry: usize,
}

/// Appends the offsets of rows.
fn put_offsets<T: Row>(rows: &[T], offsets: &mut Vec<u64>) -> Result<(), Memory>
    ensures { OnOk result (offsets.new.items ≡ offsets.old.items ++ map T.at rows.now) }
{
    for row in rows {
        offsets.push(row.offset())?;
    }
    Ok(())
}

/// Appends the deadlines that are monitored stringently.
fn put_deadlines(rows: &[Activation], offsets: &mut Vec<u64>) -> Result<(), Memory>
    ensures { OnOk result (offsets.new.items ≡ offsets.old.items ++ stringent_deadlines rows.now) }
{
    for row in rows {
        if row.stringent {
            offsets.push(row.deadline)?;
        }
    }
    Ok(())
}

/// The offsets at which a mode has an activation, an enable or a stringent deadline.
fn offsets_in(alloc: Global, mode: &ModeDef) -> Result<Vec<u64>, Memory>
    ensures { IfOk result (λ offsets. offsets.items ≡ offsets_in mode.now) }
{
    let mut offsets = Vec::new(alloc);
    put_offsets(mode.activations.as_slice(), &mut offsets)?;
    put_offsets(mode.enables.as_slice(), &mut offsets)?;
    put_deadlines(mode.activations.as_slice(), &mut offsets)?;
    Ok(offsets)
}

/// A mode, with the offsets at which it has an activation, an enable or a stringent deadline in
/// ascending order. Contracts see the mode.
#[derive(Drop)]
struct Monitor<'a> {
    mode: &'a ModeDef,
    offsets: Vec<u64>,
}

impl<'a> Model for Monitor<'a> {
    ghost use Rattle.tt_world.specs.declared.config.ModeDef.{ModeDef};
    ghost use Rattle.round_table.specs.CheckLists.{AreOffsets};

    ghost Value = { ModeDef };

    ghost view = { λ m. m.mode.now };

    ghost invariant = { λ m. AreOffsets m.mode.now m.offsets.items };
}

impl<'a> Monitor<'a> {
    fn new(alloc: Global, mode: &'a ModeDef) -> Result<Monitor<'a>, Memory>
        ensures { IfOk result (λ monitor. monitor ≡ mode.now) }
    {
        let mut offsets = offsets_in(alloc, mode)?;
        offsets.sort_unstable();
        Ok(Monitor { mode, offsets })
    }

    /// The least of the offsets at or after this one, if there is one.
    fn least_from(&self, from: u64) -> Option<u64>
        ensures { result ≡ least_from from (offsets_in self.now) }
    {
        offset_at(&self.offsets, before(&self.offsets, from))
    }

    /// The monitoring point of an activation of the mode.
    fn point_of(&self, row: Activation) -> Point
        ensures { result ≡ point_of self.now row }
    {
        if row.stringent {
            return Point::At(row.deadline);
        }
        match self.least_from(row.deadline) {
            Some(offset) => Point::At(offset),
            None => Point::RoundEnd,
        }
    }
}

/// The monitoring points of activations, and the checks at them.
#[derive(Drop)]
pub(crate) struct Checks {
    /// The point of each activation, by entry number.
    pub(crate) points: Vec<Point>,
    /// The checks at offsets of the round.
    pub(crate) due: Vec<Check>,
    /// The entry numbers of those at its end, in ascending order.
    pub(crate) ends: Vec<usize>,
}

impl Checks {
    /// Appends the monitoring point of an entry number.
    fn put(&mut self, entry: usize, point: Point) -> Result<(), Memory>
        ensures points { OnOk result (self.new.points.items ≡ self.old.points.items ++ point ∷ []) }
        ensures due { OnOk result (self.new.due.items ≡ self.old.due.items ++ check_if entry point) }
        ensures ends { OnOk result (self.new.ends.items
            ≡ self.old.ends.items ++ cond (is_round_end point) (entry ∷ []) []) }
    {
        match point {
            Point::At(offset) => self.due.push(Check { offset, entry })?,
            Point::RoundEnd => self.ends.push(entry)?,
        }
        self.points.push(point)?;
        Ok(())
    }

    /// The monitoring points of a mode, and its checks by entry number.
    fn by_entry(alloc: Global, mode: &ModeDef) -> Result<Checks, Memory>
        ensures points { IfOk result
            (λ checks. checks.points.items ≡ map (point_of mode.now) mode.now.activations) }
        ensures due { IfOk result (λ checks. checks.due.items
            ≡ checks_among mode.now (length mode.now.activations)) }
        ensures ends { IfOk result (λ checks. checks.ends.items
            ≡ ends_among mode.now (length mode.now.activations)) }
    {
        let monitor = Monitor::new(alloc, mode)?;
        let mut checks = Checks {
            points: Vec::new(alloc),
            due: Vec::new(alloc),
            ends: Vec::new(alloc),
        };
        for (entry, row) in mode.activations.as_slice().iter().enumerate() {
            checks.put(entry, monitor.point_of(*row))?;
        }
        Ok(checks)
    }

    /// The monitoring points of a mode, and its checks in order of offset and then of entry number,
    /// in n log n time for n rows.
    pub(crate) fn of_mode(alloc: Global, mode: &ModeDef) -> Result<Checks, Memory>
        ensures points { IfOk result
            (λ checks. checks.points.items ≡ map (point_of mode.now) mode.now.activations) }
        ensures due { IfOk result (λ checks. AreChecks mode.now checks.due.items) }
        ensures ends { IfOk result (λ checks. checks.ends.items
            ≡ entries_due is_round_end mode.now) }
    {
        let mut checks = Checks::by_entry(alloc, mode)?;
        checks.due.sort_by_key(|check| check.offset)?;
        Ok(checks)
    }
}
