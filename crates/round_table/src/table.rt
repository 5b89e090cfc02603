//! The dispatcher table of a mode.

ghost use Rattle.std.specs.Prelude.{◌≡◌, ◌++◌, ◌≤◌, ◌<◌, ℕ, nat_lt, suc, length, slice_get, slice_range, IfOk, IfSome};
ghost use Rattle.tt_world.specs.Monitoring.{is_at, is_at_end};
ghost use Rattle.tt_world.specs.Points.{point_of};
ghost use Rattle.tt_world.specs.Rows.{enables_at, entry_at, mode_at, row_of};
ghost use Rattle.round_table.specs.CheckLists.{entries_in};
ghost use Rattle.round_table.specs.Cuts.{IsCut};
ghost use Rattle.round_table.specs.DueRows.{checks_below, checks_of, due_at, enables_of, entries_due, isrs_of, none_due};
ghost use Rattle.round_table.specs.ExpiryPoints.{IsCursor, IsDue, IsFree, IsNextPoint, expiry_points, next_after};
ghost use Rattle.round_table.specs.Inside.{IsWithin};
ghost use Rattle.round_table.specs.TableRows.{table_of};

use crate::checks::{Check, Checks};
use crate::due::{Due, ExpiryPoint};
use crate::merging::CheckedMode;
use crate::rows::{before, item, offset_at, up_to};
use std::alloc::Global;
use std::marker::Model;
use tt_base::{IsrNo, Memory, ModeNo};
use tt_world::{Activation, Config, Enable, ModeDef, Point};

/// The dispatcher table of an application mode: its rows, the checks of its deadlines at their
/// monitoring points, and its expiry points. Offsets are in ticks from the start of the round.
/// Contracts see the rows, and the round's length less the greatest correction, at which a round
/// ends at the earliest. No call but `build` takes memory.
#[derive(Drop)]
pub struct Table {
    activations: Vec<Activation>,
    enables: Vec<Enable>,
    /// The round's length less the greatest correction, in ticks.
    limit: u64,
    /// The monitoring point of each activation.
    points: Vec<Point>,
    /// The entry numbers of the checks, in order of their points; those of one point ascend.
    checks: Vec<usize>,
    /// The place of the first check at the round's end.
    end: usize,
    expiry: Vec<ExpiryPoint>,
}

impl Model for Table {
    ghost use Rattle.round_table.specs.TableRows.{TableRows};
    ghost use Rattle.round_table.specs.Inside.{IsTable};

    ghost Value = { TableRows };

    ghost view = { λ t. record {
      mode =
          record { activations = t.activations.items; enables = t.enables.items };
      limit = t.limit;
    } };

    ghost invariant = { λ t. IsTable
        (record {
          mode = record { activations = t.activations.items; enables = t.enables.items };
          limit = t.limit;
        }) t.points.items t.checks.items t.end t.expiry.items };
}

/// What is due at an offset where nothing is: empty ranges at these places of the lists of checks
/// and enables.
fn nothing_before(check: usize, enable: usize) -> Due
    ensures { result ≡ none_due check enable }
{
    Due {
        checks_from: check,
        checks_to: check,
        enables_from: enable,
        enables_to: enable,
        activation: None,
    }
}

/// The entry numbers of these checks, followed by `ends`.
fn entries_then(alloc: Global, checks: &[Check], ends: &[usize]) -> Result<Vec<usize>, Memory>
    ensures { IfOk result (λ entries. entries.items ≡ entries_in checks.now ++ ends.now) }
{
    let mut entries = Vec::new(alloc);
    for check in checks {
        entries.push(check.entry)?;
    }
    entries.extend_from_slice(ends)?;
    Ok(entries)
}

impl Table {
    /// The table of a mode whose rows ascend, with offsets below a limit and deadlines up to it.
    pub(crate) fn of_mode(alloc: Global, mode: &ModeDef, limit: u64) -> Result<Table, Memory>
        requires { IsWithin limit mode.now }
        ensures { IfOk result (λ table. table ≡ record { mode = mode.now; limit = limit }) }
    {
        let checks = Checks::of_mode(alloc, mode)?;
        let due = checks.due.as_slice();
        let checked = CheckedMode { mode, checks: due };
        let expiry = checked.expiry_points(alloc)?;
        Ok(Table {
            activations: Vec::from_slice(alloc, mode.activations.as_slice())?,
            enables: Vec::from_slice(alloc, mode.enables.as_slice())?,
            limit,
            checks: entries_then(alloc, due, &checks.ends)?,
            end: due.len(),
            expiry,
            points: checks.points,
        })
    }

    /// The dispatcher table of a mode, in n log n time for n rows. Its only error is `Memory`.
    pub fn build(alloc: Global, config: &Config, mode: ModeNo) -> Result<Table, Memory>
        requires { mode.0 < length config.now.modes }
        ensures { IfOk result (λ table. table ≡ table_of config.now (mode_at config.now mode.0)) }
    {
        let parts = config.parts();
        let mode = &parts.modes.as_slice()[usize::from(mode.0)];
        Table::of_mode(alloc, mode, parts.round - parts.adjust)
    }

    /// How many rows activate. Their entry numbers are the numbers below that.
    pub fn entries(&self) -> usize
        ensures { result ≡ length self.now.mode.activations }
    {
        self.activations.len()
    }

    /// The rows that activate, in ascending order of offset: the place of a row is its entry
    /// number.
    pub fn activations(&self) -> &[Activation]
        ensures { result.now ≡ self.now.mode.activations }
    {
        &self.activations
    }

    /// How many activations have offsets below this one, found by binary search: they come before
    /// the others.
    pub fn activations_before(&self, offset: u64) -> usize
        ensures { IsCut (λ row. nat_lt row.offset offset) self.now.mode.activations result }
    {
        before(&self.activations, offset)
    }

    /// How many enables have offsets below this one, found by binary search: they come before the
    /// others.
    pub fn enables_before(&self, offset: u64) -> usize
        ensures { IsCut (λ row. nat_lt row.offset offset) self.now.mode.enables result }
    {
        before(&self.enables, offset)
    }

    /// The rows that enable, in ascending order of offset, and then of the routine's number.
    pub fn enables(&self) -> &[Enable]
        ensures { result.now ≡ self.now.mode.enables }
    {
        &self.enables
    }

    /// The row that activates under an entry number.
    pub fn activation(&self, entry: usize) -> Activation
        requires { entry < length self.now.mode.activations }
        ensures { result ≡ row_of self.now.mode entry }
    {
        self.activations[entry]
    }

    /// The monitoring point of the activation of an entry number: its deadline where that is
    /// monitored stringently, else the least offset at or after the deadline at which the mode has
    /// an activation, an enable or a stringent deadline, and else the round's end. Where deadlines
    /// are monitored is the bench's own rule.
    pub fn monitor(&self, entry: usize) -> Point
        requires { entry < length self.now.mode.activations }
        ensures { result ≡ point_of self.now.mode (row_of self.now.mode entry) }
    {
        self.points[entry]
    }

    /// The entry number of the check at a place of the table's list of checks.
    pub fn check_at(&self, place: usize) -> usize
        requires { place < length (checks_of self.now) }
        ensures at { slice_get (checks_of self.now) place ≡ Some result }
        ensures within { result < length self.now.mode.activations }
    {
        self.checks[place]
    }

    /// The routine of the enable at a place of the table's list of enables.
    pub fn enable_at(&self, place: usize) -> IsrNo
        requires { place < length (enables_of self.now) }
        ensures { slice_get (enables_of self.now) place ≡ Some result }
    {
        self.enables[place].isr
    }

    /// The expiry points in ascending order of offset: one for each offset at which a check, an
    /// enable or an activation is due. The OSEK/VDX standard: the dispatcher table.
    pub fn expiry_points(&self) -> &[ExpiryPoint]
        ensures { result.now ≡ expiry_points self.now }
    {
        &self.expiry
    }

    /// The expiry point at a place of their list, if there is one. A dispatcher keeps the number
    /// of the expiry points before the present offset, its cursor: the point there is the one that
    /// comes next.
    pub fn expiry_at(&self, place: usize) -> Option<ExpiryPoint>
        ensures at { result ≡ slice_get (expiry_points self.now) place }
        ensures due { IfSome result (λ point. IsDue self.now point.offset point.due) }
        ensures next { (offset : ℕ) → IsCursor self.now place offset
            → IsNextPoint self.now place offset result }
    {
        item(&self.expiry, place)
    }

    /// The place after the expiry points that come before an offset.
    fn place_before(&self, offset: u64) -> usize
        ensures { IsCursor self.now result offset }
    {
        before(&self.expiry, offset)
    }

    /// The place after those that come at the offset or before it.
    fn place_after(&self, offset: u64) -> usize
        ensures { IsCursor self.now result (suc offset) }
    {
        up_to(&self.expiry, offset)
    }

    fn found(&self, offset: u64) -> Due
        ensures { IsDue self.now offset result }
    {
        match self.expiry_at(self.place_before(offset)) {
            Some(point) if point.offset == offset => point.due,
            Some(point) => nothing_before(point.due.checks_from, point.due.enables_from),
            None => nothing_before(self.end, self.enables.len()),
        }
    }

    /// What is due at an offset of the round, found by binary search: the places of the checks
    /// whose monitoring point it is, in ascending order of entry, and so of the offset of
    /// activation; the places of the enables at it, by number of the routine; and the entry number
    /// of the activation, which is None exactly where there is none.
    pub fn due(&self, offset: u64) -> Due
        ensures exact { result ≡ due_at offset self.now }
        ensures checks { slice_range (checks_of self.now) result.checks_from result.checks_to
            ≡ entries_due (is_at offset) self.now.mode }
        ensures checks_within { result.checks_to ≤ length (checks_of self.now) }
        ensures enables { slice_range (enables_of self.now) result.enables_from result.enables_to
            ≡ isrs_of (enables_at offset self.now.mode.enables) }
        ensures enables_within { result.enables_to ≤ length (enables_of self.now) }
        ensures activation { result.activation ≡ entry_at offset self.now.mode.activations }
        ensures activation_within { IfSome result.activation
            (λ entry. entry < length self.now.mode.activations) }
    {
        self.found(offset)
    }

    /// The half-open range of the places of the checks at the end of a round of this length, in
    /// ticks: those whose monitoring point is not an offset below the length, in ascending order of
    /// entry. The length is at least the configured length of a round less the greatest correction,
    /// since no correction makes a round shorter.
    pub fn end_checks(&self, round_length: u64) -> (usize, usize)
        requires { self.now.limit ≤ round_length }
        ensures from { result.0 ≡ length (checks_below self.now.mode round_length) }
        ensures to { result.1 ≡ length (checks_of self.now) }
        ensures checks { slice_range (checks_of self.now) result.0 result.1
            ≡ entries_due (is_at_end round_length) self.now.mode }
    {
        (self.due(round_length).checks_from, self.checks.len())
    }

    /// The least offset after this one at which a check, an enable or an activation is due, found
    /// by binary search. It is None exactly where there is none. Nothing is due between the two
    /// offsets.
    pub fn next_after(&self, offset: u64) -> Option<u64>
        ensures least { result ≡ next_after offset self.now }
        ensures ahead { IfSome result (λ next. (offset < next) × (next ≤ self.now.limit)) }
        ensures free { (between : ℕ) → offset < between → IfSome result (λ next. between < next)
            → IsFree between self.now.mode }
    {
        offset_at(&self.expiry, self.place_after(offset))
    }
}
