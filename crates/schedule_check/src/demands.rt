//! How many ticks an activation and all that can delay it ask for.

ghost use Rattle.std.specs.Prelude.{◌≡◌, ℕ, ◌<◌, ◌≤◌, ◌*◌, ◌^◌, length, sum_by, slice_index_or};
ghost use Rattle.std.specs.List.{range_with_len};
ghost use Rattle.std.specs.Option.{ForSome};
ghost use Rattle.schedule_check.specs.Demand.{demand, isr_demand, isr_of, most_begins};
ghost use Rattle.tt_world.specs.ConfigRules.{IsConfig};
ghost use Rattle.tt_world.specs.Rows.{row_of};
ghost use Rattle.schedule_check.specs.TablesOf.{IsTableOf};

use crate::counts::{Begun, Enabled, MOST};
use round_table::Table;
use std::marker::Model;
use tt_world::{Config, ConfigParts, IsrDef};

/// How often a routine begins at most in this many ticks with this many enables, besides what is
/// carried over.
fn most_begins(isr: &IsrDef, enables: u64, ticks: u64) -> u64
    requires { ForSome isr.now.distance (λ distance. 1 ≤ distance) }
    ensures exact { result ≡ most_begins isr.now.distance enables ticks }
    ensures bounded { result ≤ enables }
{
    match isr.distance {
        None => enables,
        Some(distance) => enables.min(ticks.div_ceil(distance)),
    }
}

/// What a routine asks for in this many ticks with this many enables: its budget for an occurrence
/// that is unfinished when they begin, for one that an open gate admits, and for the others.
fn isr_demand(isr: &IsrDef, enables: u64, ticks: u64) -> u64
    requires distance { ForSome isr.now.distance (λ distance. 1 ≤ distance) }
    requires budget { isr.now.budget ≤ 10 ^ 12 }
    requires few { enables ≤ 4096 }
    ensures exact { result ≡ isr_demand isr.now enables ticks }
    ensures bounded { result ≤ 10 ^ 12 * 4098 }
{
    isr.budget * (2 + most_begins(isr, enables, ticks))
}

/// What the time-triggered routines ask for in this many ticks with this many enables of each.
fn isrs_demand(parts: &ConfigParts, counts: &[u64; MOST], ticks: u64) -> u64
    requires rules { IsConfig parts.now }
    requires few { (k : ℕ) → k < 16 → slice_index_or counts.now k 0 ≤ 4096 }
    ensures exact { result ≡ sum_by
        (λ number. isr_demand (isr_of parts.now number) (slice_index_or counts.now number 0) ticks)
        (range_with_len 0 (length parts.now.isrs)) }
    ensures bounded { result < 2 ^ 57 }
{
    let isrs = parts.isrs.as_slice();
    let mut sum = 0;
    for (number, isr) in isrs.iter().enumerate() {
        sum += isr_demand(isr, counts[number], ticks);
    }
    sum
}

/// A window of the round: from an offset up to a later one, its end, which moves on. Each row in
/// between is counted once, when the end passes it.
#[derive(Drop)]
pub(crate) struct Window<'a> {
    parts: &'a ConfigParts,
    table: &'a Table,
    from: u64,
    to: u64,
    begun: Begun,
    enabled: Enabled,
}

impl<'a> Model for Window<'a> {
    ghost use Rattle.std.specs.Coded.{codes};
    ghost use Rattle.task_lang.specs.contracts.syntax.Stmt as stmt;
    ghost use Rattle.schedule_check.specs.Counts.{IsCounted, Window};

    ghost Value = { Window };

    ghost coded = { Prim.hlevel (codes, stmt.the_row.coded) };

    ghost view = { λ w. record {
      parts = w.parts.now;
      mode = w.table.now.mode;
      from = w.from;
      to = w.to;
    } };

    ghost invariant = { λ w. IsCounted w.parts.now w.table.now w.from w.to w.begun w.enabled };
}

impl<'a> Window<'a> {
    /// The window at an offset, with nothing in it yet.
    pub(crate) fn new(parts: &'a ConfigParts, table: &'a Table, from: u64) -> Window<'a>
        requires rules { IsConfig parts.now }
        requires table { IsTableOf parts.now table.now }
        ensures { result
            ≡ record { parts = parts.now; mode = table.now.mode; from = from; to = from } }
    {
        Window {
            parts,
            table,
            from,
            to: from,
            begun: Begun::none(table.activations_before(from)),
            enabled: Enabled::none(table.enables_before(from)),
        }
    }

    /// Moves its end on to an offset, which the window does not include.
    pub(crate) fn extend(&mut self, to: u64)
        requires { self.old.to ≤ to }
        ensures { self.new ≡ record self.old { to = to } }
    {
        self.begun.extend(self.parts, self.table.activations(), to);
        self.enabled.extend(self.table.enables(), to);
        self.to = to;
    }

    /// What the activations and the routines ask for in it.
    pub(crate) fn demand(&self) -> u64
        ensures { result ≡ demand self.now.parts self.now.mode self.now.from self.now.to }
    {
        self.begun.budgets + isrs_demand(self.parts, &self.enabled.counts, self.to - self.from)
    }
}

/// The demand of an activation from its offset up to a later offset of the round, in ticks: the
/// budgets of the activations of its mode that begin before then, from itself on, and what each
/// time-triggered routine asks for. That is the routine's budget for an occurrence that is
/// unfinished at the offset, for one that is admitted without an enable, and for each enable before
/// then. A routine with a distance has, besides the first two, at most as many occurrences as
/// distances begin before then. The table is that of a mode of the configuration. The formula is
/// the bench's own.
pub fn demand(config: &Config, table: &Table, entry: usize, t: u64) -> u128
    requires table { IsTableOf config.now table.now }
    requires entry { entry < length table.now.mode.activations }
    requires later { (row_of table.now.mode entry).offset < t }
    ensures { result ≡ demand config.now table.now.mode (row_of table.now.mode entry).offset t }
{
    let mut window = Window::new(config.parts(), table, table.activation(entry).offset);
    window.extend(t);
    u128::from(window.demand())
}
