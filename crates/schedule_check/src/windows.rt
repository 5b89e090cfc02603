//! How deep activations and routines are nested at most, and how many stack words they take.

ghost use Rattle.std.specs.Prelude.{◌≡◌, ◌≤◌, ◌<◌, ◌+◌, ◌*◌, ◌^◌, length, take, sum_by};
ghost use Rattle.tt_world.specs.declared.script.ScriptParts.{ScriptParts};
ghost use Rattle.tt_world.specs.ConfigRules.{IsConfig};
ghost use Rattle.tt_world.specs.Load.{deepest, most_words};
ghost use Rattle.tt_world.specs.Rows.{row_of};
ghost use Rattle.tt_world.specs.ScriptRules.{IsScript};
ghost use Rattle.round_table.specs.DueRows.{checks_of};
ghost use Rattle.round_table.specs.TableRows.{tables_of};
ghost use Rattle.schedule_check.specs.Measures.{counted, weight_of};
ghost use Rattle.schedule_check.specs.TablesOf.{IsTableOf};
ghost use Rattle.schedule_check.specs.Windows.{depth_bound, most_in, most_open, words_bound};

use round_table::{Table, Tables};
use tt_base::ModeNo;
use tt_world::{Activation, Config, ConfigParts};

/// What an activation counts.
#[derive(Clone, Copy)]
enum Measure {
    /// One.
    Depth,
    /// The stack words of its task.
    Words,
}

/// What an activation counts.
fn weight_of(measure: Measure, parts: &ConfigParts, row: Activation) -> u64
    requires rules { IsConfig parts.now }
    requires task { row.task.0 < length parts.now.tasks }
    ensures exact { result ≡ weight_of measure parts.now row }
    ensures bounded { result ≤ 65535 }
{
    match measure {
        Measure::Depth => 1,
        Measure::Words => u64::from(parts.tasks.as_slice()[usize::from(row.task.0)].stack),
    }
}

/// The sum of the weights of the activations whose checks are between two places of a table's list
/// of checks.
fn checked_between(
    measure: Measure,
    parts: &ConfigParts,
    table: &Table,
    from: usize,
    to: usize,
) -> u64
    requires rules { IsConfig parts.now }
    requires table { IsTableOf parts.now table.now }
    requires order { from ≤ to }
    requires within { to ≤ length (checks_of table.now) }
    requires small { sum_by (counted (weight_of measure parts.now) table.now.mode)
        (take to (checks_of table.now)) < 2 ^ 64 }
    ensures { sum_by (counted (weight_of measure parts.now) table.now.mode)
        (take from (checks_of table.now)) + result
        ≡ sum_by (counted (weight_of measure parts.now) table.now.mode)
        (take to (checks_of table.now)) }
{
    let mut sum = 0;
    for place in from..to {
        sum += weight_of(measure, parts, table.activation(table.check_at(place)));
    }
    sum
}

/// The largest sum, over the offsets of a mode, of the weights of the activations whose windows
/// cover the offset. A window opens with its activation, so this is the largest at the offsets of
/// activations. The windows that have closed by then are those whose checks come before the checks
/// of later offsets.
fn most_in(measure: Measure, parts: &ConfigParts, table: &Table) -> u64
    requires rules { IsConfig parts.now }
    requires table { IsTableOf parts.now table.now }
    ensures exact { result ≡ most_in (weight_of measure parts.now) parts.now table.now.mode }
    ensures bounded { result ≤ 4096 * 65535 }
{
    let mut opened = 0;
    let mut closed = 0;
    let mut place = 0;
    let mut most = 0;
    for row in table.activations() {
        opened += weight_of(measure, parts, *row);
        let next = table.due(row.offset).checks_to;
        closed += checked_between(measure, parts, table, place, next);
        place = next;
        most = most.max(opened - closed);
    }
    most
}

/// The largest over all modes and offsets.
fn most_open(measure: Measure, config: &Config, tables: &Tables) -> u64
    requires { tables.now ≡ tables_of config.now }
    ensures exact { result ≡ most_open (weight_of measure config.now) config.now }
    ensures bounded { result ≤ 4096 * 65535 }
{
    let parts = config.parts();
    let mut most = 0;
    for number in 0..parts.modes.len() {
        most = most.max(most_in(measure, parts, tables.get(ModeNo(number as u16))));
    }
    most
}

/// How many activations and time-triggered routines are unfinished at once at most, in every run:
/// the largest number of activations of one mode whose windows cover one offset, plus the number of
/// time-triggered routines. The window of an activation reaches from its offset up to its
/// monitoring point, which it does not include; where the point is the round's end, up to that of
/// the longest round. The tables are those of the configuration.
pub fn depth_bound(config: &Config, tables: &Tables) -> u64
    requires { tables.now ≡ tables_of config.now }
    ensures exact { result ≡ depth_bound config.now }
    ensures every_run { (s : ScriptParts) → IsScript config.now s
        → deepest config.now s ≤ result }
{
    most_open(Measure::Depth, config, tables) + config.parts().isrs.len() as u64
}

/// How many stack words unfinished activations and time-triggered routines take at most, in every
/// run: the largest sum over activations of one mode whose windows cover one offset, plus the sum
/// over the time-triggered routines. The tables are those of the configuration.
pub fn words_bound(config: &Config, tables: &Tables) -> u64
    requires { tables.now ≡ tables_of config.now }
    ensures exact { result ≡ words_bound config.now }
    ensures every_run { (s : ScriptParts) → IsScript config.now s
        → most_words config.now s ≤ result }
{
    let mut stacks = 0;
    for isr in config.parts().isrs.as_slice() {
        stacks += u64::from(isr.stack);
    }
    most_open(Measure::Words, config, tables) + stacks
}
