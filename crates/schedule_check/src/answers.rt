//! The answer of the check.

ghost use Rattle.std.specs.Prelude.{◌≡◌};
ghost use Rattle.round_table.specs.TableRows.{tables_of};
ghost use Rattle.schedule_check.specs.Responses.{answer_of, late_entry};
ghost use Rattle.schedule_check.specs.TablesOf.{IsTableOf};

use crate::responses::response;
use round_table::{Table, Tables};
use tt_base::ModeNo;
use tt_world::Config;

/// The answer of the check.
#[derive(Clone, Copy)]
pub enum CheckAnswer {
    /// Each activation of each mode has a response end.
    Yes,
    /// The first mode with an activation that has none, and the first such entry in it.
    No { mode: ModeNo, entry: usize },
}

/// The first entry of a table that has no response end.
fn late_entry(config: &Config, table: &Table) -> Option<usize>
    requires { IsTableOf config.now table.now }
    ensures { result ≡ late_entry config.now table.now.mode }
{
    for entry in 0..table.entries() {
        if response(config, table, entry).is_none() {
            return Some(entry);
        }
    }
    None
}

/// Whether each activation of each mode has a response end; where one has none, the first mode with
/// such an activation, and the first such entry in it. The tables are those of the configuration. A
/// no does not mean that a deadline can be missed, since the check is pessimistic.
pub fn check(config: &Config, tables: &Tables) -> CheckAnswer
    requires { tables.now ≡ tables_of config.now }
    ensures { result ≡ answer_of config.now }
{
    for number in 0..config.parts().modes.len() {
        let mode = ModeNo(number as u16);
        if let Some(entry) = late_entry(config, tables.get(mode)) {
            return CheckAnswer::No { mode, entry };
        }
    }
    CheckAnswer::Yes
}
