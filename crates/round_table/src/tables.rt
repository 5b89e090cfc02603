//! The dispatcher tables of all modes.

ghost use Rattle.std.specs.Prelude.{◌≡◌, ◌<◌, length, IfOk};
ghost use Rattle.round_table.specs.TableRows.{table_at, tables_of};

use crate::table::Table;
use std::alloc::Global;
use std::marker::Model;
use tt_base::{Memory, ModeNo, Series};
use tt_world::Config;

/// The dispatcher tables of a configuration. Contracts see them as the list of the tables of its
/// modes, in order.
#[derive(Drop)]
pub struct Tables {
    tables: Series<Table>,
}

impl Model for Tables {
    ghost use Rattle.std.specs.Prelude.{List};
    ghost use Rattle.round_table.specs.TableRows.{TableRows};

    ghost Value = { List TableRows };

    ghost view = { λ t. t.tables };
}

impl Tables {
    /// The table of each mode, in order. Its only error is `Memory`.
    pub fn build(alloc: Global, config: &Config) -> Result<Tables, Memory>
        ensures { IfOk result (λ tables. tables ≡ tables_of config.now) }
    {
        let parts = config.parts();
        let limit = parts.round - parts.adjust;
        let mut tables = Series::new(alloc);
        for mode in parts.modes.as_slice() {
            tables.push(Table::of_mode(alloc, mode, limit)?)?;
        }
        Ok(Tables { tables })
    }

    /// The table of a mode.
    pub fn get(&self, mode: ModeNo) -> &Table
        requires { mode.0 < length self.now }
        ensures { result.now ≡ table_at self.now mode }
    {
        &self.tables.as_slice()[usize::from(mode.0)]
    }
}
