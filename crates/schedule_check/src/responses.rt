//! The response ends of activations.

ghost use Rattle.std.specs.Prelude.{◌≡◌, ◌<◌, length};
ghost use Rattle.tt_world.specs.Rows.{row_of};
ghost use Rattle.schedule_check.specs.Responses.{response};
ghost use Rattle.schedule_check.specs.TablesOf.{IsTableOf};

use crate::demands::Window;
use round_table::Table;
use tt_world::Config;

/// The response end of an activation: the least offset of the round after its own and up to its
/// deadline at which its demand is at most the ticks between the two. Where the script keeps its
/// bounds, the activation has finished by then. None exactly where there is none. The table is that
/// of a mode of the configuration.
pub fn response(config: &Config, table: &Table, entry: usize) -> Option<u64>
    requires table { IsTableOf config.now table.now }
    requires entry { entry < length table.now.mode.activations }
    ensures { result ≡ response config.now table.now.mode (row_of table.now.mode entry) }
{
    let row = table.activation(entry);
    let mut window = Window::new(config.parts(), table, row.offset);
    let mut end = row.offset + 1;
    while end <= row.deadline {
        window.extend(end);
        let demand = window.demand();
        if demand <= end - row.offset {
            return Some(end);
        }
        if demand > row.deadline - row.offset {
            return None;
        }
        end = row.offset + demand;
    }
    None
}
