//! What a tick does besides computing, and the ticks that a demand is given.

ghost use Rattle.std.specs.Prelude.{◌≡◌, [], slice_get, slice_index, slice_index_or};
ghost use Rattle.task_lang.specs.Tick.{supply_of, usual_of, given, use_one};

use crate::demand::{Cursors, Demands, Values};
use tt_base::{Call, DemandNo};

/// What a tick does besides computing.
#[derive(Clone, Copy)]
pub enum Effect {
    /// It puts out a value.
    Out(i32),
    /// It calls a service.
    Service(Call),
}

/// How many ticks a demand is given now. It uses one of the script's values, if there is one.
pub fn take(cursors: &mut Cursors, demand: DemandNo, demands: &Demands, values: &Values) -> u64
    ensures given { result
        ≡ given (supply_of demands.now values.now) demand.0 (slice_index cursors.old demand.0) }
    ensures used { cursors.new ≡ use_one (supply_of demands.now values.now) demand.0 cursors.old }
{
    let list = values_of(values, demand);
    let used = cursors.use_one(demand, list.len());
    match list.get(used) {
        Some(ticks) => *ticks,
        None => usual_of(demands, demand),
    }
}

/// The values that the script gives for a demand.
fn values_of(values: &Values, demand: DemandNo) -> &[u64]
    ensures { result.now ≡ slice_index_or values.now demand.0 [] }
{
    match values.as_slice().get(demand.0 as usize) {
        Some(list) => list.as_slice(),
        None => &[],
    }
}

fn usual_of(demands: &Demands, demand: DemandNo) -> u64
    ensures { result ≡ usual_of (slice_get demands.now demand.0) }
{
    demands
        .as_slice()
        .get(demand.0 as usize)
        .map_or(0, |demand| demand.usual)
}
