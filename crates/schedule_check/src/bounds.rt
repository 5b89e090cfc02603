//! Whether a script keeps its declared bounds.

ghost use Rattle.std.specs.Prelude.{◌≡◌, ◌↔◌, IsTrue, nat_le};
ghost use Rattle.std.specs.List.{list_all};
ghost use Rattle.task_lang.specs.Tick.{supply_of};
ghost use Rattle.task_lang.specs.TickLaws.{AreValuesKept};
ghost use Rattle.schedule_check.specs.Kept.{KeepsBounds, are_spaced, keeps_distance};
ghost use Rattle.tt_world.specs.ScriptRules.{IsScript};
ghost use Rattle.schedule_check.specs.Kept.{AreDistancesKept};

use tt_base::Tick;
use tt_world::{Config, Script};

/// Whether each tick is at least the distance after the one before it.
fn is_spaced(distance: u64, arrivals: &[Tick]) -> bool
    ensures { result ≡ are_spaced distance 0 arrivals.now }
{
    let mut least = 0;
    for tick in arrivals {
        if u128::from(*tick) < least {
            return false;
        }
        least = u128::from(*tick) + u128::from(distance);
    }
    true
}

/// Whether arrivals keep the distance, where one is declared.
fn keeps_distance(distance: Option<u64>, arrivals: &[Tick]) -> bool
    ensures { result ≡ keeps_distance distance arrivals.now }
{
    match distance {
        None => true,
        Some(distance) => is_spaced(distance, arrivals),
    }
}

/// Whether each value is at most this one.
fn are_at_most(values: &[u64], most: u64) -> bool
    ensures { result ≡ list_all (λ value. nat_le value most) values.now }
{
    values.iter().all(|value| *value <= most)
}

/// Whether each value of each demand is at most the demand's most.
fn keeps_values(config: &Config, script: &Script) -> bool
    requires { IsScript config.now script.now }
    ensures { IsTrue result ↔ AreValuesKept (supply_of config.now.demands script.now.values) }
{
    let demands = config.parts().demands.as_slice();
    let values = script.parts().values.as_slice();
    for (number, demand) in demands.iter().enumerate() {
        if !are_at_most(values[number].as_slice(), demand.most) {
            return false;
        }
    }
    true
}

/// Whether the arrivals of each time-triggered routine keep its distance.
fn keeps_distances(config: &Config, script: &Script) -> bool
    requires { IsScript config.now script.now }
    ensures { IsTrue result ↔ AreDistancesKept config.now script.now }
{
    let isrs = config.parts().isrs.as_slice();
    let arrivals = script.parts().arrivals.isrs.as_slice();
    for (number, isr) in isrs.iter().enumerate() {
        if !keeps_distance(isr.distance, arrivals[number].as_slice()) {
            return false;
        }
    }
    true
}

/// Whether a script keeps the bounds that the configuration declares: each value of each demand is
/// at most the demand's most, and consecutive arrivals of each time-triggered routine with a
/// distance are at least that many ticks apart. All values and arrivals count, also those that no
/// run uses. The script is one of this configuration.
pub fn kept(config: &Config, script: &Script) -> bool
    requires { IsScript config.now script.now }
    ensures { IsTrue result ↔ KeepsBounds config.now script.now }
{
    keeps_values(config, script) && keeps_distances(config, script)
}
