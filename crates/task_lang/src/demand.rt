//! Execution demands, what a script gives for them, and how much of it was used.

ghost use Rattle.std.specs.Prelude.{◌≡◌, ◌+◌, min, replicate, IfOk, slice_index, slice_set};

use std::alloc::Global;
use std::marker::Model;
use tt_base::{DemandNo, Memory, Series};

/// How many ticks a demand asks for: the most, and the number where the script gives no value.
#[derive(Clone, Copy)]
pub struct Demand {
    /// The most ticks.
    pub most: u64,
    /// The ticks once the script's values have ended.
    pub usual: u64,
}

/// The demands, by number.
pub type Demands = Series<Demand>;

/// For each demand, by number, the values that the script gives, in order.
pub type Values = Series<Series<u64>>;

/// For each demand, by number, how many of its script values were used. Contracts see them as a
/// list.
#[derive(Drop)]
pub struct Cursors {
    used: Vec<usize>,
}

impl Model for Cursors {
    ghost use Rattle.std.specs.Prelude.{List, ℕ};

    ghost Value = { List ℕ };

    ghost view = { λ c. c.used.items };
}

impl Cursors {
    /// No value of any of these demands was used.
    pub fn new(alloc: Global, demands: usize) -> Result<Cursors, Memory>
        ensures { IfOk result (λ cursors. cursors ≡ replicate demands 0) }
    {
        let used = vec![in alloc; 0; demands]?;
        Ok(Cursors { used })
    }

    /// How many values were used, by demand.
    pub fn as_slice(&self) -> &[usize]
        ensures { result.now ≡ self.now }
    {
        self.used.as_slice()
    }

    /// Uses one more value of a demand, if it has one, and answers how many were used before. A
    /// demand that does not exist has none.
    pub(crate) fn use_one(&mut self, demand: DemandNo, values: usize) -> usize
        ensures before { result ≡ slice_index self.old demand.0 }
        ensures after { self.new
            ≡ slice_set self.old demand.0 (min (slice_index self.old demand.0 + 1) values) }
    {
        match self.used.get_mut(demand.0 as usize) {
            Some(place) => {
                let before = *place;
                *place = if before < values { before + 1 } else { values };
                before
            }
            None => 0,
        }
    }
}
