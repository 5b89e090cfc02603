//! The ticks of the arrivals that are not taken, source by source.

ghost use Rattle.std.specs.Prelude.{◌≡◌, ◌<◌, ◌≤◌, [], drop, length, slice_get, slice_index_or, slice_set};
ghost use Rattle.isr_window.specs.Window.{is_at, lesser, least_next};
ghost use Rattle.isr_window.specs.Numbers.{first_at};

use crate::flags::MOST;
use std::marker::Model;
use tt_base::{Series, Tick};

/// A list of ticks for each source of one kind. Contracts see the ticks of each list that are not
/// taken.
#[derive(Drop)]
pub(crate) struct Queues {
    lists: Series<Series<Tick>>,
    /// How many ticks of each list were taken.
    taken: [usize; MOST],
}

impl Model for Queues {
    ghost use Rattle.std.specs.Prelude.{ℕ, List, length, ◌≤◌};

    ghost Value = { List (List ℕ) };

    ghost use Rattle.isr_window.specs.Inside.{untaken};

    ghost view = { λ q. untaken q.taken q.lists };

    ghost invariant = { λ q. length q.lists ≤ 16 };
}

/// Whether there is a tick, and it is this one.
pub(crate) fn is_at(tick: Option<Tick>, now: Tick) -> bool
    ensures { result ≡ is_at now tick }
{
    match tick {
        None => false,
        Some(tick) => tick == now,
    }
}

/// The tick at a place of a list, if there is one.
fn tick_at(ticks: &[Tick], place: usize) -> Option<Tick>
    ensures { result ≡ slice_get ticks.now place }
{
    ticks.get(place).copied()
}

/// The lesser of two ticks; where one is missing, the other.
pub(crate) fn lesser(one: Option<Tick>, other: Option<Tick>) -> Option<Tick>
    ensures { result ≡ lesser one other }
{
    match (one, other) {
        (None, _) => other,
        (Some(_), None) => one,
        (Some(tick), Some(least)) => Some(tick.min(least)),
    }
}

impl Queues {
    /// These lists, of which nothing was taken.
    pub(crate) fn new(lists: Series<Series<Tick>>) -> Queues
        requires { length lists ≤ 16 }
        ensures { result ≡ lists }
    {
        Queues {
            lists,
            taken: [0; MOST],
        }
    }

    /// How many sources there are.
    pub(crate) fn len(&self) -> usize
        ensures { result ≡ length self.now }
    {
        self.lists.as_slice().len()
    }

    /// The next tick of a source, if there is one.
    #[tactic(auto, using(crate::proofs::Taken::length_untaken))]
    pub(crate) fn next(&self, number: usize) -> Option<Tick>
        requires { number < length self.now }
        ensures { result ≡ slice_get (slice_index_or self.now number []) 0 }
    {
        let ticks = self.lists.as_slice()[number].as_slice();
        tick_at(ticks, self.taken[number])
    }

    /// Takes the next tick of a source.
    #[tactic(auto, using(crate::proofs::Taken::length_untaken, crate::proofs::Taken::untaken_more, crate::proofs::Taken::untaken_all))]
    pub(crate) fn take(&mut self, number: usize)
        requires { number < length self.old }
        ensures { self.new
            ≡ slice_set self.old number (drop 1 (slice_index_or self.old number [])) }
    {
        let ticks = self.lists.as_slice()[number].as_slice();
        if self.taken[number] < ticks.len() {
            self.taken[number] += 1;
        }
    }

    /// The number of the first source whose next tick is this one.
    pub(crate) fn first_at(&self, now: Tick) -> Option<usize>
        ensures { result ≡ first_at now self.now }
    {
        for number in 0..self.len() {
            if is_at(self.next(number), now) {
                return Some(number);
            }
        }
        None
    }

    /// The least of the next ticks, if there is one.
    pub(crate) fn least(&self) -> Option<Tick>
        ensures { result ≡ least_next self.now }
    {
        let mut least = None;
        for number in 0..self.len() {
            least = lesser(least, self.next(number));
        }
        least
    }
}
