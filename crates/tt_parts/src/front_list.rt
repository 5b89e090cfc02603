//! A list that grows at its front.

ghost use Rattle.std.specs.Prelude.{◌≡◌, [], ◌∷◌, IfOk, OnOk, MatchOption, slice_get};
ghost use Rattle.std.specs.Option.{option_copied, option_copied_mut};
ghost use Rattle.std.specs.Borrow.{sem};
ghost use Rattle.tt_parts.specs.FrontLends.{LendsFront};

use std::alloc::Global;
use std::marker::Model;
use tt_base::{Memory, Series};

/// Below how many items a list gives back what it does not need. More would take more memory while
/// they are copied than they give back.
const FEW: usize = 4096;

/// A list that grows at its front. Contracts see it as the list of its items, the front one first.
#[derive(Drop)]
pub struct FrontList<T> {
    /// The items in reverse order, so that the front one is the last.
    reversed: Vec<T>,
}

impl<T> Model for FrontList<T> {
    ghost use Rattle.std.specs.Prelude.{List, reverse};
    ghost use Rattle.std.specs.Coded.{coded_list};

    ghost Value = { List T };

    ghost coded = { coded_list T.code };

    ghost view = { λ l. reverse l.reversed.items };
}

impl<T> FrontList<T> {
    /// The empty list. It takes no memory.
    pub fn new(alloc: Global) -> FrontList<T>
        ensures { result ≡ [] }
    {
        FrontList {
            reversed: Vec::new(alloc),
        }
    }

    /// The front item.
    pub fn front(&self) -> Option<&T>
        ensures { option_copied result ≡ slice_get self.now 0 }
    {
        self.reversed.last()
    }

    /// The front item, to be changed there.
    pub(crate) fn front_mut(&mut self) -> Option<&mut T>
        ensures* lends { sem 𝓛 (LendsFront T.row self.entry result) }
        ensures value { option_copied_mut result ≡ slice_get self.old 0 }
    {
        self.reversed.last_mut()
    }

    /// Takes the front item.
    pub fn pop_front(&mut self) -> Option<T>
        ensures { MatchOption result ((self.old ≡ []) × (self.new ≡ []))
            (λ front. self.old ≡ front ∷ self.new) }
    {
        self.reversed.pop()
    }

    /// The items in order. Few items, as most bodies have, keep no more memory than they need.
    pub fn into_vec(self) -> Vec<T>
        ensures { result.items ≡ self }
    {
        let FrontList { mut reversed } = self;
        if reversed.len() < FEW {
            reversed.shrink_to_fit();
        }
        reversed.reverse();
        reversed
    }
}

impl<T: Drop> FrontList<T> {
    /// Puts an item at the front.
    pub fn push_front(&mut self, item: T) -> Result<(), Memory>
        ensures { OnOk result (self.new ≡ item ∷ self.old) }
    {
        match self.reversed.push(item) {
            Ok(()) => Ok(()),
            Err(_) => Err(Memory),
        }
    }

    /// The items in order.
    pub fn into_series(self, alloc: Global) -> Result<Series<T>, Memory>
        ensures { IfOk result (λ series. series ≡ self) }
    {
        let FrontList { mut reversed } = self;
        let mut series = Series::new(alloc);
        while let Some(item) = reversed.pop() {
            series.push(item)?;
        }
        Ok(series)
    }
}
