//! The list type of the bench.

ghost use Rattle.std.specs.Prelude.{◌≡◌, ◌<◌, ◌↔◌, [], ◌∷◌, ◌++◌, length, slice_get, slice_set, IsTrue, IfOk, OnOk, OnErr, OnSome};
ghost use Rattle.std.specs.Option.{option_copied};
ghost use Rattle.std.specs.Borrow.{sem};
ghost use Rattle.tt_base.specs.Series.{LendsItem};

use crate::number::Memory;
use std::alloc::Global;
use std::marker::Model;

/// A `Vec` that contracts see as the list of its items, so that two with the same items are one
/// value.
#[derive(Drop)]
pub struct Series<T> {
    items: Vec<T>,
}

impl<T> Model for Series<T> {
    ghost use Rattle.std.specs.Prelude.{List};
    ghost use Rattle.std.specs.Coded.{coded_list};

    ghost Value = { List T };

    ghost coded = { coded_list T.code };

    ghost view = { λ s. s.items.items };
}

impl<T> Series<T> {
    /// The empty list. It takes no memory.
    pub fn new(alloc: Global) -> Series<T>
        ensures { result ≡ [] }
    {
        Series {
            items: Vec::new(alloc),
        }
    }

    /// The list of the items of a vector.
    pub fn from_vec(items: Vec<T>) -> Series<T>
        ensures { result ≡ items.items }
    {
        Series { items }
    }

    /// The vector of the items.
    pub fn into_vec(self) -> Vec<T>
        ensures { result.items ≡ self }
    {
        let Series { items } = self;
        items
    }

    /// The items in order.
    pub fn as_slice(&self) -> &[T]
        ensures { result.now ≡ self.now }
    {
        self.items.as_slice()
    }

    /// How many items there are.
    pub fn len(&self) -> usize
        ensures { result ≡ length self.now }
    {
        self.items.len()
    }

    /// Whether there is no item.
    pub fn is_empty(&self) -> bool
        ensures { IsTrue result ↔ (self.now ≡ []) }
    {
        self.items.is_empty()
    }

    /// The item at a place. None exactly where there is no such place.
    pub fn get(&self, place: usize) -> Option<&T>
        ensures { option_copied result ≡ slice_get self.now place }
    {
        self.items.get(place)
    }

    /// The item at a place, to be changed there. All other items stay.
    pub fn get_mut(&mut self, place: usize) -> &mut T
        requires { place < length self.old }
        ensures* lends { sem 𝓛 (LendsItem T.row self.entry place result) }
        ensures value { slice_get self.old place ≡ Some result.now }
    {
        &mut self.items[place]
    }
}

impl<T: Copy> Series<T> {
    /// A list with a copy of each of these items.
    pub fn copy_of(alloc: Global, items: &[T]) -> Result<Series<T>, Memory>
        ensures { IfOk result (λ copy. copy ≡ items.now) }
    {
        Ok(Series::from_vec(Vec::from_slice(alloc, items)?))
    }
}

impl<T: Drop> Series<T> {
    /// Appends an item. When out of memory, the list is unchanged and the item is given up.
    pub fn push(&mut self, item: T) -> Result<(), Memory>
        ensures ok { OnOk result (self.new ≡ self.old ++ item ∷ []) }
        ensures err { OnErr result (self.new ≡ self.old) }
    {
        self.items.push(item)?;
        Ok(())
    }

    /// Puts an item in the place of another. Where there is no such place, the list is unchanged
    /// and the item is given up.
    pub fn set(&mut self, place: usize, item: T)
        ensures { self.new ≡ slice_set self.old place item }
    {
        if place < self.items.len() {
            self.items[place] = item;
        }
    }

    /// Gives up all items. The list keeps its memory.
    pub fn clear(&mut self)
        ensures { self.new ≡ [] }
    {
        self.items.clear();
    }
}

/// A list with a copy of each of these lists.
pub fn copy_lists<T: Copy>(alloc: Global, lists: &[Series<T>]) -> Result<Series<Series<T>>, Memory>
    ensures { IfOk result (λ copy. copy ≡ lists.now) }
{
    let mut copy = Series::new(alloc);
    for list in lists {
        copy.push(Series::copy_of(alloc, list.as_slice())?)?;
    }
    Ok(copy)
}
