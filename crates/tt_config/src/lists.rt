//! Parts without their lines, and lists by the number that they belong to.

ghost use Rattle.std.specs.Prelude.{◌≡◌, ℕ, [], ◌∷◌, IfOk, OnOk, Option, map, replicate};
ghost use Rattle.tt_base.specs.declared.names.NameKind.{NameKind};
ghost use Rattle.tt_base.specs.Names.{count_of};
ghost use Rattle.tt_config.specs.Lists.{appended, by_number, put_at};
ghost use Rattle.tt_parts.specs.Located.{parts};
ghost use Rattle.tt_rules.specs.Shapes.{Answers};

use std::alloc::Global;
use std::marker::Model;
use tt_base::{Memory, NameEntry, NameKind, Series};
use tt_parts::At;

/// The parts without their lines.
pub(crate) fn parts<T: Copy + Drop>(alloc: Global, located: &[At<T>]) -> Result<Series<T>, Memory>
    ensures { IfOk result (λ list. list ≡ parts located.now) }
{
    let mut list = Series::new(alloc);
    for at in located {
        list.push(at.part)?;
    }
    Ok(list)
}

/// How many names of a kind there are.
pub(crate) fn count_of(names: &[At<NameEntry>], kind: NameKind) -> usize
    ensures { result ≡ count_of kind (parts names.now) }
{
    let mut count = 0;
    for at in names {
        if kind.index() == at.part.kind.index() {
            count += 1;
        }
    }
    count
}

/// Lists, numbered from 0.
#[derive(Drop)]
pub(crate) struct Lists<T> {
    lists: Vec<Series<T>>,
}

impl<T> Model for Lists<T> {
    ghost use Rattle.std.specs.Prelude.{List};
    ghost use Rattle.std.specs.Coded.{coded_list};

    ghost Value = { List (List T) };

    ghost coded = { coded_list (coded_list T.code) };

    ghost view = { λ l. l.lists.items };
}

impl<T: Drop> Lists<T> {
    /// This many empty lists.
    fn new(alloc: Global, count: usize) -> Result<Lists<T>, Memory>
        ensures { IfOk result (λ lists. lists ≡ replicate count []) }
    {
        let mut lists = Vec::new(alloc);
        for _ in 0..count {
            if lists.push(Series::new(alloc)).is_err() {
                return Err(Memory);
            }
        }
        Ok(Lists { lists })
    }

    /// Appends an item to the list of a number, if there is such a list.
    fn push(&mut self, number: u16, item: T) -> Result<(), Memory>
        ensures { OnOk result (self.new ≡ appended number item self.old) }
    {
        match self.lists.get_mut(number as usize) {
            Some(list) => list.push(item),
            None => Ok(()),
        }
    }

    /// Appends an item to the list of its number, if there is an item.
    fn put(&mut self, place: Option<(u16, T)>) -> Result<(), Memory>
        ensures { OnOk result (self.new ≡ put_at place self.old) }
    {
        match place {
            None => Ok(()),
            Some((number, item)) => self.push(number, item),
        }
    }

    /// The lists in order.
    pub(crate) fn into_series(self) -> Series<Series<T>>
        ensures { result ≡ self }
    {
        Series::from_vec(self.lists)
    }
}

/// For each number below `count`, what parts give it, in order. Each part gives an item to one
/// number, or to none.
pub(crate) fn by_number<T, U: Drop, F: Fn(&T) -> Option<(u16, U)>>(
    alloc: Global,
    count: usize,
    located: &[At<T>],
    place_of: F,
) -> Result<Lists<U>, Memory>
    requires callable { F.IsAlwaysCallable place_of }
    ensures { IfOk result (λ lists. (place : T → Option (ℕ × U)) → Answers F.Fn place_of place
        → lists ≡ by_number count place (parts located.now)) }
{
    let mut lists = Lists::new(alloc, count)?;
    for at in located {
        lists.put(place_of(&at.part))?;
    }
    Ok(lists)
}
