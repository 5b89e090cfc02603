//! The names of a document and the numbers of what they declare.

ghost use Rattle.std.specs.Prelude.{◌≡◌, [], ◌∷◌, ◌++◌, ◌<◌, slice_get, option_and_then, IfOk, OnOk, OnErr};
ghost use Rattle.std.specs.HashMap.{IsUnchanged};
ghost use Rattle.tt_base.specs.NameIndex.{KeepsFirst, name_at};
ghost use Rattle.tt_base.specs.Names.{count_of, declared, find_name, get_name, index_of, kind_of, number_of};

use crate::name::Name;
use crate::number::{DemandNo, IsrNo, Memory, ModeNo, OisrNo, OsekNo, TaskNo, VarNo};
use std::alloc::Global;
use std::collections::HashMap;
use std::marker::Model;

/// What a name is declared as.
#[derive(Clone, Copy)]
pub enum NameKind {
    /// An application mode.
    Mode,
    /// A variable of the task language.
    Var,
    /// An execution demand.
    Demand,
    /// A time-triggered task.
    Task,
    /// A time-triggered interrupt service routine.
    Isr,
    /// A basic task of the OSEK subsystem.
    Osek,
    /// An interrupt service routine of the OSEK subsystem.
    Oisr,
}

impl NameKind {
    /// All kinds, each at its place.
    pub const ALL: [NameKind; 7] = [
        NameKind::Mode,
        NameKind::Var,
        NameKind::Demand,
        NameKind::Task,
        NameKind::Isr,
        NameKind::Osek,
        NameKind::Oisr,
    ];

    /// The place of this kind among the kinds, from 0.
    pub fn index(self) -> usize
        ensures { result ≡ index_of self }
    {
        self as usize
    }

    /// The thing of this kind that has a number.
    pub fn numbered(self, number: u16) -> Declared
        ensures { result ≡ declared self number }
    {
        match self {
            NameKind::Mode => Declared::Mode(ModeNo(number)),
            NameKind::Var => Declared::Var(VarNo(number)),
            NameKind::Demand => Declared::Demand(DemandNo(number)),
            NameKind::Task => Declared::Task(TaskNo(number)),
            NameKind::Isr => Declared::Isr(IsrNo(number)),
            NameKind::Osek => Declared::Osek(OsekNo(number)),
            NameKind::Oisr => Declared::Oisr(OisrNo(number)),
        }
    }
}

/// A declared thing: its kind and its number, which is the count of earlier names of that kind.
#[derive(Clone, Copy)]
pub enum Declared {
    /// An application mode.
    Mode(ModeNo),
    /// A variable of the task language.
    Var(VarNo),
    /// An execution demand.
    Demand(DemandNo),
    /// A time-triggered task.
    Task(TaskNo),
    /// A time-triggered interrupt service routine.
    Isr(IsrNo),
    /// A basic task of the OSEK subsystem.
    Osek(OsekNo),
    /// An interrupt service routine of the OSEK subsystem.
    Oisr(OisrNo),
}

impl Declared {
    /// Its kind.
    pub fn kind(self) -> NameKind
        ensures { result ≡ kind_of self }
    {
        match self {
            Declared::Mode(_) => NameKind::Mode,
            Declared::Var(_) => NameKind::Var,
            Declared::Demand(_) => NameKind::Demand,
            Declared::Task(_) => NameKind::Task,
            Declared::Isr(_) => NameKind::Isr,
            Declared::Osek(_) => NameKind::Osek,
            Declared::Oisr(_) => NameKind::Oisr,
        }
    }

    /// Its number.
    pub fn number(self) -> u16
        ensures { result ≡ number_of self }
    {
        match self {
            Declared::Mode(ModeNo(number)) => number,
            Declared::Var(VarNo(number)) => number,
            Declared::Demand(DemandNo(number)) => number,
            Declared::Task(TaskNo(number)) => number,
            Declared::Isr(IsrNo(number)) => number,
            Declared::Osek(OsekNo(number)) => number,
            Declared::Oisr(OisrNo(number)) => number,
        }
    }
}

/// A name and what it is declared as.
#[derive(Clone, Copy)]
pub struct NameEntry {
    pub kind: NameKind,
    pub name: Name,
}

/// How many kinds there are.
const KINDS: usize = 7;

/// The names of a document. Contracts see them as one list of kinds and names in the order of
/// adding.
#[derive(Drop)]
pub struct Names {
    /// All of them in the order of adding.
    entries: Vec<NameEntry>,
    /// The places of the names of each kind in that list, in the order of adding.
    places: [Vec<usize>; KINDS],
    /// What each name declares.
    index: HashMap<Name, Declared>,
}

impl Model for Names {
    ghost use Rattle.std.specs.Prelude.{List, map};
    ghost use Rattle.tt_base.specs.declared.names.NameEntry.{NameEntry};
    ghost use Rattle.tt_base.specs.NameIndex.{IsIndexed};

    ghost Value = { List NameEntry };

    ghost view = { λ n. n.entries.items };

    ghost invariant = { λ n.
        IsIndexed n.entries.items (map (λ list. list.items) n.places) n.index };
}

impl Names {
    /// No names. It takes no memory.
    pub fn new(alloc: Global) -> Names
        ensures { result ≡ [] }
    {
        Names {
            entries: Vec::new(alloc),
            places: [
                Vec::new(alloc),
                Vec::new(alloc),
                Vec::new(alloc),
                Vec::new(alloc),
                Vec::new(alloc),
                Vec::new(alloc),
                Vec::new(alloc),
            ],
            index: HashMap::new(alloc),
        }
    }

    /// Adds a name, and answers the thing that it declares. There are fewer than 1,024 names of
    /// its kind. When out of memory, the names are unchanged.
    pub fn add(&mut self, kind: NameKind, name: Name) -> Result<Declared, Memory>
        requires { count_of kind self.old < 1024 }
        ensures which { IfOk result (λ which. which ≡ declared kind (count_of kind self.old)) }
        ensures added { OnOk result
            (self.new ≡ self.old ++ record { kind = kind; name = name } ∷ []) }
        ensures err { OnErr result (self.new ≡ self.old) }
    {
        let row = kind.index();
        let which = kind.numbered(self.places[row].len() as u16);
        self.entries.reserve(1)?;
        self.places[row].reserve(1)?;
        keep_first(&mut self.index, name, which)?;
        self.places[row].push_reserved(self.entries.len());
        self.entries.push_reserved(NameEntry { kind, name });
        Ok(which)
    }

    /// The thing that a name declares. Of equal names, the one added first counts. None exactly
    /// where no name equals it.
    pub fn find(&self, name: Name) -> Option<Declared>
        ensures { result ≡ find_name self.now name }
    {
        self.index.get(&name).copied()
    }

    /// The name of a thing. None exactly where its kind has no such number.
    pub fn get(&self, which: Declared) -> Option<Name>
        ensures { result ≡ get_name self.now which }
    {
        let places = &self.places[which.kind().index()];
        name_of_number(&self.entries, places, which.number() as usize)
    }
}

/// The name whose place is `places[number]`.
fn name_of_number(entries: &[NameEntry], places: &[usize], number: usize) -> Option<Name>
    ensures { result ≡ option_and_then (name_at entries.now) (slice_get places.now number) }
{
    let place = *places.get(number)?;
    Some(entries.get(place)?.name)
}

/// Records what a name declares, unless the name already declares something. When out of memory,
/// the index is unchanged.
fn keep_first(
    index: &mut HashMap<Name, Declared>,
    name: Name,
    which: Declared,
) -> Result<(), Memory>
    ensures ok { OnOk result (KeepsFirst index.old index.new name which) }
    ensures err { OnErr result (IsUnchanged index.old index.new) }
{
    if index.contains_key(&name) {
        return Ok(());
    }
    index.insert(name, which)?;
    Ok(())
}
