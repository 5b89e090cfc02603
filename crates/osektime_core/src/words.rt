//! The words of a command line.

ghost use Rattle.std.specs.Prelude.{◌≡◌, [], ◌∷◌, ◌++◌, OnOk, OnErr};
ghost use Rattle.osektime_core.specs.Words.{command_of};

use std::alloc::Global;
use std::marker::Model;
use tt_base::Memory;
use tt_doc::number;

/// What a user asks for.
#[derive(Clone, Copy)]
pub enum Command {
    /// `trace`: the lines of the schedule.
    Trace,
    /// `show`: the document in its canonical text.
    Show,
    /// `table`: the dispatcher tables of all modes.
    Table,
    /// `check`: the schedule check, with the response end of each activation.
    Check,
    /// `load`: the summary of the run, in numbers.
    Load,
    /// `bulk N`: the same for the bulk document of this number.
    Bulk(u32),
}

/// The words of a command line, without the program's name. Contracts see them as a list of byte
/// lists.
#[derive(Drop)]
pub struct Words {
    alloc: Global,
    words: Vec<Vec<u8>>,
}

impl Model for Words {
    ghost use Rattle.std.specs.Prelude.{List, ℕ};
    ghost use Rattle.osektime_core.specs.Words.{bytes_of_each};

    ghost Value = { List (List ℕ) };

    ghost view = { λ w. bytes_of_each w.words.items };
}

impl Words {
    /// No words. It takes no memory.
    pub fn new(alloc: Global) -> Words
        ensures { result ≡ [] }
    {
        Words {
            alloc,
            words: Vec::new(alloc),
        }
    }

    /// Appends a word. On `Memory` the list is unchanged.
    pub fn push(&mut self, word: &[u8]) -> Result<(), Memory>
        ensures ok { OnOk result (self.new ≡ self.old ++ word.now ∷ []) }
        ensures err { OnErr result (self.new ≡ self.old) }
    {
        let copy = word.to_vec(self.alloc)?;
        self.words.push(copy)?;
        Ok(())
    }

    /// The command that the words name; None exactly where they name none.
    pub fn command(&self) -> Option<Command>
        ensures { result ≡ command_of self.now }
    {
        match self.words.as_slice() {
            [word] => command_named(word.as_slice()),
            [word, number] => command_numbered(word.as_slice(), number.as_slice()),
            _ => None,
        }
    }
}

fn command_named(word: &[u8]) -> Option<Command>
    ensures { result ≡ command_of (word.now ∷ []) }
{
    if word == b"trace".as_slice() {
        return Some(Command::Trace);
    }
    if word == b"show".as_slice() {
        return Some(Command::Show);
    }
    if word == b"table".as_slice() {
        return Some(Command::Table);
    }
    if word == b"check".as_slice() {
        return Some(Command::Check);
    }
    if word == b"load".as_slice() {
        return Some(Command::Load);
    }
    None
}

fn command_numbered(word: &[u8], text: &[u8]) -> Option<Command>
    ensures { result ≡ command_of (word.now ∷ text.now ∷ []) }
{
    if word != b"bulk".as_slice() {
        return None;
    }
    match u32::try_from(number(text)?) {
        Ok(number) => Some(Command::Bulk(number)),
        Err(_) => None,
    }
}
