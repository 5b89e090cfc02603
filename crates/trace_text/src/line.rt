//! A printed line, and what is appended to it word by word.

ghost use Rattle.std.specs.Prelude.{◌≡◌, ◌+◌, ◌≤◌, [], ◌∷◌, ◌++◌, length, decimal};
ghost use Rattle.tt_base.specs.Names.{name_of};

use arrayvec::ArrayVec;
use itoa::{Buffer, Integer};
use std::marker::Model;
use tt_base::{Declared, Names, Tick};

/// How many bytes a line has at most, its LF included.
const LINE_BYTES: usize = 96;

/// A printed line: words with one space between them, and a LF at the end. Contracts see it as the
/// list of its bytes.
#[derive(Drop)]
pub struct Line {
    bytes: ArrayVec<u8, LINE_BYTES>,
}

impl Model for Line {
    ghost use Rattle.std.specs.Prelude.{List, ℕ};

    ghost Value = { List ℕ };

    ghost view = { λ l. l.bytes.items };
}

impl Line {
    /// The bytes, the LF included.
    pub fn as_bytes(&self) -> &[u8]
        ensures bytes { result.now ≡ self.now }
        ensures few { length self.now ≤ 96 }
    {
        self.bytes.as_slice()
    }

    /// A line that begins with this text.
    pub fn begun(word: &[u8]) -> Line
        requires { length word.now ≤ 96 }
        ensures { result ≡ word.now }
    {
        let mut line = Line {
            bytes: ArrayVec::new(),
        };
        line.text(word);
        line
    }

    /// A line whose first word is a stamp, or an offset of the round, in ticks.
    pub fn stamped(at: Tick) -> Line
        ensures text { result ≡ decimal at }
        ensures few { length result ≤ 20 }
    {
        let mut line = Line {
            bytes: ArrayVec::new(),
        };
        line.digits(at);
        line
    }

    /// One more word, with a space in front of it.
    pub fn word(&mut self, word: &[u8])
        requires { length self.old + 1 + length word.now ≤ 96 }
        ensures { self.new ≡ self.old ++ 32 ∷ word.now }
    {
        self.text(b" ");
        self.text(word);
    }

    /// One more word: a number in decimal.
    pub fn number<I: Integer>(&mut self, number: I)
        requires { length self.old + 1 + I.MAX_STR_LEN ≤ 96 }
        ensures text { self.new ≡ self.old ++ 32 ∷ I.text number }
        ensures few { length self.new ≤ length self.old + 1 + I.MAX_STR_LEN }
    {
        self.text(b" ");
        self.digits(number);
    }

    /// One more word: the name of a declared thing, an empty word where it has none.
    pub fn name(&mut self, names: &Names, which: Declared)
        requires { length self.old + 17 ≤ 96 }
        ensures text { self.new ≡ self.old ++ 32 ∷ name_of names.now which }
        ensures few { length self.new ≤ length self.old + 17 }
    {
        match names.get(which) {
            Some(name) => self.word(name.as_bytes()),
            None => self.word(b""),
        }
    }

    /// The LF at the end.
    pub fn end(&mut self)
        requires { length self.old + 1 ≤ 96 }
        ensures { self.new ≡ self.old ++ 10 ∷ [] }
    {
        self.text(b"\n");
    }

    /// Appends bytes.
    fn text(&mut self, text: &[u8])
        requires { length self.old + length text.now ≤ 96 }
        ensures { self.new ≡ self.old ++ text.now }
    {
        let _ = self.bytes.try_extend_from_slice(text);
    }

    /// Appends a number in decimal.
    fn digits<I: Integer>(&mut self, number: I)
        requires { length self.old + I.MAX_STR_LEN ≤ 96 }
        ensures text { self.new ≡ self.old ++ I.text number }
        ensures few { length self.new ≤ length self.old + I.MAX_STR_LEN }
    {
        let mut buffer = Buffer::new();
        self.text(buffer.format(number).as_bytes());
    }
}
