//! The words of a line, read one by one.

ghost use Rattle.std.specs.Prelude.{◌≡◌, ◌≤◌, [], ◌∷◌, MatchOption, IsTrue, ◌↔◌, length};
ghost use Rattle.tt_doc.specs.Numbers.{number_of, integer_of};
ghost use Rattle.tt_doc.specs.Words.{is_comment, words_of};
ghost use Rattle.tt_read.specs.Keywords.{keyword_of};
ghost use Rattle.tt_read.specs.Reading.{first_by, rest_of, name_of};

use crate::keyword::Keyword;
use std::marker::Model;
use tt_base::Name;
use tt_doc::{LineWords, integer, number};

/// The words of a line that are not read yet. Contracts see it as the list of their texts.
#[derive(Drop)]
pub struct Cursor<'a> {
    words: LineWords<'a>,
}

impl<'a> Model for Cursor<'a> {
    ghost use Rattle.std.specs.Prelude.{List, ℕ, ◌≤◌, length};

    ghost Value = { List (List ℕ) };

    ghost view = { λ c. c.words };

    ghost invariant = { λ c. length c.words ≤ 100 };
}

impl<'a> Cursor<'a> {
    /// The words of a line.
    pub fn new(line: &'a [u8]) -> Cursor<'a>
        requires { length line.now ≤ 200 }
        ensures texts { result ≡ words_of line.now }
        ensures few { length result ≤ 100 }
    {
        Cursor {
            words: LineWords::new(line),
        }
    }

    /// Whether no word is left, or the next one begins with `#`.
    pub fn is_comment(&self) -> bool
        ensures { result ≡ is_comment self.now }
    {
        self.words.is_comment()
    }

    /// How many words are left at most.
    #[inline(always)]
    pub fn most(&self) -> usize
        ensures { length self.now ≤ result }
    {
        self.words.most()
    }

    /// The next word.
    #[inline(always)]
    pub fn word(&mut self) -> Option<&'a [u8]>
        ensures { MatchOption result ((self.old ≡ []) × (self.new ≡ []))
            (λ word. self.old ≡ word.now ∷ self.new) }
    {
        self.words.word()
    }

    /// Whether no word is left.
    pub fn is_empty(&self) -> bool
        ensures { IsTrue result ↔ (self.now ≡ []) }
    {
        self.words.is_empty()
    }

    /// The next word, where it is a word of the language.
    pub fn keyword(&mut self) -> Option<Keyword>
        ensures value { result ≡ first_by keyword_of self.old }
        ensures rest { self.new ≡ rest_of self.old }
    {
        Keyword::new(self.word()?)
    }

    /// The next word, where it is a number.
    pub fn number(&mut self) -> Option<u64>
        ensures value { result ≡ first_by number_of self.old }
        ensures rest { self.new ≡ rest_of self.old }
    {
        number(self.word()?)
    }

    /// The next word, where it is an integer.
    pub fn integer(&mut self) -> Option<i32>
        ensures value { result ≡ first_by integer_of self.old }
        ensures rest { self.new ≡ rest_of self.old }
    {
        integer(self.word()?)
    }

    /// The next word, where it is a name.
    pub fn name(&mut self) -> Option<Name>
        ensures value { result ≡ first_by name_of self.old }
        ensures rest { self.new ≡ rest_of self.old }
    {
        Name::new(self.word()?)
    }
}
