//! The words of a line, cut off one after another in place.
ghost use Rattle.std.specs.Prelude.{◌≡◌, ◌↔◌, ◌+◌, ◌*◌, ◌≤◌, ◌==◌, [], ◌∷◌, false, not, length, count_by, IsTrue, MatchOption};
ghost use Rattle.std.specs.List.{prefix_len};
ghost use Rattle.tt_doc.specs.Words.{begins_with_space, is_comment, words_of};

use std::marker::Model;

/// How many spaces a text begins with.
#[inline(always)]
fn spaces(text: &[u8]) -> usize
    ensures value { result ≡ prefix_len (λ b. b == 32) text.now }
    ensures inside { result ≤ length text.now }
{
    for (n, b) in text.iter().enumerate() {
        if *b != b' ' {
            return n;
        }
    }
    text.len()
}

/// How many bytes come before the first space.
#[inline(always)]
fn word_len(text: &[u8]) -> usize
    ensures value { result ≡ prefix_len (λ b. not (b == 32)) text.now }
    ensures inside { result ≤ length text.now }
{
    for (n, b) in text.iter().enumerate() {
        if *b == b' ' {
            return n;
        }
    }
    text.len()
}

#[inline(always)]
fn count_spaces(text: &[u8]) -> usize
    ensures { result ≡ count_by (λ b. b == 32) text.now }
{
    text.iter().filter(|b| **b == b' ').count()
}

/// What follows the leading spaces.
#[inline(always)]
fn after_spaces(text: &[u8]) -> &[u8]
    ensures words { words_of result.now ≡ words_of text.now }
    ensures next { begins_with_space result.now ≡ false }
{
    &text[spaces(text)..]
}

/// The words of a line that are not taken yet. Contracts see it as the list of their texts.
#[derive(Drop)]
pub struct LineWords<'a> {
    /// What is left of the line, from its next word on.
    rest: &'a [u8],
}

impl<'a> Model for LineWords<'a> {
    ghost use Rattle.std.specs.Prelude.{◌≡◌, false, List, ℕ};
    ghost use Rattle.tt_doc.specs.Words.{begins_with_space, words_of};

    ghost Value = { List (List ℕ) };

    ghost view = { λ w. words_of w.rest.now };

    ghost invariant = { λ w. begins_with_space w.rest.now ≡ false };
}

impl<'a> LineWords<'a> {
    /// The words of a line: at most one word for two bytes.
    pub fn new(line: &'a [u8]) -> LineWords<'a>
        ensures words { result ≡ words_of line.now }
        ensures few { 2 * length result ≤ length line.now + 1 }
    {
        LineWords {
            rest: after_spaces(line),
        }
    }

    /// Whether no word is left.
    pub fn is_empty(&self) -> bool
        ensures { IsTrue result ↔ (self.now ≡ []) }
    {
        self.rest.is_empty()
    }

    /// How many words are left at most: one more than there are spaces.
    #[inline(always)]
    pub fn most(&self) -> usize
        ensures { length self.now ≤ result }
    {
        count_spaces(self.rest) + 1
    }

    /// Whether no word is left, or the next one begins with `#`.
    pub fn is_comment(&self) -> bool
        ensures { result ≡ is_comment self.now }
    {
        match self.rest.first() {
            None => true,
            Some(first) => *first == b'#',
        }
    }

    /// The next word.
    #[inline(always)]
    pub fn word(&mut self) -> Option<&'a [u8]>
        ensures { MatchOption result ((self.old ≡ []) × (self.new ≡ []))
            (λ word. self.old ≡ word.now ∷ self.new) }
    {
        if self.rest.is_empty() {
            return None;
        }
        let len = word_len(self.rest);
        let (word, rest) = self.rest.split_at(len);
        self.rest = after_spaces(rest);
        Some(word)
    }
}
